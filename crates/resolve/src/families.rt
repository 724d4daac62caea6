ghost use Rattle.std.specs.Prelude.{◌≡◌, ◌++◌, map, length, IfOk, OnOk};
ghost use Rattle.theory.specs.Signatures.{Signature, IsPrefix};
ghost use Rattle.theory.specs.SignatureScopes.{IsFamilyNumber};
ghost use Rattle.core_terms.specs.Meanings.{tele_of};
ghost use Rattle.core_sig.specs.Raw.{raw_of, raw_constructor_of};
ghost use Rattle.surface_syntax.specs.TreeMeanings.{surf_of, param_of, con_of, decl_of};
ghost use Rattle.resolve.specs.Answers.{Gives};
ghost use Rattle.resolve.specs.DeclaredNames.{IsNewName, declared_word};
ghost use Rattle.resolve.specs.Families as spec;
ghost use Rattle.resolve.specs.Scoping.{IsResolvedFamily};
ghost use Rattle.resolve.specs.Scopes.{names_of, known_of};

use crate::ResolveStop;
use crate::names::declare;
use crate::scope::Scope;
use crate::symbols::{Own, Symbols};
use crate::terms::resolve;
use crate::variables::Variables;
use core_sig::{NameSet, RawCon, RawFamily, Signature};
use core_terms::{Items, Tele};
use std::alloc::Global;
use surface_syntax::{Decl, Surf, SurfCon, SurfParam, Word};

/// The family that a declaration of a family stands for. In the types of its constructors it has the number of the
/// next entry.
pub fn resolve_data(alloc: Global, sig: &Signature, d: &Decl) -> Result<RawFamily, ResolveStop>
    requires { spec.IsData (decl_of d.now) }
    ensures answer { Gives raw_of result (spec.resolve_data sig.now (decl_of d.now)) }
    ensures named { IfOk result (λ raw. IsNewName sig.now (declared_word (decl_of d.now)) raw.name) }
    ensures scoped { (T : Signature) → IsPrefix sig.now T → IsFamilyNumber T (length sig.now.entries) → IfOk result (λ raw. IsResolvedFamily sig.now T (raw_of raw)) }
{
    match d {
        Decl::Data {
            name,
            params,
            ty,
            cons,
        } => family(alloc, sig, name, params.as_slice(), ty, cons.as_slice()),
        _ => unreachable!(),
    }
}

fn family<'a>(
    alloc: Global,
    sig: &'a Signature,
    x: &'a Word,
    params: &[SurfParam],
    ty: &Surf,
    cons: &[SurfCon],
) -> Result<RawFamily, ResolveStop>
    ensures { Gives raw_of result (spec.family sig.now x.now (map param_of params.now) (surf_of ty.now) (map con_of cons.now)) }
{
    let mut declared = NameSet::new(alloc);
    let name = declare(alloc, sig, &mut declared, x)?;
    let unnamed = Symbols {
        sig,
        own: Own::Unnamed,
    };
    let mut names = Variables::new(alloc);
    let params = parameters(alloc, &unnamed, params, &mut names)?;
    let scope = Scope::Given(&names);
    let ty = resolve(alloc, &unnamed, ty, &scope)?;
    let known = Symbols {
        sig,
        own: Own::Family(&x.text),
    };
    let cons = constructors(alloc, &known, cons, &scope, &mut declared)?;
    Ok(RawFamily {
        name,
        params,
        ty: ty.term,
        cons,
    })
}

/// The types of the parameters, whose names are added to those before them.
pub(crate) fn parameters(
    alloc: Global,
    known: &Symbols,
    params: &[SurfParam],
    names: &mut Variables,
) -> Result<Tele, ResolveStop>
    ensures types { Gives tele_of result (spec.parameters (known_of known.now) names.old (map param_of params.now)) }
    ensures names { OnOk result (names.new ≡ names.old ++ spec.names_of (map param_of params.now)) }
{
    let mut types = Items::new(alloc);
    for param in params {
        let ty = resolve(alloc, known, &param.ty, &Scope::Given(&*names))?;
        types.push(ty.term)?;
        names.push(&param.name.text)?;
    }
    Ok(types)
}

/// The constructors, whose names are added to those that are declared before them.
pub(crate) fn constructors(
    alloc: Global,
    known: &Symbols,
    cons: &[SurfCon],
    scope: &Scope,
    declared: &mut NameSet,
) -> Result<Items<RawCon>, ResolveStop>
    ensures constructors { Gives (map raw_constructor_of) result (spec.constructors known.now.sig.now (known_of known.now) (names_of scope.now) declared.old (map con_of cons.now)) }
    ensures names { OnOk result (declared.new ≡ declared.old ++ spec.names_of (map con_of cons.now)) }
{
    let mut raw = Items::new(alloc);
    for con in cons {
        let name = declare(alloc, known.sig, declared, &con.name)?;
        let ty = resolve(alloc, known, &con.ty, scope)?;
        raw.push(RawCon { name, ty: ty.term })?;
    }
    Ok(raw)
}
