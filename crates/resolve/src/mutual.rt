ghost use Rattle.std.specs.Prelude.{◌≡◌, [], ◌++◌, map, IfOk, OnOk, Ok};
ghost use Rattle.theory.specs.Signatures.{Signature, IsPrefix};
ghost use Rattle.core_terms.specs.Meanings.{tele_of};
ghost use Rattle.core_sig.specs.Raw as raw;
ghost use Rattle.core_sig.specs.Raw.{mutual_of};
ghost use Rattle.surface_syntax.specs.TreeMeanings.{decl_of, member_of, param_of};
ghost use Rattle.resolve.specs.Answers.{Gives};
ghost use Rattle.resolve.specs.DeclaredNames.{AreNewNames};
ghost use Rattle.resolve.specs.Mutual as spec;
ghost use Rattle.resolve.specs.Names.{scope_of, known_in, with_constants};
ghost use Rattle.resolve.specs.Scoping.{HasMemberConstants, IsResolvedMutual};
ghost use Rattle.resolve.specs.Scopes.{names_of, known_of};

use crate::ResolveStop;
use crate::families::{constructors, parameters};
use crate::member_names::{MemberNames, numbered};
use crate::names::declare;
use crate::scope::Scope;
use crate::symbols::{Own, Symbols};
use crate::terms::resolve;
use crate::variables::Variables;
use core_sig::{MutualRaw, NameSet, RawMember, Signature};
use core_terms::{Items, Name, Tele};
use std::alloc::Global;
use surface_syntax::{Decl, SurfMember, SurfParam, Word};

/// The families that a declaration of families which refer to each other stands for. In the types of constructors the first member is the
/// constant with the number of the next entry, and each other one has the next number.
pub fn resolve_mutual(alloc: Global, sig: &Signature, d: &Decl) -> Result<MutualRaw, ResolveStop>
    requires { spec.IsMutual (decl_of d.now) }
    ensures answer { Gives mutual_of result (spec.resolve_mutual sig.now (decl_of d.now)) }
    ensures named { IfOk result (λ raw. AreNewNames sig.now (decl_of d.now) (mutual_of raw)) }
    ensures scoped { (T : Signature) → IsPrefix sig.now T → IfOk result (λ raw. HasMemberConstants sig.now T (mutual_of raw) → IsResolvedMutual sig.now T (mutual_of raw)) }
{
    match d {
        Decl::Mutual {
            params,
            members,
            family,
            tag,
            tags,
        } => mutual_family(
            alloc,
            sig,
            params.as_slice(),
            members.as_slice(),
            family,
            tag,
            tags.as_slice(),
        ),
        _ => unreachable!(),
    }
}

fn mutual_family(
    alloc: Global,
    sig: &Signature,
    params: &[SurfParam],
    list: &[SurfMember],
    family: &Word,
    tag: &Word,
    tags: &[Word],
) -> Result<MutualRaw, ResolveStop>
    ensures { Gives mutual_of result (spec.mutual_family sig.now (map param_of params.now) (map member_of list.now) family.now tag.now tags.now) }
{
    check_first(alloc, sig, list)?;
    let unnamed = Symbols {
        sig,
        own: Own::Unnamed,
    };
    let mut names = Variables::new(alloc);
    let params = parameters(alloc, &unnamed, params, &mut names)?;
    let mut declared = NameSet::new(alloc);
    let list = known_members(alloc, sig, list, &names, &mut declared)?;
    packed_under(alloc, sig, params, list, family, tag, tags, &mut declared)
}

/// Refuses the name of the first member, which stands before the parameters, where it is taken.
fn check_first(alloc: Global, sig: &Signature, list: &[SurfMember]) -> Result<(), ResolveStop>
    ensures { Gives (λ first. first) result (spec.first_declared sig.now (map member_of list.now)) }
{
    match list {
        [] => Ok(()),
        [member, ..] => {
            declare(alloc, sig, &mut NameSet::new(alloc), &member.name)?;
            Ok(())
        }
    }
}

/// The members under the parameters, whose names are added to those that are declared before them.
fn known_members(
    alloc: Global,
    sig: &Signature,
    list: &[SurfMember],
    params: &Variables,
    declared: &mut NameSet,
) -> Result<Items<RawMember>, ResolveStop>
    ensures members { Gives (map raw.member_of) result (spec.members sig.now (spec.known_with_members sig.now (map member_of list.now)) (scope_of params.now) declared.old (map member_of list.now)) }
    ensures names { OnOk result (declared.new ≡ declared.old ++ spec.names_of_all (map member_of list.now)) }
{
    let names = numbered(alloc, sig.len(), list)?;
    members(alloc, sig, &names, list, params, declared)
}

/// The members, where these names are known in the types of their constructors.
fn members<'a>(
    alloc: Global,
    sig: &'a Signature,
    names: &'a MemberNames,
    list: &[SurfMember],
    params: &Variables,
    declared: &mut NameSet,
) -> Result<Items<RawMember>, ResolveStop>
    ensures members { Gives (map raw.member_of) result (spec.members sig.now (with_constants names.now.first names.now.names (known_in sig.now)) (scope_of params.now) declared.old (map member_of list.now)) }
    ensures names { OnOk result (declared.new ≡ declared.old ++ spec.names_of_all (map member_of list.now)) }
{
    let known = Symbols {
        sig,
        own: Own::Members(names),
    };
    let scope = Scope::Given(params);
    let mut made = Items::new(alloc);
    for m in list {
        made.push(member(alloc, &known, m, &scope, declared)?)?;
    }
    Ok(made)
}

fn member(
    alloc: Global,
    known: &Symbols,
    m: &SurfMember,
    scope: &Scope,
    declared: &mut NameSet,
) -> Result<RawMember, ResolveStop>
    ensures member { Gives raw.member_of result (spec.member known.now.sig.now (known_of known.now) (names_of scope.now) declared.old (member_of m.now)) }
    ensures names { OnOk result (declared.new ≡ declared.old ++ spec.member_names (member_of m.now)) }
{
    let name = declare(alloc, known.sig, declared, &m.name)?;
    let unnamed = Symbols {
        sig: known.sig,
        own: Own::Unnamed,
    };
    let ty = resolve(alloc, &unnamed, &m.ty, scope)?;
    let cons = constructors(alloc, known, m.cons.as_slice(), scope, declared)?;
    Ok(RawMember {
        name,
        ty: ty.term,
        cons,
    })
}

/// The declaration with its parameters and members, once the names behind these are declared.
fn packed_under(
    alloc: Global,
    sig: &Signature,
    params: Tele,
    members: Items<RawMember>,
    family: &Word,
    tag: &Word,
    tags: &[Word],
    declared: &mut NameSet,
) -> Result<MutualRaw, ResolveStop>
    ensures { Gives mutual_of result (spec.packed_under sig.now declared.old (tele_of params) (map raw.member_of members) family.now tag.now tags.now) }
{
    let family = declare(alloc, sig, declared, family)?;
    let tag = declare(alloc, sig, declared, tag)?;
    let tags = declared_all(alloc, sig, tags, declared)?;
    Ok(MutualRaw {
        params,
        members,
        family,
        tag,
        tags,
    })
}

/// Declares names one after the other.
fn declared_all(
    alloc: Global,
    sig: &Signature,
    words: &[Word],
    declared: &mut NameSet,
) -> Result<Items<Name>, ResolveStop>
    ensures { Gives (λ names. names) result (spec.declared_all sig.now declared.old words.now) }
{
    let mut made = Items::new(alloc);
    for word in words {
        made.push(declare(alloc, sig, declared, word)?)?;
    }
    Ok(made)
}
