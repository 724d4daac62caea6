ghost use Rattle.std.specs.Prelude.{◌≡◌, [], IfOk};
ghost use Rattle.core_terms.specs.Answers.{GivesUnless};
ghost use Rattle.core_text.specs.RawEntries.{RawFamilyOf};
ghost use Rattle.core_sig.specs.Raw.{raw_of};
ghost use Rattle.surface_syntax.specs.TreeMeanings.{decl_of, surf_of};
ghost use Rattle.resolve.specs.Answers.{Gives};
ghost use Rattle.elab_session.specs.Declaring as spec;
ghost use Rattle.elab_session.specs.Entering.{CanEnter};
ghost use Rattle.elab_session.specs.Meanings.{definition_of, raw_entry_of};
ghost use Rattle.elab_session.specs.Refusals.{IsUnforeseen};

use crate::Refusal;
use crate::raw_entry::{Definition, RawEntry};
use core_sig::Signature;
use core_terms::{Items, copy_name};
use resolve::{ResolveStop, resolve_data, resolve_term};
use std::alloc::Global;
use surface_syntax::{Decl, Surf, Word};

/// The entry that is declared.
pub(crate) fn resolve_entry(alloc: Global, sig: &Signature, d: &Decl) -> Result<RawEntry, Refusal>
    requires { spec.IsPlain (decl_of d.now) }
    ensures answer { GivesUnless IsUnforeseen raw_entry_of result (spec.resolve_entry sig.now (decl_of d.now)) }
    ensures can { IfOk result (λ raw. CanEnter sig.now (raw_entry_of raw)) }
{
    match d {
        Decl::Def { name, ty, body } => {
            let definition = resolve_definition(alloc, sig, name, ty, body)?;
            Ok(RawEntry::Def(definition))
        }
        Decl::Data { .. } => {
            let family = resolve_data(alloc, sig, d)?;
            Ok(RawEntry::Family(family))
        }
        Decl::Decide { .. } | Decl::Mutual { .. } | Decl::Fun { .. } => unreachable!(),
    }
}

/// The definition that is written.
fn resolve_definition(
    alloc: Global,
    sig: &Signature,
    x: &Word,
    ty: &Surf,
    body: &Surf,
) -> Result<Definition, ResolveStop>
    ensures answer { Gives definition_of result (spec.resolve_definition sig.now x.now (surf_of ty.now) (surf_of body.now)) }
    ensures can { IfOk result (λ d. CanEnter sig.now (definition_of d)) }
{
    let name = copy_name(alloc, &x.text)?;
    if sig.find(x.text.as_slice()).is_some() {
        return Err(ResolveStop::Duplicate(x.start, name));
    }
    let scope = Items::new(alloc);
    let ty = resolve_term(alloc, sig, &scope, ty)?;
    let body = resolve_term(alloc, sig, &scope, body)?;
    Ok(Definition { name, ty, body })
}
