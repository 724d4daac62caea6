ghost use Rattle.std.specs.Prelude.{[]};
ghost use Rattle.resolve.specs.Answers.{Gives};
ghost use Rattle.resolve.specs.Families.{declared};
ghost use Rattle.function_session.specs.decisions.Naming as spec;

use core_sig::{Found, Signature};
use core_terms::{Name, copy_name};
use resolve::ResolveStop;
use std::alloc::Global;
use surface_syntax::Word;

/// The names of the declaration of a decision: the one that is declared, and the numbers of the entries that the others are. Nothing has
/// the number of a constructor's name.
#[derive(Drop)]
pub(crate) struct Named {
    pub name: Name,
    pub family: u32,
    pub into: u32,
}

/// The declared name, which is new.
fn new_name(alloc: Global, sig: &Signature, x: &Word) -> Result<Name, ResolveStop>
    ensures { Gives (λ name. name) result (declared sig.now [] x.now) }
{
    let name = copy_name(alloc, &x.text)?;
    if sig.find(x.text.as_slice()).is_some() {
        return Err(ResolveStop::Duplicate(x.start, name));
    }
    Ok(name)
}

/// The number of the entry with the name. It is the number of the next entry where the name is that of a constructor.
fn number_named(alloc: Global, sig: &Signature, x: &Word) -> Result<u32, ResolveStop>
    ensures { Gives (λ number. number) result (spec.number_named sig.now x.now) }
{
    match sig.find(x.text.as_slice()) {
        Some(Found::Entry(number)) => Ok(number),
        Some(Found::Con(_, _)) => Ok(sig.len()),
        None => Err(ResolveStop::UnknownName(x.start, copy_name(alloc, &x.text)?)),
    }
}

/// The names of a declaration: the declared one is new, then that of the family is known, and then that of the other family.
pub(crate) fn resolve_names(
    alloc: Global,
    sig: &Signature,
    x: &Word,
    family: &Word,
    into: &Word,
) -> Result<Named, ResolveStop>
    ensures { Gives (λ named. named) result (spec.named sig.now x.now family.now into.now) }
{
    let name = new_name(alloc, sig, x)?;
    let family = number_named(alloc, sig, family)?;
    let into = number_named(alloc, sig, into)?;
    Ok(Named { name, family, into })
}
