//! Whether the equality of a family can be decided.
ghost use Rattle.std.specs.Prelude.{◌≡◌, Ok, IfOk};
ghost use Rattle.core_terms.specs.Answers.{Gives, GivesUnless, Unless};
ghost use Rattle.core_text.specs.SymbolNames.{constructor_name_at};
ghost use Rattle.decide_eq.specs.PlainFamilies.{plain_family};
ghost use Rattle.elab_session.specs.Refusals.{IsUnforeseen};
ghost use Rattle.function_session.specs.decisions.Refusals as spec;

use crate::decisions::naming::Named;
use core_sig::Signature;
use core_terms::{Items, Name, Stop, Term, copy_name};
use core_text::print_term;
use decide_eq::{DecideStop, plain_family};
use elab_session::Refusal;
use std::alloc::Global;
use surface_syntax::Word;

/// The name of a constructor.
fn constructor_name(alloc: Global, sig: &Signature, family: u32, con: u32) -> Result<Name, Stop>
    ensures { Gives (λ name. name) result (Ok (constructor_name_at sig.now family con)) }
{
    let text = print_term(alloc, sig, &Term::Con(family, con))?;
    Ok(Name::from_vec(text.into_vec()))
}

/// Why the equality of the family with the number is not decided, by the written names.
fn undecided(
    alloc: Global,
    sig: &Signature,
    number: u32,
    family: &Word,
    into: &Word,
    stop: DecideStop,
) -> Result<Refusal, Stop>
    ensures { Gives (λ refusal. refusal) result (Ok (spec.undecided sig.now number family.now into.now stop)) }
{
    match stop {
        DecideStop::Memory => Ok(Refusal::Memory),
        DecideStop::Deep => Ok(Refusal::Deep),
        DecideStop::NotPlainFamily => Ok(Refusal::NotPlainFamily(copy_name(alloc, &family.text)?)),
        DecideStop::NotDecision => Ok(Refusal::NotDecision(copy_name(alloc, &into.text)?)),
        DecideStop::NotFirstOrder(con, k) => {
            let name = constructor_name(alloc, sig, number, con)?;
            Ok(Refusal::NotFirstOrder(name, k))
        }
    }
}

/// The refusal, or Memory where there is none for its name.
fn refused(
    alloc: Global,
    sig: &Signature,
    number: u32,
    family: &Word,
    into: &Word,
    stop: DecideStop,
) -> Refusal
    ensures { Unless (IsUnforeseen result) (result ≡ spec.undecided sig.now number family.now into.now stop) }
{
    match undecided(alloc, sig, number, family, into, stop) {
        Ok(refusal) => refusal,
        Err(_) => Refusal::Memory,
    }
}

/// Answers Ok where the equality of the one family can be decided into the other, and these decisions are known.
pub(crate) fn decidable(
    alloc: Global,
    sig: &Signature,
    named: &Named,
    family: &Word,
    into: &Word,
    known: &Items<(u32, u32)>,
) -> Result<(), Refusal>
    ensures answer { GivesUnless IsUnforeseen (λ u. u) result (spec.decidable sig.now named.now.family named.now.into family.now into.now known.now) }
    ensures plain { IfOk result (λ _. plain_family sig.now named.now.family named.now.into known.now ≡ Ok tt) }
{
    match plain_family(sig, named.family, named.into, known) {
        Ok(()) => Ok(()),
        Err(stop) => Err(refused(alloc, sig, named.family, family, into, stop)),
    }
}
