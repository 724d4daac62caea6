ghost use Rattle.std.specs.Prelude.{◌≡◌, ◌≤◌, ◌+◌, Ok, option_map};
ghost use Rattle.std.specs.Option.{option_or};
ghost use Rattle.theory.specs.Terms.{height};
ghost use Rattle.core_terms.specs.Answers.{Gives};
ghost use Rattle.core_terms.specs.Bounds.{most_height};
ghost use Rattle.core_terms.specs.Meanings.{tree_of, tele_of};
ghost use Rattle.tele_eq.specs.Items.{AreSmallTerms, IsSmall};
ghost use Rattle.tree_translation.specs.structural_rec.Calls.{calls_in};
ghost use Rattle.tree_translation.specs.structural_rec.Choices as spec;
ghost use Rattle.tree_translation.specs.structural_rec.Conditions.{AreSmallUses};
ghost use Rattle.tree_translation.specs.structural_rec.Meanings.{admission_of, failing_of, use_of, uses_of};

use crate::structural_rec::fitting::{Place, fits};
use crate::structural_rec::{Failing, Use};
use core_terms::{Stop, Term, copy_whole};
use std::alloc::Global;

/// The call itself, where it does not fit.
fn unless_fits(
    alloc: Global,
    p: &Place,
    terms: &[Term],
    under: u32,
    call: &Term,
) -> Result<Option<Term>, Stop>
    requires small { AreSmallTerms (tele_of terms.now) }
    requires under { under ≤ most_height }
    ensures { Gives (option_map tree_of) result (Ok (spec.unless_fits p.now.sig.now p.now.count p.now.position (admission_of p.now.admission.now) (tele_of terms.now) under (tree_of call.now))) }
{
    if fits(alloc, p, terms, under, call)? {
        return Ok(None);
    }
    Ok(Some(copy_whole(alloc, call)?))
}

/// The first call in `t` that does not fit; `whole` is the application of `t` to the arguments after it.
#[cycle(failing_call)]
#[tactic(auto, using(crate::proofs::structural_rec::FailingCalls::failing_append, crate::proofs::structural_rec::FailingCalls::or_assoc))]
fn failing_call(
    alloc: Global,
    p: &Place,
    terms: &[Term],
    under: u32,
    whole: &Term,
    t: &Term,
) -> Result<Option<Term>, Stop>
    requires small { AreSmallTerms (tele_of terms.now) }
    requires under { under + height (tree_of t.now) ≤ most_height }
    ensures { Gives (option_map tree_of) result (Ok (spec.failing_call p.now.sig.now p.now.count p.now.position (admission_of p.now.admission.now) (tele_of terms.now) (calls_in p.now.own under (tree_of whole.now) (tree_of t.now)))) }
{
    match t {
        Term::Pi(first, second) | Term::Lam(first, second) => {
            let found = failing_call(alloc, p, terms, under, first, first)?;
            or_failing_call(alloc, p, terms, found, under + 1, second)
        }
        Term::App(first, second) => {
            let found = failing_call(alloc, p, terms, under, whole, first)?;
            or_failing_call(alloc, p, terms, found, under, second)
        }
        Term::Let(ty, value, rest) => {
            let found = failing_call(alloc, p, terms, under, ty, ty)?;
            let found = or_failing_call(alloc, p, terms, found, under, value)?;
            or_failing_call(alloc, p, terms, found, under + 1, rest)
        }
        Term::Const(c) if *c == p.own => unless_fits(alloc, p, terms, under, whole),
        _ => Ok(None),
    }
}

/// The call that is found already, or else the first one in `t`.
#[cycle(failing_call)]
fn or_failing_call(
    alloc: Global,
    p: &Place,
    terms: &[Term],
    found: Option<Term>,
    under: u32,
    t: &Term,
) -> Result<Option<Term>, Stop>
    requires small { AreSmallTerms (tele_of terms.now) }
    requires under { under + height (tree_of t.now) ≤ most_height }
    ensures { Gives (option_map tree_of) result (Ok (option_or (option_map tree_of found) (spec.failing_call p.now.sig.now p.now.count p.now.position (admission_of p.now.admission.now) (tele_of terms.now) (calls_in p.now.own under (tree_of t.now) (tree_of t.now))))) }
{
    match found {
        Some(call) => Ok(Some(call)),
        None => failing_call(alloc, p, terms, under, t, t),
    }
}

/// The row of the first call of a right side or scrutinee that does not fit.
fn failing_in(alloc: Global, p: &Place, one: &Use) -> Result<Option<Failing>, Stop>
    requires terms { AreSmallTerms (tele_of one.now.terms) }
    requires body { IsSmall (tree_of one.now.body) }
    ensures { Gives (option_map failing_of) result (Ok (spec.failing_in p.now.sig.now p.now.own p.now.count p.now.position (admission_of p.now.admission.now) (use_of one.now))) }
{
    match failing_call(alloc, p, one.terms.as_slice(), 0, &one.body, &one.body)? {
        Some(call) => Ok(Some(Failing {
            position: p.position,
            function: one.function,
            clause: one.clause,
            call,
        })),
        None => Ok(None),
    }
}

/// The row of the first call of all that does not fit.
pub(crate) fn first_failing(alloc: Global, p: &Place, uses: &[Use]) -> Result<Option<Failing>, Stop>
    requires { AreSmallUses (uses_of uses.now) }
    ensures { Gives (option_map failing_of) result (Ok (spec.first_failing p.now.sig.now p.now.own p.now.count p.now.position (admission_of p.now.admission.now) (uses_of uses.now))) }
{
    match uses {
        [] => Ok(None),
        [one, rest @ ..] => match failing_in(alloc, p, one)? {
            Some(row) => Ok(Some(row)),
            None => first_failing(alloc, p, rest),
        },
    }
}
