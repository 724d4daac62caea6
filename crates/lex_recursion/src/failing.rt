ghost use Rattle.std.specs.Prelude.{◌≤◌, ◌+◌, ◌∷◌, [], Ok, option_map};
ghost use Rattle.std.specs.Option.{option_or};
ghost use Rattle.theory.specs.Terms.{height};
ghost use Rattle.core_terms.specs.Answers.{Gives};
ghost use Rattle.core_terms.specs.Bounds.{most_height};
ghost use Rattle.core_terms.specs.Meanings.{tree_of, tele_of};
ghost use Rattle.tele_eq.specs.Items.{AreSmallTerms, IsSmall};
ghost use Rattle.tree_translation.specs.structural_rec.Calls.{calls_in};
ghost use Rattle.tree_translation.specs.structural_rec.Conditions.{AreSmallUses};
ghost use Rattle.tree_translation.specs.structural_rec.Meanings.{use_of, uses_of};
ghost use Rattle.lex_recursion.specs.PairChoices as spec;
ghost use Rattle.lex_recursion.specs.Meanings.{failing_of, pair_of};

use crate::FailingPair;
use crate::fitting::{PairPlace, fits_pair};
use core_terms::{Stop, Term, copy_whole};
use std::alloc::Global;
use tree_translation::structural_rec::Use;

/// The call itself, where it does not fit.
fn unless_fits(
    alloc: Global,
    p: &PairPlace,
    terms: &[Term],
    under: u32,
    call: &Term,
) -> Result<Option<Term>, Stop>
    requires small { AreSmallTerms (tele_of terms.now) }
    requires under { under ≤ most_height }
    ensures { Gives (option_map tree_of) result (Ok (spec.failing_call p.now.sig.now p.now.count (pair_of p.now) (tele_of terms.now) (record { under = under; term = tree_of call.now } ∷ []))) }
{
    if fits_pair(alloc, p, terms, under, call)? {
        return Ok(None);
    }
    Ok(Some(copy_whole(alloc, call)?))
}

/// The first call in `t` that does not fit; `whole` is the application of `t` to the arguments after it.
#[cycle(failing_call)]
#[tactic(auto, using(crate::proofs::FailingCalls::failing_append, tree_translation::proofs::structural_rec::FailingCalls::or_assoc))]
fn failing_call(
    alloc: Global,
    p: &PairPlace,
    terms: &[Term],
    under: u32,
    whole: &Term,
    t: &Term,
) -> Result<Option<Term>, Stop>
    requires small { AreSmallTerms (tele_of terms.now) }
    requires under { under + height (tree_of t.now) ≤ most_height }
    ensures { Gives (option_map tree_of) result (Ok (spec.failing_call p.now.sig.now p.now.count (pair_of p.now) (tele_of terms.now) (calls_in p.now.own under (tree_of whole.now) (tree_of t.now)))) }
{
    match t {
        Term::Pi(first, second) | Term::Lam(first, second) => {
            let found = failing_call(alloc, p, terms, under, first, first)?;
            or_failing_call(alloc, p, terms, found, under + 1, second)
        }
        Term::App(first, second) => {
            let found = failing_call(alloc, p, terms, under, whole, first)?;
            or_failing_call(alloc, p, terms, found, under, second)
        }
        Term::Let(ty, value, rest) => {
            let found = failing_call(alloc, p, terms, under, ty, ty)?;
            let found = or_failing_call(alloc, p, terms, found, under, value)?;
            or_failing_call(alloc, p, terms, found, under + 1, rest)
        }
        Term::Const(c) if *c == p.own => unless_fits(alloc, p, terms, under, whole),
        _ => Ok(None),
    }
}

/// The call that is found already, or else the first one in `t`.
#[cycle(failing_call)]
fn or_failing_call(
    alloc: Global,
    p: &PairPlace,
    terms: &[Term],
    found: Option<Term>,
    under: u32,
    t: &Term,
) -> Result<Option<Term>, Stop>
    requires small { AreSmallTerms (tele_of terms.now) }
    requires under { under + height (tree_of t.now) ≤ most_height }
    ensures { Gives (option_map tree_of) result (Ok (option_or (option_map tree_of found) (spec.failing_call p.now.sig.now p.now.count (pair_of p.now) (tele_of terms.now) (calls_in p.now.own under (tree_of t.now) (tree_of t.now))))) }
{
    match found {
        Some(call) => Ok(Some(call)),
        None => failing_call(alloc, p, terms, under, t, t),
    }
}

/// The row of the first call of a right side that does not fit.
fn failing_in(alloc: Global, p: &PairPlace, one: &Use) -> Result<Option<FailingPair>, Stop>
    requires terms { AreSmallTerms (tele_of one.now.terms) }
    requires body { IsSmall (tree_of one.now.body) }
    ensures { Gives (option_map failing_of) result (Ok (spec.failing_in p.now.sig.now p.now.own p.now.count (pair_of p.now) (use_of one.now))) }
{
    match failing_call(alloc, p, one.terms.as_slice(), 0, &one.body, &one.body)? {
        Some(call) => Ok(Some(FailingPair {
            first: p.first,
            second: p.second,
            clause: one.clause,
            call,
        })),
        None => Ok(None),
    }
}

/// The row of the first call of all that does not fit.
pub(crate) fn first_failing(
    alloc: Global,
    p: &PairPlace,
    uses: &[Use],
) -> Result<Option<FailingPair>, Stop>
    requires { AreSmallUses (uses_of uses.now) }
    ensures { Gives (option_map failing_of) result (Ok (spec.first_failing p.now.sig.now p.now.own p.now.count (pair_of p.now) (uses_of uses.now))) }
{
    match uses {
        [] => Ok(None),
        [one, rest @ ..] => match failing_in(alloc, p, one)? {
            Some(row) => Ok(Some(row)),
            None => first_failing(alloc, p, rest),
        },
    }
}
