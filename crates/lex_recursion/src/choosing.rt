ghost use Rattle.std.specs.Prelude.{◌≡◌, ◌≤◌, ◌+◌, ◌++◌, ◌∷◌, [], Ok, flat_map, length, map, option_map};
ghost use Rattle.std.specs.List.{range_with_len};
ghost use Rattle.core_terms.specs.Answers.{Gives};
ghost use Rattle.core_terms.specs.Bounds.{most_height};
ghost use Rattle.core_terms.specs.Meanings.{tele_of};
ghost use Rattle.tree_translation.specs.structural_rec.Conditions.{AreSmallUses, IsSmallTelescope};
ghost use Rattle.tree_translation.specs.structural_rec.Meanings.{admission_of, uses_of};
ghost use Rattle.tree_translation.specs.structural_rec.Orders.{recursive_positions as positions_gone_over};
ghost use Rattle.tree_translation.specs.structural_rec.Positions.{admission};
ghost use Rattle.lex_recursion.specs.Meanings.{choice_of, failing_of};
ghost use Rattle.lex_recursion.specs.PairChoices as spec;
ghost use Rattle.lex_recursion.specs.Pairs as pairs;

use crate::failing::first_failing;
use crate::fitting::PairPlace;
use crate::following::following;
use crate::{FailingPair, PairChoice};
use core_sig::Signature;
use core_terms::{Items, Stop, Tele, Term};
use std::alloc::Global;
use tree_translation::structural_rec::{Admission, Use, find_admission, recursive_positions};

/// A telescope over which pairs are looked for, for the function with the constant `own`, and its uses of itself.
#[derive(Clone, Copy)]
struct Search<'a> {
    sig: &'a Signature,
    tele: &'a [Term],
    own: u32,
    uses: &'a [Use],
}

/// A position that admits recursion, with its admission and the positions that recursion goes over.
#[derive(Clone, Copy)]
struct First<'a> {
    position: u32,
    admission: &'a Admission,
    gone_over: &'a [u32],
}

/// The pair of positions at which the function with the constant `own` is recursive, over the telescope of its arity.
#[tactic(auto, using(crate::proofs::LaterPairs::no_rows_before))]
pub fn choose_pair(
    alloc: Global,
    sig: &Signature,
    tele: &Tele,
    own: u32,
    uses: &Items<Use>,
) -> Result<PairChoice, Stop>
    requires tele { IsSmallTelescope (tele_of tele.now) }
    requires uses { AreSmallUses (uses_of uses.now) }
    ensures { Gives choice_of result (Ok (spec.choose_pair sig.now (tele_of tele.now) own (uses_of uses.now))) }
{
    let s = Search {
        sig,
        tele: tele.as_slice(),
        own,
        uses: uses.as_slice(),
    };
    choose_from(alloc, &s, 0, s.tele, Items::new(alloc))
}

/// The first usable pair whose first position is `j` or later, or else all rows, after those that are made; `rest` has the types from
/// `j` on.
#[tactic(auto, using(crate::proofs::LaterPairs::no_rows, crate::proofs::LaterPairs::among_append, crate::proofs::LaterPairs::with_rows_else))]
fn choose_from(
    alloc: Global,
    s: &Search,
    j: u32,
    rest: &[Term],
    rows: Items<FailingPair>,
) -> Result<PairChoice, Stop>
    requires tele { IsSmallTelescope (tele_of s.now.tele.now) }
    requires uses { AreSmallUses (uses_of s.now.uses.now) }
    requires few { j + length rest.now ≤ most_height }
    ensures { Gives choice_of result (Ok (spec.with_rows (map failing_of rows) (spec.choose_among s.now.sig.now s.now.own (length (tele_of s.now.tele.now)) (uses_of s.now.uses.now) (flat_map (λ i. pairs.pairs_from s.now.sig.now (tele_of s.now.tele.now) i (admission s.now.sig.now (tele_of s.now.tele.now) i)) (range_with_len j (length rest.now)))))) }
{
    match rest {
        [] => Ok(PairChoice::Failing(rows)),
        [_, others @ ..] => match choose_at(alloc, s, j, rows)? {
            PairChoice::Failing(rows) => choose_from(alloc, s, j + 1, others, rows),
            taken => Ok(taken),
        },
    }
}

/// The first usable pair whose first position is `j`, or else all rows, after those that are made.
#[tactic(auto, using(crate::proofs::LaterPairs::no_rows))]
fn choose_at(
    alloc: Global,
    s: &Search,
    j: u32,
    rows: Items<FailingPair>,
) -> Result<PairChoice, Stop>
    requires tele { IsSmallTelescope (tele_of s.now.tele.now) }
    requires uses { AreSmallUses (uses_of s.now.uses.now) }
    ensures { Gives choice_of result (Ok (spec.with_rows (map failing_of rows) (spec.choose_among s.now.sig.now s.now.own (length (tele_of s.now.tele.now)) (uses_of s.now.uses.now) (pairs.pairs_from s.now.sig.now (tele_of s.now.tele.now) j (admission s.now.sig.now (tele_of s.now.tele.now) j))))) }
{
    match find_admission(alloc, s.sig, s.tele, j)? {
        Some(a) => choose_with(alloc, s, j, &a, rows),
        None => Ok(PairChoice::Failing(rows)),
    }
}

/// That choice, where `j` has the admission.
fn choose_with(
    alloc: Global,
    s: &Search,
    j: u32,
    a: &Admission,
    rows: Items<FailingPair>,
) -> Result<PairChoice, Stop>
    requires tele { IsSmallTelescope (tele_of s.now.tele.now) }
    requires uses { AreSmallUses (uses_of s.now.uses.now) }
    ensures { Gives choice_of result (Ok (spec.with_rows (map failing_of rows) (spec.choose_among s.now.sig.now s.now.own (length (tele_of s.now.tele.now)) (uses_of s.now.uses.now) (pairs.pairs_behind s.now.sig.now (tele_of s.now.tele.now) j (range_with_len 0 (length (tele_of s.now.tele.now))) (admission_of a.now))))) }
{
    let gone_over = recursive_positions(alloc, j, a)?;
    let first = First {
        position: j,
        admission: a,
        gone_over: gone_over.as_slice(),
    };
    choose_behind(alloc, s, &first, 0, s.tele, rows)
}

/// The first usable pair of this first position and a second one from `k` on, or else all rows, after those that are made; `rest` has
/// the types from `k` on.
#[tactic(auto, using(crate::proofs::LaterPairs::no_rows, crate::proofs::LaterPairs::among_append, crate::proofs::LaterPairs::with_rows_else))]
fn choose_behind(
    alloc: Global,
    s: &Search,
    first: &First,
    k: u32,
    rest: &[Term],
    rows: Items<FailingPair>,
) -> Result<PairChoice, Stop>
    requires tele { IsSmallTelescope (tele_of s.now.tele.now) }
    requires uses { AreSmallUses (uses_of s.now.uses.now) }
    requires few { k + length rest.now ≤ most_height }
    requires gone_over { first.now.gone_over.now ≡ positions_gone_over first.now.position (admission_of first.now.admission.now) }
    ensures { Gives choice_of result (Ok (spec.with_rows (map failing_of rows) (spec.choose_among s.now.sig.now s.now.own (length (tele_of s.now.tele.now)) (uses_of s.now.uses.now) (pairs.pairs_behind s.now.sig.now (tele_of s.now.tele.now) first.now.position (range_with_len k (length rest.now)) (admission_of first.now.admission.now))))) }
{
    match rest {
        [] => Ok(PairChoice::Failing(rows)),
        [_, others @ ..] => match choose_one(alloc, s, first, k, rows)? {
            PairChoice::Failing(rows) => choose_behind(alloc, s, first, k + 1, others, rows),
            taken => Ok(taken),
        },
    }
}

/// The pair of this first position and `k`, if it is one and usable, or else all rows, after those that are made.
#[tactic(auto, using(crate::proofs::LaterPairs::one_choice))]
fn choose_one(
    alloc: Global,
    s: &Search,
    first: &First,
    k: u32,
    rows: Items<FailingPair>,
) -> Result<PairChoice, Stop>
    requires tele { IsSmallTelescope (tele_of s.now.tele.now) }
    requires uses { AreSmallUses (uses_of s.now.uses.now) }
    requires gone_over { first.now.gone_over.now ≡ positions_gone_over first.now.position (admission_of first.now.admission.now) }
    ensures { Gives choice_of result (Ok (spec.with_rows (map failing_of rows) (spec.choose_among s.now.sig.now s.now.own (length (tele_of s.now.tele.now)) (uses_of s.now.uses.now) (pairs.if_some (pairs.pair_behind s.now.sig.now (tele_of s.now.tele.now) first.now.position (admission_of first.now.admission.now) k))))) }
{
    match failing_at(alloc, s, first, k)? {
        Some(None) => Ok(PairChoice::At(first.position, k)),
        Some(Some(row)) => Ok(PairChoice::Failing(with_row(rows, row)?)),
        None => Ok(PairChoice::Failing(rows)),
    }
}

/// Rows with one more after them.
#[tactic(auto, using(tele_eq::proofs::Growing::growing))]
fn with_row(mut rows: Items<FailingPair>, row: FailingPair) -> Result<Items<FailingPair>, Stop>
    ensures { Gives (map failing_of) result (Ok (map failing_of rows ++ failing_of row ∷ [])) }
{
    rows.push(row)?;
    Ok(rows)
}

/// For a pair, the row of the first call that does not fit, if there is one.
fn failing_at(
    alloc: Global,
    s: &Search,
    first: &First,
    k: u32,
) -> Result<Option<Option<FailingPair>>, Stop>
    requires tele { IsSmallTelescope (tele_of s.now.tele.now) }
    requires uses { AreSmallUses (uses_of s.now.uses.now) }
    requires gone_over { first.now.gone_over.now ≡ positions_gone_over first.now.position (admission_of first.now.admission.now) }
    ensures { Gives (option_map (option_map failing_of)) result (Ok (option_map (λ p. spec.first_failing s.now.sig.now s.now.own (length (tele_of s.now.tele.now)) p (uses_of s.now.uses.now)) (pairs.pair_behind s.now.sig.now (tele_of s.now.tele.now) first.now.position (admission_of first.now.admission.now) k))) }
{
    match following(alloc, s.sig, s.tele, first.gone_over, k)? {
        Some(b) => {
            let p = PairPlace {
                sig: s.sig,
                own: s.own,
                count: s.tele.len() as u32,
                first: first.position,
                outer: first.admission,
                second: k,
                inner: &b,
            };
            Ok(Some(first_failing(alloc, &p, s.uses)?))
        }
        None => Ok(None),
    }
}
