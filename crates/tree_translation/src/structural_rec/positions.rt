ghost use Rattle.std.specs.Prelude.{◌≡◌, ◌∷◌, Ok, option_map, slice_get};
ghost use Rattle.std.specs.List.{list_any};
ghost use Rattle.core_terms.specs.Answers.{Gives};
ghost use Rattle.core_terms.specs.Meanings.{tree_of, tele_of};
ghost use Rattle.tele_eq.specs.Dependences as dependences;
ghost use Rattle.tele_eq.specs.Items.{AreSmallTerms};
ghost use Rattle.tree_translation.specs.structural_rec.Positions as spec;

use core_terms::{Stop, Term};
use std::alloc::Global;
use tele_eq::{has_variable, is_among};

/// Whether a variable is free in one of the terms.
fn have_variable(n: u32, terms: &[Term]) -> bool
    requires { AreSmallTerms (tele_of terms.now) }
    ensures { result ≡ list_any (dependences.has_variable n) (tele_of terms.now) }
{
    match terms {
        [] => false,
        [t, rest @ ..] => has_variable(n as u64, t) || have_variable(n, rest),
    }
}

/// Whether terms that are at position `j` mention the variable at `i`, before it.
fn have_position(j: u32, i: u32, terms: &[Term]) -> bool
    requires { AreSmallTerms (tele_of terms.now) }
    ensures { result ≡ spec.have_position j i (tele_of terms.now) }
{
    i < j && have_variable(j - i - 1, terms)
}

/// Whether the type at a position has a variable.
fn in_type(tele: &[Term], position: u32, n: u32) -> bool
    requires { AreSmallTerms (tele_of tele.now) }
    ensures { result ≡ spec.in_type n (slice_get (tele_of tele.now) position) }
{
    match tele {
        [] => false,
        [ty, rest @ ..] => {
            if position == 0 {
                has_variable(n as u64, ty)
            } else {
                in_type(rest, position - 1, n)
            }
        }
    }
}

/// Whether the type at `k` mentions the variable at `i`.
fn mentions(tele: &[Term], k: u32, i: u32) -> bool
    requires { AreSmallTerms (tele_of tele.now) }
    ensures { result ≡ spec.mentions (tele_of tele.now) k i }
{
    i < k && in_type(tele, k, k - i - 1)
}

/// Whether the type at one of the positions mentions the variable at `i`.
fn one_mentions(tele: &[Term], i: u32, positions: &[u32]) -> bool
    requires { AreSmallTerms (tele_of tele.now) }
    ensures { result ≡ list_any (λ k. spec.mentions (tele_of tele.now) k i) positions.now }
{
    match positions {
        [] => false,
        [position, rest @ ..] => mentions(tele, *position, i) || one_mentions(tele, i, rest),
    }
}

/// Position `i` before the fixed positions that are found after it, where the parameters or the types of these mention it.
fn with_fixed(
    tele: &[Term],
    j: u32,
    params: &[Term],
    i: u32,
    mut found: Vec<u32>,
) -> Result<Vec<u32>, Stop>
    requires tele { AreSmallTerms (tele_of tele.now) }
    requires params { AreSmallTerms (tele_of params.now) }
    ensures { Gives (λ v. v.items) result (Ok (spec.with_fixed (tele_of tele.now) j (tele_of params.now) i found.items)) }
{
    if have_position(j, i, params) || one_mentions(tele, i, found.as_slice()) {
        found.insert(0, i)?;
    }
    Ok(found)
}

/// The fixed positions below `at`, before those that are found already.
pub fn fixed_below(
    tele: &[Term],
    j: u32,
    params: &[Term],
    at: u32,
    found: Vec<u32>,
) -> Result<Vec<u32>, Stop>
    requires tele { AreSmallTerms (tele_of tele.now) }
    requires params { AreSmallTerms (tele_of params.now) }
    ensures { Gives (λ v. v.items) result (Ok (spec.fixed_below (tele_of tele.now) j (tele_of params.now) at found.items)) }
{
    if at == 0 {
        return Ok(found);
    }
    let found = with_fixed(tele, j, params, at - 1, found)?;
    fixed_below(tele, j, params, at - 1, found)
}

/// The position of a term at `j`, if it is a variable before `j`.
fn position_of(j: u32, t: &Term) -> Option<u32>
    ensures { result ≡ spec.position_of j (tree_of t.now) }
{
    match t {
        Term::Var(v) if *v < j => Some(j - *v - 1),
        _ => None,
    }
}

/// The positions of terms at `j`, if each is a variable before `j`.
pub fn positions_of(alloc: Global, j: u32, terms: &[Term]) -> Result<Option<Vec<u32>>, Stop>
    ensures { Gives (option_map (λ v. v.items)) result (Ok (spec.positions_of j (tele_of terms.now))) }
{
    match terms {
        [] => Ok(Some(Vec::new(alloc))),
        [t, rest @ ..] => match position_of(j, t) {
            Some(i) => with_position(i, positions_of(alloc, j, rest)?),
            None => Ok(None),
        },
    }
}

/// A position before others, where there are others.
fn with_position(i: u32, others: Option<Vec<u32>>) -> Result<Option<Vec<u32>>, Stop>
    ensures { Gives (option_map (λ v. v.items)) result (Ok (option_map (λ v. i ∷ v.items) others)) }
{
    match others {
        Some(mut positions) => {
            positions.insert(0, i)?;
            Ok(Some(positions))
        }
        None => Ok(None),
    }
}

/// Whether no position occurs twice.
pub(crate) fn are_different(positions: &[u32]) -> bool
    ensures { result ≡ spec.are_different positions.now }
{
    match positions {
        [] => true,
        [position, rest @ ..] => !is_among(*position, rest) && are_different(rest),
    }
}

/// Whether, among the first `k` positions, the type at `i` mentions fixed ones and indices alone.
fn mentions_only(tele: &[Term], fixed: &[u32], indices: &[u32], i: u32, k: u32) -> bool
    requires { AreSmallTerms (tele_of tele.now) }
    ensures { result ≡ spec.mentions_only (tele_of tele.now) fixed.now indices.now i k }
{
    if k == 0 {
        return true;
    }
    let k = k - 1;
    (!mentions(tele, i, k) || (is_among(k, fixed) || is_among(k, indices)))
        && mentions_only(tele, fixed, indices, i, k)
}

/// Whether the type at `i` mentions one of the positions.
fn mentions_one(tele: &[Term], i: u32, positions: &[u32]) -> bool
    requires { AreSmallTerms (tele_of tele.now) }
    ensures { result ≡ list_any (spec.mentions (tele_of tele.now) i) positions.now }
{
    match positions {
        [] => false,
        [position, rest @ ..] => mentions(tele, i, *position) || mentions_one(tele, i, rest),
    }
}

/// Whether no type of an index mentions a later index.
pub(crate) fn are_in_order(tele: &[Term], indices: &[u32]) -> bool
    requires { AreSmallTerms (tele_of tele.now) }
    ensures { result ≡ spec.are_in_order (tele_of tele.now) indices.now }
{
    match indices {
        [] => true,
        [i, later @ ..] => !mentions_one(tele, *i, later) && are_in_order(tele, later),
    }
}

/// Whether none of the last indices is fixed, and their types mention fixed positions and indices alone.
pub(crate) fn are_independent(tele: &[Term], fixed: &[u32], indices: &[u32], last: &[u32]) -> bool
    requires { AreSmallTerms (tele_of tele.now) }
    ensures { result ≡ spec.are_independent (tele_of tele.now) fixed.now indices.now last.now }
{
    match last {
        [] => true,
        [i, rest @ ..] => {
            (!is_among(*i, fixed) && mentions_only(tele, fixed, indices, *i, *i))
                && are_independent(tele, fixed, indices, rest)
        }
    }
}
