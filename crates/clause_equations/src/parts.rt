ghost use Rattle.std.specs.Prelude.{◌≡◌, drop, get_or, map, take};
ghost use Rattle.core_terms.specs.Meanings.{tree_of, tele_of};
ghost use Rattle.core_terms.specs.PatternMeanings.{pats_of};
ghost use Rattle.core_terms.specs.Patterns as pattern;
ghost use Rattle.leaf_terms.specs.PlanMeanings.{part_of, parts_of};

use core_terms::{Items, Pat, Term};
use leaf_terms::Part;

/// The part at a position, or another one.
pub fn part_or<'a>(parts: &'a [Part], k: u32, other: &'a Part) -> &'a Part
    ensures { part_of result.now ≡ get_or (parts_of parts.now) k (part_of other.now) }
{
    match parts {
        [] => other,
        [part, rest @ ..] => {
            if k == 0 {
                part
            } else {
                part_or(rest, k - 1, other)
            }
        }
    }
}

/// The term at a position, or another one.
pub fn side_or<'a>(sides: &'a [Term], clause: u32, other: &'a Term) -> &'a Term
    ensures { tree_of result.now ≡ get_or (tele_of sides.now) clause (tree_of other.now) }
{
    match sides {
        [] => other,
        [side, rest @ ..] => {
            if clause == 0 {
                side
            } else {
                side_or(rest, clause - 1, other)
            }
        }
    }
}

/// The patterns at a position, or none.
pub fn pats_at(pats: &[Items<Pat>], clause: u32) -> &[Pat]
    ensures { pats_of result.now ≡ get_or (map pats_of pats.now) clause pattern.nil }
{
    match pats {
        [] => &[],
        [first, rest @ ..] => {
            if clause == 0 {
                first.as_slice()
            } else {
                pats_at(rest, clause - 1)
            }
        }
    }
}

/// The first `count` of some terms, or all where there are fewer.
pub fn first_terms(terms: &[Term], count: usize) -> &[Term]
    ensures { tele_of result.now ≡ take count (tele_of terms.now) }
{
    if count < terms.len() {
        &terms[..count]
    } else {
        terms
    }
}

/// The terms after the first `count` ones.
pub fn further_terms(terms: &[Term], count: usize) -> &[Term]
    ensures { tele_of result.now ≡ drop count (tele_of terms.now) }
{
    if count == 0 {
        return terms;
    }
    match terms {
        [] => terms,
        [_, rest @ ..] => further_terms(rest, count - 1),
    }
}
