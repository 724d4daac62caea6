//! The below values of a leaf, and their motives.
ghost use Rattle.std.specs.Prelude.{◌≡◌, ◌∷◌, ◌++◌, Ok, drop, map, take};
ghost use Rattle.core_terms.specs.Answers.{Gives};
ghost use Rattle.core_terms.specs.Meanings.{tree_of, tele_of};
ghost use Rattle.tree_translation.specs.Recursion as spec;
ghost use Rattle.tree_translation.specs.RightSides as sides;
ghost use Rattle.run_terms.specs.CodeNaming.{naming_of};
ghost use Rattle.leaf_terms.specs.PlaceMeanings.{below_of, belows_of};
ghost use Rattle.leaf_terms.specs.RecursionMeanings.{named_of};

use crate::below_types::{first_of, terms_at};
use crate::recursion::{NamedRecursion, Recursion};
use core_terms::{Items, Stop, Tele, Term, applied, copy_whole, variable};
use run_terms::{Naming, constant, raised, with_terms};
use std::alloc::Global;

/// A below value at a leaf: its recursion, the motive there, and the value.
#[derive(Drop)]
pub struct BelowValue<'a> {
    pub recursion: &'a Recursion<'a>,
    pub motive: Term,
    pub value: Term,
}

/// The terms after the first `count` ones.
pub fn after_first(terms: &[Term], count: u32) -> &[Term]
    ensures { tele_of result.now ≡ drop count (tele_of terms.now) }
{
    if count == 0 {
        return terms;
    }
    match terms {
        [] => terms,
        [_, rest @ ..] => after_first(rest, count - 1),
    }
}

/// Terms with a value put in at a place.
#[tactic(auto, using(tele_eq::proofs::Growing::growing))]
fn with_value(alloc: Global, place: u32, value: &Term, terms: &[Term]) -> Result<Tele, Stop>
    ensures { Gives tele_of result (Ok (take place (tele_of terms.now) ++ tree_of value.now ∷ drop place (tele_of terms.now))) }
{
    let mut made = first_of(alloc, place as usize, terms)?;
    made.push(copy_whole(alloc, value)?)?;
    with_terms(alloc, made, after_first(terms, place))
}

/// Terms with values put in at these places, one after the other.
fn with_values(alloc: Global, places: &[u32], values: &[Term], terms: Tele) -> Result<Tele, Stop>
    ensures { Gives tele_of result (Ok (spec.with_values places.now (tele_of values.now) (tele_of terms))) }
{
    match places {
        [] => Ok(terms),
        [place, others @ ..] => match values {
            [] => Ok(terms),
            [value, rest @ ..] => {
                let terms = with_value(alloc, *place, value, terms.as_slice())?;
                with_values(alloc, others, rest, terms)
            }
        },
    }
}

/// The motive of a recursion, at terms of the function's telescope and the earlier below values.
pub fn motive_with(
    alloc: Global,
    naming: Naming,
    c: &NamedRecursion,
    terms: &[Term],
    values: &[Term],
) -> Result<Term, Stop>
    ensures { Gives tree_of result (Ok (spec.motive_with (naming_of naming.entry) (named_of c.now) (tele_of terms.now) (tele_of values.now))) }
{
    let head = constant(naming, c.motive)?;
    let fixed = terms_at(alloc, c.recursion.admission.fixed.as_slice(), terms)?;
    let arguments = with_values(alloc, c.places, values, fixed)?;
    applied(alloc, head, arguments.into_vec())
}

/// The below value at a level of a context of `n` variables, after earlier values.
fn below_at<'a>(
    alloc: Global,
    naming: Naming,
    n: u32,
    level: u32,
    terms: &[Term],
    values: &[Term],
    c: &NamedRecursion<'a>,
) -> Result<BelowValue<'a>, Stop>
    ensures { Gives below_of result (Ok (sides.value_with (naming_of naming.entry) n level (tele_of terms.now) (tele_of values.now) (named_of c.now))) }
{
    Ok(BelowValue {
        recursion: c.recursion,
        motive: motive_with(alloc, naming, c, terms, values)?,
        value: variable(n, level),
    })
}

/// Below values, followed by those of a leaf, whose whole context has `n` variables.
#[tactic(auto, using(tele_eq::proofs::Growing::growing))]
pub fn with_belows<'a>(
    alloc: Global,
    naming: Naming,
    n: u32,
    hidden: &[u32],
    terms: &[Term],
    mut values: Tele,
    recursions: &[NamedRecursion<'a>],
    mut made: Vec<BelowValue<'a>>,
) -> Result<Vec<BelowValue<'a>>, Stop>
    ensures { Gives (λ v. belows_of v.items) result (Ok (belows_of made.entry.items ++ sides.belows_in (naming_of naming.entry) n hidden.now (tele_of terms.now) (tele_of values) (map named_of recursions.now))) }
{
    match hidden {
        [] => Ok(made),
        [level, later @ ..] => match recursions {
            [] => Ok(made),
            [c, rest @ ..] => {
                made.push(below_at(alloc, naming, n, *level, terms, values.as_slice(), c)?)?;
                values.push(variable(n, *level))?;
                with_belows(alloc, naming, n, later, terms, values, rest, made)
            }
        },
    }
}

/// A below value under so many binders more.
fn below_under<'a>(alloc: Global, under: u32, b: &BelowValue<'a>) -> Result<BelowValue<'a>, Stop>
    ensures { Gives below_of result (Ok (sides.below_under under (below_of b.now))) }
{
    Ok(BelowValue {
        recursion: b.recursion,
        motive: raised(alloc, under, 0, &b.motive)?,
        value: raised(alloc, under, 0, &b.value)?,
    })
}

/// Below values, followed by others under so many binders more.
#[tactic(auto, using(tele_eq::proofs::Growing::growing))]
pub fn with_belows_under<'a>(
    alloc: Global,
    under: u32,
    belows: &[BelowValue<'a>],
    mut made: Vec<BelowValue<'a>>,
) -> Result<Vec<BelowValue<'a>>, Stop>
    ensures { Gives (λ v. belows_of v.items) result (Ok (belows_of made.entry.items ++ sides.belows_under under (belows_of belows.now))) }
{
    match belows {
        [] => Ok(made),
        [b, rest @ ..] => {
            made.push(below_under(alloc, under, b)?)?;
            with_belows_under(alloc, under, rest, made)
        }
    }
}
