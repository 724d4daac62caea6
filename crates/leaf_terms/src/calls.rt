//! Calls of the function at a leaf: paths in below values.
ghost use Rattle.std.specs.Prelude.{◌≡◌, ◌∷◌, ◌++◌, [], Ok, Some, get_or, option_map};
ghost use Rattle.std.specs.Option.{option_copied};
ghost use Rattle.core_terms.specs.Answers.{Gives};
ghost use Rattle.core_terms.specs.Meanings.{tree_of, tele_of};
ghost use Rattle.theory.specs.Signatures.{FamilyOf, IsEntryAt};
ghost use Rattle.tele_eq.specs.Items as items;
ghost use Rattle.unification.specs.Injecting.{lifted};
ghost use Rattle.tree_translation.specs.Naming as names;
ghost use Rattle.tree_translation.specs.RightSides as sides;
ghost use Rattle.run_terms.specs.CodeNaming.{naming_of};
ghost use Rattle.leaf_terms.specs.CodeRightSides as spec;
ghost use Rattle.leaf_terms.specs.PlaceMeanings.{HaveBelowFamilies, arguments_of, below_of, belows_of, found_of};
ghost use Rattle.leaf_terms.specs.PlanMeanings.{plan_of};
ghost use Rattle.leaf_terms.specs.RecursionMeanings.{recursion_of};

use crate::applying::applied_to_taken;
use crate::below_values::{BelowValue, with_belows_under};
use crate::leaves::Translation;
use crate::orders::remaining_positions;
use crate::paths::{Descent, Found, found_for};
use crate::recursion::Recursion;
use crate::towers::or_towers;
use core_terms::{MAX_HEIGHT, Stop, Term, copy_whole, number_of};
use run_terms::{all_raised, below_name, place_of};
use std::alloc::Global;

/// The term at a position, or another one.
pub fn term_or<'a>(terms: &'a [Term], position: u32, other: &'a Term) -> &'a Term
    ensures { tree_of result.now ≡ get_or (tele_of terms.now) position (tree_of other.now) }
{
    match terms {
        [] => other,
        [t, rest @ ..] => {
            if position == 0 {
                t
            } else {
                term_or(rest, position - 1, other)
            }
        }
    }
}

/// A path applied to the arguments of a call at the other positions and any further ones.
fn applied_path(
    alloc: Global,
    w: &Translation,
    r: &Recursion,
    arguments: Vec<Term>,
    path: Term,
) -> Result<Term, Stop>
    ensures { Gives tree_of result (Ok (sides.applied_path (plan_of w.now.plan.now) (recursion_of r.now) (tele_of arguments.items) (tree_of path))) }
{
    let positions = remaining_positions(alloc, w.plan.arity, r)?;
    applied_to_taken(alloc, path, positions.as_slice(), w.plan.arity, arguments)
}

/// The number of `D!below.L`.
fn below_number(alloc: Global, w: &Translation, r: &Recursion) -> Result<u32, Stop>
    ensures { Gives (λ n. n) result (Ok (naming_of w.now.naming (names.below_name (recursion_of r.now).family w.now.plan.now.level))) }
{
    let name = below_name(alloc, r.family, w.plan.level)?;
    let place = number_of(place_of(w.naming.names, &name))?;
    number_of(w.naming.base as usize + place as usize)
}

/// An argument at a position, or another term after the last.
fn part_or<'a>(arguments: &'a [Option<Term>], position: u32, other: &'a Term) -> Option<&'a Term>
    ensures { option_map tree_of (option_copied result) ≡ get_or (arguments_of arguments.now) position (Some (tree_of other.now)) }
{
    match arguments {
        [] => Some(other),
        [t, rest @ ..] => {
            if position == 0 {
                t.as_ref()
            } else {
                part_or(rest, position - 1, other)
            }
        }
    }
}

/// A strict part of the leaf's term is looked for.
fn found_there(
    alloc: Global,
    w: &Translation,
    terms: &[Term],
    b: &BelowValue,
    part: &Term,
) -> Result<Found, Stop>
    requires { IsEntryAt w.now.sig.now b.now.recursion.now.admission.number (FamilyOf (recursion_of b.now.recursion.now).family) }
    ensures { Gives found_of result (spec.found_for (sides.descent_at (naming_of w.now.naming) (plan_of w.now.plan.now) (below_of b.now) (tree_of part.now)) (items.term_at (tele_of terms.now) b.now.recursion.now.position) (tree_of b.now.value)) }
{
    let none = Term::Sort(0);
    let r = b.recursion;
    let d = Descent {
        fam: r.admission.number,
        family: r.family,
        level: w.plan.level,
        below: below_number(alloc, w, r)?,
        motive: &b.motive,
        part,
    };
    found_for(
        alloc,
        w.sig,
        &d,
        term_or(terms, r.position, &none),
        &b.value,
    )
}

/// The argument of a call is looked for, where it isn't too high itself.
fn found_part(
    alloc: Global,
    w: &Translation,
    terms: &[Term],
    b: &BelowValue,
    part: Option<&Term>,
) -> Result<Found, Stop>
    requires { IsEntryAt w.now.sig.now b.now.recursion.now.admission.number (FamilyOf (recursion_of b.now.recursion.now).family) }
    ensures { Gives found_of result (spec.found_part (naming_of w.now.naming) (plan_of w.now.plan.now) (tele_of terms.now) (below_of b.now) (option_map tree_of (option_copied part.entry))) }
{
    match part {
        None => Ok(Found::Missing),
        Some(part) => found_there(alloc, w, terms, b, part),
    }
}

/// The argument of a call at the position of a below value is looked for.
fn found_at(
    alloc: Global,
    w: &Translation,
    terms: &[Term],
    b: &BelowValue,
    arguments: &[Option<Term>],
) -> Result<Found, Stop>
    requires { IsEntryAt w.now.sig.now b.now.recursion.now.admission.number (FamilyOf (recursion_of b.now.recursion.now).family) }
    ensures { Gives found_of result (spec.found_at (naming_of w.now.naming) (plan_of w.now.plan.now) (tele_of terms.now) (below_of b.now) (arguments_of arguments.now)) }
{
    let none = Term::Sort(0);
    let part = part_or(arguments, b.recursion.position, &none);
    found_part(alloc, w, terms, b, part)
}

/// A path applied to the arguments of a call, where those that are too high have a tower in their place.
fn path_applied(
    alloc: Global,
    w: &Translation,
    r: &Recursion,
    arguments: Vec<Option<Term>>,
    path: Term,
) -> Result<Option<Term>, Stop>
    ensures { Gives (option_map tree_of) result (Ok (Some (sides.applied_path (plan_of w.now.plan.now) (recursion_of r.now) (spec.or_towers (arguments_of arguments.items)) (tree_of path)))) }
{
    let arguments = or_towers(alloc, arguments)?;
    Ok(Some(applied_path(alloc, w, r, arguments, path)?))
}

/// A call that is too high, or Deep where it is not.
fn only_high(call: Option<Term>) -> Result<Option<Term>, Stop>
    ensures { Gives (option_map tree_of) result (spec.only_high (option_map tree_of call)) }
{
    match call {
        None => Ok(None),
        Some(t) => {
            if t.height() > MAX_HEIGHT {
                Ok(None)
            } else {
                Err(Stop::Deep)
            }
        }
    }
}

/// The call by the first below value.
fn call_by_value(
    alloc: Global,
    w: &Translation,
    first: &BelowValue,
    arguments: Vec<Option<Term>>,
) -> Result<Option<Term>, Stop>
    ensures { Gives (option_map tree_of) result (Ok (Some (sides.applied_path (plan_of w.now.plan.now) (below_of first.now).recursion (spec.or_towers (arguments_of arguments.items)) (below_of first.now).value))) }
{
    let value = copy_whole(alloc, &first.value)?;
    path_applied(alloc, w, first.recursion, arguments, value)
}

/// The call of the function with these arguments, at the terms of the leaf: by the first of the below values in which there is a path, or
/// else by the first of all. None where it is too high, and Deep where an argument that is too high is looked for in vain.
fn call_by_path(
    alloc: Global,
    w: &Translation,
    terms: &[Term],
    first: &BelowValue,
    arguments: Vec<Option<Term>>,
    belows: &[BelowValue],
) -> Result<Option<Term>, Stop>
    requires { HaveBelowFamilies w.now.sig.now (belows_of belows.now) }
    ensures { Gives (option_map tree_of) result (spec.call_by_path (naming_of w.now.naming) (plan_of w.now.plan.now) (tele_of terms.now) (below_of first.now) (arguments_of arguments.items) (belows_of belows.now)) }
{
    match belows {
        [] => call_by_value(alloc, w, first, arguments),
        [b, rest @ ..] => match found_at(alloc, w, terms, b, arguments.as_slice())? {
            Found::Missing => only_high(call_by_path(alloc, w, terms, first, arguments, rest)?),
            Found::Elsewhere => call_by_path(alloc, w, terms, first, arguments, rest),
            Found::TooHigh => Ok(None),
            Found::At(path) => path_applied(alloc, w, b.recursion, arguments, path),
        },
    }
}

/// The call of the function with these arguments at the terms of a leaf and its below values. Without recursion there is none.
fn call_at(
    alloc: Global,
    w: &Translation,
    terms: &[Term],
    belows: &[BelowValue],
    arguments: Vec<Option<Term>>,
) -> Result<Option<Term>, Stop>
    requires { HaveBelowFamilies w.now.sig.now (belows_of belows.now) }
    ensures { Gives (option_map tree_of) result (spec.call_made (naming_of w.now.naming) (plan_of w.now.plan.now) (tele_of terms.now) (arguments_of arguments.items) (belows_of belows.now)) }
{
    match belows {
        [] => Ok(Some(Term::Sort(0))),
        [first, _others @ ..] => call_by_path(alloc, w, terms, first, arguments, belows),
    }
}

/// The call of the function with these arguments under so many binders, over which the leaf's terms and the below values are lifted.
#[tactic(auto, using(crate::proofs::BelowFamilies::families))]
pub(crate) fn call_in(
    alloc: Global,
    w: &Translation,
    terms: &[Term],
    belows: &[BelowValue],
    under: u32,
    arguments: Vec<Option<Term>>,
) -> Result<Option<Term>, Stop>
    requires { HaveBelowFamilies w.now.sig.now (belows_of belows.now) }
    ensures { Gives (option_map tree_of) result (spec.call_made (naming_of w.now.naming) (plan_of w.now.plan.now) (lifted under (tele_of terms.now)) (arguments_of arguments.items) (sides.belows_under under (belows_of belows.now))) }
{
    let terms = all_raised(alloc, under, terms)?;
    let belows = with_belows_under(alloc, under, belows, Vec::new(alloc))?;
    call_at(alloc, w, terms.as_slice(), belows.as_slice(), arguments)
}
