ghost use Rattle.std.specs.Prelude.{◌≡◌, ◌≤◌, ◌+◌, IfOk, length};
ghost use Rattle.core_terms.specs.Answers.{Gives};
ghost use Rattle.core_terms.specs.Answers as answers;
ghost use Rattle.core_terms.specs.Meanings.{tree_of, tele_of};
ghost use Rattle.tele_eq.specs.Items.{items_of};
ghost use Rattle.problems.specs.Conditions.{HasFewVariables, HaveFewVariables, most_levels};
ghost use Rattle.unification.specs.Heights as spec;
ghost use Rattle.problems.specs.Meanings.{equations_of, state_of};

use crate::state::{Equation, State};
use core_terms::{Items, MAX_HEIGHT, Stop, Tele, Term, copy_tele};
use std::alloc::Global;
use tele_eq::{Item, tele_equations};

/// How many places a telescope of equations has at most.
const MOST_PLACES: usize = 1000;

/// How many variables and equations may come after one another; with more, memory is short.
const MOST_LEVELS: usize = 2147400000;

fn is_low(t: &Term) -> bool
    ensures { result ≡ answers.is_low (tree_of t.now) }
{
    t.height() <= MAX_HEIGHT
}

pub fn are_low(terms: &[Term]) -> bool
    ensures { result ≡ answers.are_low (tele_of terms.now) }
{
    match terms {
        [] => true,
        [t, rest @ ..] => is_low(t) && are_low(rest),
    }
}

pub fn are_low_items(tele: &[Item]) -> bool
    ensures { result ≡ spec.are_low_items (items_of tele.now) }
{
    match tele {
        [] => true,
        [x, rest @ ..] => is_low(&x.ty) && are_low_items(rest),
    }
}

fn are_low_equations(equations: &[Equation]) -> bool
    ensures { result ≡ spec.are_low_equations (equations_of equations.now) }
{
    match equations {
        [] => true,
        [e, rest @ ..] => {
            is_low(&e.place.ty)
                && is_low(&e.ty)
                && is_low(&e.left)
                && is_low(&e.right)
                && are_low_equations(rest)
        }
    }
}

/// The state in a box, or Deep where a term in it is too high, or Memory where it has too many variables and equations.
pub fn checked_state(alloc: Global, s: State) -> Result<Box<State>, Stop>
    ensures answer { Gives (λ b. state_of b.value) result (spec.bounded_state (state_of s)) }
    ensures few { IfOk result (λ b. length (state_of b.value).context + length (state_of b.value).equations ≤ most_levels) }
{
    let low = are_low(s.ctx.as_slice())
        && are_low_equations(s.equations.as_slice())
        && are_low(s.subst.as_slice());
    if !low {
        return Err(Stop::Deep);
    }
    let levels = s.ctx.as_slice().len() as u128 + s.equations.as_slice().len() as u128;
    if levels > MOST_LEVELS as u128 {
        return Err(Stop::Memory);
    }
    Ok(Box::new(alloc, s)?)
}

/// The state with other equations, or Deep.
pub fn with_equations(
    alloc: Global,
    s: &State,
    equations: Items<Equation>,
) -> Result<Box<State>, Stop>
    ensures answer { Gives (λ b. state_of b.value) result (spec.bounded_state (record (state_of s.now) { equations = equations_of equations })) }
    ensures few { IfOk result (λ b. length (state_of b.value).context + length (state_of b.value).equations ≤ most_levels) }
{
    let ctx = copy_tele(alloc, s.ctx.as_slice())?;
    let subst = copy_tele(alloc, s.subst.as_slice())?;
    checked_state(
        alloc,
        State {
            ctx,
            equations,
            subst,
        },
    )
}

/// The equations between two lists of terms of a telescope, or Deep.
pub fn equations_made(
    alloc: Global,
    tele: &Items<Item>,
    left: &Tele,
    right: &Tele,
) -> Result<Tele, Stop>
    requires left { length left.now ≡ length tele.now }
    requires right { length right.now ≡ length tele.now }
    requires few_items { HasFewVariables (items_of tele.now) }
    requires few_left { HaveFewVariables (tele_of left.now) }
    requires few_right { HaveFewVariables (tele_of right.now) }
    ensures { Gives tele_of result (spec.equations_made (items_of tele.now) (tele_of left.now) (tele_of right.now)) }
{
    let few = tele.as_slice().len() <= MOST_PLACES;
    if !few || !are_low_items(tele.as_slice()) {
        return Err(Stop::Deep);
    }
    if !are_low(left.as_slice()) {
        return Err(Stop::Deep);
    }
    if !are_low(right.as_slice()) {
        return Err(Stop::Deep);
    }
    tele_equations(alloc, tele, left, right)
}
