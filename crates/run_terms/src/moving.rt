ghost use Rattle.std.specs.Prelude.{◌≡◌, ◌+◌, ◌∷◌, ◌++◌, [], Ok, length, map};
ghost use Rattle.core_terms.specs.Answers.{Gives};
ghost use Rattle.core_terms.specs.Meanings.{tree_of, tele_of};
ghost use Rattle.tele_eq.specs.Environments as environments;
ghost use Rattle.tele_eq.specs.Items.{term_at};
ghost use Rattle.unification.specs.Moving as spec;
ghost use Rattle.unification.specs.Solving as solving;
ghost use Rattle.problems.specs.CodeMoves.{equation_moved};
ghost use Rattle.run_terms.specs.CodePlaces.{environment_of, side_of};
ghost use Rattle.run_terms.specs.StandingMeanings.{equation_of, equations_of};

use crate::places::{Places, put};
use crate::state::{Equation, equation_between};
use core_terms::{Items, Stop, Tele, Term, copy_whole, next};
use problems::Solution;
use std::alloc::Global;
use tele_eq::Item;

/// How the sides of equations change: they stay, or a variable of theirs is solved.
#[derive(Clone, Copy)]
pub enum Sides<'a> {
    Same,
    Solved(Solution<'a>, u32),
}

fn side(alloc: Global, sides: Sides, t: &Term) -> Result<Term, Stop>
    ensures { Gives tree_of result (Ok (side_of sides.entry (tree_of t.now))) }
{
    match sides {
        Sides::Same => copy_whole(alloc, t),
        Sides::Solved(solution, depth) => {
            put(alloc, Places::Solved(solution), solution.size, depth, t)
        }
    }
}

/// Equations that were after `size` variables, and now are at a depth, after those that are made: `items` stands for the
/// variables in their places, `types` in their types.
#[tactic(auto, using(tele_eq::proofs::Growing::growing))]
pub fn moved(
    alloc: Global,
    items: Places,
    types: Places,
    sides: Sides,
    size: u32,
    depth: u32,
    equations: &[Equation],
    mut made: Items<Equation>,
) -> Result<Items<Equation>, Stop>
    ensures { Gives equations_of result (Ok (equations_of made ++ spec.moved (environment_of items.entry) (environment_of types.entry) (side_of sides.entry) size depth (equations_of equations.now))) }
{
    match equations {
        [] => Ok(made),
        [e, rest @ ..] => {
            made.push(moved_equation(alloc, items, types, sides, size, depth, e)?)?;
            let (size, depth) = (next(size)?, next(depth)?);
            moved(alloc, items, types, sides, size, depth, rest, made)
        }
    }
}

/// One of them.
fn moved_equation(
    alloc: Global,
    items: Places,
    types: Places,
    sides: Sides,
    size: u32,
    depth: u32,
    e: &Equation,
) -> Result<Equation, Stop>
    ensures { Gives equation_of result (Ok (equation_moved (environment_of items.entry) (environment_of types.entry) (side_of sides.entry) size depth (equation_of e.now))) }
{
    let place = Item {
        ty: put(alloc, items, size, depth, &e.place.ty)?,
        level: e.place.level,
    };
    let ty = put(alloc, types, size, depth, &e.ty)?;
    let left = side(alloc, sides, &e.left);
    let right = side(alloc, sides, &e.right);
    equation_between(place, ty, left, right)
}

/// The type of the variable with level `j`, at a depth, or Type 0.
fn put_type(alloc: Global, ctx: &[Term], places: Places, depth: u32, j: u32) -> Result<Term, Stop>
    ensures { Gives tree_of result (Ok (environments.put (environment_of places.entry) j depth (term_at (tele_of ctx.now) j))) }
{
    match ctx.get(j as usize) {
        Some(ty) => put(alloc, places, j, depth, ty),
        None => Ok(Term::Sort(0)),
    }
}

/// Types, followed by those of the variables with these levels, the first of which is at a depth.
#[tactic(auto, using(tele_eq::proofs::Growing::growing))]
pub fn new_context(
    alloc: Global,
    ctx: &[Term],
    places: Places,
    depth: u32,
    order: &[u32],
    mut made: Tele,
) -> Result<Tele, Stop>
    ensures { Gives tele_of result (Ok (tele_of made ++ solving.new_context (tele_of ctx.now) (environment_of places.entry) depth order.now)) }
{
    match order {
        [] => Ok(made),
        [j, rest @ ..] => {
            made.push(put_type(alloc, ctx, places, depth, *j)?)?;
            new_context(alloc, ctx, places, next(depth)?, rest, made)
        }
    }
}
