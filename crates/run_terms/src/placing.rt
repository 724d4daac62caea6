ghost use Rattle.std.specs.Prelude.{◌≡◌, ◌++◌, Ok, get_or, map};
ghost use Rattle.core_terms.specs.Answers.{Gives};
ghost use Rattle.core_terms.specs.Levels as by_level;
ghost use Rattle.core_terms.specs.Meanings.{tree_of, tele_of};
ghost use Rattle.theory.specs.Telescopes.{applied};
ghost use Rattle.tree_translation.specs.Standings as spec;

use crate::places::{Places, level_at, put};
use core_terms::{Items, Stop, Tele, Term, next, number_of, variable};
use std::alloc::Global;

/// A term over variables that have these levels, at a depth.
pub fn placed(alloc: Global, levels: &[u32], depth: u32, t: &Term) -> Result<Term, Stop>
    ensures { Gives tree_of result (Ok (spec.placed levels.now depth (tree_of t.now))) }
{
    let size = number_of(levels.len())?;
    put(alloc, Places::Levels(levels), size, depth, t)
}

/// Terms over variables that have these levels, at a depth, after those that are made.
#[tactic(auto, using(tele_eq::proofs::Growing::growing))]
pub fn all_placed(
    alloc: Global,
    levels: &[u32],
    depth: u32,
    terms: &[Term],
    mut made: Tele,
) -> Result<Tele, Stop>
    ensures { Gives tele_of result (Ok (tele_of made ++ spec.all_placed levels.now depth (tele_of terms.now))) }
{
    match terms {
        [] => Ok(made),
        [t, rest @ ..] => {
            made.push(placed(alloc, levels, depth, t)?)?;
            all_placed(alloc, levels, depth, rest, made)
        }
    }
}

/// `head` applied to terms over variables that have these levels, at a depth.
pub fn applied_to_placed(
    alloc: Global,
    head: Term,
    levels: &[u32],
    depth: u32,
    terms: &[Term],
) -> Result<Term, Stop>
    ensures { Gives tree_of result (Ok (applied (tree_of head) (spec.all_placed levels.now depth (tele_of terms.now)))) }
{
    match terms {
        [] => Ok(head),
        [t, rest @ ..] => {
            let t = placed(alloc, levels, depth, t)?;
            let head = Term::new_app(alloc, head, t)?;
            applied_to_placed(alloc, head, levels, depth, rest)
        }
    }
}

/// A telescope over variables that have these levels, which is bound at a depth, after the types that are made.
#[tactic(auto, using(tele_eq::proofs::Growing::growing))]
pub fn placed_telescope(
    alloc: Global,
    mut levels: Items<u32>,
    depth: u32,
    tele: &[Term],
    mut made: Tele,
) -> Result<Tele, Stop>
    ensures { Gives tele_of result (Ok (tele_of made ++ spec.placed_telescope levels depth (tele_of tele.now))) }
{
    match tele {
        [] => Ok(made),
        [ty, rest @ ..] => {
            made.push(placed(alloc, levels.as_slice(), depth, ty)?)?;
            levels.push(depth)?;
            placed_telescope(alloc, levels, next(depth)?, rest, made)
        }
    }
}

/// `head` applied to the variables with so many levels from one on, at a depth.
pub fn applied_to_levels_from(
    alloc: Global,
    head: Term,
    depth: u32,
    start: u32,
    count: u32,
) -> Result<Term, Stop>
    ensures { Gives tree_of result (Ok (applied (tree_of head) (by_level.run depth start count))) }
{
    if count == 0 {
        return Ok(head);
    }
    let head = Term::new_app(alloc, head, variable(depth, start))?;
    applied_to_levels_from(alloc, head, depth, next(start)?, count - 1)
}

/// `head` applied to the variables at positions of a list of levels, at a depth.
pub fn applied_to_variables_at(
    alloc: Global,
    head: Term,
    depth: u32,
    levels: &[u32],
    positions: &[u32],
) -> Result<Term, Stop>
    ensures { Gives tree_of result (Ok (applied (tree_of head) (map (λ j. by_level.variable depth (get_or levels.now j 0)) positions.now))) }
{
    match positions {
        [] => Ok(head),
        [j, rest @ ..] => {
            let level = level_at(levels, *j as usize);
            let head = Term::new_app(alloc, head, variable(depth, level))?;
            applied_to_variables_at(alloc, head, depth, levels, rest)
        }
    }
}
