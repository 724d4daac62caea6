ghost use Rattle.std.specs.Prelude.{◌≡◌, ◌-◌, ◌+◌, ◌++◌, Ok, drop, length};
ghost use Rattle.core_terms.specs.Answers.{Gives};
ghost use Rattle.core_terms.specs.Meanings.{tree_of, tele_of};
ghost use Rattle.theory.specs.Telescopes.{applied};
ghost use Rattle.unification.specs.States as states;
ghost use Rattle.tree_translation.specs.Replays.{level_of_first};
ghost use Rattle.tree_translation.specs.Standings as spec;
ghost use Rattle.run_terms.specs.StandingMeanings.{equations_of, standing_of, state_of};

use crate::level_lists::with_all;
use crate::placing::{applied_to_levels_from, applied_to_placed, placed};
use crate::state::{Equation, Standing, State};
use core_terms::{Items, Stop, Tele, Term, functions, next, number_of, sum};
use std::alloc::Global;

/// How many equations are left.
fn equation_count(s: &Standing) -> Result<u32, Stop>
    ensures { Gives (λ n. n) result (Ok (spec.equation_count (standing_of s.now))) }
{
    number_of(s.state.equations.as_slice().len())
}

/// The depth after the equations.
pub fn inside(s: &Standing) -> Result<u32, Stop>
    ensures { Gives (λ n. n) result (Ok (spec.inside (standing_of s.now))) }
{
    sum(s.depth, equation_count(s)?)
}

/// A term of the context, after the equations.
pub fn here(alloc: Global, s: &Standing, t: &Term) -> Result<Term, Stop>
    ensures { Gives tree_of result (Ok (spec.here (standing_of s.now) (tree_of t.now))) }
{
    placed(alloc, s.variables.as_slice(), inside(s)?, t)
}

/// `head` applied to terms of the context, after the equations.
pub fn applied_here(alloc: Global, head: Term, s: &Standing, terms: &[Term]) -> Result<Term, Stop>
    ensures { Gives tree_of result (Ok (applied (tree_of head) (spec.all_here (standing_of s.now) (tele_of terms.now)))) }
{
    applied_to_placed(alloc, head, s.variables.as_slice(), inside(s)?, terms)
}

/// `head` applied to the first `g` equations.
pub fn applied_to_first(alloc: Global, head: Term, s: &Standing, g: u32) -> Result<Term, Stop>
    ensures { Gives tree_of result (Ok (applied (tree_of head) (spec.first_equations (standing_of s.now) g))) }
{
    applied_to_levels_from(alloc, head, inside(s)?, s.depth, g)
}

/// `head` applied to the equations after the first `g` ones.
pub fn applied_to_further(alloc: Global, head: Term, s: &Standing, g: u32) -> Result<Term, Stop>
    ensures { Gives tree_of result (Ok (applied (tree_of head) (spec.further_equations (standing_of s.now) g))) }
{
    let count = equation_count(s)?.saturating_sub(g);
    applied_to_levels_from(alloc, head, inside(s)?, sum(s.depth, g)?, count)
}

/// The equations after the first `g` ones.
pub fn after_first(equations: &[Equation], g: u32) -> &[Equation]
    ensures { equations_of result.now ≡ drop g (equations_of equations.now) }
{
    if g == 0 {
        return equations;
    }
    match equations {
        [] => equations,
        [_, rest @ ..] => after_first(rest, g - 1),
    }
}

/// The types of equations over variables that have these levels, which are bound at a depth, after the types that are made.
#[tactic(auto, using(tele_eq::proofs::Growing::growing))]
pub fn placed_types(
    alloc: Global,
    mut levels: Items<u32>,
    depth: u32,
    equations: &[Equation],
    mut made: Tele,
) -> Result<Tele, Stop>
    ensures { Gives tele_of result (Ok (tele_of made ++ spec.placed_telescope levels depth (states.types_as_they_stand (equations_of equations.now)))) }
{
    match equations {
        [] => Ok(made),
        [e, rest @ ..] => {
            made.push(placed(alloc, levels.as_slice(), depth, &e.ty)?)?;
            levels.push(depth)?;
            placed_types(alloc, levels, next(depth)?, rest, made)
        }
    }
}

/// `\E. inner`: a term after the equations, which are bound.
pub fn state_term(alloc: Global, s: &Standing, inner: Term) -> Result<Term, Stop>
    ensures { Gives tree_of result (Ok (spec.state_term (standing_of s.now) (tree_of inner))) }
{
    let levels = with_all(Items::new(alloc), s.variables.as_slice())?;
    let equations = s.state.equations.as_slice();
    let types = placed_types(alloc, levels, s.depth, equations, Items::new(alloc))?;
    functions(alloc, types.into_vec(), inner)
}

/// The level of the first equation, or 0.
pub fn first_level(s: &State) -> u8
    ensures { result ≡ level_of_first (state_of s.now).equations }
{
    match s.equations.as_slice() {
        [] => 0,
        [e, ..] => e.place.level,
    }
}
