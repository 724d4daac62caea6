ghost use Rattle.std.specs.Prelude.{◌≡◌, ◌+◌, ◌∷◌, ◌++◌, [], Ok, drop, length, map};
ghost use Rattle.core_terms.specs.Answers.{Gives};
ghost use Rattle.core_terms.specs.Meanings.{tree_of, tele_of};
ghost use Rattle.tele_eq.specs.Environments as environments;
ghost use Rattle.theory.specs.Signatures as signatures;
ghost use Rattle.tree_translation.specs.Replays as spec;
ghost use Rattle.tree_translation.specs.Standings.{levels_from};
ghost use Rattle.unification.specs.Moving.{behind, over_first};
ghost use Rattle.unification.specs.Occurrences.{dependants, without};
ghost use Rattle.unification.specs.Rules.{level_of};
ghost use Rattle.unification.specs.Solving as solving;
ghost use Rattle.problems.specs.CodeMoves.{solved_environment, solved_equations, state_with, variables_of};
ghost use Rattle.run_terms.specs.CodePlaces.{environment_of};
ghost use Rattle.run_terms.specs.CodeReplays.{kept_by, moved_after_first, moved_by, solved_by, solved_variables, solved_with};
ghost use Rattle.run_terms.specs.StandingMeanings.{equations_of, standing_of, state_of};

use crate::level_lists::{joined, with_all, with_level_at, with_levels, with_places};
use crate::moving::{Sides, moved, new_context};
use crate::occurrences::{dependants, opposite, others};
use crate::places::{After, Places, put};
use crate::standings::{after_first, first_level, inside};
use crate::state::{Equation, Standing, State, standing_at};
use core_sig::equality;
use core_terms::{Items, Stop, Tele, Term, copy_tele, copy_whole, next, number_of, sum};
use problems::Solution;
use std::alloc::Global;

/// `refl.i A a`.
pub fn reflexivity(alloc: Global, level: u8, ty: Term, a: Term) -> Result<Term, Stop>
    ensures { Gives tree_of result (Ok (signatures.reflexivity level (tree_of ty) (tree_of a))) }
{
    let head = Term::Con(equality(level), 0);
    Term::new_app(alloc, Term::new_app(alloc, head, ty)?, a)
}

/// `refl.i A a`, of copies.
fn copied_reflexivity(alloc: Global, level: u8, ty: &Term, a: &Term) -> Result<Term, Stop>
    ensures { Gives tree_of result (Ok (signatures.reflexivity level (tree_of ty.now) (tree_of a.now))) }
{
    let head = Ok(Term::Con(equality(level), 0));
    let head = Term::application_of(alloc, head, copy_whole(alloc, ty));
    Term::application_of(alloc, head, copy_whole(alloc, a))
}

/// `refl.i A u` of the solved variable, over the variables in their new order.
fn solved_reflexivity(
    alloc: Global,
    level: u8,
    solution: Solution,
    depth: u32,
    ty: &Term,
) -> Result<Term, Stop>
    ensures { Gives tree_of result (Ok (signatures.reflexivity level (environments.put (solving.reordered solution.entry.order.now) solution.entry.size depth (tree_of ty.now)) (environments.put (solving.reordered solution.entry.order.now) solution.entry.size depth (tree_of solution.entry.by.now)))) }
{
    let reordered = Places::Reordered(solution.order);
    let size = solution.size;
    let head = Ok(Term::Con(equality(level), 0));
    let head = Term::application_of(alloc, head, put(alloc, reordered, size, depth, ty));
    Term::application_of(alloc, head, put(alloc, reordered, size, depth, solution.by))
}

/// The places where `terms` replace the first place after a context of `size` variables, of which `depth` are left.
fn after_one<'a>(
    solution: Option<Solution<'a>>,
    size: u32,
    depth: u32,
    terms: &'a [Term],
) -> Places<'a>
    ensures { environment_of result ≡ behind size 1 depth (variables_of solution.entry) (over_first depth (tele_of terms.now)) }
{
    Places::After(After {
        solution,
        size,
        count: 1,
        new: depth,
        over: depth,
        terms,
    })
}

/// The equations after the first one, where terms over `depth` variables stand for its place and for itself.
fn moved_after_first(
    alloc: Global,
    s: &State,
    solution: Option<Solution>,
    sides: Sides,
    size: u32,
    depth: u32,
    by: Term,
    proof: Term,
) -> Result<Items<Equation>, Stop>
    ensures { Gives equations_of result (Ok (moved_after_first (state_of s.now) solution.entry sides.entry size depth (tree_of by) (tree_of proof))) }
{
    let by = [by];
    let proof = [proof];
    moved(
        alloc,
        after_one(solution, size, depth, &by),
        after_one(solution, size, depth, &proof),
        sides,
        next(size)?,
        depth,
        after_first(s.equations.as_slice(), 1),
        Items::new(alloc),
    )
}

/// The equations after the first one, once it is solved: `depth` variables are left.
fn after_solved_at(
    alloc: Global,
    s: &State,
    level: u8,
    solution: Solution,
    depth: u32,
    ty: &Term,
) -> Result<Items<Equation>, Stop>
    ensures { Gives equations_of result (Ok (solved_equations (state_of s.now) level solution.entry depth (tree_of ty.now))) }
{
    let reordered = Places::Reordered(solution.order);
    let size = solution.size;
    let proof = solved_reflexivity(alloc, level, solution, depth, ty)?;
    let by = put(alloc, reordered, size, depth, solution.by)?;
    let sides = Sides::Solved(solution, depth);
    moved_after_first(alloc, s, Some(solution), sides, size, depth, by, proof)
}

/// The equations after the first one, once it is solved.
fn after_solved(
    alloc: Global,
    s: &State,
    level: u8,
    solution: Solution,
    ty: &Term,
) -> Result<Items<Equation>, Stop>
    ensures { Gives equations_of result (Ok (solved_equations (state_of s.now) level solution.entry (length solution.entry.order.now) (tree_of ty.now))) }
{
    let depth = number_of(solution.order.len())?;
    after_solved_at(alloc, s, level, solution, depth, ty)
}

/// The context after the solution of a variable.
fn solved_context(alloc: Global, s: &State, solution: Solution) -> Result<Tele, Stop>
    ensures { Gives tele_of result (Ok (solving.new_context (state_of s.now).context (solved_environment solution.entry) 0 solution.entry.order.now)) }
{
    let places = Places::Solved(solution);
    let ctx = s.ctx.as_slice();
    new_context(alloc, ctx, places, 0, solution.order, Items::new(alloc))
}

/// The state after the solution of a variable.
fn solved_state(
    alloc: Global,
    s: &State,
    level: u8,
    solution: Solution,
    ty: &Term,
) -> Result<State, Stop>
    ensures { Gives state_of result (Ok (state_with (state_of s.now) level solution.entry (tree_of ty.now))) }
{
    Ok(State {
        ctx: solved_context(alloc, s, solution)?,
        equations: after_solved(alloc, s, level, solution, ty)?,
    })
}

/// The levels of the variables after a solution: of those that are kept, and of those that are bound anew after the equations.
fn solved_variables(
    alloc: Global,
    s: &Standing,
    kept: &[u32],
    count: u32,
) -> Result<Items<u32>, Stop>
    ensures { Gives (λ v. v) result (Ok (solved_variables (standing_of s.now) kept.now count)) }
{
    let levels = with_level_at(s.variables.as_slice(), kept, Items::new(alloc))?;
    with_levels(inside(s)?, count, levels)
}

/// The standing after the solution of a variable, once the variables that are kept are known and how many are bound anew.
fn solved_in(
    alloc: Global,
    s: &Standing,
    solution: Solution,
    ty: &Term,
    kept: &[u32],
    count: u32,
) -> Result<Standing, Stop>
    ensures { Gives standing_of result (Ok (solved_with (standing_of s.now) solution.entry (tree_of ty.now) kept.now count)) }
{
    let level = first_level(&s.state);
    let depth = number_of(solution.order.len())?;
    let end = sum(inside(s)?, count)?;
    let hidden = s.hidden.as_slice();
    let places = Places::Solved(solution);
    let state = solved_state(alloc, &s.state, level, solution, ty)?;
    let goal = put(alloc, places, solution.size, depth, &s.goal)?;
    let hidden = with_places(solution.order, hidden, Items::new(alloc));
    let variables = solved_variables(alloc, s, kept, count);
    standing_at(state, goal, hidden, variables, end)
}

/// The level of the variable `x`.
pub fn level_in(s: &Standing, x: u32) -> Result<u32, Stop>
    ensures { Gives (λ n. n) result (Ok (level_of (length (standing_of s.now).state.context) x)) }
{
    Ok(opposite(number_of(s.state.ctx.as_slice().len())?, x))
}

/// The levels of the dependants of the variable `x`.
pub fn moved_by(alloc: Global, s: &Standing, x: u32) -> Result<Items<u32>, Stop>
    ensures { Gives (λ v. v) result (Ok (moved_by (standing_of s.now) x)) }
{
    dependants(alloc, s.state.ctx.as_slice(), level_in(s, x)?)
}

/// The levels of the other variables, which stay before the equations.
pub fn kept_by(alloc: Global, s: &Standing, x: u32, moved: &[u32]) -> Result<Items<u32>, Stop>
    ensures { Gives (λ v. v) result (Ok (kept_by (standing_of s.now) x moved.now)) }
{
    let size = number_of(s.state.ctx.as_slice().len())?;
    others(alloc, size, opposite(size, x), moved)
}

/// The standing after variable `x` is solved, where its dependants are given, and the other variables.
fn solved_by(
    alloc: Global,
    s: &Standing,
    x: u32,
    ty: &Term,
    by: &Term,
    kept: &[u32],
    moved: &[u32],
) -> Result<Standing, Stop>
    ensures { Gives standing_of result (Ok (solved_by (standing_of s.now) x (tree_of ty.now) (tree_of by.now) kept.now moved.now)) }
{
    let size = number_of(s.state.ctx.as_slice().len())?;
    let order = joined(alloc, kept, moved)?;
    let solution = Solution {
        size,
        order: order.as_slice(),
        level: opposite(size, x),
        by,
    };
    let count = number_of(moved.len())?;
    solved_in(alloc, s, solution, ty, kept, count)
}

/// The standing after variable `x` is solved. Its dependants are bound anew after the equations.
pub fn solved_standing(
    alloc: Global,
    s: &Standing,
    x: u32,
    ty: &Term,
    by: &Term,
) -> Result<Standing, Stop>
    ensures { Gives standing_of result (Ok (spec.solved_standing (standing_of s.now) x (tree_of ty.now) (tree_of by.now))) }
{
    let moved = moved_by(alloc, s, x)?;
    let kept = kept_by(alloc, s, x, moved.as_slice())?;
    solved_by(alloc, s, x, ty, by, kept.as_slice(), moved.as_slice())
}

/// The standing with other equations, which are bound after its own.
pub fn with_equations(
    alloc: Global,
    s: &Standing,
    equations: Items<Equation>,
) -> Result<Standing, Stop>
    ensures { Gives standing_of result (Ok (spec.with_state (standing_of s.now) (record (standing_of s.now).state { equations = equations_of equations }))) }
{
    let depth = inside(s)?;
    let ctx = copy_tele(alloc, s.state.ctx.as_slice())?;
    let goal = copy_whole(alloc, &s.goal)?;
    let state = State { ctx, equations };
    let hidden = with_all(Items::new(alloc), s.hidden.as_slice());
    let variables = with_all(Items::new(alloc), s.variables.as_slice());
    standing_at(state, goal, hidden, variables, depth)
}

/// The equations after the first one, once it is deleted.
fn after_deleted(
    alloc: Global,
    s: &State,
    level: u8,
    ty: &Term,
    by: &Term,
) -> Result<Items<Equation>, Stop>
    ensures { Gives equations_of result (Ok ((solving.deleted_state (state_of s.now) level (tree_of ty.now) (tree_of by.now)).equations)) }
{
    let size = number_of(s.ctx.as_slice().len())?;
    let proof = copied_reflexivity(alloc, level, ty, by)?;
    let by = copy_whole(alloc, by)?;
    moved_after_first(alloc, s, None, Sides::Same, size, size, by, proof)
}

/// The standing after the first equation is deleted.
pub fn deleted_standing(alloc: Global, s: &Standing, ty: &Term, by: &Term) -> Result<Standing, Stop>
    ensures { Gives standing_of result (Ok (spec.deleted_standing (standing_of s.now) (tree_of ty.now) (tree_of by.now))) }
{
    let level = first_level(&s.state);
    let equations = after_deleted(alloc, &s.state, level, ty, by)?;
    with_equations(alloc, s, equations)
}
