ghost use Rattle.std.specs.Prelude.{◌≡◌, ◌+◌, ◌∷◌, ◌++◌, [], Ok};
ghost use Rattle.core_terms.specs.Answers.{Gives};
ghost use Rattle.core_terms.specs.Meanings.{tree_of};
ghost use Rattle.tele_eq.specs.Items.{each_position};
ghost use Rattle.theory.specs.Signatures as signatures;
ghost use Rattle.theory.specs.Telescopes.{applied};
ghost use Rattle.theory.specs.Terms as tree;
ghost use Rattle.tree_translation.specs.Replays as replays;
ghost use Rattle.tree_translation.specs.SolutionTerms as spec;
ghost use Rattle.tree_translation.specs.Standings.{here, inside};
ghost use Rattle.run_terms.specs.CodeNaming.{naming_of};
ghost use Rattle.run_terms.specs.CodeSolutions.{applied_to_moved, deletion_motive, fixed_levels, method_by, motive_body, motive_by, motive_equation, motive_level, motive_levels, remaining, solution_by};
ghost use Rattle.run_terms.specs.StandingMeanings.{equations_of, standing_of};

use crate::level_lists::{joined, with_level_at};
use crate::moving::new_context;
use crate::names::left_name;
use crate::naming::{Naming, constant};
use crate::occurrences::{after_terms, opposite};
use crate::places::{Places, level_at, place_in};
use crate::placing::{applied_to_variables_at, placed, placed_telescope};
use crate::replays::{kept_by, moved_by};
use crate::standings::{
    after_first, applied_to_first, applied_to_further, first_level, here, inside, placed_types,
};
use crate::state::{Equation, Standing};
use core_sig::equality;
use core_terms::{Items, Stop, Term, functions, next, number_of, products, sum};
use std::alloc::Global;
use tele_eq::is_among;

/// `E -> G`: equations as they are, and then the goal, where the variables of the context and the equations before these have
/// such levels.
#[tactic(auto, using(crate::proofs::EquationTypes::type_counts))]
fn goal_after(
    alloc: Global,
    goal: &Term,
    equations: &[Equation],
    variables: &[u32],
    before: &[u32],
    depth: u32,
) -> Result<Term, Stop>
    ensures { Gives tree_of result (Ok (remaining (tree_of goal.now) (equations_of equations.now) variables.now before.now depth)) }
{
    let end = sum(depth, number_of(equations.len())?)?;
    let levels = joined(alloc, variables, before)?;
    let types = placed_types(alloc, levels, depth, equations, Items::new(alloc))?;
    let goal = placed(alloc, variables, end, goal)?;
    products(alloc, types.into_vec(), goal)
}

/// `E2 -> G`: the equations after the first `g` ones, as they are, and then the goal.
pub fn remaining_goal(
    alloc: Global,
    s: &Standing,
    g: u32,
    variables: &[u32],
    equations: &[u32],
    depth: u32,
) -> Result<Term, Stop>
    ensures { Gives tree_of result (Ok (spec.remaining_goal (standing_of s.now) g variables.now equations.now depth)) }
{
    let further = after_first(s.state.equations.as_slice(), g);
    goal_after(alloc, &s.goal, further, variables, equations, depth)
}

/// The level of a variable after the binders of the solved one, at this depth, of its equation, and of the dependants.
fn motive_level(variables: &[u32], moved: &[u32], p: u32, depth: u32, j: u32) -> Result<u32, Stop>
    ensures { Gives (λ n. n) result (Ok (motive_level variables.now moved.now p depth j)) }
{
    if j == p {
        return Ok(depth);
    }
    if is_among(j, moved) {
        let place = number_of(place_in(moved, j))?;
        return sum(sum(depth, 2)?, place);
    }
    Ok(level_at(variables, j as usize))
}

/// Levels, followed by those of `count` variables from `j` on.
#[tactic(auto, using(tele_eq::proofs::Growing::listing))]
fn with_motive_levels(
    variables: &[u32],
    moved: &[u32],
    p: u32,
    depth: u32,
    j: u32,
    count: u32,
    mut made: Items<u32>,
) -> Result<Items<u32>, Stop>
    ensures { Gives (λ v. v) result (Ok (made ++ each_position (motive_level variables.now moved.now p depth) j count)) }
{
    if count == 0 {
        return Ok(made);
    }
    made.push(motive_level(variables, moved, p, depth, j)?)?;
    with_motive_levels(variables, moved, p, depth, next(j)?, count - 1, made)
}

/// The levels of the variables after the binders of `x`, at this depth, of its equation, and of the dependants.
fn motive_levels(
    alloc: Global,
    s: &Standing,
    x: u32,
    moved: &[u32],
    depth: u32,
) -> Result<Items<u32>, Stop>
    ensures { Gives (λ v. v) result (Ok (motive_levels (standing_of s.now) x moved.now depth)) }
{
    let variables = s.variables.as_slice();
    let count = number_of(s.state.ctx.as_slice().len())?;
    let p = opposite(count, x);
    with_motive_levels(variables, moved, p, depth, 0, count, Items::new(alloc))
}

/// A term of the context one binder further in.
fn within(alloc: Global, s: &Standing, t: &Term) -> Result<Term, Stop>
    ensures { Gives tree_of result (Ok (spec.within (standing_of s.now) (tree_of t.now))) }
{
    placed(alloc, s.variables.as_slice(), next(inside(s)?)?, t)
}

/// `Eq.i A u v`.
fn equation(alloc: Global, i: u8, ty: Term, left: Term, right: Term) -> Result<Term, Stop>
    ensures { Gives tree_of result (Ok (signatures.equation i (tree_of ty) (tree_of left) (tree_of right))) }
{
    let head = Term::application_of(alloc, Ok(Term::Fam(equality(i))), Ok(ty));
    let head = Term::application_of(alloc, head, Ok(left));
    Term::application_of(alloc, head, Ok(right))
}

/// `Eq.i A u z` where the variable is on the right, and `Eq.i A z u` where it is on the left.
fn equation_with(
    alloc: Global,
    on_right: bool,
    i: u8,
    ty: Term,
    by: Term,
    z: Term,
) -> Result<Term, Stop>
    ensures { Gives tree_of result (Ok (spec.equation_with on_right i (tree_of ty) (tree_of by) (tree_of z))) }
{
    if on_right {
        equation(alloc, i, ty, by, z)
    } else {
        equation(alloc, i, ty, z, by)
    }
}

/// `(dependants as they are) -> (E2 as they are) -> G`, after the binders of the variable, at this depth, and of its equation.
fn motive_body(
    alloc: Global,
    s: &Standing,
    levels: &[u32],
    moved: &[u32],
    depth: u32,
) -> Result<Term, Stop>
    ensures { Gives tree_of result (Ok (motive_body (standing_of s.now) levels.now moved.now depth)) }
{
    let start = sum(depth, 2)?;
    let end = sum(start, number_of(moved.len())?)?;
    let equations = [next(depth)?];
    let goal = remaining_goal(alloc, s, 1, levels, &equations, end)?;
    let places = Places::Levels(levels);
    let ctx = s.state.ctx.as_slice();
    let types = new_context(alloc, ctx, places, start, moved, Items::new(alloc))?;
    products(alloc, types.into_vec(), goal)
}

/// The type of the equation in a motive, one binder further in.
fn motive_equation(
    alloc: Global,
    s: &Standing,
    on_right: bool,
    ty: &Term,
    by: &Term,
) -> Result<Term, Stop>
    ensures { Gives tree_of result (Ok (motive_equation (standing_of s.now) on_right (tree_of ty.now) (tree_of by.now))) }
{
    let level = first_level(&s.state);
    let ty = within(alloc, s, ty)?;
    let by = within(alloc, s, by)?;
    equation_with(alloc, on_right, level, ty, by, Term::Var(0))
}

/// This body with the levels that the variables have after these binders.
fn motive_after(
    alloc: Global,
    s: &Standing,
    x: u32,
    moved: &[u32],
    depth: u32,
) -> Result<Term, Stop>
    ensures { Gives tree_of result (Ok (motive_body (standing_of s.now) (motive_levels (standing_of s.now) x moved.now depth) moved.now depth)) }
{
    let levels = motive_levels(alloc, s, x, moved, depth)?;
    motive_body(alloc, s, levels.as_slice(), moved, depth)
}

/// `\(e : its equation with u). (dependants as they are) -> (E2 as they are) -> G`, one binder further in.
fn motive_inside(
    alloc: Global,
    s: &Standing,
    x: u32,
    moved: &[u32],
    on_right: bool,
    ty: &Term,
    by: &Term,
) -> Result<Term, Stop>
    ensures { Gives tree_of result (Ok (tree.Lam (motive_equation (standing_of s.now) on_right (tree_of ty.now) (tree_of by.now)) (motive_body (standing_of s.now) (motive_levels (standing_of s.now) x moved.now (inside (standing_of s.now))) moved.now (inside (standing_of s.now))))) }
{
    let depth = inside(s)?;
    let domain = motive_equation(alloc, s, on_right, ty, by);
    Term::function_of(alloc, domain, motive_after(alloc, s, x, moved, depth))
}

/// `\(x : A) (e : its equation with u). (dependants as they are) -> (E2 as they are) -> G`, where the dependants are given.
fn solution_motive(
    alloc: Global,
    s: &Standing,
    x: u32,
    moved: &[u32],
    on_right: bool,
    ty: &Term,
    by: &Term,
) -> Result<Term, Stop>
    ensures { Gives tree_of result (Ok (motive_by (standing_of s.now) x moved.now on_right (tree_of ty.now) (tree_of by.now))) }
{
    let body = motive_inside(alloc, s, x, moved, on_right, ty, by);
    Term::function_of(alloc, here(alloc, s, ty), body)
}

/// The levels of the variables that stay before the equations, where the dependants of `x` are given.
fn fixed_levels(alloc: Global, s: &Standing, x: u32, moved: &[u32]) -> Result<Items<u32>, Stop>
    ensures { Gives (λ v. v) result (Ok (fixed_levels (standing_of s.now) x moved.now)) }
{
    let kept = kept_by(alloc, s, x, moved)?;
    with_level_at(s.variables.as_slice(), kept.as_slice(), Items::new(alloc))
}

/// `\dependants. N`, with the dependants as they are after the solution.
fn solution_method(
    alloc: Global,
    s: &Standing,
    x: u32,
    moved: &[u32],
    next: &Standing,
    inner: Term,
) -> Result<Term, Stop>
    ensures { Gives tree_of result (Ok (method_by (standing_of s.now) x moved.now (standing_of next.now) (tree_of inner))) }
{
    let fixed = fixed_levels(alloc, s, x, moved)?;
    let rest = after_terms(next.state.ctx.as_slice(), fixed.as_slice().len());
    let types = placed_telescope(alloc, fixed, inside(s)?, rest, Items::new(alloc))?;
    functions(alloc, types.into_vec(), inner)
}

/// `head x e1 dependants E2`.
#[tactic(auto, using(crate::proofs::Spines::spines))]
fn applied_to_moved(
    alloc: Global,
    head: Term,
    s: &Standing,
    x: u32,
    moved: &[u32],
) -> Result<Term, Stop>
    ensures { Gives tree_of result (Ok (applied_to_moved (tree_of head) (standing_of s.now) x moved.now)) }
{
    let depth = inside(s)?;
    let head = Term::application_of(alloc, Ok(head), here(alloc, s, &Term::Var(x)));
    let head = applied_to_first(alloc, head?, s, 1);
    let variables = s.variables.as_slice();
    let head = applied_to_variables_at(alloc, head?, depth, variables, moved);
    applied_to_further(alloc, head?, s, 1)
}

/// `head A u`.
fn applied_to_sides(
    alloc: Global,
    head: Term,
    s: &Standing,
    ty: &Term,
    by: &Term,
) -> Result<Term, Stop>
    ensures { Gives tree_of result (Ok (applied (tree_of head) (here (standing_of s.now) (tree_of ty.now) ∷ here (standing_of s.now) (tree_of by.now) ∷ []))) }
{
    let head = Term::application_of(alloc, Ok(head), here(alloc, s, ty));
    Term::application_of(alloc, head, here(alloc, s, by))
}

/// `head A u motive method x e1 dependants E2`, where the dependants are given.
fn solution_by(
    alloc: Global,
    head: Term,
    s: &Standing,
    x: u32,
    moved: &[u32],
    on_right: bool,
    ty: &Term,
    by: &Term,
    next: &Standing,
    inner: Term,
) -> Result<Term, Stop>
    ensures { Gives tree_of result (Ok (solution_by (tree_of head) (standing_of s.now) x moved.now on_right (tree_of ty.now) (tree_of by.now) (standing_of next.now) (tree_of inner))) }
{
    let motive = solution_motive(alloc, s, x, moved, on_right, ty, by);
    let method = solution_method(alloc, s, x, moved, next, inner);
    let head = applied_to_sides(alloc, head, s, ty, by);
    let head = Term::application_of(alloc, head, motive);
    let head = Term::application_of(alloc, head, method);
    applied_to_moved(alloc, head?, s, x, moved)
}

/// `head A u motive method x e1 dependants E2`.
fn solution_term(
    alloc: Global,
    head: Term,
    s: &Standing,
    x: u32,
    on_right: bool,
    ty: &Term,
    by: &Term,
    next: &Standing,
    inner: Term,
) -> Result<Term, Stop>
    ensures { Gives tree_of result (Ok (spec.solution_term (tree_of head) (standing_of s.now) x on_right (tree_of ty.now) (tree_of by.now) (standing_of next.now) (tree_of inner))) }
{
    let moved = moved_by(alloc, s, x)?;
    let moved = moved.as_slice();
    solution_by(alloc, head, s, x, moved, on_right, ty, by, next, inner)
}

/// The term of a solution of the variable `x` on the right, from the term of the next state.
pub fn solve_right_term(
    alloc: Global,
    level: u8,
    s: &Standing,
    x: u32,
    ty: &Term,
    by: &Term,
    next: &Standing,
    inner: Term,
) -> Result<Term, Stop>
    requires { standing_of next.now ≡ replays.solved_standing (standing_of s.now) x (tree_of ty.now) (tree_of by.now) }
    ensures { Gives tree_of result (Ok (spec.solve_right_term level (standing_of s.now) x (tree_of ty.now) (tree_of by.now) (tree_of inner))) }
{
    let head = Term::Elim(equality(first_level(&s.state)), level);
    solution_term(alloc, head, s, x, true, ty, by, next, inner)
}

/// The term of a solution of the variable `x` on the left, from the term of the next state.
pub fn solve_left_term(
    alloc: Global,
    naming: Naming,
    level: u8,
    s: &Standing,
    x: u32,
    ty: &Term,
    by: &Term,
    next: &Standing,
    inner: Term,
) -> Result<Term, Stop>
    requires { standing_of next.now ≡ replays.solved_standing (standing_of s.now) x (tree_of ty.now) (tree_of by.now) }
    ensures { Gives tree_of result (Ok (spec.solve_left_term (naming_of naming.entry) level (standing_of s.now) x (tree_of ty.now) (tree_of by.now) (tree_of inner))) }
{
    let name = left_name(alloc, first_level(&s.state), level)?;
    let head = constant(naming, &name)?;
    solution_term(alloc, head, s, x, false, ty, by, next, inner)
}

/// `Eq.i A u u`.
fn deletion_equation(alloc: Global, s: &Standing, ty: &Term, by: &Term) -> Result<Term, Stop>
    ensures { Gives tree_of result (Ok (signatures.equation (replays.level_of_first (standing_of s.now).state.equations) (here (standing_of s.now) (tree_of ty.now)) (here (standing_of s.now) (tree_of by.now)) (here (standing_of s.now) (tree_of by.now)))) }
{
    let head = Term::Fam(equality(first_level(&s.state)));
    let head = applied_to_sides(alloc, head, s, ty, by);
    Term::application_of(alloc, head, here(alloc, s, by))
}

/// `\(e : Eq.i A u u). E2 -> G`.
fn deletion_motive(alloc: Global, s: &Standing, ty: &Term, by: &Term) -> Result<Term, Stop>
    ensures { Gives tree_of result (Ok (deletion_motive (standing_of s.now) (tree_of ty.now) (tree_of by.now))) }
{
    let depth = inside(s)?;
    let equations = [depth];
    let variables = s.variables.as_slice();
    let goal = remaining_goal(alloc, s, 1, variables, &equations, next(depth)?);
    Term::function_of(alloc, deletion_equation(alloc, s, ty, by), goal)
}

/// The term of a deletion, from the term of the next state.
#[tactic(auto, using(crate::proofs::Spines::spines))]
pub fn delete_term(
    alloc: Global,
    level: u8,
    s: &Standing,
    ty: &Term,
    by: &Term,
    inner: Term,
) -> Result<Term, Stop>
    ensures { Gives tree_of result (Ok (spec.delete_term level (standing_of s.now) (tree_of ty.now) (tree_of by.now) (tree_of inner))) }
{
    let motive = deletion_motive(alloc, s, ty, by);
    let head = Term::AxiomK(first_level(&s.state), level);
    let head = applied_to_sides(alloc, head, s, ty, by);
    let head = Term::application_of(alloc, head, motive);
    let head = Term::application_of(alloc, head, Ok(inner));
    let head = applied_to_first(alloc, head?, s, 1);
    applied_to_further(alloc, head?, s, 1)
}
