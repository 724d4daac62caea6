ghost use Rattle.std.specs.Prelude.{◌≡◌, ◌≤◌, ◌<◌, ◌+◌, length, option_map, IfOk, IfSome, IsTrue, slice_get, Some, Ok, ◌-◌};
ghost use Rattle.core_terms.specs.Answers.{Gives, Runs};
ghost use Rattle.core_terms.specs.Meanings.{tree_of, tele_of};
ghost use Rattle.problems.specs.Meanings.{equation_of, state_of, turn_of};
ghost use Rattle.unification.specs.Solutions as spec;
ghost use Rattle.problems.specs.Conditions.{AreLow, HasRoom, IsGiven, IsKept, IsOver, IsRoomy, LeadsToRoomWhere};
ghost use Rattle.theory.specs.Terms as tree;
ghost use Rattle.core_terms.specs.Bounds.{most_height};
ghost use Rattle.unification.specs.Occurrences as occurrences;
ghost use Rattle.unification.specs.ScopedStates.{IsReady};

use crate::occurrences::{dependants, lacks};
use crate::solving::solve;
use crate::trials::{single, tidied, type_in};
use core_terms::{Rule, Stop, Term, copy_whole};
use kernel_check::Kernel;
use problems::{Equation, State, Turn, variable_in};
use std::alloc::Global;

/// The level of a variable in a context of `n` variables.
fn level_of(n: u32, x: u32) -> u32
    ensures { result ≡ n - (x + 1) }
{
    (n as u64).saturating_sub(x as u64 + 1) as u32
}

/// The dependants of a variable, by their levels.
fn dependants_of(alloc: Global, s: &State, x: u32) -> Result<Vec<u32>, Stop>
    requires low { AreLow (tele_of s.now.ctx) }
    requires few { length s.now.ctx ≤ 2147400000 }
    requires x { x < length s.now.ctx }
    ensures { Gives (λ v. v.items) result (Ok (occurrences.dependants (tele_of s.now.ctx) (length s.now.ctx - (x + 1)))) }
{
    let ctx = s.ctx.as_slice();
    dependants(alloc, ctx, level_of(ctx.len() as u32, x))
}

/// Whether neither a variable nor one of its dependants, which are given, is in a term.
fn is_free_of(s: &State, x: u32, dependants: &[u32], t: &Term) -> bool
    requires few { length s.now.ctx ≤ 2147400000 }
    requires low { tree.height (tree_of t.now) ≤ most_height }
    requires dependants { dependants.now ≡ occurrences.dependants (tele_of s.now.ctx) (length s.now.ctx - (x + 1)) }
    ensures { result ≡ spec.is_free_of (state_of s.now) x (tree_of t.now) }
{
    let n = s.ctx.as_slice().len() as u32;
    lacks(n, level_of(n, x), dependants, t)
}

/// The term that solves a variable in an equation in `ty`, where it is solvable by `u`. Its dependants are given.
fn solves(
    alloc: Global,
    s: &State,
    x: u32,
    dependants: &[u32],
    ty: &Term,
    u: &Term,
    kernel: &mut Kernel<'_>,
) -> Result<Option<Term>, Stop>
    requires ready { IsReady kernel.old.signature }
    requires x { x < length s.now.ctx }
    requires dependants { dependants.now ≡ occurrences.dependants (tele_of s.now.ctx) (length s.now.ctx - (x + 1)) }
    requires ty { IsGiven kernel.old.signature (length s.now.ctx) (tree_of ty.now) }
    requires u { IsGiven kernel.old.signature (length s.now.ctx) (tree_of u.now) }
    ensures answer { Runs (option_map tree_of) result kernel.new.left (spec.solves kernel.old.signature (state_of s.now) x (tree_of ty.now) (tree_of u.now) kernel.old.left) }
    ensures sum { kernel.new.left + kernel.new.spent ≡ kernel.old.left + kernel.old.spent }
    ensures spends { kernel.new.left ≤ kernel.old.left }
    ensures kernel { kernel.new.signature ≡ kernel.old.signature }
    ensures solution { IfOk result (λ found. IfSome found (λ t. IsOver (length s.now.ctx) (tree_of t) × IsTrue (spec.is_free_of (state_of s.now) x (tree_of ty.now)) × IsTrue (spec.is_free_of (state_of s.now) x (tree_of t)))) }
{
    if !is_free_of(s, x, dependants, ty) {
        return Ok(None);
    }
    if is_free_of(s, x, dependants, u) {
        return Ok(Some(copy_whole(alloc, u)?));
    }
    let u = kernel.normal(u, true)?;
    if is_free_of(s, x, dependants, &u) {
        Ok(Some(u))
    } else {
        Ok(None)
    }
}

/// A term that solves a variable, with the next state.
fn with_state(
    alloc: Global,
    s: &State,
    e: &Equation,
    ty: &Term,
    x: u32,
    dependants: &[u32],
    by: Term,
) -> Result<Option<(Term, Box<State>)>, Stop>
    requires state { HasRoom (state_of s.now) }
    requires first { 0 < length s.now.equations }
    requires x { x < length s.now.ctx }
    requires dependants { dependants.now ≡ occurrences.dependants (tele_of s.now.ctx) (length s.now.ctx - (x + 1)) }
    requires ty { IsOver (length s.now.ctx) (tree_of ty.now) }
    requires by { IsOver (length s.now.ctx) (tree_of by) }
    requires ty_free { IsTrue (spec.is_free_of (state_of s.now) x (tree_of ty.now)) }
    requires by_free { IsTrue (spec.is_free_of (state_of s.now) x (tree_of by)) }
    ensures answer { Gives (option_map (λ found. (tree_of found.0, state_of found.1.value))) result (spec.state_solved (state_of s.now) (equation_of e.now) x (tree_of ty.now) (Some (tree_of by))) }
    ensures room { IfOk result (λ found. IfSome found (λ both. IsRoomy (state_of both.1.value))) }
{
    let p = level_of(s.ctx.as_slice().len() as u32, x);
    let next = solve(alloc, s, e.place.level, p, dependants, ty, &by)?;
    Ok(Some((by, next)))
}

/// A variable, solved by the other side of its equation: the term that is put, and the next state.
fn solve_side(
    alloc: Global,
    s: &State,
    e: &Equation,
    ty: &Term,
    x: u32,
    other: &Term,
    kernel: &mut Kernel<'_>,
) -> Result<Option<(Term, Box<State>)>, Stop>
    requires ready { IsReady kernel.old.signature }
    requires state { IsKept kernel.old.signature (state_of s.now) }
    requires first { 0 < length s.now.equations }
    requires x { x < length s.now.ctx }
    requires ty { IsGiven kernel.old.signature (length s.now.ctx) (tree_of ty.now) }
    requires other { IsGiven kernel.old.signature (length s.now.ctx) (tree_of other.now) }
    ensures answer { Runs (option_map (λ found. (tree_of found.0, state_of found.1.value))) result kernel.new.left (spec.side_solved kernel.old.signature (state_of s.now) (equation_of e.now) x (tree_of ty.now) (tree_of other.now) kernel.old.left) }
    ensures sum { kernel.new.left + kernel.new.spent ≡ kernel.old.left + kernel.old.spent }
    ensures spends { kernel.new.left ≤ kernel.old.left }
    ensures kernel { kernel.new.signature ≡ kernel.old.signature }
    ensures room { IfOk result (λ found. IfSome found (λ both. IsRoomy (state_of both.1.value))) }
{
    let dependants = dependants_of(alloc, s, x)?;
    let dependants = dependants.as_slice();
    match solves(alloc, s, x, dependants, ty, other, kernel)? {
        Some(by) => with_state(alloc, s, e, ty, x, dependants, by),
        None => Ok(None),
    }
}

/// The left side, where it is a variable, solved by the right one.
fn solve_left(
    alloc: Global,
    s: &State,
    e: &Equation,
    ty: Term,
    left: Term,
    right: Term,
    kernel: &mut Kernel<'_>,
) -> Result<Option<Turn>, Stop>
    requires ready { IsReady kernel.old.signature }
    requires state { IsKept kernel.old.signature (state_of s.now) }
    requires first { 0 < length s.now.equations }
    requires ty { IsGiven kernel.old.signature (length s.now.ctx) (tree_of ty) }
    requires left { IsGiven kernel.old.signature (length s.now.ctx) (tree_of left) }
    requires right { IsGiven kernel.old.signature (length s.now.ctx) (tree_of right) }
    ensures answer { Runs (option_map turn_of) result kernel.new.left (spec.solve_side kernel.old.signature (state_of s.now) (equation_of e.now) (tree_of ty) (tree_of right) (spec.left_step (tree_of ty) (tree_of left)) (spec.variable_in (tree_of left)) kernel.old.left) }
    ensures sum { kernel.new.left + kernel.new.spent ≡ kernel.old.left + kernel.old.spent }
    ensures spends { kernel.new.left ≤ kernel.old.left }
    ensures kernel { kernel.new.signature ≡ kernel.old.signature }
    ensures room { IfOk result (λ found. LeadsToRoomWhere (option_map turn_of found)) }
{
    let Some(x) = variable_in(&left) else {
        return Ok(None);
    };
    match solve_side(alloc, s, e, &ty, x, &right, kernel)? {
        Some((by, next)) => {
            let step = single(Rule::SolveLeft(x), ty, left, by);
            Ok(Some(Turn::Goes(step, next)))
        }
        None => Ok(None),
    }
}

/// The right side where it is a variable, and else the left one.
fn solve_sides(
    alloc: Global,
    s: &State,
    e: &Equation,
    ty: Term,
    left: Term,
    right: Term,
    kernel: &mut Kernel<'_>,
) -> Result<Option<Turn>, Stop>
    requires ready { IsReady kernel.old.signature }
    requires state { IsKept kernel.old.signature (state_of s.now) }
    requires first { 0 < length s.now.equations }
    requires ty { IsGiven kernel.old.signature (length s.now.ctx) (tree_of ty) }
    requires left { IsGiven kernel.old.signature (length s.now.ctx) (tree_of left) }
    requires right { IsGiven kernel.old.signature (length s.now.ctx) (tree_of right) }
    ensures answer { Runs (option_map turn_of) result kernel.new.left (spec.solve_sides kernel.old.signature (state_of s.now) (equation_of e.now) (tree_of ty) (tree_of left) (tree_of right) kernel.old.left) }
    ensures sum { kernel.new.left + kernel.new.spent ≡ kernel.old.left + kernel.old.spent }
    ensures spends { kernel.new.left ≤ kernel.old.left }
    ensures kernel { kernel.new.signature ≡ kernel.old.signature }
    ensures room { IfOk result (λ found. LeadsToRoomWhere (option_map turn_of found)) }
{
    let Some(x) = variable_in(&right) else {
        return solve_left(alloc, s, e, ty, left, right, kernel);
    };
    match solve_side(alloc, s, e, &ty, x, &left, kernel)? {
        Some((by, next)) => {
            let step = single(Rule::SolveRight(x), ty, by, right);
            Ok(Some(Turn::Goes(step, next)))
        }
        None => solve_left(alloc, s, e, ty, left, right, kernel),
    }
}

/// Solution of a variable by the other side of the first equation.
pub(crate) fn solution_trial(
    alloc: Global,
    s: &State,
    e: &Equation,
    kernel: &mut Kernel<'_>,
) -> Result<Option<Turn>, Stop>
    requires ready { IsReady kernel.old.signature }
    requires state { IsKept kernel.old.signature (state_of s.now) }
    requires first { slice_get (state_of s.now).equations 0 ≡ Some (equation_of e.now) }
    ensures answer { Runs (option_map turn_of) result kernel.new.left (spec.solution_trial kernel.old.signature (state_of s.now) (equation_of e.now) kernel.old.left) }
    ensures sum { kernel.new.left + kernel.new.spent ≡ kernel.old.left + kernel.old.spent }
    ensures spends { kernel.new.left ≤ kernel.old.left }
    ensures kernel { kernel.new.signature ≡ kernel.old.signature }
    ensures room { IfOk result (λ found. LeadsToRoomWhere (option_map turn_of found)) }
{
    let (left, right) = tidied(&e.left, &e.right, kernel)?;
    if variable_in(&left).is_none() && variable_in(&right).is_none() {
        return Ok(None);
    }
    let ty = type_in(alloc, &e.ty)?;
    let ty = kernel.tidy(&ty)?;
    solve_sides(alloc, s, e, ty, left, right, kernel)
}
