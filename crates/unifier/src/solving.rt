ghost use Rattle.std.specs.Prelude.{◌≡◌, ◌<◌, ◌++◌, IfOk, IsTrue, Ok, drop, length, ◌≤◌, ◌+◌};
ghost use Rattle.core_terms.specs.Answers.{Gives};
ghost use Rattle.core_terms.specs.Meanings.{tree_of, tele_of};
ghost use Rattle.theory.specs.Signatures as signatures;
ghost use Rattle.theory.specs.Terms as tree;
ghost use Rattle.tele_eq.specs.Environments as environments;
ghost use Rattle.problems.specs.CodeMoves.{environment_of, solved_environment, solved_equations, state_with, variables_of};
ghost use Rattle.unification.specs.Heights.{bounded_state};
ghost use Rattle.problems.specs.Meanings.{equations_of, state_of};
ghost use Rattle.unification.specs.Occurrences as occurrences;
ghost use Rattle.unification.specs.Solving as spec;
ghost use Rattle.problems.specs.Conditions.{AreBelow, ArePlaces, ArePut, AreTypesOver, HasRoom, IsOver, IsPossible, IsSolution, most_depth, most_levels};
ghost use Rattle.unification.specs.Moving.{behind, over_first};

use crate::occurrences::order_without;
use core_sig::equality;
use core_terms::{Items, Stop, Tele, Term, copy_whole};
use problems::{
    Behind, Equation, Places, Sides, Solution, State, checked_state, moved, put, put_terms,
    with_equations,
};
use std::alloc::Global;

/// refl.i A a.
fn reflexivity(alloc: Global, level: u8, ty: Term, a: Term) -> Result<Term, Stop>
    ensures { Gives tree_of result (Ok (signatures.reflexivity level (tree_of ty) (tree_of a))) }
{
    let head = Term::Con(equality(level), 0);
    Term::new_app(alloc, Term::new_app(alloc, head, ty)?, a)
}

/// The types of the variables with these levels, the first of which is at a depth, after those that are made.
#[tactic(auto, using(tele_eq::proofs::Growing::growing))]
pub fn new_context(
    alloc: Global,
    ctx: &[Term],
    solution: Solution,
    depth: u32,
    order: &[u32],
    mut made: Tele,
) -> Result<Tele, Stop>
    requires solution { IsSolution solution }
    requires ctx { AreTypesOver 0 (tele_of ctx.now) }
    requires levels { AreBelow (length ctx.now) order.now }
    requires depth { depth + length order.now ≤ 2147400000 }
    ensures { Gives tele_of result (Ok (tele_of made ++ spec.new_context (tele_of ctx.now) (solved_environment solution.entry) depth order.now)) }
{
    match order {
        [] => Ok(made),
        [j, rest @ ..] => {
            let ty = &ctx[*j as usize];
            made.push(put(alloc, Places::Solved(solution), *j, depth, ty)?)?;
            new_context(alloc, ctx, solution, depth + 1, rest, made)
        }
    }
}

/// The levels of the variables of a context but the one with level `p`, in their new order. Its dependants are given.
pub fn new_order(alloc: Global, ctx: &[Term], p: u32, dependants: &[u32]) -> Result<Vec<u32>, Stop>
    requires few { length ctx.now ≤ 2147400000 }
    requires p { p < length ctx.now }
    requires dependants { dependants.now ≡ occurrences.dependants (tele_of ctx.now) p }
    ensures order { Gives (λ v. v.items) result (Ok (occurrences.order_without (tele_of ctx.now) p)) }
    ensures fewer { IfOk result (λ v. length v.items < length ctx.now) }
    ensures below { IfOk result (λ v. AreBelow (length ctx.now) v.items) }
{
    order_without(alloc, ctx.len() as u32, p, dependants)
}

/// The state in which a variable is solved, or Deep.
fn solved(
    alloc: Global,
    s: &State,
    level: u8,
    solution: Solution,
    ty: &Term,
) -> Result<Box<State>, Stop>
    requires state { HasRoom (state_of s.now) }
    requires first { 0 < length s.now.equations }
    requires solution { IsSolution solution }
    requires size { solution.size ≡ length s.now.ctx }
    requires levels { AreBelow (length s.now.ctx) solution.order.now }
    requires few { length solution.order.now ≤ 2147400000 }
    requires ty { IsOver (length s.now.ctx) (tree_of ty.now) }
    requires ty_put { tree.free_of (environments.put (spec.reordered solution.order.now) solution.size (length solution.order.now) (tree_of ty.now)) ≤ length solution.order.now }
    requires by_put { tree.free_of (environments.put (spec.reordered solution.order.now) solution.size (length solution.order.now) (tree_of solution.by.now)) ≤ length solution.order.now }
    ensures answer { Gives (λ b. state_of b.value) result (bounded_state (state_with (state_of s.now) level solution.entry (tree_of ty.now))) }
    ensures few { IfOk result (λ b. length (state_of b.value).context + length (state_of b.value).equations ≤ most_levels) }
{
    let order = solution.order;
    let depth = order.len() as u32;
    let ctx = new_context(
        alloc,
        s.ctx.as_slice(),
        solution,
        0,
        order,
        Items::new(alloc),
    )?;
    let subst = put_terms(
        alloc,
        Places::Solved(solution),
        solution.size,
        depth,
        s.subst.as_slice(),
    )?;
    let equations = behind_solved(alloc, s, level, solution, depth, ty)?;
    checked_state(
        alloc,
        State {
            ctx,
            equations,
            subst,
        },
    )
}

/// The state in which the variable with level `p` is solved by a term without it, or Deep. Its dependants are given.
pub(crate) fn solve(
    alloc: Global,
    s: &State,
    level: u8,
    p: u32,
    dependants: &[u32],
    ty: &Term,
    by: &Term,
) -> Result<Box<State>, Stop>
    requires state { HasRoom (state_of s.now) }
    requires first { 0 < length s.now.equations }
    requires ty { IsOver (length s.now.ctx) (tree_of ty.now) }
    requires by { IsOver (length s.now.ctx) (tree_of by.now) }
    requires p { p < length s.now.ctx }
    requires dependants { dependants.now ≡ occurrences.dependants (tele_of s.now.ctx) p }
    requires ty_lacks { IsTrue (occurrences.lacks (tele_of s.now.ctx) p (tree_of ty.now)) }
    requires by_lacks { IsTrue (occurrences.lacks (tele_of s.now.ctx) p (tree_of by.now)) }
    ensures answer { Gives (λ b. state_of b.value) result (bounded_state (spec.solved_state (state_of s.now) level p (tree_of ty.now) (tree_of by.now))) }
    ensures few { IfOk result (λ b. length (state_of b.value).context + length (state_of b.value).equations ≤ most_levels) }
{
    let ctx = s.ctx.as_slice();
    let order = new_order(alloc, ctx, p, dependants)?;
    let solution = Solution {
        size: ctx.len() as u32,
        order: order.as_slice(),
        level: p,
        by,
    };
    solved(alloc, s, level, solution, ty)
}

/// The equations after the first one, once it is solved.
fn behind_solved(
    alloc: Global,
    s: &State,
    level: u8,
    solution: Solution,
    depth: u32,
    ty: &Term,
) -> Result<Items<Equation>, Stop>
    requires state { HasRoom (state_of s.now) }
    requires first { 0 < length s.now.equations }
    requires solution { IsSolution solution }
    requires size { solution.size ≡ length s.now.ctx }
    requires depth { depth ≤ solution.size }
    requires ty { IsOver (length s.now.ctx) (tree_of ty.now) }
    requires ty_put { tree.free_of (environments.put (spec.reordered solution.order.now) solution.size depth (tree_of ty.now)) ≤ depth }
    requires by_put { tree.free_of (environments.put (spec.reordered solution.order.now) solution.size depth (tree_of solution.by.now)) ≤ depth }
    ensures { Gives equations_of result (Ok (solved_equations (state_of s.now) level solution.entry depth (tree_of ty.now))) }
{
    let reordered = Places::Reordered(solution.order);
    let size = solution.size;
    let ty = put(alloc, reordered, size, depth, ty)?;
    let by = put(alloc, reordered, size, depth, solution.by)?;
    let refl = reflexivity(alloc, level, ty, copy_whole(alloc, &by)?)?;
    let here = [by];
    let proof = [refl];
    moved(
        alloc,
        size,
        behind_first(Some(solution), size, depth, &here),
        behind_first(Some(solution), size, depth, &proof),
        Sides::Solved(solution, depth),
        size + 1,
        depth,
        behind_the_first(s),
        Items::new(alloc),
    )
}

/// The places where `terms` replace the first place after a context of `size` variables, of which `depth` are left.
fn behind_first<'a>(
    solution: Option<Solution<'a>>,
    size: u32,
    depth: u32,
    terms: &'a [Term],
) -> Places<'a>
    requires solution { IsPossible solution }
    requires size { size ≤ most_levels }
    requires depth { depth ≤ most_depth }
    requires terms { ArePut depth (tele_of terms.now) }
    ensures environment { environment_of result ≡ behind size 1 depth (variables_of solution.entry) (over_first depth (tele_of terms.now)) }
    ensures places { ArePlaces result }
{
    Places::Behind(Behind {
        solution,
        size,
        count: 1,
        new: depth,
        over: depth,
        terms,
    })
}

/// The equations after the first one.
fn behind_the_first(s: &State) -> &[Equation]
    ensures { equations_of result.now ≡ drop 1 (state_of s.now).equations }
{
    match s.equations.as_slice() {
        [] => &[],
        [_, rest @ ..] => rest,
    }
}

/// The state in which the first equation is deleted, or Deep.
pub(crate) fn delete(
    alloc: Global,
    s: &State,
    level: u8,
    ty: &Term,
    left: &Term,
) -> Result<Box<State>, Stop>
    requires state { HasRoom (state_of s.now) }
    requires first { 0 < length s.now.equations }
    requires ty { IsOver (length s.now.ctx) (tree_of ty.now) }
    requires left { IsOver (length s.now.ctx) (tree_of left.now) }
    ensures answer { Gives (λ b. state_of b.value) result (bounded_state (spec.deleted_state (state_of s.now) level (tree_of ty.now) (tree_of left.now))) }
    ensures few { IfOk result (λ b. length (state_of b.value).context + length (state_of b.value).equations ≤ most_levels) }
{
    let size = s.ctx.as_slice().len() as u32;
    let refl = reflexivity(
        alloc,
        level,
        copy_whole(alloc, ty)?,
        copy_whole(alloc, left)?,
    )?;
    let here = [copy_whole(alloc, left)?];
    let proof = [refl];
    let equations = moved(
        alloc,
        size,
        behind_first(None, size, size, &here),
        behind_first(None, size, size, &proof),
        Sides::Same,
        size + 1,
        size,
        behind_the_first(s),
        Items::new(alloc),
    )?;
    with_equations(alloc, s, equations)
}
