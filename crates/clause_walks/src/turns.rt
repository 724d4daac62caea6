ghost use Rattle.std.specs.Prelude.{◌≡◌, ◌≤◌, ◌+◌, map, length, IfOk, None, Ok};
ghost use Rattle.core_terms.specs.Answers.{Gives};
ghost use Rattle.core_terms.specs.Meanings.{tree_of, tele_of};
ghost use Rattle.core_terms.specs.PatternMeanings.{pat_of};
ghost use Rattle.case_trees.specs.OwnWalks as spec;
ghost use Rattle.case_trees.specs.Pairs as pairs_spec;
ghost use Rattle.case_trees.specs.Stops as stops;
ghost use Rattle.case_trees.specs.Keeping.{keep_all as kept_terms};
ghost use Rattle.theory.specs.Terms as tree;
ghost use Rattle.core_terms.specs.Bounds.{most_height};
ghost use Rattle.unification.specs.Built.{built_of as built_meant};
ghost use Rattle.unification.specs.ScopedStates.{IsReady};
ghost use Rattle.problems.specs.Conditions.{most_levels};
ghost use Rattle.problems.specs.Meanings.{outcome_of};
ghost use Rattle.clause_walks.specs.CodeWalks as code;
ghost use Rattle.clause_walks.specs.Forgetting.{CoverAll};
ghost use Rattle.clause_walks.specs.ReachedRuns.{IsReached};
ghost use Rattle.clause_walks.specs.LookMeanings.{ends_of, reached_of};
ghost use Rattle.clause_walks.specs.Meanings.{pairs_of};
ghost use Rattle.clause_walks.specs.PairConditions.{AreKeptPairs, IsSolvedIn, IsSolving, IsWalkState, LeadsOn};
ghost use Rattle.clause_walks.specs.PointConditions.{AreOverSo, IsKeptPoint};
ghost use Rattle.clause_walks.specs.PointMeanings.{point_of};
ghost use Rattle.clause_walks.specs.Stops.{Tells, Yields, stop_of};
ghost use Rattle.clause_walks.specs.WalkMeanings.{next_meant};

use crate::dots::walk_at;
use crate::keeping::point_keeping;
use crate::looking::first_found;
use crate::moving::moved_pairs;
use crate::parts::{all_open, first_clash};
use crate::points::{MOST_LEVELS, moved_point, solution_for};
use crate::reaching::Reached;
use crate::running::Ran;
use crate::working::work_pairs;
use crate::{Pair, Point, TreeStop};
use core_sig::Signature;
use core_terms::{Items, Pat, Stop, Tele, Term, Walk, copy_tele, copy_whole};
use kernel_check::Kernel;
use problems::{Outcome, built_of};
use std::alloc::Global;

/// The result of a turn: the walk goes on in a new state, or has ended.
#[derive(Debug, Drop)]
pub(crate) enum Next<'a> {
    GoesOn(Point, Items<Pair<'a>>),
    Ended(Walk),
}

/// The constructors that clash, without their arguments: the absurd pattern has that of the term.
fn clashing(sig: &Signature, clause: u32, ctx: Tele, pat: &Pat, t: &Term) -> TreeStop
    requires low { tree.height (tree_of t.now) ≤ most_height }
    ensures { stop_of result ≡ spec.clashing sig.now clause (tele_of ctx) (pat_of pat.now) (built_meant sig.now (tree_of t.now)) }
{
    let Some(b) = built_of(sig, t) else {
        return TreeStop::Stop(Stop::Deep);
    };
    let left = match pat {
        Pat::Con(n, number, _) => Term::Con(*n, *number),
        _ => Term::Con(b.family, b.number),
    };
    TreeStop::Impossible {
        clause,
        ctx,
        left,
        right: Term::Con(b.family, b.number),
    }
}

/// The state after the solution of a problem, or Deep. The terms of wildcards are forgotten.
fn solved<'a>(
    alloc: Global,
    sig: &Signature,
    p: &Point,
    pairs: &[Pair<'a>],
    ctx: &[Term],
    solution: &[Term],
) -> Result<Next<'a>, Stop>
    requires state { IsWalkState sig.now (point_of p.now) (pairs_of pairs.now) }
    requires solved { IsSolvedIn sig.now (tele_of ctx.now) (tele_of solution.now) }
    ensures answer { Gives next_meant result (code.solved_next (point_of p.now) (pairs_of pairs.now) (tele_of ctx.now) (tele_of solution.now)) }
    ensures leads { IfOk result (λ n. LeadsOn sig.now (next_meant n)) }
{
    if ctx.len() > MOST_LEVELS {
        return Err(Stop::Memory);
    }
    let solution = solution_for(p, solution);
    let next = moved_point(alloc, p, copy_tele(alloc, ctx)?, solution)?;
    let moved = moved_pairs(alloc, solution, pairs)?;
    Ok(Next::GoesOn(next, moved))
}

/// The turn by the outcome of the pattern's own constructor.
fn own_turn<'a>(
    alloc: Global,
    sig: &Signature,
    clause: u32,
    p: &Point,
    pairs: &[Pair<'a>],
    outcome: &Outcome,
) -> Result<Next<'a>, TreeStop>
    requires state { IsWalkState sig.now (point_of p.now) (pairs_of pairs.now) }
    requires outcome { IsSolving sig.now (outcome_of outcome.now) }
    ensures answer { Tells next_meant result (code.own_next clause (point_of p.now) (pairs_of pairs.now) (outcome_of outcome.now)) }
    ensures leads { IfOk result (λ n. LeadsOn sig.now (next_meant n)) }
{
    match outcome {
        Outcome::Solved { ctx, subst, .. } => {
            let next = solved(alloc, sig, p, pairs, ctx.as_slice(), subst.as_slice())?;
            Ok(next)
        }
        Outcome::Absurd {
            ctx,
            left,
            right,
            ..
        } => Err(impossible(alloc, clause, ctx.as_slice(), left, right)?),
        Outcome::Stuck { .. } => Err(TreeStop::Stop(Stop::Deep)),
    }
}

/// The refusal that says that the clause's own constructor can't be there.
fn impossible(
    alloc: Global,
    clause: u32,
    ctx: &[Term],
    left: &Term,
    right: &Term,
) -> Result<TreeStop, Stop>
    ensures { Gives stop_of result (Ok (stops.Impossible clause (tele_of ctx.now) (tree_of left.now) (tree_of right.now))) }
{
    Ok(TreeStop::Impossible {
        clause,
        ctx: copy_tele(alloc, ctx)?,
        left: copy_whole(alloc, left)?,
        right: copy_whole(alloc, right)?,
    })
}

/// The first constructor whose problem is solved, from this number on.
fn first_solved(number: u32, runs: &[Ran]) -> Result<Option<u32>, Stop>
    ensures { Gives (λ n. n) result (Ok (code.first_solved_end number (ends_of runs.now))) }
{
    let [run, rest @ ..] = runs else {
        return Ok(None);
    };
    if let Outcome::Solved { .. } = run.outcome {
        return Ok(Some(number));
    }
    match number.checked_add(1) {
        Some(number) => first_solved(number, rest),
        None => Err(Stop::Memory),
    }
}

/// The walk ends in this state, or is Deep.
fn ended_at<'a>(alloc: Global, p: Point, pairs: &[Pair<'a>]) -> Result<Next<'a>, TreeStop>
    requires binds { AreOverSo most_levels (map spec.or_none (pairs_spec.all_bound (pairs_of pairs.now))) }
    ensures answer { Tells next_meant result (code.ended_at (point_of p) (pairs_of pairs.now)) }
    ensures ended { (S : _) → IfOk result (λ n. LeadsOn S (next_meant n)) }
{
    let walk = walk_at(alloc, p, pairs)?;
    Ok(Next::Ended(walk))
}

/// At an absurd pattern the walk ends, unless one of the constructors can be there.
fn ended_unless_solved<'a>(
    alloc: Global,
    clause: u32,
    p: Point,
    pairs: &[Pair<'a>],
    family: u32,
    runs: &[Ran],
) -> Result<Next<'a>, TreeStop>
    requires binds { AreOverSo most_levels (map spec.or_none (pairs_spec.all_bound (pairs_of pairs.now))) }
    ensures answer { Tells next_meant result (code.absurd_next clause (point_of p) (pairs_of pairs.now) family (ends_of runs.now)) }
    ensures ended { (S : _) → IfOk result (λ n. LeadsOn S (next_meant n)) }
{
    match first_solved(0, runs)? {
        Some(con) => Err(TreeStop::NotAbsurd {
            clause,
            family,
            con,
        }),
        None => ended_at(alloc, p, pairs),
    }
}

/// The turn by the runs at a variable.
fn next_reached<'a>(
    alloc: Global,
    sig: &Signature,
    clause: u32,
    p: Point,
    pairs: &[Pair<'a>],
    r: &Reached,
) -> Result<Next<'a>, TreeStop>
    requires state { IsWalkState sig.now (point_of p) (pairs_of pairs.now) }
    requires reached { IsReached sig.now (length p.context) (reached_of r.now) }
    ensures answer { Tells next_meant result (code.next_reached clause (point_of p) (pairs_of pairs.now) (reached_of r.now)) }
    ensures leads { IfOk result (λ n. LeadsOn sig.now (next_meant n)) }
{
    let runs = r.runs.as_slice();
    if r.own.is_none() {
        return ended_unless_solved(alloc, clause, p, pairs, r.family, runs);
    }
    match runs {
        [] => Err(TreeStop::Stop(Stop::Deep)),
        [run, ..] => own_turn(alloc, sig, clause, &p, pairs, &run.outcome),
    }
}

/// The walk goes on at the first open pair with a variable, and ends where no pair is open.
fn next_at<'a>(
    alloc: Global,
    sig: &Signature,
    clause: u32,
    p: Point,
    pairs: &[Pair<'a>],
    kernel: &mut Kernel<'_>,
) -> Result<Next<'a>, TreeStop>
    requires kernel { kernel.old.signature ≡ sig.now }
    requires ready { IsReady sig.now }
    requires state { IsWalkState sig.now (point_of p) (pairs_of pairs.now) }
    ensures answer { Yields next_meant result kernel.new.left (code.next_at sig.now clause (point_of p) (pairs_of pairs.now) (pairs_spec.all_open (pairs_of pairs.now)) kernel.old.left) }
    ensures sum { kernel.new.left + kernel.new.spent ≡ kernel.old.left + kernel.old.spent }
    ensures spends { kernel.new.left ≤ kernel.old.left }
    ensures kernel { kernel.new.signature ≡ sig.now }
    ensures leads { IfOk result (λ n. LeadsOn sig.now (next_meant n)) }
{
    let open = all_open(alloc, pairs)?;
    if open.as_slice().is_empty() {
        return ended_at(alloc, p, pairs);
    }
    let reached = first_found(
        alloc,
        sig,
        true,
        clause,
        p.context.as_slice(),
        open.as_slice(),
        kernel,
    )?;
    next_reached(alloc, sig, clause, p, pairs, &reached)
}

/// The turn of pairs that are worked: where some clash the clause is dropped.
fn next_unless_dropped<'a>(
    alloc: Global,
    sig: &Signature,
    clause: u32,
    p: Point,
    pairs: &[Pair<'a>],
    kernel: &mut Kernel<'_>,
) -> Result<Next<'a>, TreeStop>
    requires kernel { kernel.old.signature ≡ sig.now }
    requires ready { IsReady sig.now }
    requires point { IsKeptPoint sig.now (point_of p) }
    requires pairs { AreKeptPairs sig.now (length p.context) (pairs_of pairs.now) }
    requires covers { CoverAll sig.now (pairs_of pairs.now) (kept_terms sig.now (pairs_of pairs.now) (tele_of p.terms)) }
    ensures answer { Yields next_meant result kernel.new.left (code.next_unless_dropped sig.now clause (point_of p) (pairs_of pairs.now) (pairs_spec.first_clash (pairs_of pairs.now)) kernel.old.left) }
    ensures sum { kernel.new.left + kernel.new.spent ≡ kernel.old.left + kernel.old.spent }
    ensures spends { kernel.new.left ≤ kernel.old.left }
    ensures kernel { kernel.new.signature ≡ sig.now }
    ensures leads { IfOk result (λ n. LeadsOn sig.now (next_meant n)) }
{
    if let Some(clash) = first_clash(pairs) {
        return Err(clashing(sig, clause, p.context, clash.pat, clash.term));
    }
    let next = point_keeping(alloc, sig, p, pairs)?;
    next_at(alloc, sig, clause, next, pairs, kernel)
}

/// One turn of a walk: the pairs are worked, and the walk goes on at the first open one with a variable.
pub(crate) fn turn<'a>(
    alloc: Global,
    sig: &Signature,
    clause: u32,
    p: Point,
    pairs: &[Pair<'a>],
    kernel: &mut Kernel<'_>,
) -> Result<Next<'a>, TreeStop>
    requires kernel { kernel.old.signature ≡ sig.now }
    requires ready { IsReady sig.now }
    requires state { IsWalkState sig.now (point_of p) (pairs_of pairs.now) }
    ensures answer { Yields next_meant result kernel.new.left (code.turn_of sig.now clause (point_of p) (pairs_of pairs.now) kernel.old.left) }
    ensures sum { kernel.new.left + kernel.new.spent ≡ kernel.old.left + kernel.old.spent }
    ensures spends { kernel.new.left ≤ kernel.old.left }
    ensures kernel { kernel.new.signature ≡ sig.now }
    ensures leads { IfOk result (λ n. LeadsOn sig.now (next_meant n)) }
{
    let worked = work_pairs(alloc, sig, pairs, kernel)?;
    next_unless_dropped(alloc, sig, clause, p, worked.as_slice(), kernel)
}
