ghost use Rattle.std.specs.Prelude.{◌≡◌, ◌≤◌, ◌+◌, length, IfOk, IfErr, Ok};
ghost use Rattle.core_terms.specs.Meanings.{tree_of, tele_of};
ghost use Rattle.core_terms.specs.PatternMeanings.{clause_of};
ghost use Rattle.core_terms.specs.TreeMeanings.{walk_of};
ghost use Rattle.case_trees.specs.Laws.{IsGiven};
ghost use Rattle.case_trees.specs.OwnWalks as spec;
ghost use Rattle.case_trees.specs.Scoped.{IsClauseOf, IsScopedStop, IsScopedWalk};
ghost use Rattle.unification.specs.ScopedStates.{IsReady};
ghost use Rattle.problems.specs.Conditions.{most_levels};
ghost use Rattle.clause_walks.specs.Meanings.{pairs_of};
ghost use Rattle.clause_walks.specs.PairConditions.{IsWalkState};
ghost use Rattle.clause_walks.specs.PointMeanings.{point_of};
ghost use Rattle.clause_walks.specs.Stops.{Yields, stop_of};

use crate::pairs::waiting;
use crate::parts::all_left;
use crate::points::start_at;
use crate::turns::{Next, turn};
use crate::{Pair, Point, TreeStop};
use core_sig::Signature;
use core_terms::{Clause, Items, Stop, Tele, Term, Units, Walk};
use kernel_check::Kernel;
use std::alloc::Global;

/// The walk from a state on. At most so many constructor and absurd patterns are left.
fn walk(
    alloc: Global,
    sig: &Signature,
    clause: u32,
    most: u64,
    start: Point,
    first: Items<Pair>,
    kernel: &mut Kernel<'_>,
) -> Result<Walk, TreeStop>
    requires kernel { kernel.old.signature ≡ sig.now }
    requires ready { IsReady sig.now }
    requires state { IsWalkState sig.now (point_of start) (pairs_of first) }
    ensures answer { Yields walk_of result kernel.new.left (spec.by_patterns sig.now clause most (point_of start) (pairs_of first.entry) kernel.old.left) }
    ensures sum { kernel.new.left + kernel.new.spent ≡ kernel.old.left + kernel.old.spent }
    ensures spends { kernel.new.left ≤ kernel.old.left }
    ensures kernel { kernel.new.signature ≡ sig.now }
{
    let mut patterns = most;
    let mut point = start;
    let mut pairs = first;
    'turns: loop {
        match turn(alloc, sig, clause, point, pairs.as_slice(), kernel)? {
            Next::GoesOn(next, moved) => {
                if patterns == 0 {
                    return Err(TreeStop::Stop(Stop::Deep));
                }
                patterns -= 1;
                point = next;
                pairs = moved;
            }
            Next::Ended(walk) => return Ok(walk),
        }
    }
}

/// The walk of a clause, from a context, a goal and the terms of its columns.
fn walk_of_clause(
    alloc: Global,
    sig: &Signature,
    ctx: &Tele,
    goal: &Term,
    terms: &Tele,
    clause: &Clause,
    number: u32,
    kernel: &mut Kernel<'_>,
) -> Result<Walk, TreeStop>
    requires kernel { kernel.old.signature ≡ sig.now }
    requires given { IsGiven sig.now (tele_of ctx.now) (tree_of goal.now) (tele_of terms.now) }
    requires clause { IsClauseOf sig.now (tele_of terms.now) (clause_of clause.now) }
    requires few { length ctx.now ≤ most_levels }
    ensures answer { Yields walk_of result kernel.new.left (spec.own_walk_of sig.now (tele_of ctx.now) (tree_of goal.now) (tele_of terms.now) (clause_of clause.now) number kernel.old.left) }
    ensures sum { kernel.new.left + kernel.new.spent ≡ kernel.old.left + kernel.old.spent }
    ensures spends { kernel.new.left ≤ kernel.old.left }
    ensures kernel { kernel.new.signature ≡ sig.now }
{
    let start = start_at(alloc, ctx.as_slice(), goal, terms.as_slice())?;
    let pairs = waiting(alloc, clause.pats.as_slice(), terms.as_slice())?;
    let most = all_left(pairs.as_slice())?;
    walk(alloc, sig, number, most, start, pairs, kernel)
}

/// Walks a clause through its own patterns, from a context, a goal and the terms of its columns, with the units that it takes. The
/// clause has this number in its list.
///
/// At each open pair the run of the pattern's own constructor is solved, until every pattern is worked or an absurd one has been
/// shown to be so. The walk has the point at which this ends: its context and goal, what stands for the variables of the starting
/// context, the terms of the columns as far as they were compared, the bindings of the clause, and its dots.
pub fn own_walk(
    alloc: Global,
    sig: &Signature,
    ctx: &Tele,
    goal: &Term,
    terms: &Tele,
    clause: &Clause,
    number: u32,
    units: &mut Units,
) -> Result<Walk, TreeStop>
    requires given { IsGiven sig.now (tele_of ctx.now) (tree_of goal.now) (tele_of terms.now) }
    requires clause { IsClauseOf sig.now (tele_of terms.now) (clause_of clause.now) }
    requires few { length ctx.now ≤ most_levels }
    ensures answer { Yields walk_of result units.new.left (spec.own_walk_of sig.now (tele_of ctx.now) (tree_of goal.now) (tele_of terms.now) (clause_of clause.now) number units.old.left) }
    ensures sum { units.new.left + units.new.spent ≡ units.old.left + units.old.spent }
    ensures spends { units.new.left ≤ units.old.left }
    ensures scoped { IfOk result (λ w. IsScopedWalk sig.now (walk_of w)) }
    ensures scoped_stop { IfErr result (λ e. IsScopedStop sig.now (stop_of e)) }
{
    let mut kernel = Kernel::new(alloc, sig, *units);
    let made = own_walk_with(alloc, sig, ctx, goal, terms, clause, number, &mut kernel);
    *units = kernel.into_units();
    made
}

/// `own_walk` over a kernel with this signature, with its units.
pub fn own_walk_with(
    alloc: Global,
    sig: &Signature,
    ctx: &Tele,
    goal: &Term,
    terms: &Tele,
    clause: &Clause,
    number: u32,
    kernel: &mut Kernel<'_>,
) -> Result<Walk, TreeStop>
    requires kernel { kernel.old.signature ≡ sig.now }
    requires given { IsGiven sig.now (tele_of ctx.now) (tree_of goal.now) (tele_of terms.now) }
    requires clause { IsClauseOf sig.now (tele_of terms.now) (clause_of clause.now) }
    requires few { length ctx.now ≤ most_levels }
    ensures answer { Yields walk_of result kernel.new.left (spec.own_walk_of sig.now (tele_of ctx.now) (tree_of goal.now) (tele_of terms.now) (clause_of clause.now) number kernel.old.left) }
    ensures sum { kernel.new.left + kernel.new.spent ≡ kernel.old.left + kernel.old.spent }
    ensures spends { kernel.new.left ≤ kernel.old.left }
    ensures kernel { kernel.new.signature ≡ sig.now }
    ensures scoped { IfOk result (λ w. IsScopedWalk sig.now (walk_of w)) }
    ensures scoped_stop { IfErr result (λ e. IsScopedStop sig.now (stop_of e)) }
{
    walk_of_clause(alloc, sig, ctx, goal, terms, clause, number, kernel)
}
