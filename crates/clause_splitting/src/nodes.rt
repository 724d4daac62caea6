ghost use Rattle.std.specs.Prelude.{◌≡◌, ◌≤◌, ◌+◌, ◌++◌, IfOk, Ok};
ghost use Rattle.core_terms.specs.Answers.{Gives};
ghost use Rattle.core_terms.specs.Meanings.{tele_of};
ghost use Rattle.core_terms.specs.PatternMeanings.{clauses_of};
ghost use Rattle.unification.specs.ScopedStates.{IsReady};
ghost use Rattle.problems.specs.Conditions.{most_levels};
ghost use Rattle.case_trees.specs.Points.{solution_for as solution_meant};
ghost use Rattle.case_trees.specs.Trees as spec;
ghost use Rattle.clause_walks.specs.Forgetting.{forget_live};
ghost use Rattle.clause_walks.specs.Meanings.{pairs_of};
ghost use Rattle.clause_walks.specs.PairConditions.{IsSolvedIn};
ghost use Rattle.clause_walks.specs.PointConditions.{AreOverSo};
ghost use Rattle.clause_walks.specs.PointMeanings.{point_of};
ghost use Rattle.clause_walks.specs.Stops.{Yields};
ghost use Rattle.clause_splitting.specs.NodeConditions.{IsNodeAt};
ghost use Rattle.clause_splitting.specs.Growing.{kept_live, live_behind, node_at, worked_behind};
ghost use Rattle.clause_splitting.specs.NodeMeanings.{all_live_of, node_of};

use clause_walks::{
    Pair, Point, TreeStop, all_left, moved_pairs, moved_point, point_keeping, solution_for,
    some_clashes, sum, waiting, work_pairs,
};
use core_sig::Signature;
use core_terms::{Clause, Items, Stop, Term, copy_tele};
use kernel_check::Kernel;
use std::alloc::Global;

/// A clause that is left, with its number in the list and its pairs.
#[derive(Debug, Drop)]
pub(crate) struct Live<'a> {
    pub(crate) number: u32,
    pub(crate) pairs: Items<Pair<'a>>,
}

/// A point, and the clauses that are left there.
#[derive(Debug, Drop)]
pub(crate) struct Node<'a> {
    pub(crate) point: Point,
    pub(crate) live: Items<Live<'a>>,
}

/// Clauses with the terms of the columns, the first of which has this number, after those that are made.
///
/// Memory is short where there are 2^32 of them.
#[tactic(auto, using(tele_eq::proofs::Growing::growing))]
pub(crate) fn all_live<'a>(
    alloc: Global,
    number: u32,
    terms: &[Term],
    clauses: &'a [Clause],
    mut made: Items<Live<'a>>,
) -> Result<Items<Live<'a>>, Stop>
    ensures { Gives all_live_of result (Ok (all_live_of made.entry ++ spec.all_live number (tele_of terms.now) (clauses_of clauses.now))) }
{
    match clauses {
        [] => Ok(made),
        [clause, rest @ ..] => {
            let pairs = waiting(alloc, clause.pats.as_slice(), terms)?;
            made.push(Live { number, pairs })?;
            match number.checked_add(1) {
                Some(next) => all_live(alloc, next, terms, rest, made),
                None => Err(Stop::Memory),
            }
        }
    }
}

/// The constructor and absurd patterns that are left in all clauses, or Memory where no number has room for them.
pub(crate) fn patterns_left(live: &[Live]) -> Result<u64, Stop>
    ensures { Gives (λ k. k) result (Ok (spec.patterns_left (all_live_of live.now))) }
{
    match live {
        [] => Ok(0),
        [c, rest @ ..] => sum(all_left(c.pairs.as_slice())?, patterns_left(rest)?),
    }
}

/// The clauses that are made, with one more after them, unless it is dropped.
fn with_kept<'a>(
    number: u32,
    pairs: Items<Pair<'a>>,
    mut made: Items<Live<'a>>,
) -> Result<Items<Live<'a>>, Stop>
    ensures { Gives all_live_of result (Ok (kept_live (record { number = number; pairs = pairs_of pairs.entry }) (all_live_of made.entry))) }
{
    if some_clashes(pairs.as_slice()) {
        return Ok(made);
    }
    made.push(Live { number, pairs })?;
    Ok(made)
}

/// All clauses are worked, after those that are made, and those that are dropped go out. What each was compared with stays in the
/// terms of the point.
pub(crate) fn worked<'a>(
    alloc: Global,
    sig: &Signature,
    p: Point,
    live: &[Live<'a>],
    made: Items<Live<'a>>,
    kernel: &mut Kernel<'_>,
) -> Result<Node<'a>, TreeStop>
    requires kernel { kernel.old.signature ≡ sig.now }
    requires ready { IsReady sig.now }
    requires live { IsNodeAt sig.now (node_at (point_of p) (all_live_of live.now)) }
    requires made { IsNodeAt sig.now (node_at (point_of p) (all_live_of made)) }
    ensures answer { Yields node_of result kernel.new.left (worked_behind sig.now (all_live_of made.entry) (point_of p) (all_live_of live.now) kernel.old.left) }
    ensures sum { kernel.new.left + kernel.new.spent ≡ kernel.old.left + kernel.old.spent }
    ensures spends { kernel.new.left ≤ kernel.old.left }
    ensures kernel { kernel.new.signature ≡ sig.now }
    ensures kept { IfOk result (λ n. IsNodeAt sig.now (node_of n)) }
{
    match live {
        [] => Ok(Node {
            point: p,
            live: made,
        }),
        [c, rest @ ..] => {
            let pairs = work_pairs(alloc, sig, c.pairs.as_slice(), kernel)?;
            let p = point_keeping(alloc, sig, p, pairs.as_slice())?;
            let made = with_kept(c.number, pairs, made)?;
            worked(alloc, sig, p, rest, made, kernel)
        }
    }
}

/// The clauses after a solution, without the terms of wildcards, after those that are made, or Deep.
fn moved_live<'a>(
    alloc: Global,
    solution: &[Term],
    live: &[Live<'a>],
    mut made: Items<Live<'a>>,
) -> Result<Items<Live<'a>>, Stop>
    requires { AreOverSo most_levels (tele_of solution.now) }
    ensures { Gives all_live_of result (live_behind (all_live_of made.entry) (spec.moved_live (tele_of solution.now) (forget_live (all_live_of live.now)))) }
{
    match live {
        [] => Ok(made),
        [c, rest @ ..] => {
            let number = c.number;
            let pairs = moved_pairs(alloc, solution, c.pairs.as_slice())?;
            made.push(Live { number, pairs })?;
            moved_live(alloc, solution, rest, made)
        }
    }
}

/// The node after a solution, before its clauses are worked, or Deep. The terms of wildcards are forgotten.
pub(crate) fn next_node<'a>(
    alloc: Global,
    sig: &Signature,
    node: &Node<'a>,
    ctx: &[Term],
    subst: &[Term],
) -> Result<Node<'a>, Stop>
    requires node { IsNodeAt sig.now (node_of node.now) }
    requires solved { IsSolvedIn sig.now (tele_of ctx.now) (tele_of subst.now) }
    ensures answer { Gives node_of result (spec.solved_node (point_of node.now.point) (forget_live (all_live_of node.now.live)) (tele_of ctx.now) (solution_meant (point_of node.now.point) (tele_of subst.now))) }
    ensures kept { IfOk result (λ n. IsNodeAt sig.now (node_of n)) }
{
    let solution = solution_for(&node.point, subst);
    let ctx = copy_tele(alloc, ctx)?;
    let point = moved_point(alloc, &node.point, ctx, solution)?;
    let live = moved_live(alloc, solution, node.live.as_slice(), Items::new(alloc))?;
    Ok(Node { point, live })
}
