ghost use Rattle.std.specs.Prelude.{◌≡◌, ◌≤◌, ◌+◌, IfErr, IfOk, IfSome, length, map, option_map, Ok};
ghost use Rattle.core_terms.specs.Answers.{Gives};
ghost use Rattle.core_terms.specs.Meanings.{tree_of, tele_of};
ghost use Rattle.core_terms.specs.CaseTrees as pure;
ghost use Rattle.core_terms.specs.PatternMeanings.{clauses_of};
ghost use Rattle.core_terms.specs.TreeMeanings.{branch_of, branches_of, case_tree_of, steps_of};
ghost use Rattle.unification.specs.ScopedStates.{IsReady};
ghost use Rattle.case_trees.specs.Laws.{IsGiven};
ghost use Rattle.case_trees.specs.Origins as origins;
ghost use Rattle.case_trees.specs.Stops as stops;
ghost use Rattle.case_trees.specs.Scoped.{AreClausesFor, IsScopedStop, IsScopedTree};
ghost use Rattle.case_trees.specs.Trees as spec;
ghost use Rattle.clause_walks.specs.Forgetting.{forgetting_live, grows_on};
ghost use Rattle.clause_walks.specs.ReachedRuns.{AreRunEnds, IsReached, IsRunEnd};
ghost use Rattle.clause_walks.specs.LookMeanings.{ends_of, ran_of, reached_of};
ghost use Rattle.clause_walks.specs.PointMeanings.{point_of};
ghost use Rattle.clause_walks.specs.Stops.{Tells, Yields, stop_of};
ghost use Rattle.clause_splitting.specs.Following.{AreFollowed};
ghost use Rattle.clause_splitting.specs.NodeConditions.{IsNodeAt};
ghost use Rattle.clause_splitting.specs.Growing as grown;
ghost use Rattle.clause_splitting.specs.NodeMeanings.{all_live_of, node_of};
ghost use Rattle.problems.specs.Conditions.{most_levels};

use crate::branches::{absurd_branch, solved_branch};
use crate::nodes::{Node, all_live, next_node, patterns_left, worked};
use clause_walks::{Point, Ran, Reached, TreeStop, all_open, bound_terms, first_found, start_at};
use core_sig::Signature;
use core_terms::{Branch, Clause, Items, Step, Stop, Tele, Term, Tree, Units, copy_tele};
use kernel_check::Kernel;
use problems::Outcome;
use std::alloc::Global;

/// How many variables a context may have; with more, memory is short.
const MOST_LEVELS: usize = 2147400000;

/// The first open pair of the first clause at whose variable no run is stuck, with its runs, or None where no pair is open.
fn reached_at(
    alloc: Global,
    sig: &Signature,
    node: &Node,
    kernel: &mut Kernel<'_>,
) -> Result<Option<Reached>, TreeStop>
    requires kernel { kernel.old.signature ≡ sig.now }
    requires ready { IsReady sig.now }
    requires node { IsNodeAt sig.now (node_of node.now) }
    ensures answer { Yields (option_map reached_of) result kernel.new.left (grown.reached_at sig.now (point_of node.now.point) (all_live_of node.now.live) kernel.old.left) }
    ensures sum { kernel.new.left + kernel.new.spent ≡ kernel.old.left + kernel.old.spent }
    ensures spends { kernel.new.left ≤ kernel.old.left }
    ensures kernel { kernel.new.signature ≡ sig.now }
    ensures reached { IfOk result (λ found. IfSome found (λ r. IsReached sig.now (length node.now.point.context) (reached_of r))) }
{
    let [c, ..] = node.live.as_slice() else {
        return Err(uncovered(alloc, &node.point)?);
    };
    let open = all_open(alloc, c.pairs.as_slice())?;
    if open.as_slice().is_empty() {
        return Ok(None);
    }
    let ctx = node.point.context.as_slice();
    let reached = first_found(alloc, sig, false, c.number, ctx, open.as_slice(), kernel)?;
    Ok(Some(reached))
}

/// No clause is left at the point.
fn uncovered(alloc: Global, p: &Point) -> Result<TreeStop, Stop>
    ensures { Gives stop_of result (Ok (stops.Uncovered (tele_of p.now.context) (tele_of p.now.terms))) }
{
    Ok(TreeStop::Uncovered {
        ctx: copy_tele(alloc, p.context.as_slice())?,
        terms: copy_tele(alloc, p.terms.as_slice())?,
    })
}

/// The leaf of the first clause.
fn leaf_at(alloc: Global, node: Node) -> Result<Tree, TreeStop>
    ensures { Tells case_tree_of result (grown.leaf_of (point_of node.entry.point) (all_live_of node.entry.live)) }
{
    let [c, ..] = node.live.as_slice() else {
        return Err(TreeStop::Stop(Stop::Deep));
    };
    let binds = bound_terms(alloc, c.pairs.as_slice())?;
    let clause = c.number;
    let Point {
        context,
        goal,
        substitution,
        terms,
    } = node.point;
    Ok(Tree::Leaf {
        clause,
        ctx: context,
        goal,
        subst: substitution,
        terms,
        binds,
    })
}

/// All clauses of a node are worked.
fn worked_node<'a>(
    alloc: Global,
    sig: &Signature,
    node: Node<'a>,
    kernel: &mut Kernel<'_>,
) -> Result<Node<'a>, TreeStop>
    requires kernel { kernel.old.signature ≡ sig.now }
    requires ready { IsReady sig.now }
    requires node { IsNodeAt sig.now (node_of node) }
    ensures answer { Yields node_of result kernel.new.left (spec.worked sig.now (point_of node.entry.point) (all_live_of node.entry.live) kernel.old.left) }
    ensures sum { kernel.new.left + kernel.new.spent ≡ kernel.old.left + kernel.old.spent }
    ensures spends { kernel.new.left ≤ kernel.old.left }
    ensures kernel { kernel.new.signature ≡ sig.now }
    ensures kept { IfOk result (λ n. IsNodeAt sig.now (node_of n)) }
{
    let Node { point, live } = node;
    let made = Items::new(alloc);
    worked(alloc, sig, point, live.as_slice(), made, kernel)
}

/// The tree from a node on, with at most so many constructor and absurd patterns left.
#[cycle(grow)]
fn grow(
    alloc: Global,
    sig: &Signature,
    patterns: u64,
    node: Node,
    kernel: &mut Kernel<'_>,
) -> Result<Tree, TreeStop>
    requires kernel { kernel.old.signature ≡ sig.now }
    requires ready { IsReady sig.now }
    requires node { IsNodeAt sig.now (node_of node) }
    ensures answer { Yields case_tree_of result kernel.new.left (spec.by_patterns sig.now patterns (point_of node.entry.point) (all_live_of node.entry.live) kernel.old.left) }
    ensures sum { kernel.new.left + kernel.new.spent ≡ kernel.old.left + kernel.old.spent }
    ensures spends { kernel.new.left ≤ kernel.old.left }
    ensures kernel { kernel.new.signature ≡ sig.now }
{
    let node = worked_node(alloc, sig, node, kernel)?;
    match reached_at(alloc, sig, &node, kernel)? {
        Some(reached) => split_at(alloc, sig, patterns, node, reached, kernel),
        None => leaf_at(alloc, node),
    }
}

/// The split of a variable, with the branches of all constructors.
#[cycle(grow)]
fn split_at(
    alloc: Global,
    sig: &Signature,
    patterns: u64,
    node: Node,
    reached: Reached,
    kernel: &mut Kernel<'_>,
) -> Result<Tree, TreeStop>
    requires kernel { kernel.old.signature ≡ sig.now }
    requires ready { IsReady sig.now }
    requires node { IsNodeAt sig.now (node_of node) }
    requires reached { IsReached sig.now (length node.point.context) (reached_of reached) }
    ensures answer { Yields case_tree_of result kernel.new.left (grown.split_from (forgetting_live (grows_on sig.now patterns)) (point_of node.entry.point) (all_live_of node.entry.live) (reached_of reached) kernel.old.left) }
    ensures sum { kernel.new.left + kernel.new.spent ≡ kernel.old.left + kernel.old.spent }
    ensures spends { kernel.new.left ≤ kernel.old.left }
    ensures kernel { kernel.new.signature ≡ sig.now }
{
    let runs = reached.runs.as_slice();
    let made = Items::new(alloc);
    let branches = grow_branches(alloc, sig, patterns, &node, runs, made, kernel)?;
    Ok(split_over(node, reached, branches))
}

/// The split of a variable with these branches.
fn split_over(node: Node, reached: Reached, branches: Items<Branch>) -> Tree
    ensures { case_tree_of result ≡ pure.Split (tele_of node.entry.point.context) reached.variable reached.family (tree_of reached.ty) (branches_of branches) }
{
    let Node { point, .. } = node;
    let Point { context, .. } = point;
    let Reached {
        variable,
        ty,
        family,
        ..
    } = reached;
    Tree::Split {
        ctx: context,
        var: variable,
        family,
        ty,
        branches,
    }
}

/// The branches of runs, after those that are made.
#[cycle(grow)]
fn grow_branches(
    alloc: Global,
    sig: &Signature,
    patterns: u64,
    node: &Node,
    runs: &[Ran],
    mut made: Items<Branch>,
    kernel: &mut Kernel<'_>,
) -> Result<Items<Branch>, TreeStop>
    requires kernel { kernel.old.signature ≡ sig.now }
    requires ready { IsReady sig.now }
    requires node { IsNodeAt sig.now (node_of node.now) }
    requires runs { AreRunEnds sig.now (length node.now.point.context) (ends_of runs.now) }
    ensures answer { Yields branches_of result kernel.new.left (grown.branches_behind (map branch_of made) (grown.branches_from (forgetting_live (grows_on sig.now patterns)) (point_of node.now.point) (all_live_of node.now.live) (ends_of runs.now) kernel.old.left)) }
    ensures sum { kernel.new.left + kernel.new.spent ≡ kernel.old.left + kernel.old.spent }
    ensures spends { kernel.new.left ≤ kernel.old.left }
    ensures kernel { kernel.new.signature ≡ sig.now }
{
    match runs {
        [] => Ok(made),
        [run, rest @ ..] => {
            made.push(grow_branch(alloc, sig, patterns, node, run, kernel)?)?;
            grow_branches(alloc, sig, patterns, node, rest, made, kernel)
        }
    }
}

/// The branch of a run, which is not stuck.
#[cycle(grow)]
fn grow_branch(
    alloc: Global,
    sig: &Signature,
    patterns: u64,
    node: &Node,
    run: &Ran,
    kernel: &mut Kernel<'_>,
) -> Result<Branch, TreeStop>
    requires kernel { kernel.old.signature ≡ sig.now }
    requires ready { IsReady sig.now }
    requires node { IsNodeAt sig.now (node_of node.now) }
    requires run { IsRunEnd sig.now (length node.now.point.context) (ran_of run.now) }
    ensures answer { Yields branch_of result kernel.new.left (grown.branch_from (forgetting_live (grows_on sig.now patterns)) (point_of node.now.point) (all_live_of node.now.live) (ran_of run.now) (ran_of run.now).outcome kernel.old.left) }
    ensures sum { kernel.new.left + kernel.new.spent ≡ kernel.old.left + kernel.old.spent }
    ensures spends { kernel.new.left ≤ kernel.old.left }
    ensures kernel { kernel.new.signature ≡ sig.now }
{
    match &run.outcome {
        Outcome::Absurd {
            steps,
            ctx,
            left,
            right,
        } => Ok(absurd_branch(alloc, steps.as_slice(), ctx.as_slice(), left, right)?),
        Outcome::Solved { steps, ctx, subst } => {
            let next = next_node(alloc, sig, node, ctx.as_slice(), subst.as_slice())?;
            if patterns == 0 {
                return Err(TreeStop::Stop(Stop::Deep));
            }
            let tree = grow(alloc, sig, patterns - 1, next, kernel)?;
            Ok(branch_over(alloc, node, run, steps.as_slice(), tree)?)
        }
        Outcome::Stuck { .. } => Err(TreeStop::Stop(Stop::Deep)),
    }
}

/// The branch of a solved run, with the tree after it. Memory is short where its problem has too many variables.
fn branch_over(
    alloc: Global,
    node: &Node,
    run: &Ran,
    steps: &[Step],
    tree: Tree,
) -> Result<Branch, Stop>
    requires few { length node.now.point.context ≤ most_levels }
    requires followed { length run.now.ctx ≤ most_levels → AreFollowed (steps_of steps.now) (tele_of run.now.ctx) }
    ensures { Gives branch_of result (Ok (pure.Solved (steps_of steps.now) (origins.origins_behind (steps_of steps.now) (tele_of run.now.ctx) (origins.first_origins (length node.now.point.context) run.now.arguments)) (case_tree_of tree))) }
{
    let ctx = run.ctx.as_slice();
    if ctx.len() > MOST_LEVELS {
        return Err(Stop::Memory);
    }
    let n = node.point.context.as_slice().len() as u32;
    solved_branch(alloc, n, run.arguments, ctx, steps, tree)
}

/// The case tree of a list of clauses, from a context, a goal and the terms of the columns, with the units that it takes.
///
/// Each leaf belongs to the first clause that matches there. Fuel comes where a unit is needed and none is left, and Deep where a
/// term is higher than 2,000, or more than 2,000 calls are open. Memory is also short where a context has more than 2,147,400,000
/// variables, and where there are 2^32 clauses, or 2^64 constructor patterns.
pub fn split(
    alloc: Global,
    sig: &Signature,
    ctx: &Tele,
    goal: &Term,
    terms: &Tele,
    clauses: &Items<Clause>,
    units: &mut Units,
) -> Result<Tree, TreeStop>
    requires given { IsGiven sig.now (tele_of ctx.now) (tree_of goal.now) (tele_of terms.now) }
    requires clauses { AreClausesFor sig.now (tele_of terms.now) (clauses_of clauses.now) }
    requires few { length ctx.now ≤ most_levels }
    ensures answer { Yields case_tree_of result units.new.left (spec.split_of sig.now (tele_of ctx.now) (tree_of goal.now) (tele_of terms.now) (clauses_of clauses.now) units.old.left) }
    ensures sum { units.new.left + units.new.spent ≡ units.old.left + units.old.spent }
    ensures spends { units.new.left ≤ units.old.left }
    ensures scoped { IfOk result (λ t. IsScopedTree sig.now (case_tree_of t)) }
    ensures scoped_stop { IfErr result (λ e. IsScopedStop sig.now (stop_of e)) }
{
    let mut kernel = Kernel::new(alloc, sig, *units);
    let made = split_with(alloc, sig, ctx, goal, terms, clauses, &mut kernel);
    *units = kernel.into_units();
    made
}

/// `split` over a kernel with this signature, with its units.
pub fn split_with(
    alloc: Global,
    sig: &Signature,
    ctx: &Tele,
    goal: &Term,
    terms: &Tele,
    clauses: &Items<Clause>,
    kernel: &mut Kernel<'_>,
) -> Result<Tree, TreeStop>
    requires kernel { kernel.old.signature ≡ sig.now }
    requires given { IsGiven sig.now (tele_of ctx.now) (tree_of goal.now) (tele_of terms.now) }
    requires clauses { AreClausesFor sig.now (tele_of terms.now) (clauses_of clauses.now) }
    requires few { length ctx.now ≤ most_levels }
    ensures answer { Yields case_tree_of result kernel.new.left (spec.split_of sig.now (tele_of ctx.now) (tree_of goal.now) (tele_of terms.now) (clauses_of clauses.now) kernel.old.left) }
    ensures sum { kernel.new.left + kernel.new.spent ≡ kernel.old.left + kernel.old.spent }
    ensures spends { kernel.new.left ≤ kernel.old.left }
    ensures kernel { kernel.new.signature ≡ sig.now }
    ensures scoped { IfOk result (λ t. IsScopedTree sig.now (case_tree_of t)) }
    ensures scoped_stop { IfErr result (λ e. IsScopedStop sig.now (stop_of e)) }
{
    grow_all(
        alloc,
        sig,
        ctx.as_slice(),
        goal,
        terms.as_slice(),
        clauses.as_slice(),
        kernel,
    )
}

/// The tree of clauses, with what the definition says of it alone.
fn grow_all(
    alloc: Global,
    sig: &Signature,
    ctx: &[Term],
    goal: &Term,
    terms: &[Term],
    clauses: &[Clause],
    kernel: &mut Kernel<'_>,
) -> Result<Tree, TreeStop>
    requires kernel { kernel.old.signature ≡ sig.now }
    requires given { IsGiven sig.now (tele_of ctx.now) (tree_of goal.now) (tele_of terms.now) }
    requires clauses { AreClausesFor sig.now (tele_of terms.now) (clauses_of clauses.now) }
    requires few { length ctx.now ≤ most_levels }
    ensures answer { Yields case_tree_of result kernel.new.left (spec.split_of sig.now (tele_of ctx.now) (tree_of goal.now) (tele_of terms.now) (clauses_of clauses.now) kernel.old.left) }
    ensures sum { kernel.new.left + kernel.new.spent ≡ kernel.old.left + kernel.old.spent }
    ensures spends { kernel.new.left ≤ kernel.old.left }
    ensures kernel { kernel.new.signature ≡ sig.now }
{
    let point = start_at(alloc, ctx, goal, terms)?;
    let live = all_live(alloc, 0, terms, clauses, Items::new(alloc))?;
    let patterns = patterns_left(live.as_slice())?;
    grow(alloc, sig, patterns, Node { point, live }, kernel)
}
