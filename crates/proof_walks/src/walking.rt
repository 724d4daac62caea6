//! The walk through a tree.
ghost use Rattle.std.specs.Prelude.{◌≡◌, ◌≤◌, ◌+◌, IfOk, Ok, length, map};
ghost use Rattle.core_terms.specs.Answers.{Gives};
ghost use Rattle.core_terms.specs.Meanings.{tree_of, tele_of};
ghost use Rattle.core_terms.specs.TreeMeanings.{branch_of, branches_of, case_tree_of};
ghost use Rattle.kernel_reduce.specs.WellScoped.{AreScoped};
ghost use Rattle.theory.specs.SignatureScopes.{IsScoped};
ghost use Rattle.clause_reports.specs.ProofWalks as walks;
ghost use Rattle.clause_walks.specs.LookMeanings.{ends_of, ran_of};
ghost use Rattle.problems.specs.MemberMeanings.{member_meant};
ghost use Rattle.drafts.specs.draft_entering.Stops.{Reports};
ghost use Rattle.proof_walks.specs.proof_terms.ProofMeanings.{place_of, proof_of, proofs_of};
ghost use Rattle.proof_walks.specs.NodeConditions.{IsVariableOf};
ghost use Rattle.proof_walks.specs.NodeWalks as spec;
ghost use Rattle.proof_walks.specs.PlaceScopes.{AreKeptProofs, IsKeptPlace, IsKeptProof};
ghost use Rattle.proof_walks.specs.SolvedRuns as runs_spec;
ghost use Rattle.proof_walks.specs.WalkMeanings.{node_of};
ghost use Rattle.unification.specs.ScopedStates.{IsReady};
ghost use Rattle.clause_walks.specs.PairConditions.{IsSolving};

use crate::nodes::{Variable, constructor_met, variable_met};
use crate::places::{boxed_after, with_values};
use crate::proof_places::{value_at, values_in_branch};
use crate::proof_terms::{Place, Proof};
use crate::runs::{all_runs, steps_of_runs, stuck, stuck_run};
use clause_walks::{Ran, Runs};
use core_sig::Signature;
use core_terms::{Branch, Items, Stop, Term, Tree};
use drafts::draft_entering::ReportStop;
use kernel_check::Kernel;
use problems::Outcome;
use std::alloc::Global;

/// A split of the tree: its family, its variable and its branches, and whether a variable of the clause's context may be split there.
#[derive(Clone, Copy)]
pub(crate) struct Node<'a> {
    pub(crate) family: u32,
    pub(crate) variable: u32,
    pub(crate) branches: &'a [Branch],
    pub(crate) splits: bool,
}

/// The walk through a tree from a place on.
#[cycle(walk)]
pub(crate) fn walk_tree(
    alloc: Global,
    sig: &Signature,
    tree: &Tree,
    p: Box<Place>,
    kernel: &mut Kernel<'_>,
) -> Result<Proof, ReportStop>
    requires kernel { kernel.old.signature ≡ sig.now }
    requires ready { IsReady sig.now }
    requires place { IsKeptPlace sig.now (place_of p.value) }
    ensures answer { Reports proof_of result kernel.new.left (walks.walk_tree sig.now (case_tree_of tree.now) (place_of p.value) kernel.old.left) }
    ensures sum { kernel.new.left + kernel.new.spent ≡ kernel.old.left + kernel.old.spent }
    ensures spends { kernel.new.left ≤ kernel.old.left }
    ensures kernel { kernel.new.signature ≡ sig.now }
    ensures kept { IfOk result (λ proof. IsKeptProof sig.now (proof_of proof)) }
{
    match tree {
        Tree::Leaf { clause, .. } => Ok(Proof::Ends {
            clause: *clause,
            place: Box::into_inner(p),
        }),
        Tree::Split {
            var,
            family,
            branches,
            ..
        } => {
            let node = Node {
                family: *family,
                variable: *var,
                branches: branches.as_slice(),
                splits: true,
            };
            walk_node(alloc, sig, node, p, kernel)
        }
    }
}

/// The walk from a split of the tree on: into the branch of the constructor that the split's variable is found to be.
#[cycle(walk)]
fn walk_node(
    alloc: Global,
    sig: &Signature,
    node: Node,
    p: Box<Place>,
    kernel: &mut Kernel<'_>,
) -> Result<Proof, ReportStop>
    requires kernel { kernel.old.signature ≡ sig.now }
    requires ready { IsReady sig.now }
    requires place { IsKeptPlace sig.now (place_of p.value) }
    ensures answer { Reports proof_of result kernel.new.left (spec.walk_node sig.now (node_of node.entry) (place_of p.value) kernel.old.left) }
    ensures sum { kernel.new.left + kernel.new.spent ≡ kernel.old.left + kernel.old.spent }
    ensures spends { kernel.new.left ≤ kernel.old.left }
    ensures kernel { kernel.new.signature ≡ sig.now }
    ensures kept { IfOk result (λ proof. IsKeptProof sig.now (proof_of proof)) }
{
    let t = value_at(alloc, p.values.as_slice(), node.variable)?;
    match constructor_met(alloc, sig, p.ctx.as_slice(), node.family, &t, kernel)? {
        Some(met) => {
            let arguments = met.arguments.as_slice();
            take_branch(alloc, sig, node.branches, met.number, arguments, p, kernel)
        }
        None => at_other(alloc, sig, node, t, p, kernel),
    }
}

/// The walk where the split's variable is no constructor of its family: it goes on at a variable that is split.
#[cycle(walk)]
fn at_other(
    alloc: Global,
    sig: &Signature,
    node: Node,
    t: Term,
    p: Box<Place>,
    kernel: &mut Kernel<'_>,
) -> Result<Proof, ReportStop>
    requires kernel { kernel.old.signature ≡ sig.now }
    requires ready { IsReady sig.now }
    requires place { IsKeptPlace sig.now (place_of p.value) }
    requires term { IsScoped sig.now (length p.value.ctx) (tree_of t) }
    ensures answer { Reports proof_of result kernel.new.left (walks.at_other sig.now node.entry.family (tree_of t) (spec.splitting sig.now (node_of node.entry) (tree_of t)) (place_of p.value) kernel.old.left) }
    ensures sum { kernel.new.left + kernel.new.spent ≡ kernel.old.left + kernel.old.spent }
    ensures spends { kernel.new.left ≤ kernel.old.left }
    ensures kernel { kernel.new.signature ≡ sig.now }
    ensures kept { IfOk result (λ proof. IsKeptProof sig.now (proof_of proof)) }
{
    let ctx = p.ctx.as_slice();
    match variable_met(alloc, sig, node.splits, node.family, ctx, &t, kernel)? {
        Some(v) => split_variable(alloc, sig, node, v, p, kernel),
        None => Err(stuck(alloc, p.ctx.as_slice(), &t, &t)?),
    }
}

/// The walk into the branch of a constructor with this number and these arguments.
#[cycle(walk)]
fn take_branch(
    alloc: Global,
    sig: &Signature,
    branches: &[Branch],
    number: u32,
    arguments: &[Term],
    p: Box<Place>,
    kernel: &mut Kernel<'_>,
) -> Result<Proof, ReportStop>
    requires kernel { kernel.old.signature ≡ sig.now }
    requires ready { IsReady sig.now }
    requires place { IsKeptPlace sig.now (place_of p.value) }
    requires arguments { AreScoped sig.now (length p.value.ctx) (tele_of arguments.now) }
    ensures answer { Reports proof_of result kernel.new.left (walks.take_branch sig.now (branches_of branches.now) number (tele_of arguments.now) (place_of p.value) kernel.old.left) }
    ensures sum { kernel.new.left + kernel.new.spent ≡ kernel.old.left + kernel.old.spent }
    ensures spends { kernel.new.left ≤ kernel.old.left }
    ensures kernel { kernel.new.signature ≡ sig.now }
    ensures kept { IfOk result (λ proof. IsKeptProof sig.now (proof_of proof)) }
{
    match branches {
        [] => Err(ReportStop::Stop(Stop::Deep)),
        [branch, rest @ ..] => {
            if number == 0 {
                enter_branch(alloc, sig, branch, arguments, p, kernel)
            } else {
                take_branch(alloc, sig, rest, number - 1, arguments, p, kernel)
            }
        }
    }
}

/// The walk from a branch on, with its terms for the variables of the next node.
#[cycle(walk)]
fn enter_branch(
    alloc: Global,
    sig: &Signature,
    branch: &Branch,
    arguments: &[Term],
    p: Box<Place>,
    kernel: &mut Kernel<'_>,
) -> Result<Proof, ReportStop>
    requires kernel { kernel.old.signature ≡ sig.now }
    requires ready { IsReady sig.now }
    requires place { IsKeptPlace sig.now (place_of p.value) }
    requires arguments { AreScoped sig.now (length p.value.ctx) (tele_of arguments.now) }
    ensures answer { Reports proof_of result kernel.new.left (walks.enter_branch sig.now (branch_of branch.now) (tele_of arguments.now) (place_of p.value) kernel.old.left) }
    ensures sum { kernel.new.left + kernel.new.spent ≡ kernel.old.left + kernel.old.spent }
    ensures spends { kernel.new.left ≤ kernel.old.left }
    ensures kernel { kernel.new.signature ≡ sig.now }
    ensures kept { IfOk result (λ proof. IsKeptProof sig.now (proof_of proof)) }
{
    match branch {
        Branch::Absurd {
            ctx,
            left,
            right,
            ..
        } => Err(stuck(alloc, ctx.as_slice(), left, right)?),
        Branch::Solved { origin, tree, .. } => {
            let values = p.values.as_slice();
            let next = values_in_branch(alloc, values, arguments, origin.as_slice())?;
            walk_tree(alloc, sig, tree, with_values(p, next), kernel)
        }
    }
}

/// The split of a variable of the clause's context: the runs of all constructors, and a proof after each that is solved.
#[cycle(walk)]
fn split_variable(
    alloc: Global,
    sig: &Signature,
    node: Node,
    v: Variable,
    p: Box<Place>,
    kernel: &mut Kernel<'_>,
) -> Result<Proof, ReportStop>
    requires kernel { kernel.old.signature ≡ sig.now }
    requires ready { IsReady sig.now }
    requires place { IsKeptPlace sig.now (place_of p.value) }
    requires variable { IsVariableOf sig.now (length p.value.ctx) node.splits v }
    ensures answer { Reports proof_of result kernel.new.left (walks.split_variable sig.now (spec.walk_node sig.now (spec.again (node_of node.entry))) v.entry.number (tree_of v.entry.ty) (member_meant v.entry.member) (place_of p.value) kernel.old.left) }
    ensures sum { kernel.new.left + kernel.new.spent ≡ kernel.old.left + kernel.old.spent }
    ensures spends { kernel.new.left ≤ kernel.old.left }
    ensures kernel { kernel.new.signature ≡ sig.now }
    ensures kept { IfOk result (λ proof. IsKeptProof sig.now (proof_of proof)) }
{
    let place: &Place = &p;
    match all_runs(
        alloc,
        sig,
        place.ctx.as_slice(),
        v.number,
        &v.member,
        kernel,
    )? {
        Runs::Found(runs) => {
            let none = Items::new(alloc);
            let proofs = solved_branches(alloc, sig, node, place, runs.as_slice(), none, kernel)?;
            Ok(split_with(alloc, p, v, runs, proofs)?)
        }
        Runs::Passed(run) => Err(stuck_run(run)),
    }
}

/// The split of a variable, with the steps of these runs and these proofs.
fn split_with(
    alloc: Global,
    p: Box<Place>,
    v: Variable,
    runs: Items<Ran>,
    proofs: Items<Proof>,
) -> Result<Proof, Stop>
    ensures { Gives proof_of result (Ok (walks.Splits (place_of p.value) v.entry.number (tree_of v.entry.ty) (runs_spec.steps_of_ends (ends_of runs)) (proofs_of proofs))) }
{
    let runs = steps_of_runs(alloc, runs)?;
    let Variable { number, ty, .. } = v;
    Ok(Proof::Splits {
        place: Box::into_inner(p),
        x: number,
        ty,
        runs,
        proofs,
    })
}

/// Proofs, followed by those after the runs that are solved.
#[cycle(walk)]
fn solved_branches(
    alloc: Global,
    sig: &Signature,
    node: Node,
    p: &Place,
    runs: &[Ran],
    made: Items<Proof>,
    kernel: &mut Kernel<'_>,
) -> Result<Items<Proof>, ReportStop>
    requires kernel { kernel.old.signature ≡ sig.now }
    requires ready { IsReady sig.now }
    requires place { IsKeptPlace sig.now (place_of p.now) }
    requires runs { runs_spec.AreSolving sig.now (ends_of runs.now) }
    requires made { AreKeptProofs sig.now (proofs_of made) }
    ensures answer { Reports proofs_of result kernel.new.left (runs_spec.onto (map proof_of made) (runs_spec.solved_outcomes (spec.walk_node sig.now (spec.again (node_of node.entry))) (place_of p.now) (runs_spec.outcomes_in (ends_of runs.now)) kernel.old.left)) }
    ensures sum { kernel.new.left + kernel.new.spent ≡ kernel.old.left + kernel.old.spent }
    ensures spends { kernel.new.left ≤ kernel.old.left }
    ensures kernel { kernel.new.signature ≡ sig.now }
    ensures kept { IfOk result (λ proofs. AreKeptProofs sig.now (proofs_of proofs)) }
{
    match runs {
        [] => Ok(made),
        [run, rest @ ..] => {
            let made = with_solved(alloc, sig, node, p, run, made, kernel)?;
            solved_branches(alloc, sig, node, p, rest, made, kernel)
        }
    }
}

/// Proofs, followed by the one after a run, where it is solved.
#[cycle(walk)]
fn with_solved(
    alloc: Global,
    sig: &Signature,
    node: Node,
    p: &Place,
    run: &Ran,
    mut made: Items<Proof>,
    kernel: &mut Kernel<'_>,
) -> Result<Items<Proof>, ReportStop>
    requires kernel { kernel.old.signature ≡ sig.now }
    requires ready { IsReady sig.now }
    requires place { IsKeptPlace sig.now (place_of p.now) }
    requires run { IsSolving sig.now (ran_of run.now).outcome }
    requires made { AreKeptProofs sig.now (proofs_of made) }
    ensures answer { Reports (λ v. map proof_of v) result kernel.new.left (runs_spec.with_outcome (spec.walk_node sig.now (spec.again (node_of node.entry))) (place_of p.now) (map proof_of made) (ran_of run.now).outcome kernel.old.left) }
    ensures sum { kernel.new.left + kernel.new.spent ≡ kernel.old.left + kernel.old.spent }
    ensures spends { kernel.new.left ≤ kernel.old.left }
    ensures kernel { kernel.new.signature ≡ sig.now }
    ensures kept { IfOk result (λ proofs. AreKeptProofs sig.now (proofs_of proofs)) }
{
    match &run.outcome {
        Outcome::Solved { ctx, subst, .. } => {
            let q = boxed_after(alloc, sig, p, ctx.as_slice(), subst.as_slice())?;
            let again = Node {
                family: node.family,
                variable: node.variable,
                branches: node.branches,
                splits: false,
            };
            made.push(walk_node(alloc, sig, again, q, kernel)?)?;
            Ok(made)
        }
        Outcome::Absurd { .. } | Outcome::Stuck { .. } => Ok(made),
    }
}
