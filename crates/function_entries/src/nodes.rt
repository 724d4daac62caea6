//! The nodes of a tree, each over the last context of its branch's run.
ghost use Rattle.std.specs.Prelude.{◌≡◌, ◌++◌, Ok, IfOk, Some, length, map};
ghost use Rattle.core_terms.specs.Answers.{Gives, and_then};
ghost use Rattle.core_terms.specs.Meanings.{tree_of};
ghost use Rattle.core_terms.specs.TreeMeanings.{branch_of, branches_of, steps_of};
ghost use Rattle.core_sig.specs.Meanings.{constructor_of};
ghost use Rattle.tree_translation.specs.TreeTerms as trees;
ghost use Rattle.problems.specs.MemberMeanings.{member_meant};
ghost use Rattle.run_terms.specs.CodeRuns as runs;
ghost use Rattle.split_terms.specs.Bare.{bare_standing};
ghost use Rattle.split_terms.specs.CodeSplits.{member_made};
ghost use Rattle.split_terms.specs.NodeMeanings.{FitsIn, IsWhole, node_of};
ghost use Rattle.function_entries.specs.CodeTrees as spec;
ghost use Rattle.function_entries.specs.SplitMeanings.{IsWholeSplit, family_of_split};

use core_sig::{Constructor, Signature};
use core_terms::{Branch, Items, Step, Stop, Term, copy_tele, copy_whole, number_of};
use problems::Member;
use run_terms::{after_run, widened, widened_number, with_all};
use split_terms::{Node, branch_standing, node_at, type_member};
use std::alloc::Global;

/// The variable that a node is split on, and its type as a family with all its parameters and indices.
#[derive(Drop)]
pub struct SplitVariable<'a> {
    pub number: u32,
    pub member: Option<Member<'a>>,
}

/// How many variables the whole context of a node has.
#[tactic(auto, using(run_terms::proofs::Spines::counts))]
pub fn variable_count(node: &Node) -> Result<u32, Stop>
    ensures { Gives (λ n. n) result (Ok (length (node_of node.now).context)) }
{
    number_of(node.ctx.as_slice().len())
}

/// A type that is read where a node is split, over the node's whole context.
pub fn type_in(alloc: Global, node: &Node, ty: &Term) -> Result<Term, Stop>
    ensures { Gives tree_of result (Ok (trees.type_in (node_of node.now) (tree_of ty.now))) }
{
    let n = variable_count(node)?;
    widened(alloc, n, node.hidden.as_slice(), ty)
}

/// A variable that is read there.
pub fn variable_in(alloc: Global, node: &Node, x: u32) -> Result<u32, Stop>
    ensures { Gives (λ x. x) result (Ok (trees.variable_in (node_of node.now) x)) }
{
    let n = variable_count(node)?;
    widened_number(alloc, n, node.hidden.as_slice(), x)
}

/// The variable that a node is split on, whose type over the whole context is given, or Deep where that is too high.
pub fn split_variable<'a>(
    alloc: Global,
    sig: &'a Signature,
    node: &Node,
    x: u32,
    ty: &Term,
) -> Result<SplitVariable<'a>, Stop>
    ensures family { Gives family_of_split result (member_made sig.now (tree_of ty.now)) }
    ensures number { IfOk result (λ v. v.number ≡ trees.variable_in (node_of node.now) x) }
    ensures whole { IfOk result IsWholeSplit }
{
    let number = variable_in(alloc, node, x)?;
    let member = type_member(alloc, sig, ty)?;
    Ok(SplitVariable { number, member })
}

/// A copy of the node in memory of its own.
fn copy_node(alloc: Global, node: &Node) -> Result<Node, Stop>
    ensures { Gives node_of result (Ok (node_of node.now)) }
{
    Ok(Node {
        ctx: copy_tele(alloc, node.ctx.as_slice())?,
        goal: copy_whole(alloc, &node.goal)?,
        hidden: with_all(Items::new(alloc), node.hidden.as_slice())?,
    })
}

/// The node after a run of a constructor, by the standing from which the run starts.
fn node_from(
    alloc: Global,
    sig: &Signature,
    node: &Node,
    m: &Member,
    x: u32,
    number: u32,
    steps: &[Step],
    con: &Constructor,
) -> Result<Node, Stop>
    requires kinds { FitsIn m.now con.now }
    requires parameters { length m.now.params ≡ length m.now.family.now.params }
    ensures { Gives node_of result (and_then (bare_standing (node_of node.now) (member_meant m.now) x number (constructor_of (length m.now.family.now.params) con.now)) (λ s. and_then (runs.after_run sig.now (steps_of steps.now) s) (λ end. Ok (trees.node_of end)))) }
{
    let start = branch_standing(alloc, node, m, x, number, con)?;
    let end = after_run(alloc, sig, steps, start)?;
    Ok(node_at(end))
}

/// The node after a run of a constructor, or Deep.
fn node_with(
    alloc: Global,
    sig: &Signature,
    node: &Node,
    m: &Member,
    x: u32,
    number: u32,
    steps: &[Step],
    con: &Constructor,
) -> Result<Node, Stop>
    requires kinds { FitsIn m.now con.now }
    requires parameters { length m.now.params ≡ length m.now.family.now.params }
    ensures { Gives node_of result (spec.node_with sig.now (node_of node.now) (member_meant m.now) x number (steps_of steps.now) (constructor_of (length m.now.family.now.params) con.now)) }
{
    node_from(alloc, sig, node, m, x, number, steps, con)
}

/// The node after a run of the constructor with a number, or Deep. It stays where there is no such constructor.
#[tactic(auto, using(crate::proofs::Constructors::constructors))]
fn node_after(
    alloc: Global,
    sig: &Signature,
    node: &Node,
    m: &Member,
    x: u32,
    number: u32,
    steps: &[Step],
) -> Result<Node, Stop>
    requires { IsWhole m.now }
    ensures { Gives node_of result (spec.next_made sig.now (node_of node.now) x number (steps_of steps.now) (Some (member_meant m.now))) }
{
    match m.family.cons.as_slice().get(number as usize) {
        None => copy_node(alloc, node),
        Some(con) => node_with(alloc, sig, node, m, x, number, steps, con),
    }
}

/// The node after a run of the constructor with a number, or Deep.
pub fn next_node(
    alloc: Global,
    sig: &Signature,
    node: &Node,
    v: &SplitVariable,
    number: u32,
    steps: &[Step],
) -> Result<Node, Stop>
    requires { IsWholeSplit v.now }
    ensures { Gives node_of result (spec.next_made sig.now (node_of node.now) v.now.number number (steps_of steps.now) (family_of_split v.now)) }
{
    match &v.member {
        None => copy_node(alloc, node),
        Some(m) => node_after(alloc, sig, node, m, v.number, number, steps),
    }
}

/// The steps of a branch.
fn steps_in(branch: &Branch) -> &[Step]
    ensures { steps_of result.now ≡ trees.steps_of (branch_of branch.now) }
{
    match branch {
        Branch::Absurd { steps, .. } => steps.as_slice(),
        Branch::Solved { steps, .. } => steps.as_slice(),
    }
}

/// Runs, followed by those of branches.
#[tactic(auto, using(tele_eq::proofs::Growing::growing))]
fn with_runs<'a>(branches: &'a [Branch], mut made: Vec<&'a [Step]>) -> Result<Vec<&'a [Step]>, Stop>
    ensures { Gives (λ v. map (λ steps. steps_of steps.now) v.items) result (Ok (map (λ steps. steps_of steps.now) made.entry.items ++ trees.runs_of (branches_of branches.now))) }
{
    match branches {
        [] => Ok(made),
        [branch, rest @ ..] => {
            made.push(steps_in(branch))?;
            with_runs(rest, made)
        }
    }
}

/// The steps of all branches.
pub fn runs_of<'a>(alloc: Global, branches: &'a [Branch]) -> Result<Vec<&'a [Step]>, Stop>
    ensures { Gives (λ v. map (λ steps. steps_of steps.now) v.items) result (Ok (trees.runs_of (branches_of branches.now))) }
{
    with_runs(branches, Vec::new(alloc))
}
