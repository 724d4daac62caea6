ghost use Rattle.std.specs.Prelude.{◌≡◌, Some, [], ◌∷◌, ◌++◌, Ok, length, map};
ghost use Rattle.core_terms.specs.Answers.{Gives, and_then};
ghost use Rattle.core_terms.specs.Meanings.{tree_of};
ghost use Rattle.core_terms.specs.TreeMeanings.{steps_of};
ghost use Rattle.core_sig.specs.Meanings.{constructor_of};
ghost use Rattle.tree_translation.specs.TreeTerms as trees;
ghost use Rattle.problems.specs.MemberMeanings.{member_meant};
ghost use Rattle.split_terms.specs.Bare.{bare_standing};
ghost use Rattle.split_terms.specs.CodeRunTerms as runs;
ghost use Rattle.split_terms.specs.CodeSplits as spec;
ghost use Rattle.split_terms.specs.NodeMeanings.{AllFitIn, FitsIn, IsWhole, named_nodes_of, node_of};

use crate::branch_problems::branch_standing;
use crate::members::type_member;
use crate::names::run_ended;
use crate::node::{Node, node_at};
use core_sig::{Constructor, Signature};
use core_terms::{Items, Name, Step, Stop, Term, next};
use problems::Member;
use run_terms::case_name;
use std::alloc::Global;

/// Names and nodes, followed by those of the run of a constructor, by the standing from which it starts.
fn ended_from(
    alloc: Global,
    sig: &Signature,
    level: u8,
    node: &Node,
    m: &Member,
    x: u32,
    number: u32,
    con: &Constructor,
    steps: &[Step],
    names: Items<Name>,
    mut nodes: Items<Node>,
) -> Result<(Items<Name>, Items<Node>), Stop>
    requires kinds { FitsIn m.now con.now }
    requires parameters { length m.now.params ≡ length m.now.family.now.params }
    ensures { Gives named_nodes_of result (and_then (bare_standing (node_of node.now) (member_meant m.now) x number (constructor_of (length m.now.family.now.params) con.now)) (λ s. and_then (runs.run_ended sig.now level (steps_of steps.now) s names) (λ r. Ok (r.0, map node_of nodes ++ trees.node_of r.1 ∷ [])))) }
{
    let s = branch_standing(alloc, node, m, x, number, con)?;
    let (names, end) = run_ended(alloc, sig, level, steps, s, names)?;
    nodes.push(node_at(end))?;
    Ok((names, nodes))
}

/// Names and nodes, followed by those of the run of a constructor, or Deep.
fn branch_ended(
    alloc: Global,
    sig: &Signature,
    level: u8,
    node: &Node,
    m: &Member,
    x: u32,
    number: u32,
    con: &Constructor,
    steps: &[Step],
    names: Items<Name>,
    nodes: Items<Node>,
) -> Result<(Items<Name>, Items<Node>), Stop>
    requires kinds { FitsIn m.now con.now }
    requires parameters { length m.now.params ≡ length m.now.family.now.params }
    ensures { Gives named_nodes_of result (spec.branch_ended sig.now level (node_of node.now) (member_meant m.now) x number (constructor_of (length m.now.family.now.params) con.now) (steps_of steps.now) names (map node_of nodes)) }
{
    ended_from(
        alloc, sig, level, node, m, x, number, con, steps, names, nodes,
    )
}

/// Names and nodes, followed by those of the runs of constructors, the first of which has this number, or Deep.
fn methods_ended(
    alloc: Global,
    sig: &Signature,
    level: u8,
    node: &Node,
    m: &Member,
    x: u32,
    number: u32,
    cons: &[Constructor],
    runs: &[&[Step]],
    names: Items<Name>,
    nodes: Items<Node>,
) -> Result<(Items<Name>, Items<Node>), Stop>
    requires kinds { AllFitIn m.now cons.now }
    requires parameters { length m.now.params ≡ length m.now.family.now.params }
    ensures { Gives named_nodes_of result (spec.methods_ended sig.now level (node_of node.now) (member_meant m.now) x number (map (constructor_of (length m.now.family.now.params)) cons.now) (map (λ steps. steps_of steps.now) runs.now) names (map node_of nodes)) }
{
    let [con, cons @ ..] = cons else {
        return Ok((names, nodes));
    };
    let [steps, runs @ ..] = runs else {
        return Ok((names, nodes));
    };
    let (names, nodes) = branch_ended(
        alloc, sig, level, node, m, x, number, con, steps, names, nodes,
    )?;
    let number = next(number)?;
    methods_ended(
        alloc, sig, level, node, m, x, number, cons, runs, names, nodes,
    )
}

/// Names, followed by those of a split on a variable of this family, and the nodes after its runs, or Deep.
fn member_ended(
    alloc: Global,
    sig: &Signature,
    level: u8,
    node: &Node,
    m: &Member,
    x: u32,
    runs: &[&[Step]],
    mut names: Items<Name>,
) -> Result<(Items<Name>, Items<Node>), Stop>
    requires { IsWhole m.now }
    ensures { Gives named_nodes_of result (spec.member_ended sig.now level (node_of node.now) x (map (λ steps. steps_of steps.now) runs.now) names (Some (member_meant m.now))) }
{
    names.push(case_name(alloc, m.family, level)?)?;
    let cons = m.family.cons.as_slice();
    let nodes = Items::new(alloc);
    methods_ended(alloc, sig, level, node, m, x, 0, cons, runs, names, nodes)
}

/// Names, followed by those that the term of a split node may mention, and the node after the run of each constructor, or Deep.
pub fn split_ended(
    alloc: Global,
    sig: &Signature,
    level: u8,
    node: &Node,
    x: u32,
    ty: &Term,
    runs: &[&[Step]],
    names: Items<Name>,
) -> Result<(Items<Name>, Items<Node>), Stop>
    ensures { Gives named_nodes_of result (spec.split_ended sig.now level (node_of node.now) x (tree_of ty.now) (map (λ steps. steps_of steps.now) runs.now) names) }
{
    match type_member(alloc, sig, ty)? {
        None => Ok((names, Items::new(alloc))),
        Some(m) => member_ended(alloc, sig, level, node, &m, x, runs, names),
    }
}

/// Names, followed by those that the term of a split node may mention, or Deep.
pub fn split_names(
    alloc: Global,
    sig: &Signature,
    level: u8,
    node: &Node,
    x: u32,
    ty: &Term,
    runs: &[&[Step]],
    names: Items<Name>,
) -> Result<Items<Name>, Stop>
    ensures { Gives (λ ns. ns) result (spec.split_names_made sig.now level (node_of node.now) x (tree_of ty.now) (map (λ steps. steps_of steps.now) runs.now) names) }
{
    let (names, _) = split_ended(alloc, sig, level, node, x, ty, runs, names)?;
    Ok(names)
}
