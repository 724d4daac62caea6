ghost use Rattle.std.specs.Prelude.{◌≡◌, map};
ghost use Rattle.core_terms.specs.Answers.{Gives};
ghost use Rattle.core_terms.specs.Meanings.{tree_of};
ghost use Rattle.core_terms.specs.TreeMeanings.{branch_of, branches_of, case_tree_of};
ghost use Rattle.tree_translation.specs.TreeTerms as trees;
ghost use Rattle.split_terms.specs.CodeSplits as splits;
ghost use Rattle.split_terms.specs.NodeMeanings.{named_nodes_of, node_of};
ghost use Rattle.function_entries.specs.CodeTrees as spec;

use crate::nodes::{runs_of, type_in, variable_in};
use core_sig::Signature;
use core_terms::{Branch, Items, Name, Stop, Term, Tree};
use split_terms::{Node, split_ended};
use std::alloc::Global;

/// Names, followed by those that the term of a split may mention apart from its subtrees, and the nodes of these, or Deep.
fn with_split(
    alloc: Global,
    sig: &Signature,
    level: u8,
    node: &Node,
    x: u32,
    ty: &Term,
    branches: &[Branch],
    names: Items<Name>,
) -> Result<(Items<Name>, Items<Node>), Stop>
    ensures { Gives named_nodes_of result (splits.split_ended sig.now level (node_of node.now) x (tree_of ty.now) (trees.runs_of (branches_of branches.now)) names) }
{
    let runs = runs_of(alloc, branches)?;
    split_ended(alloc, sig, level, node, x, ty, runs.as_slice(), names)
}

/// The first of the nodes that are left, or the node that was split where none is.
fn first_node<'a>(nodes: &'a [Node], node: &'a Node) -> &'a Node
    ensures { node_of result.now ≡ spec.first_node (map node_of nodes.now) (node_of node.now) }
{
    match nodes {
        [] => node,
        [first, ..] => first,
    }
}

/// The nodes after the first.
fn later_nodes(nodes: &[Node]) -> &[Node]
    ensures { map node_of result.now ≡ spec.later_nodes (map node_of nodes.now) }
{
    match nodes {
        [] => nodes,
        [_, later @ ..] => later,
    }
}

/// Names, followed by those that the term of a tree at a node may mention, or Deep.
#[cycle(names)]
pub fn tree_names(
    alloc: Global,
    sig: &Signature,
    level: u8,
    tree: &Tree,
    node: &Node,
    names: Items<Name>,
) -> Result<Items<Name>, Stop>
    ensures { Gives (λ ns. ns) result (spec.tree_names_made sig.now level (case_tree_of tree.now) (node_of node.now) names) }
{
    match tree {
        Tree::Leaf { .. } => Ok(names),
        Tree::Split {
            var,
            ty,
            branches,
            ..
        } => {
            let ty = type_in(alloc, node, ty)?;
            names_of_split(
                alloc,
                sig,
                level,
                node,
                *var,
                &ty,
                branches.as_slice(),
                names,
            )
        }
    }
}

/// Names, followed by those that the term of a split may mention, or Deep. The type is over the whole context.
#[cycle(names)]
fn names_of_split(
    alloc: Global,
    sig: &Signature,
    level: u8,
    node: &Node,
    x: u32,
    ty: &Term,
    branches: &[Branch],
    names: Items<Name>,
) -> Result<Items<Name>, Stop>
    ensures { Gives (λ ns. ns) result (spec.names_made sig.now level (branches_of branches.now) (node_of node.now) x (tree_of ty.now) names) }
{
    let x = variable_in(alloc, node, x)?;
    let (names, nodes) = with_split(alloc, sig, level, node, x, ty, branches, names)?;
    branches_names(alloc, sig, level, node, nodes.as_slice(), branches, names)
}

/// Names, followed by those of the subtrees of branches, whose nodes come in the same order, or Deep. Where no node is left, the subtree
/// is over the node that was split.
#[cycle(names)]
fn branches_names(
    alloc: Global,
    sig: &Signature,
    level: u8,
    node: &Node,
    nodes: &[Node],
    branches: &[Branch],
    names: Items<Name>,
) -> Result<Items<Name>, Stop>
    ensures { Gives (λ ns. ns) result (spec.subtrees_names sig.now level (branches_of branches.now) (node_of node.now) (map node_of nodes.now) names) }
{
    match branches {
        [] => Ok(names),
        [branch, rest @ ..] => {
            let first = first_node(nodes, node);
            let names = branch_names(alloc, sig, level, branch, first, names)?;
            branches_names(alloc, sig, level, node, later_nodes(nodes), rest, names)
        }
    }
}

/// Names, followed by those of the subtree of a solved branch at its node, or Deep.
#[cycle(names)]
fn branch_names(
    alloc: Global,
    sig: &Signature,
    level: u8,
    branch: &Branch,
    node: &Node,
    names: Items<Name>,
) -> Result<Items<Name>, Stop>
    ensures { Gives (λ ns. ns) result (spec.subtree_names sig.now level (branch_of branch.now) (node_of node.now) names) }
{
    match branch {
        Branch::Absurd { .. } => Ok(names),
        Branch::Solved { tree, .. } => tree_names(alloc, sig, level, tree, node, names),
    }
}
