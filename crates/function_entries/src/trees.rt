ghost use Rattle.std.specs.Prelude.{◌≡◌, Ok, map};
ghost use Rattle.core_terms.specs.Answers.{Gives};
ghost use Rattle.core_terms.specs.Meanings.{tree_of, tele_of};
ghost use Rattle.core_terms.specs.TreeMeanings.{branch_of, branches_of, case_tree_of};
ghost use Rattle.run_terms.specs.outlines.OutlineMeanings.{outline_of, outlines_of};
ghost use Rattle.split_terms.specs.NodeMeanings.{node_of};
ghost use Rattle.leaf_terms.specs.PlaceMeanings.{HaveFamilies, translation_of};
ghost use Rattle.function_entries.specs.CodeTrees as spec;
ghost use Rattle.function_entries.specs.SplitMeanings.{IsWholeSplit, family_of_split};

use crate::nodes::{SplitVariable, next_node, runs_of, split_variable, type_in, variable_count};
use core_terms::{Branch, Items, Stop, Term, Tree, next};
use leaf_terms::{Translation, leaf_term};
use run_terms::outlines::{Outline, Outlines, listed};
use split_terms::{Node, split_outline};
use std::alloc::Global;

/// The term of a leaf at a node, or Deep.
fn leaf_at(
    alloc: Global,
    w: &Translation,
    node: &Node,
    clause: u32,
    substitution: &[Term],
    terms: &[Term],
    binds: &[Term],
) -> Result<Outline, Stop>
    requires { HaveFamilies w.now.sig.now (translation_of w.now).recursions }
    ensures { Gives outline_of result (spec.leaf_at (translation_of w.now) (node_of node.now) clause (tele_of substitution.now) (tele_of terms.now) (tele_of binds.now)) }
{
    let n = variable_count(node)?;
    let hidden = node.hidden.as_slice();
    let leaf = leaf_term(alloc, w, n, hidden, clause, substitution, terms, binds)?;
    Ok(Outline::Whole(leaf))
}

/// The term of a split at a node, from those of its subtrees, or Deep.
fn split_with(
    alloc: Global,
    w: &Translation,
    node: &Node,
    x: u32,
    ty: &Term,
    branches: &[Branch],
    ends: Outlines,
) -> Result<Outline, Stop>
    ensures { Gives outline_of result (spec.split_at (translation_of w.now) (node_of node.now) x (tree_of ty.now) (branches_of branches.now) (outlines_of ends)) }
{
    let runs = runs_of(alloc, branches)?;
    let level = w.part.level;
    split_outline(
        alloc,
        w.sig,
        w.naming,
        level,
        node,
        x,
        ty,
        runs.as_slice(),
        ends,
    )
}

/// The term of a tree at a node, in outline, or Deep.
#[cycle(terms)]
pub fn tree_term(alloc: Global, w: &Translation, tree: &Tree, node: &Node) -> Result<Outline, Stop>
    requires { HaveFamilies w.now.sig.now (translation_of w.now).recursions }
    ensures { Gives outline_of result (spec.tree_made (translation_of w.now) (case_tree_of tree.now) (node_of node.now)) }
{
    match tree {
        Tree::Leaf {
            clause,
            subst,
            terms,
            binds,
            ..
        } => leaf_at(
            alloc,
            w,
            node,
            *clause,
            subst.as_slice(),
            terms.as_slice(),
            binds.as_slice(),
        ),
        Tree::Split {
            var,
            ty,
            branches,
            ..
        } => {
            let ty = type_in(alloc, node, ty)?;
            split_at(alloc, w, node, *var, &ty, branches.as_slice())
        }
    }
}

/// The term of a split at a node, or Deep. The type is over the whole context.
#[cycle(terms)]
fn split_at(
    alloc: Global,
    w: &Translation,
    node: &Node,
    x: u32,
    ty: &Term,
    branches: &[Branch],
) -> Result<Outline, Stop>
    requires { HaveFamilies w.now.sig.now (translation_of w.now).recursions }
    ensures { Gives outline_of result (spec.split_made (translation_of w.now) (branches_of branches.now) (node_of node.now) x (tree_of ty.now)) }
{
    let v = split_variable(alloc, w.sig, node, x, ty)?;
    let ends = with_ends(alloc, w, node, &v, 0, branches, Items::new(alloc))?;
    let ends = listed(alloc, ends.into_vec())?;
    split_with(alloc, w, node, v.number, ty, branches, ends)
}

/// Terms, followed by those of the subtrees of branches, the first of which is that of the constructor with this number, or Deep.
#[cycle(terms)]
fn with_ends(
    alloc: Global,
    w: &Translation,
    node: &Node,
    v: &SplitVariable,
    number: u32,
    branches: &[Branch],
    made: Items<Outline>,
) -> Result<Items<Outline>, Stop>
    requires family { HaveFamilies w.now.sig.now (translation_of w.now).recursions }
    requires whole { IsWholeSplit v.now }
    ensures { Gives (λ v. map outline_of v) result (spec.ends_made (translation_of w.now) (branches_of branches.now) (node_of node.now) v.now.number (family_of_split v.now) number (map outline_of made)) }
{
    match branches {
        [] => Ok(made),
        [branch, rest @ ..] => {
            let made = with_end(alloc, w, node, v, number, branch, made)?;
            with_ends(alloc, w, node, v, next(number)?, rest, made)
        }
    }
}

/// Terms, followed by that of a solved branch, or Deep.
#[cycle(terms)]
fn with_end(
    alloc: Global,
    w: &Translation,
    node: &Node,
    v: &SplitVariable,
    number: u32,
    branch: &Branch,
    mut made: Items<Outline>,
) -> Result<Items<Outline>, Stop>
    requires family { HaveFamilies w.now.sig.now (translation_of w.now).recursions }
    requires whole { IsWholeSplit v.now }
    ensures { Gives (λ v. map outline_of v) result (spec.end_made (translation_of w.now) (branch_of branch.now) (node_of node.now) v.now.number (family_of_split v.now) number (map outline_of made)) }
{
    match branch {
        Branch::Absurd { .. } => Ok(made),
        Branch::Solved { steps, tree, .. } => {
            let next = next_node(alloc, w.sig, node, v, number, steps.as_slice())?;
            made.push(tree_term(alloc, w, tree, &next)?)?;
            Ok(made)
        }
    }
}
