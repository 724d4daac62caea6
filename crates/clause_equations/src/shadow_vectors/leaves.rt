//! The leaves of a clause in a tree.
ghost use Rattle.std.specs.Prelude.{◌≡◌, ◌++◌, ◌∷◌, [], cond, Ok, Err, OnOk, OnErr};
ghost use Rattle.core_terms.specs.Answers.{Gives};
ghost use Rattle.core_terms.specs.TreeMeanings.{branch_of, branches_of, case_tree_of};
ghost use Rattle.core_terms.specs.declared.stop.Stop.TheVariants.{Memory};
ghost use Rattle.clause_reports.specs.Shadows as spec;
ghost use Rattle.clause_equations.specs.shadow_vectors.LeafMeanings.{all_leaves_of, leaf_of};

use core_terms::{Branch, Items, Stop, Term, Tree};
use std::alloc::Global;

/// A leaf of a tree, whose clause is known: its context, the goal there, the terms of the variables of the starting context, of the
/// columns, and of the clause's variables.
#[derive(Clone, Copy)]
pub struct TreeLeaf<'a> {
    pub ctx: &'a [Term],
    pub goal: &'a Term,
    pub subst: &'a [Term],
    pub terms: &'a [Term],
    pub binds: &'a [Term],
}

/// A leaf after those that are found, if it is one of the clause.
fn add_if<'a>(own: bool, leaf: TreeLeaf<'a>, found: &mut Items<TreeLeaf<'a>>) -> Result<(), Stop>
    ensures ok { OnOk result (all_leaves_of found.new ≡ all_leaves_of found.old ++ cond own (leaf_of leaf.entry ∷ []) []) }
    ensures err { OnErr result (result ≡ Err Memory) }
{
    if own {
        found.push(leaf)?;
    }
    Ok(())
}

/// The leaves of a clause in a tree after those that are found.
#[cycle(leaves)]
fn add_leaves<'a>(clause: u32, tree: &'a Tree, found: &mut Items<TreeLeaf<'a>>) -> Result<(), Stop>
    ensures ok { OnOk result (all_leaves_of found.new ≡ all_leaves_of found.old ++ spec.leaves_of clause (case_tree_of tree.now)) }
    ensures err { OnErr result (result ≡ Err Memory) }
{
    match tree {
        Tree::Leaf {
            clause: number,
            ctx,
            goal,
            subst,
            terms,
            binds,
        } => {
            let leaf = TreeLeaf {
                ctx: ctx.as_slice(),
                goal,
                subst: subst.as_slice(),
                terms: terms.as_slice(),
                binds: binds.as_slice(),
            };
            add_if(*number == clause, leaf, found)
        }
        Tree::Split { branches, .. } => add_below(clause, branches.as_slice(), found),
    }
}

/// The leaves of a clause below branches after those that are found.
#[cycle(leaves)]
fn add_below<'a>(
    clause: u32,
    branches: &'a [Branch],
    found: &mut Items<TreeLeaf<'a>>,
) -> Result<(), Stop>
    ensures ok { OnOk result (all_leaves_of found.new ≡ all_leaves_of found.old ++ spec.leaves_below clause (branches_of branches.now)) }
    ensures err { OnErr result (result ≡ Err Memory) }
{
    match branches {
        [] => Ok(()),
        [branch, rest @ ..] => {
            add_in_branch(clause, branch, found)?;
            add_below(clause, rest, found)
        }
    }
}

/// The leaves of a clause in a branch after those that are found.
#[cycle(leaves)]
fn add_in_branch<'a>(
    clause: u32,
    branch: &'a Branch,
    found: &mut Items<TreeLeaf<'a>>,
) -> Result<(), Stop>
    ensures ok { OnOk result (all_leaves_of found.new ≡ all_leaves_of found.old ++ spec.leaves_in_branch clause (branch_of branch.now)) }
    ensures err { OnErr result (result ≡ Err Memory) }
{
    match branch {
        Branch::Absurd { .. } => Ok(()),
        Branch::Solved { tree, .. } => add_leaves(clause, tree, found),
    }
}

/// The leaves of a clause in a tree, in their order.
pub fn leaves_of<'a>(
    alloc: Global,
    clause: u32,
    tree: &'a Tree,
) -> Result<Items<TreeLeaf<'a>>, Stop>
    ensures { Gives all_leaves_of result (Ok (spec.leaves_of clause (case_tree_of tree.now))) }
{
    let mut found = Items::new(alloc);
    add_leaves(clause, tree, &mut found)?;
    Ok(found)
}
