//! Texts of trees.
//!
//! A leaf is the number of its clause, with the terms of the clause's variables in brackets. A split is the variable with its branches
//! in parentheses. A branch has the rules of its steps, and after a colon its tree, or `!` where it is absurd. The rules are `R`
//! and `L`, with the variable, for a solution of the right or the left side, `I` for injectivity, `C` for a conflict, `Y` with the variable
//! for a cycle, and `D` for a deletion.
use crate::texts::{add_number, add_terms};
use core_sig::Signature;
use core_terms::{Branch, Rule, Step, Stop, Tree};
use std::alloc::Global;

/// Adds a letter and a number.
fn add_lettered(alloc: Global, out: &mut Vec<u8>, letter: u8, number: u32) -> Result<(), Stop> {
    out.push(letter)?;
    add_number(alloc, out, u64::from(number))
}

fn add_rule(alloc: Global, out: &mut Vec<u8>, rule: Rule) -> Result<(), Stop> {
    match rule {
        Rule::SolveRight(x) => add_lettered(alloc, out, b'R', x),
        Rule::SolveLeft(x) => add_lettered(alloc, out, b'L', x),
        Rule::Cycle(x) => add_lettered(alloc, out, b'Y', x),
        Rule::Inject(..) => Ok(out.push(b'I')?),
        Rule::Conflict(..) => Ok(out.push(b'C')?),
        Rule::Delete => Ok(out.push(b'D')?),
    }
}

fn add_rules(alloc: Global, out: &mut Vec<u8>, steps: &[Step]) -> Result<(), Stop> {
    for step in steps {
        add_rule(alloc, out, step.rule)?;
    }
    Ok(())
}

/// Adds a tree.
#[cycle(trees)]
pub fn add_tree(
    alloc: Global,
    sig: &Signature,
    out: &mut Vec<u8>,
    tree: &Tree,
) -> Result<(), Stop> {
    match tree {
        Tree::Leaf { clause, binds, .. } => {
            add_number(alloc, out, u64::from(*clause).saturating_add(1))?;
            out.push(b'[')?;
            add_terms(alloc, sig, out, binds.as_slice(), b" ")?;
            Ok(out.push(b']')?)
        }
        Tree::Split { var, branches, .. } => {
            out.extend_from_slice(b"(%")?;
            add_number(alloc, out, u64::from(*var))?;
            add_branches(alloc, sig, out, branches.as_slice())?;
            Ok(out.push(b')')?)
        }
    }
}

#[cycle(trees)]
fn add_branches(
    alloc: Global,
    sig: &Signature,
    out: &mut Vec<u8>,
    branches: &[Branch],
) -> Result<(), Stop> {
    match branches {
        [] => Ok(()),
        [branch, rest @ ..] => {
            out.push(b' ')?;
            add_branch(alloc, sig, out, branch)?;
            add_branches(alloc, sig, out, rest)
        }
    }
}

#[cycle(trees)]
fn add_branch(
    alloc: Global,
    sig: &Signature,
    out: &mut Vec<u8>,
    branch: &Branch,
) -> Result<(), Stop> {
    match branch {
        Branch::Absurd { steps, .. } => {
            add_rules(alloc, out, steps.as_slice())?;
            Ok(out.push(b'!')?)
        }
        Branch::Solved { steps, tree, .. } => {
            add_rules(alloc, out, steps.as_slice())?;
            out.push(b':')?;
            add_tree(alloc, sig, out, tree)
        }
    }
}

/// How many leaves a tree has.
#[cycle(leaves)]
pub fn leaves(tree: &Tree) -> u64 {
    match tree {
        Tree::Leaf { .. } => 1,
        Tree::Split { branches, .. } => leaves_of(branches.as_slice()),
    }
}

#[cycle(leaves)]
fn leaves_of(branches: &[Branch]) -> u64 {
    match branches {
        [] => 0,
        [Branch::Absurd { .. }, rest @ ..] => leaves_of(rest),
        [Branch::Solved { tree, .. }, rest @ ..] => leaves(tree).saturating_add(leaves_of(rest)),
    }
}
