//! Copies of case trees.
ghost use Rattle.std.specs.Prelude.{◌++◌, Ok, map};
ghost use Rattle.core_terms.specs.Answers.{Gives};
ghost use Rattle.core_terms.specs.TreeMeanings.{branch_of, case_tree_of, step_of, steps_of};

use core_terms::{Branch, Items, Origin, Step, Stop, Tree, copy_tele, copy_whole};
use std::alloc::Global;

fn copy_step(alloc: Global, step: &Step) -> Result<Step, Stop>
    ensures { Gives step_of result (Ok (step_of step.now)) }
{
    Ok(Step {
        group: step.group,
        rule: step.rule,
        ty: copy_whole(alloc, &step.ty)?,
        left: copy_whole(alloc, &step.left)?,
        right: copy_whole(alloc, &step.right)?,
    })
}

/// Steps, followed by copies of others.
#[tactic(auto, using(tele_eq::proofs::Growing::growing))]
fn with_steps(alloc: Global, steps: &[Step], mut made: Items<Step>) -> Result<Items<Step>, Stop>
    ensures { Gives steps_of result (Ok (steps_of made ++ steps_of steps.now)) }
{
    match steps {
        [] => Ok(made),
        [step, rest @ ..] => {
            made.push(copy_step(alloc, step)?)?;
            with_steps(alloc, rest, made)
        }
    }
}

/// Origins, followed by others.
#[tactic(auto, using(tele_eq::proofs::Growing::listing))]
fn with_origins(origins: &[Origin], mut made: Items<Origin>) -> Result<Items<Origin>, Stop>
    ensures { Gives (λ os. os) result (Ok (made ++ origins.now)) }
{
    match origins {
        [] => Ok(made),
        [origin, rest @ ..] => {
            made.push(*origin)?;
            with_origins(rest, made)
        }
    }
}

/// A copy of a tree.
#[cycle(copies)]
pub fn copy_tree(alloc: Global, tree: &Tree) -> Result<Tree, Stop>
    ensures { Gives case_tree_of result (Ok (case_tree_of tree.now)) }
{
    match tree {
        Tree::Leaf {
            clause,
            ctx,
            goal,
            subst,
            terms,
            binds,
        } => Ok(Tree::Leaf {
            clause: *clause,
            ctx: copy_tele(alloc, ctx.as_slice())?,
            goal: copy_whole(alloc, goal)?,
            subst: copy_tele(alloc, subst.as_slice())?,
            terms: copy_tele(alloc, terms.as_slice())?,
            binds: copy_tele(alloc, binds.as_slice())?,
        }),
        Tree::Split {
            ctx,
            var,
            family,
            ty,
            branches,
        } => Ok(Tree::Split {
            ctx: copy_tele(alloc, ctx.as_slice())?,
            var: *var,
            family: *family,
            ty: copy_whole(alloc, ty)?,
            branches: with_branches(alloc, branches.as_slice(), Items::new(alloc))?,
        }),
    }
}

/// Branches, followed by copies of others.
#[cycle(copies)]
#[tactic(auto, using(tele_eq::proofs::Growing::growing))]
fn with_branches(
    alloc: Global,
    branches: &[Branch],
    mut made: Items<Branch>,
) -> Result<Items<Branch>, Stop>
    ensures { Gives (map branch_of) result (Ok (map branch_of made ++ map branch_of branches.now)) }
{
    match branches {
        [] => Ok(made),
        [branch, rest @ ..] => {
            made.push(copy_branch(alloc, branch)?)?;
            with_branches(alloc, rest, made)
        }
    }
}

#[cycle(copies)]
fn copy_branch(alloc: Global, branch: &Branch) -> Result<Branch, Stop>
    ensures { Gives branch_of result (Ok (branch_of branch.now)) }
{
    match branch {
        Branch::Absurd {
            steps,
            ctx,
            left,
            right,
        } => Ok(Branch::Absurd {
            steps: with_steps(alloc, steps.as_slice(), Items::new(alloc))?,
            ctx: copy_tele(alloc, ctx.as_slice())?,
            left: copy_whole(alloc, left)?,
            right: copy_whole(alloc, right)?,
        }),
        Branch::Solved {
            steps,
            origin,
            tree,
        } => Ok(Branch::Solved {
            steps: with_steps(alloc, steps.as_slice(), Items::new(alloc))?,
            origin: with_origins(origin.as_slice(), Items::new(alloc))?,
            tree: Box::new(alloc, copy_tree(alloc, tree)?)?,
        }),
    }
}
