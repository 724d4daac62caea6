ghost use Rattle.std.specs.Prelude.{◌++◌, Ok};
ghost use Rattle.core_terms.specs.Answers.{Gives};
ghost use Rattle.core_terms.specs.CaseTrees as pure;
ghost use Rattle.core_terms.specs.Meanings.{tree_of, tele_of};
ghost use Rattle.core_terms.specs.TreeMeanings.{branch_of, case_tree_of, step_of, steps_of};
ghost use Rattle.case_trees.specs.Origins as spec;
ghost use Rattle.clause_splitting.specs.Following.{AreFollowed};

use crate::origins::{first_origins, origins_behind};
use core_terms::{Branch, Items, Step, Stop, Term, Tree, copy_tele, copy_whole};
use std::alloc::Global;

fn copy_step(alloc: Global, step: &Step) -> Result<Step, Stop>
    ensures { Gives step_of result (Ok (step_of step.now)) }
{
    Ok(Step {
        group: step.group,
        rule: step.rule,
        ty: copy_whole(alloc, &step.ty)?,
        left: copy_whole(alloc, &step.left)?,
        right: copy_whole(alloc, &step.right)?,
    })
}

/// The steps, after those that are made.
#[tactic(auto, using(tele_eq::proofs::Growing::growing))]
fn copy_steps(alloc: Global, steps: &[Step], mut made: Items<Step>) -> Result<Items<Step>, Stop>
    ensures { Gives steps_of result (Ok (steps_of made ++ steps_of steps.now)) }
{
    match steps {
        [] => Ok(made),
        [step, rest @ ..] => {
            made.push(copy_step(alloc, step)?)?;
            copy_steps(alloc, rest, made)
        }
    }
}

/// The branch of a constructor that can't be there, which the last step shows at two sides.
pub(crate) fn absurd_branch(
    alloc: Global,
    steps: &[Step],
    ctx: &[Term],
    left: &Term,
    right: &Term,
) -> Result<Branch, Stop>
    ensures { Gives branch_of result (Ok (pure.Absurd (steps_of steps.now) (tele_of ctx.now) (tree_of left.now) (tree_of right.now))) }
{
    let steps = copy_steps(alloc, steps, Items::new(alloc))?;
    let ctx = copy_tele(alloc, ctx)?;
    let left = copy_whole(alloc, left)?;
    let right = copy_whole(alloc, right)?;
    Ok(Branch::Absurd {
        steps,
        ctx,
        left,
        right,
    })
}

/// The branch of a constructor with so many arguments, whose problem is solved by steps from the context `ctx` on, where `n`
/// variables were split.
pub(crate) fn solved_branch(
    alloc: Global,
    n: u32,
    arguments: u32,
    ctx: &[Term],
    steps: &[Step],
    tree: Tree,
) -> Result<Branch, Stop>
    requires { AreFollowed (steps_of steps.now) (tele_of ctx.now) }
    ensures { Gives branch_of result (Ok (pure.Solved (steps_of steps.now) (spec.origins_behind (steps_of steps.now) (tele_of ctx.now) (spec.first_origins n arguments)) (case_tree_of tree))) }
{
    let first = first_origins(alloc, n, arguments)?;
    let ctx = copy_tele(alloc, ctx)?;
    let origin = origins_behind(alloc, ctx, steps, first)?;
    let steps = copy_steps(alloc, steps, Items::new(alloc))?;
    let tree = Box::new(alloc, tree)?;
    Ok(Branch::Solved {
        steps,
        origin,
        tree,
    })
}
