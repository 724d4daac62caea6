ghost use Rattle.std.specs.Prelude.{◌≡◌, ◌<◌, ◌+◌, ◌-◌, ◌^◌, ◌++◌, length, map, get_or, IfOk, Ok};
ghost use Rattle.core_terms.specs.Answers.{Gives};
ghost use Rattle.core_terms.specs.Meanings.{tree_of, tele_of};
ghost use Rattle.core_terms.specs.TreeMeanings.{steps_of};
ghost use Rattle.core_terms.specs.declared.case_tree.Origin.TheVariants as origin;
ghost use Rattle.tele_eq.specs.Items.{each_position};
ghost use Rattle.unification.specs.Occurrences as occurrences;
ghost use Rattle.problems.specs.Conditions.{AreBelow, AreTypesOver};
ghost use Rattle.case_trees.specs.Origins as spec;
ghost use Rattle.clause_splitting.specs.Following.{AreFollowed, IsSolvedBy, traced, traced_of};

use core_terms::{Items, Origin, Rule, Step, Stop, Tele, Term};
use problems::Solution;
use std::alloc::Global;
use unifier::{dependants, new_context, new_order};

/// The level of a variable by its number, in a context of `n` variables.
fn level_in(n: u32, x: u32) -> u32
    ensures { result ≡ n - (x + 1) }
{
    (n as u64).saturating_sub(x as u64 + 1) as u32
}

/// The variables of a context of `n` from the level `at` on, `count` of them, after the origins that are made.
#[tactic(auto, using(tele_eq::proofs::Growing::listing))]
fn old_origins(
    alloc: Global,
    n: u32,
    at: u32,
    count: u32,
    mut made: Items<Origin>,
) -> Result<Items<Origin>, Stop>
    requires { at + count < 2 ^ 32 }
    ensures { Gives (λ o. o) result (Ok (made ++ each_position (λ j. origin.Old (n - (j + 1))) at count)) }
{
    if count == 0 {
        return Ok(made);
    }
    made.push(Origin::Old(level_in(n, at)))?;
    old_origins(alloc, n, at + 1, count - 1, made)
}

/// The arguments of a constructor from the place `at` on, `count` of them, after the origins that are made.
#[tactic(auto, using(tele_eq::proofs::Growing::listing))]
fn argument_origins(
    alloc: Global,
    at: u32,
    count: u32,
    mut made: Items<Origin>,
) -> Result<Items<Origin>, Stop>
    requires { at + count < 2 ^ 32 }
    ensures { Gives (λ o. o) result (Ok (made ++ each_position (λ j. origin.Arg j) at count)) }
{
    if count == 0 {
        return Ok(made);
    }
    made.push(Origin::Arg(at))?;
    argument_origins(alloc, at + 1, count - 1, made)
}

/// Where the variables of a constructor's problem come from: `n` of the context that is split, and then so many arguments.
pub(crate) fn first_origins(alloc: Global, n: u32, count: u32) -> Result<Items<Origin>, Stop>
    ensures { Gives (λ o. o) result (Ok (spec.first_origins n count)) }
{
    let old = old_origins(alloc, n, 0, n, Items::new(alloc))?;
    argument_origins(alloc, 0, count, old)
}

/// The levels of the variables of a context but one, in their new order.
fn order_without(alloc: Global, ctx: &[Term], x: u32) -> Result<Vec<u32>, Stop>
    requires types { AreTypesOver 0 (tele_of ctx.now) }
    requires variable { x < length ctx.now }
    ensures order { Gives (λ v. v.items) result (Ok (occurrences.order_without (tele_of ctx.now) (spec.level_in (tele_of ctx.now) x))) }
    ensures fewer { IfOk result (λ v. length v.items < length ctx.now) }
    ensures below { IfOk result (λ v. AreBelow (length ctx.now) v.items) }
{
    let p = level_in(ctx.len() as u32, x);
    let dependants = dependants(alloc, ctx, p)?;
    new_order(alloc, ctx, p, dependants.as_slice())
}

/// The context after the solution of a variable, where the other variables are in the given order.
fn context_without(
    alloc: Global,
    ctx: &[Term],
    x: u32,
    by: &Term,
    order: &[u32],
) -> Result<Tele, Stop>
    requires solved { IsSolvedBy (tele_of ctx.now) x (tree_of by.now) }
    requires order { order.now ≡ occurrences.order_without (tele_of ctx.now) (spec.level_in (tele_of ctx.now) x) }
    requires fewer { length order.now < length ctx.now }
    requires below { AreBelow (length ctx.now) order.now }
    ensures { Gives tele_of result (Ok (spec.context_without (tele_of ctx.now) x (tree_of by.now))) }
{
    let size = ctx.len() as u32;
    let solution = Solution {
        size,
        order,
        level: level_in(size, x),
        by,
    };
    new_context(alloc, ctx, solution, 0, order, Items::new(alloc))
}

/// The origin at a level.
fn origin_at(origins: &[Origin], j: u32) -> Origin
    ensures { result ≡ get_or origins.now j (origin.Old 0) }
{
    match origins.get(j as usize) {
        Some(origin) => *origin,
        None => Origin::Old(0),
    }
}

/// The origins at these levels, after those that are made.
#[tactic(auto, using(tele_eq::proofs::Growing::growing))]
fn origins_at(
    alloc: Global,
    origins: &[Origin],
    order: &[u32],
    mut made: Items<Origin>,
) -> Result<Items<Origin>, Stop>
    ensures { Gives (λ o. o) result (Ok (made ++ map (λ j. get_or origins.now j (origin.Old 0)) order.now)) }
{
    match order {
        [] => Ok(made),
        [j, rest @ ..] => {
            made.push(origin_at(origins, *j))?;
            origins_at(alloc, origins, rest, made)
        }
    }
}

/// The context after the solution of a variable, with the origins of its variables.
fn without(
    alloc: Global,
    ctx: &[Term],
    x: u32,
    by: &Term,
    origins: &[Origin],
) -> Result<(Tele, Items<Origin>), Stop>
    requires { IsSolvedBy (tele_of ctx.now) x (tree_of by.now) }
    ensures { Gives traced_of result (Ok (traced (spec.context_without (tele_of ctx.now) x (tree_of by.now)) (spec.origins_without (tele_of ctx.now) x origins.now))) }
{
    let order = order_without(alloc, ctx, x)?;
    let order = order.as_slice();
    let next = context_without(alloc, ctx, x, by, order)?;
    let origins = origins_at(alloc, origins, order, Items::new(alloc))?;
    Ok((next, origins))
}

/// The origins after steps, from the context before them.
pub(crate) fn origins_behind(
    alloc: Global,
    ctx: Tele,
    steps: &[Step],
    origins: Items<Origin>,
) -> Result<Items<Origin>, Stop>
    requires { AreFollowed (steps_of steps.now) (tele_of ctx) }
    ensures { Gives (λ o. o) result (Ok (spec.origins_behind (steps_of steps.now) (tele_of ctx) origins)) }
{
    match steps {
        [] => Ok(origins),
        [step, rest @ ..] => match step.rule {
            Rule::SolveRight(x) => {
                let by = &step.left;
                let (ctx, origins) = without(alloc, ctx.as_slice(), x, by, origins.as_slice())?;
                origins_behind(alloc, ctx, rest, origins)
            }
            Rule::SolveLeft(x) => {
                let by = &step.right;
                let (ctx, origins) = without(alloc, ctx.as_slice(), x, by, origins.as_slice())?;
                origins_behind(alloc, ctx, rest, origins)
            }
            Rule::Inject(_, _) | Rule::Conflict(_, _, _) | Rule::Cycle(_) | Rule::Delete => {
                origins_behind(alloc, ctx, rest, origins)
            }
        },
    }
}
