ghost use Rattle.std.specs.Prelude.{◌≡◌, [], IfOk, IfSome, Ok, map, option_map};
ghost use Rattle.core_terms.specs.Answers.{Gives};
ghost use Rattle.core_sig.specs.Drafts.{draft_of};
ghost use Rattle.leaf_terms.specs.PlanMeanings.{part_of, plan_of};
ghost use Rattle.pair_entries.specs.CodePairEntries as spec;
ghost use Rattle.pair_entries.specs.PairMeanings.{HaveBothFamilies, pair_of};

use crate::first_step::first_step_entry;
use crate::recursions::{PairRecursion, pair_recursion};
use crate::second_motive::motive2_entry;
use crate::second_step::step2_entry;
use core_sig::{Draft, Signature};
use core_terms::{Items, Stop};
use function_entries::{motive_entry, recursive_entry};
use leaf_terms::{Part, Plan, no_part};
use std::alloc::Global;

/// The motives, or Deep.
#[tactic(auto, using(tele_eq::proofs::Growing::growing))]
fn motives(alloc: Global, plan: &Plan, own: &Part, p: &PairRecursion) -> Result<Items<Draft>, Stop>
    ensures { Gives (map draft_of) result (spec.motives_made (plan_of plan.now) (part_of own.now) (pair_of p.now)) }
{
    let mut made = Items::new(alloc);
    made.push(motive_entry(alloc, plan, own, &p.outer)?)?;
    made.push(motive2_entry(alloc, plan, own, p)?)?;
    Ok(made)
}

/// Drafts, followed by the steps, or Deep.
#[tactic(auto, using(tele_eq::proofs::Growing::growing))]
fn with_steps(
    alloc: Global,
    sig: &Signature,
    plan: &Plan,
    own: &Part,
    p: &PairRecursion,
    mut made: Items<Draft>,
) -> Result<Items<Draft>, Stop>
    requires { HaveBothFamilies sig.now (pair_of p.now) }
    ensures { Gives (map draft_of) result (spec.with_steps sig.now (plan_of plan.now) (part_of own.now) (pair_of p.now) (map draft_of made)) }
{
    made.push(step2_entry(alloc, sig, plan, own, p)?)?;
    made.push(first_step_entry(alloc, plan, own, p)?)?;
    Ok(made)
}

/// Drafts, followed by the function, or Deep.
#[tactic(auto, using(tele_eq::proofs::Growing::growing))]
fn with_function(
    alloc: Global,
    plan: &Plan,
    own: &Part,
    p: &PairRecursion,
    mut made: Items<Draft>,
) -> Result<Items<Draft>, Stop>
    ensures { Gives (map draft_of) result (spec.with_function (plan_of plan.now) (part_of own.now) (pair_of p.now) (map draft_of made)) }
{
    made.push(recursive_entry(alloc, plan, own, &p.outer)?)?;
    Ok(made)
}

/// The entries over a pair, or Deep.
fn entries_with(
    alloc: Global,
    sig: &Signature,
    plan: &Plan,
    own: &Part,
    p: &PairRecursion,
) -> Result<Items<Draft>, Stop>
    requires { HaveBothFamilies sig.now (pair_of p.now) }
    ensures { Gives (map draft_of) result (spec.entries_with sig.now (plan_of plan.now) (part_of own.now) (pair_of p.now)) }
{
    let made = motives(alloc, plan, own, p)?;
    let made = with_steps(alloc, sig, plan, own, p, made)?;
    with_function(alloc, plan, own, p, made)
}

/// Recursion on the pair of positions, or Deep where a type of the telescope is too high.
fn found_recursion<'a>(
    alloc: Global,
    sig: &'a Signature,
    plan: &Plan,
    second: u32,
) -> Result<Option<PairRecursion<'a>>, Stop>
    ensures answer { Gives (option_map pair_of) result (spec.pair_recursion_made sig.now (plan_of plan.now) second) }
    ensures families { IfOk result (λ found. IfSome found (λ p. HaveBothFamilies sig.now (pair_of p))) }
{
    pair_recursion(alloc, sig, plan, second)
}

/// The entries of a plan from its own part, or Deep. There are none where the positions are no pair.
fn entries_from(
    alloc: Global,
    sig: &Signature,
    plan: &Plan,
    own: &Part,
    second: u32,
) -> Result<Items<Draft>, Stop>
    ensures { Gives (map draft_of) result (spec.entries_from sig.now (plan_of plan.now) (part_of own.now) second) }
{
    match found_recursion(alloc, sig, plan, second)? {
        None => Ok(Items::new(alloc)),
        Some(p) => entries_with(alloc, sig, plan, own, &p),
    }
}

/// The entries of a function that is recursive at the position of its plan and a second one, in their order, as drafts: its motive, the
/// second motive, the second step, the first step and the function itself. Deep where a type or a term of an entry is too high, or a
/// term on the way to it.
pub fn plan_entries(
    alloc: Global,
    sig: &Signature,
    plan: &Plan,
    second: u32,
) -> Result<Items<Draft>, Stop>
    ensures { Gives (map draft_of) result (spec.pair_entries_made sig.now (plan_of plan.now) second) }
{
    match plan.parts.as_slice() {
        [] => entries_from(alloc, sig, plan, &no_part(alloc), second),
        [own, ..] => entries_from(alloc, sig, plan, own, second),
    }
}
