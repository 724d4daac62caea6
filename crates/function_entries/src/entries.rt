ghost use Rattle.std.specs.Prelude.{◌≡◌, [], Ok, Some, None, IfOk, map, option_map};
ghost use Rattle.core_terms.specs.Answers.{Gives};
ghost use Rattle.core_sig.specs.Drafts.{draft_of};
ghost use Rattle.leaf_terms.specs.PlaceMeanings.{HasFamily};
ghost use Rattle.leaf_terms.specs.PlanMeanings.{part_of, parts_of, plan_of};
ghost use Rattle.leaf_terms.specs.RecursionMade.{recursion_made};
ghost use Rattle.leaf_terms.specs.RecursionMeanings as meanings;
ghost use Rattle.function_entries.specs.CodeEntries as spec;

use crate::functions::{plain_entry, recursive_entry};
use crate::helpers::with_helpers;
use crate::motives::motive_entry;
use crate::steps::step_entry;
use core_sig::{Draft, Signature};
use core_terms::{Items, Stop};
use leaf_terms::{Part, Plan, Recursion, no_part, recursion_of};
use std::alloc::Global;

/// The motive and the helpers, or Deep.
fn first_entries(
    alloc: Global,
    sig: &Signature,
    plan: &Plan,
    own: &Part,
    helpers: &[Part],
    r: &Recursion,
) -> Result<Items<Draft>, Stop>
    requires { HasFamily sig.now (Some (meanings.recursion_of r.now)) }
    ensures { Gives (map draft_of) result (spec.first_entries sig.now (plan_of plan.now) (part_of own.now) (parts_of helpers.now) (meanings.recursion_of r.now)) }
{
    let mut made = Items::new(alloc);
    made.push(motive_entry(alloc, plan, own, r)?)?;
    with_helpers(alloc, sig, plan, Some(r), 1, helpers, made)
}

/// Drafts, followed by those of the step and the function by recursion, or Deep.
#[tactic(auto, using(tele_eq::proofs::Growing::growing))]
fn with_last_entries(
    alloc: Global,
    sig: &Signature,
    plan: &Plan,
    own: &Part,
    r: &Recursion,
    mut made: Items<Draft>,
) -> Result<Items<Draft>, Stop>
    requires { HasFamily sig.now (Some (meanings.recursion_of r.now)) }
    ensures { Gives (map draft_of) result (spec.last_entries sig.now (plan_of plan.now) (part_of own.now) (meanings.recursion_of r.now) (map draft_of made)) }
{
    made.push(step_entry(alloc, sig, plan, own, r)?)?;
    made.push(recursive_entry(alloc, plan, own, r)?)?;
    Ok(made)
}

/// The entries with recursion, or Deep.
fn recursive_entries(
    alloc: Global,
    sig: &Signature,
    plan: &Plan,
    own: &Part,
    helpers: &[Part],
    r: &Recursion,
) -> Result<Items<Draft>, Stop>
    requires { HasFamily sig.now (Some (meanings.recursion_of r.now)) }
    ensures { Gives (map draft_of) result (spec.recursive_entries sig.now (plan_of plan.now) (part_of own.now) (parts_of helpers.now) (meanings.recursion_of r.now)) }
{
    let made = first_entries(alloc, sig, plan, own, helpers, r)?;
    with_last_entries(alloc, sig, plan, own, r, made)
}

/// The entries without recursion, or Deep.
#[tactic(auto, using(tele_eq::proofs::Growing::growing))]
fn plain_entries(
    alloc: Global,
    sig: &Signature,
    plan: &Plan,
    own: &Part,
    helpers: &[Part],
) -> Result<Items<Draft>, Stop>
    ensures { Gives (map draft_of) result (spec.plain_entries sig.now (plan_of plan.now) (part_of own.now) (parts_of helpers.now)) }
{
    let mut made = with_helpers(alloc, sig, plan, None, 1, helpers, Items::new(alloc))?;
    made.push(plain_entry(alloc, sig, plan, own)?)?;
    Ok(made)
}

/// The recursion of a plan, or Deep where its telescope is too high.
fn found_recursion<'a>(
    alloc: Global,
    sig: &'a Signature,
    plan: &Plan,
) -> Result<Option<Recursion<'a>>, Stop>
    ensures answer { Gives (option_map meanings.recursion_of) result (recursion_made sig.now (plan_of plan.now)) }
    ensures family { IfOk result (λ r. HasFamily sig.now (option_map meanings.recursion_of r)) }
{
    recursion_of(alloc, sig, plan)
}

/// The entries of a plan from its own part and its helpers', or Deep.
fn entries_from(
    alloc: Global,
    sig: &Signature,
    plan: &Plan,
    own: &Part,
    helpers: &[Part],
) -> Result<Items<Draft>, Stop>
    ensures { Gives (map draft_of) result (spec.entries_from sig.now (plan_of plan.now) (part_of own.now) (parts_of helpers.now)) }
{
    match found_recursion(alloc, sig, plan)? {
        None => plain_entries(alloc, sig, plan, own, helpers),
        Some(r) => recursive_entries(alloc, sig, plan, own, helpers, &r),
    }
}

/// The entries of a function in their order, as drafts: with recursion its motive, its helpers, the highest number
/// first, its step and the function itself, and else the helpers and the function. Deep where a type or a term of an
/// entry is too high, or a term on the way to it.
pub fn translate(alloc: Global, sig: &Signature, plan: &Plan) -> Result<Items<Draft>, Stop>
    ensures { Gives (map draft_of) result (spec.translate_made sig.now (plan_of plan.now)) }
{
    match plan.parts.as_slice() {
        [] => entries_from(alloc, sig, plan, &no_part(alloc), &[]),
        [own, helpers @ ..] => entries_from(alloc, sig, plan, own, helpers),
    }
}
