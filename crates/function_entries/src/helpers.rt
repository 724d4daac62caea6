ghost use Rattle.std.specs.Prelude.{◌≡◌, ◌∷◌, [], Ok, Some, None, length, map, option_map};
ghost use Rattle.std.specs.Option.{option_copied};
ghost use Rattle.core_terms.specs.Answers.{Gives};
ghost use Rattle.core_terms.specs.Meanings.{tele_of};
ghost use Rattle.core_sig.specs.Drafts.{draft_of};
ghost use Rattle.tree_translation.specs.Entries as entries;
ghost use Rattle.tree_translation.specs.Naming.{number_in};
ghost use Rattle.run_terms.specs.CodeNaming.{naming_of};
ghost use Rattle.split_terms.specs.NodeMeanings.{node_of};
ghost use Rattle.leaf_terms.specs.PlaceMeanings.{HasFamily};
ghost use Rattle.leaf_terms.specs.PlanMeanings.{part_of, parts_of, plan_of};
ghost use Rattle.leaf_terms.specs.RecursionMeanings.{recursion_of};
ghost use Rattle.function_entries.specs.CodeEntries as spec;

use crate::own_part::type_count;
use crate::tree_entries::{node_entry, table_of};
use core_sig::{Draft, Signature};
use core_terms::{Items, Name, Stop, Tele, copy_tele, copy_whole, next};
use leaf_terms::{
    Part, Plan, Recursion, Translation, below_type, helper_name, motive_name, order_of,
    recursions_named,
};
use run_terms::{Naming, raised};
use split_terms::Node;
use std::alloc::Global;

/// The positions of a part in their old order.
pub fn old_order(alloc: Global, part: &Part) -> Result<Items<u32>, Stop>
    ensures { Gives (λ v. v) result (Ok (spec.old_order (part_of part.now))) }
{
    let count = type_count(part)?;
    order_of(alloc, count, None)
}

/// Where the tree of a part starts without recursion.
pub fn plain_node(alloc: Global, naming: Naming, plan: &Plan, part: &Part) -> Result<Node, Stop>
    ensures { Gives node_of result (Ok (entries.helper_node (plan_of plan.now) None (part_of part.now) (naming_of naming.entry))) }
{
    Ok(Node {
        ctx: copy_tele(alloc, part.tele.as_slice())?,
        goal: copy_whole(alloc, &part.goal)?,
        hidden: Items::new(alloc),
    })
}

/// A part's telescope, and after it the below value at the part's terms.
#[tactic(auto, using(tele_eq::proofs::Growing::growing))]
fn telescope_with_below(
    alloc: Global,
    naming: Naming,
    plan: &Plan,
    r: &Recursion,
    part: &Part,
) -> Result<Tele, Stop>
    ensures { Gives tele_of result (Ok (entries.helper_node (plan_of plan.now) (Some (recursion_of r.now)) (part_of part.now) (naming_of naming.entry)).context) }
{
    let mut made = copy_tele(alloc, part.tele.as_slice())?;
    made.push(below_type(alloc, naming, plan, r, part.terms.as_slice())?)?;
    Ok(made)
}

/// The level of the below value, alone.
#[tactic(auto, using(run_terms::proofs::Spines::counts))]
fn last_hidden(alloc: Global, part: &Part) -> Result<Items<u32>, Stop>
    ensures { Gives (λ v. v) result (Ok (length (part_of part.now).tele ∷ [])) }
{
    let mut hidden = Items::new(alloc);
    hidden.push(type_count(part)?)?;
    Ok(hidden)
}

/// Where the tree of a helper starts with recursion.
fn node_with_below(
    alloc: Global,
    naming: Naming,
    plan: &Plan,
    r: &Recursion,
    part: &Part,
) -> Result<Node, Stop>
    ensures { Gives node_of result (Ok (entries.helper_node (plan_of plan.now) (Some (recursion_of r.now)) (part_of part.now) (naming_of naming.entry))) }
{
    Ok(Node {
        ctx: telescope_with_below(alloc, naming, plan, r, part)?,
        goal: raised(alloc, 1, 0, &part.goal)?,
        hidden: last_hidden(alloc, part)?,
    })
}

/// Where the tree of a helper starts.
fn helper_node(
    alloc: Global,
    naming: Naming,
    plan: &Plan,
    r: Option<&Recursion>,
    part: &Part,
) -> Result<Node, Stop>
    ensures { Gives node_of result (Ok (entries.helper_node (plan_of plan.now) (option_map recursion_of (option_copied r.entry)) (part_of part.now) (naming_of naming.entry))) }
{
    match r {
        None => plain_node(alloc, naming, plan, part),
        Some(r) => node_with_below(alloc, naming, plan, r, part),
    }
}

/// The names that helper k may mention, or Deep.
fn helper_table(
    alloc: Global,
    sig: &Signature,
    plan: &Plan,
    r: Option<&Recursion>,
    k: u32,
    part: &Part,
) -> Result<Items<Name>, Stop>
    ensures { Gives (λ ns. ns) result (spec.table_made sig.now (plan_of plan.now) (option_map recursion_of (option_copied r.entry)) k (part_of part.now) (entries.helper_node (plan_of plan.now) (option_map recursion_of (option_copied r.entry)) (part_of part.now) (number_in plan.now.base []))) }
{
    let naming = Naming {
        base: plan.base,
        names: &[],
    };
    let node = helper_node(alloc, naming, plan, r, part)?;
    table_of(alloc, sig, plan, r, k, part, &node)
}

/// `F!wk` with the numbers of these names, or Deep.
fn helper_with(
    alloc: Global,
    sig: &Signature,
    plan: &Plan,
    r: Option<&Recursion>,
    k: u32,
    part: &Part,
    table: &[Name],
) -> Result<Draft, Stop>
    requires { HasFamily sig.now (option_map recursion_of (option_copied r)) }
    ensures { Gives draft_of result (spec.helper_with sig.now (plan_of plan.now) (option_map recursion_of (option_copied r.entry)) k (part_of part.now) table.now) }
{
    let naming = Naming {
        base: plan.base,
        names: table,
    };
    let order = old_order(alloc, part)?;
    let motive = motive_name(alloc, &plan.name)?;
    let recursions = recursions_named(alloc, &motive, r)?;
    let w = Translation {
        sig,
        naming,
        plan,
        recursions: recursions.as_slice(),
        part,
        order: order.as_slice(),
    };
    let node = helper_node(alloc, naming, plan, r, part)?;
    node_entry(alloc, helper_name(alloc, &plan.name, k)?, &w, &node)
}

/// `F!wk`, or Deep.
fn helper_entry(
    alloc: Global,
    sig: &Signature,
    plan: &Plan,
    r: Option<&Recursion>,
    k: u32,
    part: &Part,
) -> Result<Draft, Stop>
    requires { HasFamily sig.now (option_map recursion_of (option_copied r)) }
    ensures { Gives draft_of result (spec.helper_made sig.now (plan_of plan.now) (option_map recursion_of (option_copied r.entry)) k (part_of part.now)) }
{
    let table = helper_table(alloc, sig, plan, r, k, part)?;
    helper_with(alloc, sig, plan, r, k, part, table.as_slice())
}

/// Drafts, followed by those of the helpers from number k on, the highest number first, or Deep.
#[tactic(auto, using(tele_eq::proofs::Growing::growing))]
pub fn with_helpers(
    alloc: Global,
    sig: &Signature,
    plan: &Plan,
    r: Option<&Recursion>,
    k: u32,
    parts: &[Part],
    made: Items<Draft>,
) -> Result<Items<Draft>, Stop>
    requires { HasFamily sig.now (option_map recursion_of (option_copied r)) }
    ensures { Gives (map draft_of) result (spec.helpers_made sig.now (plan_of plan.now) (option_map recursion_of (option_copied r.entry)) k (parts_of parts.now) (map draft_of made)) }
{
    match parts {
        [] => Ok(made),
        [part, rest @ ..] => {
            let mut made = with_helpers(alloc, sig, plan, r, next(k)?, rest, made)?;
            made.push(helper_entry(alloc, sig, plan, r, k, part)?)?;
            Ok(made)
        }
    }
}
