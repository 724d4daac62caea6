ghost use Rattle.std.specs.Prelude.{◌≡◌, ◌∷◌, [], Ok, Some};
ghost use Rattle.core_terms.specs.Answers.{Gives};
ghost use Rattle.core_terms.specs.Meanings.{tree_of, tele_of};
ghost use Rattle.core_sig.specs.Drafts.{draft_of};
ghost use Rattle.tree_translation.specs.Naming.{number_in};
ghost use Rattle.run_terms.specs.CodeNaming.{naming_of};
ghost use Rattle.split_terms.specs.NodeMeanings.{node_of};
ghost use Rattle.leaf_terms.specs.PlaceMeanings.{HasFamily};
ghost use Rattle.leaf_terms.specs.PlanMeanings.{part_of, plan_of};
ghost use Rattle.leaf_terms.specs.RecursionMeanings.{recursion_of};
ghost use Rattle.function_entries.specs.CodeEntries as spec;

use crate::own_part::{first_count, own_goal, own_order, own_telescope, type_count};
use crate::telescopes::{goal_with_below, ordered_variables, with_below};
use crate::tree_entries::{node_entry, table_of};
use core_sig::{Draft, Signature};
use core_terms::{Items, Name, Stop, Tele, Term};
use leaf_terms::{
    Part, Plan, Recursion, Translation, below_type, motive_name, recursions_named, step_name,
};
use run_terms::Naming;
use split_terms::Node;
use std::alloc::Global;

/// The type of the below value after the first positions.
fn step_below(
    alloc: Global,
    naming: Naming,
    plan: &Plan,
    own: &Part,
    r: &Recursion,
) -> Result<Term, Stop>
    ensures { Gives tree_of result (Ok (spec.step_below (plan_of plan.now) (part_of own.now) (recursion_of r.now) (naming_of naming.entry))) }
{
    let order = own_order(alloc, own, r)?;
    let depth = first_count(alloc, r)?;
    let terms = ordered_variables(alloc, order.as_slice(), depth)?;
    below_type(alloc, naming, plan, r, terms.as_slice())
}

/// `(F) (is) (x) (b : D!below.L ps (F!motive F) is x) (R)`.
pub fn step_telescope(
    alloc: Global,
    naming: Naming,
    plan: &Plan,
    own: &Part,
    r: &Recursion,
) -> Result<Tele, Stop>
    ensures { Gives tele_of result (Ok (spec.step_telescope (plan_of plan.now) (part_of own.now) (recursion_of r.now) (naming_of naming.entry))) }
{
    let below = step_below(alloc, naming, plan, own, r)?;
    let tele = own_telescope(alloc, own, r)?;
    with_below(alloc, first_count(alloc, r)?, below, tele.as_slice())
}

/// The goal over it.
pub fn step_goal(alloc: Global, own: &Part, r: &Recursion) -> Result<Term, Stop>
    ensures { Gives tree_of result (Ok (spec.step_goal (part_of own.now) (recursion_of r.now))) }
{
    let goal = own_goal(alloc, own, r)?;
    let count = type_count(own)?;
    goal_with_below(alloc, first_count(alloc, r)?, count, &goal)
}

/// The level of the below value, alone.
fn step_hidden(alloc: Global, r: &Recursion) -> Result<Items<u32>, Stop>
    ensures { Gives (λ v. v) result (Ok (spec.first_count (recursion_of r.now) ∷ [])) }
{
    let mut hidden = Items::new(alloc);
    hidden.push(first_count(alloc, r)?)?;
    Ok(hidden)
}

/// Where the tree of the step starts.
fn step_node(
    alloc: Global,
    naming: Naming,
    plan: &Plan,
    own: &Part,
    r: &Recursion,
) -> Result<Node, Stop>
    ensures { Gives node_of result (Ok (spec.step_node (plan_of plan.now) (part_of own.now) (recursion_of r.now) (naming_of naming.entry))) }
{
    Ok(Node {
        ctx: step_telescope(alloc, naming, plan, own, r)?,
        goal: step_goal(alloc, own, r)?,
        hidden: step_hidden(alloc, r)?,
    })
}

/// The names that the step may mention, or Deep.
fn step_table(
    alloc: Global,
    sig: &Signature,
    plan: &Plan,
    own: &Part,
    r: &Recursion,
) -> Result<Items<Name>, Stop>
    ensures { Gives (λ ns. ns) result (spec.table_made sig.now (plan_of plan.now) (Some (recursion_of r.now)) 0 (part_of own.now) (spec.step_node (plan_of plan.now) (part_of own.now) (recursion_of r.now) (number_in plan.now.base []))) }
{
    let naming = Naming {
        base: plan.base,
        names: &[],
    };
    let node = step_node(alloc, naming, plan, own, r)?;
    table_of(alloc, sig, plan, Some(r), 0, own, &node)
}

/// `F!step` with the numbers of these names, or Deep.
fn step_with(
    alloc: Global,
    sig: &Signature,
    plan: &Plan,
    own: &Part,
    r: &Recursion,
    table: &[Name],
) -> Result<Draft, Stop>
    requires { HasFamily sig.now (Some (recursion_of r.now)) }
    ensures { Gives draft_of result (spec.step_with sig.now (plan_of plan.now) (part_of own.now) (recursion_of r.now) table.now) }
{
    let naming = Naming {
        base: plan.base,
        names: table,
    };
    let order = own_order(alloc, own, r)?;
    let motive = motive_name(alloc, &plan.name)?;
    let recursions = recursions_named(alloc, &motive, Some(r))?;
    let w = Translation {
        sig,
        naming,
        plan,
        recursions: recursions.as_slice(),
        part: own,
        order: order.as_slice(),
    };
    let node = step_node(alloc, naming, plan, own, r)?;
    node_entry(alloc, step_name(alloc, &plan.name)?, &w, &node)
}

/// `F!step`, or Deep.
pub fn step_entry(
    alloc: Global,
    sig: &Signature,
    plan: &Plan,
    own: &Part,
    r: &Recursion,
) -> Result<Draft, Stop>
    requires { HasFamily sig.now (Some (recursion_of r.now)) }
    ensures { Gives draft_of result (spec.step_made sig.now (plan_of plan.now) (part_of own.now) (recursion_of r.now)) }
{
    let table = step_table(alloc, sig, plan, own, r)?;
    step_with(alloc, sig, plan, own, r, table.as_slice())
}
