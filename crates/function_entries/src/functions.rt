ghost use Rattle.std.specs.Prelude.{◌≡◌, [], Ok, None};
ghost use Rattle.core_terms.specs.Answers.{Gives};
ghost use Rattle.core_terms.specs.Meanings.{tree_of, tele_of};
ghost use Rattle.core_sig.specs.Drafts.{draft_of};
ghost use Rattle.tree_translation.specs.Entries as entries;
ghost use Rattle.tree_translation.specs.Naming as names;
ghost use Rattle.run_terms.specs.CodeNaming.{naming_of};
ghost use Rattle.leaf_terms.specs.PlanMeanings.{part_of, plan_of};
ghost use Rattle.leaf_terms.specs.RecursionMeanings.{recursion_of};
ghost use Rattle.function_entries.specs.CodeEntries as spec;

use crate::helpers::{old_order, plain_node};
use crate::own_part::type_count;
use crate::tree_entries::{table_of, tree_entry};
use core_sig::{Draft, Signature};
use core_terms::{Items, Name, Stop, Tele, Term, applied, copy_name, copy_tele, functions};
use leaf_terms::{
    Part, Plan, Recursion, Translation, motive_at, motive_name, numbered, parameters_at,
    remaining_positions, scrutinee_at, step_name, terms_at,
};
use run_terms::{Naming, constant, rec_name, with_name, with_terms};
use std::alloc::Global;
use tele_eq::variables;

/// The names that the function mentions where it is recursive.
fn recursive_table(alloc: Global, plan: &Plan, r: &Recursion) -> Result<Items<Name>, Stop>
    ensures { Gives (λ ns. ns) result (Ok (names.with_names [] (spec.recursive_names (plan_of plan.now) (recursion_of r.now)))) }
{
    let rec = rec_name(alloc, r.family, plan.level)?;
    let made = with_name(alloc, Items::new(alloc), &rec)?;
    let motive = motive_name(alloc, &plan.name)?;
    let made = with_name(alloc, made, &motive)?;
    let step = step_name(alloc, &plan.name)?;
    with_name(alloc, made, &step)
}

/// `F!step F`.
fn step_at(
    alloc: Global,
    naming: Naming,
    plan: &Plan,
    r: &Recursion,
    terms: &[Term],
) -> Result<Term, Stop>
    ensures { Gives tree_of result (Ok (spec.step_at (naming_of naming.entry) (plan_of plan.now) (recursion_of r.now) (tele_of terms.now))) }
{
    let name = step_name(alloc, &plan.name)?;
    let head = constant(naming, &name)?;
    let fixed = terms_at(alloc, r.admission.fixed.as_slice(), terms)?;
    applied(alloc, head, fixed.into_vec())
}

/// `is x R`.
fn scrutinee_and_rest(
    alloc: Global,
    own: &Part,
    r: &Recursion,
    terms: &[Term],
) -> Result<Tele, Stop>
    ensures { Gives tele_of result (Ok (spec.scrutinee_and_rest (part_of own.now) (recursion_of r.now) (tele_of terms.now))) }
{
    let positions = remaining_positions(alloc, type_count(own)?, r)?;
    let rest = terms_at(alloc, positions.as_slice(), terms)?;
    let scrutinee = scrutinee_at(alloc, r, terms)?;
    with_terms(alloc, scrutinee, rest.as_slice())
}

/// `ps (F!motive F) (F!step F)`.
#[tactic(auto, using(crate::proofs::Joining::pushing))]
fn motive_and_step(
    alloc: Global,
    naming: Naming,
    plan: &Plan,
    own: &Part,
    r: &Recursion,
    terms: &[Term],
) -> Result<Tele, Stop>
    ensures { Gives tele_of result (Ok (spec.motive_and_step (plan_of plan.now) (part_of own.now) (recursion_of r.now) (naming_of naming.entry) (tele_of terms.now))) }
{
    let mut made = parameters_at(alloc, own.tele.as_slice(), r, terms)?;
    made.push(motive_at(alloc, naming, plan, r, terms)?)?;
    made.push(step_at(alloc, naming, plan, r, terms)?)?;
    Ok(made)
}

/// `ps (F!motive F) (F!step F) is x R`.
#[tactic(auto, using(leaf_terms::proofs::Mentions::joining))]
fn function_arguments(
    alloc: Global,
    naming: Naming,
    plan: &Plan,
    own: &Part,
    r: &Recursion,
    terms: &[Term],
) -> Result<Tele, Stop>
    ensures { Gives tele_of result (Ok (spec.function_arguments (plan_of plan.now) (part_of own.now) (recursion_of r.now) (naming_of naming.entry) (tele_of terms.now))) }
{
    let made = motive_and_step(alloc, naming, plan, own, r, terms)?;
    let rest = scrutinee_and_rest(alloc, own, r, terms)?;
    with_terms(alloc, made, rest.as_slice())
}

/// `D!rec.L ps (F!motive F) (F!step F) is x R`.
fn recursive_call(
    alloc: Global,
    naming: Naming,
    plan: &Plan,
    own: &Part,
    r: &Recursion,
) -> Result<Term, Stop>
    ensures { Gives tree_of result (Ok (spec.recursive_call (plan_of plan.now) (part_of own.now) (recursion_of r.now) (naming_of naming.entry))) }
{
    let name = rec_name(alloc, r.family, plan.level)?;
    let head = constant(naming, &name)?;
    let terms = variables(alloc, type_count(own)?)?;
    let arguments = function_arguments(alloc, naming, plan, own, r, terms.as_slice())?;
    applied(alloc, head, arguments.into_vec())
}

/// The function by recursion: `\telescope. D!rec.L ps (F!motive F) (F!step F) is x R`.
fn function_by_recursion(
    alloc: Global,
    naming: Naming,
    plan: &Plan,
    own: &Part,
    r: &Recursion,
) -> Result<Term, Stop>
    ensures { Gives tree_of result (Ok (spec.function_by_recursion (plan_of plan.now) (part_of own.now) (recursion_of r.now) (naming_of naming.entry))) }
{
    let body = recursive_call(alloc, naming, plan, own, r)?;
    let tele = copy_tele(alloc, own.tele.as_slice())?;
    functions(alloc, tele.into_vec(), body)
}

/// The function's own entry by recursion, or Deep.
pub fn recursive_entry(alloc: Global, plan: &Plan, own: &Part, r: &Recursion) -> Result<Draft, Stop>
    ensures { Gives draft_of result (spec.recursive_made (plan_of plan.now) (part_of own.now) (recursion_of r.now)) }
{
    let table = recursive_table(alloc, plan, r)?;
    let naming = Naming {
        base: plan.base,
        names: table.as_slice(),
    };
    let body = function_by_recursion(alloc, naming, plan, own, r)?;
    let name = copy_name(alloc, &plan.name)?;
    numbered(alloc, name, plan.base, table.as_slice(), &plan.ty, &body)
}

/// The names that the function may mention without recursion, or Deep.
fn plain_table(alloc: Global, sig: &Signature, plan: &Plan, own: &Part) -> Result<Items<Name>, Stop>
    ensures { Gives (λ ns. ns) result (spec.table_made sig.now (plan_of plan.now) None 0 (part_of own.now) (entries.helper_node (plan_of plan.now) None (part_of own.now) (names.number_in plan.now.base []))) }
{
    let naming = Naming {
        base: plan.base,
        names: &[],
    };
    let node = plain_node(alloc, naming, plan, own)?;
    table_of(alloc, sig, plan, None, 0, own, &node)
}

/// The function's own entry without recursion, with the numbers of these names, or Deep.
fn plain_with(
    alloc: Global,
    sig: &Signature,
    plan: &Plan,
    own: &Part,
    table: &[Name],
) -> Result<Draft, Stop>
    ensures { Gives draft_of result (spec.plain_with sig.now (plan_of plan.now) (part_of own.now) table.now) }
{
    let naming = Naming {
        base: plan.base,
        names: table,
    };
    let order = old_order(alloc, own)?;
    let w = Translation {
        sig,
        naming,
        plan,
        recursions: &[],
        part: own,
        order: order.as_slice(),
    };
    let node = plain_node(alloc, naming, plan, own)?;
    tree_entry(alloc, copy_name(alloc, &plan.name)?, &w, &node, &plan.ty)
}

/// The function's own entry without recursion, or Deep.
pub fn plain_entry(alloc: Global, sig: &Signature, plan: &Plan, own: &Part) -> Result<Draft, Stop>
    ensures { Gives draft_of result (spec.plain_made sig.now (plan_of plan.now) (part_of own.now)) }
{
    let table = plain_table(alloc, sig, plan, own)?;
    plain_with(alloc, sig, plan, own, table.as_slice())
}
