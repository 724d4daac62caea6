//! The first step, by recursion at the second position.
ghost use Rattle.std.specs.Prelude.{◌≡◌, Ok};
ghost use Rattle.core_terms.specs.Answers.{Gives};
ghost use Rattle.core_terms.specs.Meanings.{tree_of, tele_of};
ghost use Rattle.core_sig.specs.Drafts.{draft_of};
ghost use Rattle.run_terms.specs.CodeNaming.{naming_of};
ghost use Rattle.leaf_terms.specs.PlanMeanings.{part_of, plan_of};
ghost use Rattle.pair_entries.specs.CodePairEntries as spec;
ghost use Rattle.pair_entries.specs.PairMeanings.{pair_of};

use crate::names::{first_step_table, motive2_name, step2_name};
use crate::recursions::PairRecursion;
use crate::second_step::{behind_first, second_at, value_at};
use core_sig::Draft;
use core_terms::{Name, Stop, Tele, Term, applied, copy_tele, functions, products};
use function_entries::{ordered_variables, own_order, step_goal, step_telescope, type_count};
use leaf_terms::{
    Part, Plan, numbered, parameters_at, remaining_positions, scrutinee_at, step_name, terms_at,
};
use run_terms::{Naming, constant, rec_name, with_terms};
use std::alloc::Global;

/// The variables of the old positions over `(F) (is) (x) (b) (R)`.
fn step_terms(alloc: Global, own: &Part, p: &PairRecursion) -> Result<Tele, Stop>
    ensures { Gives tele_of result (Ok (spec.step_terms (part_of own.now) (pair_of p.now))) }
{
    let order = own_order(alloc, own, &p.outer)?;
    let count = type_count(own)?;
    let terms = ordered_variables(alloc, order.as_slice(), count)?;
    behind_first(alloc, p, count, terms.as_slice())
}

/// The constant of a name at `F is x b G`.
fn second_constant(
    alloc: Global,
    naming: Naming,
    name: &Name,
    own: &Part,
    p: &PairRecursion,
    terms: &[Term],
) -> Result<Term, Stop>
    ensures { Gives tree_of result (Ok (spec.second_at name.now (part_of own.now) (pair_of p.now) (naming_of naming.entry) (tele_of terms.now))) }
{
    let values = value_at(alloc, p, type_count(own)?)?;
    second_at(alloc, naming, name, p, terms, values.as_slice())
}

/// `js y Q`.
fn second_rest(alloc: Global, own: &Part, p: &PairRecursion, terms: &[Term]) -> Result<Tele, Stop>
    ensures { Gives tele_of result (Ok (spec.second_rest (part_of own.now) (pair_of p.now) (tele_of terms.now))) }
{
    let positions = remaining_positions(alloc, type_count(own)?, &p.inner)?;
    let rest = terms_at(alloc, positions.as_slice(), terms)?;
    let scrutinee = scrutinee_at(alloc, &p.inner, terms)?;
    with_terms(alloc, scrutinee, rest.as_slice())
}

/// `qs (F!motive2 F is x b G) (F!step2 F is x b G)`.
#[tactic(auto, using(function_entries::proofs::Joining::pushing))]
fn second_motives(
    alloc: Global,
    naming: Naming,
    plan: &Plan,
    own: &Part,
    p: &PairRecursion,
    terms: &[Term],
) -> Result<Tele, Stop>
    ensures { Gives tele_of result (Ok (spec.second_motives (plan_of plan.now) (part_of own.now) (pair_of p.now) (naming_of naming.entry) (tele_of terms.now))) }
{
    let motive2 = motive2_name(alloc, &plan.name)?;
    let step2 = step2_name(alloc, &plan.name)?;
    let mut made = parameters_at(alloc, own.tele.as_slice(), &p.inner, terms)?;
    made.push(second_constant(alloc, naming, &motive2, own, p, terms)?)?;
    made.push(second_constant(alloc, naming, &step2, own, p, terms)?)?;
    Ok(made)
}

/// `qs (F!motive2 F is x b G) (F!step2 F is x b G) js y Q`.
#[tactic(auto, using(leaf_terms::proofs::Mentions::joining))]
fn second_arguments(
    alloc: Global,
    naming: Naming,
    plan: &Plan,
    own: &Part,
    p: &PairRecursion,
    terms: &[Term],
) -> Result<Tele, Stop>
    ensures { Gives tele_of result (Ok (spec.second_arguments (plan_of plan.now) (part_of own.now) (pair_of p.now) (naming_of naming.entry) (tele_of terms.now))) }
{
    let made = second_motives(alloc, naming, plan, own, p, terms)?;
    let rest = second_rest(alloc, own, p, terms)?;
    with_terms(alloc, made, rest.as_slice())
}

/// `E!rec.L qs (F!motive2 F is x b G) (F!step2 F is x b G) js y Q`.
fn second_call(
    alloc: Global,
    naming: Naming,
    plan: &Plan,
    own: &Part,
    p: &PairRecursion,
) -> Result<Term, Stop>
    ensures { Gives tree_of result (Ok (spec.second_call (plan_of plan.now) (part_of own.now) (pair_of p.now) (naming_of naming.entry))) }
{
    let name = rec_name(alloc, p.inner.family, plan.level)?;
    let head = constant(naming, &name)?;
    let terms = step_terms(alloc, own, p)?;
    let arguments = second_arguments(alloc, naming, plan, own, p, terms.as_slice())?;
    applied(alloc, head, arguments.into_vec())
}

/// The type of the first step: `(F) -> (is) -> (x) -> (b) -> (R) -> goal`.
fn step_type(alloc: Global, own: &Part, p: &PairRecursion, tele: &[Term]) -> Result<Term, Stop>
    ensures { Gives tree_of result (Ok (spec.step_type (part_of own.now) (pair_of p.now) (tele_of tele.now))) }
{
    let goal = step_goal(alloc, own, &p.outer)?;
    products(alloc, copy_tele(alloc, tele)?.into_vec(), goal)
}

/// `F!step` with the numbers of these names, or Deep.
fn first_step_with(
    alloc: Global,
    plan: &Plan,
    own: &Part,
    p: &PairRecursion,
    table: &[Name],
) -> Result<Draft, Stop>
    ensures { Gives draft_of result (spec.first_step_with (plan_of plan.now) (part_of own.now) (pair_of p.now) table.now) }
{
    let naming = Naming {
        base: plan.base,
        names: table,
    };
    let tele = step_telescope(alloc, naming, plan, own, &p.outer)?;
    let ty = step_type(alloc, own, p, tele.as_slice())?;
    let call = second_call(alloc, naming, plan, own, p)?;
    let body = functions(alloc, tele.into_vec(), call)?;
    let name = step_name(alloc, &plan.name)?;
    numbered(alloc, name, plan.base, table, &ty, &body)
}

/// `F!step`, or Deep.
pub fn first_step_entry(
    alloc: Global,
    plan: &Plan,
    own: &Part,
    p: &PairRecursion,
) -> Result<Draft, Stop>
    ensures { Gives draft_of result (spec.first_step_made (plan_of plan.now) (part_of own.now) (pair_of p.now)) }
{
    let table = first_step_table(alloc, plan, p)?;
    first_step_with(alloc, plan, own, p, table.as_slice())
}
