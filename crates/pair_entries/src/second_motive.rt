//! The telescope over the pair order with the first below value, and the second motive.
ghost use Rattle.std.specs.Prelude.{◌≡◌, ◌+◌, Ok, length};
ghost use Rattle.core_terms.specs.Answers.{Gives};
ghost use Rattle.core_terms.specs.Meanings.{tree_of, tele_of};
ghost use Rattle.core_sig.specs.Drafts.{draft_of};
ghost use Rattle.tree_translation.specs.Recursion as recursion;
ghost use Rattle.run_terms.specs.CodeNaming.{naming_of};
ghost use Rattle.leaf_terms.specs.PlanMeanings.{part_of, plan_of};
ghost use Rattle.lex_recursion.specs.PairEntries as pure;
ghost use Rattle.pair_entries.specs.CodePairEntries as spec;
ghost use Rattle.pair_entries.specs.PairMeanings.{pair_of};

use crate::names::{motive2_name, motive2_table};
use crate::recursions::PairRecursion;
use core_sig::Draft;
use core_terms::{Name, Stop, Tele, Term, next};
use function_entries::{
    first_count, goal_with_below, motive_body, motive_type, ordered_variables, own_goal, own_order,
    own_telescope, type_count, with_below,
};
use leaf_terms::{Part, Plan, below_type, numbered};
use run_terms::Naming;
use std::alloc::Global;

/// How many variables both recursions go over.
pub fn begun_count(alloc: Global, p: &PairRecursion) -> Result<u32, Stop>
    ensures { Gives (λ n. n) result (Ok (length (recursion.first_positions (pair_of p.now).inner))) }
{
    first_count(alloc, &p.inner)
}

/// How many variables these and the first below value are.
pub fn second_count(alloc: Global, p: &PairRecursion) -> Result<u32, Stop>
    ensures { Gives (λ n. n) result (Ok (pure.second_count (pair_of p.now))) }
{
    next(begun_count(alloc, p)?)
}

/// The type of the first below value.
fn pair_below(
    alloc: Global,
    naming: Naming,
    plan: &Plan,
    own: &Part,
    p: &PairRecursion,
) -> Result<Term, Stop>
    ensures { Gives tree_of result (Ok (spec.pair_below (plan_of plan.now) (part_of own.now) (pair_of p.now) (naming_of naming.entry))) }
{
    let order = own_order(alloc, own, &p.inner)?;
    let depth = first_count(alloc, &p.outer)?;
    let terms = ordered_variables(alloc, order.as_slice(), depth)?;
    below_type(alloc, naming, plan, &p.outer, terms.as_slice())
}

/// `(F) (is) (x) (b : D!below.L ps (F!motive F) is x) (G) (js) (y) (Q)`.
pub fn pair_telescope(
    alloc: Global,
    naming: Naming,
    plan: &Plan,
    own: &Part,
    p: &PairRecursion,
) -> Result<Tele, Stop>
    ensures { Gives tele_of result (Ok (spec.pair_telescope (plan_of plan.now) (part_of own.now) (pair_of p.now) (naming_of naming.entry))) }
{
    let below = pair_below(alloc, naming, plan, own, p)?;
    let tele = own_telescope(alloc, own, &p.inner)?;
    with_below(alloc, first_count(alloc, &p.outer)?, below, tele.as_slice())
}

/// The goal over it.
pub fn pair_goal(alloc: Global, own: &Part, p: &PairRecursion) -> Result<Term, Stop>
    ensures { Gives tree_of result (Ok (spec.pair_goal (part_of own.now) (pair_of p.now))) }
{
    let goal = own_goal(alloc, own, &p.inner)?;
    let count = type_count(own)?;
    goal_with_below(alloc, first_count(alloc, &p.outer)?, count, &goal)
}

/// `F!motive2` with the numbers of these names, or Deep.
fn motive2_with(
    alloc: Global,
    plan: &Plan,
    own: &Part,
    p: &PairRecursion,
    table: &[Name],
) -> Result<Draft, Stop>
    ensures { Gives draft_of result (spec.motive2_with (plan_of plan.now) (part_of own.now) (pair_of p.now) table.now) }
{
    let naming = Naming {
        base: plan.base,
        names: table,
    };
    let first = second_count(alloc, p)?;
    let tele = pair_telescope(alloc, naming, plan, own, p)?;
    let ty = motive_type(alloc, plan.level, first, tele.as_slice())?;
    let goal = pair_goal(alloc, own, p)?;
    let body = motive_body(alloc, first, tele.as_slice(), goal)?;
    let name = motive2_name(alloc, &plan.name)?;
    numbered(alloc, name, plan.base, table, &ty, &body)
}

/// `F!motive2`, or Deep.
pub fn motive2_entry(
    alloc: Global,
    plan: &Plan,
    own: &Part,
    p: &PairRecursion,
) -> Result<Draft, Stop>
    ensures { Gives draft_of result (spec.motive2_made (plan_of plan.now) (part_of own.now) (pair_of p.now)) }
{
    let table = motive2_table(alloc, plan, p)?;
    motive2_with(alloc, plan, own, p, table.as_slice())
}
