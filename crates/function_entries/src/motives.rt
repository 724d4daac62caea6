ghost use Rattle.std.specs.Prelude.{◌≡◌, [], Ok};
ghost use Rattle.core_terms.specs.Answers.{Gives};
ghost use Rattle.core_terms.specs.Meanings.{tree_of, tele_of};
ghost use Rattle.core_sig.specs.Drafts.{draft_of};
ghost use Rattle.leaf_terms.specs.PlanMeanings.{part_of, plan_of};
ghost use Rattle.leaf_terms.specs.RecursionMeanings.{recursion_of};
ghost use Rattle.function_entries.specs.CodeEntries as spec;

use crate::own_part::{first_count, own_goal, own_telescope};
use crate::telescopes::with_first;
use core_sig::Draft;
use core_terms::{Items, Stop, Term, copy_tele, functions, products};
use leaf_terms::{Part, Plan, Recursion, after_first, motive_name, numbered};
use std::alloc::Global;

/// `(F) -> (is) -> (x) -> Type L`.
pub fn motive_type(alloc: Global, level: u8, first: u32, tele: &[Term]) -> Result<Term, Stop>
    ensures { Gives tree_of result (Ok (spec.motive_type level first (tele_of tele.now))) }
{
    let tele = with_first(alloc, first, tele, Items::new(alloc))?;
    products(alloc, tele.into_vec(), Term::Sort(level))
}

/// `\F is x. (R) -> goal`.
pub fn motive_body(alloc: Global, first: u32, tele: &[Term], goal: Term) -> Result<Term, Stop>
    ensures { Gives tree_of result (Ok (spec.motive_body first (tele_of tele.now) (tree_of goal))) }
{
    let rest = copy_tele(alloc, after_first(tele, first))?;
    let goal = products(alloc, rest.into_vec(), goal)?;
    let tele = with_first(alloc, first, tele, Items::new(alloc))?;
    functions(alloc, tele.into_vec(), goal)
}

/// `F!motive`, or Deep.
pub fn motive_entry(alloc: Global, plan: &Plan, own: &Part, r: &Recursion) -> Result<Draft, Stop>
    ensures { Gives draft_of result (spec.motive_made (plan_of plan.now) (part_of own.now) (recursion_of r.now)) }
{
    let first = first_count(alloc, r)?;
    let tele = own_telescope(alloc, own, r)?;
    let ty = motive_type(alloc, plan.level, first, tele.as_slice())?;
    let goal = own_goal(alloc, own, r)?;
    let body = motive_body(alloc, first, tele.as_slice(), goal)?;
    let name = motive_name(alloc, &plan.name)?;
    numbered(alloc, name, plan.base, &[], &ty, &body)
}
