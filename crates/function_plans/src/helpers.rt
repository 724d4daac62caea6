ghost use Rattle.std.specs.Prelude.{◌≡◌, ◌≤◌, ◌+◌, length, map, option_map};
ghost use Rattle.std.specs.Option.{option_copied};
ghost use Rattle.clause_reports.specs.elaboration.Functions as spec;
ghost use Rattle.function_plans.specs.CodePlans.{helpers_after};
ghost use Rattle.function_checks.specs.function_refusals.RefusalMeanings.{Elaborates};
ghost use Rattle.function_checks.specs.function_walks.Conditions.{AreWalked, IsWalked};
ghost use Rattle.function_checks.specs.function_walks.WalkingMeanings.{session_of, walked_of};
ghost use Rattle.leaf_terms.specs.PlanMeanings.{parts_of};
ghost use Rattle.leaf_terms.specs.RecursionMeanings.{recursion_of};
ghost use Rattle.tree_translation.specs.Naming.{part_named};
ghost use Rattle.case_trees.specs.Trees.{split_of};
ghost use Rattle.core_terms.specs.TreeMeanings.{case_tree_of};
ghost use Rattle.clause_reports.specs.elaboration.Refusals.{walking};

use crate::finishing::finished;
use crate::trees::tree_of_clauses;
use core_terms::{Items, Tree, number_of};
use function_checks::function_refusals::FunctionRefusal;
use function_checks::function_walks::{Session, Walked};
use kernel_check::Kernel;
use leaf_terms::{Part, Recursion, part_name};
use std::alloc::Global;

/// The level of a helper: with recursion at least that of the function.
fn helper_level(r: Option<&Recursion>, own: u8, level: u8) -> u8
    ensures { result ≡ spec.helper_level (option_map recursion_of (option_copied r.entry)) own level }
{
    match r {
        None => level,
        Some(_) => own.max(level),
    }
}

/// The tree of helper `number`.
fn helper_tree(
    alloc: Global,
    s: Session,
    number: u32,
    w: &Walked,
    kernel: &mut Kernel<'_>,
) -> Result<Tree, FunctionRefusal>
    requires kernel { kernel.old.signature ≡ s.sig.now }
    requires given { IsWalked s.sig.now (walked_of w.now) }
    ensures answer { Elaborates case_tree_of result kernel.new.left (walking s.entry.sig.now (part_named s.entry.name.now number) (split_of s.entry.sig.now (walked_of w.now).part.tele (walked_of w.now).part.goal (walked_of w.now).part.terms (walked_of w.now).clauses kernel.old.left)) }
    ensures sum { kernel.new.left + kernel.new.spent ≡ kernel.old.left + kernel.old.spent }
    ensures spends { kernel.new.left ≤ kernel.old.left }
    ensures kernel { kernel.new.signature ≡ s.entry.sig.now }
{
    let name = part_name(alloc, s.name, number)?;
    let (tele, goal, terms) = (&w.part.tele, &w.part.goal, &w.part.terms);
    tree_of_clauses(
        alloc,
        s.sig,
        name.as_slice(),
        tele,
        goal,
        terms,
        w.clauses,
        kernel,
    )
}

/// Helpers with their trees, after the parts that are made; the first helper has this number.
pub fn helpers_finished(
    alloc: Global,
    s: Session,
    r: Option<&Recursion>,
    level: u8,
    number: u32,
    mut helpers: Vec<Walked>,
    mut made: Items<Part>,
    kernel: &mut Kernel<'_>,
) -> Result<Items<Part>, FunctionRefusal>
    requires kernel { kernel.old.signature ≡ s.sig.now }
    requires given { AreWalked s.sig.now (map walked_of helpers.items) }
    ensures answer { Elaborates parts_of result kernel.new.left (helpers_after (parts_of made) (session_of s.entry) (option_map recursion_of (option_copied r.entry)) level number (map walked_of helpers.entry.items) kernel.old.left) }
    ensures sum { kernel.new.left + kernel.new.spent ≡ kernel.old.left + kernel.old.spent }
    ensures spends { kernel.new.left ≤ kernel.old.left }
    ensures kernel { kernel.new.signature ≡ s.entry.sig.now }
{
    if helpers.is_empty() {
        return Ok(made);
    }
    let w = helpers.remove(0);
    let tree = helper_tree(alloc, s, number, &w, kernel)?;
    let own = helper_level(r, level, w.part.level);
    made.push(finished(alloc, own, w, tree)?)?;
    let next = number_of(number as usize + 1)?;
    helpers_finished(alloc, s, r, level, next, helpers, made, kernel)
}
