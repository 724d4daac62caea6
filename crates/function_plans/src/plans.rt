ghost use Rattle.std.specs.Prelude.{◌≡◌, ◌≤◌, ◌+◌, length, map, option_map};
ghost use Rattle.std.specs.Option.{option_copied};
ghost use Rattle.core_terms.specs.Answers.{Gives};
ghost use Rattle.core_terms.specs.Meanings.{tree_of, tele_of};
ghost use Rattle.function_plans.specs.CodePlans.{IsOwnWalked, own_alone, parts_made, parts_with, plan_made};
ghost use Rattle.function_checks.specs.function_refusals.RefusalMeanings.{Elaborates};
ghost use Rattle.function_checks.specs.function_walks.Conditions.{AreWalked};
ghost use Rattle.function_checks.specs.function_walks.WalkingMeanings.{session_of, walked_of};
ghost use Rattle.leaf_terms.specs.PlanMeanings.{parts_of, plan_of};
ghost use Rattle.leaf_terms.specs.RecursionMade.{made_at};
ghost use Rattle.leaf_terms.specs.RecursionMeanings.{recursion_of};
ghost use Rattle.tree_translation.specs.structural_rec.Laws.{IsTelescopeOrder};
ghost use Rattle.tree_translation.specs.structural_rec.Meanings.{uses_of};
ghost use Rattle.tree_translation.specs.Recursion as recursion;

use crate::choosing::chosen;
use crate::finishing::own_finished;
use crate::helpers::helpers_finished;
use core_sig::Signature;
use core_terms::{Items, Stop, Term, copy_name};
use function_checks::function_refusals::FunctionRefusal;
use function_checks::function_walks::{Session, Walked};
use kernel_check::Kernel;
use leaf_terms::{Part, Plan, Recursion, recursion_at};
use std::alloc::Global;
use tree_translation::structural_rec::Use;

/// Recursion at a position of a telescope, or none where there is no position.
fn recursion_in<'a>(
    alloc: Global,
    sig: &'a Signature,
    tele: &[Term],
    position: Option<u32>,
) -> Result<Option<Recursion<'a>>, Stop>
    ensures { Gives (option_map recursion_of) result (made_at sig.now (tele_of tele.now) position) }
{
    match position {
        None => Ok(None),
        Some(j) => recursion_at(alloc, sig, tele, j),
    }
}

/// The function's own part.
fn with_own(
    alloc: Global,
    s: Session,
    r: Option<&Recursion>,
    w: Walked,
    kernel: &mut Kernel<'_>,
) -> Result<Items<Part>, FunctionRefusal>
    requires kernel { kernel.old.signature ≡ s.sig.now }
    requires own { IsOwnWalked s.sig.now (walked_of w) }
    requires order { IsTelescopeOrder (walked_of w).part.tele (recursion.order_of (length w.part.tele) (option_map recursion_of (option_copied r))) }
    ensures answer { Elaborates parts_of result kernel.new.left (own_alone (session_of s.entry) (option_map recursion_of (option_copied r.entry)) (walked_of w.entry) kernel.old.left) }
    ensures sum { kernel.new.left + kernel.new.spent ≡ kernel.old.left + kernel.old.spent }
    ensures spends { kernel.new.left ≤ kernel.old.left }
    ensures kernel { kernel.new.signature ≡ s.entry.sig.now }
{
    let mut made = Items::new(alloc);
    made.push(own_finished(alloc, s, r, w, kernel)?)?;
    Ok(made)
}

/// The function's own part and those of its helpers, where recursion is given.
fn all_parts(
    alloc: Global,
    s: Session,
    r: Option<&Recursion>,
    level: u8,
    w: Walked,
    helpers: Vec<Walked>,
    kernel: &mut Kernel<'_>,
) -> Result<Items<Part>, FunctionRefusal>
    requires kernel { kernel.old.signature ≡ s.sig.now }
    requires own { IsOwnWalked s.sig.now (walked_of w) }
    requires order { IsTelescopeOrder (walked_of w).part.tele (recursion.order_of (length w.part.tele) (option_map recursion_of (option_copied r))) }
    requires helpers { AreWalked s.sig.now (map walked_of helpers.items) }
    ensures answer { Elaborates parts_of result kernel.new.left (parts_with (session_of s.entry) (option_map recursion_of (option_copied r.entry)) level (walked_of w.entry) (map walked_of helpers.entry.items) kernel.old.left) }
    ensures sum { kernel.new.left + kernel.new.spent ≡ kernel.old.left + kernel.old.spent }
    ensures spends { kernel.new.left ≤ kernel.old.left }
    ensures kernel { kernel.new.signature ≡ s.entry.sig.now }
{
    let made = with_own(alloc, s, r, w, kernel)?;
    helpers_finished(alloc, s, r, level, 1, helpers, made, kernel)
}

/// The function's own part and those of its helpers, with recursion at the position.
fn parts_at(
    alloc: Global,
    s: Session,
    position: Option<u32>,
    level: u8,
    w: Walked,
    helpers: Vec<Walked>,
    kernel: &mut Kernel<'_>,
) -> Result<Items<Part>, FunctionRefusal>
    requires kernel { kernel.old.signature ≡ s.sig.now }
    requires own { IsOwnWalked s.sig.now (walked_of w) }
    requires helpers { AreWalked s.sig.now (map walked_of helpers.items) }
    ensures answer { Elaborates parts_of result kernel.new.left (parts_made (session_of s.entry) position level (walked_of w.entry) (map walked_of helpers.entry.items) kernel.old.left) }
    ensures sum { kernel.new.left + kernel.new.spent ≡ kernel.old.left + kernel.old.spent }
    ensures spends { kernel.new.left ≤ kernel.old.left }
    ensures kernel { kernel.new.signature ≡ s.entry.sig.now }
{
    let r = recursion_in(alloc, s.sig, w.part.tele.as_slice(), position)?;
    all_parts(alloc, s, r.as_ref(), level, w, helpers, kernel)
}

/// The plan of a function whose clauses are walked, with its helpers and the uses in the walks, or Deep where a term of
/// the uses or a type of the telescope is too high.
pub fn plan(
    alloc: Global,
    s: Session,
    ty: Term,
    arity: u32,
    level: u8,
    w: Walked,
    helpers: Vec<Walked>,
    uses: &Items<Use>,
    kernel: &mut Kernel<'_>,
) -> Result<Plan, FunctionRefusal>
    requires kernel { kernel.old.signature ≡ s.sig.now }
    requires own { IsOwnWalked s.sig.now (walked_of w) }
    requires helpers { AreWalked s.sig.now (map walked_of helpers.items) }
    ensures answer { Elaborates plan_of result kernel.new.left (plan_made (session_of s.entry) (tree_of ty) arity level (walked_of w.entry) (map walked_of helpers.entry.items) (uses_of uses.now) kernel.old.left) }
    ensures sum { kernel.new.left + kernel.new.spent ≡ kernel.old.left + kernel.old.spent }
    ensures spends { kernel.new.left ≤ kernel.old.left }
    ensures kernel { kernel.new.signature ≡ s.entry.sig.now }
{
    let position = chosen(alloc, s, &w.part.tele, uses)?;
    let name = copy_name(alloc, s.name)?;
    let parts = parts_at(alloc, s, position, level, w, helpers, kernel)?;
    Ok(Plan {
        base: s.own,
        name,
        ty,
        arity,
        level,
        position,
        parts,
    })
}
