ghost use Rattle.std.specs.Prelude.{◌≡◌, ◌≤◌, ◌+◌, length, option_map};
ghost use Rattle.std.specs.Option.{option_copied};
ghost use Rattle.case_trees.specs.Laws.{IsGiven};
ghost use Rattle.case_trees.specs.Scoped.{AreClausesFor};
ghost use Rattle.case_trees.specs.Trees.{split_of};
ghost use Rattle.core_terms.specs.Meanings.{tree_of, tele_of};
ghost use Rattle.core_terms.specs.PatternMeanings.{clauses_of};
ghost use Rattle.core_terms.specs.TreeMeanings.{case_tree_of};
ghost use Rattle.clause_reports.specs.elaboration.Refusals.{walking};
ghost use Rattle.function_plans.specs.CodePlans.{IsOwnWalked, own_tree_of};
ghost use Rattle.function_checks.specs.function_refusals.RefusalMeanings.{Elaborates};
ghost use Rattle.function_checks.specs.function_walks.WalkingMeanings.{session_of, walked_of};
ghost use Rattle.leaf_terms.specs.RecursionMeanings.{recursion_of};
ghost use Rattle.tree_translation.specs.structural_rec.Laws.{IsTelescopeOrder};
ghost use Rattle.tree_translation.specs.Recursion as recursion;
ghost use Rattle.problems.specs.Conditions.{most_levels};

use clause_splitting::split_with;
use core_sig::Signature;
use core_terms::{Clause, Items, Tele, Term, Tree, number_of};
use function_checks::function_refusals::{FunctionRefusal, ended};
use function_checks::function_walks::{Session, Walked};
use function_entries::ordered_variables;
use kernel_check::Kernel;
use leaf_terms::{Recursion, order_of, ordered_telescope, ordered_term};
use std::alloc::Global;

/// The tree of clauses of a function or helper.
pub(crate) fn tree_of_clauses(
    alloc: Global,
    sig: &Signature,
    function: &[u8],
    ctx: &Tele,
    goal: &Term,
    terms: &Tele,
    clauses: &Items<Clause>,
    kernel: &mut Kernel<'_>,
) -> Result<Tree, FunctionRefusal>
    requires kernel { kernel.old.signature ≡ sig.now }
    requires given { IsGiven sig.now (tele_of ctx.now) (tree_of goal.now) (tele_of terms.now) }
    requires clauses { AreClausesFor sig.now (tele_of terms.now) (clauses_of clauses.now) }
    requires few { length ctx.now ≤ most_levels }
    ensures answer { Elaborates case_tree_of result kernel.new.left (walking sig.now function.now (split_of sig.now (tele_of ctx.now) (tree_of goal.now) (tele_of terms.now) (clauses_of clauses.now) kernel.old.left)) }
    ensures sum { kernel.new.left + kernel.new.spent ≡ kernel.old.left + kernel.old.spent }
    ensures spends { kernel.new.left ≤ kernel.old.left }
    ensures kernel { kernel.new.signature ≡ sig.now }
{
    match split_with(alloc, sig, ctx, goal, terms, clauses, kernel) {
        Ok(tree) => Ok(tree),
        Err(stop) => Err(ended(alloc, sig, function, &stop)),
    }
}

/// The tree of the function's own clauses in an order of its positions.
fn tree_in_order(
    alloc: Global,
    s: Session,
    w: &Walked,
    count: u32,
    order: &[u32],
    kernel: &mut Kernel<'_>,
) -> Result<Tree, FunctionRefusal>
    requires kernel { kernel.old.signature ≡ s.sig.now }
    requires own { IsOwnWalked s.sig.now (walked_of w.now) }
    requires count { count ≡ length w.now.part.tele }
    requires order { IsTelescopeOrder (walked_of w.now).part.tele order.now }
    ensures answer { Elaborates case_tree_of result kernel.new.left (own_tree_of (session_of s.entry) (walked_of w.now) count order.now kernel.old.left) }
    ensures sum { kernel.new.left + kernel.new.spent ≡ kernel.old.left + kernel.old.spent }
    ensures spends { kernel.new.left ≤ kernel.old.left }
    ensures kernel { kernel.new.signature ≡ s.entry.sig.now }
{
    let ctx = ordered_telescope(alloc, w.part.tele.as_slice(), order)?;
    let goal = ordered_term(alloc, count, order, &w.part.goal)?;
    let terms = ordered_variables(alloc, order, count)?;
    tree_of_clauses(
        alloc,
        s.sig,
        s.name.as_slice(),
        &ctx,
        &goal,
        &terms,
        w.clauses,
        kernel,
    )
}

/// The tree of the function's own clauses, which starts from the order of recursion.
pub(crate) fn own_tree(
    alloc: Global,
    s: Session,
    r: Option<&Recursion>,
    w: &Walked,
    kernel: &mut Kernel<'_>,
) -> Result<Tree, FunctionRefusal>
    requires kernel { kernel.old.signature ≡ s.sig.now }
    requires own { IsOwnWalked s.sig.now (walked_of w.now) }
    requires order { IsTelescopeOrder (walked_of w.now).part.tele (recursion.order_of (length w.now.part.tele) (option_map recursion_of (option_copied r))) }
    ensures answer { Elaborates case_tree_of result kernel.new.left (own_tree_of (session_of s.entry) (walked_of w.now) (length w.now.part.tele) (recursion.order_of (length w.now.part.tele) (option_map recursion_of (option_copied r.entry))) kernel.old.left) }
    ensures sum { kernel.new.left + kernel.new.spent ≡ kernel.old.left + kernel.old.spent }
    ensures spends { kernel.new.left ≤ kernel.old.left }
    ensures kernel { kernel.new.signature ≡ s.entry.sig.now }
{
    let count = number_of(w.part.tele.as_slice().len())?;
    let order = order_of(alloc, count, r)?;
    tree_in_order(alloc, s, w, count, order.as_slice(), kernel)
}
