ghost use Rattle.std.specs.Prelude.{◌≡◌, ◌≤◌, ◌+◌, ◌++◌, Ok, length, map, option_map};
ghost use Rattle.std.specs.Option.{option_copied};
ghost use Rattle.core_terms.specs.Answers.{Gives};
ghost use Rattle.core_terms.specs.Meanings.{tele_of};
ghost use Rattle.core_terms.specs.PatternMeanings.{clauses_of, pat_of, pats_of};
ghost use Rattle.core_terms.specs.TreeMeanings.{case_tree_of};
ghost use Rattle.clause_reports.specs.elaboration.Functions as spec;
ghost use Rattle.function_plans.specs.CodePlans.{IsOwnWalked};
ghost use Rattle.function_checks.specs.function_refusals.RefusalMeanings.{Elaborates};
ghost use Rattle.function_checks.specs.function_walks.WalkingMeanings.{session_of, walked_of};
ghost use Rattle.leaf_terms.specs.PlanMeanings.{part_of};
ghost use Rattle.leaf_terms.specs.RecursionMeanings.{recursion_of};
ghost use Rattle.tree_translation.specs.structural_rec.Laws.{IsTelescopeOrder};
ghost use Rattle.tree_translation.specs.Recursion as recursion;

use crate::trees::own_tree;
use core_terms::{Clause, Items, Pat, Stop, Tree, copy_pat};
use function_checks::function_refusals::FunctionRefusal;
use function_checks::function_walks::{Session, Walked};
use kernel_check::Kernel;
use leaf_terms::{Part, Recursion};
use std::alloc::Global;

/// Patterns, followed by others.
#[tactic(auto, using(tele_eq::proofs::Growing::growing))]
fn with_pats(alloc: Global, pats: &[Pat], mut made: Items<Pat>) -> Result<Items<Pat>, Stop>
    ensures { Gives (map pat_of) result (Ok (map pat_of made ++ map pat_of pats.now)) }
{
    match pats {
        [] => Ok(made),
        [pat, rest @ ..] => {
            made.push(copy_pat(alloc, pat)?)?;
            with_pats(alloc, rest, made)
        }
    }
}

/// The patterns of a clause.
fn pats_of_clause(alloc: Global, clause: &Clause) -> Result<Items<Pat>, Stop>
    ensures { Gives pats_of result (Ok (pats_of clause.now.pats)) }
{
    with_pats(alloc, clause.pats.as_slice(), Items::new(alloc))
}

/// The patterns of clauses, after those that are made.
#[tactic(auto, using(tele_eq::proofs::Growing::growing))]
fn with_patterns(
    alloc: Global,
    clauses: &[Clause],
    mut made: Items<Items<Pat>>,
) -> Result<Items<Items<Pat>>, Stop>
    ensures { Gives (map pats_of) result (Ok (map pats_of made ++ spec.patterns_in (clauses_of clauses.now))) }
{
    match clauses {
        [] => Ok(made),
        [clause, rest @ ..] => {
            made.push(pats_of_clause(alloc, clause)?)?;
            with_patterns(alloc, rest, made)
        }
    }
}

/// A walked part with its tree.
pub(crate) fn finished(alloc: Global, level: u8, w: Walked, tree: Tree) -> Result<Part, Stop>
    ensures { Gives part_of result (Ok (spec.finished level (walked_of w.entry) (case_tree_of tree))) }
{
    let pats = with_patterns(alloc, w.clauses.as_slice(), Items::new(alloc))?;
    Ok(Part {
        level,
        tele: w.part.tele,
        terms: w.part.terms,
        goal: w.part.goal,
        tree,
        sides: w.sides,
        walks: w.walks,
        pats,
    })
}

/// The function's own part, whose tree starts from the order of recursion.
pub fn own_finished(
    alloc: Global,
    s: Session,
    r: Option<&Recursion>,
    w: Walked,
    kernel: &mut Kernel<'_>,
) -> Result<Part, FunctionRefusal>
    requires kernel { kernel.old.signature ≡ s.sig.now }
    requires own { IsOwnWalked s.sig.now (walked_of w) }
    requires order { IsTelescopeOrder (walked_of w).part.tele (recursion.order_of (length w.part.tele) (option_map recursion_of (option_copied r))) }
    ensures answer { Elaborates part_of result kernel.new.left (spec.own_finished (session_of s.entry) (option_map recursion_of (option_copied r.entry)) (walked_of w.entry) kernel.old.left) }
    ensures sum { kernel.new.left + kernel.new.spent ≡ kernel.old.left + kernel.old.spent }
    ensures spends { kernel.new.left ≤ kernel.old.left }
    ensures kernel { kernel.new.signature ≡ s.entry.sig.now }
{
    let tree = own_tree(alloc, s, r, &w, kernel)?;
    let level = w.part.level;
    Ok(finished(alloc, level, w, tree)?)
}
