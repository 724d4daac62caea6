ghost use Rattle.std.specs.Prelude.{◌≡◌, ◌≤◌, ◌+◌, IfOk, Ok, length, map};
ghost use Rattle.case_trees.specs.Points.{under_solution};
ghost use Rattle.core_terms.specs.Answers.{Gives, bounded};
ghost use Rattle.core_terms.specs.Clauses as clause;
ghost use Rattle.core_terms.specs.Meanings.{tree_of};
ghost use Rattle.core_terms.specs.TreeMeanings.{walk_of};
ghost use Rattle.clause_reports.specs.elaboration.Walking as spec;
ghost use Rattle.function_checks.specs.function_clauses.CodeClauses as code;
ghost use Rattle.function_checks.specs.function_clauses.Conditions.{IsWalkOver};
ghost use Rattle.function_checks.specs.function_refusals.RefusalMeanings.{Elaborates};
ghost use Rattle.function_checks.specs.function_walks.Conditions.{AreWalked};
ghost use Rattle.function_checks.specs.function_walks.WalkingMeanings.{given_of, session_of, walked_of};
ghost use Rattle.theory.specs.SignatureScopes.{HasEntries, IsScoped};
ghost use Rattle.function_checks.specs.walk_checks.CheckMeanings.{site_of};

use crate::function_clauses::giving::side_given;
use crate::function_refusals::FunctionRefusal;
use crate::function_walks::{Given, Session};
use crate::walk_checks::{Asked, Site, checked_as};
use core_sig::Signature;
use core_terms::{Stop, Term, Walk, checked};
use kernel_check::Kernel;
use run_terms::instance;
use std::alloc::Global;

/// A term of a clause over the context of its walk, before its height is tested.
#[tactic(auto, using(core_terms::proofs::Instances::instance_laws))]
fn put(alloc: Global, w: &Walk, t: &Term) -> Result<Term, Stop>
    ensures { Gives tree_of result (Ok (under_solution (walk_of w.now).binds (tree_of t.now))) }
{
    instance(alloc, w.binds.as_slice(), t, 0)
}

/// A term of a clause over the context of its walk, or Deep.
pub(crate) fn bound(alloc: Global, w: &Walk, t: &Term) -> Result<Term, Stop>
    ensures { Gives tree_of result (bounded (under_solution (walk_of w.now).binds (tree_of t.now))) }
{
    checked(put(alloc, w, t)?)
}

/// Checks the right side of a clause over the context of its walk, and answers the clause's results.
fn side_checked<'a>(
    alloc: Global,
    sig: &Signature,
    k: u32,
    site: Site,
    w: Walk,
    side: &Term,
    body: &Term,
    kernel: &mut Kernel<'_>,
) -> Result<Given<'a>, FunctionRefusal>
    requires kernel { kernel.old.signature ≡ sig.now }
    requires walk { IsWalkOver sig.now (walk_of w) }
    requires body { IsScoped sig.now (length (walk_of w).ctx) (tree_of body.now) }
    ensures answer { Elaborates given_of result kernel.new.left (code.side_checked sig.now k site.entry.number (site_of site.entry) (walk_of w) (tree_of side.now) (tree_of body.now) kernel.old.left) }
    ensures sum { kernel.new.left + kernel.new.spent ≡ kernel.old.left + kernel.old.spent }
    ensures spends { kernel.new.left ≤ kernel.old.left }
    ensures kernel { kernel.new.signature ≡ sig.now }
    ensures walked { IfOk result (λ g. AreWalked sig.now (map walked_of g.helpers)) }
{
    checked_as(alloc, sig, Asked::Side, site, &w.ctx, body, &w.goal, kernel)?;
    Ok(side_given(alloc, k, site.number, w, side, body)?)
}

/// The results of a clause that has a right side, which is checked.
pub(crate) fn side_walked<'a>(
    alloc: Global,
    s: Session,
    k: u32,
    next: u32,
    site: Site,
    w: Walk,
    side: &Term,
    kernel: &mut Kernel<'_>,
) -> Result<Given<'a>, FunctionRefusal>
    requires kernel { kernel.old.signature ≡ s.sig.now }
    requires walk { IsWalkOver s.sig.now (walk_of w) }
    requires side { HasEntries s.sig.now (tree_of side.now) }
    ensures answer { Elaborates given_of result kernel.new.left (spec.walk_right (session_of s.entry) k site.entry.number next (site_of site.entry) (walk_of w) (clause.Side (tree_of side.now)) kernel.old.left) }
    ensures sum { kernel.new.left + kernel.new.spent ≡ kernel.old.left + kernel.old.spent }
    ensures spends { kernel.new.left ≤ kernel.old.left }
    ensures kernel { kernel.new.signature ≡ s.entry.sig.now }
    ensures walked { IfOk result (λ g. AreWalked s.entry.sig.now (map walked_of g.helpers)) }
{
    let body = bound(alloc, &w, side)?;
    side_checked(alloc, s.sig, k, site, w, side, &body, kernel)
}
