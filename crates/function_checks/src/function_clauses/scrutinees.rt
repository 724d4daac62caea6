ghost use Rattle.std.specs.Prelude.{◌≡◌, ◌≤◌, ◌+◌, IfOk, Ok, length};
ghost use Rattle.core_terms.specs.Answers.{Gives};
ghost use Rattle.core_terms.specs.Meanings.{tree_of};
ghost use Rattle.core_terms.specs.TreeMeanings.{walk_of};
ghost use Rattle.function_checks.specs.function_clauses.CodeClauses as code;
ghost use Rattle.function_checks.specs.function_clauses.Conditions.{IsWalkOver};
ghost use Rattle.function_checks.specs.function_clauses.ScrutineeMeanings.{scrutinee_of};
ghost use Rattle.function_checks.specs.function_refusals.RefusalMeanings.{Elaborates};
ghost use Rattle.function_checks.specs.function_walks.Conditions.{IsPart};
ghost use Rattle.function_checks.specs.function_walks.WalkingMeanings.{opened_of, session_of};
ghost use Rattle.theory.specs.SignatureScopes.{HasEntries, IsScoped};
ghost use Rattle.function_checks.specs.walk_checks.CheckMeanings.{opening_of, site_of};

use crate::function_clauses::helpers::{helper_call, opened};
use crate::function_clauses::parts::Scrutinee;
use crate::function_clauses::sides::bound;
use crate::function_refusals::FunctionRefusal;
use crate::function_walks::Session;
use crate::walk_checks::{Opening, Site, open_over};
use core_terms::{Stop, Term, Walk};
use kernel_check::Kernel;
use std::alloc::Global;

/// A scrutinee with the call of its helper and the helper.
fn scrutinee_over(
    alloc: Global,
    s: Session,
    helper: u32,
    w: &Walk,
    t: Term,
    o: Opening,
) -> Result<Scrutinee, Stop>
    ensures { Gives scrutinee_of result (Ok (code.scrutinee_over (session_of s.entry) helper (walk_of w.now) (tree_of t) (opening_of o))) }
{
    let side = helper_call(alloc, s, helper, &o.abstraction, &t)?;
    let part = opened(alloc, o, w)?;
    Ok(Scrutinee {
        term: t,
        side,
        part,
    })
}

/// Opens the helper over a scrutinee.
fn helper_opened(
    alloc: Global,
    s: Session,
    helper: u32,
    site: Site,
    w: &Walk,
    t: Term,
    kernel: &mut Kernel<'_>,
) -> Result<Scrutinee, FunctionRefusal>
    requires kernel { kernel.old.signature ≡ s.sig.now }
    requires walk { IsWalkOver s.sig.now (walk_of w.now) }
    requires scrutinee { IsScoped s.sig.now (length (walk_of w.now).ctx) (tree_of t) }
    ensures answer { Elaborates scrutinee_of result kernel.new.left (code.helper_opened (session_of s.entry) helper (site_of site.entry) (walk_of w.now) (tree_of t) kernel.old.left) }
    ensures sum { kernel.new.left + kernel.new.spent ≡ kernel.old.left + kernel.old.spent }
    ensures spends { kernel.new.left ≤ kernel.old.left }
    ensures kernel { kernel.new.signature ≡ s.entry.sig.now }
    ensures part { IfOk result (λ x. IsPart s.entry.sig.now (opened_of x.part)) }
    ensures columns { IfOk result (λ x. length (opened_of x.part).terms ≡ length (walk_of w.now).terms + 1) }
{
    let o = open_over(alloc, s, site, w, &t, kernel)?;
    Ok(scrutinee_over(alloc, s, helper, w, t, o)?)
}

/// Opens the helper over the scrutinee of a clause.
pub(crate) fn scrutinised(
    alloc: Global,
    s: Session,
    helper: u32,
    site: Site,
    w: &Walk,
    written: &Term,
    kernel: &mut Kernel<'_>,
) -> Result<Scrutinee, FunctionRefusal>
    requires kernel { kernel.old.signature ≡ s.sig.now }
    requires walk { IsWalkOver s.sig.now (walk_of w.now) }
    requires written { HasEntries s.sig.now (tree_of written.now) }
    ensures answer { Elaborates scrutinee_of result kernel.new.left (code.scrutinised (session_of s.entry) helper (site_of site.entry) (walk_of w.now) (tree_of written.now) kernel.old.left) }
    ensures sum { kernel.new.left + kernel.new.spent ≡ kernel.old.left + kernel.old.spent }
    ensures spends { kernel.new.left ≤ kernel.old.left }
    ensures kernel { kernel.new.signature ≡ s.entry.sig.now }
    ensures part { IfOk result (λ x. IsPart s.entry.sig.now (opened_of x.part)) }
    ensures columns { IfOk result (λ x. length (opened_of x.part).terms ≡ length (walk_of w.now).terms + 1) }
{
    let t = bound(alloc, w, written)?;
    helper_opened(alloc, s, helper, site, w, t, kernel)
}
