ghost use Rattle.std.specs.Prelude.{◌≡◌, ◌≤◌, ◌<◌, ◌+◌, IfOk, OnErr, Err, length};
ghost use Rattle.case_trees.specs.OwnWalks.{own_walk_of};
ghost use Rattle.case_trees.specs.Scoped.{IsScopedWalk};
ghost use Rattle.core_terms.specs.PatternMeanings.{clause_of};
ghost use Rattle.core_terms.specs.TreeMeanings.{walk_of};
ghost use Rattle.core_terms.specs.declared.stop.Stop.TheVariants.{Memory};
ghost use Rattle.clause_reports.specs.elaboration.Refusals.{walking};
ghost use Rattle.function_checks.specs.function_clauses.CodeClauses as code;
ghost use Rattle.function_checks.specs.function_clauses.Conditions.{IsWalkOver};
ghost use Rattle.function_checks.specs.function_refusals.RefusalMeanings.{Elaborates};
ghost use Rattle.function_checks.specs.function_walks.Conditions.{IsPart};
ghost use Rattle.function_checks.specs.function_walks.WalkingMeanings.{opened_of};
ghost use Rattle.resolve.specs.Scoping.{IsClause};
ghost use Rattle.problems.specs.Conditions.{most_levels};
ghost use Rattle.function_checks.specs.walk_checks.CheckMeanings.{site_of};

use crate::function_refusals::{FunctionRefusal, ended};
use crate::function_walks::Opened;
use crate::walk_checks::{Site, check_dots};
use clause_walks::own_walk_with;
use core_sig::Signature;
use core_terms::{Clause, Stop, Walk};
use kernel_check::Kernel;
use std::alloc::Global;

/// So many variables leave no room for one more.
const MOST_LEVELS: usize = 2147400000;

/// The own walk of a clause.
fn walked(
    alloc: Global,
    sig: &Signature,
    site: Site,
    part: &Opened,
    c: &Clause,
    kernel: &mut Kernel<'_>,
) -> Result<Walk, FunctionRefusal>
    requires kernel { kernel.old.signature ≡ sig.now }
    requires part { IsPart sig.now (opened_of part.now) }
    requires clause { IsClause sig.now (length (opened_of part.now).terms) (clause_of c.now) }
    ensures answer { Elaborates walk_of result kernel.new.left (walking sig.now site.entry.function.now (own_walk_of sig.now (opened_of part.now).tele (opened_of part.now).goal (opened_of part.now).terms (clause_of c.now) site.entry.number kernel.old.left)) }
    ensures sum { kernel.new.left + kernel.new.spent ≡ kernel.old.left + kernel.old.spent }
    ensures spends { kernel.new.left ≤ kernel.old.left }
    ensures kernel { kernel.new.signature ≡ sig.now }
    ensures scoped { IfOk result (λ w. IsScopedWalk sig.now (walk_of w)) }
    ensures columns { IfOk result (λ w. length (walk_of w).terms ≡ length (opened_of part.now).terms) }
{
    match own_walk_with(
        alloc,
        sig,
        &part.tele,
        &part.goal,
        &part.terms,
        c,
        site.number,
        kernel,
    ) {
        Ok(w) => Ok(w),
        Err(stop) => Err(ended(alloc, sig, site.function.as_slice(), &stop)),
    }
}

/// The walk itself, or Memory where its context has too many variables.
fn with_room(w: Walk) -> Result<Walk, Stop>
    ensures ok { IfOk result (λ v. (v ≡ w) × (length (walk_of v).ctx < most_levels)) }
    ensures memory { OnErr result (result ≡ Err Memory) }
{
    if w.ctx.as_slice().len() < MOST_LEVELS {
        Ok(w)
    } else {
        Err(Stop::Memory)
    }
}

/// Checks the dots of a walk.
fn with_dots(
    alloc: Global,
    sig: &Signature,
    site: Site,
    w: Walk,
    kernel: &mut Kernel<'_>,
) -> Result<Walk, FunctionRefusal>
    requires kernel { kernel.old.signature ≡ sig.now }
    requires given { IsWalkOver sig.now (walk_of w) }
    ensures answer { Elaborates walk_of result kernel.new.left (code.with_dots sig.now (site_of site.entry) (walk_of w) kernel.old.left) }
    ensures sum { kernel.new.left + kernel.new.spent ≡ kernel.old.left + kernel.old.spent }
    ensures spends { kernel.new.left ≤ kernel.old.left }
    ensures kernel { kernel.new.signature ≡ sig.now }
    ensures same { IfOk result (λ v. v ≡ w) }
{
    check_dots(alloc, sig, site, &w.ctx, w.dots.as_slice(), kernel)?;
    Ok(w)
}

/// The own walk of a clause, whose dots are checked.
pub(crate) fn clause_walked(
    alloc: Global,
    sig: &Signature,
    site: Site,
    part: &Opened,
    c: &Clause,
    kernel: &mut Kernel<'_>,
) -> Result<Walk, FunctionRefusal>
    requires kernel { kernel.old.signature ≡ sig.now }
    requires part { IsPart sig.now (opened_of part.now) }
    requires clause { IsClause sig.now (length (opened_of part.now).terms) (clause_of c.now) }
    ensures answer { Elaborates walk_of result kernel.new.left (code.clause_walked sig.now site.entry.function.now (opened_of part.now) site.entry.number (clause_of c.now) kernel.old.left) }
    ensures sum { kernel.new.left + kernel.new.spent ≡ kernel.old.left + kernel.old.spent }
    ensures spends { kernel.new.left ≤ kernel.old.left }
    ensures kernel { kernel.new.signature ≡ sig.now }
    ensures walk { IfOk result (λ w. IsWalkOver sig.now (walk_of w)) }
    ensures columns { IfOk result (λ w. length (walk_of w).terms ≡ length (opened_of part.now).terms) }
{
    let w = with_room(walked(alloc, sig, site, part, c, kernel)?)?;
    with_dots(alloc, sig, site, w, kernel)
}
