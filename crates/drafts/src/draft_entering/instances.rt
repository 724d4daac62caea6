ghost use Rattle.std.specs.Prelude.{◌≡◌, ◌≤◌, ◌+◌, Some};
ghost use Rattle.clause_reports.specs.DraftEntering as spec;
ghost use Rattle.drafts.specs.draft_entering.Conditions.{Extends, IsOpen};
ghost use Rattle.drafts.specs.draft_entering.Stops.{Reports};
ghost use Rattle.family_check.specs.Scopes.{IsSettled};
ghost use Rattle.kernel_reduce.specs.Entries.{family_at};
ghost use Rattle.theory.specs.Families as pure;
ghost use Rattle.theory.specs.Signatures.{FamilyOf, IsEntryAt};
ghost use Rattle.theory.specs.SignatureScopes.{IsFamilyNumber};

use crate::draft_entering::ReportStop;
use crate::draft_entering::rejecting::{axiom_k_denied, eliminator_denied};
use core_sig::Signature;
use core_terms::{Stop, Units};
use family_check::{axiom_k, instance};
use kernel_reduce::family;
use std::alloc::Global;

/// Adds an eliminator, unless it is there or the number is no family's.
pub(crate) fn enter_eliminator(
    alloc: Global,
    sig: &mut Signature,
    n: u32,
    m: u8,
    units: &mut Units,
) -> Result<(), ReportStop>
    requires { IsOpen sig.old }
    ensures answer { Reports (λ _. sig.new) result units.new.left (spec.enter_eliminator sig.old n m (family_at sig.old n) units.old.left) }
    ensures sum { units.new.left + units.new.spent ≡ units.old.left + units.old.spent }
    ensures spends { units.new.left ≤ units.old.left }
    ensures longer { Extends sig.old sig.new }
    ensures settled { IsSettled sig.new }
{
    if family(sig, n).is_none() {
        return Ok(());
    }
    enter_eliminator_of(alloc, sig, n, m, units)
}

/// Adds the eliminator of a family, unless it is there.
fn enter_eliminator_of(
    alloc: Global,
    sig: &mut Signature,
    n: u32,
    m: u8,
    units: &mut Units,
) -> Result<(), ReportStop>
    requires settled { IsSettled sig.old }
    requires family { IsFamilyNumber sig.old n }
    ensures answer { (f : pure.Family) → IsEntryAt sig.old n (FamilyOf f) → Reports (λ _. sig.new) result units.new.left (spec.enter_eliminator sig.old n m (Some f) units.old.left) }
    ensures sum { units.new.left + units.new.spent ≡ units.old.left + units.old.spent }
    ensures spends { units.new.left ≤ units.old.left }
    ensures longer { Extends sig.old sig.new }
    ensures settled { IsSettled sig.new }
{
    match instance(alloc, sig, n, m, units) {
        Ok(_) => Ok(()),
        Err(stop) => Err(eliminator_denied(alloc, sig, n, m, stop)),
    }
}

/// Adds an axiom K, unless it is there. Deep where K is off.
pub(crate) fn enter_axiom_k(
    alloc: Global,
    sig: &mut Signature,
    i: u8,
    m: u8,
    units: &mut Units,
) -> Result<(), ReportStop>
    requires { IsOpen sig.old }
    ensures answer { Reports (λ _. sig.new) result units.new.left (spec.enter_axiom_k sig.old i m sig.old.has_k units.old.left) }
    ensures sum { units.new.left + units.new.spent ≡ units.old.left + units.old.spent }
    ensures spends { units.new.left ≤ units.old.left }
    ensures longer { Extends sig.old sig.new }
    ensures settled { IsSettled sig.new }
{
    if !sig.k() {
        return Err(ReportStop::Stop(Stop::Deep));
    }
    match axiom_k(alloc, sig, i, m, units) {
        Ok(_) => Ok(()),
        Err(stop) => Err(axiom_k_denied(alloc, sig, i, m, stop)),
    }
}
