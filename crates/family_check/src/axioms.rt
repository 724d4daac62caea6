ghost use Rattle.std.specs.Prelude.{◌≡◌, ◌≤◌, ◌+◌, ◌&&◌, nat_lt, IfErr, IsTrue, OnErr};
ghost use Rattle.theory.specs.Signatures as signature;
ghost use Rattle.theory.specs.Signatures.{AxiomKAt, IsPrefix};
ghost use Rattle.theory.specs.Terms.{top};
ghost use Rattle.theory.specs.WellFormed.{IsWellFormed};
ghost use Rattle.family_check.specs.Entering as spec;
ghost use Rattle.family_check.specs.Meanings.{Yields, stop_of};
ghost use Rattle.family_check.specs.Scopes.{HasPrelude, IsSettled, IsScopedStop};

use crate::FamilyStop;
use crate::entering::{enter, too_high};
use core_sig::{Entry, Signature, axiom_k_type};
use core_terms::{TOP, Units};
use std::alloc::Global;

/// Adds the axiom K of `Eq.i` into `Type m`, unless it is there, and answers its number.
///
/// An instance that is there costs no unit, and else its type those of one call of `infer_sort`. A level of `TOP` or more, `i` or
/// `m`, is Denied with the part `Ty` and LevelTooHigh; then comes the checker's refusal of the type: Denied with `Ty`, Fuel or
/// Deep. After an error the signature is as it was, and the units that were spent stay spent.
pub fn axiom_k(
    alloc: Global,
    sig: &mut Signature,
    i: u8,
    m: u8,
    units: &mut Units,
) -> Result<u32, FamilyStop>
    requires signature { IsSettled sig.old }
    requires on { IsTrue sig.old.has_k }
    requires prelude { HasPrelude sig.old }
    ensures answer { Yields (spec.entered_at sig.new) result units.new.left (spec.axiom_k_of sig.old i m units.old.left) }
    ensures err { OnErr result (sig.new ≡ sig.old) }
    ensures sum { units.new.left + units.new.spent ≡ units.old.left + units.old.spent }
    ensures spends { units.new.left ≤ units.old.left }
    ensures longer { IsPrefix sig.old sig.new }
    ensures well_formed { IsWellFormed sig.old → IsWellFormed sig.new }
    ensures settled { IsSettled sig.new }
    ensures denied { IfErr result (λ e. IsScopedStop (λ site. sig.old) (stop_of e)) }
{
    find_or_enter_axiom_k(alloc, sig, i, m, units)
}

fn find_or_enter_axiom_k(
    alloc: Global,
    sig: &mut Signature,
    i: u8,
    m: u8,
    units: &mut Units,
) -> Result<u32, FamilyStop>
    requires signature { IsSettled sig.old }
    requires prelude { HasPrelude sig.old }
    ensures answer { Yields (spec.entered_at sig.new) result units.new.left (spec.axiom_k_of sig.old i m units.old.left) }
    ensures err { OnErr result (sig.new ≡ sig.old) }
    ensures sum { units.new.left + units.new.spent ≡ units.old.left + units.old.spent }
    ensures spends { units.new.left ≤ units.old.left }
{
    match sig.axiom_k(i, m) {
        Some(at) => Ok(at),
        None => enter_axiom_k(alloc, sig, i, m, units),
    }
}

/// Adds an axiom K that is not there yet.
fn enter_axiom_k(
    alloc: Global,
    sig: &mut Signature,
    i: u8,
    m: u8,
    units: &mut Units,
) -> Result<u32, FamilyStop>
    requires signature { IsSettled sig.old }
    requires prelude { HasPrelude sig.old }
    ensures answer { Yields (spec.entered_at sig.new) result units.new.left (spec.enter_instance sig.old (AxiomKAt i m) (nat_lt i top && nat_lt m top) (signature.axiom_k_type i m) units.old.left) }
    ensures err { OnErr result (sig.new ≡ sig.old) }
    ensures sum { units.new.left + units.new.spent ≡ units.old.left + units.old.spent }
    ensures spends { units.new.left ≤ units.old.left }
{
    if i >= TOP || m >= TOP {
        return Err(too_high(alloc));
    }
    let ty = axiom_k_type(alloc, i, m)?;
    enter(alloc, sig, Entry::AxiomK(i, m), &ty, units)
}
