ghost use Rattle.std.specs.Prelude.{◌≡◌, ◌≤◌, ◌+◌, nat_lt, IfErr, OnErr};
ghost use Rattle.theory.specs.Eliminators.{eliminator_type};
ghost use Rattle.theory.specs.Families as pure;
ghost use Rattle.theory.specs.Signatures.{FamilyOf, EliminatorAt, IsEntryAt, IsPrefix};
ghost use Rattle.theory.specs.SignatureScopes.{IsFamilyNumber, IsScopedSignature};
ghost use Rattle.theory.specs.Terms.{top};
ghost use Rattle.theory.specs.WellFormed.{IsWellFormed};
ghost use Rattle.core_terms.specs.Answers.{Gives, bounded};
ghost use Rattle.core_terms.specs.Meanings.{tree_of};
ghost use Rattle.family_check.specs.Entering as spec;
ghost use Rattle.family_check.specs.Meanings.{Yields, stop_of};
ghost use Rattle.family_check.specs.Scopes.{IsSettled, IsScopedStop};

use crate::FamilyStop;
use crate::entering::{enter, too_high};
use core_sig::{Entry, Signature, elim_type};
use core_terms::{Stop, TOP, Term, Units};
use std::alloc::Global;

/// Adds the eliminator of the family with number `fam` into `Type m`, unless it is there, and answers its number.
///
/// An eliminator that is there costs no unit, and else its type those of one call of `infer_sort`. A level of `TOP` or more is
/// Denied with the part `Ty` and LevelTooHigh. A type that is too high is Deep before a unit is spent; then comes the checker's
/// refusal of it: Denied with `Ty`, Fuel or Deep. After an error the signature is as it was, and the units that were spent stay
/// spent.
pub fn instance(
    alloc: Global,
    sig: &mut Signature,
    fam: u32,
    m: u8,
    units: &mut Units,
) -> Result<u32, FamilyStop>
    requires signature { IsSettled sig.old }
    requires family { IsFamilyNumber sig.old fam }
    ensures answer { (f : pure.Family) → IsEntryAt sig.old fam (FamilyOf f) → Yields (spec.entered_at sig.new) result units.new.left (spec.instance_of sig.old fam f m units.old.left) }
    ensures err { OnErr result (sig.new ≡ sig.old) }
    ensures sum { units.new.left + units.new.spent ≡ units.old.left + units.old.spent }
    ensures spends { units.new.left ≤ units.old.left }
    ensures longer { IsPrefix sig.old sig.new }
    ensures well_formed { IsWellFormed sig.old → IsWellFormed sig.new }
    ensures settled { IsSettled sig.new }
    ensures denied { IfErr result (λ e. IsScopedStop (λ site. sig.old) (stop_of e)) }
{
    find_or_enter_eliminator(alloc, sig, fam, m, units)
}

fn find_or_enter_eliminator(
    alloc: Global,
    sig: &mut Signature,
    fam: u32,
    m: u8,
    units: &mut Units,
) -> Result<u32, FamilyStop>
    requires signature { IsSettled sig.old }
    requires family { IsFamilyNumber sig.old fam }
    ensures answer { (f : pure.Family) → IsEntryAt sig.old fam (FamilyOf f) → Yields (spec.entered_at sig.new) result units.new.left (spec.instance_of sig.old fam f m units.old.left) }
    ensures err { OnErr result (sig.new ≡ sig.old) }
    ensures sum { units.new.left + units.new.spent ≡ units.old.left + units.old.spent }
    ensures spends { units.new.left ≤ units.old.left }
{
    match sig.eliminator(fam, m) {
        Some(at) => Ok(at),
        None => enter_eliminator(alloc, sig, fam, m, units),
    }
}

/// Adds an eliminator that is not there yet.
fn enter_eliminator(
    alloc: Global,
    sig: &mut Signature,
    fam: u32,
    m: u8,
    units: &mut Units,
) -> Result<u32, FamilyStop>
    requires signature { IsSettled sig.old }
    requires family { IsFamilyNumber sig.old fam }
    ensures answer { (f : pure.Family) → IsEntryAt sig.old fam (FamilyOf f) → Yields (spec.entered_at sig.new) result units.new.left (spec.enter_instance sig.old (EliminatorAt fam m) (nat_lt m top) (eliminator_type fam f m) units.old.left) }
    ensures err { OnErr result (sig.new ≡ sig.old) }
    ensures sum { units.new.left + units.new.spent ≡ units.old.left + units.old.spent }
    ensures spends { units.new.left ≤ units.old.left }
{
    if m >= TOP {
        return Err(too_high(alloc));
    }
    let ty = type_of_eliminator(alloc, sig, fam, m)?;
    enter(alloc, sig, Entry::Elim(fam, m), &ty, units)
}

/// The type of the eliminator of family `fam` into `Type m`.
fn type_of_eliminator(alloc: Global, sig: &Signature, fam: u32, m: u8) -> Result<Term, Stop>
    requires signature { IsScopedSignature sig.now }
    requires family { IsFamilyNumber sig.now fam }
    ensures { (f : pure.Family) → IsEntryAt sig.now fam (FamilyOf f) → Gives tree_of result (bounded (eliminator_type fam f m)) }
{
    match sig.entry(fam) {
        Some(Entry::Family(family)) => elim_type(alloc, fam, family, m),
        _ => unreachable!(),
    }
}
