//! The declaration of families that refer to each other, phase by phase.
ghost use Rattle.std.specs.Prelude.{◌≡◌, ◌≤◌, ◌+◌, IfOk, OnErr, Ok, length};
ghost use Rattle.theory.specs.Signatures.{IsPrefix};
ghost use Rattle.core_terms.specs.Answers.{GivesUnless};
ghost use Rattle.core_sig.specs.Raw.{mutual_of};
ghost use Rattle.surface_syntax.specs.TreeMeanings.{decl_of};
ghost use Rattle.resolve.specs.Mutual.{IsMutual};
ghost use Rattle.elab_session.specs.Entering.{Declares};
ghost use Rattle.elab_session.specs.Refusals.{IsUnforeseen};
ghost use Rattle.elab_session.specs.Sessions.{IsReady};
ghost use Rattle.function_session.specs.Meanings.{Answers};
ghost use Rattle.function_session.specs.function_lines.Opened.{draft_in};
ghost use Rattle.function_session.specs.mutual_families.Conditions.{IsDeclared};
ghost use Rattle.function_session.specs.mutual_families.Declaring as spec;
ghost use Rattle.function_session.specs.mutual_families.Refusals as refusals;
ghost use Rattle.mutual_pack.specs.MutualFamilies.{packed_of};
ghost use Rattle.mutual_pack.specs.Packing as packing;

use crate::Accepted;
use crate::mutual_families::entering::enter_entries;
use crate::mutual_families::equations::check_equations;
use crate::mutual_families::inductions::enter_inductions;
use crate::mutual_families::lines::mutual_lines;
use crate::mutual_families::parameters::check_all;
use crate::mutual_families::refusing::unpacked;
use core_sig::{MutualRaw, Signature};
use core_terms::{Items, Units, copy_name};
use elab_session::Refusal;
use mutual_pack::{Packed, pack};
use resolve::{declared_word, resolve_mutual};
use std::alloc::Global;
use surface_syntax::{Decl, Word};

/// The declaration as one family over tags.
fn packed_by(alloc: Global, sig: &Signature, d: &MutualRaw) -> Result<Packed, Refusal>
    ensures { GivesUnless IsUnforeseen packed_of result (refusals.or_refused (refusals.unpacked (mutual_of d.now)) (packing.pack (length sig.now.entries) (mutual_of d.now))) }
{
    match pack(alloc, sig, d) {
        Ok(packed) => Ok(packed),
        Err(stop) => Err(unpacked(alloc, d, stop)),
    }
}

/// Adds what is packed and the inductions of the members, and compares the equations of these. After an error some entries are there.
fn enter_packed(
    alloc: Global,
    sig: &mut Signature,
    fuel: u64,
    x: &Word,
    d: &MutualRaw,
    packed: &Packed,
    units: &mut Units,
) -> Result<(), Refusal>
    requires ready { IsReady sig.old }
    requires declared { IsDeclared sig.old (mutual_of d.now) }
    requires packed { packing.pack (length sig.old.entries) (mutual_of d.now) ≡ Ok (packed_of packed.now) }
    ensures answer { Declares (λ _. sig.new) result units.new.left (spec.enter_packed draft_in sig.old fuel x.now (mutual_of d.now) (packed_of packed.now) units.old.left) }
    ensures sum { units.new.left + units.new.spent ≡ units.old.left + units.old.spent }
    ensures spends { units.new.left ≤ units.old.left }
    ensures longer { IsPrefix sig.old sig.new }
{
    enter_entries(alloc, sig, x.start, fuel, packed, units)?;
    enter_inductions(alloc, sig, fuel, x.text.as_slice(), packed, units)?;
    check_equations(alloc, sig, fuel, packed, d.members.as_slice(), units)?;
    Ok(())
}

/// Adds the entries of a resolved declaration. After an error some of them are there.
fn enter_mutual(
    alloc: Global,
    sig: &mut Signature,
    fuel: u64,
    x: &Word,
    d: &MutualRaw,
    units: &mut Units,
) -> Result<(), Refusal>
    requires ready { IsReady sig.old }
    requires declared { IsDeclared sig.old (mutual_of d.now) }
    ensures answer { Declares (λ _. sig.new) result units.new.left (spec.enter_mutual draft_in sig.old fuel x.now (mutual_of d.now) units.old.left) }
    ensures sum { units.new.left + units.new.spent ≡ units.old.left + units.old.spent }
    ensures spends { units.new.left ≤ units.old.left }
    ensures longer { IsPrefix sig.old sig.new }
{
    check_all(alloc, sig, fuel, x, d.params.as_slice(), units)?;
    let packed = packed_by(alloc, sig, d)?;
    enter_packed(alloc, sig, fuel, x, d, &packed, units)
}

/// Adds the entries of a resolved declaration, which may spend `fuel` units. After a refusal the signature is as it was.
fn enter_whole(
    alloc: Global,
    sig: &mut Signature,
    fuel: u64,
    x: &Word,
    d: &MutualRaw,
) -> Result<(), Refusal>
    requires ready { IsReady sig.old }
    requires declared { IsDeclared sig.old (mutual_of d.now) }
    ensures answer { GivesUnless IsUnforeseen (λ _. sig.new) result (spec.enter_mutual draft_in sig.old fuel x.now (mutual_of d.now) fuel).0 }
    ensures err { OnErr result (sig.new ≡ sig.old) }
{
    let before = sig.len();
    let mut units = Units {
        left: fuel,
        spent: 0,
        full: false,
    };
    match enter_mutual(alloc, sig, fuel, x, d, &mut units) {
        Ok(()) => Ok(()),
        Err(refusal) => {
            sig.truncate(before);
            Err(refusal)
        }
    }
}

/// Adds a resolved declaration under the first member's name, with a line for each constructor.
fn accept(
    alloc: Global,
    sig: &mut Signature,
    fuel: u64,
    x: &Word,
    d: &MutualRaw,
) -> Result<Accepted, Refusal>
    requires ready { IsReady sig.old }
    requires declared { IsDeclared sig.old (mutual_of d.now) }
    ensures answer { Answers sig.new result (spec.accepted_mutual x.now (mutual_of d.now) (spec.enter_mutual draft_in sig.old fuel x.now (mutual_of d.now) fuel).0) }
    ensures err { OnErr result (sig.new ≡ sig.old) }
    ensures begins { IfOk result (λ a. a.from ≡ length sig.old.entries) }
    ensures ends { IfOk result (λ a. a.to ≡ length sig.new.entries) }
{
    let Ok(mutual) = mutual_lines(alloc, d.members.as_slice()) else {
        return Err(Refusal::Memory);
    };
    let name = copy_name(alloc, &x.text)?;
    let from = sig.len();
    enter_whole(alloc, sig, fuel, x, d)?;
    Ok(Accepted {
        name,
        from,
        to: sig.len(),
        lines: Items::new(alloc),
        mutual,
    })
}

/// Adds the entries of families that refer to each other, which may spend `fuel` units. After a refusal the signature is as it was.
pub(crate) fn declare_mutual(
    alloc: Global,
    sig: &mut Signature,
    fuel: u64,
    d: &Decl,
) -> Result<Accepted, Refusal>
    requires ready { IsReady sig.old }
    requires written { IsMutual (decl_of d.now) }
    ensures answer { Answers sig.new result (spec.declare_mutual draft_in sig.old fuel (decl_of d.now)) }
    ensures err { OnErr result (sig.new ≡ sig.old) }
    ensures begins { IfOk result (λ a. a.from ≡ length sig.old.entries) }
    ensures ends { IfOk result (λ a. a.to ≡ length sig.new.entries) }
{
    let raw = resolve_mutual(alloc, sig, d)?;
    accept(alloc, sig, fuel, declared_word(d), &raw)
}
