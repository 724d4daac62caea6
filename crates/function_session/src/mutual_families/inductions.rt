//! The entries of the inductions of members.
ghost use Rattle.std.specs.Prelude.{◌≡◌, ◌≤◌, ◌+◌, IfOk, map};
ghost use Rattle.theory.specs.Signatures.{IsPrefix};
ghost use Rattle.core_sig.specs.Drafts.{draft_of};
ghost use Rattle.drafts.specs.draft_entering.Conditions.{IsEnterableDraft};
ghost use Rattle.elab_session.specs.Entering.{Declares};
ghost use Rattle.elab_session.specs.Sessions.{IsReady};
ghost use Rattle.function_session.specs.Refusals as refusals;
ghost use Rattle.function_session.specs.function_lines.Opened.{draft_in};
ghost use Rattle.function_session.specs.mutual_families.Conditions.{AreEnterableLater, HasPackedFor};
ghost use Rattle.function_session.specs.mutual_families.Entering as spec;
ghost use Rattle.function_session.specs.mutual_families.Refusals.{refused_with};
ghost use Rattle.mutual_pack.specs.MutualFamilies.{packed_of};

use crate::function_lines::enter_opened;
use crate::refusing::refused_function;
use core_sig::{Draft, Signature};
use core_terms::Units;
use elab_session::{Refusal, stopped};
use mutual_pack::{Packed, induction_entries};
use std::alloc::Global;

/// Adds a draft of the declaration with the name.
fn enter_draft(
    alloc: Global,
    sig: &mut Signature,
    fuel: u64,
    name: &[u8],
    draft: &Draft,
    units: &mut Units,
) -> Result<(), Refusal>
    requires ready { IsReady sig.old }
    requires draft { IsEnterableDraft sig.old (draft_of draft.now) }
    ensures answer { Declares (λ _. sig.new) result units.new.left (refused_with (refusals.refused_function fuel) (draft_in sig.old name.now (draft_of draft.now) units.old.left)) }
    ensures sum { units.new.left + units.new.spent ≡ units.old.left + units.old.spent }
    ensures spends { units.new.left ≤ units.old.left }
    ensures longer { IsPrefix sig.old sig.new }
    ensures ready { IfOk result (λ _. IsReady sig.new) }
{
    match enter_opened(alloc, sig, name, draft, units) {
        Ok(()) => Ok(()),
        Err(refusal) => Err(refused_function(alloc, fuel, refusal)),
    }
}

/// Adds drafts of the declaration with the name, one after the other.
fn enter_drafts(
    alloc: Global,
    sig: &mut Signature,
    fuel: u64,
    name: &[u8],
    drafts: &[Draft],
    units: &mut Units,
) -> Result<(), Refusal>
    requires ready { IsReady sig.old }
    requires drafts { AreEnterableLater sig.old (map draft_of drafts.now) }
    ensures answer { Declares (λ _. sig.new) result units.new.left (spec.drafts_entered draft_in sig.old fuel name.now (map draft_of drafts.now) units.old.left) }
    ensures sum { units.new.left + units.new.spent ≡ units.old.left + units.old.spent }
    ensures spends { units.new.left ≤ units.old.left }
    ensures longer { IsPrefix sig.old sig.new }
    ensures ready { IfOk result (λ _. IsReady sig.new) }
{
    match drafts {
        [] => Ok(()),
        [draft, rest @ ..] => {
            enter_draft(alloc, sig, fuel, name, draft, units)?;
            enter_drafts(alloc, sig, fuel, name, rest, units)
        }
    }
}

/// Adds the inductions of the members of what is packed, and the entries that these need. After an error some of them are there.
pub(crate) fn enter_inductions(
    alloc: Global,
    sig: &mut Signature,
    fuel: u64,
    name: &[u8],
    packed: &Packed,
    units: &mut Units,
) -> Result<(), Refusal>
    requires ready { IsReady sig.old }
    requires has { HasPackedFor sig.old (packed_of packed.now) }
    ensures answer { Declares (λ _. sig.new) result units.new.left (spec.inductions_entered draft_in sig.old fuel name.now (packed_of packed.now) units.old.left) }
    ensures sum { units.new.left + units.new.spent ≡ units.old.left + units.old.spent }
    ensures spends { units.new.left ≤ units.old.left }
    ensures longer { IsPrefix sig.old sig.new }
    ensures ready { IfOk result (λ _. IsReady sig.new) }
{
    match induction_entries(alloc, sig, packed) {
        Ok(drafts) => enter_drafts(alloc, sig, fuel, name, drafts.as_slice(), units),
        Err(stop) => Err(stopped(fuel, stop)),
    }
}
