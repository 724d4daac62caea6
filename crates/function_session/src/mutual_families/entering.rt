//! The entries of what is packed: the tag family, the packed family, and the definitions of the members.
ghost use Rattle.std.specs.Prelude.{◌≡◌, ◌≤◌, ◌+◌, map, Ok};
ghost use Rattle.theory.specs.Signatures.{IsPrefix};
ghost use Rattle.core_terms.specs.Answers.{Gives};
ghost use Rattle.core_terms.specs.Meanings.{tree_of};
ghost use Rattle.core_sig.specs.Meanings.{entry_of};
ghost use Rattle.core_sig.specs.Raw.{raw_of};
ghost use Rattle.core_text.specs.RawEntries.{RawDefinition, RawFamilyOf, entry_shown};
ghost use Rattle.elab_session.specs.Entering.{CanEnter, Declares, enter_with};
ghost use Rattle.elab_session.specs.Meanings.{definition_of};
ghost use Rattle.elab_session.specs.Sessions.{IsReady};
ghost use Rattle.family_check.specs.Entering.{entered_at};
ghost use Rattle.function_session.specs.mutual_families.Conditions.{AreScopedDefinitions, CanEnterPacked, IsScopedDefinition};
ghost use Rattle.function_session.specs.mutual_families.Entering as spec;
ghost use Rattle.mutual_pack.specs.MutualFamilies.{packed_of};

use crate::mutual_families::copying::copy_raw;
use core_sig::{Entry, RawFamily, Signature};
use core_terms::{Name, Stop, Term, Units, copy_name, copy_whole};
use elab_session::{Definition, RawEntry, Refusal, enter_raw};
use mutual_pack::Packed;
use std::alloc::Global;

/// Adds a family as it is declared.
fn enter_family(
    alloc: Global,
    sig: &mut Signature,
    start: u32,
    fuel: u64,
    raw: &RawFamily,
    units: &mut Units,
) -> Result<u32, Refusal>
    requires ready { IsReady sig.old }
    requires can { CanEnter sig.old (RawFamilyOf (raw_of raw.now)) }
    ensures answer { Declares (entered_at sig.new) result units.new.left (enter_with sig.old start fuel (RawFamilyOf (raw_of raw.now)) units.old.left) }
    ensures sum { units.new.left + units.new.spent ≡ units.old.left + units.old.spent }
    ensures spends { units.new.left ≤ units.old.left }
    ensures longer { IsPrefix sig.old sig.new }
    ensures ready { IsReady sig.new }
{
    let Ok(raw) = copy_raw(alloc, raw) else {
        return Err(Refusal::Memory);
    };
    enter_raw(alloc, sig, start, fuel, RawEntry::Family(raw), units)
}

/// A copy of a definition.
fn copy_definition(alloc: Global, name: &Name, ty: &Term, body: &Term) -> Result<Definition, Stop>
    ensures { Gives definition_of result (Ok (RawDefinition name.now (tree_of ty.now) (tree_of body.now))) }
{
    let name = copy_name(alloc, name)?;
    let ty = copy_whole(alloc, ty)?;
    let body = copy_whole(alloc, body)?;
    Ok(Definition { name, ty, body })
}

/// Adds the definition of a member.
fn enter_member(
    alloc: Global,
    sig: &mut Signature,
    start: u32,
    fuel: u64,
    member: &Entry,
    units: &mut Units,
) -> Result<u32, Refusal>
    requires ready { IsReady sig.old }
    requires can { IsScopedDefinition sig.old (entry_of member.now) }
    ensures answer { Declares (entered_at sig.new) result units.new.left (enter_with sig.old start fuel (entry_shown 0 (entry_of member.now)) units.old.left) }
    ensures sum { units.new.left + units.new.spent ≡ units.old.left + units.old.spent }
    ensures spends { units.new.left ≤ units.old.left }
    ensures longer { IsPrefix sig.old sig.new }
    ensures ready { IsReady sig.new }
{
    match member {
        Entry::Def { name, ty, body } => {
            let Ok(definition) = copy_definition(alloc, name, ty, body) else {
                return Err(Refusal::Memory);
            };
            enter_raw(alloc, sig, start, fuel, RawEntry::Def(definition), units)
        }
        _ => unreachable!(),
    }
}

/// Adds the definitions of members, one after the other.
fn enter_members(
    alloc: Global,
    sig: &mut Signature,
    start: u32,
    fuel: u64,
    members: &[Entry],
    units: &mut Units,
) -> Result<(), Refusal>
    requires ready { IsReady sig.old }
    requires can { AreScopedDefinitions sig.old (map entry_of members.now) }
    ensures answer { Declares (λ _. sig.new) result units.new.left (spec.entries_entered sig.old start fuel (map (entry_shown 0) (map entry_of members.now)) units.old.left) }
    ensures sum { units.new.left + units.new.spent ≡ units.old.left + units.old.spent }
    ensures spends { units.new.left ≤ units.old.left }
    ensures longer { IsPrefix sig.old sig.new }
    ensures ready { IsReady sig.new }
{
    match members {
        [] => Ok(()),
        [member, rest @ ..] => {
            enter_member(alloc, sig, start, fuel, member, units)?;
            enter_members(alloc, sig, start, fuel, rest, units)
        }
    }
}

/// Adds the entries of what is packed. After an error some of them are there.
pub(crate) fn enter_entries(
    alloc: Global,
    sig: &mut Signature,
    start: u32,
    fuel: u64,
    packed: &Packed,
    units: &mut Units,
) -> Result<(), Refusal>
    requires ready { IsReady sig.old }
    requires can { CanEnterPacked sig.old (packed_of packed.now) }
    ensures answer { Declares (λ _. sig.new) result units.new.left (spec.entries_entered sig.old start fuel (spec.packed_entries (packed_of packed.now)) units.old.left) }
    ensures sum { units.new.left + units.new.spent ≡ units.old.left + units.old.spent }
    ensures spends { units.new.left ≤ units.old.left }
    ensures longer { IsPrefix sig.old sig.new }
    ensures ready { IsReady sig.new }
{
    enter_family(alloc, sig, start, fuel, &packed.tag, units)?;
    enter_family(alloc, sig, start, fuel, &packed.family, units)?;
    enter_members(alloc, sig, start, fuel, packed.members.as_slice(), units)
}
