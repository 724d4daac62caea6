//! Whether the terms of declared families and of entries are low. No call takes memory.
ghost use Rattle.std.specs.Prelude.{◌≡◌, ◌≤◌, IsTrue, map};
ghost use Rattle.theory.specs.Terms as tree;
ghost use Rattle.core_terms.specs.Answers as answers;
ghost use Rattle.core_terms.specs.Meanings.{tree_of};
ghost use Rattle.core_sig.specs.Meanings.{entry_of};
ghost use Rattle.core_sig.specs.Raw.{raw_constructor_of, member_of};
ghost use Rattle.mutual_pack.specs.MutualFamilies.{packed_of};
ghost use Rattle.mutual_pack.specs.Fitting.{AreLowMembers, HaveLowTypes};
ghost use Rattle.mutual_pack.specs.Packing as spec;

use crate::Packed;
use core_sig::{Entry, RawCon, RawMember};
use core_terms::{MAX_HEIGHT, Term};

pub fn is_low(t: &Term) -> bool
    ensures is { result ≡ answers.is_low (tree_of t.now) }
    ensures low { IsTrue result → tree.height (tree_of t.now) ≤ 2000 }
{
    t.height() <= MAX_HEIGHT
}

fn have_low_types(cons: &[RawCon]) -> bool
    ensures is { result ≡ spec.have_low_types (map raw_constructor_of cons.now) }
    ensures low { IsTrue result → HaveLowTypes (map raw_constructor_of cons.now) }
{
    match cons {
        [] => true,
        [con, rest @ ..] => is_low(&con.ty) && have_low_types(rest),
    }
}

/// Whether the types of all constructors are low.
pub fn members_have_low_types(members: &[RawMember]) -> bool
    ensures is { result ≡ spec.members_have_low_types (map member_of members.now) }
    ensures low { IsTrue result → AreLowMembers (map member_of members.now) }
{
    match members {
        [] => true,
        [member, rest @ ..] => {
            have_low_types(member.cons.as_slice()) && members_have_low_types(rest)
        }
    }
}

fn is_low_entry(entry: &Entry) -> bool
    ensures { result ≡ spec.is_low_entry (entry_of entry.now) }
{
    match entry {
        Entry::Def { ty, body, .. } => is_low(ty) && is_low(body),
        _ => true,
    }
}

fn are_low_entries(entries: &[Entry]) -> bool
    ensures { result ≡ spec.are_low_entries (map entry_of entries.now) }
{
    match entries {
        [] => true,
        [entry, rest @ ..] => is_low_entry(entry) && are_low_entries(rest),
    }
}

/// Whether what is packed is low.
pub fn is_low_packed(packed: &Packed) -> bool
    ensures { result ≡ spec.is_low_packed (packed_of packed.now) }
{
    have_low_types(packed.family.cons.as_slice()) && are_low_entries(packed.members.as_slice())
}
