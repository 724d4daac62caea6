ghost use Rattle.std.specs.Prelude.{◌≡◌, ◌≤◌, ◌+◌, ℕ, true, [], ◌∷◌, OnErr};
ghost use Rattle.theory.specs.Signatures.{names_of};
ghost use Rattle.core_terms.specs.Meanings.{tree_of};
ghost use Rattle.core_terms.specs.Verdicts as verdicts;
ghost use Rattle.core_sig.specs.EntryIds.{CanStand};
ghost use Rattle.core_sig.specs.Kinds.{HasEntryKinds};
ghost use Rattle.core_sig.specs.Meanings.{entry_of};
ghost use Rattle.kernel_reduce.specs.WellScoped.{AreWellScoped};
ghost use Rattle.family_check.specs.Entering as spec;
ghost use Rattle.family_check.specs.Meanings.{Yields, stop_of};
ghost use Rattle.family_check.specs.Outcomes as outcomes;

use crate::asking::sort_in;
use crate::{FamilyStop, Site};
use core_sig::{Entry, Signature};
use core_terms::{Denial, Items, Reason, Term, Units};
use std::alloc::Global;

/// Adds an instance with the given type, which brings no names.
pub(crate) fn enter(
    alloc: Global,
    sig: &mut Signature,
    entry: Entry,
    ty: &Term,
    units: &mut Units,
) -> Result<u32, FamilyStop>
    requires asked { AreWellScoped sig.old [] (tree_of ty.now ∷ []) }
    requires nameless { names_of (entry_of entry) ≡ [] }
    requires kinds { (n : ℕ) → HasEntryKinds n entry }
    requires can { CanStand sig.old.entries (entry_of entry) }
    ensures answer { Yields (spec.entered_at sig.new) result units.new.left (spec.enter_instance sig.old (entry_of entry) true (tree_of ty.now) units.old.left) }
    ensures err { OnErr result (sig.new ≡ sig.old) }
    ensures sum { units.new.left + units.new.spent ≡ units.old.left + units.old.spent }
    ensures spends { units.new.left ≤ units.old.left }
{
    let ctx = Items::new(alloc);
    sort_in(alloc, sig, &ctx, ty, Site::Ty, units)?;
    Ok(sig.push(entry)?)
}

/// The denial of an instance whose level is too high.
pub(crate) fn too_high(alloc: Global) -> FamilyStop
    ensures { stop_of result ≡ outcomes.Denied outcomes.OfType (record { place = []; ctx = []; reason = verdicts.LevelTooHigh }) }
{
    let denial = Denial {
        place: Items::new(alloc),
        ctx: Items::new(alloc),
        reason: Reason::LevelTooHigh,
    };
    FamilyStop::Denied {
        part: Site::Ty,
        denial,
    }
}
