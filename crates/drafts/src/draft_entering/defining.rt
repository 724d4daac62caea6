ghost use Rattle.std.specs.Prelude.{◌≡◌, ◌≤◌, ◌+◌, [], IfOk};
ghost use Rattle.clause_reports.specs.DraftEntering as spec;
ghost use Rattle.core_sig.specs.Drafts.{draft_of};
ghost use Rattle.core_sig.specs.EntryTerms.{EachTerm};
ghost use Rattle.drafts.specs.draft_entering.Conditions.{Extends, IsDefined};
ghost use Rattle.drafts.specs.draft_entering.Depths.{own_name, settled_entry};
ghost use Rattle.drafts.specs.draft_entering.Stops.{Reports};
ghost use Rattle.family_check.specs.Entering.{entered_at};
ghost use Rattle.family_check.specs.Scopes.{IsSettled};
ghost use Rattle.theory.specs.SignatureScopes.{IsScoped};

use crate::draft_entering::ReportStop;
use crate::draft_entering::rejecting::definition_denied;
use core_sig::{Draft, Entry, Signature, settle};
use core_terms::{Stop, Units};
use family_check::define;
use std::alloc::Global;

/// Adds a draft's definition, by its numbers in the signature. Deep where the draft is no definition.
pub(crate) fn enter_entry(
    alloc: Global,
    sig: &mut Signature,
    draft: &Draft,
    units: &mut Units,
) -> Result<u32, ReportStop>
    requires settled { IsSettled sig.old }
    requires scoped { EachTerm (IsScoped sig.old) (settled_entry sig.old (draft_of draft.now)) }
    ensures answer { Reports (entered_at sig.new) result units.new.left (spec.enter_entry sig.old (settled_entry sig.old (draft_of draft.now)) units.old.left) }
    ensures sum { units.new.left + units.new.spent ≡ units.old.left + units.old.spent }
    ensures spends { units.new.left ≤ units.old.left }
    ensures longer { Extends sig.old sig.new }
    ensures settled { IsSettled sig.new }
    ensures named { IfOk result (λ _. IsDefined sig.new (own_name (draft_of draft.now))) }
{
    match settle(alloc, sig, draft)? {
        Entry::Def { name, ty, body } => match define(alloc, sig, name, ty, body, units) {
            Ok(number) => Ok(number),
            Err(stop) => Err(definition_denied(alloc, sig, draft, stop)),
        },
        _ => Err(ReportStop::Stop(Stop::Deep)),
    }
}
