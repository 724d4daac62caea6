ghost use Rattle.std.specs.Prelude.{◌≡◌, ◌≤◌, ◌+◌};
ghost use Rattle.clause_reports.specs.DraftEntering as spec;
ghost use Rattle.drafts.specs.draft_entering.Conditions.{Extends, IsOpen};
ghost use Rattle.drafts.specs.draft_entering.Stops.{Reports};

use crate::draft_entering::ReportStop;
use crate::draft_entering::entering::enter_generated;
use crate::draft_entering::finding::generated_by;
use core_sig::Signature;
use core_terms::{Name, Units};
use std::alloc::Global;

/// How many generated drafts enter for each other at most.
const CHAIN: u32 = 4;

/// Adds the generated entry with the name, after all that it needs, unless the signature knows the name or no generated
/// entry has it. After an error some of the entries that it needs are there.
pub fn enter_named(
    alloc: Global,
    sig: &mut Signature,
    name: &Name,
    units: &mut Units,
) -> Result<(), ReportStop>
    requires { IsOpen sig.old }
    ensures answer { Reports (λ _. sig.new) result units.new.left (spec.enter_mention spec.enter_needed sig.old (spec.Names name.now) units.old.left) }
    ensures sum { units.new.left + units.new.spent ≡ units.old.left + units.old.spent }
    ensures spends { units.new.left ≤ units.old.left }
    ensures longer { Extends sig.old sig.new }
    ensures ready { IsOpen sig.new }
{
    if sig.find(name.as_slice()).is_some() {
        return Ok(());
    }
    match generated_by(sig, name.as_slice())? {
        None => Ok(()),
        Some(_) => enter_generated(alloc, CHAIN, sig, name, units),
    }
}
