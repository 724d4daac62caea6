ghost use Rattle.std.specs.Prelude.{◌≡◌};
ghost use Rattle.std.specs.Option.{option_copied};
ghost use Rattle.core_terms.specs.Answers.{Unless};
ghost use Rattle.core_terms.specs.Meanings.{denial_of};
ghost use Rattle.core_sig.specs.Raw as plain;
ghost use Rattle.family_check.specs.Meanings.{site_of, stop_of};
ghost use Rattle.family_check.specs.Scopes.{site_signature};
ghost use Rattle.elab_session.specs.Refusals as refusals;

use crate::Refusal;
use crate::refusing::{denied_part, refusal};
use core_sig::Signature;
use core_terms::{Denial, Name};
use family_check::{FamilyStop, Site};
use std::alloc::Global;
use surface_syntax::Word;

/// The refusal of a family.
pub(crate) fn refuse_family(
    alloc: Global,
    sig: &Signature,
    fuel: u64,
    x: &Word,
    names: &[Name],
    stop: FamilyStop,
) -> Refusal
    ensures { (raw : plain.RawFamily) → raw.name ≡ x.now.text → Unless (refusals.IsUnforeseen result) (result ≡ refusals.unentered (site_signature sig.now raw) names.now (Some x.now) fuel (stop_of stop)) }
{
    match stop {
        FamilyStop::Denied { part, denial } => deny_part(alloc, sig, x, names, part, denial),
        stop => refusal(alloc, sig, names, Some(x), fuel, stop),
    }
}

/// The denial of a part of a family. Its texts are over the signature, with the family as a name alone where the part is a
/// constructor.
fn deny_part(
    alloc: Global,
    sig: &Signature,
    x: &Word,
    names: &[Name],
    part: Site,
    denial: Denial,
) -> Refusal
    ensures { (raw : plain.RawFamily) → raw.name ≡ x.now.text → Unless (refusals.IsUnforeseen result) (result ≡ refusals.ill_typed (site_signature sig.now raw (site_of part)) (refusals.part_of names.now (site_of part)) (denial_of denial)) }
{
    match denied_part(alloc, sig, own_at(x, part), names, part, denial) {
        Ok(refusal) => refusal,
        Err(_) => Refusal::Memory,
    }
}

/// The name of the family, where the part is a constructor.
fn own_at(x: &Word, part: Site) -> Option<&[u8]>
    ensures { option_copied result ≡ refusals.own_at x.now.text (site_of part) }
{
    match part {
        Site::Con(_) => Some(x.text.as_slice()),
        Site::Ty | Site::Body | Site::Param(_) => None,
    }
}
