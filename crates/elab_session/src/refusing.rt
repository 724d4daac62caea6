ghost use Rattle.std.specs.Prelude.{◌≡◌, Ok};
ghost use Rattle.std.specs.Option.{option_copied};
ghost use Rattle.core_terms.specs.Answers.{Gives, Unless};
ghost use Rattle.core_terms.specs.Meanings.{denial_of};
ghost use Rattle.core_text.specs.SymbolNames.{with_own};
ghost use Rattle.family_check.specs.Meanings.{site_of, stop_of};
ghost use Rattle.elab_session.specs.Refusals as spec;

use crate::{PartName, Refusal};
use core_sig::Signature;
use core_terms::{Denial, Name, Stop, copy_name};
use core_text::{context_text_with, reason_text_with};
use family_check::{FamilyStop, Site};
use std::alloc::Global;
use surface_syntax::Word;

/// The refusal of a declaration that may spend `fuel` units.
pub fn stopped(fuel: u64, stop: Stop) -> Refusal
    ensures { result ≡ spec.stopped fuel stop }
{
    match stop {
        Stop::Memory | Stop::PoolFull => Refusal::Memory,
        Stop::Fuel => Refusal::Fuel(fuel),
        Stop::Deep => Refusal::Deep,
    }
}

/// The name of a constructor among those that are declared.
fn name_in(alloc: Global, names: &[Name], number: u32) -> Result<Name, Stop>
    ensures { Gives (λ name. name) result (Ok (spec.name_in names.now number)) }
{
    match names.get(number as usize) {
        Some(name) => Ok(copy_name(alloc, name)?),
        None => Ok(Name::from_vec(Vec::new(alloc))),
    }
}

fn part_of(alloc: Global, names: &[Name], site: Site) -> Result<PartName, Stop>
    ensures { Gives (λ part. part) result (Ok (spec.part_of names.now (site_of site))) }
{
    match site {
        Site::Ty => Ok(PartName::Ty),
        Site::Body => Ok(PartName::Body),
        Site::Param(k) => Ok(PartName::Param(k)),
        Site::Con(number) => Ok(PartName::Con(name_in(alloc, names, number)?)),
    }
}

/// The checker rejects a part. `own` is the name of the declaration, where the texts name it.
fn ill_typed(
    alloc: Global,
    sig: &Signature,
    own: Option<&[u8]>,
    part: PartName,
    denial: Denial,
) -> Result<Refusal, Stop>
    ensures { Gives (λ refusal. refusal) result (Ok (spec.ill_typed (with_own sig.now (option_copied own.entry)) part (denial_of denial))) }
{
    let ctx = context_text_with(alloc, sig, own, denial.ctx.as_slice())?;
    let reason = reason_text_with(alloc, sig, own, &denial.reason)?;
    Ok(Refusal::IllTyped {
        part,
        place: denial.place,
        ctx,
        reason,
    })
}

/// The checker rejects what is written at the site. `own` is the name of the declaration, where the texts name it.
pub(crate) fn denied_part(
    alloc: Global,
    sig: &Signature,
    own: Option<&[u8]>,
    names: &[Name],
    site: Site,
    denial: Denial,
) -> Result<Refusal, Stop>
    ensures { Gives (λ refusal. refusal) result (Ok (spec.ill_typed (with_own sig.now (option_copied own.entry)) (spec.part_of names.now (site_of site)) (denial_of denial))) }
{
    let part = part_of(alloc, names, site)?;
    ill_typed(alloc, sig, own, part, denial)
}

/// The declared name is not new.
fn not_new(alloc: Global, x: Option<&Word>) -> Result<Refusal, Stop>
    ensures { Gives (λ refusal. refusal) result (Ok (spec.not_new (option_copied x.entry))) }
{
    match x {
        Some(x) => Ok(Refusal::Duplicate(x.start, copy_name(alloc, &x.text)?)),
        None => Ok(Refusal::Memory),
    }
}

/// A refusal of entering, with texts over one signature.
fn unentered(
    alloc: Global,
    sig: &Signature,
    names: &[Name],
    x: Option<&Word>,
    fuel: u64,
    stop: FamilyStop,
) -> Result<Refusal, Stop>
    ensures { Gives (λ refusal. refusal) result (Ok (spec.unentered (λ site. sig.now) names.now (option_copied x.entry) fuel (stop_of stop))) }
{
    match stop {
        FamilyStop::Stop(stop) => Ok(stopped(fuel, stop)),
        FamilyStop::Denied { part, denial } => denied_part(alloc, sig, None, names, part, denial),
        FamilyStop::NotPositive(number, k) => {
            Ok(Refusal::NotPositive(name_in(alloc, names, number)?, k))
        }
        FamilyStop::TooLarge(None, k) => Ok(Refusal::IndexTooLarge(None, k)),
        FamilyStop::TooLarge(Some(number), k) => {
            let name = name_in(alloc, names, number)?;
            Ok(Refusal::IndexTooLarge(Some(name), k))
        }
        FamilyStop::BadFamily => Ok(Refusal::BadFamily),
        FamilyStop::Duplicate => not_new(alloc, x),
    }
}

/// A refusal of entering, with texts over one signature, or Memory where there is none for these.
pub fn refusal(
    alloc: Global,
    sig: &Signature,
    names: &[Name],
    x: Option<&Word>,
    fuel: u64,
    stop: FamilyStop,
) -> Refusal
    ensures { Unless (spec.IsUnforeseen result) (result ≡ spec.unentered (λ site. sig.now) names.now (option_copied x.entry) fuel (stop_of stop)) }
{
    match unentered(alloc, sig, names, x, fuel, stop) {
        Ok(refusal) => refusal,
        Err(_) => Refusal::Memory,
    }
}
