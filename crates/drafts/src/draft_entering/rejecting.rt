ghost use Rattle.std.specs.Prelude.{◌≡◌, ℕ, List, Ok};
ghost use Rattle.clause_reports.specs.Stops as spec;
ghost use Rattle.core_text.specs.ContextText as texts;
ghost use Rattle.core_sig.specs.Drafts.{draft_of};
ghost use Rattle.core_terms.specs.Answers.{Gives, Unless};
ghost use Rattle.core_terms.specs.Meanings.{denial_of, reason_of, tele_of};
ghost use Rattle.drafts.specs.draft_entering.Depths.{settled_entry};
ghost use Rattle.drafts.specs.draft_entering.Stops.{IsUnforeseen, stop_of};
ghost use Rattle.family_check.specs.Meanings as family;
ghost use Rattle.theory.specs.Signatures.{AxiomKAt, Definition, EliminatorAt};
ghost use Rattle.theory.specs.Terms as tree;

use crate::draft_entering::ReportStop;
use crate::draft_entering::texts::{axiom_k_text, definition_text, eliminator_text};
use core_sig::{Draft, Entry, Signature, settle};
use core_terms::{Denial, Items, Name, Stop, Term};
use core_text::{context_text, print_term, reason_text};
use family_check::FamilyStop;
use std::alloc::Global;

/// The refusal of an entry that the checker rejects, with its evidence.
fn rejection(
    alloc: Global,
    sig: &Signature,
    entry: Name,
    line: Items<u8>,
    denial: Denial,
) -> Result<ReportStop, Stop>
    ensures { Gives stop_of result (Ok (spec.Rejected (record { entry = entry; line = line; place = denial.place; context = texts.context_text sig.now (tele_of denial.ctx); reason = texts.reason_text sig.now (reason_of denial.reason) }))) }
{
    let ctx = context_text(alloc, sig, denial.ctx.as_slice())?;
    let reason = reason_text(alloc, sig, &denial.reason)?;
    Ok(ReportStop::Rejected {
        entry,
        line,
        place: denial.place,
        ctx,
        reason,
    })
}

/// The stop itself, or Memory where there is none for it.
fn or_memory(made: Result<ReportStop, Stop>) -> ReportStop
    ensures { (meant : spec.ReportStop) → Gives stop_of made (Ok meant) → Unless (IsUnforeseen result) (stop_of result ≡ meant) }
{
    match made {
        Ok(stop) => stop,
        Err(_) => ReportStop::Stop(Stop::Memory),
    }
}

fn eliminator_rejection(
    alloc: Global,
    sig: &Signature,
    fam: u32,
    m: u8,
    denial: Denial,
) -> Result<ReportStop, Stop>
    ensures { Gives stop_of result (Ok (spec.Rejected (spec.rejection sig.now (EliminatorAt fam m) (denial_of denial)))) }
{
    let name = print_term(alloc, sig, &Term::Elim(fam, m))?;
    let line = eliminator_text(alloc, sig, fam, m)?;
    rejection(alloc, sig, Name::from_vec(name.into_vec()), line, denial)
}

fn axiom_k_rejection(
    alloc: Global,
    sig: &Signature,
    i: u8,
    m: u8,
    denial: Denial,
) -> Result<ReportStop, Stop>
    ensures { Gives stop_of result (Ok (spec.Rejected (spec.rejection sig.now (AxiomKAt i m) (denial_of denial)))) }
{
    let name = print_term(alloc, sig, &Term::AxiomK(i, m))?;
    let line = axiom_k_text(alloc, sig, i, m)?;
    rejection(alloc, sig, Name::from_vec(name.into_vec()), line, denial)
}

/// The refusal of a draft's definition, which is shown by its numbers in the signature.
fn definition_rejection(
    alloc: Global,
    sig: &Signature,
    draft: &Draft,
    denial: Denial,
) -> Result<ReportStop, Stop>
    ensures { (name : List ℕ) (type body : tree.Term) → settled_entry sig.now (draft_of draft.now) ≡ Definition name type body → Gives stop_of result (Ok (spec.Rejected (spec.rejection sig.now (Definition name type body) (denial_of denial)))) }
{
    match settle(alloc, sig, draft)? {
        Entry::Def { name, ty, body } => {
            let line = definition_text(alloc, sig, name.as_slice(), &ty, &body)?;
            rejection(alloc, sig, name, line, denial)
        }
        _ => Ok(ReportStop::Stop(Stop::Deep)),
    }
}

/// The refusal where an eliminator does not enter.
pub(crate) fn eliminator_denied(
    alloc: Global,
    sig: &Signature,
    fam: u32,
    m: u8,
    stop: FamilyStop,
) -> ReportStop
    ensures answer { Unless (IsUnforeseen result) (stop_of result ≡ spec.not_entered sig.now (EliminatorAt fam m) (family.stop_of stop)) }
    ensures memory { family.IsUnforeseen stop → IsUnforeseen result }
{
    match stop {
        FamilyStop::Stop(stop) => ReportStop::Stop(stop),
        FamilyStop::Denied { denial, .. } => {
            or_memory(eliminator_rejection(alloc, sig, fam, m, denial))
        }
        _ => ReportStop::Stop(Stop::Deep),
    }
}

/// The refusal where an axiom K does not enter.
pub(crate) fn axiom_k_denied(
    alloc: Global,
    sig: &Signature,
    i: u8,
    m: u8,
    stop: FamilyStop,
) -> ReportStop
    ensures answer { Unless (IsUnforeseen result) (stop_of result ≡ spec.not_entered sig.now (AxiomKAt i m) (family.stop_of stop)) }
    ensures memory { family.IsUnforeseen stop → IsUnforeseen result }
{
    match stop {
        FamilyStop::Stop(stop) => ReportStop::Stop(stop),
        FamilyStop::Denied { denial, .. } => {
            or_memory(axiom_k_rejection(alloc, sig, i, m, denial))
        }
        _ => ReportStop::Stop(Stop::Deep),
    }
}

/// The refusal where a definition does not enter.
pub(crate) fn definition_denied(
    alloc: Global,
    sig: &Signature,
    draft: &Draft,
    stop: FamilyStop,
) -> ReportStop
    ensures answer { (name : List ℕ) (type body : tree.Term) → settled_entry sig.now (draft_of draft.now) ≡ Definition name type body → Unless (IsUnforeseen result) (stop_of result ≡ spec.not_entered sig.now (Definition name type body) (family.stop_of stop)) }
    ensures memory { family.IsUnforeseen stop → IsUnforeseen result }
{
    match stop {
        FamilyStop::Stop(stop) => ReportStop::Stop(stop),
        FamilyStop::Denied { denial, .. } => {
            or_memory(definition_rejection(alloc, sig, draft, denial))
        }
        _ => ReportStop::Stop(Stop::Deep),
    }
}
