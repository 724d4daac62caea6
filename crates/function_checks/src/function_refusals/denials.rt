ghost use Rattle.std.specs.Prelude.{◌≡◌, ℕ, Ok};
ghost use Rattle.core_terms.specs.Answers.{Gives, Runs, Spent, Unless};
ghost use Rattle.core_terms.specs.Meanings.{denial_of, tree_of, verdict_of};
ghost use Rattle.core_terms.specs.Verdicts as pure;
ghost use Rattle.clause_reports.specs.elaboration.Refusals as spec;
ghost use Rattle.function_checks.specs.function_refusals.RefusalMeanings.{Elaborates, IsUnforeseen, part_of, refusal_of};

use crate::function_refusals::refusal::{FunctionRefusal, WrittenPart, or_memory};
use core_sig::Signature;
use core_terms::{Denial, Items, Reason, Stop, Term, Verdict};
use core_text::{context_text, reason_text};
use std::alloc::Global;

/// The refusal of a part that the checker rejects, or a stop while its evidence is written.
fn shown(
    alloc: Global,
    sig: &Signature,
    part: WrittenPart,
    denial: Denial,
) -> Result<FunctionRefusal, Stop>
    ensures { Gives refusal_of result (Ok (spec.ill_typed sig.now (part_of part) (denial_of denial))) }
{
    let ctx = context_text(alloc, sig, denial.ctx.as_slice())?;
    let reason = reason_text(alloc, sig, &denial.reason)?;
    Ok(FunctionRefusal::IllTyped {
        part,
        place: denial.place,
        ctx,
        reason,
    })
}

/// The refusal of a part that the checker rejects.
pub fn ill_typed(
    alloc: Global,
    sig: &Signature,
    part: WrittenPart,
    denial: Denial,
) -> FunctionRefusal
    ensures { Unless (IsUnforeseen result) (refusal_of result ≡ spec.ill_typed sig.now (part_of part) (denial_of denial)) }
{
    or_memory(shown(alloc, sig, part, denial))
}

/// The checker's answer for a part: its type, or the refusal where it rejects the part.
pub fn granted(
    alloc: Global,
    sig: &Signature,
    part: WrittenPart,
    answer: Result<Verdict, Stop>,
) -> Result<Term, FunctionRefusal>
    ensures { (left : ℕ) (meant : Spent pure.Verdict) → Runs verdict_of answer left meant → Elaborates tree_of result left (spec.granted sig.now (part_of part) meant) }
{
    match answer {
        Ok(Verdict::Yes(ty)) => Ok(ty),
        Ok(Verdict::No(denial)) => Err(ill_typed(alloc, sig, part, denial)),
        Err(e) => Err(FunctionRefusal::Stop(e)),
    }
}

/// The refusal of a part whose level is too high.
pub fn level_too_high(
    alloc: Global,
    sig: &Signature,
    part: WrittenPart,
    level: u8,
    greatest: u8,
) -> FunctionRefusal
    ensures { Unless (IsUnforeseen result) (refusal_of result ≡ spec.level_too_high sig.now (part_of part) level greatest) }
{
    let denial = Denial {
        place: Items::new(alloc),
        ctx: Items::new(alloc),
        reason: Reason::Mismatch {
            found: Term::Sort(level),
            wanted: Term::Sort(greatest),
        },
    };
    ill_typed(alloc, sig, part, denial)
}
