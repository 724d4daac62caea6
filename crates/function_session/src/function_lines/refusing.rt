ghost use Rattle.std.specs.Prelude.{◌≡◌, Ok};
ghost use Rattle.clause_reports.specs.Stops as pure;
ghost use Rattle.core_terms.specs.Answers.{Gives, Unless};
ghost use Rattle.core_terms.specs.Meanings.{tree_of, tele_of};
ghost use Rattle.drafts.specs.draft_entering.Stops as stops;
ghost use Rattle.clause_reports.specs.elaboration.Refusals as spec;
ghost use Rattle.function_checks.specs.function_refusals.RefusalMeanings.{IsUnforeseen, refusal_of};

use core_sig::Signature;
use core_terms::{Stop, Term};
use core_text::{context_text, print_term};
use drafts::draft_entering::ReportStop;
use function_checks::function_refusals::{FunctionRefusal, or_memory, owner_of};
use std::alloc::Global;
use unification::Why;

/// The refusal where the walk through the tree does not go on, with its evidence.
fn stuck(
    alloc: Global,
    sig: &Signature,
    function: &[u8],
    clause: u32,
    ctx: &[Term],
    left: &Term,
    right: &Term,
    why: Why,
) -> Result<FunctionRefusal, Stop>
    ensures { Gives refusal_of result (Ok (spec.of_report sig.now (spec.owner_of function.now clause) (pure.Stuck (tele_of ctx.now) (tree_of left.now) (tree_of right.now) why))) }
{
    Ok(FunctionRefusal::Stuck {
        owner: owner_of(alloc, function, clause)?,
        ctx: context_text(alloc, sig, ctx)?,
        left: print_term(alloc, sig, left)?,
        right: print_term(alloc, sig, right)?,
        why,
    })
}

/// The refusal where a draft does not enter or a clause of a function or helper has no line.
pub(crate) fn refused(
    alloc: Global,
    sig: &Signature,
    function: &[u8],
    clause: u32,
    stop: ReportStop,
) -> FunctionRefusal
    ensures answer { Unless (IsUnforeseen result) (refusal_of result ≡ spec.of_report sig.now (spec.owner_of function.now clause) (stops.stop_of stop)) }
    ensures memory { stops.IsUnforeseen stop → IsUnforeseen result }
{
    match stop {
        ReportStop::Stop(e) => FunctionRefusal::Stop(e),
        ReportStop::Stuck {
            ctx,
            left,
            right,
            why,
        } => or_memory(stuck(
            alloc,
            sig,
            function,
            clause,
            ctx.as_slice(),
            &left,
            &right,
            why,
        )),
        ReportStop::Rejected {
            entry,
            line,
            place,
            ctx,
            reason,
        } => FunctionRefusal::Rejected {
            entry,
            line,
            place,
            ctx,
            reason,
        },
    }
}
