ghost use Rattle.std.specs.Prelude.{◌≡◌, ◌++◌, Ok, map};
ghost use Rattle.core_terms.specs.Answers.{Gives};
ghost use Rattle.core_terms.specs.Meanings.{tele_of};
ghost use Rattle.clause_reports.specs.elaboration.Functions as spec;
ghost use Rattle.function_plans.specs.CodePlans.{chosen_made};
ghost use Rattle.function_checks.specs.function_refusals.RefusalMeanings.{Tells, failing_of};
ghost use Rattle.function_checks.specs.function_walks.WalkingMeanings.{session_of};
ghost use Rattle.tree_translation.specs.structural_rec.Meanings as choices;

use crate::smallness::{small_telescope, small_uses};
use core_terms::{Items, Stop, Tele, number_of};
use core_text::print_term;
use function_checks::function_refusals::{FailingCall, FunctionRefusal, owner_of};
use function_checks::function_walks::Session;
use leaf_terms::part_name;
use std::alloc::Global;
use tree_translation::structural_rec::{Choice, Failing, Use, choose_position};

/// A call that does not fit a position, as it is shown.
fn failing_call(alloc: Global, s: Session, row: &Failing) -> Result<FailingCall, Stop>
    ensures { Gives failing_of result (Ok (spec.failing_call (session_of s.entry) (choices.failing_of row.now))) }
{
    let function = part_name(alloc, s.name, row.function)?;
    let owner = owner_of(alloc, function.as_slice(), row.clause)?;
    Ok(FailingCall {
        position: number_of(row.position as usize + 1)?,
        owner,
        call: print_term(alloc, s.sig, &row.call)?,
    })
}

/// Calls that do not fit, as they are shown, after those that are made.
#[tactic(auto, using(tele_eq::proofs::Growing::growing))]
fn with_failing(
    alloc: Global,
    s: Session,
    rows: &[Failing],
    mut made: Items<FailingCall>,
) -> Result<Items<FailingCall>, Stop>
    ensures { Gives (map failing_of) result (Ok (map failing_of made ++ map (spec.failing_call (session_of s.entry)) (map choices.failing_of rows.now))) }
{
    match rows {
        [] => Ok(made),
        [row, rest @ ..] => {
            made.push(failing_call(alloc, s, row)?)?;
            with_failing(alloc, s, rest, made)
        }
    }
}

/// The position that is chosen, or the refusal where no position is usable.
pub fn position_chosen(
    alloc: Global,
    s: Session,
    choice: &Choice,
) -> Result<Option<u32>, FunctionRefusal>
    ensures { Tells (λ position. position) result (spec.position_chosen (session_of s.entry) (choices.choice_of choice.now)) }
{
    match choice {
        Choice::NotRecursive => Ok(None),
        Choice::At(j) => Ok(Some(*j)),
        Choice::NotSmaller(rows) => {
            let rows = with_failing(alloc, s, rows.as_slice(), Items::new(alloc))?;
            Err(FunctionRefusal::NotSmaller(rows))
        }
    }
}

/// The position that is chosen, or Deep where a term of the uses or a type of the telescope is too high.
pub fn chosen(
    alloc: Global,
    s: Session,
    tele: &Tele,
    uses: &Items<Use>,
) -> Result<Option<u32>, FunctionRefusal>
    ensures { Tells (λ position. position) result (chosen_made (session_of s.entry) (tele_of tele.now) (choices.uses_of uses.now)) }
{
    small_telescope(tele.as_slice())?;
    small_uses(uses.as_slice())?;
    let choice = choose_position(alloc, s.sig, tele, s.own, uses)?;
    position_chosen(alloc, s, &choice)
}
