//! The report of a clause is made as is meant, and the entries of a function are those that its reports need.
pub mod drafts_in_turn;
pub mod plan_drafts;

ghost use Rattle.function_session.specs.function_laws.report_laws.Functions.{PlanHasEntries};
ghost use Rattle.function_session.specs.function_laws.report_laws.Laws.{ReportIsMade};

use crate::plan_laws::{plan_is_of_function, plan_is_planned};
use drafts::draft_checks::laws::unmarked_is_open;

/// The report of a clause is made with each refusal that is meant, and with the same units.
pub fn report_is_made()
    ensures { ReportIsMade }
{}

/// Once the entries of a resolved function have entered, they are those that the reports of its clauses need.
pub fn plan_has_entries()
    ensures { PlanHasEntries }
{
    plan_is_of_function();
    plan_is_planned();
    unmarked_is_open();
}
