//! The drafts of a function enter in turn.
ghost use Rattle.function_session.specs.function_laws.report_laws.drafts_in_turn.Laws.{FunctionEntersInTurn, FunctionNamesEnter};

use crate::function_laws::report_laws::plan_drafts::function_drafts_tested;
use crate::plan_laws::{plan_is_of_function, plan_is_planned};
use drafts::draft_checks::laws::{enterable_may_enter, unmarked_is_open};
use drafts::entering_laws::entered_is_open;

/// The names of the drafts of a function enter in turn.
pub fn function_names_enter()
    ensures { FunctionNamesEnter }
{
    plan_is_of_function();
    plan_is_planned();
}

/// So its drafts enter in turn.
pub fn function_enters_in_turn()
    ensures { FunctionEntersInTurn }
{
    function_names_enter();
    function_drafts_tested();
    entered_is_open();
    unmarked_is_open();
    enterable_may_enter();
}
