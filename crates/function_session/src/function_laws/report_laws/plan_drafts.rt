//! The drafts of a resolved function: they are scoped, and are made.
ghost use Rattle.function_session.specs.function_laws.report_laws.plan_drafts.Laws.{FunctionDraftsScoped, FunctionDraftsTested, FunctionEntriesMade};

use crate::plan_laws::{plan_is_of_function, plan_is_planned, plan_stands_apart};
use exact_laws::deep_laws::translate_is_exact;
use exact_laws::step_scopes::drafts_scoped;

/// The drafts of a resolved function are scoped.
pub fn function_drafts_scoped()
    ensures { FunctionDraftsScoped }
{
    plan_is_of_function();
    plan_is_planned();
    drafts_scoped();
}

/// The drafts of a resolved function may enter wherever their names may.
pub fn function_drafts_tested()
    ensures { FunctionDraftsTested }
{
    plan_is_of_function();
    plan_is_planned();
    drafts_scoped();
}

/// The code's answer for the plan of a resolved function is the plan's translation.
pub fn function_entries_made()
    ensures { FunctionEntriesMade }
{
    plan_is_of_function();
    plan_is_planned();
    plan_stands_apart();
    translate_is_exact();
}
