//! The entries of a function are scoped drafts: its step and its helpers, and so all of them.
ghost use Rattle.exact_laws.specs.step_scopes.Laws.{DraftsScopedAfterPrelude, HelperScoped, PlanOrdered, StepScoped};

/// A plan has a context in its order of recursion.
pub fn plan_ordered()
    ensures { PlanOrdered }
{}

/// The step of a function by recursion is a scoped draft.
pub fn step_scoped()
    ensures { StepScoped }
{}

/// A helper is a scoped draft, with recursion and without.
pub fn helper_scoped()
    ensures { HelperScoped }
{}

/// Each draft of a plan is scoped.
pub fn drafts_scoped()
    ensures { DraftsScopedAfterPrelude }
{}
