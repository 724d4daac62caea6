//! Scoping: the states of runs, their turns and outcomes, and the context after a solution are scoped.
ghost use Rattle.unification.specs.Laws.{OutcomeScoped, SolvedContext, StartScoped, TurnScoped};

/// The state from which a scoped problem is solved.
pub fn start_scoped()
    ensures { StartScoped }
{}

/// Each turn of a scoped state.
pub fn turn_scoped()
    ensures { TurnScoped }
{}

/// The outcome of a scoped problem.
pub fn outcome_scoped()
    ensures { OutcomeScoped }
{}

/// The context after a solution.
pub fn solved_context()
    ensures { SolvedContext }
{}
