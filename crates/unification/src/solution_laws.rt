//! The laws of solutions: a solved problem is unified.
ghost use Rattle.unification.specs.Laws.{RunUnifies, SolvedIsUnified};

/// The two sides of each equation of a solved problem convert under its solution, where its injectivities are coherent.
pub fn solved_is_unified()
    ensures { SolvedIsUnified }
{}

/// If the run of a problem answers that it is solved, the two sides of each equation convert under its solution.
pub fn run_unifies()
    ensures { RunUnifies }
{}
