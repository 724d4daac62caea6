//! The terms and the names of runs that the code makes are those of the definitions.
ghost use Rattle.split_terms.specs.Laws.{NamesAreThese, RunIsTerm};

/// The term that the code makes of a run is the run's term.
pub fn run_is_term()
    ensures { RunIsTerm }
{}

/// The names that the code finds in a run are the run's names, after the given ones.
pub fn run_names_are_these()
    ensures { NamesAreThese }
{}
