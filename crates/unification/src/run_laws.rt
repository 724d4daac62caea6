//! From each state there is one run, and it ends; it gives no units back. Properties of each outcome. Searches end too.
ghost use Rattle.unification.specs.Laws.{TurnSpends, TurnIsThere, TurnFalls, RunsEnd, RunIsUnique, UnifySpends, NoDeletionWithoutK, SolutionIsWhole, SearchGoesOn};

/// No turn gives units back.
pub fn turn_spends()
    ensures { TurnSpends }
{}

/// In each state a rule goes on, or a turn says why none does.
pub fn turn_is_there()
    ensures { TurnIsThere }
{}

/// A turn that goes on makes the state less.
pub fn turn_falls()
    ensures { TurnFalls }
{}

/// From each state there is a run, with the answer that is worked out.
pub fn runs_end()
    ensures { RunsEnd }
{}

/// There is no other run.
pub fn run_is_unique()
    ensures { RunIsUnique }
{}

/// No run of a problem gives units back.
pub fn unify_spends()
    ensures { UnifySpends }
{}

/// Without K no equation is deleted.
pub fn no_deletion_without_k()
    ensures { NoDeletionWithoutK }
{}

/// A solution has a term for each variable of the context that was given.
pub fn solution_is_whole()
    ensures { SolutionIsWhole }
{}

/// A search below constructors goes on in each argument as it began.
pub fn search_goes_on()
    ensures { SearchGoesOn }
{}
