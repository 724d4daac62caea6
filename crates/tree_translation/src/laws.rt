//! The laws of translation.
ghost use Rattle.tree_translation.specs.Laws.{OnlyDeep, EntriesAreThese, TypeIsWritten, NamesInOrder, NeededIsExact, NeededOnce, SplitNames, ReplayIsRun, ReplayStandsApart, ReplayIsSeen, ReplayEnds, ReplayGoal};

/// No other refusal than `Deep` is meant.
pub fn only_deep()
    ensures { OnlyDeep }
{}

/// The entries are the function and its helpers, and with recursion its motive and its step, in their order.
pub fn entries_are_these()
    ensures { EntriesAreThese }
{}

/// The last entry is the function, of the written type.
pub fn type_is_written()
    ensures { TypeIsWritten }
{}

/// The names of a draft are all mentioned, in the order of first mention.
pub fn names_in_order()
    ensures { NamesInOrder }
{}

/// A draft needs the names that its terms mention and the signature lacks.
pub fn needed_is_exact()
    ensures { NeededIsExact }
{}

/// Each name is needed once.
pub fn needed_once()
    ensures { NeededOnce }
{}

/// The names that a split node adds are new, generated, and different from each other.
pub fn split_names()
    ensures { SplitNames }
{}

/// Replaying the steps of a run from its first state gives the states of the run.
pub fn replay_is_run()
    ensures { ReplayIsRun }
{}

/// The variables of a standing have binders of their own, before the equations, however far it is replayed.
pub fn replay_stands_apart()
    ensures { ReplayStandsApart }
{}

/// Steps lead through a whole context, with its hidden variables, as they do through its visible part.
pub fn replay_is_seen()
    ensures { ReplayIsSeen }
{}

/// Replaying a run that solves a problem ends in the context and with the solution of the run, with no equation left.
pub fn replay_ends()
    ensures { ReplayEnds }
{}

/// The goal there is the goal under the solution.
pub fn replay_goal()
    ensures { ReplayGoal }
{}
