//! The terms and names of runs that the code makes are those that are meant, and are refused only where the term is too high.
ghost use Rattle.exact_laws.specs.run_laws.Laws.{RunMadeIsTerm, RunNamesAreThese, RunOnlyDeep, RunAnswers, RunNamesAnswer};
ghost use Rattle.exact_laws.specs.run_laws.SplitLaws.{SplitMadeIsNode, SplitNamesAreThese, SplitOnlyDeep, SplitAnswers, SplitNamesAnswer, SplitNamesOnlyDeep, SplitTermIsExact};

/// The term of a run that the code answers is the one that is meant.
pub fn run_made_is_term()
    ensures { RunMadeIsTerm }
{}

/// The names of a run that the code answers are those that are meant.
pub fn run_names_are_these()
    ensures { RunNamesAreThese }
{}

/// No other refusal than `Deep` is meant.
pub fn run_only_deep()
    ensures { RunOnlyDeep }
{}

/// The term of a run that unification answers is made, unless it is too high.
pub fn run_answers()
    ensures { RunAnswers }
{}

/// The names of a run that unification answers are made.
pub fn run_names_answer()
    ensures { RunNamesAnswer }
{}

/// The term of a split node that the code answers is the one that is meant.
pub fn split_made_is_node()
    ensures { SplitMadeIsNode }
{}

/// The names of a split node that the code answers are those that are meant.
pub fn split_names_are_these()
    ensures { SplitNamesAreThese }
{}

/// No other refusal of a split node than `Deep` is meant.
pub fn split_only_deep()
    ensures { SplitOnlyDeep }
{}

/// The term of a split node is made, unless it is too high.
pub fn split_answers()
    ensures { SplitAnswers }
{}

/// The names of a split node are made where its term is not too high.
pub fn split_names_answer()
    ensures { SplitNamesAnswer }
{}

/// No other refusal of the names of a split node than `Deep` is meant.
pub fn split_names_only_deep()
    ensures { SplitNamesOnlyDeep }
{}

/// The code makes the term of a split node by itself, with its names, or answers `Deep` exactly where the term is too
/// high.
pub fn split_term_is_exact()
    ensures { SplitTermIsExact }
{}
