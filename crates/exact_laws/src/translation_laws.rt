//! The entries of a function that the code makes are those that are meant, and trees are refused only where they are too high.
ghost use Rattle.exact_laws.specs.translation_laws.EntryLaws.{TranslateMadeIsEntries, TranslateMadeOnlyDeep};
ghost use Rattle.exact_laws.specs.translation_laws.Laws.{TreeAnswers, TreeNamesAnswer, FunctionTreeAnswers, FunctionTreeNamesAnswer};

/// The term of a case tree is made, unless it is too high, where those of its leaves are.
pub fn tree_answers()
    ensures { TreeAnswers }
{}

/// The names of a case tree are made where its term is not too high.
pub fn tree_names_answer()
    ensures { TreeNamesAnswer }
{}

/// The trees of a function are made in this way over the signature without the function.
pub fn function_tree_answers()
    ensures { FunctionTreeAnswers }
{}

/// The names of the trees of a function are made in this way over the signature without the function.
pub fn function_tree_names_answer()
    ensures { FunctionTreeNamesAnswer }
{}

/// The entries that the code answers for a plan are those that the plan translates to.
pub fn translate_made_is_entries()
    ensures { TranslateMadeIsEntries }
{}

/// No other refusal than `Deep` is meant.
pub fn translate_made_only_deep()
    ensures { TranslateMadeOnlyDeep }
{}
