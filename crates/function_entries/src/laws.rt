//! The terms, names and entries that the code makes are those of the definitions.
ghost use Rattle.function_entries.specs.Laws.{TranslateIsEntries, TreeIsTerm, TreeNamesAreThese};

/// The term that the code makes of a tree is the tree's term.
pub fn tree_is_term()
    ensures { TreeIsTerm }
{}

/// The names that the code finds in a tree are the tree's names.
pub fn tree_names_are_these()
    ensures { TreeNamesAreThese }
{}

/// The entries that the code makes of a plan are the plan's entries.
pub fn translate_is_entries()
    ensures { TranslateIsEntries }
{}
