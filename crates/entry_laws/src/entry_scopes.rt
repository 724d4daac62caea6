//! Scopes of the entries of a function: what their terms name, and over which variables they are.
ghost use Rattle.entry_laws.specs.entry_scopes.Laws.{SplitScopedAfterPrelude, TreeScopedByLeaves};

/// The term of a split node is over the node's context, and names entries and the names that are there then.
pub fn split_scoped()
    ensures { SplitScopedAfterPrelude }
{}

/// The term of a tree is over its node's context, where those of its leaves are over the contexts of theirs.
pub fn tree_scoped_by_leaves()
    ensures { TreeScopedByLeaves }
{}
