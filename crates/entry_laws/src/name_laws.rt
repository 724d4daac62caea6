//! Laws of the names of split nodes: they are in the order in which the term mentions them first.
ghost use Rattle.entry_laws.specs.name_laws.Laws.{SplitNamesInOrderBelow};

/// The new names of a split node are all mentioned, in the order in which they are added.
pub fn split_names_in_order()
    ensures { SplitNamesInOrderBelow }
{}
