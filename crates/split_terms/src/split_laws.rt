//! The terms and the names of split nodes that the code makes are those of the definitions.
ghost use Rattle.split_terms.specs.SplitLaws.{SplitNamesAreThese, SplitNodeIsTerm, SplitTermIsThis, StandingIsThis};

/// The standing from which the code starts a constructor's run is the one of the definition.
pub fn standing_is_this()
    ensures { StandingIsThis }
{}

/// The term that the code makes of a split node is the node's term.
pub fn split_node_is_term()
    ensures { SplitNodeIsTerm }
{}

/// The names that the code finds in a split node are the node's names, after the given ones.
pub fn split_names_are_these()
    ensures { SplitNamesAreThese }
{}

/// The term that the code makes of a split node by itself, with its names, is the one that is meant.
pub fn split_term_is_this()
    ensures { SplitTermIsThis }
{}
