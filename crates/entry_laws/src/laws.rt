//! Laws of the entries of a function.
ghost use Rattle.tree_translation.specs.Laws.{NamesDiffer, EarlierAlone};

/// The names of a draft are different.
pub fn names_differ()
    ensures { NamesDiffer }
{}

/// Each draft mentions generated entries and the drafts before it, and nothing else beyond the signature.
pub fn earlier_alone()
    ensures { EarlierAlone }
{}
