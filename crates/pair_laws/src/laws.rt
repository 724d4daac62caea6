//! Laws of the entries of a function over a pair of positions.
ghost use Rattle.pair_laws.specs.Laws.{PairDraftsScoped, PairEarlierAlone, PairEntriesAreFive, PairNamesDiffer, PairNamesInOrder, PairOnlyDeep, PairTypeIsWritten};

/// The entries are both motives, both steps and the function.
pub fn pair_entries_are_five()
    ensures { PairEntriesAreFive }
{}

/// The last one has the written type.
pub fn pair_type_is_written()
    ensures { PairTypeIsWritten }
{}

/// No other refusal than Deep is meant.
pub fn pair_only_deep()
    ensures { PairOnlyDeep }
{}

/// Each draft mentions generated entries and the drafts before it, and nothing else beyond the signature.
pub fn pair_earlier_alone()
    ensures { PairEarlierAlone }
{}

/// The names of a draft are different.
pub fn pair_names_differ()
    ensures { PairNamesDiffer }
{}

/// They are in the order of first mention.
pub fn pair_names_in_order()
    ensures { PairNamesInOrder }
{}

/// Each draft is scoped.
pub fn pair_drafts_scoped()
    ensures { PairDraftsScoped }
{}
