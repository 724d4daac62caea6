//! Laws of the entries of a function over a pair of positions.
ghost use Rattle.pair_entries.specs.PairLaws.{PairEntriesAreThese};

/// The entries that the code makes are those that are meant.
pub fn pair_entries_are_these()
    ensures { PairEntriesAreThese }
{}
