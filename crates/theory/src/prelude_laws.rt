//! The laws of the prelude.
ghost use Rattle.theory.specs.PreludeLaws.{PreludeIsWellFormed, EmptyIsEntry, EqualityIsEntry, UnitIsEntry, PairIsEntry, PreludeLength};

/// The prelude is well formed, by derivations of its families at every level.
pub fn prelude_is_well_formed()
    ensures { PreludeIsWellFormed }
{}

/// The number of `Empty`.
pub fn empty_is_entry()
    ensures { EmptyIsEntry }
{}

/// The number of the identity family of a level.
pub fn equality_is_entry()
    ensures { EqualityIsEntry }
{}

/// The number of the unit family of a level.
pub fn unit_is_entry()
    ensures { UnitIsEntry }
{}

/// The number of the family of pairs of a level.
pub fn pair_is_entry()
    ensures { PairIsEntry }
{}

/// How many entries there are.
pub fn prelude_length()
    ensures { PreludeLength }
{}
