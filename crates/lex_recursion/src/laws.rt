//! Laws of the choice of a pair of positions.
ghost use Rattle.lex_recursion.specs.PairLaws.{AtIsFirstUsable, CallsFall, FailingIsExact, FallsEnd, FinitaryCallsFall, FixedBehindAreClosed, FollowingDecides, PairFitsDecides, PairOrderIsTelescope, PairsAreThese, PairsAscend};

/// The fixed positions of the rest are the parameters' variables there, closed under those that their types mention.
pub fn fixed_behind_are_closed()
    ensures { FixedBehindAreClosed }
{}

/// A position follows others exactly where something is found that it rests on.
pub fn following_decides()
    ensures { FollowingDecides }
{}

/// A call passes the test exactly where it fits the pair.
pub fn pair_fits_decides()
    ensures { PairFitsDecides }
{}

/// Each pair is listed, and nothing else is.
pub fn pairs_are_these()
    ensures { PairsAreThese }
{}

/// The pairs are listed by the first position and then by the second one.
pub fn pairs_ascend()
    ensures { PairsAscend }
{}

/// The order of a pair has each position of the telescope once, and the types in it are a telescope.
pub fn pair_order_is_telescope()
    ensures { PairOrderIsTelescope }
{}

/// A pair is chosen exactly where it is the first usable one.
pub fn at_is_first_usable()
    ensures { AtIsFirstUsable }
{}

/// `Failing` is answered exactly where no pair is usable, with the first failing call of each pair.
pub fn failing_is_exact()
    ensures { FailingIsExact }
{}

/// The arguments of a call that fits a pair fall lexicographically.
pub fn calls_fall()
    ensures { CallsFall }
{}

/// Where no recursive argument is a function, their heights fall lexicographically.
pub fn finitary_calls_fall()
    ensures { FinitaryCallsFall }
{}

/// No chain of such calls goes on for ever, unless a constructor is taken as a function.
pub fn falls_end()
    ensures { FallsEnd }
{}
