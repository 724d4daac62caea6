ghost use Rattle.shared_text.specs.BlockLaws.{BlocksAreApart, BlocksMayBeLines, PrintedTermsAreBelow, SharedTermsStandTwice, TermsComeInOrder};
ghost use Rattle.shared_text.specs.Expansions.{BlocksSayTheLine};

/// Printed terms are the written ones and all printed children below them.
pub fn printed_terms_are_below()
    ensures { PrintedTermsAreBelow }
{}

/// A term has a line exactly where it is printed, is higher than 1 and stands at two or more places.
pub fn shared_terms_stand_twice()
    ensures { SharedTermsStandTwice }
{}

/// Shared terms come each once, in the order in which a reading from left to right first ends them.
pub fn terms_come_in_order()
    ensures { TermsComeInOrder }
{}

/// Where no term is shared, a block is the line of version 1.
pub fn blocks_may_be_lines()
    ensures { BlocksMayBeLines }
{}

/// A block says the line of version 1 of its entry: with its terms in the place of their numbers it is that line.
pub fn blocks_say_the_line()
    ensures { BlocksSayTheLine }
{}

/// No block begins another.
pub fn blocks_are_apart()
    ensures { BlocksAreApart }
{}
