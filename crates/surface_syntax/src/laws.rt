ghost use Rattle.surface_syntax.specs.Laws.{ReadsTheGrammar, GoesTooDeepWithTheGrammar, GoesWrongWithTheGrammar, HasOneReading, NestedComesFirst, NestedInAText};
ghost use Rattle.surface_syntax.specs.TokenLaws.{FindsTheLongest, PassesOverGaps, FindsNothingElse, SplitsBySpellings, SplitsInOneWay, TokensAreSlices};

/// The machine of the parser reads exactly the files of the grammar.
pub fn reads_the_grammar()
    ensures { ReadsTheGrammar }
{}

/// The grammar has one reading of a source file at most.
pub fn has_one_reading()
    ensures { HasOneReading }
{}

/// The machine goes wrong exactly where the grammar goes no further, and nothing is too deep.
pub fn goes_wrong_with_the_grammar()
    ensures { GoesWrongWithTheGrammar }
{}

/// The machine finds something too deep exactly where it begins.
pub fn goes_too_deep_with_the_grammar()
    ensures { GoesTooDeepWithTheGrammar }
{}

/// A production that is too deep begins at the place where the lexemes go wrong, or before it.
pub fn nested_comes_first()
    ensures { NestedComesFirst }
{}

/// In a source file, the place of a refusal for depth is where the first production that is inside 2,000 others begins.
pub fn nested_in_a_text()
    ensures { NestedInAText }
{}

/// A token is the longest spelling with which the text begins, within its limit.
pub fn finds_the_longest()
    ensures { FindsTheLongest }
{}

/// A gap, which is passed over, is a blank or a whole comment.
pub fn passes_over_gaps()
    ensures { PassesOverGaps }
{}

/// Where a text begins with no token, no blank and no comment, nothing is found, and nowhere else.
pub fn finds_nothing_else()
    ensures { FindsNothingElse }
{}

/// A text splits in one way at most.
pub fn splits_in_one_way()
    ensures { SplitsInOneWay }
{}

/// A token is the characters between its offsets.
pub fn tokens_are_slices()
    ensures { TokensAreSlices }
{}

/// A text splits as it is spelled: tokens, each the longest at its place, and blanks and comments.
pub fn splits_by_spellings()
    ensures { SplitsBySpellings }
{}
