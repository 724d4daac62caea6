//! The laws of matching.
ghost use Rattle.case_trees.specs.pattern_vectors.Laws.{MatchedIsNotApart, NeitherIsOpen, OpenIsNotMatched, MatchedStays, ApartStays, MeetIsBoth, NothingIsBoth, ClashIsNone, NoneIsClash};

/// No argument list is both matched and apart.
pub fn matched_is_not_apart()
    ensures { MatchedIsNotApart }
{}

/// An argument list that is neither is open in some column.
pub fn neither_is_open()
    ensures { NeitherIsOpen }
{}

/// An argument list that is open in some column is not matched.
pub fn open_is_not_matched()
    ensures { OpenIsNotMatched }
{}

/// Instances of matched terms are matched.
pub fn matched_stays()
    ensures { MatchedStays }
{}

/// Instances of terms that are apart are apart.
pub fn apart_stays()
    ensures { ApartStays }
{}

/// The common patterns of two lists are matched by the terms that match both.
pub fn meet_is_both()
    ensures { MeetIsBoth }
{}

/// If two lists of patterns have nothing in common, no terms match both.
pub fn nothing_is_both()
    ensures { NothingIsBoth }
{}

/// Lists of patterns that clash have nothing in common.
pub fn clash_is_none()
    ensures { ClashIsNone }
{}

/// Lists of patterns that have nothing in common clash.
pub fn none_is_clash()
    ensures { NoneIsClash }
{}
