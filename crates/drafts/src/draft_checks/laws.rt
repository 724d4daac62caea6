//! The consequences of a test that answers true.
ghost use Rattle.drafts.specs.draft_checks.Laws.{EnterableMayEnter, UnmarkedIsOpen};

/// A draft that is found to be one that may enter is such a draft.
pub fn enterable_may_enter()
    ensures { EnterableMayEnter }
{}

/// Drafts may enter a well-formed signature that begins with the prelude and is found to be without marks.
pub fn unmarked_is_open()
    ensures { UnmarkedIsOpen }
{}
