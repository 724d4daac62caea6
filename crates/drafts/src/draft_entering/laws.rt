//! The law of the names that entering generates.
ghost use Rattle.drafts.specs.draft_entering.FreeNames.{NamesAreFree};

/// The names of generated entries are free for these where the names of families and of constructors hold no `!`.
pub fn names_are_free()
    ensures { NamesAreFree }
{}
