//! Scopes of the drafts of a function.
ghost use Rattle.entry_laws.specs.draft_scopes.Laws.{DraftScopedInOrder, MotiveScoped};

/// A draft that is numbered by first mention is scoped, where its type and its term are.
pub fn in_order_scoped()
    ensures { DraftScopedInOrder }
{}

/// The motive of a function is a scoped draft.
pub fn motive_scoped()
    ensures { MotiveScoped }
{}
