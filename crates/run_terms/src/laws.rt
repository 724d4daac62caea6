//! The terms that are answered are those of the definitions.
ghost use Rattle.run_terms.specs.Laws.{ConflictIsTerm, InjectIsTerm};

/// The term that is answered for an injectivity is that of the definition.
pub fn inject_is_term()
    ensures { InjectIsTerm }
{}

/// The term that is answered for a conflict is that of the definition.
pub fn conflict_is_term()
    ensures { ConflictIsTerm }
{}
