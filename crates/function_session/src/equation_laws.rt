//! The equations of clauses show the patterns, and are over the entries.
ghost use Rattle.function_session.specs.equation_laws.Laws.{EquationIsOver, LeftShows, ProvedIsTyped};

/// The left side of a function's clause shows its patterns.
pub fn left_shows()
    ensures { LeftShows }
{}

/// The equation of a clause is over the entries, where the clause's own walk is over those before the plan.
pub fn equation_is_over()
    ensures { EquationIsOver }
{}

/// The entry that proves an equation is a definition of the closed equation type.
pub fn proved_is_typed()
    ensures { ProvedIsTyped }
{}
