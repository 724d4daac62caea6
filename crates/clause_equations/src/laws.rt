ghost use Rattle.clause_equations.specs.Laws.{EquationIsDeep, EquationIsMade, EquationMadeIsEquation};

/// The equation of a clause that the code makes is the clause's equation.
pub fn equation_made_is_equation()
    ensures { EquationMadeIsEquation }
{}

/// Where the function's own telescope is low, or the plan has no position for recursion, the answer is the equation's own.
pub fn equation_is_made()
    ensures { EquationIsMade }
{}

/// Elsewhere it is Deep.
pub fn equation_is_deep()
    ensures { EquationIsDeep }
{}
