//! Laws of resolution.
ghost use Rattle.resolve.specs.Laws.{TermsResolve, FamiliesResolve, FunctionsResolve, MutualFamiliesResolve};

/// A resolved term is scoped and low.
pub fn terms_resolve()
    ensures { TermsResolve }
{}

/// A resolved family is scoped, its constructors over a signature with the family itself.
pub fn families_resolve()
    ensures { FamiliesResolve }
{}

/// The clauses of a resolved function are scoped over a signature with its constant, have as many patterns as the arity
/// says, count their variables, and give each constructor all its arguments.
pub fn functions_resolve()
    ensures { FunctionsResolve }
{}

/// Resolved families that refer to each other are scoped, their constructors over a signature with a constant for each member.
pub fn mutual_families_resolve()
    ensures { MutualFamiliesResolve }
{}
