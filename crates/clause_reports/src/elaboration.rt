//! A function by clauses, from its resolved clauses to its entries and the report of each clause.
ghost use Rattle.clause_reports.specs.elaboration.Laws.{FunctionKeepsWellFormed, FunctionSpends};

/// The phases give no units back.
pub fn function_spends()
    ensures { FunctionSpends }
{}

/// A well-formed signature stays well formed when a function is accepted.
pub fn function_keeps_well_formed()
    ensures { FunctionKeepsWellFormed }
{}
