//! The definition of an accepted function by clauses, without how it is made.
ghost use Rattle.elim.specs.written_functions.Laws.{FunctionsAreByClauses};

/// An accepted function by clauses is the one that is written: each of its lines is true of its written clause. Its parts and its
/// values are those of the plan of the run.
pub fn functions_are_by_clauses()
    ensures { FunctionsAreByClauses }
{}
