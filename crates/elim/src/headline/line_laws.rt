//! Each line of a function's clauses is the report of its clause, and a proof is one by the typing rules.
ghost use Rattle.elim.specs.headline.line_laws.Laws.{DeclarationReports, FunctionReports, PatternsAreWritten};

/// Each line of a function is the report of its clause. A line that names a proof names a definition of the clause's closed equation type,
/// which has that type by the rules; and a line is absurd exactly where `( )` is among the clause's patterns.
pub fn function_reports()
    ensures { FunctionReports }
{}

/// Each line of a function that a session accepts is the report of its clause, and a proof is one by the rules.
pub fn declaration_reports()
    ensures { DeclarationReports }
{}

/// The patterns of each clause of a plan are those that are written.
pub fn patterns_are_written()
    ensures { PatternsAreWritten }
{}
