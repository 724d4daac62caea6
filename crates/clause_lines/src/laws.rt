//! The line of a clause that the code answers is the line as it is defined.
ghost use Rattle.clause_lines.specs.Laws.{ReportAnswers, ReportMadeKeepsWellFormed};

/// The line of a clause that the code answers is the line as it is defined.
pub fn report_answers()
    ensures { ReportAnswers }
{}

/// A report keeps a signature well formed, with its entries.
pub fn report_made_keeps_well_formed()
    ensures { ReportMadeKeepsWellFormed }
{}
