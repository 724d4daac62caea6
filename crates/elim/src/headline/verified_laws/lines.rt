//! Laws of what a line accepts, beside the headline of the program.
ghost use Rattle.elim.specs.headline.verified_laws.AcceptedLines.{LinesAreCoreFiles, LinesAreReports, LinesAreWritable};

/// Where a line says that a function is accepted, the lines of its clauses are the reports of the clauses.
pub fn lines_are_reports()
    ensures { LinesAreReports }
{}

/// The signature after a declaration that a line accepts can be written in a core file.
pub fn lines_are_writable()
    ensures { LinesAreWritable }
{}

/// The lines above a line that accepts a declaration are a core file of the signature that has it.
pub fn lines_are_core_files()
    ensures { LinesAreCoreFiles }
{}
