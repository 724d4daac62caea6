//! Laws of functions by clauses: what the code makes of a plan, of a report and of a declaration is what is defined.
pub mod declaration_laws;
pub mod report_laws;
