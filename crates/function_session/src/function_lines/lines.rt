use clause_lines::Line;
use core_terms::Name;

/// The line of a clause: the function or helper, and the number of the clause, counted from 1.
#[derive(Debug, Drop)]
pub struct ClauseLine {
    pub function: Name,
    pub clause: u32,
    pub line: Line,
}
