//! The top call of the program, with all that follows from a line that accepts a declaration.
pub mod laws;
pub mod line_laws;
pub mod meaning_laws;
pub mod program_laws;
mod running;
pub mod verified_laws;
pub mod writing_laws;

pub use running::run;
