//! Core text: one spelling for each term and one line for each entry of a signature.
#![tactic(auto)]

pub mod bytes;
pub mod data_reader;
pub mod declared_names;
mod entry_printer;
pub mod entry_reader;
pub mod halt;
pub mod head;
mod instances;
mod laws;
mod levels;
pub mod line;
pub mod line_reader;
mod lookup;
pub mod names;
mod records;
mod runs;
pub mod scanning;
pub mod scope;
mod spines;
mod stop;
mod symbols;
mod telescopes;
pub mod term_printer;
pub mod term_reader;
mod texts;
pub mod whole_terms;

pub use bytes::write_number;
pub use entry_printer::print_entry;
pub use entry_reader::read_entry;
pub use head::read_head;
pub use laws::{
    ends_are_read, entries_are_read_back, entries_that_follow, lines_are_apart, lines_are_read,
    names_are_spelled, names_stay_readable, nested_places_are_reached, notes_are_passed_over,
    places_are_first, prelude_has_readable_names, spelled_lines_are_read,
    surface_names_are_readable, terms_are_read_back, what_is_read,
};
pub use lookup::{before_end, number_at_end};
pub use stop::CoreTextStop;
pub use term_printer::print_term;
pub use texts::{context_text, context_text_with, reason_text, reason_text_with, spaced_text};
