//! Core text of version 2: an entry is a block, in which a term that stands at two or more places is written once.
#![tactic(auto)]

mod block_printer;
mod block_writer;
mod id_set;
mod laws;
mod line_writer;
mod low_terms;
mod met;
mod numbers;
mod shown;
mod term_writer;
mod tree_set;
mod written;

pub use block_printer::print_block;
pub use laws::{
    blocks_are_apart, blocks_may_be_lines, blocks_say_the_line, printed_terms_are_below,
    shared_terms_stand_twice, terms_come_in_order,
};
