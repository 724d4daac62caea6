//! Terms in outline: parts that were made and placed apart are written as one term in one pass.
mod composing;
mod later;
mod outline;
mod writing;

pub use composing::{are_below, composed};
pub use later::{at_head, in_body, with_later};
pub use outline::{Outline, Outlines, first_whole, listed};
pub use writing::{whole, written};
