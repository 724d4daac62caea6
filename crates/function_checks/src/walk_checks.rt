//! The checker's questions about a clause's own walk: its dots, and the helper over a scrutinee.
mod asking;
mod dots;
mod opening;
mod parts;

pub use asking::{checked_as, inferred};
pub use dots::check_dots;
pub use opening::open_over;
pub use parts::{Asked, Opening, Site};
