//! Structural recursion: which positions of a function's telescope admit it, which calls fit a position, and the first position
//! that each call fits.
mod admission;
mod choice;
mod choosing;
mod failing;
mod fitting;
pub mod laws;
mod occurrence;
mod orders;
mod positions;
mod terms;

pub use admission::{Admission, admission_from, find_admission};
pub use choice::{Choice, Failing, Use};
pub use choosing::choose_position;
pub use fitting::{Place, fits};
pub use orders::{recursion_order, recursive_positions, unless_among};
pub use positions::{fixed_below, positions_of};
pub use terms::small_term_at;
