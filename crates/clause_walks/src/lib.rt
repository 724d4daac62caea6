//! A clause's own walk through its patterns, and what walks and trees share: the pairs of a clause, how they are worked, and the
//! problems of constructors.
#![tactic(auto)]

mod dots;
mod keeping;
mod looking;
mod moving;
mod open_pair;
mod pairs;
mod parts;
mod points;
mod reaching;
mod running;
mod stops;
mod turns;
mod walking;
mod working;

pub use dots::bound_terms;
pub use keeping::{keep_all, point_keeping};
pub use looking::first_found;
pub use moving::moved_pairs;
pub use open_pair::OpenPair;
pub use pairs::{Pair, some_clashes, waiting};
pub use parts::{Forced, all_bound, all_dots, all_left, all_open, first_clash, sum};
pub use points::{Point, bounded_point, moved_point, solution_for, start_at};
pub use reaching::Reached;
pub use running::{Ran, Runs, StuckRun, run_from};
pub use stops::TreeStop;
pub use walking::{own_walk, own_walk_with};
pub use working::work_pairs;
