//! Generated entries as drafts: case analysis `D!case.m` and course-of-values recursion `D!below.m`, `D!aux.m`, `D!rec.m` and
//! `D!all.m` of each family, and elimination of an equation by its left side `Eq.i!left.m`. Strict parts of a term, and the path
//! to one in a below value.
#![tactic(auto)]

mod aux_entries;
mod below_entries;
mod binding;
mod branches;
mod cases;
mod components;
mod courses;
pub mod laws;
mod left_entries;
mod path_steps;
mod paths;
mod sides;
mod steps;
mod strict_parts;

pub use aux_entries::aux_entry;
pub use below_entries::below_entry;
pub use binding::{at_scrutinee, closed_over, scrutinee_over};
pub use cases::case_entry;
pub use components::{pair_of, pair_with};
pub use courses::only_name;
pub use left_entries::left_entry;
pub use paths::below_path;
pub use sides::{Side, all_entry, rec_entry};
pub use strict_parts::{constructor_of, is_strict_part};
