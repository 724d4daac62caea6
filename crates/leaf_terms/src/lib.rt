//! The plans from which the entries of a function are made, and the terms of leaves: right sides with recursive calls
//! as paths.
#![tactic(auto)]

mod applying;
mod below_types;
mod below_values;
mod calls;
mod entry_names;
pub mod laws;
mod leaves;
mod mappings;
mod numbering;
mod orders;
mod paths;
mod plan;
mod recursion;
mod right_sides;
mod towers;

pub use below_types::{
    below_type, below_with, copied_at, motive_at, parameters_at, scrutinee_at, terms_at,
};
pub use below_values::{after_first, motive_with};
pub use entry_names::{helper_name, marked, motive_name, part_name, step_name};
pub use leaves::{Translation, leaf_term};
pub use mappings::{in_old_order, mapping};
pub use numbering::numbered;
pub use orders::{
    first_positions, order_of, ordered_telescope, ordered_term, recursive_order,
    remaining_positions,
};
pub use plan::{Part, Plan, no_part};
pub use recursion::{
    NamedRecursion, Recursion, own_tele, recursion_at, recursion_of, recursions_named, with_family,
};
