//! The problems of unification: their contexts, equations and solutions, how these are moved into one another's contexts, and the
//! problems of constructors.
#![tactic(auto)]

mod built;
mod heights;
mod members;
mod moving;
mod outcome;
mod problem;
mod records;
mod state;
mod turn;
mod variables;

pub use built::{Built, built_of, has_no_indices, is_direct, is_fitting, split_spine};
pub use heights::{are_low, are_low_items, checked_state, equations_made, with_equations};
pub use members::{Member, member_of, problem_of, type_of_variable};
pub use moving::{Behind, Places, Sides, Solution, moved, put, put_terms, raised};
pub use outcome::Outcome;
pub use problem::Problem;
pub use records::{argument_items, constructor_terms, family_items, lifted};
pub use state::{Equation, State, equations_at, start};
pub use turn::Turn;
pub use variables::variable_in;
