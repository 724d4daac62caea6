//! The terms of the rules of unification.
#![tactic(auto)]

mod comparisons;
mod confusion_terms;
pub mod cycle_terms;
mod hidden;
mod injecting;
mod injections;
mod instances;
pub mod laws;
mod level_lists;
mod moving;
mod names;
mod naming;
mod occurrences;
pub mod outlines;
mod places;
mod placing;
mod raising;
mod replays;
mod runs;
mod smallness;
mod solution_terms;
mod standings;
mod state;

pub use comparisons::{Comparison, Member, compared, member_at, terms_joined, with_terms};
pub use confusion_terms::{conflict_term, inject_term};
pub use hidden::{step_in, visible, widened, widened_after, widened_number};
pub use injecting::{argument_items, constructor_terms, joined_equations};
pub use injections::injected_standing;
pub use instances::{all_instantiated, all_raised, at_nearest, family_items, instance, items_at};
pub use level_lists::{joined, with_all, with_level_at, with_levels, with_places};
pub use moving::new_context;
pub use names::{
    acyclic_name, below_name, case_name, direct_name, generated_name, left_name, noconf_name,
    rec_name,
};
pub use naming::{Naming, constant, place_of, with_name, with_names};
pub use occurrences::dependants;
pub use places::{After, Places, level_at, place_in, put, put_under};
pub use placing::{
    all_placed, applied_to_levels_from, applied_to_placed, applied_to_variables_at, placed,
    placed_telescope,
};
pub use raising::{raised, term_at};
pub use replays::{deleted_standing, level_in, reflexivity, solved_standing};
pub use runs::{after_rule, after_run, after_step, copy_standing};
pub use smallness::{
    congruences_made, equations_made, free_of, reflexivities_made, small_term, small_terms,
};
pub use solution_terms::{delete_term, remaining_goal, solve_left_term, solve_right_term};
pub use standings::{
    applied_here, applied_to_first, applied_to_further, first_level, here, inside, placed_types,
    state_term,
};
pub use state::{Equation, Standing, State};
