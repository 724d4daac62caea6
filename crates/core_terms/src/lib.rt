//! The types that every crate shares, terms first, and the calls on them.
#![tactic(auto)]

mod answered;
mod building;
mod case_tree;
mod copying;
mod instantiation;
mod items;
mod levels;
mod lifting;
mod low;
mod name;
mod number;
mod pattern;
mod stop;
mod substitution;
mod telescopes;
mod term;
mod units;
mod verdict;

pub use building::{
    applied, applied_to_nearest, applied_to_variables, checked, few, functions, head, into_spine,
    products, spine_len, split_products,
};
pub use case_tree::{Branch, Origin, Rule, Step, Tree, Walk};
pub use copying::{copy, copy_pat, copy_tele, copy_whole};
pub use instantiation::{inst, inst_tele, inst_terms, inst_under};
pub use items::Items;
pub use levels::{Binder, Run, applied_to_places, applied_to_run, bind, over, place, variable};
pub use lifting::lift;
pub use low::Low;
pub use name::{Name, copy_name};
pub use number::{next, number_of, sum};
pub use pattern::{Clause, Pat, Right};
pub use stop::Stop;
pub use substitution::subst;
pub use telescopes::{lift_tele, subst_tele};
pub use term::{MAX_HEIGHT, TOP, Tele, Term};
pub use units::Units;
pub use verdict::{Denial, Place, Reason, Verdict};
