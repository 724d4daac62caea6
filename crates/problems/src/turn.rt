use crate::state::State;
use core_terms::{Step, Term};
use unification::Why;

/// The turn of a state: no equation is left, a step leads to the next state, a last step shows that there is no solution, or no
/// rule applies. The last two have the sides that are shown.
#[derive(Debug, Drop)]
pub enum Turn {
    Done,
    Goes(Step, Box<State>),
    Fails(Step, Term, Term),
    Sticks(Why, Term, Term),
}
