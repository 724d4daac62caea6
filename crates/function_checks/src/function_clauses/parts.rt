use crate::function_walks::Opened;
use core_terms::Term;

/// The scrutinee of a clause over the context of its walk, the call of the helper over it, and that helper.
#[derive(Drop)]
pub struct Scrutinee {
    pub term: Term,
    pub side: Term,
    pub part: Opened,
}
