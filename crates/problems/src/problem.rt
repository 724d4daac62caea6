use core_terms::{Items, Tele};
use tele_eq::Item;

/// Two lists of terms of a telescope, over a context, that are to be made equal.
#[derive(Debug, Drop)]
pub struct Problem {
    pub ctx: Tele,
    pub tele: Items<Item>,
    pub left: Tele,
    pub right: Tele,
}
