use core_terms::Name;
use with_abstraction::Abstracted;

/// The abstraction that opens a helper over its scrutinee, and the helper's level.
#[derive(Drop)]
pub struct Opening {
    pub abstraction: Abstracted,
    pub level: u8,
}

/// Clause `number`, counted from 0, of the function or helper with this name.
#[derive(Clone, Copy)]
pub struct Site<'a> {
    pub function: &'a Name,
    pub number: u32,
}

/// Which written part of a clause the checker is asked about.
#[derive(Clone, Copy)]
pub enum Asked {
    Dot,
    Side,
    With,
    Goal,
}
