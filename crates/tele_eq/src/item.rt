use core_terms::Term;

/// A type of a telescope, over the variables of those before it, with its level.
#[derive(Debug, Drop)]
pub struct Item {
    pub ty: Term,
    pub level: u8,
}
