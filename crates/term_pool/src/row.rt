/// A call whose answer a store may keep: head reduction, with the definitions of constants or without them, comparison and
/// cumulativity.
#[derive(Clone, Copy, Debug, PartialEq, Eq, Hash)]
pub enum Key<I> {
    Whnf(I, bool),
    Convertible(I, I),
    Subtype(I, I),
}

/// The answer of a call.
#[derive(Clone, Copy, Debug, PartialEq, Eq)]
pub enum Answer<I> {
    Term(I),
    Truth(bool),
}

/// An answer that a store keeps, with what it took: the units that were spent, the nesting that was reached above the call, and
/// the greatest height of a term on the way, its own included.
#[derive(Clone, Copy, Debug, PartialEq, Eq)]
pub struct Row<I> {
    pub answer: Answer<I>,
    pub spent: u64,
    pub reached: u32,
    pub peak: u32,
}
