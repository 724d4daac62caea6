use term_pool::{Id, Pool};

/// The ids of the type of a constructor: of the part behind the parameters, and of the whole where that is at most 2,000 high.
#[derive(Clone, Copy, Debug)]
pub struct ConstructorId<I> {
    pub behind: I,
    pub ty: Option<I>,
}

/// The ids of the terms of an entry: of its type where that is at most 2,000 high, of the body of a definition, and of the types of
/// a family's constructors.
#[derive(Drop)]
pub struct EntryId<I> {
    pub ty: Option<I>,
    pub body: Option<I>,
    pub cons: Vec<ConstructorId<I>>,
}

/// The ids of the terms of entries, in order.
#[derive(Drop)]
pub struct EntryIds<I> {
    pub entries: Vec<EntryId<I>>,
}

/// The terms of a signature's entries: a pool that holds them, and their ids in it.
#[derive(Clone, Copy)]
pub struct Stored<'a> {
    pub pool: &'a Pool,
    pub ids: &'a EntryIds<Id>,
}
