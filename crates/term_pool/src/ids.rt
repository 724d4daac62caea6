use crate::facts::Placed;

/// An id of `Trees`: the place of a node.
#[derive(Clone, Copy, Debug, PartialEq, Eq, Hash)]
pub struct TreeId {
    pub(crate) at: u32,
}

impl Placed for TreeId {
    ghost place = { λ id. id.at };

    fn place(&self) -> u32 {
        self.at
    }
}

/// An id of a `Pool`: the place of a node.
#[derive(Clone, Copy, Debug, PartialEq, Eq, Hash)]
pub struct Id {
    pub(crate) at: u32,
}

impl Placed for Id {
    ghost place = { λ id. id.at };

    fn place(&self) -> u32 {
        self.at
    }
}

/// How many nodes a pool had.
#[derive(Clone, Copy, Debug, PartialEq, Eq)]
pub struct Mark {
    pub(crate) len: u32,
}
