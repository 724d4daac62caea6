/// A term that takes no head step: its id, the id of the term at its head, and the number of its arguments; and whether a step was
/// taken to get there.
#[derive(Clone, Copy)]
pub(crate) struct Form<I> {
    pub id: I,
    pub head: I,
    pub count: u32,
    pub moved: bool,
}

/// A term reduced as far as one contraction at its head: it takes no head step, or goes on with another term.
#[derive(Clone, Copy)]
pub(crate) enum Turn<I> {
    Rests(Form<I>),
    Goes(I),
}

/// A term that takes no head step, or the step of one that takes a step.
#[derive(Clone, Copy)]
pub(crate) enum Stepped<I> {
    Stays(Form<I>),
    Steps(I),
}

/// A form of terms with two children.
#[derive(Clone, Copy)]
pub(crate) enum Former {
    Pi,
    Lam,
    App,
}

/// The form of a term, and its two children.
#[derive(Clone, Copy)]
pub(crate) struct Pair<I> {
    pub former: Former,
    pub first: I,
    pub second: I,
}

/// The form of two terms, and their children.
#[derive(Clone, Copy)]
pub(crate) struct Pairs<I> {
    pub former: Former,
    pub a: I,
    pub b: I,
    pub c: I,
    pub d: I,
}

/// The children of two products.
#[derive(Clone, Copy)]
pub(crate) struct Products<I> {
    pub a: I,
    pub b: I,
    pub c: I,
    pub d: I,
}
