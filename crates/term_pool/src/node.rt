/// A term whose parts are ids of a store. The variants are those of `Term`.
#[derive(Clone, Copy, Debug, PartialEq, Eq)]
pub enum Node<I> {
    Var(u32),
    Sort(u8),
    Pi(I, I),
    Lam(I, I),
    App(I, I),
    Let(I, I, I),
    Const(u32),
    Fam(u32),
    Con(u32, u32),
    Elim(u32, u8),
    AxiomK(u8, u8),
}
