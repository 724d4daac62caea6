use core_terms::{Clause, Items, Name, Term};

/// A function by clauses, whose terms name it by the number of the next entry. Each clause has `arity` patterns, and
/// one inside a `with` has one more than the clause around it.
#[derive(Debug, Drop)]
pub struct FunCore {
    pub name: Name,
    pub ty: Term,
    pub arity: u32,
    pub clauses: Items<Clause>,
}
