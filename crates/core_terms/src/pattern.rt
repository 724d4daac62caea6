use crate::{Items, Term};

/// A pattern of a clause.
///
/// `Bind` is a variable and `Wild` the pattern `_`. `Dot` is a forced term, written after a dot, and `Absurd` the
/// pattern `( )`. `Con(f, c, args)` is constructor `c` of the family with entry number `f`, whose arguments are
/// without the parameters.
#[derive(Debug, Drop)]
pub enum Pat {
    Bind,
    Wild,
    Dot(Term),
    Con(u32, u32, Items<Pat>),
    Absurd,
}

/// The right side of a clause: a term; or a `with`, which has a scrutinee and clauses with one pattern more; or nothing, if one
/// of the patterns is absurd.
#[cycle(clauses)]
#[derive(Debug, Drop)]
pub enum Right {
    Side(Term),
    With(Term, Items<Clause>),
    Absurd,
}

/// A clause of a function.
///
/// Its terms are over `binds` variables, numbered in source order, the last being variable 0. Dots and
/// wildcards bind none.
#[cycle(clauses)]
#[derive(Debug, Drop)]
pub struct Clause {
    pub pats: Items<Pat>,
    pub binds: u32,
    pub right: Right,
}
