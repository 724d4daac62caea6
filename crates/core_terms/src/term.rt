ghost use Rattle.std.specs.Prelude.{◌≡◌, ◌≤◌, ◌+◌, ◌↔◌, min, IsTrue};
ghost use Rattle.theory.specs.Terms as tree;
ghost use Rattle.core_terms.specs.Answers.{Gives};
ghost use Rattle.core_terms.specs.Bounds.{most_height};
ghost use Rattle.core_terms.specs.Meanings.{tree_of};

use crate::{Items, Stop};
use std::alloc::Global;

/// The greatest sort level: `Type TOP` is a term that has no type.
pub const TOP: u8 = 63;

/// The greatest height of a term that a call answers.
pub const MAX_HEIGHT: u32 = 2000;

/// A term of the core language, with de Bruijn indices: variable 0 belongs to the nearest binder.
///
/// The second part of a product and of a function, and the last part of a `let`, are under one binder more. `Con(f, c)`
/// is constructor `c` of the family with entry number `f`, `Elim(f, m)` the eliminator of that family into `Type m`,
/// and `AxiomK(i, m)` the axiom K of `Eq.i` into `Type m`.
#[derive(Debug, Drop)]
pub enum Term {
    Var(u32),
    Sort(u8),
    Pi(Box<Term>, Box<Term>),
    Lam(Box<Term>, Box<Term>),
    App(Box<Term>, Box<Term>),
    Let(Box<Term>, Box<Term>, Box<Term>),
    Const(u32),
    Fam(u32),
    Con(u32, u32),
    Elim(u32, u8),
    AxiomK(u8, u8),
}

/// A telescope: a list of types or of terms, from the outermost on.
pub type Tele = Items<Term>;

impl Term {
    /// A product. Its height is not tested.
    pub fn new_pi(alloc: Global, domain: Term, codomain: Term) -> Result<Term, Stop>
        ensures { Gives tree_of result (Ok (tree.Pi (tree_of domain) (tree_of codomain))) }
    {
        Ok(Term::Pi(Box::new(alloc, domain)?, Box::new(alloc, codomain)?))
    }

    /// A function. Its height is not tested.
    pub fn new_lam(alloc: Global, domain: Term, body: Term) -> Result<Term, Stop>
        ensures { Gives tree_of result (Ok (tree.Lam (tree_of domain) (tree_of body))) }
    {
        Ok(Term::Lam(Box::new(alloc, domain)?, Box::new(alloc, body)?))
    }

    /// An application. Its height is not tested.
    pub fn new_app(alloc: Global, function: Term, argument: Term) -> Result<Term, Stop>
        ensures { Gives tree_of result (Ok (tree.App (tree_of function) (tree_of argument))) }
    {
        Ok(Term::App(Box::new(alloc, function)?, Box::new(alloc, argument)?))
    }

    /// A `let`. Its height is not tested.
    pub fn new_let(alloc: Global, ty: Term, value: Term, body: Term) -> Result<Term, Stop>
        ensures { Gives tree_of result (Ok (tree.Let (tree_of ty) (tree_of value) (tree_of body))) }
    {
        Ok(Term::Let(
            Box::new(alloc, ty)?,
            Box::new(alloc, value)?,
            Box::new(alloc, body)?,
        ))
    }

    /// The height, or `MAX_HEIGHT + 1` where it is greater. A leaf has height 1. Takes no memory.
    pub fn height(&self) -> u32
        ensures { result ≡ min (tree.height (tree_of self.now)) (most_height + 1) }
    {
        match self {
            Term::Pi(first, second) | Term::Lam(first, second) | Term::App(first, second) => {
                above(first.height().max(second.height()))
            }
            Term::Let(ty, value, body) => {
                above(ty.height().max(value.height().max(body.height())))
            }
            _ => 1,
        }
    }

    /// Whether the terms are syntactically equal. Takes no memory.
    pub fn same(&self, other: &Term) -> bool
        ensures { IsTrue result ↔ (tree_of self.now ≡ tree_of other.now) }
    {
        match (self, other) {
            (Term::Var(n), Term::Var(m)) => n == m,
            (Term::Sort(i), Term::Sort(j)) => i == j,
            (Term::Pi(a, b), Term::Pi(c, d)) => a.same(c) && b.same(d),
            (Term::Lam(a, b), Term::Lam(c, d)) => a.same(c) && b.same(d),
            (Term::App(f, a), Term::App(g, b)) => f.same(g) && a.same(b),
            (Term::Let(a, t, b), Term::Let(c, u, d)) => a.same(c) && t.same(u) && b.same(d),
            (Term::Const(c), Term::Const(d)) => c == d,
            (Term::Fam(f), Term::Fam(g)) => f == g,
            (Term::Con(f, c), Term::Con(g, d)) => f == g && c == d,
            (Term::Elim(f, m), Term::Elim(g, n)) => f == g && m == n,
            (Term::AxiomK(i, m), Term::AxiomK(j, n)) => i == j && m == n,
            _ => false,
        }
    }
}

/// The height of a term whose highest part has the height `part`; both numbers stop at `MAX_HEIGHT + 1`.
pub(crate) fn above(part: u32) -> u32
    requires { part ≤ most_height + 1 }
    ensures { result ≡ min (1 + part) (most_height + 1) }
{
    (1 + part).min(MAX_HEIGHT + 1)
}
