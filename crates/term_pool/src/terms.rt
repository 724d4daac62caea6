ghost use Rattle.std.specs.Prelude.{IsTrue};
ghost use Rattle.core_terms.specs.Answers.{Gives};
ghost use Rattle.core_terms.specs.Meanings.{tree_of};
ghost use Rattle.term_pool.specs.Held.{Extends, AddsParts, Makes, IsFullFor};

use crate::{Node, TermStore};
use core_terms::{Stop, Term};
use std::alloc::Global;

/// An id for the tree of a term.
pub fn import_in<S: TermStore>(store: &mut S, t: &Term) -> Result<S::Id, Stop>
    ensures makes { Makes (S.held store.new) result (tree_of t.now) }
    ensures full { IsFullFor (S.held store.new) result (tree_of t.now) }
    ensures extends { Extends (S.held store.old) (S.held store.new) }
    ensures adds { AddsParts (S.held store.old) (S.held store.new) (tree_of t.now) }
{
    match t {
        Term::Var(n) => store.make(Node::Var(*n)),
        Term::Sort(i) => store.make(Node::Sort(*i)),
        Term::Pi(domain, codomain) => {
            let domain = import_in(store, domain)?;
            let codomain = import_in(store, codomain)?;
            store.make(Node::Pi(domain, codomain))
        }
        Term::Lam(domain, body) => {
            let domain = import_in(store, domain)?;
            let body = import_in(store, body)?;
            store.make(Node::Lam(domain, body))
        }
        Term::App(function, argument) => {
            let function = import_in(store, function)?;
            let argument = import_in(store, argument)?;
            store.make(Node::App(function, argument))
        }
        Term::Let(ty, value, rest) => {
            let ty = import_in(store, ty)?;
            let value = import_in(store, value)?;
            let rest = import_in(store, rest)?;
            store.make(Node::Let(ty, value, rest))
        }
        Term::Const(c) => store.make(Node::Const(*c)),
        Term::Fam(f) => store.make(Node::Fam(*f)),
        Term::Con(f, c) => store.make(Node::Con(*f, *c)),
        Term::Elim(f, m) => store.make(Node::Elim(*f, *m)),
        Term::AxiomK(i, m) => store.make(Node::AxiomK(*i, *m)),
    }
}

/// The term of an id.
pub fn export_in<S: TermStore>(alloc: Global, store: &S, id: S::Id) -> Result<Term, Stop>
    requires { IsTrue ((S.held store.now).live id) }
    ensures { Gives tree_of result (Ok ((S.held store.now).tree id)) }
{
    match store.look(&id) {
        Node::Var(n) => Ok(Term::Var(n)),
        Node::Sort(i) => Ok(Term::Sort(i)),
        Node::Pi(domain, codomain) => Term::product_of(
            alloc,
            export_in(alloc, store, domain),
            export_in(alloc, store, codomain),
        ),
        Node::Lam(domain, body) => Term::function_of(
            alloc,
            export_in(alloc, store, domain),
            export_in(alloc, store, body),
        ),
        Node::App(function, argument) => Term::application_of(
            alloc,
            export_in(alloc, store, function),
            export_in(alloc, store, argument),
        ),
        Node::Let(ty, value, rest) => Term::local_of(
            alloc,
            export_in(alloc, store, ty),
            export_in(alloc, store, value),
            export_in(alloc, store, rest),
        ),
        Node::Const(c) => Ok(Term::Const(c)),
        Node::Fam(f) => Ok(Term::Fam(f)),
        Node::Con(f, c) => Ok(Term::Con(f, c)),
        Node::Elim(f, m) => Ok(Term::Elim(f, m)),
        Node::AxiomK(i, m) => Ok(Term::AxiomK(i, m)),
    }
}
