ghost use Rattle.std.specs.Prelude.{◌≡◌, ◌≤◌, ◌<◌, ◌+◌, ◌^◌, IsTrue};
ghost use Rattle.core_terms.specs.Bounds.{most_free};
ghost use Rattle.theory.specs.Terms as tree;
ghost use Rattle.indexmap.specs.IndexMap.{values};
ghost use Rattle.term_pool.specs.Held.{Extends, AddsParts, Makes, IsFullFor};
ghost use Rattle.term_pool.specs.Lifting.{Lifts};

use crate::hashing::by_word;
use crate::shifts::{Shift, Shifts, is_quick, keep, known};
use crate::{Node, TermStore};
use core_terms::Stop;
use indexmap::IndexMap;
use std::alloc::Global;

/// Adds `by` to every variable numbered `from` or more. The time goes by the number of different parts and depths.
pub fn lift_in<S: TermStore>(
    alloc: Global,
    store: &mut S,
    t: S::Id,
    by: u32,
    from: u32,
) -> Result<S::Id, Stop>
    requires live { IsTrue ((S.held store.old).live t) }
    requires indices { tree.free_of ((S.held store.old).tree t) + by ≤ most_free }
    ensures makes { Makes (S.held store.new) result (tree.lift ((S.held store.old).tree t) by from) }
    ensures full { IsFullFor (S.held store.new) result (tree.lift ((S.held store.old).tree t) by from) }
    ensures extends { Extends (S.held store.old) (S.held store.new) }
    ensures adds { AddsParts (S.held store.old) (S.held store.new) (tree.lift ((S.held store.old).tree t) by from) }
{
    let _low = store.bound(&t);
    lift_within(alloc, store, t, by, from)
}

/// `lift_in` under a condition that is weaker for lower terms.
pub(crate) fn lift_within<S: TermStore>(
    alloc: Global,
    store: &mut S,
    t: S::Id,
    by: u32,
    from: u32,
) -> Result<S::Id, Stop>
    requires live { IsTrue ((S.held store.old).live t) }
    requires indices { tree.free_of ((S.held store.old).tree t) + tree.height ((S.held store.old).tree t) + by < 2 ^ 32 }
    ensures makes { Makes (S.held store.new) result (tree.lift ((S.held store.old).tree t) by from) }
    ensures full { IsFullFor (S.held store.new) result (tree.lift ((S.held store.old).tree t) by from) }
    ensures extends { Extends (S.held store.old) (S.held store.new) }
    ensures adds { AddsParts (S.held store.old) (S.held store.new) (tree.lift ((S.held store.old).tree t) by from) }
{
    let _low = store.bound(&t);
    let mut table = IndexMap::with_hasher(alloc, by_word());
    lift_at(store, &mut table, t, by, from as u64)
}

/// The lift of the term, with the answers so far in a table.
#[cycle(lift)]
fn lift_at<S: TermStore>(
    store: &mut S,
    table: &mut Shifts<S::Id>,
    t: S::Id,
    by: u32,
    from: u64,
) -> Result<S::Id, Stop>
    requires live { IsTrue ((S.held store.old).live t) }
    requires indices { tree.free_of ((S.held store.old).tree t) + tree.height ((S.held store.old).tree t) + by < 2 ^ 32 }
    requires binders { from + tree.height ((S.held store.old).tree t) < 2 ^ 64 }
    requires table { Lifts by (S.held store.old) (values table.old) }
    ensures makes { Makes (S.held store.new) result (tree.lift ((S.held store.old).tree t) by from) }
    ensures full { IsFullFor (S.held store.new) result (tree.lift ((S.held store.old).tree t) by from) }
    ensures extends { Extends (S.held store.old) (S.held store.new) }
    ensures adds { AddsParts (S.held store.old) (S.held store.new) (tree.lift ((S.held store.old).tree t) by from) }
    ensures table { Lifts by (S.held store.new) (values table.new) }
{
    if store.bound(&t) <= from {
        return Ok(t);
    }
    if is_quick(store.height(&t), false) {
        return lift_node(store, table, t, by, from);
    }
    match known(store, table, &t, from) {
        Some(answer) => Ok(answer),
        None => lift_new(store, table, t, by, from),
    }
}

/// The lift of a term that is not in the table yet.
#[cycle(lift)]
fn lift_new<S: TermStore>(
    store: &mut S,
    table: &mut Shifts<S::Id>,
    t: S::Id,
    by: u32,
    from: u64,
) -> Result<S::Id, Stop>
    requires live { IsTrue ((S.held store.old).live t) }
    requires indices { tree.free_of ((S.held store.old).tree t) + tree.height ((S.held store.old).tree t) + by < 2 ^ 32 }
    requires binders { from + tree.height ((S.held store.old).tree t) < 2 ^ 64 }
    requires table { Lifts by (S.held store.old) (values table.old) }
    ensures makes { Makes (S.held store.new) result (tree.lift ((S.held store.old).tree t) by from) }
    ensures full { IsFullFor (S.held store.new) result (tree.lift ((S.held store.old).tree t) by from) }
    ensures extends { Extends (S.held store.old) (S.held store.new) }
    ensures adds { AddsParts (S.held store.old) (S.held store.new) (tree.lift ((S.held store.old).tree t) by from) }
    ensures table { Lifts by (S.held store.new) (values table.new) }
{
    let answer = lift_node(store, table, t, by, from)?;
    let row = Shift {
        from: t,
        depth: from,
        answer,
    };
    keep(store, table, row)?;
    Ok(answer)
}

/// Lifts the parts of the node.
#[cycle(lift)]
fn lift_node<S: TermStore>(
    store: &mut S,
    table: &mut Shifts<S::Id>,
    t: S::Id,
    by: u32,
    from: u64,
) -> Result<S::Id, Stop>
    requires live { IsTrue ((S.held store.old).live t) }
    requires indices { tree.free_of ((S.held store.old).tree t) + tree.height ((S.held store.old).tree t) + by < 2 ^ 32 }
    requires binders { from + tree.height ((S.held store.old).tree t) < 2 ^ 64 }
    requires table { Lifts by (S.held store.old) (values table.old) }
    ensures makes { Makes (S.held store.new) result (tree.lift ((S.held store.old).tree t) by from) }
    ensures full { IsFullFor (S.held store.new) result (tree.lift ((S.held store.old).tree t) by from) }
    ensures extends { Extends (S.held store.old) (S.held store.new) }
    ensures adds { AddsParts (S.held store.old) (S.held store.new) (tree.lift ((S.held store.old).tree t) by from) }
    ensures table { Lifts by (S.held store.new) (values table.new) }
{
    match store.look(&t) {
        Node::Var(n) => store.make(Node::Var(lift_variable(n, by, from))),
        Node::Pi(domain, codomain) => {
            let domain = lift_at(store, table, domain, by, from)?;
            let codomain = lift_at(store, table, codomain, by, from + 1)?;
            store.make(Node::Pi(domain, codomain))
        }
        Node::Lam(domain, body) => {
            let domain = lift_at(store, table, domain, by, from)?;
            let body = lift_at(store, table, body, by, from + 1)?;
            store.make(Node::Lam(domain, body))
        }
        Node::App(function, argument) => {
            let function = lift_at(store, table, function, by, from)?;
            let argument = lift_at(store, table, argument, by, from)?;
            store.make(Node::App(function, argument))
        }
        Node::Let(ty, value, rest) => {
            let ty = lift_at(store, table, ty, by, from)?;
            let value = lift_at(store, table, value, by, from)?;
            let rest = lift_at(store, table, rest, by, from + 1)?;
            store.make(Node::Let(ty, value, rest))
        }
        Node::Sort(_)
        | Node::Const(_)
        | Node::Fam(_)
        | Node::Con(_, _)
        | Node::Elim(_, _)
        | Node::AxiomK(_, _) => Ok(t),
    }
}

fn lift_variable(n: u32, by: u32, from: u64) -> u32
    requires { n + by < 2 ^ 32 }
    ensures { result ≡ tree.lift_var n by from }
{
    if (n as u64) < from { n } else { n + by }
}
