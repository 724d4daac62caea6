ghost use Rattle.std.specs.Prelude.{◌≤◌, ◌<◌, ◌+◌, IsTrue};
ghost use Rattle.core_terms.specs.Bounds.{most_free};
ghost use Rattle.theory.specs.Terms as tree;
ghost use Rattle.indexmap.specs.IndexMap.{values};
ghost use Rattle.term_pool.specs.Held.{Extends, AddsParts, Makes, MakesUnder, IsFullFor};
ghost use Rattle.term_pool.specs.Substitution.{put, Puts};

use crate::hashing::by_word;
use crate::lifting::lift_within;
use crate::shifts::{Shift, Shifts, is_quick, keep, known};
use crate::{Node, TermStore};
use core_terms::{MAX_HEIGHT, Stop};
use indexmap::IndexMap;
use std::alloc::Global;

/// Puts `by` for variable `at` and lowers greater variables by one, or answers Deep. The time goes by the number of different parts
/// and depths.
#[tactic(auto, using(crate::proofs::Putting::put_laws))]
pub fn subst_in<S: TermStore>(
    alloc: Global,
    store: &mut S,
    t: S::Id,
    at: u32,
    by: S::Id,
) -> Result<S::Id, Stop>
    requires live { IsTrue ((S.held store.old).live t) }
    requires by_live { IsTrue ((S.held store.old).live by) }
    requires indices { tree.free_of ((S.held store.old).tree by) ≤ most_free }
    ensures makes { Makes (S.held store.new) result (tree.subst ((S.held store.old).tree t) at ((S.held store.old).tree by)) }
    ensures full { IsFullFor (S.held store.new) result (tree.subst ((S.held store.old).tree t) at ((S.held store.old).tree by)) }
    ensures extends { Extends (S.held store.old) (S.held store.new) }
    ensures adds { AddsParts (S.held store.old) (S.held store.new) (tree.subst ((S.held store.old).tree t) at ((S.held store.old).tree by)) }
{
    let _low = store.bound(&t);
    let mut table = IndexMap::with_hasher(alloc, by_word());
    subst_at(alloc, store, &mut table, t, at, by, 0)
}

/// Puts `by` for the variable under so many binders, with the answers so far in a table.
#[cycle(subst)]
fn subst_at<S: TermStore>(
    alloc: Global,
    store: &mut S,
    table: &mut Shifts<S::Id>,
    t: S::Id,
    at: u32,
    by: S::Id,
    under: u32,
) -> Result<S::Id, Stop>
    requires live { IsTrue ((S.held store.old).live t) }
    requires by_live { IsTrue ((S.held store.old).live by) }
    requires indices { tree.free_of ((S.held store.old).tree by) ≤ most_free }
    requires binders { under + tree.height ((S.held store.old).tree t) ≤ 2000 }
    requires table { Puts ((S.held store.old).tree by) at (S.held store.old) (values table.old) }
    ensures makes { MakesUnder under (S.held store.new) result (put ((S.held store.old).tree by) at ((S.held store.old).tree t) under) }
    ensures full { IsFullFor (S.held store.new) result (put ((S.held store.old).tree by) at ((S.held store.old).tree t) under) }
    ensures extends { Extends (S.held store.old) (S.held store.new) }
    ensures adds { AddsParts (S.held store.old) (S.held store.new) (put ((S.held store.old).tree by) at ((S.held store.old).tree t) under) }
    ensures table { Puts ((S.held store.old).tree by) at (S.held store.new) (values table.new) }
{
    if store.bound(&t) <= at as u64 + under as u64 {
        return Ok(t);
    }
    if is_quick(store.height(&t), lifts(store, &by, under)) {
        return subst_node(alloc, store, table, t, at, by, under);
    }
    match known(store, table, &t, under as u64) {
        Some(answer) => Ok(answer),
        None => subst_new(alloc, store, table, t, at, by, under),
    }
}

/// Puts `by` for the variable in a term that is not in the table yet.
#[cycle(subst)]
fn subst_new<S: TermStore>(
    alloc: Global,
    store: &mut S,
    table: &mut Shifts<S::Id>,
    t: S::Id,
    at: u32,
    by: S::Id,
    under: u32,
) -> Result<S::Id, Stop>
    requires live { IsTrue ((S.held store.old).live t) }
    requires by_live { IsTrue ((S.held store.old).live by) }
    requires indices { tree.free_of ((S.held store.old).tree by) ≤ most_free }
    requires binders { under + tree.height ((S.held store.old).tree t) ≤ 2000 }
    requires table { Puts ((S.held store.old).tree by) at (S.held store.old) (values table.old) }
    ensures makes { MakesUnder under (S.held store.new) result (put ((S.held store.old).tree by) at ((S.held store.old).tree t) under) }
    ensures full { IsFullFor (S.held store.new) result (put ((S.held store.old).tree by) at ((S.held store.old).tree t) under) }
    ensures extends { Extends (S.held store.old) (S.held store.new) }
    ensures adds { AddsParts (S.held store.old) (S.held store.new) (put ((S.held store.old).tree by) at ((S.held store.old).tree t) under) }
    ensures table { Puts ((S.held store.old).tree by) at (S.held store.new) (values table.new) }
{
    let answer = subst_node(alloc, store, table, t, at, by, under)?;
    let row = Shift {
        from: t,
        depth: under as u64,
        answer,
    };
    keep(store, table, row)?;
    Ok(answer)
}

/// Substitutes in the parts of the node.
#[cycle(subst)]
fn subst_node<S: TermStore>(
    alloc: Global,
    store: &mut S,
    table: &mut Shifts<S::Id>,
    t: S::Id,
    at: u32,
    by: S::Id,
    under: u32,
) -> Result<S::Id, Stop>
    requires live { IsTrue ((S.held store.old).live t) }
    requires by_live { IsTrue ((S.held store.old).live by) }
    requires indices { tree.free_of ((S.held store.old).tree by) ≤ most_free }
    requires binders { under + tree.height ((S.held store.old).tree t) ≤ 2000 }
    requires table { Puts ((S.held store.old).tree by) at (S.held store.old) (values table.old) }
    ensures makes { MakesUnder under (S.held store.new) result (put ((S.held store.old).tree by) at ((S.held store.old).tree t) under) }
    ensures full { IsFullFor (S.held store.new) result (put ((S.held store.old).tree by) at ((S.held store.old).tree t) under) }
    ensures extends { Extends (S.held store.old) (S.held store.new) }
    ensures adds { AddsParts (S.held store.old) (S.held store.new) (put ((S.held store.old).tree by) at ((S.held store.old).tree t) under) }
    ensures table { Puts ((S.held store.old).tree by) at (S.held store.new) (values table.new) }
{
    match store.look(&t) {
        Node::Var(n) => subst_variable(alloc, store, n, at, by, under),
        Node::Pi(domain, codomain) => {
            let domain = subst_at(alloc, store, table, domain, at, by, under)?;
            let codomain = subst_at(alloc, store, table, codomain, at, by, under + 1)?;
            store.make(Node::Pi(domain, codomain))
        }
        Node::Lam(domain, body) => {
            let domain = subst_at(alloc, store, table, domain, at, by, under)?;
            let body = subst_at(alloc, store, table, body, at, by, under + 1)?;
            store.make(Node::Lam(domain, body))
        }
        Node::App(function, argument) => {
            let function = subst_at(alloc, store, table, function, at, by, under)?;
            let argument = subst_at(alloc, store, table, argument, at, by, under)?;
            store.make(Node::App(function, argument))
        }
        Node::Let(ty, value, rest) => {
            let ty = subst_at(alloc, store, table, ty, at, by, under)?;
            let value = subst_at(alloc, store, table, value, at, by, under)?;
            let rest = subst_at(alloc, store, table, rest, at, by, under + 1)?;
            store.make(Node::Let(ty, value, rest))
        }
        Node::Sort(_)
        | Node::Const(_)
        | Node::Fam(_)
        | Node::Con(_, _)
        | Node::Elim(_, _)
        | Node::AxiomK(_, _) => Ok(t),
    }
}

/// Whether the term changes where it is lifted by so many.
fn lifts<S: TermStore>(store: &S, t: &S::Id, by: u32) -> bool
    requires { IsTrue ((S.held store.now).live t.now) }
{
    by > 0 && store.bound(t) > 0
}

/// The term that stands for the variable.
fn subst_variable<S: TermStore>(
    alloc: Global,
    store: &mut S,
    n: u32,
    at: u32,
    by: S::Id,
    under: u32,
) -> Result<S::Id, Stop>
    requires live { IsTrue ((S.held store.old).live by) }
    requires indices { tree.free_of ((S.held store.old).tree by) ≤ most_free }
    requires binders { under ≤ 2000 }
    ensures makes { MakesUnder under (S.held store.new) result (tree.subst_var n (at + under) (tree.lift ((S.held store.old).tree by) under 0)) }
    ensures full { IsFullFor (S.held store.new) result (tree.subst_var n (at + under) (tree.lift ((S.held store.old).tree by) under 0)) }
    ensures extends { Extends (S.held store.old) (S.held store.new) }
    ensures adds { AddsParts (S.held store.old) (S.held store.new) (tree.subst_var n (at + under) (tree.lift ((S.held store.old).tree by) under 0)) }
{
    let place = at as u64 + under as u64;
    if (n as u64) < place {
        store.make(Node::Var(n))
    } else if n as u64 == place {
        lift_low(alloc, store, by, under)
    } else {
        store.make(Node::Var(n - 1))
    }
}

/// Lifts the term by so many binders, or answers Deep where it is too high under them.
#[tactic(auto, using(crate::proofs::Putting::lift_laws))]
pub(crate) fn lift_low<S: TermStore>(
    alloc: Global,
    store: &mut S,
    t: S::Id,
    under: u32,
) -> Result<S::Id, Stop>
    requires live { IsTrue ((S.held store.old).live t) }
    requires indices { tree.free_of ((S.held store.old).tree t) ≤ most_free }
    requires binders { under ≤ 2000 }
    ensures makes { MakesUnder under (S.held store.new) result (tree.lift ((S.held store.old).tree t) under 0) }
    ensures full { IsFullFor (S.held store.new) result (tree.lift ((S.held store.old).tree t) under 0) }
    ensures extends { Extends (S.held store.old) (S.held store.new) }
    ensures adds { AddsParts (S.held store.old) (S.held store.new) (tree.lift ((S.held store.old).tree t) under 0) }
{
    if under == 0 {
        let _low = store.bound(&t);
        return Ok(t);
    }
    if under + store.height(&t) > MAX_HEIGHT {
        return Err(Stop::Deep);
    }
    lift_within(alloc, store, t, under, 0)
}
