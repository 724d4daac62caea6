ghost use Rattle.std.specs.Prelude.{◌≤◌, ◌<◌, ◌+◌, ◌^◌, IsTrue};
ghost use Rattle.core_terms.specs.Instances.{instance_of, instance_with, under_binders};
ghost use Rattle.theory.specs.Substitutions.{fill, inst};
ghost use Rattle.theory.specs.Terms.{Var};
ghost use Rattle.theory.specs.Terms as tree;
ghost use Rattle.indexmap.specs.IndexMap.{values as rows_in};
ghost use Rattle.term_pool.specs.Held.{Extends, AddsParts, Makes, MakesUnder, IsFullFor};
ghost use Rattle.term_pool.specs.Nodes.{says, AllPass};
ghost use Rattle.term_pool.specs.Instantiation.{AreValues, Instances, KeepsValues, beyond_of, trees_of};

use crate::hashing::by_word;
use crate::shifts::{Shift, Shifts, is_quick, keep, known};
use crate::substitution::lift_low;
use crate::{Node, TermStore};
use core_terms::Stop;
use indexmap::IndexMap;
use std::alloc::Global;

/// What stands for a variable beyond those that have values.
#[derive(Clone, Copy, Debug, PartialEq, Eq)]
pub(crate) enum Beyond {
    /// `Type 0`.
    Nothing,
    /// The variable with the number that it has without those.
    Itself,
}

/// Puts values for the nearest variables of a term, the last one for the nearest, and lowers greater variables by their number. It is what
/// `subst_in` gives for one value after the other, the outermost variable first. The time goes by the number of different parts and depths.
#[tactic(auto, using(crate::proofs::Instancing::all_laws))]
pub fn subst_all_in<S: TermStore>(
    alloc: Global,
    store: &mut S,
    values: &[S::Id],
    t: S::Id,
) -> Result<S::Id, Stop>
    requires live { IsTrue ((S.held store.old).live t) }
    requires values { AreValues (S.held store.old) values.now }
    ensures makes { Makes (S.held store.new) result (inst (fill Var (trees_of (S.held store.old) values.now)) ((S.held store.old).tree t)) }
    ensures full { IsFullFor (S.held store.new) result (inst (fill Var (trees_of (S.held store.old) values.now)) ((S.held store.old).tree t)) }
    ensures extends { Extends (S.held store.old) (S.held store.new) }
    ensures adds { AddsParts (S.held store.old) (S.held store.new) (inst (fill Var (trees_of (S.held store.old) values.now)) ((S.held store.old).tree t)) }
    ensures keeps { KeepsValues (S.held store.old) (S.held store.new) values.now }
{
    let _low = store.bound(&t);
    let mut table = IndexMap::with_hasher(alloc, by_word());
    inst_at(alloc, store, &mut table, values, Beyond::Itself, t, 0)
}

/// Puts a value for every free variable of a term under so many binders: the last one for the nearest variable, and `Type 0` for a
/// variable that no value stands for. Deep only where the outcome is too high under the binders. The time goes by the number of
/// different parts and depths.
pub fn inst_in<S: TermStore>(
    alloc: Global,
    store: &mut S,
    values: &[S::Id],
    t: S::Id,
    under: u32,
) -> Result<S::Id, Stop>
    requires live { IsTrue ((S.held store.old).live t) }
    requires values { AreValues (S.held store.old) values.now }
    requires binders { under + tree.height ((S.held store.old).tree t) ≤ 2000 }
    ensures makes { MakesUnder under (S.held store.new) result (instance_of (trees_of (S.held store.old) values.now) under ((S.held store.old).tree t)) }
    ensures full { IsFullFor (S.held store.new) result (instance_of (trees_of (S.held store.old) values.now) under ((S.held store.old).tree t)) }
    ensures extends { Extends (S.held store.old) (S.held store.new) }
    ensures adds { AddsParts (S.held store.old) (S.held store.new) (instance_of (trees_of (S.held store.old) values.now) under ((S.held store.old).tree t)) }
    ensures keeps { KeepsValues (S.held store.old) (S.held store.new) values.now }
{
    let mut table = IndexMap::with_hasher(alloc, by_word());
    inst_at(alloc, store, &mut table, values, Beyond::Nothing, t, under)
}

/// Puts the values for the variables under so many binders, with the answers so far in a table.
#[cycle(inst)]
fn inst_at<S: TermStore>(
    alloc: Global,
    store: &mut S,
    table: &mut Shifts<S::Id>,
    values: &[S::Id],
    beyond: Beyond,
    t: S::Id,
    under: u32,
) -> Result<S::Id, Stop>
    requires live { IsTrue ((S.held store.old).live t) }
    requires values { AreValues (S.held store.old) values.now }
    requires binders { under + tree.height ((S.held store.old).tree t) ≤ 2000 }
    requires table { Instances (beyond_of beyond) (trees_of (S.held store.old) values.now) (S.held store.old) (rows_in table.old) }
    ensures makes { MakesUnder under (S.held store.new) result (instance_with (beyond_of beyond) (trees_of (S.held store.old) values.now) under ((S.held store.old).tree t)) }
    ensures full { IsFullFor (S.held store.new) result (instance_with (beyond_of beyond) (trees_of (S.held store.old) values.now) under ((S.held store.old).tree t)) }
    ensures extends { Extends (S.held store.old) (S.held store.new) }
    ensures adds { AddsParts (S.held store.old) (S.held store.new) (instance_with (beyond_of beyond) (trees_of (S.held store.old) values.now) under ((S.held store.old).tree t)) }
    ensures keeps { KeepsValues (S.held store.old) (S.held store.new) values.now }
    ensures table { Instances (beyond_of beyond) (trees_of (S.held store.old) values.now) (S.held store.new) (rows_in table.new) }
{
    if store.bound(&t) <= under as u64 {
        return Ok(t);
    }
    if is_quick(store.height(&t), under > 0) {
        return inst_node(alloc, store, table, values, beyond, t, under);
    }
    match known(store, table, &t, under as u64) {
        Some(answer) => Ok(answer),
        None => inst_new(alloc, store, table, values, beyond, t, under),
    }
}

/// Puts the values for the variables of a term that is not in the table yet.
#[cycle(inst)]
fn inst_new<S: TermStore>(
    alloc: Global,
    store: &mut S,
    table: &mut Shifts<S::Id>,
    values: &[S::Id],
    beyond: Beyond,
    t: S::Id,
    under: u32,
) -> Result<S::Id, Stop>
    requires live { IsTrue ((S.held store.old).live t) }
    requires values { AreValues (S.held store.old) values.now }
    requires binders { under + tree.height ((S.held store.old).tree t) ≤ 2000 }
    requires table { Instances (beyond_of beyond) (trees_of (S.held store.old) values.now) (S.held store.old) (rows_in table.old) }
    ensures makes { MakesUnder under (S.held store.new) result (instance_with (beyond_of beyond) (trees_of (S.held store.old) values.now) under ((S.held store.old).tree t)) }
    ensures full { IsFullFor (S.held store.new) result (instance_with (beyond_of beyond) (trees_of (S.held store.old) values.now) under ((S.held store.old).tree t)) }
    ensures extends { Extends (S.held store.old) (S.held store.new) }
    ensures adds { AddsParts (S.held store.old) (S.held store.new) (instance_with (beyond_of beyond) (trees_of (S.held store.old) values.now) under ((S.held store.old).tree t)) }
    ensures keeps { KeepsValues (S.held store.old) (S.held store.new) values.now }
    ensures table { Instances (beyond_of beyond) (trees_of (S.held store.old) values.now) (S.held store.new) (rows_in table.new) }
{
    let answer = inst_node(alloc, store, table, values, beyond, t, under)?;
    let row = Shift {
        from: t,
        depth: under as u64,
        answer,
    };
    keep(store, table, row)?;
    Ok(answer)
}

/// Puts the values for the variables in the parts of the node.
#[cycle(inst)]
fn inst_node<S: TermStore>(
    alloc: Global,
    store: &mut S,
    table: &mut Shifts<S::Id>,
    values: &[S::Id],
    beyond: Beyond,
    t: S::Id,
    under: u32,
) -> Result<S::Id, Stop>
    requires live { IsTrue ((S.held store.old).live t) }
    requires values { AreValues (S.held store.old) values.now }
    requires binders { under + tree.height ((S.held store.old).tree t) ≤ 2000 }
    requires table { Instances (beyond_of beyond) (trees_of (S.held store.old) values.now) (S.held store.old) (rows_in table.old) }
    ensures makes { MakesUnder under (S.held store.new) result (instance_with (beyond_of beyond) (trees_of (S.held store.old) values.now) under ((S.held store.old).tree t)) }
    ensures full { IsFullFor (S.held store.new) result (instance_with (beyond_of beyond) (trees_of (S.held store.old) values.now) under ((S.held store.old).tree t)) }
    ensures extends { Extends (S.held store.old) (S.held store.new) }
    ensures adds { AddsParts (S.held store.old) (S.held store.new) (instance_with (beyond_of beyond) (trees_of (S.held store.old) values.now) under ((S.held store.old).tree t)) }
    ensures keeps { KeepsValues (S.held store.old) (S.held store.new) values.now }
    ensures table { Instances (beyond_of beyond) (trees_of (S.held store.old) values.now) (S.held store.new) (rows_in table.new) }
{
    match store.look(&t) {
        Node::Var(n) => value_of_variable(alloc, store, values, beyond, n, under),
        Node::Pi(domain, codomain) => {
            let domain = inst_at(alloc, store, table, values, beyond, domain, under)?;
            let codomain = inst_at(alloc, store, table, values, beyond, codomain, under + 1)?;
            make_beside(store, values, Node::Pi(domain, codomain))
        }
        Node::Lam(domain, body) => {
            let domain = inst_at(alloc, store, table, values, beyond, domain, under)?;
            let body = inst_at(alloc, store, table, values, beyond, body, under + 1)?;
            make_beside(store, values, Node::Lam(domain, body))
        }
        Node::App(function, argument) => {
            let function = inst_at(alloc, store, table, values, beyond, function, under)?;
            let argument = inst_at(alloc, store, table, values, beyond, argument, under)?;
            make_beside(store, values, Node::App(function, argument))
        }
        Node::Let(ty, value, rest) => {
            let ty = inst_at(alloc, store, table, values, beyond, ty, under)?;
            let value = inst_at(alloc, store, table, values, beyond, value, under)?;
            let rest = inst_at(alloc, store, table, values, beyond, rest, under + 1)?;
            make_beside(store, values, Node::Let(ty, value, rest))
        }
        Node::Sort(_)
        | Node::Const(_)
        | Node::Fam(_)
        | Node::Con(_, _)
        | Node::Elim(_, _)
        | Node::AxiomK(_, _) => Ok(t),
    }
}

/// An id for the tree of the node, in a store that holds values.
#[tactic(auto, using(crate::proofs::Instancing::value_laws))]
fn make_beside<S: TermStore>(
    store: &mut S,
    values: &[S::Id],
    node: Node<S::Id>,
) -> Result<S::Id, Stop>
    requires node { AllPass (S.held store.old).live node }
    requires values { AreValues (S.held store.old) values.now }
    ensures makes { Makes (S.held store.new) result (says (S.held store.old).tree node) }
    ensures full { IsFullFor (S.held store.new) result (says (S.held store.old).tree node) }
    ensures extends { Extends (S.held store.old) (S.held store.new) }
    ensures adds { AddsParts (S.held store.old) (S.held store.new) (says (S.held store.old).tree node) }
    ensures keeps { KeepsValues (S.held store.old) (S.held store.new) values.now }
{
    let _values = values;
    store.make(node)
}

/// The term for a variable under so many binders.
#[tactic(auto, using(crate::proofs::Instancing::value_laws))]
fn value_of_variable<S: TermStore>(
    alloc: Global,
    store: &mut S,
    values: &[S::Id],
    beyond: Beyond,
    n: u32,
    under: u32,
) -> Result<S::Id, Stop>
    requires values { AreValues (S.held store.old) values.now }
    requires binders { under ≤ 2000 }
    ensures makes { MakesUnder under (S.held store.new) result (under_binders under (fill (beyond_of beyond) (trees_of (S.held store.old) values.now)) n) }
    ensures full { IsFullFor (S.held store.new) result (under_binders under (fill (beyond_of beyond) (trees_of (S.held store.old) values.now)) n) }
    ensures extends { Extends (S.held store.old) (S.held store.new) }
    ensures adds { AddsParts (S.held store.old) (S.held store.new) (under_binders under (fill (beyond_of beyond) (trees_of (S.held store.old) values.now)) n) }
    ensures keeps { KeepsValues (S.held store.old) (S.held store.new) values.now }
{
    if n < under {
        return store.make(Node::Var(n));
    }
    let place = (n - under) as usize;
    if place < values.len() {
        lift_low(alloc, store, values[values.len() - 1 - place], under)
    } else {
        variable_beyond(store, beyond, place - values.len(), under)
    }
}

/// What stands for a variable beyond those that have values, lifted by so many.
fn variable_beyond<S: TermStore>(
    store: &mut S,
    beyond: Beyond,
    place: usize,
    under: u32,
) -> Result<S::Id, Stop>
    requires { place + under < 2 ^ 32 }
    ensures makes { Makes (S.held store.new) result (tree.lift (beyond_of beyond place) under 0) }
    ensures full { IsFullFor (S.held store.new) result (tree.lift (beyond_of beyond place) under 0) }
    ensures extends { Extends (S.held store.old) (S.held store.new) }
    ensures adds { AddsParts (S.held store.old) (S.held store.new) (tree.lift (beyond_of beyond place) under 0) }
{
    match beyond {
        Beyond::Nothing => store.make(Node::Sort(0)),
        Beyond::Itself => store.make(Node::Var(place as u32 + under)),
    }
}
