ghost use Rattle.std.specs.Prelude.{◌≡◌, [], IsTrue, OnOk, OnErr, Err};
ghost use Rattle.core_terms.specs.declared.stop.Stop.TheVariants.{Memory};
ghost use Rattle.core_text.specs.TermReading.{is_application};
ghost use Rattle.term_pool.specs.Pools.{pool_held};
ghost use Rattle.theory.specs.Terms as tree;
ghost use Rattle.shared_text.specs.CodeMeanings.{AreLive, AreMet, trees, walked_of};
ghost use Rattle.shared_text.specs.Walks as spec;

use crate::id_set::IdSet;
use crate::tree_set::{add_tree, has_tree};
use core_terms::Stop;
use std::alloc::Global;
use term_pool::{Id, Node, Pool};

/// Printed terms in the order in which they were first ended, and those that were met at two or more places.
#[derive(Drop)]
pub(crate) struct Met {
    pub(crate) found: IdSet,
    pub(crate) again: IdSet,
}

/// A term at a place. Its own printed children are met where it is new.
#[cycle(meet)]
fn meet(pool: &Pool, met: &mut Met, id: Id) -> Result<(), Stop>
    requires live { IsTrue ((pool_held pool.now).live id) }
    requires met { AreMet pool.now met.old }
    ensures met { OnOk result (AreMet pool.now met.new) }
    ensures walked { OnOk result (walked_of pool.now met.new ≡ spec.meet (spec.meet_inside ((pool_held pool.now).tree id)) ((pool_held pool.now).tree id) (walked_of pool.now met.old)) }
    ensures memory { OnErr result (result ≡ Err Memory) }
{
    if has_found(pool, met, id) {
        return note_again(pool, met, id);
    }
    meet_inside(pool, met, id)?;
    note_found(pool, met, id)
}

/// Whether the term was met before.
fn has_found(pool: &Pool, met: &Met, id: Id) -> bool
    requires live { IsTrue ((pool_held pool.now).live id) }
    requires met { AreMet pool.now met.now }
    ensures { result ≡ spec.has_found ((pool_held pool.now).tree id) (walked_of pool.now met.now) }
{
    has_tree(pool, &met.found, id)
}

/// Notes that the term was met at a second place.
fn note_again(pool: &Pool, met: &mut Met, id: Id) -> Result<(), Stop>
    requires live { IsTrue ((pool_held pool.now).live id) }
    requires met { AreMet pool.now met.old }
    ensures met { OnOk result (AreMet pool.now met.new) }
    ensures walked { OnOk result (walked_of pool.now met.new ≡ spec.with_again ((pool_held pool.now).tree id) (walked_of pool.now met.old)) }
    ensures memory { OnErr result (result ≡ Err Memory) }
{
    add_tree(pool, &mut met.again, id)
}

/// Notes a term after its printed children.
fn note_found(pool: &Pool, met: &mut Met, id: Id) -> Result<(), Stop>
    requires live { IsTrue ((pool_held pool.now).live id) }
    requires met { AreMet pool.now met.old }
    ensures met { OnOk result (AreMet pool.now met.new) }
    ensures walked { OnOk result (walked_of pool.now met.new ≡ spec.with_found ((pool_held pool.now).tree id) (walked_of pool.now met.old)) }
    ensures memory { OnErr result (result ≡ Err Memory) }
{
    add_tree(pool, &mut met.found, id)
}

/// The printed children of a term.
#[cycle(meet)]
fn meet_inside(pool: &Pool, met: &mut Met, id: Id) -> Result<(), Stop>
    requires live { IsTrue ((pool_held pool.now).live id) }
    requires met { AreMet pool.now met.old }
    ensures met { OnOk result (AreMet pool.now met.new) }
    ensures walked { OnOk result (walked_of pool.now met.new ≡ spec.meet_inside ((pool_held pool.now).tree id) (walked_of pool.now met.old)) }
    ensures memory { OnErr result (result ≡ Err Memory) }
{
    match pool.node(id) {
        Node::Pi(first, second) | Node::Lam(first, second) => {
            meet(pool, met, first)?;
            meet(pool, met, second)
        }
        Node::App(function, argument) => {
            meet_function(pool, met, function)?;
            meet(pool, met, argument)
        }
        Node::Let(ty, value, rest) => {
            meet(pool, met, ty)?;
            meet(pool, met, value)?;
            meet(pool, met, rest)
        }
        Node::Var(_) | Node::Sort(_) | Node::Const(_) | Node::Fam(_) => Ok(()),
        Node::Con(_, _) | Node::Elim(_, _) | Node::AxiomK(_, _) => Ok(()),
    }
}

/// The function of an application: the head is at a place, and a shorter application is at none.
#[cycle(meet)]
fn meet_function(pool: &Pool, met: &mut Met, id: Id) -> Result<(), Stop>
    requires live { IsTrue ((pool_held pool.now).live id) }
    requires met { AreMet pool.now met.old }
    ensures met { OnOk result (AreMet pool.now met.new) }
    ensures walked { OnOk result (walked_of pool.now met.new ≡ spec.meet_function (spec.meet_inside ((pool_held pool.now).tree id)) ((pool_held pool.now).tree id) (walked_of pool.now met.old)) }
    ensures memory { OnErr result (result ≡ Err Memory) }
{
    if is_application(pool, id) {
        meet_inside(pool, met, id)
    } else {
        meet(pool, met, id)
    }
}

/// Whether the term is an application.
pub(crate) fn is_application(pool: &Pool, id: Id) -> bool
    requires { IsTrue ((pool_held pool.now).live id) }
    ensures { result ≡ is_application ((pool_held pool.now).tree id) }
{
    match pool.node(id) {
        Node::App(_, _) => true,
        Node::Var(_) | Node::Sort(_) | Node::Pi(_, _) | Node::Lam(_, _) | Node::Let(_, _, _) => {
            false
        }
        Node::Const(_) | Node::Fam(_) | Node::Con(_, _) | Node::Elim(_, _) => false,
        Node::AxiomK(_, _) => false,
    }
}

/// Terms at places, from left to right.
pub(crate) fn meet_all(pool: &Pool, met: &mut Met, ids: &[Id]) -> Result<(), Stop>
    requires live { AreLive pool.now ids.now }
    requires met { AreMet pool.now met.old }
    ensures met { OnOk result (AreMet pool.now met.new) }
    ensures walked { OnOk result (walked_of pool.now met.new ≡ spec.meet_all (trees pool.now ids.now) (walked_of pool.now met.old)) }
    ensures memory { OnErr result (result ≡ Err Memory) }
{
    for id in ids {
        meet(pool, met, *id)?;
    }
    Ok(())
}

/// Nothing is met yet.
pub(crate) fn nothing_met(alloc: Global) -> Met
    ensures found { result.found ≡ [] }
    ensures again { result.again ≡ [] }
{
    Met {
        found: IdSet::new(alloc),
        again: IdSet::new(alloc),
    }
}
