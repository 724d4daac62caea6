ghost use Rattle.std.specs.Prelude.{IsTrue, IfOk};
ghost use Rattle.term_pool.specs.Held.{Extends};
ghost use Rattle.term_pool.specs.Pools.{pool_held};

use core_terms::{Stop, Term};
use std::alloc::Global;
use std::test::Fail;
use term_pool::{
    Answer, Id, Key, Node, Pool, Row, TermStore, Trees, export_in, import_in, lift_in, subst_in,
};

/// Whether a pool of three nodes that is full has room for a node that is there, and for no other.
fn is_filled(pool: &mut Pool) -> Result<bool, Stop> {
    let first = pool.intern(Node::Sort(0))?;
    let _second = pool.intern(Node::Sort(1))?;
    let _third = pool.intern(Node::Sort(2))?;
    let again = pool.intern(Node::Sort(0))?;
    let refused = pool.intern(Node::Sort(3));
    Ok(again == first && refused == Err(Stop::PoolFull) && pool.len() == 3)
}

/// Whether the nodes since a mark are given up, and no others.
fn goes_back(pool: &mut Pool) -> Result<bool, Stop> {
    let first = pool.intern(Node::Sort(0))?;
    let mark = pool.mark();
    let _second = pool.intern(Node::Sort(1))?;
    pool.release(mark);
    let _third = pool.intern(Node::Sort(2))?;
    Ok(pool.len() == 2 && pool.node(first) == Node::Sort(0))
}

/// Whether the term comes back from the pool, which has two nodes for it.
fn is_shared(pool: &mut Pool, t: &Term) -> Result<bool, Stop> {
    let id = pool.import(t)?;
    let back = pool.export(id)?;
    Ok(back.same(t) && pool.len() == 2)
}

/// `p n` over the id, where `p 0` is the id and `p (k + 1)` is `p k` applied to itself.
fn tower(pool: &mut Pool, floor: Id, floors: u32) -> Result<Id, Stop>
    requires { IsTrue ((pool_held pool.old).live floor) }
    ensures live { IfOk result (λ id. IsTrue ((pool_held pool.new).live id)) }
    ensures extends { Extends (pool_held pool.old) (pool_held pool.new) }
{
    let mut top = floor;
    for _ in 0..floors {
        top = pool.intern(Node::App(top, top))?;
    }
    Ok(top)
}

/// Whether a lift and a substitution make one node for each floor of a tower, whose tree has more than 2 ^ 1000 nodes.
fn is_taken_once(alloc: Global, pool: &mut Pool) -> Result<bool, Stop> {
    let x = pool.intern(Node::Var(0))?;
    let sort = pool.intern(Node::Sort(0))?;
    let over_x = tower(pool, x, 1000)?;
    if pool.bound(&over_x) > 1 || pool.bound(&sort) > 0 {
        return Ok(false);
    }
    let lifted = lift_in(alloc, pool, over_x, 1, 0)?;
    let put = subst_in(alloc, pool, lifted, 1, sort)?;
    let over_sort = tower(pool, sort, 1000)?;
    Ok(pool.same(&put, &over_sort) && pool.height(put) == 1001 && pool.len() == 3003)
}

/// Whether the store has `wanted` for `t` with `by` put for variable 0.
fn is_put<S: TermStore>(
    alloc: Global,
    store: &mut S,
    t: &Term,
    by: &Term,
    wanted: &Term,
) -> Result<bool, Stop> {
    let t = import_in(store, t)?;
    let by = import_in(store, by)?;
    if store.bound(&by) > 9 {
        return Ok(false);
    }
    let put = subst_in(alloc, store, t, 0, by)?;
    let back = export_in(alloc, store, put)?;
    Ok(back.same(wanted))
}

/// Whether rows fall with the length at which they were made, and with the ids that they name.
fn rows_fall(pool: &mut Pool) -> Result<bool, Stop> {
    let stays = pool.intern(Node::Sort(0))?;
    let mark = pool.mark();
    let goes = pool.intern(Node::Sort(1))?;
    let answer = Answer::Term(stays);
    let row = Row {
        answer,
        spent: 2,
        reached: 1,
        peak: 3,
    };
    let key = Key::Whnf(stays, true);
    let other = Key::Convertible(stays, goes);
    pool.at_length(7);
    pool.note(key, row);
    pool.note(other, row);
    let both = pool.recall(&key) == Some(row) && pool.recall(&other) == Some(row);
    pool.release(mark);
    pool.truncate_memo();
    let one = pool.recall(&key) == Some(row) && pool.recall(&other) == None;
    pool.at_length(6);
    pool.at_length(7);
    Ok(both && one && pool.recall(&key) == None)
}

#[test]
fn a_full_pool_has_room_for_what_is_there(rt: HostRuntime) -> Result<(), Fail> {
    let mut pool = Pool::new(rt.alloc(), 3)?;
    assert!(rt; is_filled(&mut pool)?);
    Ok(())
}

#[test]
fn a_mark_is_gone_back_to(rt: HostRuntime) -> Result<(), Fail> {
    let mut pool = Pool::new(rt.alloc(), 3)?;
    assert!(rt; goes_back(&mut pool)?);
    Ok(())
}

#[test]
fn equal_parts_are_shared(rt: HostRuntime) -> Result<(), Fail> {
    let t = Term::new_pi(rt.alloc(), Term::Sort(0), Term::Sort(0))?;
    let mut pool = Pool::new(rt.alloc(), 3)?;
    assert!(rt; is_shared(&mut pool, &t)?);
    Ok(())
}

#[test]
fn a_call_takes_a_shared_part_once(rt: HostRuntime) -> Result<(), Fail> {
    let mut pool = Pool::new(rt.alloc(), 10_000)?;
    assert!(rt; is_taken_once(rt.alloc(), &mut pool)?);
    Ok(())
}

#[test]
fn trees_substitute_as_terms_do(rt: HostRuntime) -> Result<(), Fail> {
    let t = Term::new_lam(rt.alloc(), Term::Sort(0), Term::Var(1))?;
    let wanted = Term::new_lam(rt.alloc(), Term::Sort(0), Term::Var(3))?;
    let mut trees = Trees::new(rt.alloc());
    assert!(rt; is_put(rt.alloc(), &mut trees, &t, &Term::Var(2), &wanted)?);
    Ok(())
}

#[test]
fn rows_fall_with_their_length_and_their_ids(rt: HostRuntime) -> Result<(), Fail> {
    let mut pool = Pool::new(rt.alloc(), 10)?;
    assert!(rt; rows_fall(&mut pool)?);
    Ok(())
}
