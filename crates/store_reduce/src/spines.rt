ghost use Rattle.std.specs.Prelude.{◌≡◌, ◌≤◌, ◌-◌, IsTrue, IfOk, length, take};
ghost use Rattle.term_pool.specs.Instantiation.{trees_of};
ghost use Rattle.term_pool.specs.Held.{Extends, AddsParts, Makes, IsFullFor};
ghost use Rattle.theory.specs.Spines.{head_of, spine_of};
ghost use Rattle.theory.specs.Telescopes.{applied, variables};
ghost use Rattle.theory.specs.Terms as tree;
ghost use Rattle.store_reduce.specs.Arguments.{AreLive};
ghost use Rattle.store_reduce.specs.Runs.{GivesIn};

use core_terms::Stop;
use std::alloc::Global;
use term_pool::{Node, TermStore};

/// The arguments of a term, the first one first.
#[tactic(auto, using(crate::proofs::SpineLaws::push_laws))]
pub(crate) fn arguments_in<S: TermStore>(
    alloc: Global,
    store: &S,
    t: S::Id,
) -> Result<Vec<S::Id>, Stop>
    requires { IsTrue ((S.held store.now).live t) }
    ensures answer { GivesIn (λ v. trees_of (S.held store.now) v.items) result (spine_of ((S.held store.now).tree t)) }
    ensures live { IfOk result (λ v. AreLive (S.held store.now) v.items) }
{
    match store.look(&t) {
        Node::App(f, a) => {
            let mut args = arguments_in(alloc, store, f)?;
            args.push(a)?;
            Ok(args)
        }
        _ => Ok(Vec::new(alloc)),
    }
}

/// The number of arguments of a term.
#[tactic(auto, using(kernel_reduce::proofs::SpineLengths::spine_fits))]
pub(crate) fn spine_len_in<S: TermStore>(store: &S, t: S::Id) -> u32
    requires { IsTrue ((S.held store.now).live t) }
    ensures { result ≡ length (spine_of ((S.held store.now).tree t)) }
{
    match store.look(&t) {
        Node::App(f, _) => spine_len_in(store, f) + 1,
        _ => 0,
    }
}

/// The term without its last `count` arguments.
pub(crate) fn without_last_in<S: TermStore>(store: &S, t: S::Id, count: u32) -> S::Id
    requires live { IsTrue ((S.held store.now).live t) }
    requires count { count ≤ length (spine_of ((S.held store.now).tree t)) }
    ensures live { IsTrue ((S.held store.now).live result) }
    ensures tree { (S.held store.now).tree result ≡ applied (head_of ((S.held store.now).tree t)) (take (length (spine_of ((S.held store.now).tree t)) - count) (spine_of ((S.held store.now).tree t))) }
{
    if count == 0 {
        return t;
    }
    match store.look(&t) {
        Node::App(f, _) => without_last_in(store, f, count - 1),
        _ => t,
    }
}

/// The last one of the first `count` ids.
fn last_in<S: TermStore>(store: &S, args: &[S::Id], count: usize) -> S::Id
    requires args { AreLive (S.held store.now) args.now }
    requires some { 1 ≤ count }
    requires count { count ≤ length args.now }
    ensures live { IsTrue ((S.held store.now).live result) }
    ensures last { (h : tree.Term) → applied h (take count (trees_of (S.held store.now) args.now)) ≡ tree.App (applied h (take (count - 1) (trees_of (S.held store.now) args.now))) ((S.held store.now).tree result) }
{
    let _store = store;
    args[count - 1]
}

/// The term applied to the first `count` terms of a list.
fn applied_first_in<S: TermStore>(
    store: &mut S,
    f: S::Id,
    args: &[S::Id],
    count: usize,
) -> Result<S::Id, Stop>
    requires live { IsTrue ((S.held store.old).live f) }
    requires low { tree.height ((S.held store.old).tree f) ≤ 2000 }
    requires args { AreLive (S.held store.old) args.now }
    requires count { count ≤ length args.now }
    ensures makes { Makes (S.held store.new) result (applied ((S.held store.old).tree f) (take count (trees_of (S.held store.old) args.now))) }
    ensures full { IsFullFor (S.held store.new) result (applied ((S.held store.old).tree f) (take count (trees_of (S.held store.old) args.now))) }
    ensures extends { Extends (S.held store.old) (S.held store.new) }
    ensures adds { AddsParts (S.held store.old) (S.held store.new) (applied ((S.held store.old).tree f) (take count (trees_of (S.held store.old) args.now))) }
{
    if count == 0 {
        return Ok(f);
    }
    let last = last_in(store, args, count);
    let f = applied_first_in(store, f, args, count - 1)?;
    store.make(Node::App(f, last))
}

/// The term applied to the terms of a list.
#[tactic(auto, using(crate::proofs::SpineLaws::whole_laws))]
pub(crate) fn applied_in<S: TermStore>(
    store: &mut S,
    f: S::Id,
    args: &[S::Id],
) -> Result<S::Id, Stop>
    requires live { IsTrue ((S.held store.old).live f) }
    requires low { tree.height ((S.held store.old).tree f) ≤ 2000 }
    requires args { AreLive (S.held store.old) args.now }
    ensures makes { Makes (S.held store.new) result (applied ((S.held store.old).tree f) (trees_of (S.held store.old) args.now)) }
    ensures full { IsFullFor (S.held store.new) result (applied ((S.held store.old).tree f) (trees_of (S.held store.old) args.now)) }
    ensures extends { Extends (S.held store.old) (S.held store.new) }
    ensures adds { AddsParts (S.held store.old) (S.held store.new) (applied ((S.held store.old).tree f) (trees_of (S.held store.old) args.now)) }
{
    applied_first_in(store, f, args, args.len())
}

/// The term applied to a variable.
fn applied_to_variable_in<S: TermStore>(store: &mut S, f: S::Id, n: u32) -> Result<S::Id, Stop>
    requires live { IsTrue ((S.held store.old).live f) }
    ensures makes { Makes (S.held store.new) result (tree.App ((S.held store.old).tree f) (tree.Var n)) }
    ensures full { IsFullFor (S.held store.new) result (tree.App ((S.held store.old).tree f) (tree.Var n)) }
    ensures extends { Extends (S.held store.old) (S.held store.new) }
    ensures adds { AddsParts (S.held store.old) (S.held store.new) (tree.App ((S.held store.old).tree f) (tree.Var n)) }
{
    let variable = store.make(Node::Var(n))?;
    store.make(Node::App(f, variable))
}

/// The term applied to the nearest `count` variables, from the outermost on.
#[tactic(auto, using(crate::proofs::SpineLaws::variable_laws, kernel_reduce::proofs::CallHeights::height_applied))]
pub(crate) fn applied_to_nearest_in<S: TermStore>(
    store: &mut S,
    f: S::Id,
    count: u32,
) -> Result<S::Id, Stop>
    requires live { IsTrue ((S.held store.old).live f) }
    requires low { tree.height ((S.held store.old).tree f) ≤ 2000 }
    ensures makes { Makes (S.held store.new) result (applied ((S.held store.old).tree f) (variables count)) }
    ensures full { IsFullFor (S.held store.new) result (applied ((S.held store.old).tree f) (variables count)) }
    ensures extends { Extends (S.held store.old) (S.held store.new) }
    ensures adds { AddsParts (S.held store.old) (S.held store.new) (applied ((S.held store.old).tree f) (variables count)) }
{
    if count == 0 {
        return Ok(f);
    }
    let f = applied_to_variable_in(store, f, count - 1)?;
    applied_to_nearest_in(store, f, count - 1)
}
