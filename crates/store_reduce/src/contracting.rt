ghost use Rattle.std.specs.Prelude.{◌≡◌, ◌≤◌, ◌<◌, ◌+◌, ◌++◌, IsTrue, IfSome, true, length, take, drop, get_or};
ghost use Rattle.core_terms.specs.Bounds.{most_inner_variables};
ghost use Rattle.term_pool.specs.Held.{Extends, AddsParts, Makes, IsFullFor};
ghost use Rattle.term_pool.specs.Instantiation.{AreValues, trees_of};
ghost use Rattle.theory.specs.Spines.{head_of, spine_of};
ghost use Rattle.theory.specs.Telescopes.{applied};
ghost use Rattle.theory.specs.Terms as tree;
ghost use Rattle.kernel_reduce.specs.Calls.{HasAllArguments, hypotheses_of, iota_made};
ghost use Rattle.kernel_reduce.specs.Steps.{awaits_scrutinee};
ghost use Rattle.kernel_reduce.specs.Tests.{constructor_number, eliminator_numbers, meets};
ghost use Rattle.store_reduce.specs.Arguments.{AreLive, IsOver};
ghost use Rattle.core_sig.specs.EntryIds.{Stands};
ghost use Rattle.store_reduce.specs.Forms.{IsForm, contracted};
ghost use Rattle.store_reduce.specs.Runs.{GivesIn};

use crate::form::Form;
use crate::iota::with_hypotheses_in;
use crate::lookup::constructor_behind_in;
use crate::spines::{applied_in, arguments_in, without_last_in};
use core_sig::{Arg, Constructor, EntryIds, Family, Signature};
use core_terms::Stop;
use kernel_reduce::{constructor, family};
use std::alloc::Global;
use term_pool::{Node, TermStore};

/// The values of the variables of a family's record: the parameters of the eliminator, then the arguments of the constructor after
/// its own.
#[tactic(auto, using(crate::proofs::ValueLaws::rest_laws))]
fn values_of<I: Copy>(args: &[I], us: &[I], params: usize, alloc: Global) -> Result<Vec<I>, Stop>
    requires args { params ≤ length args.now }
    requires us { params ≤ length us.now }
    ensures { GivesIn (λ v. v.items) result (take params args.now ++ drop params us.now) }
{
    let mut values = Vec::new(alloc);
    values.extend_from_slice(&args[..params])?;
    values.extend_from_slice(&us[params..])?;
    Ok(values)
}

/// The term `at` of a list applied to the terms of another one after the first `params`.
fn method_in<S: TermStore>(
    store: &mut S,
    args: &[S::Id],
    at: usize,
    us: &[S::Id],
    params: usize,
) -> Result<S::Id, Stop>
    requires args { AreLive (S.held store.old) args.now }
    requires at { at < length args.now }
    requires us { AreLive (S.held store.old) us.now }
    requires params { params ≤ length us.now }
    ensures makes { Makes (S.held store.new) result (applied (get_or (trees_of (S.held store.old) args.now) at (tree.Sort 0)) (drop params (trees_of (S.held store.old) us.now))) }
    ensures full { IsFullFor (S.held store.new) result (applied (get_or (trees_of (S.held store.old) args.now) at (tree.Sort 0)) (drop params (trees_of (S.held store.old) us.now))) }
    ensures extends { Extends (S.held store.old) (S.held store.new) }
    ensures adds { AddsParts (S.held store.old) (S.held store.new) (applied (get_or (trees_of (S.held store.old) args.now) at (tree.Sort 0)) (drop params (trees_of (S.held store.old) us.now))) }
{
    let method = args[at];
    let _low = store.height(&method);
    applied_in(store, method, &us[params..])
}

/// The right side of iota: the method, which is argument `at` of the eliminator, at the arguments of the constructor and the hypotheses
/// for those with `codes`, over whose types `ty` is a product. Both lists of arguments begin with so many parameters.
#[tactic(auto, using(crate::proofs::SpineLaws::part_laws, kernel_reduce::proofs::CallHeights::height_applied))]
fn iota_at_in<S: TermStore>(
    alloc: Global,
    store: &mut S,
    recursor: S::Id,
    args: &[S::Id],
    us: &[S::Id],
    params: usize,
    at: usize,
    codes: &[Arg],
    ty: S::Id,
) -> Result<S::Id, Stop>
    requires recursor { IsTrue ((S.held store.old).live recursor) }
    requires recursor_free { tree.free_of ((S.held store.old).tree recursor) ≤ most_inner_variables }
    requires args { AreValues (S.held store.old) args.now }
    requires us { AreValues (S.held store.old) us.now }
    requires params { params ≤ length args.now }
    requires few { params ≤ 2000 }
    requires at { at < length args.now }
    requires us_all { length us.now ≡ params + length codes.now }
    requires live { IsTrue ((S.held store.old).live ty) }
    requires types { IsOver codes.now ((S.held store.old).tree ty) }
    ensures makes { Makes (S.held store.new) result (applied (applied (get_or (trees_of (S.held store.old) args.now) at (tree.Sort 0)) (drop params (trees_of (S.held store.old) us.now))) (hypotheses_of (take params (trees_of (S.held store.old) args.now) ++ drop params (trees_of (S.held store.old) us.now)) params ((S.held store.old).tree recursor) params codes.now)) }
    ensures full { IsFullFor (S.held store.new) result (applied (applied (get_or (trees_of (S.held store.old) args.now) at (tree.Sort 0)) (drop params (trees_of (S.held store.old) us.now))) (hypotheses_of (take params (trees_of (S.held store.old) args.now) ++ drop params (trees_of (S.held store.old) us.now)) params ((S.held store.old).tree recursor) params codes.now)) }
    ensures extends { Extends (S.held store.old) (S.held store.new) }
    ensures adds { AddsParts (S.held store.old) (S.held store.new) (applied (applied (get_or (trees_of (S.held store.old) args.now) at (tree.Sort 0)) (drop params (trees_of (S.held store.old) us.now))) (hypotheses_of (take params (trees_of (S.held store.old) args.now) ++ drop params (trees_of (S.held store.old) us.now)) params ((S.held store.old).tree recursor) params codes.now)) }
{
    let values = values_of(args, us, params, alloc)?;
    let whole = method_in(store, args, at, us, params)?;
    with_hypotheses_in(
        alloc,
        store,
        recursor,
        values.as_slice(),
        params as u32,
        codes,
        ty,
        params,
        whole,
    )
}

/// Iota at constructor `number` of the family, whose type behind the parameters is `ty`, where `f` is the eliminator with all its
/// arguments before its scrutinee `u`.
fn iota_in<S: TermStore>(
    alloc: Global,
    store: &mut S,
    family: &Family,
    n: u32,
    m: u8,
    constructor: &Constructor,
    number: u32,
    ty: S::Id,
    f: S::Id,
    u: S::Id,
) -> Result<S::Id, Stop>
    requires f_live { IsTrue ((S.held store.old).live f) }
    requires u_live { IsTrue ((S.held store.old).live u) }
    requires ty_live { IsTrue ((S.held store.old).live ty) }
    requires all { HasAllArguments family.now constructor.now number (spine_of ((S.held store.old).tree f)) (spine_of ((S.held store.old).tree u)) }
    requires indices { length (spine_of ((S.held store.old).tree f)) ≡ length family.now.params + (1 + (length family.now.cons + length family.now.indices)) }
    requires types { IsOver constructor.now.args ((S.held store.old).tree ty) }
    requires head { head_of ((S.held store.old).tree f) ≡ tree.Elim n m }
    requires f_free { tree.free_of ((S.held store.old).tree f) ≤ most_inner_variables }
    requires u_free { tree.free_of ((S.held store.old).tree u) ≤ most_inner_variables }
    ensures makes { Makes (S.held store.new) result (iota_made n m (length family.now.params) (length family.now.cons) number (spine_of ((S.held store.old).tree f)) (spine_of ((S.held store.old).tree u)) constructor.now.args) }
    ensures full { IsFullFor (S.held store.new) result (iota_made n m (length family.now.params) (length family.now.cons) number (spine_of ((S.held store.old).tree f)) (spine_of ((S.held store.old).tree u)) constructor.now.args) }
    ensures extends { Extends (S.held store.old) (S.held store.new) }
    ensures adds { AddsParts (S.held store.old) (S.held store.new) (iota_made n m (length family.now.params) (length family.now.cons) number (spine_of ((S.held store.old).tree f)) (spine_of ((S.held store.old).tree u)) constructor.now.args) }
{
    let params = family.params.as_slice().len();
    let indices = family.indices.as_slice().len();
    let recursor = without_last_in(store, f, indices as u32);
    let args = arguments_in(alloc, store, f)?;
    let us = arguments_in(alloc, store, u)?;
    iota_at_in(
        alloc,
        store,
        recursor,
        args.as_slice(),
        us.as_slice(),
        params,
        params + (1 + number as usize),
        constructor.args.as_slice(),
        ty,
    )
}

/// The contraction of `f`, an eliminator of family n that awaits its scrutinee, at `u`, where these meet.
fn eliminate_in<S: TermStore>(
    alloc: Global,
    store: &mut S,
    sig: &Signature,
    ids: &EntryIds<S::Id>,
    n: u32,
    m: u8,
    f: Form<S::Id>,
    u: Form<S::Id>,
) -> Result<S::Id, Stop>
    requires ids { Stands (S.held store.old) sig.now.entries ids.now }
    requires f { IsForm (S.held store.old) f }
    requires u { IsForm (S.held store.old) u }
    requires awaits { awaits_scrutinee sig.now (head_of ((S.held store.old).tree f.id)) (spine_of ((S.held store.old).tree f.id)) ≡ true }
    requires meets { meets sig.now (head_of ((S.held store.old).tree f.id)) (head_of ((S.held store.old).tree u.id)) (length (spine_of ((S.held store.old).tree u.id))) ≡ true }
    requires head { head_of ((S.held store.old).tree f.id) ≡ tree.Elim n m }
    requires f_free { tree.free_of ((S.held store.old).tree f.id) ≤ most_inner_variables }
    requires u_free { tree.free_of ((S.held store.old).tree u.id) ≤ most_inner_variables }
    ensures makes { Makes (S.held store.new) result (contracted sig.now ((S.held store.old).tree f.id) ((S.held store.old).tree u.id)) }
    ensures full { IsFullFor (S.held store.new) result (contracted sig.now ((S.held store.old).tree f.id) ((S.held store.old).tree u.id)) }
    ensures extends { Extends (S.held store.old) (S.held store.new) }
    ensures adds { AddsParts (S.held store.old) (S.held store.new) (contracted sig.now ((S.held store.old).tree f.id) ((S.held store.old).tree u.id)) }
{
    let _low = store.height(&f.id);
    let Some(number) = constructor_number_in(store, u.head) else {
        return Ok(u.id);
    };
    let Some(found) = family(sig, n) else {
        return Ok(u.id);
    };
    let Some(constructor) = constructor(found, number) else {
        return Ok(u.id);
    };
    let Some(ty) = constructor_behind_in(ids, n, number) else {
        return Ok(u.id);
    };
    iota_in(
        alloc,
        store,
        found,
        n,
        m,
        constructor,
        number,
        ty,
        f.id,
        u.id,
    )
}

/// The number of a constructor.
fn constructor_number_in<S: TermStore>(store: &S, t: S::Id) -> Option<u32>
    requires { IsTrue ((S.held store.now).live t) }
    ensures { result ≡ constructor_number ((S.held store.now).tree t) }
{
    match store.look(&t) {
        Node::Con(_, number) => Some(number),
        _ => None,
    }
}

/// The numbers of an eliminator: its family, and the level of its motive.
fn eliminator_numbers_in<S: TermStore>(store: &S, t: S::Id) -> Option<(u32, u8)>
    requires { IsTrue ((S.held store.now).live t) }
    ensures numbers { result ≡ eliminator_numbers ((S.held store.now).tree t) }
    ensures is { IfSome result (λ p. (S.held store.now).tree t ≡ tree.Elim p.0 p.1) }
{
    match store.look(&t) {
        Node::Elim(n, m) => Some((n, m)),
        _ => None,
    }
}

/// The last argument of an application.
fn last_argument_in<S: TermStore>(store: &S, f: S::Id) -> S::Id
    requires { IsTrue ((S.held store.now).live f) }
    ensures live { IsTrue ((S.held store.now).live result) }
    ensures last { (g a : tree.Term) → (S.held store.now).tree f ≡ tree.App g a → (S.held store.now).tree result ≡ a }
{
    match store.look(&f) {
        Node::App(_, a) => a,
        _ => f,
    }
}

/// The contraction of `f`, that awaits its scrutinee, at `u`, where these meet.
pub(crate) fn contract_in<S: TermStore>(
    alloc: Global,
    store: &mut S,
    sig: &Signature,
    ids: &EntryIds<S::Id>,
    f: Form<S::Id>,
    u: Form<S::Id>,
) -> Result<S::Id, Stop>
    requires ids { Stands (S.held store.old) sig.now.entries ids.now }
    requires f { IsForm (S.held store.old) f }
    requires u { IsForm (S.held store.old) u }
    requires awaits { awaits_scrutinee sig.now (head_of ((S.held store.old).tree f.id)) (spine_of ((S.held store.old).tree f.id)) ≡ true }
    requires meets { meets sig.now (head_of ((S.held store.old).tree f.id)) (head_of ((S.held store.old).tree u.id)) (length (spine_of ((S.held store.old).tree u.id))) ≡ true }
    requires f_free { tree.free_of ((S.held store.old).tree f.id) ≤ most_inner_variables }
    requires u_free { tree.free_of ((S.held store.old).tree u.id) ≤ most_inner_variables }
    ensures makes { Makes (S.held store.new) result (contracted sig.now ((S.held store.old).tree f.id) ((S.held store.old).tree u.id)) }
    ensures full { IsFullFor (S.held store.new) result (contracted sig.now ((S.held store.old).tree f.id) ((S.held store.old).tree u.id)) }
    ensures extends { Extends (S.held store.old) (S.held store.new) }
    ensures adds { AddsParts (S.held store.old) (S.held store.new) (contracted sig.now ((S.held store.old).tree f.id) ((S.held store.old).tree u.id)) }
{
    match eliminator_numbers_in(store, f.head) {
        Some((n, m)) => eliminate_in(alloc, store, sig, ids, n, m, f, u),
        None => {
            let last = last_argument_in(store, f.id);
            let _low = store.height(&last);
            Ok(last)
        }
    }
}
