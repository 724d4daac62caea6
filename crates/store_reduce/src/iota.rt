ghost use Rattle.std.specs.Prelude.{◌≡◌, ℕ, ◌≤◌, ◌<◌, ◌+◌, ◌-◌, List, [], IsTrue, IfSome, MatchOption, length, take, get_or};
ghost use Rattle.core_terms.specs.Bounds.{most_inner_variables};
ghost use Rattle.core_terms.specs.Instances.{instance_of};
ghost use Rattle.term_pool.specs.Held.{Extends, AddsParts, Makes, MakesUnder, IsFullFor};
ghost use Rattle.term_pool.specs.Instantiation.{AreValues, KeepsValues, trees_of};
ghost use Rattle.theory.specs.Spines.{spine_of};
ghost use Rattle.theory.specs.Telescopes.{applied, variables};
ghost use Rattle.theory.specs.Terms as tree;
ghost use Rattle.kernel_reduce.specs.Calls.{call_of, recursive_call_of, hypothesis_of, hypothesis_before, hypotheses_of};
ghost use Rattle.store_reduce.specs.Arguments.{IsOver};

use crate::spines::{applied_to_nearest_in, spine_len_in};
use core_sig::{Arg, ArgKind};
use core_terms::Stop;
use std::alloc::Global;
use term_pool::{Node, TermStore, inst_in, lift_in};

/// The last target in `ty`, after what it is applied to, where `ty` has `count` arguments, and more than `params`.
fn target_in<S: TermStore>(store: &S, params: u32, ty: S::Id, count: u32) -> Option<(S::Id, S::Id)>
    requires live { IsTrue ((S.held store.now).live ty) }
    requires count { count ≡ length (spine_of ((S.held store.now).tree ty)) }
    ensures none { MatchOption result ((values : List tree.Term) (recursor : tree.Term) (under : ℕ) → call_of values params recursor under ((S.held store.now).tree ty) ≡ tree.lift recursor under 0) (λ p. Unit {0}) }
    ensures some { IfSome result (λ p. (values : List tree.Term) (recursor : tree.Term) (under : ℕ) → call_of values params recursor under ((S.held store.now).tree ty) ≡ tree.App (call_of values params recursor under ((S.held store.now).tree p.0)) (instance_of values under ((S.held store.now).tree p.1))) }
    ensures is { IfSome result (λ p. (S.held store.now).tree ty ≡ tree.App ((S.held store.now).tree p.0) ((S.held store.now).tree p.1)) }
    ensures function_live { IfSome result (λ p. IsTrue ((S.held store.now).live p.0)) }
    ensures target_live { IfSome result (λ p. IsTrue ((S.held store.now).live p.1)) }
    ensures less { IfSome result (λ p. count ≡ length (spine_of ((S.held store.now).tree p.0)) + 1) }
{
    if count <= params {
        return None;
    }
    match store.look(&ty) {
        Node::App(f, target) => Some((f, target)),
        _ => None,
    }
}

/// The recursor at the targets in `ty`, which ends in a family at `params` parameters and these targets, and has `count` arguments.
fn call_in<S: TermStore>(
    alloc: Global,
    store: &mut S,
    recursor: S::Id,
    values: &[S::Id],
    params: u32,
    ty: S::Id,
    count: u32,
    under: u32,
) -> Result<S::Id, Stop>
    requires recursor { IsTrue ((S.held store.old).live recursor) }
    requires recursor_free { tree.free_of ((S.held store.old).tree recursor) ≤ most_inner_variables }
    requires values { AreValues (S.held store.old) values.now }
    requires live { IsTrue ((S.held store.old).live ty) }
    requires binders { under + tree.height ((S.held store.old).tree ty) ≤ 2000 }
    requires count { count ≡ length (spine_of ((S.held store.old).tree ty)) }
    ensures makes { MakesUnder under (S.held store.new) result (call_of (trees_of (S.held store.old) values.now) params ((S.held store.old).tree recursor) under ((S.held store.old).tree ty)) }
    ensures full { IsFullFor (S.held store.new) result (call_of (trees_of (S.held store.old) values.now) params ((S.held store.old).tree recursor) under ((S.held store.old).tree ty)) }
    ensures extends { Extends (S.held store.old) (S.held store.new) }
    ensures adds { AddsParts (S.held store.old) (S.held store.new) (call_of (trees_of (S.held store.old) values.now) params ((S.held store.old).tree recursor) under ((S.held store.old).tree ty)) }
{
    match target_in(store, params, ty, count) {
        Some((f, target)) => {
            let target = inst_in(alloc, store, values, target, under)?;
            let f = call_in(alloc, store, recursor, values, params, f, count - 1, under)?;
            store.make(Node::App(f, target))
        }
        None => lift_in(alloc, store, recursor, under, 0),
    }
}

/// The recursive argument `r` under so many of its inner binders, applied to their variables.
#[tactic(auto, using(crate::proofs::SpineLaws::part_laws, kernel_reduce::proofs::CallHeights::height_applied))]
fn argument_in<S: TermStore>(
    alloc: Global,
    store: &mut S,
    r: S::Id,
    under: u32,
) -> Result<S::Id, Stop>
    requires r { IsTrue ((S.held store.old).live r) }
    requires r_free { tree.free_of ((S.held store.old).tree r) ≤ most_inner_variables }
    requires under { under ≤ 2000 }
    ensures makes { Makes (S.held store.new) result (applied (tree.lift ((S.held store.old).tree r) under 0) (variables under)) }
    ensures full { IsFullFor (S.held store.new) result (applied (tree.lift ((S.held store.old).tree r) under 0) (variables under)) }
    ensures extends { Extends (S.held store.old) (S.held store.new) }
    ensures adds { AddsParts (S.held store.old) (S.held store.new) (applied (tree.lift ((S.held store.old).tree r) under 0) (variables under)) }
{
    let r = lift_in(alloc, store, r, under, 0)?;
    applied_to_nearest_in(store, r, under)
}

/// The recursive call on `r` under so many of its inner binders.
fn recursive_call_in<S: TermStore>(
    alloc: Global,
    store: &mut S,
    recursor: S::Id,
    values: &[S::Id],
    params: u32,
    r: S::Id,
    ty: S::Id,
    under: u32,
) -> Result<S::Id, Stop>
    requires recursor { IsTrue ((S.held store.old).live recursor) }
    requires recursor_free { tree.free_of ((S.held store.old).tree recursor) ≤ most_inner_variables }
    requires values { AreValues (S.held store.old) values.now }
    requires r { IsTrue ((S.held store.old).live r) }
    requires r_free { tree.free_of ((S.held store.old).tree r) ≤ most_inner_variables }
    requires live { IsTrue ((S.held store.old).live ty) }
    requires binders { under + tree.height ((S.held store.old).tree ty) ≤ 2000 }
    ensures makes { MakesUnder under (S.held store.new) result (recursive_call_of (trees_of (S.held store.old) values.now) params ((S.held store.old).tree recursor) ((S.held store.old).tree r) under ((S.held store.old).tree ty)) }
    ensures full { IsFullFor (S.held store.new) result (recursive_call_of (trees_of (S.held store.old) values.now) params ((S.held store.old).tree recursor) ((S.held store.old).tree r) under ((S.held store.old).tree ty)) }
    ensures extends { Extends (S.held store.old) (S.held store.new) }
    ensures adds { AddsParts (S.held store.old) (S.held store.new) (recursive_call_of (trees_of (S.held store.old) values.now) params ((S.held store.old).tree recursor) ((S.held store.old).tree r) under ((S.held store.old).tree ty)) }
{
    let count = spine_len_in(store, ty);
    let f = call_in(alloc, store, recursor, values, params, ty, count, under)?;
    let r = argument_in(alloc, store, r, under)?;
    store.make(Node::App(f, r))
}

/// The domain of the product `ty` and its rest, where `inner` is not 0.
fn product_in<S: TermStore>(store: &S, ty: S::Id, inner: u32) -> Option<(S::Id, S::Id)>
    requires live { IsTrue ((S.held store.now).live ty) }
    ensures none { MatchOption result ((values : List tree.Term) (params : ℕ) (recursor r : tree.Term) (under : ℕ) → hypothesis_of values params recursor r inner under ((S.held store.now).tree ty) ≡ recursive_call_of values params recursor r under ((S.held store.now).tree ty)) (λ p. Unit {0}) }
    ensures some { IfSome result (λ p. (values : List tree.Term) (params : ℕ) (recursor r : tree.Term) (under : ℕ) → hypothesis_of values params recursor r inner under ((S.held store.now).tree ty) ≡ tree.Lam (instance_of values under ((S.held store.now).tree p.0)) (hypothesis_of values params recursor r (inner - 1) (under + 1) ((S.held store.now).tree p.1))) }
    ensures is { IfSome result (λ p. (S.held store.now).tree ty ≡ tree.Pi ((S.held store.now).tree p.0) ((S.held store.now).tree p.1)) }
    ensures domain_live { IfSome result (λ p. IsTrue ((S.held store.now).live p.0)) }
    ensures rest_live { IfSome result (λ p. IsTrue ((S.held store.now).live p.1)) }
    ensures inner { IfSome result (λ p. 1 ≤ inner) }
{
    if inner == 0 {
        return None;
    }
    match store.look(&ty) {
        Node::Pi(a, b) => Some((a, b)),
        _ => None,
    }
}

/// The hypothesis for the recursive argument `r`: the recursive call on it, after functions over its inner arguments.
fn hypothesis_in<S: TermStore>(
    alloc: Global,
    store: &mut S,
    recursor: S::Id,
    values: &[S::Id],
    params: u32,
    r: S::Id,
    ty: S::Id,
    inner: u32,
    under: u32,
) -> Result<S::Id, Stop>
    requires recursor { IsTrue ((S.held store.old).live recursor) }
    requires recursor_free { tree.free_of ((S.held store.old).tree recursor) ≤ most_inner_variables }
    requires values { AreValues (S.held store.old) values.now }
    requires r { IsTrue ((S.held store.old).live r) }
    requires r_free { tree.free_of ((S.held store.old).tree r) ≤ most_inner_variables }
    requires live { IsTrue ((S.held store.old).live ty) }
    requires binders { under + tree.height ((S.held store.old).tree ty) ≤ 2000 }
    ensures makes { MakesUnder under (S.held store.new) result (hypothesis_of (trees_of (S.held store.old) values.now) params ((S.held store.old).tree recursor) ((S.held store.old).tree r) inner under ((S.held store.old).tree ty)) }
    ensures full { IsFullFor (S.held store.new) result (hypothesis_of (trees_of (S.held store.old) values.now) params ((S.held store.old).tree recursor) ((S.held store.old).tree r) inner under ((S.held store.old).tree ty)) }
    ensures extends { Extends (S.held store.old) (S.held store.new) }
    ensures adds { AddsParts (S.held store.old) (S.held store.new) (hypothesis_of (trees_of (S.held store.old) values.now) params ((S.held store.old).tree recursor) ((S.held store.old).tree r) inner under ((S.held store.old).tree ty)) }
{
    match product_in(store, ty, inner) {
        Some((a, b)) => {
            let a = inst_in(alloc, store, values, a, under)?;
            let b = hypothesis_in(
                alloc,
                store,
                recursor,
                values,
                params,
                r,
                b,
                inner - 1,
                under + 1,
            )?;
            store.make(Node::Lam(a, b))
        }
        None => recursive_call_in(alloc, store, recursor, values, params, r, ty, under),
    }
}

/// The hypothesis for a recursive argument with the type `ty`.
///
/// The first `known` values stand for the variables of that type, and the next one is the argument.
fn hypothesis_at_in<S: TermStore>(
    alloc: Global,
    store: &mut S,
    recursor: S::Id,
    values: &[S::Id],
    params: u32,
    ty: S::Id,
    known: usize,
    inner: u32,
) -> Result<S::Id, Stop>
    requires recursor { IsTrue ((S.held store.old).live recursor) }
    requires recursor_free { tree.free_of ((S.held store.old).tree recursor) ≤ most_inner_variables }
    requires values { AreValues (S.held store.old) values.now }
    requires live { IsTrue ((S.held store.old).live ty) }
    requires known { known < length values.now }
    ensures makes { Makes (S.held store.new) result (hypothesis_of (take known (trees_of (S.held store.old) values.now)) params ((S.held store.old).tree recursor) (get_or (trees_of (S.held store.old) values.now) known (tree.Sort 0)) inner 0 ((S.held store.old).tree ty)) }
    ensures full { IsFullFor (S.held store.new) result (hypothesis_of (take known (trees_of (S.held store.old) values.now)) params ((S.held store.old).tree recursor) (get_or (trees_of (S.held store.old) values.now) known (tree.Sort 0)) inner 0 ((S.held store.old).tree ty)) }
    ensures extends { Extends (S.held store.old) (S.held store.new) }
    ensures adds { AddsParts (S.held store.old) (S.held store.new) (hypothesis_of (take known (trees_of (S.held store.old) values.now)) params ((S.held store.old).tree recursor) (get_or (trees_of (S.held store.old) values.now) known (tree.Sort 0)) inner 0 ((S.held store.old).tree ty)) }
{
    let _low = store.height(&ty);
    let r = values[known];
    hypothesis_in(
        alloc,
        store,
        recursor,
        &values[..known],
        params,
        r,
        ty,
        inner,
        0,
    )
}

/// `whole` applied to the hypothesis for an argument with the type `ty`, where it is recursive.
#[tactic(auto, using(term_pool::proofs::Instancing::value_laws))]
fn with_hypothesis_in<S: TermStore>(
    alloc: Global,
    store: &mut S,
    recursor: S::Id,
    values: &[S::Id],
    params: u32,
    kind: ArgKind,
    ty: S::Id,
    known: usize,
    whole: S::Id,
) -> Result<S::Id, Stop>
    requires recursor { IsTrue ((S.held store.old).live recursor) }
    requires recursor_free { tree.free_of ((S.held store.old).tree recursor) ≤ most_inner_variables }
    requires values { AreValues (S.held store.old) values.now }
    requires live { IsTrue ((S.held store.old).live ty) }
    requires known { known < length values.now }
    requires whole { IsTrue ((S.held store.old).live whole) }
    requires low { tree.height ((S.held store.old).tree whole) ≤ 2000 }
    ensures makes { Makes (S.held store.new) result (applied ((S.held store.old).tree whole) (hypothesis_before (trees_of (S.held store.old) values.now) params ((S.held store.old).tree recursor) known ((S.held store.old).tree ty) kind [])) }
    ensures full { IsFullFor (S.held store.new) result (applied ((S.held store.old).tree whole) (hypothesis_before (trees_of (S.held store.old) values.now) params ((S.held store.old).tree recursor) known ((S.held store.old).tree ty) kind [])) }
    ensures extends { Extends (S.held store.old) (S.held store.new) }
    ensures adds { AddsParts (S.held store.old) (S.held store.new) (applied ((S.held store.old).tree whole) (hypothesis_before (trees_of (S.held store.old) values.now) params ((S.held store.old).tree recursor) known ((S.held store.old).tree ty) kind [])) }
    ensures keeps { KeepsValues (S.held store.old) (S.held store.new) values.now }
{
    match kind {
        ArgKind::Plain => Ok(whole),
        ArgKind::Recursive(inner) => {
            let h = hypothesis_at_in(alloc, store, recursor, values, params, ty, known, inner)?;
            store.make(Node::App(whole, h))
        }
    }
}

/// `whole` applied to the hypotheses for arguments after the first `known` values, where `ty` begins with products over their types.
#[tactic(auto, using(crate::proofs::SpineLaws::part_laws, kernel_reduce::proofs::CallHeights::height_applied))]
pub(crate) fn with_hypotheses_in<S: TermStore>(
    alloc: Global,
    store: &mut S,
    recursor: S::Id,
    values: &[S::Id],
    params: u32,
    args: &[Arg],
    ty: S::Id,
    known: usize,
    whole: S::Id,
) -> Result<S::Id, Stop>
    requires recursor { IsTrue ((S.held store.old).live recursor) }
    requires recursor_free { tree.free_of ((S.held store.old).tree recursor) ≤ most_inner_variables }
    requires values { AreValues (S.held store.old) values.now }
    requires live { IsTrue ((S.held store.old).live ty) }
    requires types { IsOver args.now ((S.held store.old).tree ty) }
    requires known { known + length args.now ≤ length values.now }
    requires whole { IsTrue ((S.held store.old).live whole) }
    requires low { tree.height ((S.held store.old).tree whole) ≤ 2000 }
    ensures makes { Makes (S.held store.new) result (applied ((S.held store.old).tree whole) (hypotheses_of (trees_of (S.held store.old) values.now) params ((S.held store.old).tree recursor) known args.now)) }
    ensures full { IsFullFor (S.held store.new) result (applied ((S.held store.old).tree whole) (hypotheses_of (trees_of (S.held store.old) values.now) params ((S.held store.old).tree recursor) known args.now)) }
    ensures extends { Extends (S.held store.old) (S.held store.new) }
    ensures adds { AddsParts (S.held store.old) (S.held store.new) (applied ((S.held store.old).tree whole) (hypotheses_of (trees_of (S.held store.old) values.now) params ((S.held store.old).tree recursor) known args.now)) }
{
    match args {
        [] => Ok(whole),
        [arg, rest @ ..] => match store.look(&ty) {
            Node::Pi(a, b) => {
                let whole = with_hypothesis_in(
                    alloc, store, recursor, values, params, arg.kind, a, known, whole,
                )?;
                with_hypotheses_in(
                    alloc,
                    store,
                    recursor,
                    values,
                    params,
                    rest,
                    b,
                    known + 1,
                    whole,
                )
            }
            _ => Ok(whole),
        },
    }
}
