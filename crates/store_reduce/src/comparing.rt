ghost use Rattle.std.specs.Prelude.{◌≡◌, ◌≤◌, ◌<◌, ◌+◌, ◌-◌, IsTrue, None, true, [], ◌∷◌};
ghost use Rattle.core_terms.specs.Bounds.{most_inner_variables};
ghost use Rattle.term_pool.specs.Held.{Extends};
ghost use Rattle.theory.specs.SignatureScopes.{IsScoped, IsScopedSignature};
ghost use Rattle.kernel_reduce.specs.Comparison as pure;
ghost use Rattle.core_terms.specs.Answers.{and_next};
ghost use Rattle.kernel_reduce.specs.Reduction.{nesting, whnf_of};
ghost use Rattle.kernel_reduce.specs.Steps.{step_of};
ghost use Rattle.store_reduce.specs.Additions.{AddsOnly, IsFullOf};
ghost use Rattle.core_sig.specs.EntryIds.{Stands};
ghost use Rattle.store_reduce.specs.Formed.{IsFormedPart};
ghost use Rattle.store_reduce.specs.Runs.{RunsIn};

use crate::head_forms::head_form_in;
use crate::nodes::{leaves_same_in, pairs_in};
use core_sig::{EntryIds, Signature};
use core_terms::{Stop, Units};
use std::alloc::Global;
use term_pool::TermStore;

/// Whether the terms are found convertible, where `room` calls may be open.
#[cycle(compare)]
pub(crate) fn compare_in<S: TermStore>(
    alloc: Global,
    store: &mut S,
    sig: &Signature,
    ids: &EntryIds<S::Id>,
    a: S::Id,
    b: S::Id,
    room: u32,
    units: &mut Units,
) -> Result<bool, Stop>
    requires room { room ≤ nesting }
    requires signature { IsScopedSignature sig.now }
    requires ids { Stands (S.held store.old) sig.now.entries ids.now }
    requires a_live { IsTrue ((S.held store.old).live a) }
    requires b_live { IsTrue ((S.held store.old).live b) }
    requires a { IsScoped sig.now (most_inner_variables - room) ((S.held store.old).tree a) }
    requires b { IsScoped sig.now (most_inner_variables - room) ((S.held store.old).tree b) }
    ensures answer { RunsIn (λ holds. holds) result units.new.left (pure.convertible_of sig.now room ((S.held store.old).tree a) ((S.held store.old).tree b) units.old.left) }
    ensures extends { Extends (S.held store.old) (S.held store.new) }
    ensures adds { AddsOnly (IsFormedPart sig.now true (((S.held store.old).tree a) ∷ ((S.held store.old).tree b) ∷ [])) (S.held store.old) (S.held store.new) }
    ensures full { IsFullOf (IsFormedPart sig.now true (((S.held store.old).tree a) ∷ ((S.held store.old).tree b) ∷ [])) (S.held store.new) result }
    ensures sum { units.new.left + units.new.spent ≡ units.old.left + units.old.spent }
    ensures spends { units.new.left ≤ units.old.left }
{
    if room == 0 {
        return Err(Stop::Deep);
    }
    let _low = (store.height(&a), store.height(&b));
    units.spend()?;
    if store.same(&a, &b) {
        return Ok(true);
    }
    compare_forms_in(alloc, store, sig, ids, a, b, room - 1, units)
}

/// Whether the head forms of two terms are found convertible, where `room` calls more may be open.
#[cycle(compare)]
#[tactic(auto, using(crate::proofs::ComparedParts::formed_laws))]
fn compare_forms_in<S: TermStore>(
    alloc: Global,
    store: &mut S,
    sig: &Signature,
    ids: &EntryIds<S::Id>,
    a: S::Id,
    b: S::Id,
    room: u32,
    units: &mut Units,
) -> Result<bool, Stop>
    requires room { room < nesting }
    requires signature { IsScopedSignature sig.now }
    requires ids { Stands (S.held store.old) sig.now.entries ids.now }
    requires a_live { IsTrue ((S.held store.old).live a) }
    requires b_live { IsTrue ((S.held store.old).live b) }
    requires a { IsScoped sig.now (most_inner_variables - (room + 1)) ((S.held store.old).tree a) }
    requires b { IsScoped sig.now (most_inner_variables - (room + 1)) ((S.held store.old).tree b) }
    ensures answer { RunsIn (λ holds. holds) result units.new.left (pure.on_heads sig.now ((S.held store.old).tree a) ((S.held store.old).tree b) (pure.heads_convertible (pure.convertible_of sig.now room)) units.old.left) }
    ensures extends { Extends (S.held store.old) (S.held store.new) }
    ensures adds { AddsOnly (IsFormedPart sig.now true (((S.held store.old).tree a) ∷ ((S.held store.old).tree b) ∷ [])) (S.held store.old) (S.held store.new) }
    ensures full { IsFullOf (IsFormedPart sig.now true (((S.held store.old).tree a) ∷ ((S.held store.old).tree b) ∷ [])) (S.held store.new) result }
    ensures sum { units.new.left + units.new.spent ≡ units.old.left + units.old.spent }
    ensures spends { units.new.left ≤ units.old.left }
{
    let a = head_form_in(alloc, store, sig, ids, a, true, units)?;
    compare_head_in(alloc, store, sig, ids, a, b, room, units)
}

/// Whether a term without a head step is found convertible with the head form of another one, where `room` calls more may be open.
#[cycle(compare)]
#[tactic(auto, using(crate::proofs::ComparedParts::formed_laws))]
fn compare_head_in<S: TermStore>(
    alloc: Global,
    store: &mut S,
    sig: &Signature,
    ids: &EntryIds<S::Id>,
    a: S::Id,
    b: S::Id,
    room: u32,
    units: &mut Units,
) -> Result<bool, Stop>
    requires room { room < nesting }
    requires signature { IsScopedSignature sig.now }
    requires ids { Stands (S.held store.old) sig.now.entries ids.now }
    requires a_live { IsTrue ((S.held store.old).live a) }
    requires b_live { IsTrue ((S.held store.old).live b) }
    requires a { IsScoped sig.now (most_inner_variables - (room + 1)) ((S.held store.old).tree a) }
    requires b { IsScoped sig.now (most_inner_variables - (room + 1)) ((S.held store.old).tree b) }
    requires a_rests { step_of sig.now true ((S.held store.old).tree a) ≡ None }
    ensures answer { RunsIn (λ holds. holds) result units.new.left (and_next (whnf_of sig.now true units.old.left ((S.held store.old).tree b)) (pure.heads_convertible (pure.convertible_of sig.now room) ((S.held store.old).tree a))) }
    ensures extends { Extends (S.held store.old) (S.held store.new) }
    ensures adds { AddsOnly (IsFormedPart sig.now true (((S.held store.old).tree a) ∷ ((S.held store.old).tree b) ∷ [])) (S.held store.old) (S.held store.new) }
    ensures full { IsFullOf (IsFormedPart sig.now true (((S.held store.old).tree a) ∷ ((S.held store.old).tree b) ∷ [])) (S.held store.new) result }
    ensures sum { units.new.left + units.new.spent ≡ units.old.left + units.old.spent }
    ensures spends { units.new.left ≤ units.old.left }
{
    let b = head_form_in(alloc, store, sig, ids, b, true, units)?;
    compare_heads_in(alloc, store, sig, ids, a, b, room, units)
}

/// Whether two terms without a head step are found convertible, where `room` calls more may be open.
#[cycle(compare)]
fn compare_heads_in<S: TermStore>(
    alloc: Global,
    store: &mut S,
    sig: &Signature,
    ids: &EntryIds<S::Id>,
    a: S::Id,
    b: S::Id,
    room: u32,
    units: &mut Units,
) -> Result<bool, Stop>
    requires room { room < nesting }
    requires signature { IsScopedSignature sig.now }
    requires ids { Stands (S.held store.old) sig.now.entries ids.now }
    requires a_live { IsTrue ((S.held store.old).live a) }
    requires b_live { IsTrue ((S.held store.old).live b) }
    requires a { IsScoped sig.now (most_inner_variables - (room + 1)) ((S.held store.old).tree a) }
    requires b { IsScoped sig.now (most_inner_variables - (room + 1)) ((S.held store.old).tree b) }
    requires a_rests { step_of sig.now true ((S.held store.old).tree a) ≡ None }
    requires b_rests { step_of sig.now true ((S.held store.old).tree b) ≡ None }
    ensures answer { RunsIn (λ holds. holds) result units.new.left (pure.heads_convertible (pure.convertible_of sig.now room) ((S.held store.old).tree a) ((S.held store.old).tree b) units.old.left) }
    ensures extends { Extends (S.held store.old) (S.held store.new) }
    ensures adds { AddsOnly (IsFormedPart sig.now true (((S.held store.old).tree a) ∷ ((S.held store.old).tree b) ∷ [])) (S.held store.old) (S.held store.new) }
    ensures full { IsFullOf (IsFormedPart sig.now true (((S.held store.old).tree a) ∷ ((S.held store.old).tree b) ∷ [])) (S.held store.new) result }
    ensures sum { units.new.left + units.new.spent ≡ units.old.left + units.old.spent }
    ensures spends { units.new.left ≤ units.old.left }
{
    match pairs_in(store, a, b) {
        Some(p) => compare_both_in(alloc, store, sig, ids, p.a, p.b, p.c, p.d, room, units),
        None => Ok(leaves_same_in(store, a, b)),
    }
}

/// Whether `a` is found convertible with `c`, and then `b` with `d`.
#[cycle(compare)]
#[tactic(auto, using(crate::proofs::ComparedParts::formed_laws))]
fn compare_both_in<S: TermStore>(
    alloc: Global,
    store: &mut S,
    sig: &Signature,
    ids: &EntryIds<S::Id>,
    a: S::Id,
    b: S::Id,
    c: S::Id,
    d: S::Id,
    room: u32,
    units: &mut Units,
) -> Result<bool, Stop>
    requires room { room < nesting }
    requires signature { IsScopedSignature sig.now }
    requires ids { Stands (S.held store.old) sig.now.entries ids.now }
    requires a_live { IsTrue ((S.held store.old).live a) }
    requires b_live { IsTrue ((S.held store.old).live b) }
    requires c_live { IsTrue ((S.held store.old).live c) }
    requires d_live { IsTrue ((S.held store.old).live d) }
    requires a { IsScoped sig.now (most_inner_variables - room) ((S.held store.old).tree a) }
    requires b { IsScoped sig.now (most_inner_variables - room) ((S.held store.old).tree b) }
    requires c { IsScoped sig.now (most_inner_variables - room) ((S.held store.old).tree c) }
    requires d { IsScoped sig.now (most_inner_variables - room) ((S.held store.old).tree d) }
    ensures answer { RunsIn (λ holds. holds) result units.new.left (pure.both (pure.convertible_of sig.now room ((S.held store.old).tree a) ((S.held store.old).tree c)) (pure.convertible_of sig.now room ((S.held store.old).tree b) ((S.held store.old).tree d)) units.old.left) }
    ensures extends { Extends (S.held store.old) (S.held store.new) }
    ensures adds { AddsOnly (IsFormedPart sig.now true (((S.held store.old).tree a) ∷ ((S.held store.old).tree b) ∷ ((S.held store.old).tree c) ∷ ((S.held store.old).tree d) ∷ [])) (S.held store.old) (S.held store.new) }
    ensures full { IsFullOf (IsFormedPart sig.now true (((S.held store.old).tree a) ∷ ((S.held store.old).tree b) ∷ ((S.held store.old).tree c) ∷ ((S.held store.old).tree d) ∷ [])) (S.held store.new) result }
    ensures sum { units.new.left + units.new.spent ≡ units.old.left + units.old.spent }
    ensures spends { units.new.left ≤ units.old.left }
{
    if !compare_in(alloc, store, sig, ids, a, c, room, units)? {
        return Ok(false);
    }
    compare_in(alloc, store, sig, ids, b, d, room, units)
}
