//! The public calls: a type of a term, the sort of a type, and a check against a type, with units, over ids.
//!
//! A context lists the ids of its types from the outermost on. Units, errors and verdicts are those of the calls of `kernel_check` on the
//! trees; PoolFull comes where the store has no room for a part of a term that the checker forms. A denial's terms are written out.
ghost use Rattle.std.specs.Prelude.{◌≡◌, ◌≤◌, ◌+◌, [], ◌∷◌, IfOk, IsTrue, length, map};
ghost use Rattle.std.specs.List.{All};
ghost use Rattle.theory.specs.Telescopes.{context_behind};
ghost use Rattle.theory.specs.Typing.{IsContext, IsType};
ghost use Rattle.theory.specs.WellFormed.{IsTyped};
ghost use Rattle.term_pool.specs.Held.{Extends};
ghost use Rattle.kernel_reduce.specs.Reduction.{nesting};
ghost use Rattle.kernel_reduce.specs.WellScoped.{AreWellScoped};
ghost use Rattle.kernel_check.specs.Checking.{check_of, infer_of, infer_sort_of};
ghost use Rattle.kernel_check.specs.Laws.{HasType, HasUniverse, HasWanted, IfYes, IsScopedVerdict, IsSort};
ghost use Rattle.store_reduce.specs.Additions.{AddsOnly, IsFullOf};
ghost use Rattle.core_sig.specs.EntryIds.{Stands};
ghost use Rattle.store_reduce.specs.Runs.{RunsIn};
ghost use Rattle.kernel_check.specs.Asked.{IsCheckedAgainst, IsCheckedPart};
ghost use Rattle.kernel_check.specs.Verdicts.{IsLiveVerdict, verdict_in};

use crate::VerdictIn;
use crate::checking::{check_at, infer_at, infer_sort_at};
use crate::scope::Scope;
use core_sig::{EntryIds, Signature};
use core_terms::{Items, Stop, Units};
use kernel_reduce::NESTING;
use std::alloc::Global;
use term_pool::TermStore;

/// A type of the term in the context, as `kernel_check::infer`.
pub fn infer_in<S: TermStore>(
    alloc: Global,
    store: &mut S,
    sig: &Signature,
    ids: &EntryIds<S::Id>,
    ctx: &Items<S::Id>,
    t: S::Id,
    units: &mut Units,
) -> Result<VerdictIn<S::Id>, Stop>
    requires t_live { IsTrue ((S.held store.old).live t) }
    requires context_live { All (λ a. IsTrue ((S.held store.old).live a)) ctx.now }
    requires ids { Stands (S.held store.old) sig.now.entries ids.now }
    requires asked { AreWellScoped sig.now (map (S.held store.old).tree ctx.now) (((S.held store.old).tree t) ∷ []) }
    ensures answer { RunsIn (verdict_in (S.held store.new).tree) result units.new.left (infer_of sig.now nesting (context_behind [] (map (S.held store.old).tree ctx.now)) ((S.held store.old).tree t) units.old.left) }
    ensures live { IfOk result (IsLiveVerdict (S.held store.new)) }
    ensures extends { Extends (S.held store.old) (S.held store.new) }
    ensures adds { AddsOnly (IsCheckedPart sig.now (context_behind [] (map (S.held store.old).tree ctx.now)) ((S.held store.old).tree t)) (S.held store.old) (S.held store.new) }
    ensures full { IsFullOf (IsCheckedPart sig.now (context_behind [] (map (S.held store.old).tree ctx.now)) ((S.held store.old).tree t)) (S.held store.new) result }
    ensures sum { units.new.left + units.new.spent ≡ units.old.left + units.old.spent }
    ensures spends { units.new.left ≤ units.old.left }
    ensures sound { IsTyped sig.now → IsContext sig.now (context_behind [] (map (S.held store.old).tree ctx.now)) → IfOk result (λ v. IfYes (verdict_in (S.held store.new).tree v) (HasType sig.now (context_behind [] (map (S.held store.old).tree ctx.now)) ((S.held store.old).tree t))) }
    ensures scoped { IfOk result (λ v. IsScopedVerdict sig.now (length ctx.now) (verdict_in (S.held store.new).tree v)) }
{
    infer_at(
        alloc,
        store,
        sig,
        ids,
        &Scope::Given(ctx.as_slice()),
        t,
        NESTING,
        units,
    )
}

/// The sort of the type `t` in the context, as `kernel_check::infer_sort`.
pub fn infer_sort_in<S: TermStore>(
    alloc: Global,
    store: &mut S,
    sig: &Signature,
    ids: &EntryIds<S::Id>,
    ctx: &Items<S::Id>,
    t: S::Id,
    units: &mut Units,
) -> Result<VerdictIn<S::Id>, Stop>
    requires t_live { IsTrue ((S.held store.old).live t) }
    requires context_live { All (λ a. IsTrue ((S.held store.old).live a)) ctx.now }
    requires ids { Stands (S.held store.old) sig.now.entries ids.now }
    requires asked { AreWellScoped sig.now (map (S.held store.old).tree ctx.now) (((S.held store.old).tree t) ∷ []) }
    ensures answer { RunsIn (verdict_in (S.held store.new).tree) result units.new.left (infer_sort_of sig.now nesting (context_behind [] (map (S.held store.old).tree ctx.now)) ((S.held store.old).tree t) units.old.left) }
    ensures live { IfOk result (IsLiveVerdict (S.held store.new)) }
    ensures extends { Extends (S.held store.old) (S.held store.new) }
    ensures adds { AddsOnly (IsCheckedPart sig.now (context_behind [] (map (S.held store.old).tree ctx.now)) ((S.held store.old).tree t)) (S.held store.old) (S.held store.new) }
    ensures full { IsFullOf (IsCheckedPart sig.now (context_behind [] (map (S.held store.old).tree ctx.now)) ((S.held store.old).tree t)) (S.held store.new) result }
    ensures sum { units.new.left + units.new.spent ≡ units.old.left + units.old.spent }
    ensures spends { units.new.left ≤ units.old.left }
    ensures sound { IsTyped sig.now → IsContext sig.now (context_behind [] (map (S.held store.old).tree ctx.now)) → IfOk result (λ v. IfYes (verdict_in (S.held store.new).tree v) (HasUniverse sig.now (context_behind [] (map (S.held store.old).tree ctx.now)) ((S.held store.old).tree t))) }
    ensures sort { IfOk result (λ v. IfYes (verdict_in (S.held store.new).tree v) (IsSort)) }
    ensures scoped { IfOk result (λ v. IsScopedVerdict sig.now (length ctx.now) (verdict_in (S.held store.new).tree v)) }
{
    infer_sort_at(
        alloc,
        store,
        sig,
        ids,
        &Scope::Given(ctx.as_slice()),
        t,
        NESTING,
        units,
    )
}

/// Whether the term has the type `wanted` in the context, as `kernel_check::check`.
pub fn check_in<S: TermStore>(
    alloc: Global,
    store: &mut S,
    sig: &Signature,
    ids: &EntryIds<S::Id>,
    ctx: &Items<S::Id>,
    t: S::Id,
    wanted: S::Id,
    units: &mut Units,
) -> Result<VerdictIn<S::Id>, Stop>
    requires t_live { IsTrue ((S.held store.old).live t) }
    requires wanted_live { IsTrue ((S.held store.old).live wanted) }
    requires context_live { All (λ a. IsTrue ((S.held store.old).live a)) ctx.now }
    requires ids { Stands (S.held store.old) sig.now.entries ids.now }
    requires asked { AreWellScoped sig.now (map (S.held store.old).tree ctx.now) (((S.held store.old).tree t) ∷ ((S.held store.old).tree wanted) ∷ []) }
    ensures answer { RunsIn (verdict_in (S.held store.new).tree) result units.new.left (check_of sig.now nesting (context_behind [] (map (S.held store.old).tree ctx.now)) ((S.held store.old).tree t) ((S.held store.old).tree wanted) units.old.left) }
    ensures live { IfOk result (IsLiveVerdict (S.held store.new)) }
    ensures extends { Extends (S.held store.old) (S.held store.new) }
    ensures adds { AddsOnly (IsCheckedAgainst sig.now (context_behind [] (map (S.held store.old).tree ctx.now)) ((S.held store.old).tree t) ((S.held store.old).tree wanted)) (S.held store.old) (S.held store.new) }
    ensures full { IsFullOf (IsCheckedAgainst sig.now (context_behind [] (map (S.held store.old).tree ctx.now)) ((S.held store.old).tree t) ((S.held store.old).tree wanted)) (S.held store.new) result }
    ensures sum { units.new.left + units.new.spent ≡ units.old.left + units.old.spent }
    ensures spends { units.new.left ≤ units.old.left }
    ensures sound { IsTyped sig.now → IsContext sig.now (context_behind [] (map (S.held store.old).tree ctx.now)) → IsType sig.now (context_behind [] (map (S.held store.old).tree ctx.now)) ((S.held store.old).tree wanted) → IfOk result (λ v. IfYes (verdict_in (S.held store.new).tree v) (HasWanted sig.now (context_behind [] (map (S.held store.old).tree ctx.now)) ((S.held store.old).tree t) ((S.held store.old).tree wanted))) }
    ensures scoped { IfOk result (λ v. IsScopedVerdict sig.now (length ctx.now) (verdict_in (S.held store.new).tree v)) }
{
    check_at(
        alloc,
        store,
        sig,
        ids,
        &Scope::Given(ctx.as_slice()),
        t,
        wanted,
        NESTING,
        units,
    )
}
