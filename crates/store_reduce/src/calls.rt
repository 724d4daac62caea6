//! The public calls: reduction and comparison of terms in a store, over a signature whose entries have their terms there, with units.
//!
//! Each unit that a call spends moves from `left` to `spent`, also where the call ends in an error. A call answers Fuel where it needs a unit
//! and none is left, and Deep where it makes a term higher than 2,000, or where more than 2,000 calls would be open at once, whichever comes
//! first. Memory may come at any time, and PoolFull where the store has no room for a part of a term that is formed.
ghost use Rattle.std.specs.Prelude.{◌≡◌, ◌≤◌, ◌+◌, ℕ, [], ◌∷◌, IfOk, IfSome, IsTrue, true, option_map};
ghost use Rattle.term_pool.specs.Held.{Extends};
ghost use Rattle.theory.specs.Conversion.{Step, Converts, Below};
ghost use Rattle.theory.specs.SignatureScopes.{IsScoped};
ghost use Rattle.kernel_reduce.specs.Comparison.{convertible_of, subtype_of};
ghost use Rattle.kernel_reduce.specs.Laws.{IsHeadForm};
ghost use Rattle.kernel_reduce.specs.Reduction.{head_step_of, nesting, normal_of, whnf_of};
ghost use Rattle.kernel_reduce.specs.WellScoped.{CanReduce};
ghost use Rattle.store_reduce.specs.Additions.{AddsOnly, IsFullOf};
ghost use Rattle.core_sig.specs.EntryIds.{Stands};
ghost use Rattle.store_reduce.specs.Formed.{IsFormedPart, IsNormalPart, IsPartOnTheWay, IsStepPart};
ghost use Rattle.store_reduce.specs.Runs.{RunsIn};

use crate::comparing::compare_in;
use crate::form::Stepped;
use crate::head_forms::head_form_in;
use crate::head_steps::step_in;
use crate::normalising::normalise_in;
use crate::ordering::order_in;
use core_sig::{EntryIds, Signature};
use core_terms::{Stop, Units};
use kernel_reduce::NESTING;
use std::alloc::Global;
use term_pool::TermStore;

/// The next head step of a term, or None where it takes none. Without `delta` constants take no step.
///
/// A step costs one unit, None costs none. Deep where the step is too high, once the unit is spent; Fuel where there is a step and no
/// unit.
pub fn head_step_in<S: TermStore>(
    alloc: Global,
    store: &mut S,
    sig: &Signature,
    ids: &EntryIds<S::Id>,
    t: S::Id,
    delta: bool,
    units: &mut Units,
) -> Result<Option<S::Id>, Stop>
    requires live { IsTrue ((S.held store.old).live t) }
    requires ids { Stands (S.held store.old) sig.now.entries ids.now }
    requires asked { CanReduce sig.now (((S.held store.old).tree t) ∷ []) }
    ensures answer { RunsIn (option_map (S.held store.new).tree) result units.new.left (head_step_of sig.now delta ((S.held store.old).tree t) units.old.left) }
    ensures live { IfOk result (λ next. IfSome next (λ id. IsTrue ((S.held store.new).live id))) }
    ensures extends { Extends (S.held store.old) (S.held store.new) }
    ensures adds { AddsOnly (IsStepPart sig.now delta ((S.held store.old).tree t)) (S.held store.old) (S.held store.new) }
    ensures full { IsFullOf (IsStepPart sig.now delta ((S.held store.old).tree t)) (S.held store.new) result }
    ensures sum { units.new.left + units.new.spent ≡ units.old.left + units.old.spent }
    ensures spends { units.new.left ≤ units.old.left }
    ensures step { IfOk result (λ next. IfSome next (λ id. Step sig.now ((S.held store.old).tree t) ((S.held store.new).tree id))) }
    ensures scoped { (n : ℕ) → IsScoped sig.now n ((S.held store.old).tree t) → IfOk result (λ next. IfSome next (λ id. IsScoped sig.now n ((S.held store.new).tree id))) }
{
    next_step_in(alloc, store, sig, ids, t, delta, units)
}

/// The next head step of a term, or None where it takes none.
fn next_step_in<S: TermStore>(
    alloc: Global,
    store: &mut S,
    sig: &Signature,
    ids: &EntryIds<S::Id>,
    t: S::Id,
    delta: bool,
    units: &mut Units,
) -> Result<Option<S::Id>, Stop>
    requires live { IsTrue ((S.held store.old).live t) }
    requires ids { Stands (S.held store.old) sig.now.entries ids.now }
    requires asked { CanReduce sig.now (((S.held store.old).tree t) ∷ []) }
    ensures answer { RunsIn (option_map (S.held store.new).tree) result units.new.left (head_step_of sig.now delta ((S.held store.old).tree t) units.old.left) }
    ensures live { IfOk result (λ next. IfSome next (λ id. IsTrue ((S.held store.new).live id))) }
    ensures extends { Extends (S.held store.old) (S.held store.new) }
    ensures adds { AddsOnly (IsStepPart sig.now delta ((S.held store.old).tree t)) (S.held store.old) (S.held store.new) }
    ensures full { IsFullOf (IsStepPart sig.now delta ((S.held store.old).tree t)) (S.held store.new) result }
    ensures sum { units.new.left + units.new.spent ≡ units.old.left + units.old.spent }
    ensures spends { units.new.left ≤ units.old.left }
{
    let _low = store.height(&t);
    match step_in(alloc, store, sig, ids, t, delta, units)? {
        Stepped::Steps(next) => Ok(Some(next)),
        Stepped::Stays(_) => Ok(None),
    }
}

/// The head form of a term: head steps until there is none, so a term that takes none is answered as it is.
///
/// Each step costs one unit. Deep where the term that a step makes is too high; Fuel where a step is left and no unit. The units that the
/// steps until then took stay spent.
pub fn whnf_in<S: TermStore>(
    alloc: Global,
    store: &mut S,
    sig: &Signature,
    ids: &EntryIds<S::Id>,
    t: S::Id,
    delta: bool,
    units: &mut Units,
) -> Result<S::Id, Stop>
    requires live { IsTrue ((S.held store.old).live t) }
    requires ids { Stands (S.held store.old) sig.now.entries ids.now }
    requires asked { CanReduce sig.now (((S.held store.old).tree t) ∷ []) }
    ensures answer { RunsIn (S.held store.new).tree result units.new.left (whnf_of sig.now delta units.old.left ((S.held store.old).tree t)) }
    ensures live { IfOk result (λ id. IsTrue ((S.held store.new).live id)) }
    ensures extends { Extends (S.held store.old) (S.held store.new) }
    ensures adds { AddsOnly (IsPartOnTheWay sig.now delta ((S.held store.old).tree t)) (S.held store.old) (S.held store.new) }
    ensures full { IsFullOf (IsPartOnTheWay sig.now delta ((S.held store.old).tree t)) (S.held store.new) result }
    ensures sum { units.new.left + units.new.spent ≡ units.old.left + units.old.spent }
    ensures spends { units.new.left ≤ units.old.left }
    ensures form { IfOk result (λ id. IsHeadForm sig.now delta ((S.held store.old).tree t) ((S.held store.new).tree id)) }
    ensures scoped { (n : ℕ) → IsScoped sig.now n ((S.held store.old).tree t) → IfOk result (λ id. IsScoped sig.now n ((S.held store.new).tree id)) }
{
    head_form_in(alloc, store, sig, ids, t, delta, units)
}

/// The normal form of a term: its head form, with the normal forms of the children from the left.
///
/// It costs one unit for each head step, and none beside. Deep also where the normal form that is made of the children is too high, or lies
/// under more than 2,000 open calls; Fuel as in `whnf_in`. The units of all steps until then stay spent.
pub fn normal_in<S: TermStore>(
    alloc: Global,
    store: &mut S,
    sig: &Signature,
    ids: &EntryIds<S::Id>,
    t: S::Id,
    delta: bool,
    units: &mut Units,
) -> Result<S::Id, Stop>
    requires live { IsTrue ((S.held store.old).live t) }
    requires ids { Stands (S.held store.old) sig.now.entries ids.now }
    requires asked { CanReduce sig.now (((S.held store.old).tree t) ∷ []) }
    ensures answer { RunsIn (S.held store.new).tree result units.new.left (normal_of sig.now delta nesting ((S.held store.old).tree t) units.old.left) }
    ensures live { IfOk result (λ id. IsTrue ((S.held store.new).live id)) }
    ensures extends { Extends (S.held store.old) (S.held store.new) }
    ensures adds { AddsOnly (IsNormalPart sig.now delta (((S.held store.old).tree t) ∷ [])) (S.held store.old) (S.held store.new) }
    ensures full { IsFullOf (IsNormalPart sig.now delta (((S.held store.old).tree t) ∷ [])) (S.held store.new) result }
    ensures sum { units.new.left + units.new.spent ≡ units.old.left + units.old.spent }
    ensures spends { units.new.left ≤ units.old.left }
    ensures converts { IfOk result (λ id. Converts sig.now ((S.held store.old).tree t) ((S.held store.new).tree id)) }
    ensures scoped { (n : ℕ) → IsScoped sig.now n ((S.held store.old).tree t) → IfOk result (λ id. IsScoped sig.now n ((S.held store.new).tree id)) }
{
    normalise_in(alloc, store, sig, ids, t, delta, NESTING, units)
}

/// Whether two terms are found convertible: syntactically equal, or of head forms with convertible children.
///
/// Each comparison, of the terms and then of two children, costs one unit beside the head steps of both sides, those of `a` first. The test
/// for equality is free. `false` says only that this comparison doesn't find them convertible. Deep where a term that is made on either side
/// is too high or too many comparisons are open, Fuel where a unit is missing.
pub fn convertible_in<S: TermStore>(
    alloc: Global,
    store: &mut S,
    sig: &Signature,
    ids: &EntryIds<S::Id>,
    a: S::Id,
    b: S::Id,
    units: &mut Units,
) -> Result<bool, Stop>
    requires a_live { IsTrue ((S.held store.old).live a) }
    requires b_live { IsTrue ((S.held store.old).live b) }
    requires ids { Stands (S.held store.old) sig.now.entries ids.now }
    requires asked { CanReduce sig.now (((S.held store.old).tree a) ∷ ((S.held store.old).tree b) ∷ []) }
    ensures answer { RunsIn (λ holds. holds) result units.new.left (convertible_of sig.now nesting ((S.held store.old).tree a) ((S.held store.old).tree b) units.old.left) }
    ensures extends { Extends (S.held store.old) (S.held store.new) }
    ensures adds { AddsOnly (IsFormedPart sig.now true (((S.held store.old).tree a) ∷ ((S.held store.old).tree b) ∷ [])) (S.held store.old) (S.held store.new) }
    ensures full { IsFullOf (IsFormedPart sig.now true (((S.held store.old).tree a) ∷ ((S.held store.old).tree b) ∷ [])) (S.held store.new) result }
    ensures sum { units.new.left + units.new.spent ≡ units.old.left + units.old.spent }
    ensures spends { units.new.left ≤ units.old.left }
    ensures sound { IfOk result (λ holds. IsTrue holds → Converts sig.now ((S.held store.old).tree a) ((S.held store.old).tree b)) }
{
    compare_in(alloc, store, sig, ids, a, b, NESTING, units)
}

/// Whether the first term is found below the second one in the order of sorts and of products.
///
/// Domains of products are convertible, codomains go in the same order, and all other heads are convertible. Units and errors are those of
/// `convertible_in`, but no test for equality comes first.
pub fn subtype_in<S: TermStore>(
    alloc: Global,
    store: &mut S,
    sig: &Signature,
    ids: &EntryIds<S::Id>,
    a: S::Id,
    b: S::Id,
    units: &mut Units,
) -> Result<bool, Stop>
    requires a_live { IsTrue ((S.held store.old).live a) }
    requires b_live { IsTrue ((S.held store.old).live b) }
    requires ids { Stands (S.held store.old) sig.now.entries ids.now }
    requires asked { CanReduce sig.now (((S.held store.old).tree a) ∷ ((S.held store.old).tree b) ∷ []) }
    ensures answer { RunsIn (λ holds. holds) result units.new.left (subtype_of sig.now nesting ((S.held store.old).tree a) ((S.held store.old).tree b) units.old.left) }
    ensures extends { Extends (S.held store.old) (S.held store.new) }
    ensures adds { AddsOnly (IsFormedPart sig.now true (((S.held store.old).tree a) ∷ ((S.held store.old).tree b) ∷ [])) (S.held store.old) (S.held store.new) }
    ensures full { IsFullOf (IsFormedPart sig.now true (((S.held store.old).tree a) ∷ ((S.held store.old).tree b) ∷ [])) (S.held store.new) result }
    ensures sum { units.new.left + units.new.spent ≡ units.old.left + units.old.spent }
    ensures spends { units.new.left ≤ units.old.left }
    ensures sound { IfOk result (λ holds. IsTrue holds → Below sig.now ((S.held store.old).tree a) ((S.held store.old).tree b)) }
{
    order_in(alloc, store, sig, ids, a, b, NESTING, units)
}

/// As `subtype_in`, where only `room` calls may be open, for a caller whose own open calls count. With no room left it is Deep.
pub fn subtype_within_in<S: TermStore>(
    alloc: Global,
    store: &mut S,
    sig: &Signature,
    ids: &EntryIds<S::Id>,
    a: S::Id,
    b: S::Id,
    room: u32,
    units: &mut Units,
) -> Result<bool, Stop>
    requires room { room ≤ nesting }
    requires a_live { IsTrue ((S.held store.old).live a) }
    requires b_live { IsTrue ((S.held store.old).live b) }
    requires ids { Stands (S.held store.old) sig.now.entries ids.now }
    requires asked { CanReduce sig.now (((S.held store.old).tree a) ∷ ((S.held store.old).tree b) ∷ []) }
    ensures answer { RunsIn (λ holds. holds) result units.new.left (subtype_of sig.now room ((S.held store.old).tree a) ((S.held store.old).tree b) units.old.left) }
    ensures extends { Extends (S.held store.old) (S.held store.new) }
    ensures adds { AddsOnly (IsFormedPart sig.now true (((S.held store.old).tree a) ∷ ((S.held store.old).tree b) ∷ [])) (S.held store.old) (S.held store.new) }
    ensures full { IsFullOf (IsFormedPart sig.now true (((S.held store.old).tree a) ∷ ((S.held store.old).tree b) ∷ [])) (S.held store.new) result }
    ensures sum { units.new.left + units.new.spent ≡ units.old.left + units.old.spent }
    ensures spends { units.new.left ≤ units.old.left }
    ensures sound { IfOk result (λ holds. IsTrue holds → Below sig.now ((S.held store.old).tree a) ((S.held store.old).tree b)) }
{
    order_in(alloc, store, sig, ids, a, b, room, units)
}
