ghost use Rattle.std.specs.Prelude.{◌≡◌, ◌≤◌, ◌+◌, [], ◌∷◌, IfOk, IsTrue, true};
ghost use Rattle.theory.specs.Terms as tree;
ghost use Rattle.core_terms.specs.Answers.{Gives, and_next};
ghost use Rattle.core_terms.specs.Bounds.{most_free};
ghost use Rattle.kernel_reduce.specs.Comparison.{subtype_of};
ghost use Rattle.kernel_reduce.specs.Reduction.{answered, nesting, whnf_of};
ghost use Rattle.kernel_reduce.specs.WellScoped.{CanReduce};
ghost use Rattle.term_pool.specs.Held.{Extends, AddsParts, IsFullFor};
ghost use Rattle.store_reduce.specs.Additions.{AddsOnly, IsFullOf};
ghost use Rattle.store_reduce.specs.Formed.{IsFormedPart, IsPartOnTheWay};
ghost use Rattle.store_reduce.specs.Runs.{RunsIn};
ghost use Rattle.core_sig.specs.EntryIds.{Stands};
ghost use Rattle.kernel_check.specs.Checking as checking;
ghost use Rattle.kernel_check.specs.Scopes.{IsLive, scope_in};
ghost use Rattle.kernel_check.specs.Verdicts.{AnswersIn, IsLiveVerdict, is_product, verdict_in};

use crate::scope::Scope;
use crate::verdict::{ReasonIn, VerdictIn, deny};
use core_sig::{EntryIds, Signature};
use core_terms::{Stop, TOP, Units};
use std::alloc::Global;
use store_reduce::{subtype_within_in, whnf_in};
use term_pool::{Node, TermStore, subst_in};

/// The greater one of two sorts.
pub(crate) fn greater_sort<S: TermStore>(store: &S, a: S::Id, b: S::Id) -> S::Id
    requires a_live { IsTrue ((S.held store.now).live a) }
    requires b_live { IsTrue ((S.held store.now).live b) }
    ensures answer { (S.held store.now).tree result ≡ checking.greater_sort ((S.held store.now).tree a) ((S.held store.now).tree b) }
    ensures live { IsTrue ((S.held store.now).live result) }
    ensures low { tree.height ((S.held store.now).tree result) ≤ 2000 }
{
    match (store.look(&a), store.look(&b)) {
        (Node::Sort(i), Node::Sort(j)) if i < j => b,
        _ => a,
    }
}

pub(crate) fn is_product<S: TermStore>(store: &S, t: S::Id) -> bool
    requires t_live { IsTrue ((S.held store.now).live t) }
    ensures { result ≡ is_product ((S.held store.now).tree t) }
{
    matches!(store.look(&t), Node::Pi(_, _))
}

/// Whether the term is the sort that has no type.
fn is_top<S: TermStore>(store: &S, t: S::Id) -> bool
    requires t_live { IsTrue ((S.held store.now).live t) }
    ensures { result ≡ checking.is_top ((S.held store.now).tree t) }
{
    matches!(store.look(&t), Node::Sort(TOP))
}

/// The type of a function with the domain `a`, whose body has the type `ty`.
pub(crate) fn function_type<S: TermStore>(
    alloc: Global,
    store: &mut S,
    scope: &Scope<S::Id>,
    a: S::Id,
    ty: S::Id,
) -> Result<VerdictIn<S::Id>, Stop>
    requires context { IsLive (S.held store.old) scope.now }
    requires a_live { IsTrue ((S.held store.old).live a) }
    requires ty_live { IsTrue ((S.held store.old).live ty) }
    ensures answer { AnswersIn (verdict_in (S.held store.new).tree) result (checking.function_type (scope_in (S.held store.old).tree scope.now) ((S.held store.old).tree a) ((S.held store.old).tree ty)) }
    ensures live { IfOk result (IsLiveVerdict (S.held store.new)) }
    ensures extends { Extends (S.held store.old) (S.held store.new) }
    ensures adds { AddsParts (S.held store.old) (S.held store.new) (tree.Pi ((S.held store.old).tree a) ((S.held store.old).tree ty)) }
    ensures full { IsFullFor (S.held store.new) result (tree.Pi ((S.held store.old).tree a) ((S.held store.old).tree ty)) }
{
    if is_top(store, ty) {
        return deny(alloc, store, scope, ReasonIn::LevelTooHigh);
    }
    Ok(VerdictIn::Yes(store.make(Node::Pi(a, ty))?))
}

/// The type of a function at the argument `u`, where the codomain of its type is `b`.
pub(crate) fn instance_type<S: TermStore>(
    alloc: Global,
    store: &mut S,
    b: S::Id,
    u: S::Id,
) -> Result<VerdictIn<S::Id>, Stop>
    requires b_live { IsTrue ((S.held store.old).live b) }
    requires u_live { IsTrue ((S.held store.old).live u) }
    requires indices { tree.free_of ((S.held store.old).tree u) ≤ most_free }
    ensures answer { AnswersIn (verdict_in (S.held store.new).tree) result (checking.typed (tree.subst ((S.held store.old).tree b) 0 ((S.held store.old).tree u))) }
    ensures live { IfOk result (IsLiveVerdict (S.held store.new)) }
    ensures extends { Extends (S.held store.old) (S.held store.new) }
    ensures adds { AddsParts (S.held store.old) (S.held store.new) (tree.subst ((S.held store.old).tree b) 0 ((S.held store.old).tree u)) }
    ensures full { IsFullFor (S.held store.new) result (tree.subst ((S.held store.old).tree b) 0 ((S.held store.old).tree u)) }
{
    Ok(VerdictIn::Yes(subst_in(alloc, store, b, 0, u)?))
}

/// The sort of a term that has the type `ty`.
pub(crate) fn sort_of<S: TermStore>(
    alloc: Global,
    store: &mut S,
    sig: &Signature,
    ids: &EntryIds<S::Id>,
    scope: &Scope<S::Id>,
    ty: S::Id,
    units: &mut Units,
) -> Result<VerdictIn<S::Id>, Stop>
    requires ids { Stands (S.held store.old) sig.now.entries ids.now }
    requires context { IsLive (S.held store.old) scope.now }
    requires ty_live { IsTrue ((S.held store.old).live ty) }
    requires asked { CanReduce sig.now (((S.held store.old).tree ty) ∷ []) }
    ensures answer { RunsIn (verdict_in (S.held store.new).tree) result units.new.left (and_next (whnf_of sig.now true units.old.left ((S.held store.old).tree ty)) (λ u end. answered (checking.sort_of (scope_in (S.held store.old).tree scope.now) u) end)) }
    ensures live { IfOk result (IsLiveVerdict (S.held store.new)) }
    ensures extends { Extends (S.held store.old) (S.held store.new) }
    ensures adds { AddsOnly (IsPartOnTheWay sig.now true ((S.held store.old).tree ty)) (S.held store.old) (S.held store.new) }
    ensures full { IsFullOf (IsPartOnTheWay sig.now true ((S.held store.old).tree ty)) (S.held store.new) result }
    ensures sum { units.new.left + units.new.spent ≡ units.old.left + units.old.spent }
    ensures spends { units.new.left ≤ units.old.left }
{
    let reduced = whnf_in(alloc, store, sig, ids, ty, true, units)?;
    reduced_sort(alloc, store, scope, reduced)
}

/// The sort that is the head form of a type.
fn reduced_sort<S: TermStore>(
    alloc: Global,
    store: &S,
    scope: &Scope<S::Id>,
    reduced: S::Id,
) -> Result<VerdictIn<S::Id>, Stop>
    requires context { IsLive (S.held store.now) scope.now }
    requires reduced_live { IsTrue ((S.held store.now).live reduced) }
    ensures answer { Gives (verdict_in (S.held store.now).tree) result (checking.sort_of (scope_in (S.held store.now).tree scope.now) ((S.held store.now).tree reduced)) }
    ensures live { IfOk result (IsLiveVerdict (S.held store.now)) }
{
    match store.look(&reduced) {
        Node::Sort(_) => Ok(VerdictIn::Yes(reduced)),
        _ => deny(alloc, store, scope, ReasonIn::NotASort { found: reduced }),
    }
}

/// The type that was found, where it is below the wanted one.
pub(crate) fn compare<S: TermStore>(
    alloc: Global,
    store: &mut S,
    sig: &Signature,
    ids: &EntryIds<S::Id>,
    scope: &Scope<S::Id>,
    found: S::Id,
    wanted: S::Id,
    room: u32,
    units: &mut Units,
) -> Result<VerdictIn<S::Id>, Stop>
    requires room { room ≤ nesting }
    requires ids { Stands (S.held store.old) sig.now.entries ids.now }
    requires context { IsLive (S.held store.old) scope.now }
    requires found_live { IsTrue ((S.held store.old).live found) }
    requires wanted_live { IsTrue ((S.held store.old).live wanted) }
    requires asked { CanReduce sig.now (((S.held store.old).tree found) ∷ ((S.held store.old).tree wanted) ∷ []) }
    ensures answer { RunsIn (verdict_in (S.held store.new).tree) result units.new.left (and_next (subtype_of sig.now room ((S.held store.old).tree found) ((S.held store.old).tree wanted) units.old.left) (λ holds end. answered (checking.compared (scope_in (S.held store.old).tree scope.now) ((S.held store.old).tree found) ((S.held store.old).tree wanted) holds) end)) }
    ensures live { IfOk result (IsLiveVerdict (S.held store.new)) }
    ensures extends { Extends (S.held store.old) (S.held store.new) }
    ensures adds { AddsOnly (IsFormedPart sig.now true (((S.held store.old).tree found) ∷ ((S.held store.old).tree wanted) ∷ [])) (S.held store.old) (S.held store.new) }
    ensures full { IsFullOf (IsFormedPart sig.now true (((S.held store.old).tree found) ∷ ((S.held store.old).tree wanted) ∷ [])) (S.held store.new) result }
    ensures sum { units.new.left + units.new.spent ≡ units.old.left + units.old.spent }
    ensures spends { units.new.left ≤ units.old.left }
{
    let holds = subtype_within_in(alloc, store, sig, ids, found, wanted, room, units)?;
    compared(alloc, store, scope, found, wanted, holds)
}

fn compared<S: TermStore>(
    alloc: Global,
    store: &S,
    scope: &Scope<S::Id>,
    found: S::Id,
    wanted: S::Id,
    holds: bool,
) -> Result<VerdictIn<S::Id>, Stop>
    requires context { IsLive (S.held store.now) scope.now }
    requires found_live { IsTrue ((S.held store.now).live found) }
    requires wanted_live { IsTrue ((S.held store.now).live wanted) }
    ensures answer { Gives (verdict_in (S.held store.now).tree) result (checking.compared (scope_in (S.held store.now).tree scope.now) ((S.held store.now).tree found) ((S.held store.now).tree wanted) holds) }
    ensures live { IfOk result (IsLiveVerdict (S.held store.now)) }
{
    if holds {
        return Ok(VerdictIn::Yes(found));
    }
    deny(alloc, store, scope, ReasonIn::Mismatch { found, wanted })
}
