ghost use Rattle.std.specs.Prelude.{◌≤◌, ◌+◌, ◌∷◌, IsTrue};
ghost use Rattle.theory.specs.Terms as tree;
ghost use Rattle.core_sig.specs.EntryIds.{Stands};
ghost use Rattle.kernel_check.specs.Checking as checking;
ghost use Rattle.kernel_check.specs.Decided as decided;
ghost use Rattle.kernel_check.specs.Decided.{Decides};
ghost use Rattle.kernel_check.specs.Asked.{IsCheckedAgainst, IsCheckedPart};
ghost use Rattle.kernel_check.specs.Scopes.{CanCheckIn, scope_in};

mod applications;

use crate::leaf::leaf_type;
use crate::scope::Scope;
use crate::types::{compare, function_type, greater_sort, sort_of};
use crate::verdict::{VerdictIn, behind_in};
use applications::infer_application;
use core_sig::{EntryIds, Signature};
use core_terms::{Stop, Units};
use std::alloc::Global;
use term_pool::{Node, TermStore, subst_in};

/// A type of the term, where `room` calls may be open.
#[cycle(check)]
pub(crate) fn infer_at<S: TermStore>(
    alloc: Global,
    store: &mut S,
    sig: &Signature,
    ids: &EntryIds<S::Id>,
    scope: &Scope<S::Id>,
    t: S::Id,
    room: u32,
    units: &mut Units,
) -> Result<VerdictIn<S::Id>, Stop>
    requires ids { Stands (S.held store.old) sig.now.entries ids.now }
    requires t_live { IsTrue ((S.held store.old).live t) }
    requires can { CanCheckIn (S.held store.old) sig.now room scope.now ((S.held store.old).tree t) }
    ensures { Decides (IsCheckedPart sig.now (scope_in (S.held store.old).tree scope.now) ((S.held store.old).tree t)) (S.held store.old) (S.held store.new) units.old units.new result (checking.infer_of sig.now room (scope_in (S.held store.old).tree scope.now) ((S.held store.old).tree t) units.old.left) }
{
    if room == 0 {
        return Err(Stop::Deep);
    }
    let _low = store.height(&t);
    units.spend()?;
    infer_form(alloc, store, sig, ids, scope, t, room - 1, units)
}

/// A type of the term by its form.
#[cycle(check)]
fn infer_form<S: TermStore>(
    alloc: Global,
    store: &mut S,
    sig: &Signature,
    ids: &EntryIds<S::Id>,
    scope: &Scope<S::Id>,
    t: S::Id,
    room: u32,
    units: &mut Units,
) -> Result<VerdictIn<S::Id>, Stop>
    requires ids { Stands (S.held store.old) sig.now.entries ids.now }
    requires t_live { IsTrue ((S.held store.old).live t) }
    requires can { CanCheckIn (S.held store.old) sig.now (room + 1) scope.now ((S.held store.old).tree t) }
    ensures { Decides (IsCheckedPart sig.now (scope_in (S.held store.old).tree scope.now) ((S.held store.old).tree t)) (S.held store.old) (S.held store.new) units.old units.new result (checking.infer_form sig.now (checking.infer_of sig.now room) (checking.infer_sort_of sig.now room) (checking.check_of sig.now room) (scope_in (S.held store.old).tree scope.now) ((S.held store.old).tree t) units.old.left) }
{
    match store.look(&t) {
        Node::Pi(a, b) => infer_product(alloc, store, sig, ids, scope, a, b, room, units),
        Node::Lam(a, b) => infer_function(alloc, store, sig, ids, scope, a, b, room, units),
        Node::App(f, u) => infer_application(alloc, store, sig, ids, scope, f, u, room, units),
        Node::Let(a, v, b) => infer_local(alloc, store, sig, ids, scope, a, v, b, room, units),
        leaf => leaf_type(alloc, store, sig, ids, scope, leaf),
    }
}

#[cycle(check)]
fn infer_product<S: TermStore>(
    alloc: Global,
    store: &mut S,
    sig: &Signature,
    ids: &EntryIds<S::Id>,
    scope: &Scope<S::Id>,
    a: S::Id,
    b: S::Id,
    room: u32,
    units: &mut Units,
) -> Result<VerdictIn<S::Id>, Stop>
    requires ids { Stands (S.held store.old) sig.now.entries ids.now }
    requires a_live { IsTrue ((S.held store.old).live a) }
    requires b_live { IsTrue ((S.held store.old).live b) }
    requires can { CanCheckIn (S.held store.old) sig.now (room + 1) scope.now (tree.Pi ((S.held store.old).tree a) ((S.held store.old).tree b)) }
    ensures { Decides (IsCheckedPart sig.now (scope_in (S.held store.old).tree scope.now) (tree.Pi ((S.held store.old).tree a) ((S.held store.old).tree b))) (S.held store.old) (S.held store.new) units.old units.new result (checking.infer_product (checking.infer_sort_of sig.now room) (scope_in (S.held store.old).tree scope.now) ((S.held store.old).tree a) ((S.held store.old).tree b) units.old.left) }
{
    match behind_in(
        0,
        infer_sort_at(alloc, store, sig, ids, scope, a, room, units),
    )? {
        VerdictIn::Yes(i) => infer_codomain(alloc, store, sig, ids, scope, i, a, b, room, units),
        VerdictIn::No(denial) => Ok(VerdictIn::No(denial)),
    }
}

/// The sort of a product whose domain `a` has the sort `i`.
#[cycle(check)]
fn infer_codomain<S: TermStore>(
    alloc: Global,
    store: &mut S,
    sig: &Signature,
    ids: &EntryIds<S::Id>,
    scope: &Scope<S::Id>,
    i: S::Id,
    a: S::Id,
    b: S::Id,
    room: u32,
    units: &mut Units,
) -> Result<VerdictIn<S::Id>, Stop>
    requires ids { Stands (S.held store.old) sig.now.entries ids.now }
    requires i_live { IsTrue ((S.held store.old).live i) }
    requires a_live { IsTrue ((S.held store.old).live a) }
    requires b_live { IsTrue ((S.held store.old).live b) }
    requires can { CanCheckIn (S.held store.old) sig.now (room + 1) scope.now (tree.Pi ((S.held store.old).tree a) ((S.held store.old).tree b)) }
    ensures { Decides (IsCheckedPart sig.now (scope_in (S.held store.old).tree scope.now) (tree.Pi ((S.held store.old).tree a) ((S.held store.old).tree b))) (S.held store.old) (S.held store.new) units.old units.new result (decided.infer_codomain (checking.infer_sort_of sig.now room) (scope_in (S.held store.old).tree scope.now) ((S.held store.old).tree a) ((S.held store.old).tree b) ((S.held store.old).tree i) units.old.left) }
{
    let under = Scope::Under(a, &*scope);
    match behind_in(
        1,
        infer_sort_at(alloc, store, sig, ids, &under, b, room, units),
    )? {
        VerdictIn::Yes(j) => Ok(VerdictIn::Yes(greater_sort(store, i, j))),
        VerdictIn::No(denial) => Ok(VerdictIn::No(denial)),
    }
}

#[cycle(check)]
fn infer_function<S: TermStore>(
    alloc: Global,
    store: &mut S,
    sig: &Signature,
    ids: &EntryIds<S::Id>,
    scope: &Scope<S::Id>,
    a: S::Id,
    b: S::Id,
    room: u32,
    units: &mut Units,
) -> Result<VerdictIn<S::Id>, Stop>
    requires ids { Stands (S.held store.old) sig.now.entries ids.now }
    requires a_live { IsTrue ((S.held store.old).live a) }
    requires b_live { IsTrue ((S.held store.old).live b) }
    requires can { CanCheckIn (S.held store.old) sig.now (room + 1) scope.now (tree.Lam ((S.held store.old).tree a) ((S.held store.old).tree b)) }
    ensures { Decides (IsCheckedPart sig.now (scope_in (S.held store.old).tree scope.now) (tree.Lam ((S.held store.old).tree a) ((S.held store.old).tree b))) (S.held store.old) (S.held store.new) units.old units.new result (checking.infer_function (checking.infer_of sig.now room) (checking.infer_sort_of sig.now room) (scope_in (S.held store.old).tree scope.now) ((S.held store.old).tree a) ((S.held store.old).tree b) units.old.left) }
{
    match behind_in(
        0,
        infer_sort_at(alloc, store, sig, ids, scope, a, room, units),
    )? {
        VerdictIn::Yes(_) => infer_body(alloc, store, sig, ids, scope, a, b, room, units),
        VerdictIn::No(denial) => Ok(VerdictIn::No(denial)),
    }
}

/// The type of a function whose domain `a` has a sort.
#[cycle(check)]
fn infer_body<S: TermStore>(
    alloc: Global,
    store: &mut S,
    sig: &Signature,
    ids: &EntryIds<S::Id>,
    scope: &Scope<S::Id>,
    a: S::Id,
    b: S::Id,
    room: u32,
    units: &mut Units,
) -> Result<VerdictIn<S::Id>, Stop>
    requires ids { Stands (S.held store.old) sig.now.entries ids.now }
    requires a_live { IsTrue ((S.held store.old).live a) }
    requires b_live { IsTrue ((S.held store.old).live b) }
    requires can { CanCheckIn (S.held store.old) sig.now (room + 1) scope.now (tree.Lam ((S.held store.old).tree a) ((S.held store.old).tree b)) }
    ensures { Decides (IsCheckedPart sig.now (scope_in (S.held store.old).tree scope.now) (tree.Lam ((S.held store.old).tree a) ((S.held store.old).tree b))) (S.held store.old) (S.held store.new) units.old units.new result (checking.if_typed (checking.behind 1 (checking.infer_of sig.now room (((S.held store.old).tree a) ∷ (scope_in (S.held store.old).tree scope.now)) ((S.held store.old).tree b) units.old.left)) (decided.product_type (scope_in (S.held store.old).tree scope.now) ((S.held store.old).tree a))) }
{
    let under = Scope::Under(a, &*scope);
    match behind_in(1, infer_at(alloc, store, sig, ids, &under, b, room, units))? {
        VerdictIn::Yes(ty) => function_type(alloc, store, scope, a, ty),
        VerdictIn::No(denial) => Ok(VerdictIn::No(denial)),
    }
}

#[cycle(check)]
fn infer_local<S: TermStore>(
    alloc: Global,
    store: &mut S,
    sig: &Signature,
    ids: &EntryIds<S::Id>,
    scope: &Scope<S::Id>,
    a: S::Id,
    v: S::Id,
    b: S::Id,
    room: u32,
    units: &mut Units,
) -> Result<VerdictIn<S::Id>, Stop>
    requires ids { Stands (S.held store.old) sig.now.entries ids.now }
    requires a_live { IsTrue ((S.held store.old).live a) }
    requires v_live { IsTrue ((S.held store.old).live v) }
    requires b_live { IsTrue ((S.held store.old).live b) }
    requires can { CanCheckIn (S.held store.old) sig.now (room + 1) scope.now (tree.Let ((S.held store.old).tree a) ((S.held store.old).tree v) ((S.held store.old).tree b)) }
    ensures { Decides (IsCheckedPart sig.now (scope_in (S.held store.old).tree scope.now) (tree.Let ((S.held store.old).tree a) ((S.held store.old).tree v) ((S.held store.old).tree b))) (S.held store.old) (S.held store.new) units.old units.new result (checking.infer_local (checking.infer_of sig.now room) (checking.infer_sort_of sig.now room) (checking.check_of sig.now room) (scope_in (S.held store.old).tree scope.now) ((S.held store.old).tree a) ((S.held store.old).tree v) ((S.held store.old).tree b) units.old.left) }
{
    match behind_in(
        0,
        infer_sort_at(alloc, store, sig, ids, scope, a, room, units),
    )? {
        VerdictIn::Yes(_) => infer_value(alloc, store, sig, ids, scope, a, v, b, room, units),
        VerdictIn::No(denial) => Ok(VerdictIn::No(denial)),
    }
}

/// The type of a `let` whose type `a` has a sort.
#[cycle(check)]
fn infer_value<S: TermStore>(
    alloc: Global,
    store: &mut S,
    sig: &Signature,
    ids: &EntryIds<S::Id>,
    scope: &Scope<S::Id>,
    a: S::Id,
    v: S::Id,
    b: S::Id,
    room: u32,
    units: &mut Units,
) -> Result<VerdictIn<S::Id>, Stop>
    requires ids { Stands (S.held store.old) sig.now.entries ids.now }
    requires a_live { IsTrue ((S.held store.old).live a) }
    requires v_live { IsTrue ((S.held store.old).live v) }
    requires b_live { IsTrue ((S.held store.old).live b) }
    requires can { CanCheckIn (S.held store.old) sig.now (room + 1) scope.now (tree.Let ((S.held store.old).tree a) ((S.held store.old).tree v) ((S.held store.old).tree b)) }
    ensures { Decides (IsCheckedPart sig.now (scope_in (S.held store.old).tree scope.now) (tree.Let ((S.held store.old).tree a) ((S.held store.old).tree v) ((S.held store.old).tree b))) (S.held store.old) (S.held store.new) units.old units.new result (checking.if_typed (checking.behind 1 (checking.check_of sig.now room (scope_in (S.held store.old).tree scope.now) ((S.held store.old).tree v) ((S.held store.old).tree a) units.old.left)) (decided.infer_rest (checking.infer_of sig.now room) (scope_in (S.held store.old).tree scope.now) (tree.subst ((S.held store.old).tree b) 0 ((S.held store.old).tree v)))) }
{
    match behind_in(
        1,
        check_at(alloc, store, sig, ids, scope, v, a, room, units),
    )? {
        VerdictIn::Yes(_) => infer_rest(alloc, store, sig, ids, scope, v, b, room, units),
        VerdictIn::No(denial) => Ok(VerdictIn::No(denial)),
    }
}

/// The type of the rest of a `let`, with the value in the place of the variable.
#[cycle(check)]
fn infer_rest<S: TermStore>(
    alloc: Global,
    store: &mut S,
    sig: &Signature,
    ids: &EntryIds<S::Id>,
    scope: &Scope<S::Id>,
    v: S::Id,
    b: S::Id,
    room: u32,
    units: &mut Units,
) -> Result<VerdictIn<S::Id>, Stop>
    requires ids { Stands (S.held store.old) sig.now.entries ids.now }
    requires v_live { IsTrue ((S.held store.old).live v) }
    requires b_live { IsTrue ((S.held store.old).live b) }
    requires value { CanCheckIn (S.held store.old) sig.now room scope.now ((S.held store.old).tree v) }
    requires can { CanCheckIn (S.held store.old) sig.now room scope.now (tree.subst ((S.held store.old).tree b) 0 ((S.held store.old).tree v)) }
    ensures { Decides (IsCheckedPart sig.now (scope_in (S.held store.old).tree scope.now) (tree.subst ((S.held store.old).tree b) 0 ((S.held store.old).tree v))) (S.held store.old) (S.held store.new) units.old units.new result (checking.infer_body (checking.infer_of sig.now room) (scope_in (S.held store.old).tree scope.now) (tree.subst ((S.held store.old).tree b) 0 ((S.held store.old).tree v)) units.old.left) }
{
    let rest = subst_in(alloc, store, b, 0, v)?;
    behind_in(
        2,
        infer_at(alloc, store, sig, ids, scope, rest, room, units),
    )
}

/// The sort of a type, where `room` calls may be open.
#[cycle(check)]
pub(crate) fn infer_sort_at<S: TermStore>(
    alloc: Global,
    store: &mut S,
    sig: &Signature,
    ids: &EntryIds<S::Id>,
    scope: &Scope<S::Id>,
    t: S::Id,
    room: u32,
    units: &mut Units,
) -> Result<VerdictIn<S::Id>, Stop>
    requires ids { Stands (S.held store.old) sig.now.entries ids.now }
    requires t_live { IsTrue ((S.held store.old).live t) }
    requires can { CanCheckIn (S.held store.old) sig.now room scope.now ((S.held store.old).tree t) }
    ensures { Decides (IsCheckedPart sig.now (scope_in (S.held store.old).tree scope.now) ((S.held store.old).tree t)) (S.held store.old) (S.held store.new) units.old units.new result (checking.infer_sort_of sig.now room (scope_in (S.held store.old).tree scope.now) ((S.held store.old).tree t) units.old.left) }
{
    if room == 0 {
        return Err(Stop::Deep);
    }
    match infer_at(alloc, store, sig, ids, scope, t, room - 1, units)? {
        VerdictIn::Yes(ty) => sort_of(alloc, store, sig, ids, scope, ty, units),
        VerdictIn::No(denial) => Ok(VerdictIn::No(denial)),
    }
}

/// The type of a term that is to have the type `wanted`, where `room` calls may be open.
#[cycle(check)]
pub(crate) fn check_at<S: TermStore>(
    alloc: Global,
    store: &mut S,
    sig: &Signature,
    ids: &EntryIds<S::Id>,
    scope: &Scope<S::Id>,
    t: S::Id,
    wanted: S::Id,
    room: u32,
    units: &mut Units,
) -> Result<VerdictIn<S::Id>, Stop>
    requires ids { Stands (S.held store.old) sig.now.entries ids.now }
    requires t_live { IsTrue ((S.held store.old).live t) }
    requires wanted_live { IsTrue ((S.held store.old).live wanted) }
    requires term { CanCheckIn (S.held store.old) sig.now room scope.now ((S.held store.old).tree t) }
    requires wanted { CanCheckIn (S.held store.old) sig.now room scope.now ((S.held store.old).tree wanted) }
    ensures { Decides (IsCheckedAgainst sig.now (scope_in (S.held store.old).tree scope.now) ((S.held store.old).tree t) ((S.held store.old).tree wanted)) (S.held store.old) (S.held store.new) units.old units.new result (checking.check_of sig.now room (scope_in (S.held store.old).tree scope.now) ((S.held store.old).tree t) ((S.held store.old).tree wanted) units.old.left) }
{
    if room == 0 {
        return Err(Stop::Deep);
    }
    match infer_at(alloc, store, sig, ids, scope, t, room - 1, units)? {
        VerdictIn::Yes(found) => {
            compare(
                alloc,
                store,
                sig,
                ids,
                scope,
                found,
                wanted,
                room - 1,
                units,
            )
        }
        VerdictIn::No(denial) => Ok(VerdictIn::No(denial)),
    }
}
