ghost use Rattle.std.specs.Prelude.{◌≡◌, ◌≤◌, ◌+◌, [], IsTrue};
ghost use Rattle.theory.specs.Terms as tree;
ghost use Rattle.theory.specs.Substitutions.{fill, inst, ups};
ghost use Rattle.term_pool.specs.Instantiation.{trees_of};
ghost use Rattle.core_sig.specs.EntryIds.{Stands};
ghost use Rattle.kernel_check.specs.Checking as checking;
ghost use Rattle.kernel_check.specs.Decided as decided;
ghost use Rattle.kernel_check.specs.Decided.{Decides};
ghost use Rattle.kernel_check.specs.Applications.{IsAppliedPart};
ghost use Rattle.kernel_check.specs.Asked.{IsArgumentPart, IsCheckedAgainst, IsCheckedPart, IsProductPart};
ghost use Rattle.kernel_check.specs.Opened.{AreFilled, Opens, WillFill, filled_tree};
ghost use Rattle.kernel_check.specs.Scopes.{CanCheckIn, scope_in};

use super::{check_at, infer_at, infer_sort_at, infer_value};
use crate::filled::{Filled, close, closed_type, stays_low};
use crate::scope::Scope;
use crate::types::{instance_type, is_product};
use crate::verdict::{ReasonIn, VerdictIn, behind_in, deny};
use core_sig::{EntryIds, Signature};
use core_terms::{Stop, Units};
use std::alloc::Global;
use store_reduce::whnf_in;
use term_pool::{Node, TermStore};

#[cycle(check)]
pub(super) fn infer_application<S: TermStore>(
    alloc: Global,
    store: &mut S,
    sig: &Signature,
    ids: &EntryIds<S::Id>,
    scope: &Scope<S::Id>,
    f: S::Id,
    u: S::Id,
    room: u32,
    units: &mut Units,
) -> Result<VerdictIn<S::Id>, Stop>
    requires ids { Stands (S.held store.old) sig.now.entries ids.now }
    requires f_live { IsTrue ((S.held store.old).live f) }
    requires u_live { IsTrue ((S.held store.old).live u) }
    requires can { CanCheckIn (S.held store.old) sig.now (room + 1) scope.now (tree.App ((S.held store.old).tree f) ((S.held store.old).tree u)) }
    requires low { tree.height (tree.App ((S.held store.old).tree f) ((S.held store.old).tree u)) ≤ 2000 }
    ensures { Decides (IsCheckedPart sig.now (scope_in (S.held store.old).tree scope.now) (tree.App ((S.held store.old).tree f) ((S.held store.old).tree u))) (S.held store.old) (S.held store.new) units.old units.new result (checking.infer_application sig.now (checking.infer_of sig.now room) (checking.infer_sort_of sig.now room) (checking.check_of sig.now room) (scope_in (S.held store.old).tree scope.now) ((S.held store.old).tree f) ((S.held store.old).tree u) units.old.left) }
{
    let mut filled = Filled::new(alloc);
    match open_application(
        alloc,
        store,
        sig,
        ids,
        scope,
        f,
        u,
        room,
        &mut filled,
        units,
    )? {
        VerdictIn::Yes(ty) => close(alloc, store, &filled, ty),
        VerdictIn::No(denial) => Ok(VerdictIn::No(denial)),
    }
}

/// A type of an application, over the variables that its arguments are to fill.
#[cycle(check)]
fn open_application<S: TermStore>(
    alloc: Global,
    store: &mut S,
    sig: &Signature,
    ids: &EntryIds<S::Id>,
    scope: &Scope<S::Id>,
    f: S::Id,
    u: S::Id,
    room: u32,
    filled: &mut Filled<S::Id>,
    units: &mut Units,
) -> Result<VerdictIn<S::Id>, Stop>
    requires ids { Stands (S.held store.old) sig.now.entries ids.now }
    requires f_live { IsTrue ((S.held store.old).live f) }
    requires u_live { IsTrue ((S.held store.old).live u) }
    requires can { CanCheckIn (S.held store.old) sig.now (room + 1) scope.now (tree.App ((S.held store.old).tree f) ((S.held store.old).tree u)) }
    requires none { filled.old.args.items ≡ [] }
    ensures { Opens (IsCheckedPart sig.now (scope_in (S.held store.old).tree scope.now) (tree.App ((S.held store.old).tree f) ((S.held store.old).tree u))) (S.held store.old) (S.held store.new) units.old units.new filled.new result (checking.infer_application sig.now (checking.infer_of sig.now room) (checking.infer_sort_of sig.now room) (checking.check_of sig.now room) (scope_in (S.held store.old).tree scope.now) ((S.held store.old).tree f) ((S.held store.old).tree u) units.old.left) }
{
    match behind_in(
        0,
        open_at(alloc, store, sig, ids, scope, f, room, filled, units),
    )? {
        VerdictIn::Yes(ty) => {
            fill_next(alloc, store, sig, ids, scope, u, ty, room, filled, units)
        }
        VerdictIn::No(denial) => Ok(VerdictIn::No(denial)),
    }
}

/// A type of the function part of an application, over the variables that its arguments are to fill.
#[cycle(check)]
fn open_at<S: TermStore>(
    alloc: Global,
    store: &mut S,
    sig: &Signature,
    ids: &EntryIds<S::Id>,
    scope: &Scope<S::Id>,
    t: S::Id,
    room: u32,
    filled: &mut Filled<S::Id>,
    units: &mut Units,
) -> Result<VerdictIn<S::Id>, Stop>
    requires ids { Stands (S.held store.old) sig.now.entries ids.now }
    requires t_live { IsTrue ((S.held store.old).live t) }
    requires can { CanCheckIn (S.held store.old) sig.now room scope.now ((S.held store.old).tree t) }
    requires none { filled.old.args.items ≡ [] }
    ensures { Opens (IsCheckedPart sig.now (scope_in (S.held store.old).tree scope.now) ((S.held store.old).tree t)) (S.held store.old) (S.held store.new) units.old units.new filled.new result (checking.infer_of sig.now room (scope_in (S.held store.old).tree scope.now) ((S.held store.old).tree t) units.old.left) }
{
    match store.look(&t) {
        Node::App(f, u) => {
            if room == 0 {
                return Err(Stop::Deep);
            }
            units.spend()?;
            open_application(alloc, store, sig, ids, scope, f, u, room - 1, filled, units)
        }
        _ => infer_at(alloc, store, sig, ids, scope, t, room, units),
    }
}

/// The type of a function at the argument `u`, where the type of the function is `ty` with the arguments that are filled. The argument is
/// left to be filled where no type on the way can be too high; else the type is made at once.
#[cycle(check)]
fn fill_next<S: TermStore>(
    alloc: Global,
    store: &mut S,
    sig: &Signature,
    ids: &EntryIds<S::Id>,
    scope: &Scope<S::Id>,
    u: S::Id,
    ty: S::Id,
    room: u32,
    filled: &mut Filled<S::Id>,
    units: &mut Units,
) -> Result<VerdictIn<S::Id>, Stop>
    requires ids { Stands (S.held store.old) sig.now.entries ids.now }
    requires u_live { IsTrue ((S.held store.old).live u) }
    requires ty_live { IsTrue ((S.held store.old).live ty) }
    requires argument { CanCheckIn (S.held store.old) sig.now (room + 1) scope.now ((S.held store.old).tree u) }
    requires function { CanCheckIn (S.held store.old) sig.now (room + 1) scope.now (filled_tree (S.held store.old) filled.old.args.items ((S.held store.old).tree ty)) }
    requires filled { AreFilled (S.held store.old) filled.old }
    requires low { tree.height (filled_tree (S.held store.old) filled.old.args.items ((S.held store.old).tree ty)) ≤ 2000 }
    ensures { Opens (IsAppliedPart sig.now (scope_in (S.held store.old).tree scope.now) ((S.held store.old).tree u) (filled_tree (S.held store.old) filled.old.args.items ((S.held store.old).tree ty))) (S.held store.old) (S.held store.new) units.old units.new filled.new result (decided.apply_typed sig.now (checking.infer_sort_of sig.now room) (checking.check_of sig.now room) (scope_in (S.held store.old).tree scope.now) ((S.held store.old).tree u) (filled_tree (S.held store.old) filled.old.args.items ((S.held store.old).tree ty)) units.old.left) }
{
    let highest = filled.highest_with(store.height(&u));
    if !stays_low(store, ty, highest) {
        return fill_closed(alloc, store, sig, ids, scope, u, ty, room, filled, units);
    }
    match store.look(&ty) {
        Node::Pi(a, b) => fill_product(
            alloc, store, sig, ids, scope, u, a, b, highest, room, filled, units,
        ),
        _ => fill_closed(alloc, store, sig, ids, scope, u, ty, room, filled, units),
    }
}

/// The same, where the type of the function is made at once.
#[cycle(check)]
fn fill_closed<S: TermStore>(
    alloc: Global,
    store: &mut S,
    sig: &Signature,
    ids: &EntryIds<S::Id>,
    scope: &Scope<S::Id>,
    u: S::Id,
    ty: S::Id,
    room: u32,
    filled: &mut Filled<S::Id>,
    units: &mut Units,
) -> Result<VerdictIn<S::Id>, Stop>
    requires ids { Stands (S.held store.old) sig.now.entries ids.now }
    requires u_live { IsTrue ((S.held store.old).live u) }
    requires ty_live { IsTrue ((S.held store.old).live ty) }
    requires argument { CanCheckIn (S.held store.old) sig.now (room + 1) scope.now ((S.held store.old).tree u) }
    requires function { CanCheckIn (S.held store.old) sig.now (room + 1) scope.now (filled_tree (S.held store.old) filled.old.args.items ((S.held store.old).tree ty)) }
    requires filled { AreFilled (S.held store.old) filled.old }
    requires low { tree.height (filled_tree (S.held store.old) filled.old.args.items ((S.held store.old).tree ty)) ≤ 2000 }
    ensures { Opens (IsAppliedPart sig.now (scope_in (S.held store.old).tree scope.now) ((S.held store.old).tree u) (filled_tree (S.held store.old) filled.old.args.items ((S.held store.old).tree ty))) (S.held store.old) (S.held store.new) units.old units.new filled.new result (decided.apply_typed sig.now (checking.infer_sort_of sig.now room) (checking.check_of sig.now room) (scope_in (S.held store.old).tree scope.now) ((S.held store.old).tree u) (filled_tree (S.held store.old) filled.old.args.items ((S.held store.old).tree ty)) units.old.left) }
{
    let made = closed_type(alloc, store, filled, ty)?;
    filled.clear();
    apply_typed(alloc, store, sig, ids, scope, u, made, room, units)
}

/// The same, where the type of the function is a product, and the argument is left to be filled.
#[cycle(check)]
fn fill_product<S: TermStore>(
    alloc: Global,
    store: &mut S,
    sig: &Signature,
    ids: &EntryIds<S::Id>,
    scope: &Scope<S::Id>,
    u: S::Id,
    a: S::Id,
    b: S::Id,
    highest: u32,
    room: u32,
    filled: &mut Filled<S::Id>,
    units: &mut Units,
) -> Result<VerdictIn<S::Id>, Stop>
    requires ids { Stands (S.held store.old) sig.now.entries ids.now }
    requires u_live { IsTrue ((S.held store.old).live u) }
    requires a_live { IsTrue ((S.held store.old).live a) }
    requires b_live { IsTrue ((S.held store.old).live b) }
    requires argument { CanCheckIn (S.held store.old) sig.now (room + 1) scope.now ((S.held store.old).tree u) }
    requires function { CanCheckIn (S.held store.old) sig.now (room + 1) scope.now (filled_tree (S.held store.old) filled.old.args.items (tree.Pi ((S.held store.old).tree a) ((S.held store.old).tree b))) }
    requires more { WillFill (S.held store.old) filled.old.args.items u b highest }
    requires low { tree.height (filled_tree (S.held store.old) filled.old.args.items (tree.Pi ((S.held store.old).tree a) ((S.held store.old).tree b))) ≤ 2000 }
    ensures { Opens (IsArgumentPart sig.now (scope_in (S.held store.old).tree scope.now) ((S.held store.old).tree u) (filled_tree (S.held store.old) filled.old.args.items (tree.Pi ((S.held store.old).tree a) ((S.held store.old).tree b)))) (S.held store.old) (S.held store.new) units.old units.new filled.new result (checking.apply_product (checking.check_of sig.now room) (scope_in (S.held store.old).tree scope.now) ((S.held store.old).tree u) (filled_tree (S.held store.old) filled.old.args.items (tree.Pi ((S.held store.old).tree a) ((S.held store.old).tree b))) units.old.left) }
{
    let domain = closed_type(alloc, store, filled, a)?;
    fill_checked(
        alloc, store, sig, ids, scope, u, domain, b, highest, room, filled, units,
    )
}

/// The codomain `b` with one argument more to fill it, which must have the type `domain`.
#[cycle(check)]
fn fill_checked<S: TermStore>(
    alloc: Global,
    store: &mut S,
    sig: &Signature,
    ids: &EntryIds<S::Id>,
    scope: &Scope<S::Id>,
    u: S::Id,
    domain: S::Id,
    b: S::Id,
    highest: u32,
    room: u32,
    filled: &mut Filled<S::Id>,
    units: &mut Units,
) -> Result<VerdictIn<S::Id>, Stop>
    requires ids { Stands (S.held store.old) sig.now.entries ids.now }
    requires u_live { IsTrue ((S.held store.old).live u) }
    requires domain_live { IsTrue ((S.held store.old).live domain) }
    requires b_live { IsTrue ((S.held store.old).live b) }
    requires argument { CanCheckIn (S.held store.old) sig.now room scope.now ((S.held store.old).tree u) }
    requires wanted { CanCheckIn (S.held store.old) sig.now room scope.now ((S.held store.old).tree domain) }
    requires more { WillFill (S.held store.old) filled.old.args.items u b highest }
    ensures { Opens (IsCheckedAgainst sig.now (scope_in (S.held store.old).tree scope.now) ((S.held store.old).tree u) ((S.held store.old).tree domain)) (S.held store.old) (S.held store.new) units.old units.new filled.new result (checking.if_typed (checking.behind 1 (checking.check_of sig.now room (scope_in (S.held store.old).tree scope.now) ((S.held store.old).tree u) ((S.held store.old).tree domain) units.old.left)) (decided.instance_type (inst (ups (fill tree.Var (trees_of (S.held store.old) filled.old.args.items))) ((S.held store.old).tree b)) ((S.held store.old).tree u))) }
{
    match behind_in(
        1,
        check_at(alloc, store, sig, ids, scope, u, domain, room, units),
    )? {
        VerdictIn::Yes(_) => {
            filled.push(u, highest)?;
            Ok(VerdictIn::Yes(b))
        }
        VerdictIn::No(denial) => Ok(VerdictIn::No(denial)),
    }
}

/// The type of a function with the type `ty` at the argument `u`.
#[cycle(check)]
fn apply_typed<S: TermStore>(
    alloc: Global,
    store: &mut S,
    sig: &Signature,
    ids: &EntryIds<S::Id>,
    scope: &Scope<S::Id>,
    u: S::Id,
    ty: S::Id,
    room: u32,
    units: &mut Units,
) -> Result<VerdictIn<S::Id>, Stop>
    requires ids { Stands (S.held store.old) sig.now.entries ids.now }
    requires u_live { IsTrue ((S.held store.old).live u) }
    requires ty_live { IsTrue ((S.held store.old).live ty) }
    requires argument { CanCheckIn (S.held store.old) sig.now (room + 1) scope.now ((S.held store.old).tree u) }
    requires function { CanCheckIn (S.held store.old) sig.now (room + 1) scope.now ((S.held store.old).tree ty) }
    ensures { Decides (IsAppliedPart sig.now (scope_in (S.held store.old).tree scope.now) ((S.held store.old).tree u) ((S.held store.old).tree ty)) (S.held store.old) (S.held store.new) units.old units.new result (decided.apply_typed sig.now (checking.infer_sort_of sig.now room) (checking.check_of sig.now room) (scope_in (S.held store.old).tree scope.now) ((S.held store.old).tree u) ((S.held store.old).tree ty) units.old.left) }
{
    match product_of(alloc, store, sig, ids, scope, ty, room, units)? {
        VerdictIn::Yes(product) => {
            apply_product(alloc, store, sig, ids, scope, u, product, room, units)
        }
        VerdictIn::No(denial) => Ok(VerdictIn::No(denial)),
    }
}

/// The product that is a function's type, syntactically or reduced at its head.
#[cycle(check)]
fn product_of<S: TermStore>(
    alloc: Global,
    store: &mut S,
    sig: &Signature,
    ids: &EntryIds<S::Id>,
    scope: &Scope<S::Id>,
    ty: S::Id,
    room: u32,
    units: &mut Units,
) -> Result<VerdictIn<S::Id>, Stop>
    requires ids { Stands (S.held store.old) sig.now.entries ids.now }
    requires ty_live { IsTrue ((S.held store.old).live ty) }
    requires can { CanCheckIn (S.held store.old) sig.now (room + 1) scope.now ((S.held store.old).tree ty) }
    ensures { Decides (IsProductPart sig.now (scope_in (S.held store.old).tree scope.now) ((S.held store.old).tree ty)) (S.held store.old) (S.held store.new) units.old units.new result (checking.product_of sig.now (checking.infer_sort_of sig.now room) (scope_in (S.held store.old).tree scope.now) ((S.held store.old).tree ty) units.old.left) }
{
    if is_product(store, ty) {
        return Ok(VerdictIn::Yes(ty));
    }
    let reduced = whnf_in(alloc, store, sig, ids, ty, true, units)?;
    reduced_product(alloc, store, sig, ids, scope, reduced, room, units)
}

/// The reduced type of a function: it must be a product, and must have a sort.
#[cycle(check)]
fn reduced_product<S: TermStore>(
    alloc: Global,
    store: &mut S,
    sig: &Signature,
    ids: &EntryIds<S::Id>,
    scope: &Scope<S::Id>,
    reduced: S::Id,
    room: u32,
    units: &mut Units,
) -> Result<VerdictIn<S::Id>, Stop>
    requires ids { Stands (S.held store.old) sig.now.entries ids.now }
    requires reduced_live { IsTrue ((S.held store.old).live reduced) }
    requires can { CanCheckIn (S.held store.old) sig.now room scope.now ((S.held store.old).tree reduced) }
    ensures { Decides (IsCheckedPart sig.now (scope_in (S.held store.old).tree scope.now) ((S.held store.old).tree reduced)) (S.held store.old) (S.held store.new) units.old units.new result (checking.reduced_product (checking.infer_sort_of sig.now room) (scope_in (S.held store.old).tree scope.now) ((S.held store.old).tree reduced) units.old.left) }
{
    if !is_product(store, reduced) {
        return deny(
            alloc,
            store,
            scope,
            ReasonIn::NotAProduct { found: reduced },
        );
    }
    match behind_in(
        0,
        infer_sort_at(alloc, store, sig, ids, scope, reduced, room, units),
    )? {
        VerdictIn::Yes(_) => Ok(VerdictIn::Yes(reduced)),
        VerdictIn::No(denial) => Ok(VerdictIn::No(denial)),
    }
}

/// The type of a function with the type `product` at the argument `u`.
#[cycle(check)]
fn apply_product<S: TermStore>(
    alloc: Global,
    store: &mut S,
    sig: &Signature,
    ids: &EntryIds<S::Id>,
    scope: &Scope<S::Id>,
    u: S::Id,
    product: S::Id,
    room: u32,
    units: &mut Units,
) -> Result<VerdictIn<S::Id>, Stop>
    requires ids { Stands (S.held store.old) sig.now.entries ids.now }
    requires u_live { IsTrue ((S.held store.old).live u) }
    requires product_live { IsTrue ((S.held store.old).live product) }
    requires argument { CanCheckIn (S.held store.old) sig.now (room + 1) scope.now ((S.held store.old).tree u) }
    requires function { CanCheckIn (S.held store.old) sig.now (room + 1) scope.now ((S.held store.old).tree product) }
    ensures { Decides (IsArgumentPart sig.now (scope_in (S.held store.old).tree scope.now) ((S.held store.old).tree u) ((S.held store.old).tree product)) (S.held store.old) (S.held store.new) units.old units.new result (checking.apply_product (checking.check_of sig.now room) (scope_in (S.held store.old).tree scope.now) ((S.held store.old).tree u) ((S.held store.old).tree product) units.old.left) }
{
    match store.look(&product) {
        Node::Pi(a, b) => match behind_in(
            1,
            check_at(alloc, store, sig, ids, scope, u, a, room, units),
        )? {
            VerdictIn::Yes(_) => instance_type(alloc, store, b, u),
            VerdictIn::No(denial) => Ok(VerdictIn::No(denial)),
        },
        _ => deny(
            alloc,
            store,
            scope,
            ReasonIn::NotAProduct { found: product },
        ),
    }
}
