ghost use Rattle.std.specs.Prelude.{◌≡◌, ◌+◌, ◌≤◌, IfOk, IsTrue, Some, slice_get};
ghost use Rattle.theory.specs.Terms as tree;
ghost use Rattle.core_terms.specs.Answers.{Gives};
ghost use Rattle.core_terms.specs.Bounds.{most_free};
ghost use Rattle.term_pool.specs.Held.{AddsParts, Extends, IsFullFor};
ghost use Rattle.term_pool.specs.Nodes.{says};
ghost use Rattle.kernel_check.specs.Checking as checking;
ghost use Rattle.kernel_check.specs.Symbols as spec;
ghost use Rattle.store_reduce.specs.Additions.{AddsOnly, IsFullOf};
ghost use Rattle.core_sig.specs.EntryIds.{Stands};
ghost use Rattle.kernel_check.specs.Asked.{IsLeafPart};
ghost use Rattle.kernel_check.specs.Scopes.{CanCheckIn, IsLive, scope_in};
ghost use Rattle.kernel_check.specs.Verdicts.{AnswersIn, IsLiveVerdict, verdict_in};

use crate::scope::{Scope, declared};
use crate::symbols::symbol_type;
use crate::type_id::TypeId;
use crate::verdict::{ReasonIn, VerdictIn, deny};
use core_sig::{EntryIds, Signature};
use core_terms::{Stop, TOP};
use std::alloc::Global;
use term_pool::{Node, TermStore, lift_in};

/// The type that the context gives to variable `n`, lifted to the whole context.
fn variable_type<S: TermStore>(
    alloc: Global,
    store: &mut S,
    scope: &Scope<S::Id>,
    n: u32,
) -> Result<VerdictIn<S::Id>, Stop>
    requires context { IsLive (S.held store.old) scope.now }
    requires few { (a : tree.Term) → slice_get (scope_in (S.held store.old).tree scope.now) n ≡ Some a → tree.free_of a + (n + 1) ≤ most_free }
    ensures answer { AnswersIn (verdict_in (S.held store.new).tree) result (checking.variable_type (scope_in (S.held store.old).tree scope.now) n (slice_get (scope_in (S.held store.old).tree scope.now) n)) }
    ensures live { IfOk result (IsLiveVerdict (S.held store.new)) }
    ensures extends { Extends (S.held store.old) (S.held store.new) }
    ensures adds { AddsOnly (IsLeafPart (scope_in (S.held store.old).tree scope.now) (tree.Var n)) (S.held store.old) (S.held store.new) }
    ensures full { IsFullOf (IsLeafPart (scope_in (S.held store.old).tree scope.now) (tree.Var n)) (S.held store.new) result }
{
    match declared(scope, n) {
        TypeId::Of(ty) => lifted_type(alloc, store, ty, n + 1),
        TypeId::TooHigh => Err(Stop::Deep),
        TypeId::Unknown => deny(alloc, store, scope, ReasonIn::NoSuchInstance),
    }
}

/// The type of a variable that is declared as `ty`, over `by` variables more.
fn lifted_type<S: TermStore>(
    alloc: Global,
    store: &mut S,
    ty: S::Id,
    by: u32,
) -> Result<VerdictIn<S::Id>, Stop>
    requires live { IsTrue ((S.held store.old).live ty) }
    requires few { tree.free_of ((S.held store.old).tree ty) + by ≤ most_free }
    ensures answer { AnswersIn (verdict_in (S.held store.new).tree) result (checking.typed (tree.lift ((S.held store.old).tree ty) by 0)) }
    ensures live { IfOk result (IsLiveVerdict (S.held store.new)) }
    ensures extends { Extends (S.held store.old) (S.held store.new) }
    ensures adds { AddsParts (S.held store.old) (S.held store.new) (tree.lift ((S.held store.old).tree ty) by 0) }
    ensures full { IsFullFor (S.held store.new) result (tree.lift ((S.held store.old).tree ty) by 0) }
{
    Ok(VerdictIn::Yes(lift_in(alloc, store, ty, by, 0)?))
}

/// The sort `Type i` as a type.
fn sort_type<S: TermStore>(store: &mut S, i: u8) -> Result<VerdictIn<S::Id>, Stop>
    ensures answer { AnswersIn (verdict_in (S.held store.new).tree) result (checking.typed (tree.Sort i)) }
    ensures live { IfOk result (IsLiveVerdict (S.held store.new)) }
    ensures extends { Extends (S.held store.old) (S.held store.new) }
    ensures adds { AddsParts (S.held store.old) (S.held store.new) (tree.Sort i) }
    ensures full { IsFullFor (S.held store.new) result (tree.Sort i) }
{
    Ok(VerdictIn::Yes(store.make(Node::Sort(i))?))
}

/// The type of a sort.
fn universe_type<S: TermStore>(
    alloc: Global,
    store: &mut S,
    scope: &Scope<S::Id>,
    i: u8,
) -> Result<VerdictIn<S::Id>, Stop>
    requires context { IsLive (S.held store.old) scope.now }
    ensures answer { AnswersIn (verdict_in (S.held store.new).tree) result (checking.universe_type (scope_in (S.held store.old).tree scope.now) i) }
    ensures live { IfOk result (IsLiveVerdict (S.held store.new)) }
    ensures extends { Extends (S.held store.old) (S.held store.new) }
    ensures adds { AddsOnly (IsLeafPart (scope_in (S.held store.old).tree scope.now) (tree.Sort i)) (S.held store.old) (S.held store.new) }
    ensures full { IsFullOf (IsLeafPart (scope_in (S.held store.old).tree scope.now) (tree.Sort i)) (S.held store.new) result }
{
    if i < TOP {
        sort_type(store, i + 1)
    } else {
        deny(alloc, store, scope, ReasonIn::LevelTooHigh)
    }
}

/// The type that the signature gives to a symbol.
fn given_type<S: TermStore>(
    alloc: Global,
    store: &S,
    sig: &Signature,
    ids: &EntryIds<S::Id>,
    scope: &Scope<S::Id>,
    symbol: Node<S::Id>,
) -> Result<VerdictIn<S::Id>, Stop>
    requires ids { Stands (S.held store.now) sig.now.entries ids.now }
    requires context { IsLive (S.held store.now) scope.now }
    ensures answer { Gives (verdict_in (S.held store.now).tree) result (checking.given_type (scope_in (S.held store.now).tree scope.now) (spec.symbol_type sig.now (says (S.held store.now).tree symbol))) }
    ensures live { IfOk result (IsLiveVerdict (S.held store.now)) }
{
    match symbol_type(sig, ids, symbol) {
        TypeId::Of(ty) => {
            let _low = store.height(&ty);
            Ok(VerdictIn::Yes(ty))
        }
        TypeId::TooHigh => Err(Stop::Deep),
        TypeId::Unknown => deny(alloc, store, scope, ReasonIn::NoSuchInstance),
    }
}

/// The type of a variable, a sort or a symbol.
pub(crate) fn leaf_type<S: TermStore>(
    alloc: Global,
    store: &mut S,
    sig: &Signature,
    ids: &EntryIds<S::Id>,
    scope: &Scope<S::Id>,
    leaf: Node<S::Id>,
) -> Result<VerdictIn<S::Id>, Stop>
    requires ids { Stands (S.held store.old) sig.now.entries ids.now }
    requires can { CanCheckIn (S.held store.old) sig.now 0 scope.now (says (S.held store.old).tree leaf) }
    ensures answer { AnswersIn (verdict_in (S.held store.new).tree) result (checking.leaf_type sig.now (scope_in (S.held store.old).tree scope.now) (says (S.held store.old).tree leaf)) }
    ensures live { IfOk result (IsLiveVerdict (S.held store.new)) }
    ensures extends { Extends (S.held store.old) (S.held store.new) }
    ensures adds { AddsOnly (IsLeafPart (scope_in (S.held store.old).tree scope.now) (says (S.held store.old).tree leaf)) (S.held store.old) (S.held store.new) }
    ensures full { IsFullOf (IsLeafPart (scope_in (S.held store.old).tree scope.now) (says (S.held store.old).tree leaf)) (S.held store.new) result }
{
    match leaf {
        Node::Var(n) => variable_type(alloc, store, scope, n),
        Node::Sort(i) => universe_type(alloc, store, scope, i),
        symbol => given_type(alloc, store, sig, ids, scope, symbol),
    }
}
