//! A type and the sort of a term that is written out, in a context that is: both are imported into a store, and the verdict is exported.
ghost use Rattle.std.specs.Prelude.{◌≡◌, ◌≤◌, ◌+◌, [], ◌∷◌};
ghost use Rattle.core_sig.specs.EntryIds.{Stands};
ghost use Rattle.core_terms.specs.Meanings.{tree_of, tele_of, verdict_of};
ghost use Rattle.kernel_check.specs.Checking.{infer_of, infer_sort_of};
ghost use Rattle.kernel_check.specs.Scopes.{CanCheckIn, scope_in};
ghost use Rattle.kernel_reduce.specs.Reduction.{nesting};
ghost use Rattle.kernel_reduce.specs.WellScoped.{AreWellScoped};
ghost use Rattle.store_reduce.specs.Runs.{RunsIn};
ghost use Rattle.term_pool.specs.Held.{Extends};
ghost use Rattle.theory.specs.Telescopes.{context_behind};

use crate::checking::{infer_at, infer_sort_at};
use crate::scope::Scope;
use crate::written_terms::{export_verdict, import_types};
use core_sig::{EntryIds, Signature};
use core_terms::{Stop, Term, Units, Verdict};
use kernel_reduce::NESTING;
use std::alloc::Global;
use term_pool::{TermStore, import_in};

/// A type of the term in a context.
fn infer_within<S: TermStore>(
    alloc: Global,
    store: &mut S,
    sig: &Signature,
    ids: &EntryIds<S::Id>,
    scope: &Scope<S::Id>,
    t: &Term,
    units: &mut Units,
) -> Result<Verdict, Stop>
    requires ids { Stands (S.held store.old) sig.now.entries ids.now }
    requires can { CanCheckIn (S.held store.old) sig.now nesting scope.now (tree_of t.now) }
    ensures answer { RunsIn verdict_of result units.new.left (infer_of sig.now nesting (scope_in (S.held store.old).tree scope.now) (tree_of t.now) units.old.left) }
    ensures extends { Extends (S.held store.old) (S.held store.new) }
    ensures sum { units.new.left + units.new.spent ≡ units.old.left + units.old.spent }
    ensures spends { units.new.left ≤ units.old.left }
{
    let id = import_in(store, t)?;
    let verdict = infer_at(alloc, store, sig, ids, scope, id, NESTING, units)?;
    export_verdict(alloc, store, verdict)
}

/// A type of the term in the context, which lists its types from the outermost on.
pub(crate) fn infer_written<S: TermStore>(
    alloc: Global,
    store: &mut S,
    sig: &Signature,
    ids: &EntryIds<S::Id>,
    ctx: &[Term],
    t: &Term,
    units: &mut Units,
) -> Result<Verdict, Stop>
    requires ids { Stands (S.held store.old) sig.now.entries ids.now }
    requires asked { AreWellScoped sig.now (tele_of ctx.now) (tree_of t.now ∷ []) }
    ensures answer { RunsIn verdict_of result units.new.left (infer_of sig.now nesting (context_behind [] (tele_of ctx.now)) (tree_of t.now) units.old.left) }
    ensures extends { Extends (S.held store.old) (S.held store.new) }
    ensures sum { units.new.left + units.new.spent ≡ units.old.left + units.old.spent }
    ensures spends { units.new.left ≤ units.old.left }
{
    let types = import_types(alloc, store, ctx)?;
    infer_within(
        alloc,
        store,
        sig,
        ids,
        &Scope::Written(ctx, types.as_slice()),
        t,
        units,
    )
}

/// The sort of a type in a context.
fn infer_sort_within<S: TermStore>(
    alloc: Global,
    store: &mut S,
    sig: &Signature,
    ids: &EntryIds<S::Id>,
    scope: &Scope<S::Id>,
    t: &Term,
    units: &mut Units,
) -> Result<Verdict, Stop>
    requires ids { Stands (S.held store.old) sig.now.entries ids.now }
    requires can { CanCheckIn (S.held store.old) sig.now nesting scope.now (tree_of t.now) }
    ensures answer { RunsIn verdict_of result units.new.left (infer_sort_of sig.now nesting (scope_in (S.held store.old).tree scope.now) (tree_of t.now) units.old.left) }
    ensures extends { Extends (S.held store.old) (S.held store.new) }
    ensures sum { units.new.left + units.new.spent ≡ units.old.left + units.old.spent }
    ensures spends { units.new.left ≤ units.old.left }
{
    let id = import_in(store, t)?;
    let verdict = infer_sort_at(alloc, store, sig, ids, scope, id, NESTING, units)?;
    export_verdict(alloc, store, verdict)
}

/// The sort of a type in the context, which lists its types from the outermost on.
pub(crate) fn infer_sort_written<S: TermStore>(
    alloc: Global,
    store: &mut S,
    sig: &Signature,
    ids: &EntryIds<S::Id>,
    ctx: &[Term],
    t: &Term,
    units: &mut Units,
) -> Result<Verdict, Stop>
    requires ids { Stands (S.held store.old) sig.now.entries ids.now }
    requires asked { AreWellScoped sig.now (tele_of ctx.now) (tree_of t.now ∷ []) }
    ensures answer { RunsIn verdict_of result units.new.left (infer_sort_of sig.now nesting (context_behind [] (tele_of ctx.now)) (tree_of t.now) units.old.left) }
    ensures extends { Extends (S.held store.old) (S.held store.new) }
    ensures sum { units.new.left + units.new.spent ≡ units.old.left + units.old.spent }
    ensures spends { units.new.left ≤ units.old.left }
{
    let types = import_types(alloc, store, ctx)?;
    infer_sort_within(
        alloc,
        store,
        sig,
        ids,
        &Scope::Written(ctx, types.as_slice()),
        t,
        units,
    )
}
