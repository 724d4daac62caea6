//! A check of a term against a type, both written out. Where the type is higher than 2,000, it has no id, and the check is Deep once the
//! term has a type.
ghost use Rattle.std.specs.Prelude.{◌≡◌, ◌≤◌, ◌<◌, ◌+◌, [], ◌∷◌, IsTrue};
ghost use Rattle.core_sig.specs.EntryIds.{Stands};
ghost use Rattle.core_terms.specs.Meanings.{tree_of, tele_of, verdict_of};
ghost use Rattle.kernel_check.specs.Checking.{check_of};
ghost use Rattle.kernel_check.specs.Scopes.{CanCheckIn, scope_in};
ghost use Rattle.kernel_reduce.specs.Reduction.{nesting};
ghost use Rattle.kernel_reduce.specs.WellScoped.{AreWellScoped};
ghost use Rattle.store_reduce.specs.Runs.{RunsIn};
ghost use Rattle.term_pool.specs.Held.{Extends};
ghost use Rattle.theory.specs.Telescopes.{context_behind};
ghost use Rattle.theory.specs.Terms as tree;

use crate::checking::{check_at, infer_at};
use crate::scope::Scope;
use crate::verdict::VerdictIn;
use crate::written_terms::{export_verdict, import_types};
use core_sig::{EntryIds, Signature, import_where_low};
use core_terms::{Stop, Term, Units, Verdict};
use kernel_reduce::NESTING;
use std::alloc::Global;
use term_pool::{TermStore, import_in};

/// A check against a type that is too high.
fn check_high<S: TermStore>(
    alloc: Global,
    store: &mut S,
    sig: &Signature,
    ids: &EntryIds<S::Id>,
    scope: &Scope<S::Id>,
    t: S::Id,
    units: &mut Units,
) -> Result<Verdict, Stop>
    requires ids { Stands (S.held store.old) sig.now.entries ids.now }
    requires t_live { IsTrue ((S.held store.old).live t) }
    requires can { CanCheckIn (S.held store.old) sig.now nesting scope.now ((S.held store.old).tree t) }
    ensures answer { (wanted : tree.Term) → 2000 < tree.height wanted → RunsIn verdict_of result units.new.left (check_of sig.now nesting (scope_in (S.held store.old).tree scope.now) ((S.held store.old).tree t) wanted units.old.left) }
    ensures extends { Extends (S.held store.old) (S.held store.new) }
    ensures sum { units.new.left + units.new.spent ≡ units.old.left + units.old.spent }
    ensures spends { units.new.left ≤ units.old.left }
{
    match infer_at(alloc, store, sig, ids, scope, t, NESTING - 1, units)? {
        VerdictIn::Yes(_) => Err(Stop::Deep),
        VerdictIn::No(denial) => Ok(Verdict::No(denial)),
    }
}

/// A check against a type that has an id.
fn check_low<S: TermStore>(
    alloc: Global,
    store: &mut S,
    sig: &Signature,
    ids: &EntryIds<S::Id>,
    scope: &Scope<S::Id>,
    t: S::Id,
    wanted: S::Id,
    units: &mut Units,
) -> Result<Verdict, Stop>
    requires ids { Stands (S.held store.old) sig.now.entries ids.now }
    requires t_live { IsTrue ((S.held store.old).live t) }
    requires wanted_live { IsTrue ((S.held store.old).live wanted) }
    requires term { CanCheckIn (S.held store.old) sig.now nesting scope.now ((S.held store.old).tree t) }
    requires wanted { CanCheckIn (S.held store.old) sig.now nesting scope.now ((S.held store.old).tree wanted) }
    ensures answer { RunsIn verdict_of result units.new.left (check_of sig.now nesting (scope_in (S.held store.old).tree scope.now) ((S.held store.old).tree t) ((S.held store.old).tree wanted) units.old.left) }
    ensures extends { Extends (S.held store.old) (S.held store.new) }
    ensures sum { units.new.left + units.new.spent ≡ units.old.left + units.old.spent }
    ensures spends { units.new.left ≤ units.old.left }
{
    let verdict = check_at(alloc, store, sig, ids, scope, t, wanted, NESTING, units)?;
    export_verdict(alloc, store, verdict)
}

/// A check of a term that has an id.
fn check_id<S: TermStore>(
    alloc: Global,
    store: &mut S,
    sig: &Signature,
    ids: &EntryIds<S::Id>,
    scope: &Scope<S::Id>,
    t: S::Id,
    wanted: &Term,
    units: &mut Units,
) -> Result<Verdict, Stop>
    requires ids { Stands (S.held store.old) sig.now.entries ids.now }
    requires t_live { IsTrue ((S.held store.old).live t) }
    requires term { CanCheckIn (S.held store.old) sig.now nesting scope.now ((S.held store.old).tree t) }
    requires wanted { CanCheckIn (S.held store.old) sig.now nesting scope.now (tree_of wanted.now) }
    ensures answer { RunsIn verdict_of result units.new.left (check_of sig.now nesting (scope_in (S.held store.old).tree scope.now) ((S.held store.old).tree t) (tree_of wanted.now) units.old.left) }
    ensures extends { Extends (S.held store.old) (S.held store.new) }
    ensures sum { units.new.left + units.new.spent ≡ units.old.left + units.old.spent }
    ensures spends { units.new.left ≤ units.old.left }
{
    match import_where_low(store, wanted)? {
        Some(wanted) => check_low(alloc, store, sig, ids, scope, t, wanted, units),
        None => check_high(alloc, store, sig, ids, scope, t, units),
    }
}

/// A check of a term in a context.
fn check_within<S: TermStore>(
    alloc: Global,
    store: &mut S,
    sig: &Signature,
    ids: &EntryIds<S::Id>,
    scope: &Scope<S::Id>,
    t: &Term,
    wanted: &Term,
    units: &mut Units,
) -> Result<Verdict, Stop>
    requires ids { Stands (S.held store.old) sig.now.entries ids.now }
    requires term { CanCheckIn (S.held store.old) sig.now nesting scope.now (tree_of t.now) }
    requires wanted { CanCheckIn (S.held store.old) sig.now nesting scope.now (tree_of wanted.now) }
    ensures answer { RunsIn verdict_of result units.new.left (check_of sig.now nesting (scope_in (S.held store.old).tree scope.now) (tree_of t.now) (tree_of wanted.now) units.old.left) }
    ensures extends { Extends (S.held store.old) (S.held store.new) }
    ensures sum { units.new.left + units.new.spent ≡ units.old.left + units.old.spent }
    ensures spends { units.new.left ≤ units.old.left }
{
    let id = import_in(store, t)?;
    check_id(alloc, store, sig, ids, scope, id, wanted, units)
}

/// Whether the term has the type `wanted` in the context, which lists its types from the outermost on.
pub(crate) fn check_written<S: TermStore>(
    alloc: Global,
    store: &mut S,
    sig: &Signature,
    ids: &EntryIds<S::Id>,
    ctx: &[Term],
    t: &Term,
    wanted: &Term,
    units: &mut Units,
) -> Result<Verdict, Stop>
    requires ids { Stands (S.held store.old) sig.now.entries ids.now }
    requires asked { AreWellScoped sig.now (tele_of ctx.now) (tree_of t.now ∷ tree_of wanted.now ∷ []) }
    ensures answer { RunsIn verdict_of result units.new.left (check_of sig.now nesting (context_behind [] (tele_of ctx.now)) (tree_of t.now) (tree_of wanted.now) units.old.left) }
    ensures extends { Extends (S.held store.old) (S.held store.new) }
    ensures sum { units.new.left + units.new.spent ≡ units.old.left + units.old.spent }
    ensures spends { units.new.left ≤ units.old.left }
{
    let types = import_types(alloc, store, ctx)?;
    check_within(
        alloc,
        store,
        sig,
        ids,
        &Scope::Written(ctx, types.as_slice()),
        t,
        wanted,
        units,
    )
}
