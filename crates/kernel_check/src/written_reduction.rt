//! Reduction and comparison of terms that are written out: they are imported into a store, and what is answered is exported.
ghost use Rattle.std.specs.Prelude.{◌≡◌, ◌≤◌, ◌+◌, [], ◌∷◌};
ghost use Rattle.core_sig.specs.EntryIds.{Stands};
ghost use Rattle.core_terms.specs.Meanings.{tree_of};
ghost use Rattle.kernel_reduce.specs.Comparison.{convertible_of, subtype_of};
ghost use Rattle.kernel_reduce.specs.Reduction.{nesting, normal_of, whnf_of};
ghost use Rattle.kernel_reduce.specs.WellScoped.{CanReduce};
ghost use Rattle.store_reduce.specs.Runs.{RunsIn};
ghost use Rattle.term_pool.specs.Held.{Extends};

use core_sig::{EntryIds, Signature};
use core_terms::{Stop, Term, Units};
use std::alloc::Global;
use store_reduce::{convertible_in, normal_in, subtype_in, whnf_in};
use term_pool::{TermStore, export_in, import_in};

/// The head form of a term.
pub(crate) fn whnf_written<S: TermStore>(
    alloc: Global,
    store: &mut S,
    sig: &Signature,
    ids: &EntryIds<S::Id>,
    t: &Term,
    delta: bool,
    units: &mut Units,
) -> Result<Term, Stop>
    requires ids { Stands (S.held store.old) sig.now.entries ids.now }
    requires asked { CanReduce sig.now (tree_of t.now ∷ []) }
    ensures answer { RunsIn tree_of result units.new.left (whnf_of sig.now delta units.old.left (tree_of t.now)) }
    ensures extends { Extends (S.held store.old) (S.held store.new) }
    ensures sum { units.new.left + units.new.spent ≡ units.old.left + units.old.spent }
    ensures spends { units.new.left ≤ units.old.left }
{
    let id = import_in(store, t)?;
    let form = whnf_in(alloc, store, sig, ids, id, delta, units)?;
    export_in(alloc, store, form)
}

/// The normal form of a term.
pub(crate) fn normal_written<S: TermStore>(
    alloc: Global,
    store: &mut S,
    sig: &Signature,
    ids: &EntryIds<S::Id>,
    t: &Term,
    delta: bool,
    units: &mut Units,
) -> Result<Term, Stop>
    requires ids { Stands (S.held store.old) sig.now.entries ids.now }
    requires asked { CanReduce sig.now (tree_of t.now ∷ []) }
    ensures answer { RunsIn tree_of result units.new.left (normal_of sig.now delta nesting (tree_of t.now) units.old.left) }
    ensures extends { Extends (S.held store.old) (S.held store.new) }
    ensures sum { units.new.left + units.new.spent ≡ units.old.left + units.old.spent }
    ensures spends { units.new.left ≤ units.old.left }
{
    let id = import_in(store, t)?;
    let form = normal_in(alloc, store, sig, ids, id, delta, units)?;
    export_in(alloc, store, form)
}

/// Whether two terms are found convertible.
pub(crate) fn convertible_written<S: TermStore>(
    alloc: Global,
    store: &mut S,
    sig: &Signature,
    ids: &EntryIds<S::Id>,
    a: &Term,
    b: &Term,
    units: &mut Units,
) -> Result<bool, Stop>
    requires ids { Stands (S.held store.old) sig.now.entries ids.now }
    requires asked { CanReduce sig.now (tree_of a.now ∷ tree_of b.now ∷ []) }
    ensures answer { RunsIn (λ holds. holds) result units.new.left (convertible_of sig.now nesting (tree_of a.now) (tree_of b.now) units.old.left) }
    ensures extends { Extends (S.held store.old) (S.held store.new) }
    ensures sum { units.new.left + units.new.spent ≡ units.old.left + units.old.spent }
    ensures spends { units.new.left ≤ units.old.left }
{
    let first = import_in(store, a)?;
    let second = import_in(store, b)?;
    convertible_in(alloc, store, sig, ids, first, second, units)
}

/// Whether the first term is found below the second one.
pub(crate) fn subtype_written<S: TermStore>(
    alloc: Global,
    store: &mut S,
    sig: &Signature,
    ids: &EntryIds<S::Id>,
    a: &Term,
    b: &Term,
    units: &mut Units,
) -> Result<bool, Stop>
    requires ids { Stands (S.held store.old) sig.now.entries ids.now }
    requires asked { CanReduce sig.now (tree_of a.now ∷ tree_of b.now ∷ []) }
    ensures answer { RunsIn (λ holds. holds) result units.new.left (subtype_of sig.now nesting (tree_of a.now) (tree_of b.now) units.old.left) }
    ensures extends { Extends (S.held store.old) (S.held store.new) }
    ensures sum { units.new.left + units.new.spent ≡ units.old.left + units.old.spent }
    ensures spends { units.new.left ≤ units.old.left }
{
    let first = import_in(store, a)?;
    let second = import_in(store, b)?;
    subtype_in(alloc, store, sig, ids, first, second, units)
}
