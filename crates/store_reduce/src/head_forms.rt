ghost use Rattle.std.specs.Prelude.{◌≡◌, ◌≤◌, ◌+◌, IsTrue, IfOk, None};
ghost use Rattle.core_terms.specs.Bounds.{most_inner_variables};
ghost use Rattle.term_pool.specs.Held.{Extends};
ghost use Rattle.theory.specs.SignatureScopes.{IsScoped, IsScopedSignature};
ghost use Rattle.theory.specs.Terms as tree;
ghost use Rattle.kernel_reduce.specs.Reduction.{whnf_of};
ghost use Rattle.kernel_reduce.specs.Steps.{step_of};
ghost use Rattle.store_reduce.specs.Additions.{AddsOnly, IsFullOf};
ghost use Rattle.core_sig.specs.EntryIds.{Stands};
ghost use Rattle.store_reduce.specs.Formed.{IsPartOnTheWay, Reaches};
ghost use Rattle.store_reduce.specs.Runs.{RunsIn};

use crate::reducing::reduce_in;
use core_sig::{EntryIds, Signature};
use core_terms::{Stop, Units};
use std::alloc::Global;
use term_pool::TermStore;

/// The head form of a term, with nothing around it.
#[tactic(auto, using(crate::proofs::Wholes::whole_is))]
pub(crate) fn head_form_in<S: TermStore>(
    alloc: Global,
    store: &mut S,
    sig: &Signature,
    ids: &EntryIds<S::Id>,
    t: S::Id,
    delta: bool,
    units: &mut Units,
) -> Result<S::Id, Stop>
    requires live { IsTrue ((S.held store.old).live t) }
    requires signature { IsScopedSignature sig.now }
    requires ids { Stands (S.held store.old) sig.now.entries ids.now }
    requires scoped { IsScoped sig.now most_inner_variables ((S.held store.old).tree t) }
    ensures answer { RunsIn (S.held store.new).tree result units.new.left (whnf_of sig.now delta units.old.left ((S.held store.old).tree t)) }
    ensures live { IfOk result (λ id. IsTrue ((S.held store.new).live id)) }
    ensures rests { IfOk result (λ id. step_of sig.now delta ((S.held store.new).tree id) ≡ None) }
    ensures low { IfOk result (λ id. tree.height ((S.held store.new).tree id) ≤ 2000) }
    ensures reaches { IfOk result (λ id. Reaches sig.now delta ((S.held store.old).tree t) ((S.held store.new).tree id)) }
    ensures extends { Extends (S.held store.old) (S.held store.new) }
    ensures adds { AddsOnly (IsPartOnTheWay sig.now delta ((S.held store.old).tree t)) (S.held store.old) (S.held store.new) }
    ensures full { IsFullOf (IsPartOnTheWay sig.now delta ((S.held store.old).tree t)) (S.held store.new) result }
    ensures sum { units.new.left + units.new.spent ≡ units.old.left + units.old.spent }
    ensures spends { units.new.left ≤ units.old.left }
{
    Ok(reduce_in(alloc, store, sig, ids, t, delta, 0, true, units)?.id)
}
