ghost use Rattle.std.specs.Prelude.{◌≡◌, [], IsTrue, OnErr, IfOk, Err};
ghost use Rattle.core_terms.specs.declared.stop.Stop.TheVariants.{Memory};
ghost use Rattle.term_pool.specs.Pools.{pool_held};
ghost use Rattle.shared_text.specs.CodeMeanings.{AreLive, AreMet, trees, walked_of};
ghost use Rattle.shared_text.specs.PrintedTerms.{joined};
ghost use Rattle.shared_text.specs.Walks.{is_met_shared, met_shared};

use crate::id_set::IdSet;
use crate::met::Met;
use crate::tree_set::{add_tree, has_tree};
use core_terms::Stop;
use std::alloc::Global;
use term_pool::{Id, Pool};

/// Whether a printed term is shared.
fn is_shared(pool: &Pool, met: &Met, id: Id) -> bool
    requires live { IsTrue ((pool_held pool.now).live id) }
    requires met { AreMet pool.now met.now }
    ensures { result ≡ is_met_shared (walked_of pool.now met.now) ((pool_held pool.now).tree id) }
{
    pool.height(id) > 1 && has_tree(pool, &met.again, id)
}

/// The shared terms, each at its number: those of the printed terms that are higher than 1 and stand at two or more places.
pub(crate) fn shared_ids(alloc: Global, pool: &Pool, met: &Met) -> Result<IdSet, Stop>
    requires { AreMet pool.now met.now }
    ensures live { IfOk result (AreLive pool.now) }
    ensures terms { IfOk result (λ s. trees pool.now s ≡ joined [] (met_shared (walked_of pool.now met.now))) }
    ensures memory { OnErr result (result ≡ Err Memory) }
{
    let mut shared = IdSet::new(alloc);
    for id in met.found.as_slice() {
        if is_shared(pool, met, *id) {
            add_tree(pool, &mut shared, *id)?;
        }
    }
    Ok(shared)
}
