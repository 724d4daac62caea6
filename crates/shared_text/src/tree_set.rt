//! Sets of ids as sets of trees: in a pool equal trees have equal ids.
ghost use Rattle.std.specs.Prelude.{◌≡◌, IsTrue, OnOk, OnErr, Err};
ghost use Rattle.core_terms.specs.declared.stop.Stop.TheVariants.{Memory};
ghost use Rattle.term_pool.specs.Pools.{pool_held};
ghost use Rattle.shared_text.specs.CodeMeanings.{AreLive, trees};
ghost use Rattle.shared_text.specs.PrintedTerms.{is_among, number_in, with_term};

use crate::id_set::IdSet;
use core_terms::Stop;
use term_pool::{Id, Pool};

/// Whether the tree of the id is among those of the set.
pub(crate) fn has_tree(pool: &Pool, set: &IdSet, id: Id) -> bool
    requires live { IsTrue ((pool_held pool.now).live id) }
    requires set { AreLive pool.now set.now }
    ensures { result ≡ is_among (trees pool.now set.now) ((pool_held pool.now).tree id) }
{
    let _whole = pool.mark();
    set.has(id)
}

/// The number of the tree of the id among those of the set.
pub(crate) fn number_of_tree(pool: &Pool, set: &IdSet, id: Id) -> Option<usize>
    requires live { IsTrue ((pool_held pool.now).live id) }
    requires set { AreLive pool.now set.now }
    ensures { result ≡ number_in (trees pool.now set.now) ((pool_held pool.now).tree id) }
{
    let _whole = pool.mark();
    set.place(id)
}

/// Adds the id at the end where its tree is not among those of the set.
pub(crate) fn add_tree(pool: &Pool, set: &mut IdSet, id: Id) -> Result<(), Stop>
    requires live { IsTrue ((pool_held pool.now).live id) }
    requires set { AreLive pool.now set.old }
    ensures live { OnOk result (AreLive pool.now set.new) }
    ensures trees { OnOk result (trees pool.now set.new ≡ with_term (trees pool.now set.old) ((pool_held pool.now).tree id)) }
    ensures memory { OnErr result (result ≡ Err Memory) }
{
    let _whole = pool.mark();
    set.add(id)?;
    Ok(())
}
