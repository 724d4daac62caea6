ghost use Rattle.std.specs.Prelude.{◌≡◌, map, IsTrue, IfOk, OnErr, Err};
ghost use Rattle.core_terms.specs.Meanings.{tele_of, tree_of};
ghost use Rattle.core_terms.specs.declared.stop.Stop.TheVariants.{Memory};
ghost use Rattle.core_sig.specs.Raw.{raw_constructor_of, raw_of};
ghost use Rattle.term_pool.specs.Held.{Extends};
ghost use Rattle.term_pool.specs.Pools.{pool_held};
ghost use Rattle.shared_text.specs.CodeMeanings.{AreFamilyIds, AreIdsOf};

use core_sig::{RawCon, RawFamily};
use core_terms::{Stop, Term};
use std::alloc::Global;
use term_pool::{Id, Pool};

/// The ids of the terms that the line of a family writes.
#[derive(Drop)]
pub(crate) struct FamilyIds {
    pub(crate) params: Vec<Id>,
    pub(crate) ty: Id,
    pub(crate) cons: Vec<Id>,
}

/// An id of the term. Memory is also answered where it is higher than 2,000, and where the pool has no room.
pub(crate) fn imported(pool: &mut Pool, t: &Term) -> Result<Id, Stop>
    ensures live { IfOk result (λ id. IsTrue ((pool_held pool.new).live id)) }
    ensures tree { IfOk result (λ id. (pool_held pool.new).tree id ≡ tree_of t.now) }
    ensures extends { Extends (pool_held pool.old) (pool_held pool.new) }
    ensures memory { OnErr result (result ≡ Err Memory) }
{
    match pool.import(t) {
        Ok(id) => Ok(id),
        Err(_) => Err(Stop::Memory),
    }
}

/// Ids of the terms.
fn imported_all(alloc: Global, pool: &mut Pool, terms: &[Term]) -> Result<Vec<Id>, Stop>
    ensures ids { IfOk result (λ ids. AreIdsOf pool.new ids.items (tele_of terms.now)) }
    ensures extends { Extends (pool_held pool.old) (pool_held pool.new) }
    ensures memory { OnErr result (result ≡ Err Memory) }
{
    let mut ids = Vec::new(alloc);
    for t in terms {
        let id = imported(pool, t)?;
        ids.push(id)?;
    }
    Ok(ids)
}

/// Ids of the types of constructors.
fn imported_types(alloc: Global, pool: &mut Pool, cons: &[RawCon]) -> Result<Vec<Id>, Stop>
    ensures ids { IfOk result (λ ids. AreIdsOf pool.new ids.items (map (λ c. c.type) (map raw_constructor_of cons.now))) }
    ensures extends { Extends (pool_held pool.old) (pool_held pool.new) }
    ensures memory { OnErr result (result ≡ Err Memory) }
{
    let mut ids = Vec::new(alloc);
    for con in cons {
        let id = imported(pool, &con.ty)?;
        ids.push(id)?;
    }
    Ok(ids)
}

/// The ids of the terms that the line of a family writes.
pub(crate) fn family_ids(alloc: Global, pool: &mut Pool, raw: &RawFamily) -> Result<FamilyIds, Stop>
    ensures ids { IfOk result (λ ids. AreFamilyIds pool.new ids (raw_of raw.now)) }
    ensures memory { OnErr result (result ≡ Err Memory) }
{
    let params = imported_all(alloc, pool, raw.params.as_slice())?;
    let ty = imported(pool, &raw.ty)?;
    let cons = imported_types(alloc, pool, raw.cons.as_slice())?;
    Ok(FamilyIds { params, ty, cons })
}
