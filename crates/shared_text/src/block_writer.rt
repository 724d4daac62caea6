ghost use Rattle.std.specs.Prelude.{◌≡◌, ◌++◌, [], ◌∷◌, IsTrue, IfOk, OnOk, OnErr, Err, Ok};
ghost use Rattle.core_terms.specs.Answers.{Gives};
ghost use Rattle.core_terms.specs.Meanings.{tree_of};
ghost use Rattle.core_terms.specs.declared.stop.Stop.TheVariants.{Memory};
ghost use Rattle.core_sig.specs.Raw.{raw_of};
ghost use Rattle.core_text.specs.RawEntries.{RawDefinition, RawFamilyOf};
ghost use Rattle.term_pool.specs.Pools.{pool_held};
ghost use Rattle.shared_text.specs.BlockText.{block_text, block_with, share_lines};
ghost use Rattle.shared_text.specs.CodeMeanings.{AreFamilyIds, AreLive, AreMet, shared_of, trees, walked_of};
ghost use Rattle.shared_text.specs.PrintedTerms.{shared_terms, written_terms};
ghost use Rattle.shared_text.specs.Walks.{meet_all};

use crate::id_set::IdSet;
use crate::line_writer::{write_definition, write_family};
use crate::met::{Met, meet_all, nothing_met};
use crate::numbers::shared_ids;
use crate::term_writer::{Texts, write_full};
use crate::written::{FamilyIds, family_ids, imported};
use core_sig::{RawFamily, Signature};
use core_terms::{Items, Stop, Term};
use core_text::bytes::write;
use std::alloc::Global;
use term_pool::{Id, Pool};

/// Writes the lines of shared terms, each with the term in full.
fn write_shares(out: &mut Vec<u8>, texts: &Texts) -> Result<(), Stop>
    requires { AreLive texts.now.pool.now texts.now.shared.now }
    ensures ok { OnOk result (out.new.items ≡ out.old.items ++ share_lines texts.now.sig.now (shared_of texts.now) (shared_of texts.now)) }
    ensures memory { OnErr result (result ≡ Err Memory) }
{
    for id in texts.shared.as_slice() {
        write(out, b"share ")?;
        write_full(out, texts, *id, false)?;
        write(out, b"\n")?;
    }
    Ok(())
}

/// The block of a family with these shared terms.
fn family_with(texts: &Texts, raw: &RawFamily, ids: &FamilyIds) -> Result<Items<u8>, Stop>
    requires shared { AreLive texts.now.pool.now texts.now.shared.now }
    requires ids { AreFamilyIds texts.now.pool.now ids.now (raw_of raw.now) }
    ensures { Gives (λ text. text) result (Ok (block_with texts.now.sig.now (shared_of texts.now) (RawFamilyOf (raw_of raw.now)))) }
{
    let mut out = Vec::new(texts.alloc);
    write_shares(&mut out, texts)?;
    write_family(&mut out, texts, raw, ids)?;
    write(&mut out, b"\n")?;
    Ok(Items::from_vec(out))
}

/// The block of a definition with these shared terms.
fn definition_with(texts: &Texts, name: &[u8], ty: Id, body: Id) -> Result<Items<u8>, Stop>
    requires shared { AreLive texts.now.pool.now texts.now.shared.now }
    requires ty { IsTrue ((pool_held texts.now.pool.now).live ty) }
    requires body { IsTrue ((pool_held texts.now.pool.now).live body) }
    ensures { Gives (λ text. text) result (Ok (block_with texts.now.sig.now (shared_of texts.now) (RawDefinition name.now ((pool_held texts.now.pool.now).tree ty) ((pool_held texts.now.pool.now).tree body)))) }
{
    let mut out = Vec::new(texts.alloc);
    write_shares(&mut out, texts)?;
    write_definition(&mut out, texts, name, ty, body)?;
    write(&mut out, b"\n")?;
    Ok(Items::from_vec(out))
}

/// The terms that are met in the line of a family.
fn met_in_family(alloc: Global, pool: &Pool, ids: &FamilyIds) -> Result<Met, Stop>
    requires params { AreLive pool.now ids.now.params.items }
    requires ty { IsTrue ((pool_held pool.now).live ids.now.ty) }
    requires cons { AreLive pool.now ids.now.cons.items }
    ensures met { IfOk result (AreMet pool.now) }
    ensures walked { IfOk result (λ met. walked_of pool.now met ≡ meet_all (trees pool.now ids.now.params.items ++ (pool_held pool.now).tree ids.now.ty ∷ trees pool.now ids.now.cons.items) (record { found = []; again = [] })) }
    ensures memory { OnErr result (result ≡ Err Memory) }
{
    let mut met = nothing_met(alloc);
    meet_all(pool, &mut met, ids.params.as_slice())?;
    meet_all(pool, &mut met, &[ids.ty])?;
    meet_all(pool, &mut met, ids.cons.as_slice())?;
    Ok(met)
}

/// The terms that are met in the line of a definition.
fn met_in_definition(alloc: Global, pool: &Pool, ty: Id, body: Id) -> Result<Met, Stop>
    requires ty { IsTrue ((pool_held pool.now).live ty) }
    requires body { IsTrue ((pool_held pool.now).live body) }
    ensures met { IfOk result (AreMet pool.now) }
    ensures walked { IfOk result (λ met. walked_of pool.now met ≡ meet_all ((pool_held pool.now).tree ty ∷ (pool_held pool.now).tree body ∷ []) (record { found = []; again = [] })) }
    ensures memory { OnErr result (result ≡ Err Memory) }
{
    let mut met = nothing_met(alloc);
    meet_all(pool, &mut met, &[ty, body])?;
    Ok(met)
}

/// The shared terms of a family.
fn shared_in_family(
    alloc: Global,
    pool: &Pool,
    raw: &RawFamily,
    ids: &FamilyIds,
) -> Result<IdSet, Stop>
    requires { AreFamilyIds pool.now ids.now (raw_of raw.now) }
    ensures live { IfOk result (AreLive pool.now) }
    ensures terms { IfOk result (λ s. trees pool.now s ≡ shared_terms (written_terms (RawFamilyOf (raw_of raw.now)))) }
    ensures memory { OnErr result (result ≡ Err Memory) }
{
    let met = met_in_family(alloc, pool, ids)?;
    let shared = shared_ids(alloc, pool, &met)?;
    Ok(shared)
}

/// The shared terms of a definition.
fn shared_in_definition(alloc: Global, pool: &Pool, ty: Id, body: Id) -> Result<IdSet, Stop>
    requires ty { IsTrue ((pool_held pool.now).live ty) }
    requires body { IsTrue ((pool_held pool.now).live body) }
    ensures live { IfOk result (AreLive pool.now) }
    ensures terms { IfOk result (λ s. trees pool.now s ≡ shared_terms ((pool_held pool.now).tree ty ∷ (pool_held pool.now).tree body ∷ [])) }
    ensures memory { OnErr result (result ≡ Err Memory) }
{
    let met = met_in_definition(alloc, pool, ty, body)?;
    let shared = shared_ids(alloc, pool, &met)?;
    Ok(shared)
}

/// The block of a family whose terms have these ids.
fn family_in(
    alloc: Global,
    sig: &Signature,
    pool: &Pool,
    raw: &RawFamily,
    ids: &FamilyIds,
) -> Result<Items<u8>, Stop>
    requires { AreFamilyIds pool.now ids.now (raw_of raw.now) }
    ensures { Gives (λ text. text) result (Ok (block_text sig.now (RawFamilyOf (raw_of raw.now)))) }
{
    let shared = shared_in_family(alloc, pool, raw, ids)?;
    let texts = Texts {
        alloc,
        sig,
        pool,
        shared: &shared,
    };
    family_with(&texts, raw, ids)
}

/// The block of a definition whose terms have these ids.
fn definition_in(
    alloc: Global,
    sig: &Signature,
    pool: &Pool,
    name: &[u8],
    ty: Id,
    body: Id,
) -> Result<Items<u8>, Stop>
    requires ty { IsTrue ((pool_held pool.now).live ty) }
    requires body { IsTrue ((pool_held pool.now).live body) }
    ensures { Gives (λ text. text) result (Ok (block_text sig.now (RawDefinition name.now ((pool_held pool.now).tree ty) ((pool_held pool.now).tree body)))) }
{
    let shared = shared_in_definition(alloc, pool, ty, body)?;
    let texts = Texts {
        alloc,
        sig,
        pool,
        shared: &shared,
    };
    definition_with(&texts, name, ty, body)
}

/// The block of a family. Memory is also answered where a term is higher than 2,000, which callers rule out, or where the terms have more
/// than 50,000,000 different parts.
pub(crate) fn family_block(
    alloc: Global,
    sig: &Signature,
    raw: &RawFamily,
) -> Result<Items<u8>, Stop>
    ensures { Gives (λ text. text) result (Ok (block_text sig.now (RawFamilyOf (raw_of raw.now)))) }
{
    let mut pool = Pool::empty(alloc);
    let ids = family_ids(alloc, &mut pool, raw)?;
    family_in(alloc, sig, &pool, raw, &ids)
}

/// The block of a definition. Memory is also answered where a term is higher than 2,000, which callers rule out, or where the terms have
/// more than 50,000,000 different parts.
pub(crate) fn definition_block(
    alloc: Global,
    sig: &Signature,
    name: &[u8],
    ty: &Term,
    body: &Term,
) -> Result<Items<u8>, Stop>
    ensures { Gives (λ text. text) result (Ok (block_text sig.now (RawDefinition name.now (tree_of ty.now) (tree_of body.now)))) }
{
    let mut pool = Pool::empty(alloc);
    let ty = imported(&mut pool, ty)?;
    let body = imported(&mut pool, body)?;
    definition_in(alloc, sig, &pool, name, ty, body)
}
