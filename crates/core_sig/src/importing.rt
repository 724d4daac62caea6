ghost use Rattle.std.specs.Prelude.{◌≡◌, ◌≤◌, [], List, IfOk, IfSome, OnErr, Err, None, Some, ℕ, length, map, slice_get, option_map};
ghost use Rattle.std.specs.Option.{option_copied};
ghost use Rattle.theory.specs.Signatures as signature;
ghost use Rattle.theory.specs.Terms as tree;
ghost use Rattle.core_terms.specs.Answers.{Gives, bounded};
ghost use Rattle.core_terms.specs.Meanings.{tree_of};
ghost use Rattle.core_terms.specs.declared.stop.Stop.TheVariants.{Deep, Memory};
ghost use Rattle.term_pool.specs.Held.{Extends};
ghost use Rattle.core_sig.specs.EntryIds.{AreConstructorIds, AreLowBehind, CanStand, HasClosedFamily, IsConstructorId, IsEliminatorType, IsIdOf, IsIdWhereLow, StandsAt, type_behind};
ghost use Rattle.core_sig.specs.Kinds.{HasEntryKinds, HasKinds, HaveKinds};
ghost use Rattle.core_sig.specs.Meanings.{constructor_of, entry_of, family_of};
ghost use Rattle.core_sig.specs.Refusals.{memory_for};

use crate::types::{type_behind, type_of};
use crate::{
    Constructor, ConstructorId, Entry, EntryId, Family, axiom_k_type, elim_type, family_type,
};
use core_terms::{MAX_HEIGHT, Stop, Term};
use std::alloc::Global;
use term_pool::{TermStore, import_in};

/// Want of room in a store is want of memory.
fn without_room(e: Stop) -> Stop
    ensures { result ≡ memory_for e }
{
    match e {
        Stop::Memory | Stop::PoolFull => Stop::Memory,
        Stop::Fuel => Stop::Fuel,
        Stop::Deep => Stop::Deep,
    }
}

/// An id for the tree of a term that is at most 2,000 high. Want of room is answered as Memory.
fn import_low<S: TermStore>(store: &mut S, t: &Term) -> Result<S::Id, Stop>
    requires { tree.height (tree_of t.now) ≤ 2000 }
    ensures id { IfOk result (λ id. IsIdOf (S.held store.new) id (tree_of t.now)) }
    ensures extends { Extends (S.held store.old) (S.held store.new) }
    ensures memory { OnErr result (result ≡ Err Memory) }
{
    match import_in(store, t) {
        Ok(id) => Ok(id),
        Err(e) => Err(without_room(e)),
    }
}

/// An id for the tree of a term, or none where it is higher than 2,000. Want of room is answered as Memory.
pub fn import_where_low<S: TermStore>(store: &mut S, t: &Term) -> Result<Option<S::Id>, Stop>
    ensures id { IfOk result (λ id. IsIdWhereLow (S.held store.new) id (tree_of t.now)) }
    ensures extends { Extends (S.held store.old) (S.held store.new) }
    ensures memory { OnErr result (result ≡ Err Memory) }
{
    if t.height() > MAX_HEIGHT {
        return Ok(None);
    }
    let id = import_low(store, t)?;
    Ok(Some(id))
}

/// No id where Deep was answered; any other refusal is want of memory.
fn no_id<I>(e: Stop) -> Result<Option<I>, Stop>
    ensures none { IfOk result (λ id. (id ≡ None) × (e ≡ Deep)) }
    ensures memory { OnErr result (result ≡ Err Memory) }
{
    match e {
        Stop::Deep => Ok(None),
        Stop::Memory | Stop::Fuel | Stop::PoolFull => Err(Stop::Memory),
    }
}

/// An id for a type that was made, or none where Deep was answered.
fn import_made<S: TermStore>(store: &mut S, made: Result<Term, Stop>) -> Result<Option<S::Id>, Stop>
    ensures id { (t : tree.Term) → Gives tree_of made (bounded t) → IfOk result (λ id. IsIdWhereLow (S.held store.new) id t) }
    ensures extends { Extends (S.held store.old) (S.held store.new) }
    ensures memory { OnErr result (result ≡ Err Memory) }
{
    match made {
        Ok(t) => import_where_low(store, &t),
        Err(e) => no_id(e),
    }
}

/// An id for a type that was made, which is at most 2,000 high.
fn import_made_low<S: TermStore>(store: &mut S, made: Result<Term, Stop>) -> Result<S::Id, Stop>
    requires { (t : tree.Term) × Gives tree_of made (bounded t) × (tree.height t ≤ 2000) }
    ensures id { (t : tree.Term) → Gives tree_of made (bounded t) → IfOk result (λ id. IsIdOf (S.held store.new) id t) }
    ensures extends { Extends (S.held store.old) (S.held store.new) }
    ensures memory { OnErr result (result ≡ Err Memory) }
{
    match made {
        Ok(t) => import_low(store, &t),
        Err(e) => Err(e),
    }
}

/// The ids of the type of a constructor of family number `n`.
fn constructor_id<S: TermStore>(
    alloc: Global,
    store: &mut S,
    n: u32,
    f: &Family,
    con: &Constructor,
) -> Result<ConstructorId<S::Id>, Stop>
    requires kinds { HaveKinds n (family_of f.now) 0 con.now.args }
    requires low { tree.height (type_behind n (family_of f.now) (constructor_of (length f.now.params) con.now)) ≤ 2000 }
    ensures id { IfOk result (IsConstructorId (S.held store.new) n (family_of f.now) (constructor_of (length f.now.params) con.now)) }
    ensures extends { Extends (S.held store.old) (S.held store.new) }
    ensures memory { OnErr result (result ≡ Err Memory) }
{
    let behind = import_made_low(store, type_behind(alloc, n, f, con))?;
    let ty = import_made(store, type_of(alloc, n, f, con))?;
    Ok(ConstructorId { behind, ty })
}

/// The ids of the types of the constructors of family number `n`.
fn constructor_ids<S: TermStore>(
    alloc: Global,
    store: &mut S,
    n: u32,
    f: &Family,
) -> Result<Vec<ConstructorId<S::Id>>, Stop>
    requires kinds { HasKinds n f.now }
    requires low { AreLowBehind n (family_of f.now) }
    ensures ids { IfOk result (λ ids. AreConstructorIds (S.held store.new) n (signature.FamilyOf (family_of f.now)) ids.items) }
    ensures extends { Extends (S.held store.old) (S.held store.new) }
    ensures memory { OnErr result (result ≡ Err Memory) }
{
    let mut ids = Vec::new(alloc);
    for con in f.cons.as_slice() {
        let id = constructor_id(alloc, store, n, f, con)?;
        ids.push(id)?;
    }
    Ok(ids)
}

/// The ids of the terms of a family that is to be entry number `n`.
fn family_id<S: TermStore>(
    alloc: Global,
    store: &mut S,
    n: u32,
    f: &Family,
) -> Result<EntryId<S::Id>, Stop>
    requires kinds { HasKinds n f.now }
    requires low { AreLowBehind n (family_of f.now) }
    ensures id { (entries : List signature.Entry) → IfOk result (StandsAt (S.held store.new) entries n (signature.FamilyOf (family_of f.now))) }
    ensures extends { Extends (S.held store.old) (S.held store.new) }
    ensures memory { OnErr result (result ≡ Err Memory) }
{
    let ty = import_made(store, family_type(alloc, f))?;
    let cons = constructor_ids(alloc, store, n, f)?;
    Ok(EntryId {
        ty,
        body: None,
        cons,
    })
}

/// The ids of an entry that has a type alone.
fn with_type<I>(alloc: Global, ty: Option<I>) -> EntryId<I>
    ensures ty { result.ty ≡ ty }
    ensures body { result.body ≡ None }
    ensures cons { result.cons.items ≡ [] }
{
    EntryId {
        ty,
        body: None,
        cons: Vec::new(alloc),
    }
}

/// The entry with the number.
fn entry_at(entries: &[Entry], n: u32) -> Option<&Entry>
    requires { (n : ℕ) (e : _) → slice_get entries.now n ≡ Some e → HasEntryKinds n e }
    ensures entry { option_map entry_of (option_copied result) ≡ slice_get (map entry_of entries.now) n }
    ensures kinds { IfSome result (λ e. HasEntryKinds n e.now) }
{
    entries.get(n as usize)
}

/// The ids of the eliminator into `Type m` of the family with number `g`.
fn eliminator_id<S: TermStore>(
    alloc: Global,
    store: &mut S,
    entries: &[Entry],
    n: u32,
    g: u32,
    m: u8,
) -> Result<EntryId<S::Id>, Stop>
    requires kinds { (n : ℕ) (e : _) → slice_get entries.now n ≡ Some e → HasEntryKinds n e }
    requires family { HasClosedFamily (map entry_of entries.now) g }
    ensures id { IfOk result (StandsAt (S.held store.new) (map entry_of entries.now) n (signature.EliminatorAt g m)) }
    ensures extends { Extends (S.held store.old) (S.held store.new) }
    ensures memory { OnErr result (result ≡ Err Memory) }
{
    match entry_at(entries, g) {
        Some(Entry::Family(f)) => {
            let ty = import_made(store, elim_type(alloc, g, f, m))?;
            Ok(with_type(alloc, ty))
        }
        _ => unreachable!(),
    }
}

/// The ids of the axiom K of `Eq.i` into `Type m`.
fn axiom_k_id<S: TermStore>(
    alloc: Global,
    store: &mut S,
    n: u32,
    i: u8,
    m: u8,
) -> Result<EntryId<S::Id>, Stop>
    ensures id { (entries : List signature.Entry) → IfOk result (StandsAt (S.held store.new) entries n (signature.AxiomKAt i m)) }
    ensures extends { Extends (S.held store.old) (S.held store.new) }
    ensures memory { OnErr result (result ≡ Err Memory) }
{
    let ty = import_made(store, axiom_k_type(alloc, i, m))?;
    Ok(with_type(alloc, ty))
}

/// The ids of the terms of a definition.
fn definition_id<S: TermStore>(
    alloc: Global,
    store: &mut S,
    n: u32,
    ty: &Term,
    body: &Term,
) -> Result<EntryId<S::Id>, Stop>
    requires { tree.height (tree_of body.now) ≤ 2000 }
    ensures id { (entries : List signature.Entry) (name : List ℕ) → IfOk result (StandsAt (S.held store.new) entries n (signature.Definition name (tree_of ty.now) (tree_of body.now))) }
    ensures extends { Extends (S.held store.old) (S.held store.new) }
    ensures memory { OnErr result (result ≡ Err Memory) }
{
    let ty = import_where_low(store, ty)?;
    let body = import_low(store, body)?;
    Ok(EntryId {
        ty,
        body: Some(body),
        cons: Vec::new(alloc),
    })
}

/// The ids of the terms of an entry that is to come after the entries.
pub(crate) fn entry_id<S: TermStore>(
    alloc: Global,
    store: &mut S,
    entries: &[Entry],
    n: u32,
    entry: &Entry,
) -> Result<EntryId<S::Id>, Stop>
    requires number { n ≡ length entries.now }
    requires kinds { (n : ℕ) (e : _) → slice_get entries.now n ≡ Some e → HasEntryKinds n e }
    requires own { HasEntryKinds n entry.now }
    requires can { CanStand (map entry_of entries.now) (entry_of entry.now) }
    ensures id { IfOk result (StandsAt (S.held store.new) (map entry_of entries.now) n (entry_of entry.now)) }
    ensures extends { Extends (S.held store.old) (S.held store.new) }
    ensures memory { OnErr result (result ≡ Err Memory) }
{
    match entry {
        Entry::Family(f) => family_id(alloc, store, n, f),
        Entry::Elim(g, m) => eliminator_id(alloc, store, entries, n, *g, *m),
        Entry::AxiomK(i, m) => axiom_k_id(alloc, store, n, *i, *m),
        Entry::Def { ty, body, .. } => definition_id(alloc, store, n, ty, body),
    }
}
