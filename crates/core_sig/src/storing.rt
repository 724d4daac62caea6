ghost use Rattle.std.specs.Prelude.{◌≡◌, ◌<◌, ◌++◌, ◌∷◌, [], ℕ, Some, Err, IfOk, OnOk, OnErr, length, map, slice_get, take};
ghost use Rattle.theory.specs.Signatures.{names_of};
ghost use Rattle.core_terms.specs.declared.stop.Stop.TheVariants.{Memory};
ghost use Rattle.term_pool.specs.Held.{Extends};
ghost use Rattle.term_pool.specs.Pools.{pool_held};
ghost use Rattle.core_sig.specs.EntryIds.{CanStand, StandsAt};
ghost use Rattle.core_sig.specs.Kinds.{HasEntryKinds};
ghost use Rattle.core_sig.specs.Meanings.{entry_of};
ghost use Rattle.core_sig.specs.Names.{AreNew, named_by};
ghost use Rattle.core_sig.specs.StoredEntries.{HasTerms};

use crate::importing::entry_id;
use crate::name_index::NameIndex;
use crate::naming::add_names;
use crate::{Entry, EntryId, EntryIds};
use core_terms::Stop;
use std::alloc::Global;
use term_pool::{Id, Mark, Pool};

/// The terms of entries: a pool that holds them, their ids in it, and for each entry where the pool stood before it.
#[derive(Drop)]
pub(crate) struct Terms {
    pub(crate) pool: Pool,
    pub(crate) ids: EntryIds<Id>,
    pub(crate) marks: Vec<Mark>,
}

impl Terms {
    /// Those of no entries; takes no memory.
    pub(crate) fn new(alloc: Global) -> Terms
        ensures { HasTerms result [] }
    {
        Terms {
            pool: Pool::empty(alloc),
            ids: EntryIds {
                entries: Vec::new(alloc),
            },
            marks: Vec::new(alloc),
        }
    }

    /// Adds the terms of an entry that is to come after the entries.
    pub(crate) fn add(
        &mut self,
        alloc: Global,
        entries: &[Entry],
        number: u32,
        entry: &Entry,
    ) -> Result<(), Stop>
        requires stored { HasTerms self.old (map entry_of entries.now) }
        requires number { number ≡ length entries.now }
        requires kinds { (n : ℕ) (e : _) → slice_get entries.now n ≡ Some e → HasEntryKinds n e }
        requires own { HasEntryKinds number entry.now }
        requires can { CanStand (map entry_of entries.now) (entry_of entry.now) }
        ensures ok { OnOk result (HasTerms self.new (map entry_of entries.now ++ entry_of entry.now ∷ [])) }
        ensures err { OnErr result (HasTerms self.new (map entry_of entries.now)) }
        ensures memory { OnErr result (result ≡ Err Memory) }
    {
        self.ids.entries.reserve(1)?;
        self.marks.reserve(1)?;
        let mark = self.pool.mark();
        let id = pooled_id(alloc, &mut self.pool, entries, number, entry)?;
        self.ids.entries.push(id).unwrap();
        self.marks.push(mark).unwrap();
        Ok(())
    }

    /// Keeps those of the first `len` entries. Takes no memory.
    pub(crate) fn keep_first(&mut self, len: usize)
        requires { len < length self.old.marks.items }
        ensures { (entries : _) → HasTerms self.old entries → HasTerms self.new (take len entries) }
    {
        self.pool.release(mark_at(self.marks.as_slice(), len));
        self.ids.entries.truncate(len);
        self.marks.truncate(len);
    }
}

/// The mark at the place.
fn mark_at(marks: &[Mark], at: usize) -> Mark
    requires { at < length marks.now }
    ensures { slice_get marks.now at ≡ Some result }
{
    marks[at]
}

/// The ids of the terms of an entry that is to come after the entries. After a refusal the pool has the nodes that it had.
fn pooled_id(
    alloc: Global,
    pool: &mut Pool,
    entries: &[Entry],
    number: u32,
    entry: &Entry,
) -> Result<EntryId<Id>, Stop>
    requires number { number ≡ length entries.now }
    requires kinds { (n : ℕ) (e : _) → slice_get entries.now n ≡ Some e → HasEntryKinds n e }
    requires own { HasEntryKinds number entry.now }
    requires can { CanStand (map entry_of entries.now) (entry_of entry.now) }
    ensures id { IfOk result (StandsAt (pool_held pool.new) (map entry_of entries.now) number (entry_of entry.now)) }
    ensures extends { OnOk result (Extends (pool_held pool.old) (pool_held pool.new)) }
    ensures behind { OnOk result (take (length pool.old.nodes) pool.new.nodes ≡ pool.old.nodes) }
    ensures kept { OnErr result (pool.new.nodes ≡ pool.old.nodes) }
    ensures memory { OnErr result (result ≡ Err Memory) }
{
    let before = pool.mark();
    match entry_id(alloc, pool, entries, number, entry) {
        Ok(id) => {
            let _whole = pool.mark();
            Ok(id)
        }
        Err(e) => {
            pool.release(before);
            Err(e)
        }
    }
}

/// Adds the names of an entry that is to come after the entries, and its terms, or neither.
pub(crate) fn store_entry(
    alloc: Global,
    names: &mut NameIndex,
    terms: &mut Terms,
    entries: &[Entry],
    number: u32,
    entry: &Entry,
) -> Result<(), Stop>
    requires new { AreNew names.old (names_of (entry_of entry.now)) }
    requires stored { HasTerms terms.old (map entry_of entries.now) }
    requires number { number ≡ length entries.now }
    requires kinds { (n : ℕ) (e : _) → slice_get entries.now n ≡ Some e → HasEntryKinds n e }
    requires own { HasEntryKinds number entry.now }
    requires can { CanStand (map entry_of entries.now) (entry_of entry.now) }
    ensures names { OnOk result (names.new ≡ names.old ++ named_by number (entry_of entry.now)) }
    ensures terms { OnOk result (HasTerms terms.new (map entry_of entries.now ++ entry_of entry.now ∷ [])) }
    ensures unnamed { OnErr result (names.new ≡ names.old) }
    ensures kept { OnErr result (HasTerms terms.new (map entry_of entries.now)) }
    ensures memory { OnErr result (result ≡ Err Memory) }
{
    let known = names.len();
    add_names(names, number, entry)?;
    match terms.add(alloc, entries, number, entry) {
        Ok(()) => Ok(()),
        Err(e) => {
            names.truncate(known);
            Err(e)
        }
    }
}
