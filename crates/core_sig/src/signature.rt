ghost use Rattle.std.specs.Prelude.{◌≡◌, ◌≢◌, ◌≤◌, None, [], length, take, map, position, slice_get, option_map, All, AllPairs, IfOk, OnOk, OnErr, IfSome};
ghost use Rattle.std.specs.List.{list_any};
ghost use Rattle.std.specs.Option.{is_some, option_copied};
ghost use Rattle.theory.specs.Signatures.{names_of};
ghost use Rattle.theory.specs.WellFormed.{pushed, first_entries};
ghost use Rattle.core_terms.specs.declared.stop.Stop.TheVariants.{Memory, PoolFull};
ghost use Rattle.core_sig.specs.EntryIds.{CanStand, Stands};
ghost use Rattle.core_sig.specs.Instances.{is_axiom_k, is_eliminator};
ghost use Rattle.core_sig.specs.Kinds.{HasEntryKinds};
ghost use Rattle.core_sig.specs.Meanings.{entry_of};
ghost use Rattle.core_sig.specs.Names.{find, named};
ghost use Rattle.term_pool.specs.Pools.{pool_held};

use crate::instance_place::{Instance, place_of};
use crate::name_index::NameIndex;
use crate::naming::name_count;
use crate::storing::{Terms, store_entry};
use crate::{Entry, Found, Stored};
use core_terms::{Stop, number_of};
use std::alloc::Global;
use std::marker::Model;

/// The entries that terms name by their numbers, and whether axiom K is on. Contracts see the two alone.
#[derive(Drop)]
pub struct Signature {
    entries: Vec<Entry>,
    k: bool,
    names: NameIndex,
    terms: Terms,
    alloc: Global,
}

impl Model for Signature {
    ghost use Rattle.std.specs.Prelude.{map};
    ghost use Rattle.theory.specs.Signatures.{Signature};
    ghost use Rattle.core_sig.specs.Codes.{signature_code};

    ghost Value = { Signature };

    ghost coded = { signature_code };

    ghost use Rattle.core_sig.specs.Meanings.{entry_of};
    ghost use Rattle.core_sig.specs.Invariants.{IsKept};

    ghost view = { λ s. record { entries = map entry_of s.entries.items; has_k = s.k } };

    ghost invariant = { IsKept };
}

impl Signature {
    /// No entries; takes no memory.
    pub(crate) fn new(alloc: Global, k: bool) -> Signature
        ensures entries { result.entries ≡ [] }
        ensures k { result.has_k ≡ k }
    {
        Signature {
            entries: Vec::new(alloc),
            k,
            names: NameIndex::new(alloc),
            terms: Terms::new(alloc),
            alloc,
        }
    }

    /// The number of entries.
    pub fn len(&self) -> u32
        ensures { result ≡ length self.now.entries }
    {
        self.entries.len() as u32
    }

    /// Whether axiom K is on.
    pub fn k(&self) -> bool
        ensures { result ≡ self.now.has_k }
    {
        self.k
    }

    /// The entry with the number.
    pub fn entry(&self, at: u32) -> Option<&Entry>
        ensures entry { option_map entry_of (option_copied result) ≡ slice_get self.now.entries at }
        ensures kinds { IfSome result (λ e. HasEntryKinds at e.now) }
    {
        self.entries.as_slice().get(at as usize)
    }

    /// How many different parts of the terms of entries there may be. Takes no memory.
    pub fn cap(&self) -> u32 {
        self.terms.pool.cap()
    }

    /// Leaves room for so many different parts of the terms of entries. PoolFull exactly where those that are there have more. Takes no
    /// memory.
    pub fn limit(&mut self, cap: u32) -> Result<(), Stop>
        requires { cap ≤ 50000000 }
        ensures signature { self.new ≡ self.old }
        ensures full { OnErr result (result ≡ Err PoolFull) }
    {
        self.terms.pool.limit(cap)
    }

    /// Forgets whether there was room.
    pub fn forget_lack(&mut self)
        ensures { self.new ≡ self.old }
    {
        self.terms.pool.forget_lack();
    }

    /// Whether there was no room for the terms of an entry, since this was last forgotten. Takes no memory.
    pub fn lacked(&self) -> bool {
        self.terms.pool.lacked()
    }

    /// The terms of the entries in a pool. Takes no memory.
    pub fn stored(&self) -> Stored<'_>
        ensures { Stands (pool_held result.pool.now) self.now.entries result.ids.now }
    {
        Stored {
            pool: &self.terms.pool,
            ids: &self.terms.ids,
        }
    }

    /// The entry or the constructor with the name.
    pub fn find(&self, name: &[u8]) -> Option<Found>
        ensures { result ≡ find self.now name.now }
    {
        self.names.get(name)
    }

    /// The number of the eliminator of family `fam` into `Type m`, where it is an entry. Takes no memory.
    #[tactic(auto, using(crate::proofs::Instances::place_laws))]
    pub fn eliminator(&self, fam: u32, m: u8) -> Option<u32>
        ensures place { result ≡ position (is_eliminator fam m) self.now.entries }
        ensures there { is_some result ≡ list_any (is_eliminator fam m) self.now.entries }
    {
        place_of(self.entries.as_slice(), Instance::Eliminator(fam, m))
    }

    /// The number of the axiom K of `Eq.i` into `Type m`, where it is an entry. Takes no memory.
    #[tactic(auto, using(crate::proofs::Instances::place_laws))]
    pub fn axiom_k(&self, i: u8, m: u8) -> Option<u32>
        ensures place { result ≡ position (is_axiom_k i m) self.now.entries }
        ensures there { is_some result ≡ list_any (is_axiom_k i m) self.now.entries }
    {
        place_of(self.entries.as_slice(), Instance::AxiomK(i, m))
    }

    /// Adds the entry at the end and answers its number. Memory is also answered where a number would not fit, and where the pool has
    /// no room for its terms.
    pub fn push(&mut self, entry: Entry) -> Result<u32, Stop>
        requires unknown { All (λ name. find self.old name ≡ None) (names_of (entry_of entry)) }
        requires distinct { AllPairs (λ x y. x ≢ y) (names_of (entry_of entry)) }
        requires kinds { HasEntryKinds (length self.old.entries) entry }
        requires can { CanStand self.old.entries (entry_of entry) }
        ensures number { IfOk result (λ n. n ≡ length self.old.entries) }
        ensures ok { OnOk result (self.new ≡ pushed self.old (entry_of entry)) }
        ensures err { OnErr result (self.new ≡ self.old) }
        ensures memory { OnErr result (result ≡ Err Memory) }
    {
        let number = number_of(self.entries.len() + 1)? - 1;
        self.entries.reserve(1)?;
        store_entry(
            self.alloc,
            &mut self.names,
            &mut self.terms,
            self.entries.as_slice(),
            number,
            &entry,
        )?;
        self.entries.push(entry).unwrap();
        Ok(number)
    }

    /// Keeps the first `len` entries. Takes no memory.
    pub fn truncate(&mut self, len: u32)
        ensures { self.new ≡ first_entries self.old len }
    {
        let len = len as usize;
        if len < self.entries.len() {
            let names = names_before(self.entries.as_slice(), self.names.len(), len);
            self.names.truncate(names);
            self.entries.truncate(len);
            self.terms.keep_first(len);
        }
    }
}

/// How many names the first `len` entries bring, where all of them bring `all`.
fn names_before(entries: &[Entry], all: usize, len: usize) -> usize
    requires len { len ≤ length entries.now }
    requires all { all ≡ length (named 0 (map entry_of entries.now)) }
    ensures { result ≡ length (named 0 (map entry_of (take len entries.now))) }
{
    let mut names = all;
    let mut at = entries.len();
    while len < at {
        at -= 1;
        names -= name_count(&entries[at]);
    }
    names
}
