ghost use Rattle.std.specs.Prelude.{◌≡◌, None, [], ◌∷◌, ◌++◌, length, take, bytes_eq, OnOk, OnErr};
ghost use Rattle.std.specs.Map.{lookup};
ghost use Rattle.core_terms.specs.declared.stop.Stop.TheVariants.{Memory};

use crate::Found;
use core_terms::Stop;
use indexmap::IndexMap;
use std::alloc::Global;
use std::marker::Model;

/// Names with their meanings, in the order in which they came. Look-up goes by hashes.
#[derive(Drop)]
pub(crate) struct NameIndex {
    found: IndexMap<Vec<u8>, Found>,
    alloc: Global,
}

impl Model for NameIndex {
    ghost use Rattle.std.specs.Prelude.{List, ℕ, map};
    ghost use Rattle.std.specs.Coded.{coded_list, coded×, coded_ℕ};
    ghost use Rattle.core_sig.specs.declared.entry.Found.{Found};

    ghost Value = { List (List ℕ × Found) };

    ghost view = { λ n. map (λ p. (p.0.items, p.1)) n.found.entries };
}

impl NameIndex {
    pub(crate) fn new(alloc: Global) -> NameIndex
        ensures { result ≡ [] }
    {
        NameIndex {
            found: IndexMap::new(alloc),
            alloc,
        }
    }

    pub(crate) fn len(&self) -> usize
        ensures { result ≡ length self.now }
    {
        self.found.len()
    }

    /// The entry or the constructor with the name.
    pub(crate) fn get(&self, name: &[u8]) -> Option<Found>
        ensures { result ≡ lookup (bytes_eq name.now) self.now }
    {
        self.found.get(name).copied()
    }

    /// Adds a name at the end.
    pub(crate) fn insert(&mut self, name: &[u8], found: Found) -> Result<(), Stop>
        requires { lookup (bytes_eq name.now) self.old ≡ None }
        ensures ok { OnOk result (self.new ≡ self.old ++ (name.now, found) ∷ []) }
        ensures err { OnErr result (self.new ≡ self.old) }
        ensures memory { OnErr result (result ≡ Err Memory) }
    {
        let name = Vec::from_slice(self.alloc, name)?;
        self.found.insert(name, found)?;
        Ok(())
    }

    /// Keeps the first `len` names.
    pub(crate) fn truncate(&mut self, len: usize)
        ensures { self.new ≡ take len self.old }
    {
        self.found.truncate(len);
    }
}
