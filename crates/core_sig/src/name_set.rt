ghost use Rattle.std.specs.Prelude.{◌≡◌, [], ◌∷◌, ◌++◌, not, bytes_eq, Ok, IfOk, IsTrue};
ghost use Rattle.std.specs.List.{list_any};
ghost use Rattle.core_terms.specs.Answers.{Gives};

use core_terms::{Name, Stop};
use indexmap::IndexSet;
use std::alloc::Global;
use std::marker::Model;

/// Distinct names in the order in which they came. They are found by hashes.
#[derive(Drop)]
pub struct NameSet {
    names: IndexSet<Vec<u8>>,
    alloc: Global,
}

impl Model for NameSet {
    ghost use Rattle.std.specs.Prelude.{List, ℕ, map};

    ghost Value = { List (List ℕ) };

    ghost view = { λ s. map (λ name. name.items) s.names.keys };
}

impl NameSet {
    pub fn new(alloc: Global) -> NameSet
        ensures { result ≡ [] }
    {
        NameSet {
            names: IndexSet::new(alloc),
            alloc,
        }
    }

    /// Adds the name after the others where it is new, and says whether it is.
    pub fn insert(&mut self, name: &Name) -> Result<bool, Stop>
        ensures added { Gives (λ added. added) result (Ok (not (list_any (bytes_eq name.now) self.old))) }
        ensures names { IfOk result (λ added. IsTrue added → self.new ≡ self.old ++ name.now ∷ []) }
    {
        let key = Vec::from_slice(self.alloc, name.as_slice())?;
        Ok(self.names.insert(key)?)
    }
}
