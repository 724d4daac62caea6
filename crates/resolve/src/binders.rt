ghost use Rattle.std.specs.Prelude.{◌≡◌, ℕ, List, [], ◌∷◌, ◌++◌, length, Some, bytes_eq, if◌then◌else◌, OnOk, OnErr};
ghost use Rattle.surface_syntax.specs.declared.tree.Word.{Word};
ghost use Rattle.resolve.specs.declared.stop.ResolveStop.TheVariants.{Memory};
ghost use Rattle.resolve.specs.Names.{has_name, name_of, variable_of};
ghost use Rattle.resolve.specs.Nearest.{last_of};

use crate::ResolveStop;
use core_terms::{Name, copy_name};
use indexmap::IndexMap;
use std::alloc::Global;
use std::marker::Model;
use surface_syntax::Word;

/// The names of the binders of a telescope, which contracts list from the nearest one on. The nearest binder of a name
/// is found by a hash.
#[derive(Drop)]
pub(crate) struct Binders {
    /// The names from the outermost on, where `None` stands for `_`.
    names: Vec<Option<Name>>,
    /// The place of the last binder of each name.
    last: IndexMap<Vec<u8>, usize>,
    alloc: Global,
}

impl Model for Binders {
    ghost use Rattle.std.specs.Prelude.{List, Option, ℕ, reverse};

    ghost Value = { List (Option (List ℕ)) };

    ghost use Rattle.resolve.specs.Nearest.{IsNearest};

    ghost view = { λ b. reverse b.names.items };

    ghost invariant = { IsNearest };
}

impl Binders {
    pub(crate) fn new(alloc: Global) -> Binders
        ensures { result ≡ [] }
    {
        Binders {
            names: Vec::new(alloc),
            last: IndexMap::new(alloc),
            alloc,
        }
    }

    /// The number of binders.
    pub(crate) fn len(&self) -> usize
        ensures { result ≡ length self.now }
    {
        self.names.len()
    }

    /// The number of the nearest binder that has the name.
    pub(crate) fn variable(&self, name: &[u8]) -> Option<usize>
        ensures { result ≡ variable_of name.now self.now }
    {
        match self.last.get(name).copied() {
            Some(at) => Some(self.names.len() - 1 - at),
            None => None,
        }
    }

    /// Adds a binder inside the others.
    pub(crate) fn push(&mut self, x: &Option<Word>) -> Result<(), ResolveStop>
        ensures ok { OnOk result (self.new ≡ name_of x.now ∷ self.old) }
        ensures memory { OnErr result (result ≡ Err Memory) }
    {
        add(self.alloc, &mut self.names, &mut self.last, x)
    }

    /// Adds a binder with a name inside the others.
    pub(crate) fn push_name(&mut self, name: &Name) -> Result<(), ResolveStop>
        ensures ok { OnOk result (self.new ≡ Some name.now ∷ self.old) }
        ensures err { OnErr result (self.new ≡ self.old) }
        ensures memory { OnErr result (result ≡ Err Memory) }
    {
        add_named(self.alloc, &mut self.names, &mut self.last, name)
    }
}

/// Adds a binder after the others. Where it has a name, it becomes the last binder of the name.
fn add(
    alloc: Global,
    names: &mut Vec<Option<Name>>,
    last: &mut IndexMap<Vec<u8>, usize>,
    x: &Option<Word>,
) -> Result<(), ResolveStop>
    ensures names { OnOk result (names.new.items ≡ names.old.items ++ name_of x.now ∷ []) }
    ensures last { OnOk result ((other : List ℕ) → last_of other last.new.entries ≡ if has_name other (name_of x.now) then Some (length names.old.items) else last_of other last.old.entries) }
    ensures names_kept { OnErr result (names.new.items ≡ names.old.items) }
    ensures last_kept { OnErr result (last.new.entries ≡ last.old.entries) }
    ensures memory { OnErr result (result ≡ Err Memory) }
{
    match x {
        None => {
            names.push(None)?;
            Ok(())
        }
        Some(word) => add_named(alloc, names, last, &word.text),
    }
}

/// Adds a name after the others, whose last binder it becomes.
fn add_named(
    alloc: Global,
    names: &mut Vec<Option<Name>>,
    last: &mut IndexMap<Vec<u8>, usize>,
    name: &Name,
) -> Result<(), ResolveStop>
    ensures names { OnOk result (names.new.items ≡ names.old.items ++ Some name.now ∷ []) }
    ensures last { OnOk result ((other : List ℕ) → last_of other last.new.entries ≡ if bytes_eq name.now other then Some (length names.old.items) else last_of other last.old.entries) }
    ensures names_kept { OnErr result (names.new.items ≡ names.old.items) }
    ensures last_kept { OnErr result (last.new.entries ≡ last.old.entries) }
    ensures memory { OnErr result (result ≡ Err Memory) }
{
    let place = names.len();
    names.reserve(1)?;
    let copied = copy_name(alloc, name)?;
    let key = Vec::from_slice(alloc, name.as_slice())?;
    last.insert(key, place)?;
    names.push(Some(copied)).unwrap();
    Ok(())
}
