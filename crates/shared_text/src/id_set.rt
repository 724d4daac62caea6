ghost use Rattle.std.specs.Prelude.{◌≡◌, [], ◌∷◌, ◌++◌, cond, position, OnOk, OnErr, Err};
ghost use Rattle.std.specs.List.{list_any};
ghost use Rattle.core_terms.specs.declared.stop.Stop.TheVariants.{Memory};
ghost use Rattle.shared_text.specs.CodeMeanings.{is_id};

use core_terms::Stop;
use indexmap::IndexSet;
use std::alloc::Global;
use std::marker::Model;
use term_pool::Id;

/// Different ids in the order in which they came. They are found by hashes.
#[derive(Drop)]
pub(crate) struct IdSet {
    ids: IndexSet<Id>,
}

impl Model for IdSet {
    ghost use Rattle.std.specs.Prelude.{List};
    ghost use Rattle.term_pool.specs.declared.ids.Id.{Id};

    ghost Value = { List Id };

    ghost view = { λ s. s.ids.keys };
}

impl IdSet {
    /// No ids; takes no memory.
    pub(crate) fn new(alloc: Global) -> IdSet
        ensures { result ≡ [] }
    {
        IdSet {
            ids: IndexSet::new(alloc),
        }
    }

    pub(crate) fn has(&self, id: Id) -> bool
        ensures { result ≡ list_any (is_id id) self.now }
    {
        self.ids.contains(&id)
    }

    /// How many ids are before it.
    pub(crate) fn place(&self, id: Id) -> Option<usize>
        ensures { result ≡ position (is_id id) self.now }
    {
        self.ids.get_index_of(&id)
    }

    /// Adds the id at the end where it is not there.
    pub(crate) fn add(&mut self, id: Id) -> Result<(), Stop>
        ensures ok { OnOk result (self.new ≡ cond (list_any (is_id id) self.old) self.old (self.old ++ id ∷ [])) }
        ensures memory { OnErr result (result ≡ Err Memory) }
    {
        self.ids.insert(id)?;
        Ok(())
    }

    pub(crate) fn as_slice(&self) -> &[Id]
        ensures { result.now ≡ self.now }
    {
        self.ids.as_slice()
    }
}
