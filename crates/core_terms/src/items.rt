ghost use Rattle.std.specs.Prelude.{◌≡◌, [], ◌∷◌, ◌++◌, length, OnOk, OnErr};
ghost use Rattle.core_terms.specs.declared.stop.Stop.TheVariants.{Memory};

use crate::Stop;
use std::alloc::Global;
use std::marker::Model;

/// A `Vec` that contracts see as the list of its elements.
#[derive(Debug, Drop)]
pub struct Items<T> {
    list: Vec<T>,
}

impl<T> Model for Items<T> {
    ghost use Rattle.std.specs.Prelude.{List};
    ghost use Rattle.std.specs.Coded.{coded_list};

    ghost Value = { List T };

    ghost coded = { coded_list T.code };

    ghost view = { λ a. a.list.items };
}

impl<T> Items<T> {
    /// No items; takes no memory.
    pub fn new(alloc: Global) -> Items<T>
        ensures { result ≡ [] }
    {
        Items {
            list: Vec::new(alloc),
        }
    }

    pub fn from_vec(v: Vec<T>) -> Items<T>
        ensures { result ≡ v.items }
    {
        Items { list: v }
    }

    pub fn into_vec(self) -> Vec<T>
        ensures { result.items ≡ self }
    {
        let Items { list } = self;
        list
    }

    pub fn as_slice(&self) -> &[T]
        ensures { result.now ≡ self.now }
    {
        self.list.as_slice()
    }
}

impl<T: Drop> Items<T> {
    /// Adds `x` at the end. If memory runs out, the list is as it was, and `x` is dropped.
    pub fn push(&mut self, x: T) -> Result<(), Stop>
        ensures ok { OnOk result (self.new ≡ self.old ++ x ∷ []) }
        ensures err { OnErr result (self.new ≡ self.old) }
        ensures memory { OnErr result (result ≡ Err Memory) }
    {
        self.list.push(x)?;
        Ok(())
    }
}
