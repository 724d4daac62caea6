ghost use Rattle.std.specs.Prelude.{◌≡◌, [], ℕ, Some, IsTrue, IsFalse, filter, nat_le};
ghost use Rattle.term_pool.specs.Memo.{row_at, is_key_below, is_answer_below, is_row_below, if_below};

use crate::ids::Id;
use crate::{Answer, Key, Row};
use indexmap::IndexMap;
use std::alloc::Global;
use std::marker::Model;

/// Rows of calls, each for the length of the signature at which it was made.
#[derive(Drop)]
pub(crate) struct Memo {
    rows: IndexMap<(u32, Key<Id>), Row<Id>>,
}

impl Model for Memo {
    ghost use Rattle.term_pool.specs.Memo.{Rows};

    ghost Value = { Rows };

    ghost view = { λ m. m.rows.entries };
}

impl Memo {
    /// No rows; takes no memory.
    pub(crate) fn new(alloc: Global) -> Memo
        ensures { result ≡ [] }
    {
        Memo {
            rows: IndexMap::new(alloc),
        }
    }

    /// The row for the length and the key.
    pub(crate) fn get(&self, len: u32, key: &Key<Id>) -> Option<Row<Id>>
        ensures { result ≡ row_at self.now len key.now }
    {
        let at = (len, *key);
        self.rows.get(&at).copied()
    }

    /// Keeps the row, and says whether there was memory for it.
    pub(crate) fn put(&mut self, len: u32, key: Key<Id>, row: Row<Id>) -> bool
        ensures kept { IsTrue result → row_at self.new len key ≡ Some row }
        ensures lost { IsFalse result → self.new ≡ self.old }
        ensures others { (n : ℕ) (k : _) → ((n ≡ len) × (k ≡ key) → ⊥) → row_at self.new n k ≡ row_at self.old n k }
    {
        self.rows.insert((len, key), row).is_ok()
    }

    /// Drops the rows of greater lengths.
    pub(crate) fn cut(&mut self, len: u32)
        ensures { self.new ≡ filter (λ e. nat_le e.0.0 len) self.old }
    {
        self.rows.retain(
            |at: &(u32, Key<Id>), row: &mut Row<Id>| -> bool
                ensures { (result ≡ nat_le at.now.0 len) × (row.new ≡ row.old) }
            { at.0 <= len },
        );
    }

    /// Drops the rows that name an id whose place is not below the count.
    pub(crate) fn keep_below(&mut self, count: u32)
        ensures rows { self.new ≡ filter (is_row_below count) self.old }
        ensures at { (n : ℕ) (key : _) → row_at self.new n key ≡ if_below count n key (row_at self.old n key) }
    {
        let _unique = self.rows.len();
        self.rows.retain(
            |at: &(u32, Key<Id>), row: &mut Row<Id>| -> bool
                ensures { (result ≡ is_row_below count (at.now, row.old)) × (row.new ≡ row.old) }
            { key_below(count, &at.1) && answer_below(count, &row.answer) },
        );
    }
}

fn key_below(count: u32, key: &Key<Id>) -> bool
    ensures { result ≡ is_key_below count key.now }
{
    match key {
        Key::Whnf(t, _) => t.at < count,
        Key::Convertible(a, b) | Key::Subtype(a, b) => a.at < count && b.at < count,
    }
}

fn answer_below(count: u32, answer: &Answer<Id>) -> bool
    ensures { result ≡ is_answer_below count answer.now }
{
    match answer {
        Answer::Term(t) => t.at < count,
        Answer::Truth(_) => true,
    }
}
