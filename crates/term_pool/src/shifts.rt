//! The answers of one call: for an id and a depth, the id that stands for it there. So a part that is shared is answered once.
ghost use Rattle.std.specs.Prelude.{◌≡◌, IsTrue, IfSome, OnOk, OnErr, Err};
ghost use Rattle.core_terms.specs.declared.stop.Stop.TheVariants.{Memory};
ghost use Rattle.indexmap.specs.IndexMap.{values};
ghost use Rattle.term_pool.specs.Shifts.{AllLive, IsAnswered, IsWith};

use crate::TermStore;
use crate::hashing::{ByWord, word};
use core_terms::Stop;
use indexmap::IndexMap;

/// At the depth, `answer` stands for `from`.
#[derive(Clone, Copy)]
pub(crate) struct Shift<I> {
    pub from: I,
    pub depth: u64,
    pub answer: I,
}

/// The height up to which terms are worked anew each time, since this takes less than to find them in a table.
const TABLED: u32 = 3;

/// The answers of a call, by the place of the id and the depth.
pub(crate) type Shifts<I> = IndexMap<u64, Shift<I>, ByWord>;

/// Whether a tree is so low that it is worked anew each time. A variable is where what stands for it is not lifted.
pub(crate) fn is_quick(height: u32, lifts: bool) -> bool {
    if height == 1 {
        !lifts
    } else {
        height <= TABLED
    }
}

/// The answer for an equal tree at the depth, where the table has one.
pub(crate) fn known<S: TermStore>(
    store: &S,
    table: &Shifts<S::Id>,
    t: &S::Id,
    depth: u64,
) -> Option<S::Id>
    requires live { IsTrue ((S.held store.now).live t.now) }
    requires table { AllLive (S.held store.now) (values table.now) }
    ensures { IfSome result (IsAnswered (S.held store.now) (values table.now) t.now depth) }
{
    let key = word(depth, store.place(t) as u64);
    let row = table.get(&key)?;
    if row.depth == depth && store.same(&row.from, t) {
        Some(row.answer)
    } else {
        None
    }
}

/// Notes an answer in the table.
#[tactic(auto, using(crate::proofs::Tables::table_laws))]
pub(crate) fn keep<S: TermStore>(
    store: &S,
    table: &mut Shifts<S::Id>,
    row: Shift<S::Id>,
) -> Result<(), Stop>
    ensures ok { OnOk result (IsWith (values table.old) row (values table.new)) }
    ensures err { OnErr result (values table.new ≡ values table.old) }
    ensures memory { OnErr result (result ≡ Err Memory) }
{
    let key = word(row.depth, store.place(&row.from) as u64);
    table.insert(key, row)?;
    Ok(())
}
