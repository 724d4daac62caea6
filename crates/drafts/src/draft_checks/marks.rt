//! Names that hold a `!`, as those of generated entries do.
ghost use Rattle.std.specs.Prelude.{◌≡◌, ℕ, IsTrue, map, slice_get};
ghost use Rattle.core_sig.specs.Meanings.{constructor_of, entry_of};
ghost use Rattle.drafts.specs.draft_checks.Checks as spec;
ghost use Rattle.drafts.specs.draft_entering.FreeNames.{is_marked as marked};
ghost use Rattle.drafts.specs.entering_laws.Laws.{IsUnmarked};

use core_sig::{Constructor, Entry, Signature};

/// Whether the name holds a `!`.
fn is_marked(name: &[u8]) -> bool
    ensures { result ≡ marked name.now }
{
    match name {
        [] => false,
        [first, rest @ ..] => *first == b'!' || is_marked(rest),
    }
}

/// Whether the names of constructors hold no `!`.
fn are_unmarked(constructors: &[Constructor]) -> bool
    ensures { (p : ℕ) → result ≡ spec.are_unmarked (map (constructor_of p) constructors.now) }
{
    match constructors {
        [] => true,
        [first, rest @ ..] => !is_marked(first.name.as_slice()) && are_unmarked(rest),
    }
}

/// Whether the names of a family and of its constructors hold no `!`.
fn is_unmarked_entry(entry: &Entry) -> bool
    ensures { result ≡ spec.is_unmarked_entry (entry_of entry.now) }
{
    match entry {
        Entry::Family(f) => !is_marked(f.name.as_slice()) && are_unmarked(f.cons.as_slice()),
        _ => true,
    }
}

/// Whether the entry with a number is no family, or its names hold no `!`.
fn is_unmarked_at(sig: &Signature, at: u32) -> bool
    ensures { result ≡ spec.is_unmarked_at (slice_get sig.now.entries at) }
{
    match sig.entry(at) {
        Some(entry) => is_unmarked_entry(entry),
        None => true,
    }
}

/// Whether no family's and no constructor's name holds a `!`. Takes no memory.
pub fn is_unmarked(sig: &Signature) -> bool
    ensures answer { result ≡ spec.unmarked sig.now }
    ensures tells { IsTrue result → IsUnmarked sig.now }
{
    let mut at = 0;
    while at < sig.len() {
        if !is_unmarked_at(sig, at) {
            return false;
        }
        at += 1;
    }
    true
}
