//! Compares generated entries with those of core files, which another implementation of the rules wrote. A definition with a generated
//! name, as `Nat!case.0`, has to be what its generator makes over the entries before it; and each entry has to be accepted.
ghost use Rattle.std.specs.Prelude.{◌≤◌, length};
ghost use Rattle.core_sig.specs.Kinds.{HasEntryKinds};
ghost use Rattle.core_sig.specs.Meanings.{entry_of};
ghost use Rattle.core_text.specs.RawEntries.{entry_shown};
ghost use Rattle.core_text.specs.ReadLaws.{IsReadEntry};
ghost use Rattle.elab_session.specs.Sessions.{IsReady};

use crate::generating::generated;
use core_sig::{Draft, Entry, Signature, settle};
use core_text::{read_entry, read_head};
use elab_session::enter_entry;
use std::alloc::Global;
use std::{fs, io};

/// Whether the definitions have one name, one type and one term.
fn is_same(one: &Entry, other: &Entry) -> bool {
    match (one, other) {
        (
            Entry::Def { name, ty, body },
            Entry::Def {
                name: other_name,
                ty: other_ty,
                body: other_body,
            },
        ) => name.as_slice() == other_name.as_slice() && ty.same(other_ty) && body.same(other_body),
        _ => false,
    }
}

/// What became of an entry: it is none that is generated, or it is what its generator makes, or not.
#[derive(Clone, Copy, PartialEq, Eq)]
enum Found {
    Given,
    Generated,
    Other,
}

/// Compares an entry that is read with what its generator makes, where its name is a generated one.
fn compared(alloc: Global, sig: &Signature, entry: &Entry) -> Found {
    let Entry::Def { name, .. } = entry else {
        return Found::Given;
    };
    let Ok(text) = str::from_utf8(name.as_slice()) else {
        return Found::Given;
    };
    match generated(alloc, sig, text) {
        None => Found::Given,
        Some(None) => Found::Other,
        Some(Some(draft)) => settled(alloc, sig, &draft, entry),
    }
}

/// Compares an entry with a draft's, with the numbers that its names have.
fn settled(alloc: Global, sig: &Signature, draft: &Draft, entry: &Entry) -> Found {
    match settle(alloc, sig, draft) {
        Ok(made) if is_same(&made, entry) => Found::Generated,
        _ => Found::Other,
    }
}

/// How a file ended: so many entries are as generated and all entered, or the entry that a number of entries precede is
/// wrong, refused or can't be read.
enum Ending {
    Whole(u64),
    Wrong(u64),
    Refused(u64),
    Unread(u64),
}

/// Enters the entries from an offset on one by one, and compares those that are generated.
fn compare_entries(alloc: Global, sig: &mut Signature, text: &[u8], start: u32) -> Ending
    requires ready { IsReady sig.old }
    requires within { start ≤ length text.now }
{
    let mut from = start;
    let mut entered = 0u64;
    let mut same = 0u64;
    'entries: loop {
        let (entry, end) = match read_entry(alloc, sig, text, from) {
            Ok(Some(read)) => read,
            Ok(None) => return Ending::Whole(same),
            Err(_) => return Ending::Unread(entered),
        };
        match compared(alloc, sig, &entry) {
            Found::Given => {}
            Found::Generated => same = same.saturating_add(1),
            Found::Other => return Ending::Wrong(entered),
        }
        if !is_entered(alloc, sig, entry) {
            return Ending::Refused(entered);
        }
        entered = entered.saturating_add(1);
        from = end;
    }
}

/// Adds an entry that is read, and answers whether it is accepted.
fn is_entered(alloc: Global, sig: &mut Signature, entry: Entry) -> bool
    requires ready { IsReady sig.old }
    requires kinds { HasEntryKinds (length sig.old.entries) entry }
    requires scoped { IsReadEntry sig.old (entry_shown (length sig.old.entries) (entry_of entry)) }
    ensures { IsReady sig.new }
{
    enter_entry(alloc, sig, 1_000_000, entry).is_ok()
}

/// Compares the generated entries of a core file.
fn compare_file(alloc: Global, text: &[u8]) -> Ending {
    let Ok((k, start)) = read_head(text, false) else {
        return Ending::Unread(0);
    };
    let Ok(mut sig) = Signature::prelude(alloc, k) else {
        return Ending::Unread(0);
    };
    if text.len() < start as usize {
        return Ending::Unread(0);
    }
    compare_entries(alloc, &mut sig, text, start)
}

/// Compares one core file, prints its line, and answers whether there are generated entries in it and all entries are as they
/// should be.
pub fn run_core_file(rt: &HostRuntime, name: &str) -> io::Result<bool> {
    let text = fs::read(rt, name)?;
    match compare_file(rt.alloc(), text.as_slice()) {
        Ending::Whole(same) => {
            println!(rt; "ok {name}: {same} generated entries")?;
            Ok(same > 0)
        }
        Ending::Wrong(before) => {
            println!(rt; "FAILED {name}: entry {before} is not what its generator makes")?;
            Ok(false)
        }
        Ending::Refused(before) => {
            println!(rt; "FAILED {name}: entry {before} is refused")?;
            Ok(false)
        }
        Ending::Unread(before) => {
            println!(rt; "FAILED {name}: entry {before} can't be read")?;
            Ok(false)
        }
    }
}
