ghost use Rattle.std.specs.Prelude.{◌≡◌, ◌≢◌, ◌≤◌, ◌-◌, ◌^◌, [], ◌<◌, true, false, length, option_map, None, All, AllPairs, IfOk, IfErr, IfSome};
ghost use Rattle.theory.specs.Signatures.{names_of};
ghost use Rattle.core_sig.specs.Kinds.{HasEntryKinds};
ghost use Rattle.core_sig.specs.Names.{find};
ghost use Rattle.core_sig.specs.Meanings.{entry_of};
ghost use Rattle.core_text.specs.EntryReading as spec;
ghost use Rattle.core_text.specs.EntryReading.{ReadsEntry, entry_from};
ghost use Rattle.core_text.specs.LineReading.{line_at};
ghost use Rattle.core_text.specs.RawEntries.{entry_shown};
ghost use Rattle.core_text.specs.ReadLaws.{IsReadEntry};
ghost use Rattle.core_text.specs.Reading.{Past, IsUnforeseen, Reads};
ghost use Rattle.core_text.specs.Records.{HasEntryLevelsZero};
ghost use Rattle.core_text.specs.Scopes.{line_of};
ghost use Rattle.core_terms.specs.Answers.{Unless};
ghost use Rattle.core_text.specs.declared.halt.Halt.TheVariants.{Wrong};

use crate::CoreTextStop;
use crate::halt::Halt;
use crate::line::Line;
use crate::line_reader::read_line;
use crate::records::family_record;
use crate::scanning::skip;
use crate::scope::Scope;
use core_sig::{Entry, Signature};
use std::alloc::Global;

/// Reads the next entry after lines that begin with `#`, with the offset after it, and nothing at the end of the
/// text. Memory is also answered where an offset has more than 32 bits.
pub fn read_entry(
    alloc: Global,
    sig: &Signature,
    text: &[u8],
    from: u32,
) -> Result<Option<(Entry, u32)>, CoreTextStop>
    requires { from ≤ length text.now }
    ensures read { ReadsEntry (length sig.now.entries) result (entry_from sig.now text.now from) }
    ensures kinds { IfOk result (λ o. IfSome o (λ p. HasEntryKinds (length sig.now.entries) p.0)) }
    ensures levels { IfOk result (λ o. IfSome o (λ p. HasEntryLevelsZero (entry_of p.0))) }
    ensures unknown { IfOk result (λ o. IfSome o (λ p. All (λ name. find sig.now name ≡ None) (names_of (entry_of p.0)))) }
    ensures distinct { IfOk result (λ o. IfSome o (λ p. AllPairs (λ x y. x ≢ y) (names_of (entry_of p.0)))) }
    ensures scoped { IfOk result (λ o. IfSome o (λ p. IsReadEntry sig.now (entry_shown (length sig.now.entries) (entry_of p.0)))) }
    ensures forward { IfOk result (λ o. IfSome o (λ p. from < p.1)) }
    ensures within { IfOk result (λ o. IfSome o (λ p. p.1 ≤ length text.now)) }
{
    entry_after(alloc, sig, text, from)
}

/// The next entry and the offset after it.
fn entry_after(
    alloc: Global,
    sig: &Signature,
    text: &[u8],
    from: u32,
) -> Result<Option<(Entry, u32)>, CoreTextStop>
    ensures read { ReadsEntry (length sig.now.entries) result (entry_from sig.now text.now from) }
    ensures kinds { IfOk result (λ o. IfSome o (λ p. HasEntryKinds (length sig.now.entries) p.0)) }
    ensures levels { IfOk result (λ o. IfSome o (λ p. HasEntryLevelsZero (entry_of p.0))) }
{
    let Ok(size) = u32::try_from(text.len()) else {
        return Err(CoreTextStop::Memory);
    };
    let scope = Scope {
        alloc,
        sig,
        own: b"",
    };
    let (entry, rest) = match next_entry(&scope, skip(text, from as usize)) {
        Ok(read) => read,
        Err(halt) => return Err(stop_at(size, halt)),
    };
    match entry {
        Some(entry) => Ok(Some((entry, offset(size, rest.len())))),
        None => Ok(None),
    }
}

/// The offset of a place with so many bytes after it.
pub fn offset(size: u32, left: usize) -> u32
    ensures { result ≡ size - left }
{
    (size as usize).saturating_sub(left) as u32
}

/// The place where reading stops by its offset.
pub fn stop_at(size: u32, halt: Halt) -> CoreTextStop
    ensures { result ≡ spec.stop_of size halt }
{
    match halt {
        Halt::Memory => CoreTextStop::Memory,
        Halt::Nested(left) => CoreTextStop::Nested(offset(size, left)),
        Halt::Wrong(left) => CoreTextStop::NotCoreText(offset(size, left)),
    }
}

/// The bytes after the lines that begin with `#`.
pub fn after_notes(from: &[u8]) -> Result<&[u8], Halt>
    ensures { Past result (spec.after_notes false from.now) }
{
    let mut rest = from;
    let mut inside = false;
    'bytes: while let [byte, more @ ..] = rest {
        if !inside && *byte != b'#' {
            return Ok(rest);
        }
        inside = *byte != b'\n';
        rest = more;
    }
    if inside {
        return Err(Halt::Wrong(0));
    }
    Ok(rest)
}

/// The entry that a line shows, or the place where the line begins, by the bytes left there.
pub fn shown_entry(scope: &Scope, line: Line, start: usize) -> Result<Entry, Halt>
    ensures is_shown { IfOk result (λ e. spec.shows_entry (length scope.now.sig.now.entries) (line_of line) ≡ true) }
    ensures shown { IfOk result (λ e. entry_shown (length scope.now.sig.now.entries) (entry_of e) ≡ line_of line) }
    ensures kinds { IfOk result (HasEntryKinds (length scope.now.sig.now.entries)) }
    ensures levels { IfOk result (λ e. HasEntryLevelsZero (entry_of e)) }
    ensures err { IfErr result (λ e. Unless (IsUnforeseen e) ((e ≡ Wrong start) × (spec.shows_entry (length scope.now.sig.now.entries) (line_of line) ≡ false))) }
{
    match line {
        Line::Family(raw) => {
            let family = family_record(scope.alloc, scope.sig.len(), raw, start)?;
            Ok(Entry::Family(family))
        }
        Line::Elim(family, level) => Ok(Entry::Elim(family, level)),
        Line::AxiomK(i, level) => Ok(Entry::AxiomK(i, level)),
        Line::Def { name, ty, body } => Ok(Entry::Def { name, ty, body }),
    }
}

/// The entry whose line is at the front.
fn read_shown<'t>(scope: &Scope, rest: &'t [u8]) -> Result<(Entry, &'t [u8]), Halt>
    ensures read { Reads (λ e. Some (entry_shown (length scope.now.sig.now.entries) (entry_of e))) result (spec.shown_by (length scope.now.sig.now.entries) rest.now (line_at scope.now.sig.now scope.now.own.now rest.now)) }
    ensures kinds { IfOk result (λ p. HasEntryKinds (length scope.now.sig.now.entries) p.0) }
    ensures levels { IfOk result (λ p. HasEntryLevelsZero (entry_of p.0)) }
{
    let (line, end) = read_line(scope, rest)?;
    let entry = shown_entry(scope, line, rest.len())?;
    Ok((entry, end))
}

/// The next entry, or nothing at the end of the text.
fn next_entry<'t>(scope: &Scope, from: &'t [u8]) -> Result<(Option<Entry>, &'t [u8]), Halt>
    requires { scope.now.own.now ≡ [] }
    ensures read { Reads (option_map (λ e. entry_shown (length scope.now.sig.now.entries) (entry_of e))) result (spec.next_entry scope.now.sig.now from.now) }
    ensures kinds { IfOk result (λ p. IfSome p.0 (HasEntryKinds (length scope.now.sig.now.entries))) }
    ensures levels { IfOk result (λ p. IfSome p.0 (λ e. HasEntryLevelsZero (entry_of e))) }
{
    let rest = after_notes(from)?;
    if rest.is_empty() {
        return Ok((None, rest));
    }
    let (entry, end) = read_shown(scope, rest)?;
    Ok((Some(entry), end))
}
