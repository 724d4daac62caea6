ghost use Rattle.std.specs.Prelude.{◌≡◌, ◌≢◌, ◌≤◌, ℕ, List, length, suc, true, Some, IfOk, Err, OnErr, OnOk};
ghost use Rattle.std.specs.Io.KnownBytes.{Appends};
ghost use Rattle.core_terms.specs.Answers.{Unless};
ghost use Rattle.core_terms.specs.Count.{Rose};
ghost use Rattle.core_sig.specs.Kinds.{HasEntryKinds};
ghost use Rattle.core_sig.specs.Meanings.{entry_of};
ghost use Rattle.core_terms.specs.Meanings.{tree_of};
ghost use Rattle.core_text.specs.RawEntries.{entry_shown};
ghost use Rattle.core_text.specs.ReadLaws.{IsReadEntry};
ghost use Rattle.core_text.specs.TermText.{term_text};
ghost use Rattle.core_text.specs.EntryReading.{IsUnforeseen};
ghost use Rattle.elab_session.specs.Entering.{enter_of};
ghost use Rattle.elim.specs.elim_program.Blocks.{Makes};
ghost use Rattle.elim.specs.elim_program.Outputs as outputs;
ghost use Rattle.elim.specs.elim_program.Runs.{Follows, Written, Wrote};
ghost use Rattle.elim.specs.program_texts.Texts.{limited};
ghost use Rattle.elim.specs.elim_program.Verifies as spec;
ghost use Rattle.elim.specs.program_texts.Words.{verify_asked};

use crate::elim_program::Block;
use crate::elim_program::block::{refusal_block, verified_block};
use crate::elim_program::running::{head, send, write_stop_line};
use crate::program_texts::{Command, Status, TextStop, is_memory, unread};
use core_sig::{Entry, Signature};
use core_terms::{Items, Name, Term, copy_name};
use core_text::{CoreTextStop, print_term, read_entry, read_head};
use elim_ports::Sink;
use function_session::Session;
use std::alloc::Global;

/// How a symbol is spelled.
fn spelled(alloc: Global, sig: &Signature, symbol: &Term) -> Result<Name, Status>
    ensures ok { IfOk result (λ name. name ≡ term_text sig.now (tree_of symbol.now)) }
    ensures memory { OnErr result (result ≡ Err Status.NoMemory) }
{
    let text = print_term(alloc, sig, symbol)?;
    Ok(Name::from_vec(text.into_vec()))
}

/// The name of an entry that is read.
fn read_name(alloc: Global, sig: &Signature, entry: &Entry) -> Result<Name, Status>
    ensures ok { IfOk result (λ name. name ≡ spec.read_name sig.now (entry_shown (length sig.now.entries) (entry_of entry.now))) }
    ensures memory { OnErr result (result ≡ Err Status.NoMemory) }
{
    match entry {
        Entry::Family(family) => Ok(copy_name(alloc, &family.name)?),
        Entry::Elim(family, m) => spelled(alloc, sig, &Term::Elim(*family, *m)),
        Entry::AxiomK(i, m) => spelled(alloc, sig, &Term::AxiomK(*i, *m)),
        Entry::Def { name, .. } => Ok(copy_name(alloc, name)?),
    }
}

/// Adds an entry with the name to the session, and makes its line.
fn enter(alloc: Global, session: &mut Session, name: &Name, entry: Entry) -> Result<Block, Status>
    requires kinds { HasEntryKinds (length session.old.signature.entries) entry }
    requires scoped { IsReadEntry session.old.signature (entry_shown (length session.old.signature.entries) (entry_of entry)) }
    ensures made { Makes result (spec.entry_block name.now (enter_of session.old.signature session.old.fuel (entry_shown (length session.old.signature.entries) (entry_of entry)))) }
    ensures after { OnOk result (session.new.signature ≡ spec.after_entry session.old.signature (enter_of session.old.signature session.old.fuel (entry_shown (length session.old.signature.entries) (entry_of entry)))) }
    ensures fuel { session.new.fuel ≡ session.old.fuel }
{
    match session.enter(entry) {
        Ok(_) => verified_block(alloc, name),
        Err(refusal) => refusal_block(alloc, name, &refusal),
    }
}

/// Adds an entry to the session, writes its line, and answers whether that refuses it.
fn write_entry_line<K: Sink>(
    alloc: Global,
    session: &mut Session,
    entry: Entry,
    sink: &mut K,
) -> Result<bool, Status>
    requires kinds { HasEntryKinds (length session.old.signature.entries) entry }
    requires scoped { IsReadEntry session.old.signature (entry_shown (length session.old.signature.entries) (entry_of entry)) }
    ensures written { (text : List ℕ) × Appends (K.written sink.old) (K.written sink.new) text
        × Written result (spec.read_block session.old.signature session.old.fuel (entry_shown (length session.old.signature.entries) (entry_of entry))) text }
    ensures after { OnOk result (session.new.signature ≡ spec.after_entry session.old.signature (enter_of session.old.signature session.old.fuel (entry_shown (length session.old.signature.entries) (entry_of entry)))) }
    ensures fuel { session.new.fuel ≡ session.old.fuel }
    ensures fault { result ≡ Err Status.WriteFault → Rose (K.faults sink.old) (K.faults sink.new) }
    ensures never_falls { K.faults sink.old ≤ K.faults sink.new }
{
    let name = match read_name(alloc, session.signature(), &entry) {
        Ok(name) => name,
        Err(status) => return Err(status),
    };
    let block = match enter(alloc, session, &name, entry) {
        Ok(block) => block,
        Err(status) => return Err(status),
    };
    send(sink, block.text.as_slice())?;
    Ok(block.refused)
}

/// Writes the line of core text that is not read.
fn write_unread<K: Sink>(alloc: Global, stop: CoreTextStop, sink: &mut K) -> Result<bool, Status>
    ensures written { (meant : outputs.Block) → Unless (IsUnforeseen stop) (spec.unread_block stop ≡ meant)
        → (text : List ℕ) × Appends (K.written sink.old) (K.written sink.new) text × Written result meant text }
    ensures fault { result ≡ Err Status.WriteFault → Rose (K.faults sink.old) (K.faults sink.new) }
    ensures never_falls { K.faults sink.old ≤ K.faults sink.new }
{
    let stop = unread(stop);
    if is_memory(stop) {
        return Err(Status::NoMemory);
    }
    write_stop_line(alloc, stop, sink)
}

/// Enters the entries from an offset on, one by one up to the first that is refused, and writes the line of each.
/// The answer is whether the last line refuses.
fn write_entry_lines<K: Sink>(
    alloc: Global,
    session: &mut Session,
    text: &[u8],
    start: u32,
    sink: &mut K,
) -> Result<bool, Status>
    requires { start ≤ length text.now }
    ensures written { (written : List ℕ) × Appends (K.written sink.old) (K.written sink.new) written
        × Written result (spec.entries text.now session.old.fuel (suc (length text.now)) session.old.signature start) written }
    ensures fault { result ≡ Err Status.WriteFault → Rose (K.faults sink.old) (K.faults sink.new) }
{
    let mut from = start;
    'entries: loop {
        let (entry, end) = match read_entry(alloc, session.signature(), text, from) {
            Ok(Some(read)) => read,
            Ok(None) => return Ok(false),
            Err(stop) => return write_unread(alloc, stop, sink),
        };
        let refused = match write_entry_line(alloc, session, entry, sink) {
            Ok(refused) => refused,
            Err(status) => return Err(status),
        };
        if refused {
            return Ok(true);
        }
        from = end;
    }
}

/// Writes the lines of a core file. The answer is whether the last line refuses.
fn write_file<K: Sink>(
    alloc: Global,
    command: Command,
    text: &[u8],
    sink: &mut K,
) -> Result<bool, Status>
    ensures written { (written : List ℕ) × Appends (K.written sink.old) (K.written sink.new) written
        × Written result (spec.file_block command (Some text.now)) written }
    ensures fault { result ≡ Err Status.WriteFault → Rose (K.faults sink.old) (K.faults sink.new) }
{
    match read_head(text, command.k) {
        Ok((k, start)) => {
            let mut session = match Session::new(alloc, k, command.fuel) {
                Ok(session) => session,
                Err(_) => return Err(Status::NoMemory),
            };
            write_entry_lines(alloc, &mut session, text, start, sink)
        }
        Err(stop) => write_unread(alloc, stop, sink),
    }
}

/// Writes the lines of a core file; None is a file that is too long.
fn write_whole_text<K: Sink>(
    alloc: Global,
    command: Command,
    text: &Option<Items<u8>>,
    sink: &mut K,
) -> Result<bool, Status>
    ensures written { (written : List ℕ) × Appends (K.written sink.old) (K.written sink.new) written
        × Written result (spec.file_block command text.now) written }
    ensures fault { result ≡ Err Status.WriteFault → Rose (K.faults sink.old) (K.faults sink.new) }
{
    match text {
        Some(bytes) => write_file(alloc, command, bytes.as_slice(), sink),
        None => write_stop_line(alloc, TextStop::TooLong, sink),
    }
}

/// Writes the head lines and the lines of a core file.
fn write_output<K: Sink>(
    alloc: Global,
    command: Command,
    text: &Option<Items<u8>>,
    sink: &mut K,
) -> Status
    ensures follows { Follows (outputs.compiled command.k (spec.file_block command text.now)) (K.written sink.old) (K.written sink.new) result }
    ensures fault { result ≡ Status.WriteFault → Rose (K.faults sink.old) (K.faults sink.new) }
    ensures read { result ≢ Status.ReadFault }
{
    if let Err(status) = send(sink, head(command.k)) {
        return status;
    }
    match write_whole_text(alloc, command, text, sink) {
        Ok(true) => Status::Refused,
        Ok(false) => Status::Done,
        Err(status) => status,
    }
}

/// Verifies a core file.
pub(crate) fn verify<K: Sink>(
    alloc: Global,
    command: Command,
    text: &Option<Items<u8>>,
    sink: &mut K,
) -> Status
    ensures wrote { (words : List (List ℕ)) (bytes : List ℕ) → verify_asked words ≡ Some command → text.now ≡ limited bytes
        → Wrote words bytes (K.written sink.old) (K.written sink.new) result }
    ensures fault { result ≡ Status.WriteFault → Rose (K.faults sink.old) (K.faults sink.new) }
    ensures read { result ≢ Status.ReadFault }
{
    write_output(alloc, command, text, sink)
}
