ghost use Rattle.std.specs.Prelude.{◌≡◌, ◌≢◌, ℕ, ◌≤◌, ◌∷◌, [], List, map, length, true, Some, IfSome, IfOk, OnErr, IsTrue, not, Err, ◌⊎◌, string_bytes};
ghost use Rattle.std.specs.Io.KnownBytes.{Appends};
ghost use Rattle.core_terms.specs.Count.{Rose};
ghost use Rattle.elim.specs.elim_program.Outputs as spec;
ghost use Rattle.elim.specs.elim_program.Runs.{Follows, IsWhole, Runs, Sent, Written, Wrote};
ghost use Rattle.elim.specs.program_texts.Texts.{answer_of, limit, limited};
ghost use Rattle.elim.specs.program_texts.Lines.{text_of};
ghost use Rattle.elim.specs.program_texts.Refusals.{stop_line};
ghost use Rattle.elim.specs.program_texts.Words.{asks_for_source, asked};

use crate::elim_program::block::stop_block;
use crate::elim_program::declaring::write_declarations;
use crate::elim_program::verifying::verify;
use crate::elim_program::working::write_work;
use crate::program_texts::{
    Asked, Command, LIMIT, Status, TextStop, asked, asks_for_source, declarations, is_memory,
    work_asked,
};
use core_terms::Items;
use elim_ports::{PortError, ReadError, Sink, Source, read_all, write_all};
use function_session::Session;
use std::alloc::Global;
use surface_syntax::Decl;

const USAGE: &[u8] = b"# usage elim (compile [--k] | verify [--k] | work N) [--fuel N]\n";

const HEAD: &[u8] = b"elim 1\nprelude\n";

const HEAD_WITH_K: &[u8] = b"elim 1\nprelude k\n";

/// Writes all of the bytes, or a front of them.
pub(crate) fn send<K: Sink>(sink: &mut K, bytes: &[u8]) -> Result<(), Status>
    ensures sent { (text : List ℕ) × Appends (K.written sink.old) (K.written sink.new) text × Sent result text bytes.now }
    ensures fault { result ≡ Err Status.WriteFault → Rose (K.faults sink.old) (K.faults sink.new) }
    ensures never_falls { K.faults sink.old ≤ K.faults sink.new }
{
    match write_all(sink, bytes).1 {
        Ok(()) => Ok(()),
        Err(PortError::Fault) => Err(Status::WriteFault),
        Err(PortError::Memory) => Err(Status::NoMemory),
    }
}

/// The bytes of a source, or None where more came than are read.
fn take_text<S: Source>(alloc: Global, source: &mut S) -> Result<Option<Items<u8>>, Status>
    ensures bytes { (bytes : List ℕ) × IfSome (S.left source.old) (λ known. bytes ≡ known) × IfOk result (λ text. text ≡ limited bytes) }
    ensures within { IfOk result (λ text. IfSome text (λ bytes. length bytes ≤ limit)) }
    ensures errors { OnErr result ((result ≡ Err Status.ReadFault) ⊎ (result ≡ Err Status.NoMemory)) }
    ensures fault { result ≡ Err Status.ReadFault → Rose (S.faults source.old) (S.faults source.new) }
{
    match read_all(alloc, source, LIMIT) {
        Ok(bytes) => Ok(Some(bytes)),
        Err(ReadError::TooLong) => Ok(None),
        Err(ReadError::Fault) => Err(Status::ReadFault),
        Err(ReadError::Memory) => Err(Status::NoMemory),
    }
}

pub(crate) fn head(k: bool) -> &'static [u8]
    ensures { result.now ≡ text_of (spec.head_lines k) }
{
    if k { HEAD_WITH_K } else { HEAD }
}

/// Writes the line of a source file that is refused.
pub(crate) fn write_stop_line<K: Sink>(
    alloc: Global,
    stop: TextStop,
    sink: &mut K,
) -> Result<bool, Status>
    ensures written { (text : List ℕ) × Appends (K.written sink.old) (K.written sink.new) text
        × Written result (spec.block (stop_line stop ∷ []) true) text }
    ensures fault { result ≡ Err Status.WriteFault → Rose (K.faults sink.old) (K.faults sink.new) }
    ensures never_falls { K.faults sink.old ≤ K.faults sink.new }
{
    let block = stop_block(alloc, stop)?;
    send(sink, block.text.as_slice())?;
    Ok(block.refused)
}

/// Writes the lines of a source file, and answers whether the last line refuses.
fn write_whole_text<K: Sink>(
    alloc: Global,
    command: Command,
    answer: Result<Items<Decl>, TextStop>,
    sink: &mut K,
) -> Result<bool, Status>
    ensures written { (text : List ℕ) × Appends (K.written sink.old) (K.written sink.new) text
        × Written result (spec.text_block command (answer_of answer)) text }
    ensures fault { result ≡ Err Status.WriteFault → Rose (K.faults sink.old) (K.faults sink.new) }
{
    match answer {
        Ok(decls) => {
            let mut session = Session::new(alloc, command.k, command.fuel)?;
            write_declarations(alloc, &mut session, decls.as_slice(), sink)
        }
        Err(stop) => write_stop_line(alloc, stop, sink),
    }
}

/// Writes the head lines and the lines of a source file.
fn write_output<K: Sink>(
    alloc: Global,
    command: Command,
    answer: Result<Items<Decl>, TextStop>,
    sink: &mut K,
) -> Status
    ensures follows { Follows (spec.compiled command.k (spec.text_block command (answer_of answer))) (K.written sink.old) (K.written sink.new) result }
    ensures fault { result ≡ Status.WriteFault → Rose (K.faults sink.old) (K.faults sink.new) }
    ensures read { result ≢ Status.ReadFault }
{
    if let Err(status) = send(sink, head(command.k)) {
        return status;
    }
    match write_whole_text(alloc, command, answer, sink) {
        Ok(true) => Status::Refused,
        Ok(false) => Status::Done,
        Err(status) => status,
    }
}

/// Compiles a source file.
fn compile<K: Sink>(
    alloc: Global,
    command: Command,
    text: &Option<Items<u8>>,
    sink: &mut K,
) -> Status
    requires { IfSome text.now (λ bytes. length bytes ≤ limit) }
    ensures wrote { (words : List (List ℕ)) (bytes : List ℕ) → asked words ≡ Some command → text.now ≡ limited bytes
        → Wrote words bytes (K.written sink.old) (K.written sink.new) result }
    ensures fault { result ≡ Status.WriteFault → Rose (K.faults sink.old) (K.faults sink.new) }
    ensures read { result ≢ Status.ReadFault }
{
    match declarations(alloc, text) {
        Ok(decls) => write_output(alloc, command, Ok(decls), sink),
        Err(stop) => {
            if is_memory(stop) {
                return Status::NoMemory;
            }
            write_output(alloc, command, Err(stop), sink)
        }
    }
}

/// Writes the usage line.
fn refuse_words<K: Sink>(sink: &mut K) -> Status
    ensures follows { Follows spec.usage (K.written sink.old) (K.written sink.new) result }
    ensures fault { result ≡ Status.WriteFault → Rose (K.faults sink.old) (K.faults sink.new) }
    ensures read { result ≢ Status.ReadFault }
{
    match send(sink, USAGE) {
        Ok(()) => Status::Usage,
        Err(status) => status,
    }
}

/// Compiles or verifies the bytes of the source, as the words ask for.
fn answer<K: Sink>(
    alloc: Global,
    words: &[String],
    text: &Option<Items<u8>>,
    sink: &mut K,
) -> Status
    requires asks { asks_for_source (map string_bytes words.now) ≡ true }
    requires within { IfSome text.now (λ bytes. length bytes ≤ limit) }
    ensures wrote { (bytes : List ℕ) → text.now ≡ limited bytes → Wrote (map string_bytes words.now) bytes (K.written sink.old) (K.written sink.new) result }
    ensures fault { result ≡ Status.WriteFault → Rose (K.faults sink.old) (K.faults sink.new) }
    ensures read { result ≢ Status.ReadFault }
{
    match asked(alloc, words) {
        Ok(Asked::Compile(command)) => compile(alloc, command, text, sink),
        Ok(Asked::Verify(command)) => verify(alloc, command, text, sink),
        Err(status) => status,
    }
}

/// Compiles the source file, or verifies the core file that `source` holds, or counts the clauses of a source file of
/// its own, as the words ask for, and writes the lines to `sink`.
///
/// `words` are those after the program's name. The source is read whole before the first write; for `work`, or where the words
/// are not accepted, it is not read.
pub fn run<S: Source, K: Sink>(
    alloc: Global,
    words: &[String],
    source: &mut S,
    sink: &mut K,
) -> Status
    // The bytes that were written are a front of a defined output, or nothing was written. Each whole line
    // `# accepted NAME` has its headline: the lines above it show that the declaration has its written type. So has
    // each whole line `# verified NAME`: the entries that are verified up to it are a well-formed signature.
    ensures runs { Runs (map string_bytes words.now) (S.left source.old) (K.written sink.old) (K.written sink.new) result }
    ensures read_fault { result ≡ Status.ReadFault → Rose (S.faults source.old) (S.faults source.new) }
    ensures write_fault { result ≡ Status.WriteFault → Rose (K.faults sink.old) (K.faults sink.new) }
    ensures complete { (Rose (S.faults source.old) (S.faults source.new) → ⊥) → (Rose (K.faults sink.old) (K.faults sink.new) → ⊥) → result ≢ Status.NoMemory
        → IsWhole (map string_bytes words.now) (S.left source.old) (K.written sink.old) (K.written sink.new) result }
    ensures unread { IsTrue (not (asks_for_source (map string_bytes words.now))) → source.new ≡ source.old }
{
    if let Some(command) = work_asked(words) {
        return write_work(alloc, command, sink);
    }
    if !asks_for_source(words) {
        return refuse_words(sink);
    }
    match take_text(alloc, source) {
        Ok(text) => answer(alloc, words, &text, sink),
        Err(status) => status,
    }
}
