ghost use Rattle.std.specs.Prelude.{◌≡◌, ◌≢◌, ◌≤◌, ℕ, List, length, map, Ok, Some, Err, IfSome};
ghost use Rattle.std.specs.Io.KnownBytes.{Appends};
ghost use Rattle.core_terms.specs.Count.{Rose};
ghost use Rattle.elim.specs.elim_program.Blocks.{Makes};
ghost use Rattle.elim.specs.elim_program.Counting.{Counted};
ghost use Rattle.elim.specs.elim_program.Runs.{Follows, Written, Wrote};
ghost use Rattle.elim.specs.program_texts.Texts.{answer_of, limit, limited};
ghost use Rattle.elim.specs.program_texts.Words.{work_asked};
ghost use Rattle.elim.specs.elim_program.WorkTexts.{work_text};
ghost use Rattle.elim.specs.elim_program.Works as spec;
ghost use Rattle.surface_syntax.specs.TreeMeanings.{decl_of};

use crate::elim_program::Block;
use crate::elim_program::block::{refused_block, stop_block};
use crate::elim_program::counts::{Counts, none_counted, with_accepted};
use crate::elim_program::declaring::declared_name;
use crate::elim_program::running::{head, send};
use crate::elim_program::work_texts::{summary, work_text};
use crate::program_texts::{Status, TextStop, Work, declarations, is_memory};
use core_terms::Items;
use elim_ports::Sink;
use function_session::Session;
use std::alloc::Global;
use surface_syntax::Decl;

/// Adds declarations to the session one by one, and counts what is accepted; or makes the lines of the first refusal.
fn count_declarations(
    alloc: Global,
    session: &mut Session,
    decls: &[Decl],
    counts: Counts,
) -> Result<Result<Counts, Block>, Status>
    ensures { Counted result (spec.worked session.old (map decl_of decls.now) counts) }
{
    match decls {
        [] => Ok(Ok(counts)),
        [first, rest @ ..] => match session.declare(first) {
            Ok(accepted) => {
                let more = with_accepted(counts, accepted.lines.as_slice())?;
                count_declarations(alloc, session, rest, more)
            }
            Err(refusal) => {
                let block = refused_block(alloc, declared_name(first), &refusal)?;
                Ok(Err(block))
            }
        },
    }
}

/// The lines of the declarations of a source file.
fn declarations_block(alloc: Global, work: Work, decls: &[Decl]) -> Result<Block, Status>
    ensures { Makes result (spec.work_block work (Ok (map decl_of decls.now))) }
{
    let mut session = Session::new(alloc, false, work.fuel)?;
    match count_declarations(alloc, &mut session, decls, none_counted()) {
        Ok(Ok(counts)) => summary(alloc, work.count, counts),
        Ok(Err(block)) => Ok(block),
        Err(status) => Err(status),
    }
}

/// The lines for the declarations of a source file, or for its refusal.
fn answer_block(
    alloc: Global,
    work: Work,
    answer: Result<Items<Decl>, TextStop>,
) -> Result<Block, Status>
    ensures { Makes result (spec.work_block work (answer_of answer)) }
{
    match answer {
        Ok(decls) => declarations_block(alloc, work, decls.as_slice()),
        Err(stop) => stop_block(alloc, stop),
    }
}

/// Makes the lines of a source file, and writes them. The answer is whether the last line refuses.
fn write_answer<K: Sink>(
    alloc: Global,
    work: Work,
    answer: Result<Items<Decl>, TextStop>,
    sink: &mut K,
) -> Result<bool, Status>
    ensures written { (text : List ℕ) × Appends (K.written sink.old) (K.written sink.new) text
        × Written result (spec.work_block work (answer_of answer)) text }
    ensures fault { result ≡ Err Status.WriteFault → Rose (K.faults sink.old) (K.faults sink.new) }
    ensures never_falls { K.faults sink.old ≤ K.faults sink.new }
{
    let block = match answer_block(alloc, work, answer) {
        Ok(block) => block,
        Err(status) => return Err(status),
    };
    send(sink, block.text.as_slice())?;
    Ok(block.refused)
}

/// Writes the head lines and the lines of a source file.
fn write_output<K: Sink>(
    alloc: Global,
    work: Work,
    answer: Result<Items<Decl>, TextStop>,
    sink: &mut K,
) -> Status
    ensures follows { Follows (spec.work_output work (answer_of answer)) (K.written sink.old) (K.written sink.new) result }
    ensures fault { result ≡ Status.WriteFault → Rose (K.faults sink.old) (K.faults sink.new) }
    ensures read { result ≢ Status.ReadFault }
{
    if let Err(status) = send(sink, head(false)) {
        return status;
    }
    match write_answer(alloc, work, answer, sink) {
        Ok(true) => Status::Refused,
        Ok(false) => Status::Done,
        Err(status) => status,
    }
}

/// Compiles the source file of `work`, and writes how many of its clauses have each line.
fn count_text<K: Sink>(alloc: Global, work: Work, text: &Option<Items<u8>>, sink: &mut K) -> Status
    requires { IfSome text.now (λ bytes. length bytes ≤ limit) }
    ensures wrote { (words : List (List ℕ)) (bytes : List ℕ) → work_asked words ≡ Some work → text.now ≡ limited (work_text work.count)
        → Wrote words bytes (K.written sink.old) (K.written sink.new) result }
    ensures fault { result ≡ Status.WriteFault → Rose (K.faults sink.old) (K.faults sink.new) }
    ensures read { result ≢ Status.ReadFault }
{
    match declarations(alloc, text) {
        Ok(decls) => write_output(alloc, work, Ok(decls), sink),
        Err(stop) => {
            if is_memory(stop) {
                return Status::NoMemory;
            }
            write_output(alloc, work, Err(stop), sink)
        }
    }
}

/// Makes the source file of `work`, compiles it, and writes how many of its clauses have each line.
pub(crate) fn write_work<K: Sink>(alloc: Global, work: Work, sink: &mut K) -> Status
    requires { work.count ≤ 200 }
    ensures wrote { (words : List (List ℕ)) (bytes : List ℕ) → work_asked words ≡ Some work → Wrote words bytes (K.written sink.old) (K.written sink.new) result }
    ensures fault { result ≡ Status.WriteFault → Rose (K.faults sink.old) (K.faults sink.new) }
    ensures read { result ≢ Status.ReadFault }
{
    match work_text(alloc, work.count) {
        Ok(text) => count_text(alloc, work, &text, sink),
        Err(status) => status,
    }
}
