ghost use Rattle.std.specs.Prelude.{◌≡◌, ◌≢◌, map, IsTrue, not, string_bytes};
ghost use Rattle.core_terms.specs.Count.{Rose};
ghost use Rattle.elim.specs.program_texts.Words.{asks_for_source};
ghost use Rattle.elim.specs.headline.Runs.{HasRun};
ghost use Rattle.elim.specs.headline.meaning_laws.Complete.{IsMeantWhole};

use crate::headline::laws::full_headline;
use crate::headline::meaning_laws::whole_is_meant;
use crate::program_texts::Status;
use elim_ports::{Sink, Source};
use std::alloc::Global;

/// Compiles the source file, or verifies the core file that `source` holds, or counts the clauses of a source file of
/// its own, as the words ask for, and writes the lines to `sink`.
///
/// `words` are those after the program's name. The source is read whole before the first write; for `work`, or where the words
/// are not accepted, it is not read.
pub fn run<S: Source, K: Sink>(
    alloc: Global,
    words: &[String],
    source: &mut S,
    sink: &mut K,
) -> Status
    // The bytes that were written are a front of a defined output, or nothing was written. Each whole line
    // `# accepted NAME` has the full headline: the lines above show that the declaration has its written type; they are
    // one core file, without K unless the words ask for it; and the elaborator accepts this declaration with these
    // lines. Each whole line `# verified NAME` has its headline: the entries that are verified up to it are a
    // well-formed signature.
    ensures runs { HasRun (map string_bytes words.now) (S.left source.old) (K.written sink.old) (K.written sink.new) result }
    ensures read_fault { result ≡ Status.ReadFault → Rose (S.faults source.old) (S.faults source.new) }
    ensures write_fault { result ≡ Status.WriteFault → Rose (K.faults sink.old) (K.faults sink.new) }
    // If no device fails and memory suffices, the whole output was written, and it is the one that is meant: each declaration
    // is accepted or refused as its phases are defined.
    ensures complete { (Rose (S.faults source.old) (S.faults source.new) → ⊥) → (Rose (K.faults sink.old) (K.faults sink.new) → ⊥) → result ≢ Status.NoMemory
        → IsMeantWhole (map string_bytes words.now) (S.left source.old) (K.written sink.old) (K.written sink.new) result }
    ensures unread { IsTrue (not (asks_for_source (map string_bytes words.now))) → source.new ≡ source.old }
{
    full_headline();
    whole_is_meant();
    crate::elim_program::run(alloc, words, source, sink)
}
