ghost use Rattle.std.specs.Prelude.{◌≡◌, ◌≤◌, ℕ, List, map, Err, OnOk};
ghost use Rattle.std.specs.Io.KnownBytes.{Appends};
ghost use Rattle.core_terms.specs.Count.{Rose};
ghost use Rattle.elim.specs.elim_program.Blocks.{Makes};
ghost use Rattle.elim.specs.elim_program.Outputs as spec;
ghost use Rattle.elim.specs.elim_program.Runs.{Written};
ghost use Rattle.function_session.specs.Declaring.{declared_in, session_after};
ghost use Rattle.surface_syntax.specs.TreeMeanings.{decl_of};

use crate::elim_program::Block;
use crate::elim_program::block::{accepted_block, refused_block};
use crate::elim_program::running::send;
use crate::program_texts::Status;
use core_terms::Name;
use elim_ports::Sink;
use function_session::Session;
use resolve::declared_word;
use std::alloc::Global;
use surface_syntax::Decl;

/// The name of a declaration; of families that refer to each other it is the first one's.
pub(crate) fn declared_name(d: &Decl) -> &Name
    ensures { result.now ≡ spec.declared_name (decl_of d.now) }
{
    &declared_word(d).text
}

/// Adds a declaration to the session, and makes its lines.
fn declare(alloc: Global, session: &mut Session, d: &Decl) -> Result<Block, Status>
    ensures made { Makes result (spec.declared_block session.old.signature (decl_of d.now) (declared_in session.old (decl_of d.now))) }
    ensures after { OnOk result (session.new ≡ session_after session.old (decl_of d.now) (declared_in session.old (decl_of d.now))) }
{
    match session.declare(d) {
        Ok(accepted) => accepted_block(
            alloc,
            session.signature(),
            accepted.from,
            accepted.lines.as_slice(),
            accepted.mutual.as_slice(),
            &accepted.name,
        ),
        Err(refusal) => refused_block(alloc, declared_name(d), &refusal),
    }
}

/// Adds a declaration to the session, writes its lines, and answers whether they refuse it.
fn write_declaration<K: Sink>(
    alloc: Global,
    session: &mut Session,
    d: &Decl,
    sink: &mut K,
) -> Result<bool, Status>
    ensures written { (text : List ℕ) × Appends (K.written sink.old) (K.written sink.new) text
        × Written result (spec.declared_block session.old.signature (decl_of d.now) (declared_in session.old (decl_of d.now))) text }
    ensures after { OnOk result (session.new ≡ session_after session.old (decl_of d.now) (declared_in session.old (decl_of d.now))) }
    ensures fault { result ≡ Err Status.WriteFault → Rose (K.faults sink.old) (K.faults sink.new) }
    ensures never_falls { K.faults sink.old ≤ K.faults sink.new }
{
    let block = match declare(alloc, session, d) {
        Ok(block) => block,
        Err(status) => return Err(status),
    };
    send(sink, block.text.as_slice())?;
    Ok(block.refused)
}

/// Adds declarations one by one, up to the first that is refused, and writes the lines of each. The answer is whether one is
/// refused.
pub(crate) fn write_declarations<K: Sink>(
    alloc: Global,
    session: &mut Session,
    decls: &[Decl],
    sink: &mut K,
) -> Result<bool, Status>
    ensures written { (text : List ℕ) × Appends (K.written sink.old) (K.written sink.new) text
        × Written result (spec.declarations session.old (map decl_of decls.now)) text }
    ensures fault { result ≡ Err Status.WriteFault → Rose (K.faults sink.old) (K.faults sink.new) }
{
    'decls: for d in decls {
        let refused = match write_declaration(alloc, session, d, sink) {
            Ok(refused) => refused,
            Err(status) => return Err(status),
        };
        if refused {
            return Ok(true);
        }
    }
    Ok(false)
}
