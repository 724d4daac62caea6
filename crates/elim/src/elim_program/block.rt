ghost use Rattle.std.specs.Prelude.{◌≡◌, ◌≤◌, ◌<◌, ◌+◌, ◌-◌, ◌++◌, ◌∷◌, [], length, map, slice_get, codes, true, false, Err, OnErr, OnOk};
ghost use Rattle.elab_session.specs.Refusals.{IsUnforeseen};
ghost use Rattle.elim.specs.declared.program_texts.status.Status.TheVariants.{NoMemory};
ghost use Rattle.elim.specs.elim_program.Blocks.{Makes};
ghost use Rattle.elim.specs.program_texts.Lines.{text_of};
ghost use Rattle.elim.specs.elim_program.Outputs as spec;
ghost use Rattle.elim.specs.program_texts.Refusals.{refusal_line, refused_lines, stop_line};
ghost use Rattle.elim.specs.elim_program.Verifies.{verified_line};
ghost use Rattle.function_session.specs.function_lines.LineMeanings.{clause_line_of};

use crate::elim_program::clause_texts::write_clauses;
use crate::program_texts::{Status, TextStop, write_refusal_line, write_refused, write_stop};
use core_sig::Signature;
use core_terms::Name;
use core_text::print_entry;
use elab_session::Refusal;
use function_session::function_lines::ClauseLine;
use std::alloc::Global;

/// Lines, each with its line feed, and whether the last one refuses.
#[derive(Drop)]
pub(crate) struct Block {
    pub text: Vec<u8>,
    pub refused: bool,
}

/// The last line, where a source file is refused before its declarations are looked at.
pub(crate) fn stop_block(alloc: Global, stop: TextStop) -> Result<Block, Status>
    ensures { Makes result (spec.block (stop_line stop ∷ []) true) }
{
    let mut text = Vec::new(alloc);
    text.extend_from_slice(b"# refused ")?;
    write_stop(&mut text, stop)?;
    text.extend_from_slice(b"\n")?;
    Ok(Block {
        text,
        refused: true,
    })
}

/// The last line, where an entry of a core file is refused.
pub(crate) fn refusal_block(alloc: Global, name: &Name, refusal: &Refusal) -> Result<Block, Status>
    ensures made { Makes result (spec.block (refusal_line name.now refusal.now ∷ []) true) }
    ensures memory { IsUnforeseen refusal.now → result ≡ Err NoMemory }
{
    if matches!(refusal, Refusal::Memory) {
        return Err(Status::NoMemory);
    }
    let mut text = Vec::new(alloc);
    write_refusal_line(&mut text, name, refusal)?;
    Ok(Block {
        text,
        refused: true,
    })
}

/// The lines of a declaration that is refused, or `NoMemory`.
pub(crate) fn refused_block(alloc: Global, name: &Name, refusal: &Refusal) -> Result<Block, Status>
    ensures made { Makes result (spec.block (refused_lines name.now refusal.now) true) }
    ensures memory { IsUnforeseen refusal.now → result ≡ Err NoMemory }
{
    if matches!(refusal, Refusal::Memory) {
        return Err(Status::NoMemory);
    }
    let mut text = Vec::new(alloc);
    write_refused(&mut text, name, refusal)?;
    Ok(Block {
        text,
        refused: true,
    })
}

/// Writes the line of an entry.
fn write_entry(alloc: Global, out: &mut Vec<u8>, sig: &Signature, at: u32) -> Result<(), Status>
    requires { at < length sig.now.entries }
    ensures ok { OnOk result (out.new.items ≡ out.old.items ++ (spec.line_of sig.now at (slice_get sig.now.entries at) ++ codes "\n")) }
    ensures memory { OnErr result (result ≡ Err NoMemory) }
{
    let line = print_entry(alloc, sig, at)?;
    out.extend_from_slice(line.as_slice())?;
    Ok(())
}

/// Writes the lines of `count` entries from number `at` on.
fn write_entries(
    alloc: Global,
    out: &mut Vec<u8>,
    sig: &Signature,
    at: u32,
    count: u32,
) -> Result<(), Status>
    requires within { at + count ≤ length sig.now.entries }
    requires numbered { length sig.now.entries < 4294967296 }
    ensures ok { OnOk result (out.new.items ≡ out.old.items ++ text_of (spec.entry_lines sig.now at count)) }
    ensures memory { OnErr result (result ≡ Err NoMemory) }
{
    if count == 0 {
        return Ok(());
    }
    write_entry(alloc, out, sig, at)?;
    write_entries(alloc, out, sig, at + 1, count - 1)
}

/// The line of an entry that is verified.
pub(crate) fn verified_block(alloc: Global, name: &Name) -> Result<Block, Status>
    ensures { Makes result (spec.block (verified_line name.now ∷ []) false) }
{
    let mut text = Vec::new(alloc);
    text.extend_from_slice(b"# verified ")?;
    text.extend_from_slice(name.as_slice())?;
    text.extend_from_slice(b"\n")?;
    Ok(Block {
        text,
        refused: false,
    })
}

fn write_accepted(out: &mut Vec<u8>, name: &Name) -> Result<(), Status>
    ensures ok { OnOk result (out.new.items ≡ out.old.items ++ (spec.accepted_line name.now ++ codes "\n")) }
    ensures memory { OnErr result (result ≡ Err NoMemory) }
{
    out.extend_from_slice(b"# accepted ")?;
    out.extend_from_slice(name.as_slice())?;
    out.extend_from_slice(b"\n")?;
    Ok(())
}

/// Writes the line of the equation of a member's constructor.
fn write_equation(out: &mut Vec<u8>, line: &(Name, Name)) -> Result<(), Status>
    ensures ok { OnOk result (out.new.items ≡ out.old.items ++ (spec.mutual_line line.now ++ codes "\n")) }
    ensures memory { OnErr result (result ≡ Err NoMemory) }
{
    out.extend_from_slice(b"# mutual ")?;
    out.extend_from_slice(line.0.as_slice())?;
    out.extend_from_slice(b" ")?;
    out.extend_from_slice(line.1.as_slice())?;
    out.extend_from_slice(b" definitional\n")?;
    Ok(())
}

/// Writes the lines of the equations of inductions.
fn write_equations(out: &mut Vec<u8>, lines: &[(Name, Name)]) -> Result<(), Status>
    ensures ok { OnOk result (out.new.items ≡ out.old.items ++ text_of (map spec.mutual_line lines.now)) }
    ensures memory { OnErr result (result ≡ Err NoMemory) }
{
    match lines {
        [] => Ok(()),
        [first, rest @ ..] => {
            write_equation(out, first)?;
            write_equations(out, rest)
        }
    }
}

/// Writes the lines of clauses and of equations of inductions.
fn write_notes(
    alloc: Global,
    out: &mut Vec<u8>,
    sig: &Signature,
    clauses: &[ClauseLine],
    equations: &[(Name, Name)],
) -> Result<(), Status>
    ensures ok { OnOk result (out.new.items ≡ out.old.items ++ text_of (spec.note_lines sig.now (map clause_line_of clauses.now) equations.now)) }
    ensures memory { OnErr result (result ≡ Err NoMemory) }
{
    write_clauses(alloc, out, sig, clauses)?;
    write_equations(out, equations)
}

/// Writes the lines of clauses and of equations of inductions, and that the declaration is accepted.
fn write_end(
    alloc: Global,
    out: &mut Vec<u8>,
    sig: &Signature,
    clauses: &[ClauseLine],
    equations: &[(Name, Name)],
    name: &Name,
) -> Result<(), Status>
    ensures ok { OnOk result (out.new.items ≡ out.old.items
        ++ text_of (spec.note_lines sig.now (map clause_line_of clauses.now) equations.now ++ spec.accepted_line name.now ∷ [])) }
    ensures memory { OnErr result (result ≡ Err NoMemory) }
{
    write_notes(alloc, out, sig, clauses, equations)?;
    write_accepted(out, name)
}

/// The lines of a declaration: its entries, from number `from` on, its clauses or the equations of its inductions, and that it is accepted.
#[tactic(auto, using(crate::proofs::elim_program::TextLines::text_both))]
pub(crate) fn accepted_block(
    alloc: Global,
    sig: &Signature,
    from: u32,
    clauses: &[ClauseLine],
    equations: &[(Name, Name)],
    name: &Name,
) -> Result<Block, Status>
    requires { from ≤ length sig.now.entries }
    ensures { Makes result (spec.block (spec.entry_lines sig.now from (length sig.now.entries - from)
        ++ (spec.note_lines sig.now (map clause_line_of clauses.now) equations.now ++ spec.accepted_line name.now ∷ [])) false) }
{
    let mut text = Vec::new(alloc);
    write_entries(alloc, &mut text, sig, from, sig.len() - from)?;
    write_end(alloc, &mut text, sig, clauses, equations, name)?;
    Ok(Block {
        text,
        refused: false,
    })
}
