ghost use Rattle.std.specs.Prelude.{◌≡◌, ◌+◌, ◌++◌, codes, decimal, map, Err, OnErr, OnOk};
ghost use Rattle.clause_lines.specs.LineMeanings.{leaf_shown, line_of};
ghost use Rattle.core_terms.specs.Meanings.{tele_of};
ghost use Rattle.core_text.specs.SymbolNames.{name_at};
ghost use Rattle.core_text.specs.TermText.{spaced};
ghost use Rattle.elim.specs.program_texts.ClauseTexts as spec;
ghost use Rattle.elim.specs.program_texts.Lines.{text_of};
ghost use Rattle.elim.specs.declared.program_texts.status.Status.TheVariants.{NoMemory};
ghost use Rattle.function_session.specs.function_lines.LineMeanings.{clause_line_of};

use crate::program_texts::{Status, write_number};
use clause_lines::Line;
use core_sig::Signature;
use core_terms::{Tele, Term};
use core_text::{context_text, print_term};
use function_session::function_lines::ClauseLine;
use std::alloc::Global;

fn write_terms(
    alloc: Global,
    out: &mut Vec<u8>,
    sig: &Signature,
    terms: &[Term],
) -> Result<(), Status>
    ensures ok { OnOk result (out.new.items ≡ out.old.items ++ spaced sig.now (tele_of terms.now)) }
    ensures memory { OnErr result (result ≡ Err NoMemory) }
{
    match terms {
        [] => Ok(()),
        [first, rest @ ..] => {
            let text = print_term(alloc, sig, first)?;
            out.extend_from_slice(b" ")?;
            out.extend_from_slice(text.as_slice())?;
            write_terms(alloc, out, sig, rest)
        }
    }
}

/// Writes a context and terms over it, each after a space.
fn write_vector(
    alloc: Global,
    out: &mut Vec<u8>,
    sig: &Signature,
    ctx: &[Term],
    terms: &[Term],
) -> Result<(), Status>
    ensures ok { OnOk result (out.new.items ≡ out.old.items ++ spec.vector_text sig.now (tele_of ctx.now) (tele_of terms.now)) }
    ensures memory { OnErr result (result ≡ Err NoMemory) }
{
    let text = context_text(alloc, sig, ctx)?;
    out.extend_from_slice(text.as_slice())?;
    write_terms(alloc, out, sig, terms)
}

/// Writes that an entry proves the equation.
fn write_proved(alloc: Global, out: &mut Vec<u8>, sig: &Signature, entry: u32) -> Result<(), Status>
    ensures ok { OnOk result (out.new.items ≡ out.old.items ++ (codes "proved " ++ name_at sig.now entry)) }
    ensures memory { OnErr result (result ≡ Err NoMemory) }
{
    let text = print_term(alloc, sig, &Term::Const(entry))?;
    out.extend_from_slice(b"proved ")?;
    out.extend_from_slice(text.as_slice())?;
    Ok(())
}

/// Writes which clause takes the arguments that are shown, and these arguments.
fn write_shadowed(
    alloc: Global,
    out: &mut Vec<u8>,
    sig: &Signature,
    earlier: u32,
    ctx: &[Term],
    vector: &[Term],
) -> Result<(), Status>
    ensures ok { OnOk result (out.new.items ≡ out.old.items
        ++ (codes "shadowed " ++ decimal (earlier + 1) ++ codes " at " ++ spec.vector_text sig.now (tele_of ctx.now) (tele_of vector.now))) }
    ensures memory { OnErr result (result ≡ Err NoMemory) }
{
    out.extend_from_slice(b"shadowed ")?;
    write_number(out, earlier as u64 + 1)?;
    out.extend_from_slice(b" at ")?;
    write_vector(alloc, out, sig, ctx, vector)
}

/// Writes what holds of a clause.
fn write_line(alloc: Global, out: &mut Vec<u8>, sig: &Signature, line: &Line) -> Result<(), Status>
    ensures ok { OnOk result (out.new.items ≡ out.old.items ++ spec.line_text sig.now (line_of line.now)) }
    ensures memory { OnErr result (result ≡ Err NoMemory) }
{
    match line {
        Line::Definitional => Ok(out.extend_from_slice(b"definitional")?),
        Line::Proved(entry) => write_proved(alloc, out, sig, *entry),
        Line::Shadowed {
            earlier,
            ctx,
            vector,
            ..
        } => write_shadowed(alloc, out, sig, *earlier, ctx.as_slice(), vector.as_slice()),
        Line::Absurd => Ok(out.extend_from_slice(b"absurd")?),
    }
}

/// Writes the function or helper, and the number of a clause.
fn write_owner(out: &mut Vec<u8>, clause: &ClauseLine) -> Result<(), Status>
    ensures ok { OnOk result (out.new.items ≡ out.old.items
        ++ (codes "# clause " ++ clause.now.function ++ codes " " ++ decimal clause.now.clause ++ codes " ")) }
    ensures memory { OnErr result (result ≡ Err NoMemory) }
{
    out.extend_from_slice(b"# clause ")?;
    out.extend_from_slice(clause.function.as_slice())?;
    out.extend_from_slice(b" ")?;
    write_number(out, clause.clause as u64)?;
    out.extend_from_slice(b" ")?;
    Ok(())
}

/// Writes the line of a leaf.
fn write_leaf(
    alloc: Global,
    out: &mut Vec<u8>,
    sig: &Signature,
    leaf: &(Tele, Tele),
) -> Result<(), Status>
    ensures ok { OnOk result (out.new.items ≡ out.old.items ++ (spec.leaf_line sig.now (leaf_shown leaf.now) ++ codes "\n")) }
    ensures memory { OnErr result (result ≡ Err NoMemory) }
{
    out.extend_from_slice(b"# leaf ")?;
    write_vector(alloc, out, sig, leaf.0.as_slice(), leaf.1.as_slice())?;
    out.extend_from_slice(b"\n")?;
    Ok(())
}

/// Writes the lines of leaves.
fn write_leaves(
    alloc: Global,
    out: &mut Vec<u8>,
    sig: &Signature,
    leaves: &[(Tele, Tele)],
) -> Result<(), Status>
    ensures ok { OnOk result (out.new.items ≡ out.old.items ++ text_of (map (spec.leaf_line sig.now) (map leaf_shown leaves.now))) }
    ensures memory { OnErr result (result ≡ Err NoMemory) }
{
    match leaves {
        [] => Ok(()),
        [first, rest @ ..] => {
            write_leaf(alloc, out, sig, first)?;
            write_leaves(alloc, out, sig, rest)
        }
    }
}

/// Writes the lines of the leaves of a clause that is shadowed.
fn write_leaves_of(
    alloc: Global,
    out: &mut Vec<u8>,
    sig: &Signature,
    line: &Line,
) -> Result<(), Status>
    ensures ok { OnOk result (out.new.items ≡ out.old.items ++ text_of (spec.leaf_lines sig.now (line_of line.now))) }
    ensures memory { OnErr result (result ≡ Err NoMemory) }
{
    match line {
        Line::Shadowed { leaves, .. } => write_leaves(alloc, out, sig, leaves.as_slice()),
        Line::Definitional | Line::Proved(_) | Line::Absurd => Ok(()),
    }
}

/// Writes the line of a clause.
fn write_clause(
    alloc: Global,
    out: &mut Vec<u8>,
    sig: &Signature,
    clause: &ClauseLine,
) -> Result<(), Status>
    ensures ok { OnOk result (out.new.items ≡ out.old.items ++ (spec.clause_line sig.now (clause_line_of clause.now) ++ codes "\n")) }
    ensures memory { OnErr result (result ≡ Err NoMemory) }
{
    write_owner(out, clause)?;
    write_line(alloc, out, sig, &clause.line)?;
    out.extend_from_slice(b"\n")?;
    Ok(())
}

/// Writes the line of a clause, and those of its leaves.
fn write_with_leaves(
    alloc: Global,
    out: &mut Vec<u8>,
    sig: &Signature,
    clause: &ClauseLine,
) -> Result<(), Status>
    ensures ok { OnOk result (out.new.items ≡ out.old.items ++ text_of (spec.with_leaves sig.now (clause_line_of clause.now))) }
    ensures memory { OnErr result (result ≡ Err NoMemory) }
{
    write_clause(alloc, out, sig, clause)?;
    write_leaves_of(alloc, out, sig, &clause.line)
}

/// Writes the lines of clauses, each followed by its leaves.
pub(crate) fn write_clauses(
    alloc: Global,
    out: &mut Vec<u8>,
    sig: &Signature,
    clauses: &[ClauseLine],
) -> Result<(), Status>
    ensures ok { OnOk result (out.new.items ≡ out.old.items ++ spec.clauses_text sig.now (map clause_line_of clauses.now)) }
    ensures memory { OnErr result (result ≡ Err NoMemory) }
{
    match clauses {
        [] => Ok(()),
        [first, rest @ ..] => {
            write_with_leaves(alloc, out, sig, first)?;
            write_clauses(alloc, out, sig, rest)
        }
    }
}
