ghost use Rattle.std.specs.Prelude.{◌≡◌, ◌++◌, codes, decimal, OnOk};
ghost use Rattle.std.specs.Option.{option_copied};
ghost use Rattle.elim.specs.program_texts.Lines.{text_of};
ghost use Rattle.elim.specs.program_texts.Refusals as spec;

use crate::program_texts::TextStop;
use crate::program_texts::refused_functions::{write_function, write_sides};
use core_terms::Name;
use elab_session::{PartName, Refusal};
use std::alloc::AllocError;

pub fn write_number(out: &mut Vec<u8>, n: u64) -> Result<(), AllocError>
    ensures { OnOk result (out.new.items ≡ out.old.items ++ decimal n) }
{
    let text = format!(in *out.allocator(); "{n}")?;
    out.extend_from_slice(text.as_bytes())
}

/// Writes a kind and a number.
fn write_at(out: &mut Vec<u8>, kind: &[u8], offset: u32) -> Result<(), AllocError>
    ensures { OnOk result (out.new.items ≡ out.old.items ++ (kind.now ++ decimal offset)) }
{
    out.extend_from_slice(kind)?;
    write_number(out, offset as u64)
}

/// Writes a kind with the place and the spelling of a name.
fn write_word(out: &mut Vec<u8>, kind: &[u8], offset: u32, word: &Name) -> Result<(), AllocError>
    ensures { OnOk result (out.new.items ≡ out.old.items ++ (kind.now ++ decimal offset ++ codes " " ++ word.now)) }
{
    write_at(out, kind, offset)?;
    out.extend_from_slice(b" ")?;
    out.extend_from_slice(word.as_slice())
}

/// Writes a kind with a name and the number of an argument.
fn write_argument(out: &mut Vec<u8>, kind: &[u8], owner: &[u8], k: u32) -> Result<(), AllocError>
    ensures { OnOk result (out.new.items ≡ out.old.items ++ (kind.now ++ owner.now ++ codes " " ++ decimal k)) }
{
    out.extend_from_slice(kind)?;
    out.extend_from_slice(owner)?;
    out.extend_from_slice(b" ")?;
    write_number(out, k as u64)
}

pub fn write_place(out: &mut Vec<u8>, place: &[u8]) -> Result<(), AllocError>
    ensures { OnOk result (out.new.items ≡ out.old.items ++ spec.place_text place.now) }
{
    match place {
        [] => out.extend_from_slice(b"-"),
        [n] => write_number(out, *n as u64),
        [n, rest @ ..] => {
            write_number(out, *n as u64)?;
            out.extend_from_slice(b".")?;
            write_place(out, rest)
        }
    }
}

/// Writes a text after another one.
pub fn write_after(out: &mut Vec<u8>, before: &[u8], text: &[u8]) -> Result<(), AllocError>
    ensures { OnOk result (out.new.items ≡ out.old.items ++ (before.now ++ text.now)) }
{
    out.extend_from_slice(before)?;
    out.extend_from_slice(text)
}

/// Writes a kind, a function or helper, and the number of its clause.
pub fn write_clause(
    out: &mut Vec<u8>,
    kind: &[u8],
    function: &Name,
    clause: u32,
) -> Result<(), AllocError>
    ensures { OnOk result (out.new.items ≡ out.old.items ++ (kind.now ++ spec.clause_text function.now clause)) }
{
    write_after(out, kind, function.as_slice())?;
    out.extend_from_slice(b" ")?;
    write_number(out, clause as u64)
}

fn write_part(out: &mut Vec<u8>, part: &PartName) -> Result<(), AllocError>
    ensures { OnOk result (out.new.items ≡ out.old.items ++ spec.part_text part.now) }
{
    match part {
        PartName::Ty => out.extend_from_slice(b"type"),
        PartName::Body => out.extend_from_slice(b"body"),
        PartName::Param(k) => write_at(out, b"param ", *k),
        PartName::Con(name) => write_after(out, b"con ", name.as_slice()),
        PartName::Dot(function, clause) => write_clause(out, b"dot ", function, *clause),
        PartName::Side(function, clause) => write_clause(out, b"side ", function, *clause),
        PartName::With(function, clause) => write_clause(out, b"with ", function, *clause),
        PartName::Goal(function, clause) => write_clause(out, b"goal ", function, *clause),
    }
}

/// Writes where and why the checker rejects something.
pub fn write_denial(
    out: &mut Vec<u8>,
    place: &[u8],
    ctx: &[u8],
    reason: &[u8],
) -> Result<(), AllocError>
    ensures { OnOk result (out.new.items ≡ out.old.items ++ spec.denial_text place.now ctx.now reason.now) }
{
    write_place(out, place)?;
    write_after(out, b" ", ctx)?;
    write_after(out, b" ", reason)
}

/// Writes the part that the checker rejects.
fn write_ill_typed(
    out: &mut Vec<u8>,
    part: &PartName,
    place: &[u8],
    ctx: &[u8],
    reason: &[u8],
) -> Result<(), AllocError>
    ensures { OnOk result (out.new.items ≡ out.old.items
        ++ (codes "IllTyped " ++ spec.part_text part.now ++ codes " " ++ spec.denial_text place.now ctx.now reason.now)) }
{
    out.extend_from_slice(b"IllTyped ")?;
    write_part(out, part)?;
    out.extend_from_slice(b" ")?;
    write_denial(out, place, ctx, reason)
}

/// Writes which equation of the induction of a member does not hold by conversion.
fn write_unequal(
    out: &mut Vec<u8>,
    member: &[u8],
    con: &[u8],
    ctx: &[u8],
    left: &[u8],
    right: &[u8],
) -> Result<(), AllocError>
    ensures { OnOk result (out.new.items ≡ out.old.items
        ++ (codes "Unequal " ++ member.now ++ codes " " ++ con.now ++ codes " " ++ spec.sides_text ctx.now left.now right.now)) }
{
    write_after(out, b"Unequal ", member)?;
    write_after(out, b" ", con)?;
    out.extend_from_slice(b" ")?;
    write_sides(out, ctx, left, right)
}

/// Writes why families that refer to each other or a function are refused.
fn write_mutual(out: &mut Vec<u8>, refusal: &Refusal) -> Result<(), AllocError>
    ensures { OnOk result (out.new.items ≡ out.old.items ++ spec.mutual_text refusal.now) }
{
    match refusal {
        Refusal::TagCount(count) => write_at(out, b"TagCount ", *count),
        Refusal::MemberLevel(k) => write_at(out, b"MemberLevel ", *k),
        Refusal::Unequal {
            member,
            con,
            ctx,
            left,
            right,
        } => write_unequal(
            out,
            member.as_slice(),
            con.as_slice(),
            ctx.as_slice(),
            left.as_slice(),
            right.as_slice(),
        ),
        other => write_function(out, other),
    }
}

/// Writes why a decision of equality, families that refer to each other or a function are refused.
fn write_undecided(out: &mut Vec<u8>, refusal: &Refusal) -> Result<(), AllocError>
    ensures { OnOk result (out.new.items ≡ out.old.items ++ spec.undecided_text refusal.now) }
{
    match refusal {
        Refusal::NotPlainFamily(word) => write_after(out, b"NotPlainFamily ", word.as_slice()),
        Refusal::NotDecision(word) => write_after(out, b"NotDecision ", word.as_slice()),
        Refusal::NotFirstOrder(name, k) => {
            write_argument(out, b"NotFirstOrder ", name.as_slice(), *k)
        }
        other => write_mutual(out, other),
    }
}

/// Writes why a declaration is refused.
fn write_refusal(out: &mut Vec<u8>, refusal: &Refusal) -> Result<(), AllocError>
    ensures { OnOk result (out.new.items ≡ out.old.items ++ spec.refusal_text refusal.now) }
{
    match refusal {
        Refusal::Memory => out.extend_from_slice(b"Memory"),
        Refusal::Fuel(units) => {
            out.extend_from_slice(b"Fuel ")?;
            write_number(out, *units)
        }
        Refusal::Deep => out.extend_from_slice(b"Deep"),
        Refusal::UnknownName(offset, word) => write_word(out, b"UnknownName ", *offset, word),
        Refusal::Duplicate(offset, word) => write_word(out, b"Duplicate ", *offset, word),
        Refusal::WrongArity(offset, word) => write_word(out, b"WrongArity ", *offset, word),
        Refusal::NotLinear(offset, word) => write_word(out, b"NotLinear ", *offset, word),
        Refusal::BadFamily => out.extend_from_slice(b"BadFamily"),
        Refusal::NotPositive(name, k) => {
            write_argument(out, b"NotPositive ", name.as_slice(), *k)
        }
        Refusal::IndexTooLarge(None, k) => write_argument(out, b"IndexTooLarge ", b"-", *k),
        Refusal::IndexTooLarge(Some(name), k) => {
            write_argument(out, b"IndexTooLarge ", name.as_slice(), *k)
        }
        Refusal::IllTyped {
            part,
            place,
            ctx,
            reason,
        } => write_ill_typed(
            out,
            part,
            place.as_slice(),
            ctx.as_slice(),
            reason.as_slice(),
        ),
        other => write_undecided(out, other),
    }
}

/// Writes the line of a declaration that is refused.
pub fn write_refusal_line(
    out: &mut Vec<u8>,
    name: &Name,
    refusal: &Refusal,
) -> Result<(), AllocError>
    ensures { OnOk result (out.new.items ≡ out.old.items ++ (spec.refusal_line name.now refusal.now ++ codes "\n")) }
{
    write_after(out, b"# refused ", name.as_slice())?;
    out.extend_from_slice(b" ")?;
    write_refusal(out, refusal)?;
    out.extend_from_slice(b"\n")
}

/// The core line of an entry that the checker rejects.
fn candidate_of(refusal: &Refusal) -> Option<&[u8]>
    ensures { option_copied result ≡ spec.candidate_of refusal.now }
{
    match refusal {
        Refusal::Rejected { line, .. } => Some(line.as_slice()),
        _ => None,
    }
}

/// Writes the lines of a declaration that is refused.
pub fn write_refused(out: &mut Vec<u8>, name: &Name, refusal: &Refusal) -> Result<(), AllocError>
    ensures { OnOk result (out.new.items ≡ out.old.items ++ text_of (spec.refused_lines name.now refusal.now)) }
{
    if let Some(line) = candidate_of(refusal) {
        write_after(out, b"# candidate ", line)?;
        out.extend_from_slice(b"\n")?;
    }
    write_refusal_line(out, name, refusal)
}

/// Writes why a source file is refused at one of its bytes, or whole.
pub fn write_stop(out: &mut Vec<u8>, stop: TextStop) -> Result<(), AllocError>
    ensures { OnOk result (out.new.items ≡ out.old.items ++ spec.stop_text stop) }
{
    match stop {
        TextStop::Memory => out.extend_from_slice(b"Memory"),
        TextStop::TooLong => out.extend_from_slice(b"TooLong 1048576"),
        TextStop::NotUtf8(offset) => write_at(out, b"NotUtf8 ", offset),
        TextStop::BadToken(offset) => write_at(out, b"BadToken ", offset),
        TextStop::Nested(offset) => write_at(out, b"Nested ", offset),
        TextStop::Syntax(offset) => write_at(out, b"Syntax ", offset),
        TextStop::NotCoreText(offset) => write_at(out, b"NotCoreText ", offset),
    }
}
