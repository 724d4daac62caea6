ghost use Rattle.std.specs.Prelude.{◌≡◌, ◌++◌, codes, OnOk};
ghost use Rattle.elab_session.specs.declared.refusal.Refusal.TheVariants.{WrongConstructor, Stuck, Uncovered, Impossible, DotMismatch};
ghost use Rattle.elim.specs.program_texts.Refusals as spec;

use crate::program_texts::refusals::{write_after, write_clause, write_denial, write_number};
use core_terms::Name;
use elab_session::{FailingCall, Refusal, Text};
use std::alloc::AllocError;
use unification::Why;

/// Writes a kind with a clause and a context.
fn write_in(
    out: &mut Vec<u8>,
    kind: &[u8],
    function: &Name,
    clause: u32,
    ctx: &[u8],
) -> Result<(), AllocError>
    ensures { OnOk result (out.new.items ≡ out.old.items ++ (kind.now ++ spec.clause_text function.now clause ++ codes " " ++ ctx.now)) }
{
    write_clause(out, kind, function, clause)?;
    write_after(out, b" ", ctx)
}

fn why_text(why: Why) -> &'static [u8]
    ensures { result.now ≡ spec.why_text why }
{
    match why {
        Why::NeedsK => b"NeedsK",
        Why::NotRigid => b"NotRigid",
        Why::OccursNotRigid => b"OccursNotRigid",
        Why::Depends => b"Depends",
        Why::NeedsIndexEquations => b"NeedsIndexEquations",
    }
}

/// Writes positions, each after a space.
fn write_positions(out: &mut Vec<u8>, positions: &[u32]) -> Result<(), AllocError>
    ensures { OnOk result (out.new.items ≡ out.old.items ++ spec.positions_text positions.now) }
{
    match positions {
        [] => Ok(()),
        [first, rest @ ..] => {
            out.extend_from_slice(b" ")?;
            write_number(out, *first as u64)?;
            write_positions(out, rest)
        }
    }
}

/// Writes positions, and the first call that does not fit them.
fn write_failing_call(out: &mut Vec<u8>, failing: &FailingCall) -> Result<(), AllocError>
    ensures { OnOk result (out.new.items ≡ out.old.items ++ spec.failing_call_text failing.now) }
{
    write_positions(out, failing.positions.as_slice())?;
    write_in(
        out,
        b" ",
        &failing.function,
        failing.clause,
        failing.call.as_slice(),
    )
}

fn write_failing_calls(out: &mut Vec<u8>, calls: &[FailingCall]) -> Result<(), AllocError>
    ensures { OnOk result (out.new.items ≡ out.old.items ++ spec.failing_calls_text calls.now) }
{
    match calls {
        [] => Ok(()),
        [first, rest @ ..] => {
            write_failing_call(out, first)?;
            write_failing_calls(out, rest)
        }
    }
}

/// Writes two sides that are not the same.
pub fn write_sides(
    out: &mut Vec<u8>,
    ctx: &[u8],
    left: &[u8],
    right: &[u8],
) -> Result<(), AllocError>
    ensures { OnOk result (out.new.items ≡ out.old.items ++ spec.sides_text ctx.now left.now right.now) }
{
    out.extend_from_slice(ctx)?;
    write_after(out, b" ", left)?;
    write_after(out, b" = ", right)
}

fn write_wrong_constructor(
    out: &mut Vec<u8>,
    function: &Name,
    clause: u32,
    ctx: &[u8],
    ty: &[u8],
) -> Result<(), AllocError>
    ensures { OnOk result (out.new.items ≡ out.old.items ++ spec.ended_text (WrongConstructor function.now clause ctx.now ty.now)) }
{
    write_in(out, b"WrongConstructor ", function, clause, ctx)?;
    write_after(out, b" ", ty)
}

fn write_stuck(
    out: &mut Vec<u8>,
    function: &Name,
    clause: u32,
    ctx: &Text,
    left: &Text,
    right: &Text,
    why: Why,
) -> Result<(), AllocError>
    ensures { OnOk result (out.new.items ≡ out.old.items ++ spec.ended_text (Stuck function.now clause ctx.now left.now right.now why)) }
{
    write_clause(out, b"Stuck ", function, clause)?;
    out.extend_from_slice(b" ")?;
    write_sides(out, ctx.as_slice(), left.as_slice(), right.as_slice())?;
    write_after(out, b" ", why_text(why))
}

fn write_uncovered(
    out: &mut Vec<u8>,
    function: &[u8],
    ctx: &[u8],
    terms: &[u8],
) -> Result<(), AllocError>
    ensures { OnOk result (out.new.items ≡ out.old.items ++ spec.ended_text (Uncovered function.now ctx.now terms.now)) }
{
    write_after(out, b"Uncovered ", function)?;
    write_after(out, b" ", ctx)?;
    out.extend_from_slice(terms)
}

fn write_impossible(
    out: &mut Vec<u8>,
    function: &Name,
    clause: u32,
    ctx: &Text,
    left: &Text,
    right: &Text,
) -> Result<(), AllocError>
    ensures { OnOk result (out.new.items ≡ out.old.items ++ spec.ended_text (Impossible function.now clause ctx.now left.now right.now)) }
{
    write_clause(out, b"Impossible ", function, clause)?;
    out.extend_from_slice(b" ")?;
    write_sides(out, ctx.as_slice(), left.as_slice(), right.as_slice())
}

/// Writes a written term that is not the forced one.
fn write_written(
    out: &mut Vec<u8>,
    function: &Name,
    clause: u32,
    ctx: &[u8],
    written: &[u8],
) -> Result<(), AllocError>
    ensures { OnOk result (out.new.items ≡ out.old.items
        ++ (codes "DotMismatch " ++ spec.clause_text function.now clause ++ codes " " ++ ctx.now ++ codes " " ++ written.now)) }
{
    write_in(out, b"DotMismatch ", function, clause, ctx)?;
    write_after(out, b" ", written)
}

fn write_mismatch(
    out: &mut Vec<u8>,
    function: &Name,
    clause: u32,
    ctx: &[u8],
    written: &[u8],
    forced: &[u8],
) -> Result<(), AllocError>
    ensures { OnOk result (out.new.items ≡ out.old.items ++ spec.ended_text (DotMismatch function.now clause ctx.now written.now forced.now)) }
{
    write_written(out, function, clause, ctx, written)?;
    write_after(out, b" forced ", forced)
}

fn write_not_smaller(out: &mut Vec<u8>, calls: &[FailingCall]) -> Result<(), AllocError>
    ensures { OnOk result (out.new.items ≡ out.old.items ++ (codes "NotSmaller" ++ spec.failing_calls_text calls.now)) }
{
    out.extend_from_slice(b"NotSmaller")?;
    write_failing_calls(out, calls)
}

fn write_rejected(
    out: &mut Vec<u8>,
    entry: &[u8],
    place: &[u8],
    ctx: &[u8],
    reason: &[u8],
) -> Result<(), AllocError>
    ensures { OnOk result (out.new.items ≡ out.old.items ++ (codes "Rejected " ++ entry.now ++ codes " " ++ spec.denial_text place.now ctx.now reason.now)) }
{
    write_after(out, b"Rejected ", entry)?;
    out.extend_from_slice(b" ")?;
    write_denial(out, place, ctx, reason)
}

/// Writes why a walk or a case tree of a function ends, if the function is refused for that.
fn write_ended(out: &mut Vec<u8>, refusal: &Refusal) -> Result<(), AllocError>
    ensures { OnOk result (out.new.items ≡ out.old.items ++ spec.ended_text refusal.now) }
{
    match refusal {
        Refusal::WrongConstructor {
            function,
            clause,
            ctx,
            ty,
        } => write_wrong_constructor(out, function, *clause, ctx.as_slice(), ty.as_slice()),
        Refusal::Stuck {
            function,
            clause,
            ctx,
            left,
            right,
            why,
        } => write_stuck(out, function, *clause, ctx, left, right, *why),
        Refusal::Uncovered {
            function,
            ctx,
            terms,
        } => write_uncovered(out, function.as_slice(), ctx.as_slice(), terms.as_slice()),
        Refusal::NotAbsurd {
            function,
            clause,
            con,
        } => write_in(out, b"NotAbsurd ", function, *clause, con.as_slice()),
        Refusal::Impossible {
            function,
            clause,
            ctx,
            left,
            right,
        } => write_impossible(out, function, *clause, ctx, left, right),
        Refusal::DotMismatch {
            function,
            clause,
            ctx,
            written,
            forced,
        } => write_mismatch(
            out,
            function,
            *clause,
            ctx.as_slice(),
            written.as_slice(),
            forced.as_slice(),
        ),
        _ => Ok(()),
    }
}

/// Writes why a function is refused, if it is for a reason that only functions have.
pub fn write_function(out: &mut Vec<u8>, refusal: &Refusal) -> Result<(), AllocError>
    ensures { OnOk result (out.new.items ≡ out.old.items ++ spec.function_text refusal.now) }
{
    match refusal {
        Refusal::SelfInType { function, clause } => {
            write_clause(out, b"SelfInType ", function, *clause)
        }
        Refusal::NotSmaller(calls) => write_not_smaller(out, calls.as_slice()),
        Refusal::Rejected {
            entry,
            place,
            ctx,
            reason,
            ..
        } => write_rejected(
            out,
            entry.as_slice(),
            place.as_slice(),
            ctx.as_slice(),
            reason.as_slice(),
        ),
        other => write_ended(out, other),
    }
}
