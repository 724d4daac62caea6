//! The refusal of a declaration that is a function by clauses.
ghost use Rattle.std.specs.Prelude.{◌≡◌, ℕ, Ok, map};
ghost use Rattle.core_terms.specs.Answers.{Gives, Unless};
ghost use Rattle.elab_session.specs.Refusals.{IsUnforeseen};
ghost use Rattle.function_checks.specs.function_refusals.RefusalMeanings.{failing_of, part_of, refusal_of};
ghost use Rattle.function_session.specs.Refusals as spec;
ghost use Rattle.elab_session.specs.declared.refusal.Refusal.TheVariants.{WrongConstructor, Stuck, NotAbsurd, Impossible, DotMismatch, NotSmaller};

use core_terms::{Items, Name, Stop};
use elab_session::{FailingCall, PartName, Refusal, Text, stopped};
use function_checks::function_refusals::{
    FailingCall as FunctionCall, FunctionRefusal, Owner, WrittenPart,
};
use std::alloc::Global;
use unification::Why;

fn part_name(part: WrittenPart) -> PartName
    ensures { result ≡ spec.part_name (part_of part) }
{
    match part {
        WrittenPart::Type => PartName::Ty,
        WrittenPart::Dot(owner) => PartName::Dot(owner.function, owner.clause),
        WrittenPart::Side(owner) => PartName::Side(owner.function, owner.clause),
        WrittenPart::With(owner) => PartName::With(owner.function, owner.clause),
        WrittenPart::Goal(owner) => PartName::Goal(owner.function, owner.clause),
    }
}

fn failing_call(alloc: Global, failing: FunctionCall) -> Result<FailingCall, Stop>
    ensures { Gives (λ call. call) result (Ok (spec.failing_call (failing_of failing))) }
{
    let FunctionCall {
        position,
        owner,
        call,
    } = failing;
    let mut positions = Items::new(alloc);
    positions.push(position)?;
    Ok(FailingCall {
        positions,
        function: owner.function,
        clause: owner.clause,
        call,
    })
}

fn failing_calls(alloc: Global, calls: Items<FunctionCall>) -> Result<Items<FailingCall>, Stop>
    ensures { Gives (λ calls. calls) result (Ok (map spec.failing_call (map failing_of calls))) }
{
    let mut made = Items::new(alloc);
    for call in calls.into_vec() {
        made.push(failing_call(alloc, call)?)?;
    }
    Ok(made)
}

/// No position is usable; or Memory where there is none for the calls.
fn not_smaller(alloc: Global, calls: Items<FunctionCall>) -> Refusal
    ensures { Unless (IsUnforeseen result) (result ≡ NotSmaller (map spec.failing_call (map failing_of calls))) }
{
    match failing_calls(alloc, calls) {
        Ok(calls) => Refusal::NotSmaller(calls),
        Err(_) => Refusal::Memory,
    }
}

fn wrong_constructor(owner: Owner, ctx: Text, ty: Text) -> Refusal
    ensures { result ≡ WrongConstructor owner.function owner.clause ctx ty }
{
    Refusal::WrongConstructor {
        function: owner.function,
        clause: owner.clause,
        ctx,
        ty,
    }
}

fn stuck(owner: Owner, ctx: Text, left: Text, right: Text, why: Why) -> Refusal
    ensures { result ≡ Stuck owner.function owner.clause ctx left right why }
{
    Refusal::Stuck {
        function: owner.function,
        clause: owner.clause,
        ctx,
        left,
        right,
        why,
    }
}

fn not_absurd(owner: Owner, con: Text) -> Refusal
    ensures { result ≡ NotAbsurd owner.function owner.clause con }
{
    Refusal::NotAbsurd {
        function: owner.function,
        clause: owner.clause,
        con: Name::from_vec(con.into_vec()),
    }
}

fn impossible(owner: Owner, ctx: Text, left: Text, right: Text) -> Refusal
    ensures { result ≡ Impossible owner.function owner.clause ctx left right }
{
    Refusal::Impossible {
        function: owner.function,
        clause: owner.clause,
        ctx,
        left,
        right,
    }
}

fn mismatch(owner: Owner, ctx: Text, written: Text, forced: Text) -> Refusal
    ensures { result ≡ DotMismatch owner.function owner.clause ctx written forced }
{
    Refusal::DotMismatch {
        function: owner.function,
        clause: owner.clause,
        ctx,
        written,
        forced,
    }
}

/// A walk or a tree of a function ends.
fn ended(refusal: FunctionRefusal) -> Refusal
    requires { spec.IsEnd (refusal_of refusal) }
    ensures { (fuel : ℕ) → result ≡ spec.refused_function fuel (refusal_of refusal) }
{
    match refusal {
        FunctionRefusal::WrongConstructor { owner, ctx, ty } => wrong_constructor(owner, ctx, ty),
        FunctionRefusal::Stuck {
            owner,
            ctx,
            left,
            right,
            why,
        } => stuck(owner, ctx, left, right, why),
        FunctionRefusal::Uncovered {
            function,
            ctx,
            vector,
        } => Refusal::Uncovered {
            function,
            ctx,
            terms: vector,
        },
        FunctionRefusal::NotAbsurd { owner, con } => not_absurd(owner, con),
        FunctionRefusal::Impossible {
            owner,
            ctx,
            left,
            right,
        } => impossible(owner, ctx, left, right),
        FunctionRefusal::DotMismatch {
            owner,
            ctx,
            written,
            forced,
        } => mismatch(owner, ctx, written, forced),
        _ => Refusal::Memory,
    }
}

/// Why a function that may spend `fuel` units is refused.
pub(crate) fn refused_function(alloc: Global, fuel: u64, refusal: FunctionRefusal) -> Refusal
    ensures { Unless (IsUnforeseen result) (result ≡ spec.refused_function fuel (refusal_of refusal)) }
{
    match refusal {
        FunctionRefusal::Stop(stop) => stopped(fuel, stop),
        FunctionRefusal::IllTyped {
            part,
            place,
            ctx,
            reason,
        } => Refusal::IllTyped {
            part: part_name(part),
            place,
            ctx,
            reason,
        },
        FunctionRefusal::SelfInType(owner) => Refusal::SelfInType {
            function: owner.function,
            clause: owner.clause,
        },
        FunctionRefusal::NotSmaller(calls) => not_smaller(alloc, calls),
        FunctionRefusal::Rejected {
            entry,
            line,
            place,
            ctx,
            reason,
        } => Refusal::Rejected {
            entry,
            line,
            place,
            ctx,
            reason,
        },
        other => ended(other),
    }
}
