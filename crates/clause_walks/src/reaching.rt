ghost use Rattle.std.specs.Prelude.{true, ◌≡◌, ◌≤◌, ◌<◌, ◌+◌, length, option_and_then, option_map, slice_get, [], IfOk, IfSome, Ok, Some};
ghost use Rattle.core_terms.specs.Answers.{Gives, Runs as RunsAs};
ghost use Rattle.core_terms.specs.Meanings.{tree_of, tele_of};
ghost use Rattle.core_terms.specs.PatternMeanings.{pat_of};
ghost use Rattle.kernel_reduce.specs.Reduction.{whnf_of};
ghost use Rattle.unification.specs.ScopedStates.{IsReady};
ghost use Rattle.problems.specs.Conditions.{IsGiven};
ghost use Rattle.case_trees.specs.Looking as looking;
ghost use Rattle.case_trees.specs.Problems.{member_of as member_meant_of, type_of_variable as type_meant};
ghost use Rattle.problems.specs.MemberConditions.{IsContext, IsMember};
ghost use Rattle.clause_walks.specs.LookMeanings.{looked_of, reach_of, runs_of};
ghost use Rattle.problems.specs.MemberMeanings.{member_meant};
ghost use Rattle.clause_walks.specs.Reaching as spec;
ghost use Rattle.clause_walks.specs.Stops.{Tells, Yields};

use crate::running::{Ran, Runs, StuckRun, run_from};
use crate::stops::TreeStop;
use core_sig::Signature;
use core_terms::{Items, Pat, Stop, Term, copy_tele, copy_whole};
use kernel_check::Kernel;
use problems::{Member, member_of, type_of_variable};
use std::alloc::Global;

/// The reduced type of a variable, and the family that it is.
#[derive(Drop)]
pub struct Looked<'a> {
    pub ty: Term,
    pub member: Member<'a>,
}

/// A variable that an open pair has, its type and the number of the type's family, the number of the pattern's own constructor, where
/// that one alone was run, and the runs, none of which is stuck.
#[derive(Debug, Drop)]
pub struct Reached {
    pub variable: u32,
    pub ty: Term,
    pub family: u32,
    pub own: Option<u32>,
    pub runs: Items<Ran>,
}

/// The result of the look at a variable.
#[derive(Debug, Drop)]
pub(crate) enum Reach {
    Found(Reached),
    Passed(StuckRun),
}

/// The type of a variable, reduced.
fn reduced_type(alloc: Global, ctx: &[Term], x: u32, kernel: &mut Kernel<'_>) -> Result<Term, Stop>
    requires ready { IsReady kernel.old.signature }
    requires context { IsContext kernel.old.signature (tele_of ctx.now) }
    requires variable { x < length ctx.now }
    ensures answer { RunsAs tree_of result kernel.new.left (whnf_of kernel.old.signature true kernel.old.left (type_meant (tele_of ctx.now) x)) }
    ensures sum { kernel.new.left + kernel.new.spent ≡ kernel.old.left + kernel.old.spent }
    ensures spends { kernel.new.left ≤ kernel.old.left }
    ensures kernel { kernel.new.signature ≡ kernel.old.signature }
    ensures given { IfOk result (λ t. IsGiven kernel.old.signature (length ctx.now) (tree_of t)) }
{
    let ty = type_of_variable(alloc, ctx, x)?;
    kernel.whnf(&ty)
}

/// Whether the pattern may be there, where a variable has a type of the family.
fn is_expected(pat: &Pat, number: u32) -> bool
    ensures { result ≡ spec.expects (pat_of pat.now) number }
{
    match pat {
        Pat::Con(family, _, _) => *family == number,
        _ => true,
    }
}

/// The family that a type is, where the pattern may be there.
fn expected<'a>(
    alloc: Global,
    sig: &'a Signature,
    n: u32,
    pat: &Pat,
    ty: &Term,
) -> Result<Option<Member<'a>>, Stop>
    requires { IsGiven sig.now n (tree_of ty.now) }
    ensures answer { Gives (option_map member_meant) result (Ok (option_and_then (looking.if_expected (pat_of pat.now)) (member_meant_of sig.now (tree_of ty.now)))) }
    ensures member { IfOk result (λ found. IfSome found (IsMember sig.now n)) }
{
    let found = member_of(alloc, sig, ty)?;
    Ok(unless_other(pat, found))
}

/// The family, where the pattern may be there.
fn unless_other<'a>(pat: &Pat, found: Option<Member<'a>>) -> Option<Member<'a>>
    ensures answer { option_map member_meant result ≡ option_and_then (looking.if_expected (pat_of pat.now)) (option_map member_meant found.entry) }
    ensures member { IfSome result (λ m. found.entry ≡ Some m) }
{
    match found {
        Some(member) => {
            if is_expected(pat, member.number) {
                Some(member)
            } else {
                None
            }
        }
        None => None,
    }
}

/// The type of a variable as a family that the pattern expects, or WrongConstructor.
fn looked_at<'a>(
    alloc: Global,
    sig: &'a Signature,
    clause: u32,
    ctx: &[Term],
    pat: &Pat,
    ty: Term,
) -> Result<Looked<'a>, TreeStop>
    requires few { length ctx.now ≤ 2147400000 }
    requires given { IsGiven sig.now (length ctx.now) (tree_of ty) }
    ensures answer { Tells looked_of result (looking.looked_at clause (tele_of ctx.now) (tree_of ty) (option_and_then (looking.if_expected (pat_of pat.now)) (member_meant_of sig.now (tree_of ty)))) }
    ensures member { IfOk result (λ l. IsMember sig.now (length ctx.now) l.member) }
{
    match expected(alloc, sig, ctx.len() as u32, pat, &ty)? {
        Some(member) => Ok(Looked { ty, member }),
        None => Err(TreeStop::WrongConstructor {
            clause,
            ctx: copy_tele(alloc, ctx)?,
            ty,
        }),
    }
}

/// The type of a variable is reduced, and is the family that the pattern expects, or WrongConstructor.
pub(crate) fn look_at_type<'a>(
    alloc: Global,
    sig: &'a Signature,
    clause: u32,
    ctx: &[Term],
    pat: &Pat,
    x: u32,
    kernel: &mut Kernel<'_>,
) -> Result<Looked<'a>, TreeStop>
    requires kernel { kernel.old.signature ≡ sig.now }
    requires ready { IsReady sig.now }
    requires context { IsContext sig.now (tele_of ctx.now) }
    requires variable { x < length ctx.now }
    ensures answer { Yields looked_of result kernel.new.left (looking.look_at_type sig.now clause (tele_of ctx.now) (pat_of pat.now) x kernel.old.left) }
    ensures sum { kernel.new.left + kernel.new.spent ≡ kernel.old.left + kernel.old.spent }
    ensures spends { kernel.new.left ≤ kernel.old.left }
    ensures kernel { kernel.new.signature ≡ sig.now }
    ensures member { IfOk result (λ l. IsMember sig.now (length ctx.now) l.member) }
{
    let ty = reduced_type(alloc, ctx, x, kernel)?;
    looked_at(alloc, sig, clause, ctx, pat, ty)
}

/// The run of one constructor, or WrongConstructor where there is none with the number.
fn run_wanted(
    alloc: Global,
    sig: &Signature,
    clause: u32,
    ctx: &[Term],
    x: u32,
    found: &Looked,
    number: u32,
    kernel: &mut Kernel<'_>,
) -> Result<Runs, TreeStop>
    requires kernel { kernel.old.signature ≡ sig.now }
    requires ready { IsReady sig.now }
    requires context { IsContext sig.now (tele_of ctx.now) }
    requires variable { x < length ctx.now }
    requires member { IsMember sig.now (length ctx.now) found.now.member }
    ensures answer { Yields runs_of result kernel.new.left (spec.ends_behind [] (spec.run_wanted sig.now clause (tele_of ctx.now) x (looked_of found.now) number (slice_get (looked_of found.now).member.family.constructors number) kernel.old.left)) }
    ensures sum { kernel.new.left + kernel.new.spent ≡ kernel.old.left + kernel.old.spent }
    ensures spends { kernel.new.left ≤ kernel.old.left }
    ensures kernel { kernel.new.signature ≡ sig.now }
{
    let cons = found.member.family.cons.as_slice();
    let at = number as usize;
    if at >= cons.len() {
        return Err(TreeStop::WrongConstructor {
            clause,
            ctx: copy_tele(alloc, ctx)?,
            ty: copy_whole(alloc, &found.ty)?,
        });
    }
    let one = &cons[at..at + 1];
    run_from(
        alloc,
        sig,
        ctx,
        x,
        &found.member,
        number,
        one,
        Items::new(alloc),
        kernel,
    )
}

/// The runs of the wanted constructor, or of all.
fn wanted_runs(
    alloc: Global,
    sig: &Signature,
    clause: u32,
    ctx: &[Term],
    x: u32,
    found: &Looked,
    wanted: Option<u32>,
    kernel: &mut Kernel<'_>,
) -> Result<Runs, TreeStop>
    requires kernel { kernel.old.signature ≡ sig.now }
    requires ready { IsReady sig.now }
    requires context { IsContext sig.now (tele_of ctx.now) }
    requires variable { x < length ctx.now }
    requires member { IsMember sig.now (length ctx.now) found.now.member }
    ensures answer { Yields runs_of result kernel.new.left (spec.ends_behind [] (spec.wanted_runs sig.now clause (tele_of ctx.now) x (looked_of found.now) wanted kernel.old.left)) }
    ensures sum { kernel.new.left + kernel.new.spent ≡ kernel.old.left + kernel.old.spent }
    ensures spends { kernel.new.left ≤ kernel.old.left }
    ensures kernel { kernel.new.signature ≡ sig.now }
{
    match wanted {
        Some(number) => run_wanted(alloc, sig, clause, ctx, x, found, number, kernel),
        None => {
            let cons = found.member.family.cons.as_slice();
            run_from(
                alloc,
                sig,
                ctx,
                x,
                &found.member,
                0,
                cons,
                Items::new(alloc),
                kernel,
            )
        }
    }
}

/// The result of the runs of a variable.
fn with_runs(x: u32, found: Looked, wanted: Option<u32>, runs: Runs) -> Reach
    ensures { reach_of result ≡ spec.reached_by x (tree_of found.entry.ty) found.entry.member.number wanted (runs_of runs) }
{
    match runs {
        Runs::Found(runs) => Reach::Found(Reached {
            variable: x,
            ty: found.ty,
            family: found.member.number,
            own: wanted,
            runs,
        }),
        Runs::Passed(stuck) => Reach::Passed(stuck),
    }
}

fn reach_from(
    alloc: Global,
    sig: &Signature,
    clause: u32,
    ctx: &[Term],
    x: u32,
    found: Looked,
    wanted: Option<u32>,
    kernel: &mut Kernel<'_>,
) -> Result<Reach, TreeStop>
    requires kernel { kernel.old.signature ≡ sig.now }
    requires ready { IsReady sig.now }
    requires context { IsContext sig.now (tele_of ctx.now) }
    requires variable { x < length ctx.now }
    requires member { IsMember sig.now (length ctx.now) found.member }
    ensures answer { Yields reach_of result kernel.new.left (spec.reach_from sig.now clause (tele_of ctx.now) x (looked_of found.entry) wanted kernel.old.left) }
    ensures sum { kernel.new.left + kernel.new.spent ≡ kernel.old.left + kernel.old.spent }
    ensures spends { kernel.new.left ≤ kernel.old.left }
    ensures kernel { kernel.new.signature ≡ sig.now }
{
    let runs = wanted_runs(alloc, sig, clause, ctx, x, &found, wanted, kernel)?;
    Ok(with_runs(x, found, wanted, runs))
}

/// The constructor that alone is wanted: a walk wants that of its pattern.
fn wanted_of(own: bool, pat: &Pat) -> Option<u32>
    ensures { result ≡ spec.wanted_of own (pat_of pat.now) }
{
    match pat {
        Pat::Con(_, number, _) if own => Some(*number),
        _ => None,
    }
}

/// The look at an open pair with a variable.
pub(crate) fn reach_at(
    alloc: Global,
    sig: &Signature,
    own: bool,
    clause: u32,
    ctx: &[Term],
    pat: &Pat,
    x: u32,
    kernel: &mut Kernel<'_>,
) -> Result<Reach, TreeStop>
    requires kernel { kernel.old.signature ≡ sig.now }
    requires ready { IsReady sig.now }
    requires context { IsContext sig.now (tele_of ctx.now) }
    requires variable { x < length ctx.now }
    ensures answer { Yields reach_of result kernel.new.left (spec.reach sig.now own clause (tele_of ctx.now) (pat_of pat.now) x kernel.old.left) }
    ensures sum { kernel.new.left + kernel.new.spent ≡ kernel.old.left + kernel.old.spent }
    ensures spends { kernel.new.left ≤ kernel.old.left }
    ensures kernel { kernel.new.signature ≡ sig.now }
{
    let found = look_at_type(alloc, sig, clause, ctx, pat, x, kernel)?;
    reach_from(
        alloc,
        sig,
        clause,
        ctx,
        x,
        found,
        wanted_of(own, pat),
        kernel,
    )
}
