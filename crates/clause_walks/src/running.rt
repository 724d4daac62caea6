ghost use Rattle.std.specs.Prelude.{◌≡◌, ◌≤◌, ◌<◌, ◌+◌, map, length, slice_get, Some, Ok};
ghost use Rattle.core_terms.specs.Answers.{Gives, Runs as RunsAs};
ghost use Rattle.core_terms.specs.Bounds.{most_height};
ghost use Rattle.core_terms.specs.Meanings.{tele_of};
ghost use Rattle.core_sig.specs.Meanings.{constructor_of};
ghost use Rattle.unification.specs.ScopedStates.{IsReady};
ghost use Rattle.problems.specs.Meanings.{outcome_of, problem_of as problem_meant};
ghost use Rattle.case_trees.specs.Looking as looking;
ghost use Rattle.problems.specs.MemberConditions.{AreFrom, IsContext, IsMember};
ghost use Rattle.clause_walks.specs.LookMeanings.{ends_of, ran_of, runs_of, sorted_as};
ghost use Rattle.problems.specs.MemberMeanings.{member_meant};
ghost use Rattle.clause_walks.specs.Reaching as spec;
ghost use Rattle.clause_walks.specs.Stops.{Yields};

use crate::stops::TreeStop;
use core_sig::{Constructor, Signature};
use core_terms::{Items, Stop, Tele, Term};
use kernel_check::Kernel;
use problems::{Member, Outcome, Problem, problem_of};
use std::alloc::Global;
use unification::Why;
use unifier::unify_with;

/// The end of the run of a constructor's problem: how many arguments the constructor has, the context of the problem, and the
/// outcome.
#[derive(Debug, Drop)]
pub struct Ran {
    pub arguments: u32,
    pub ctx: Tele,
    pub outcome: Outcome,
}

/// The end of a run that was stuck.
#[derive(Debug, Drop)]
pub struct StuckRun {
    pub ctx: Tele,
    pub left: Term,
    pub right: Term,
    pub why: Why,
}

/// The runs of constructors, none of which is stuck, or the first that is.
#[derive(Debug, Drop)]
pub enum Runs {
    Found(Items<Ran>),
    Passed(StuckRun),
}

/// The run of a constructor's problem.
fn run_one(
    alloc: Global,
    sig: &Signature,
    ctx: &[Term],
    x: u32,
    m: &Member,
    number: u32,
    con: &Constructor,
    kernel: &mut Kernel<'_>,
) -> Result<Ran, Stop>
    requires kernel { kernel.old.signature ≡ sig.now }
    requires ready { IsReady sig.now }
    requires context { IsContext sig.now (tele_of ctx.now) }
    requires variable { x < length ctx.now }
    requires member { IsMember sig.now (length ctx.now) m.now }
    requires constructor { slice_get m.now.family.now.cons number ≡ Some con.now }
    ensures answer { RunsAs ran_of result kernel.new.left (spec.run_one sig.now (tele_of ctx.now) x (member_meant m.now) number (constructor_of (length m.now.family.now.params) con.now) kernel.old.left) }
    ensures sum { kernel.new.left + kernel.new.spent ≡ kernel.old.left + kernel.old.spent }
    ensures spends { kernel.new.left ≤ kernel.old.left }
    ensures kernel { kernel.new.signature ≡ sig.now }
{
    let problem = problem_of(alloc, sig, ctx, x, m, number, con)?;
    let outcome = unify_with(alloc, sig, &problem, kernel)?;
    Ok(ended(con, problem, outcome))
}

/// The end of a run.
fn ended(con: &Constructor, problem: Problem, outcome: Outcome) -> Ran
    requires { length con.now.args ≤ most_height }
    ensures { ran_of result ≡ spec.run_end (length con.now.args) (problem_meant problem) (outcome_of outcome) }
{
    let Problem { ctx, .. } = problem;
    Ran {
        arguments: con.args.as_slice().len() as u32,
        ctx,
        outcome,
    }
}

/// The run itself, unless it is stuck.
fn unless_stuck(ran: Ran) -> Result<Ran, StuckRun>
    ensures { sorted_as result ≡ spec.sorted (ran_of ran) }
{
    let Ran {
        arguments,
        ctx,
        outcome,
    } = ran;
    match outcome {
        Outcome::Stuck {
            ctx,
            left,
            right,
            why,
            ..
        } => Err(StuckRun {
            ctx,
            left,
            right,
            why,
        }),
        outcome => Ok(Ran {
            arguments,
            ctx,
            outcome,
        }),
    }
}

/// The runs of constructors of a family, the first of which has this number, after those that are made, up to the first that is stuck.
pub fn run_from(
    alloc: Global,
    sig: &Signature,
    ctx: &[Term],
    x: u32,
    m: &Member,
    number: u32,
    cons: &[Constructor],
    mut made: Items<Ran>,
    kernel: &mut Kernel<'_>,
) -> Result<Runs, TreeStop>
    requires kernel { kernel.old.signature ≡ sig.now }
    requires ready { IsReady sig.now }
    requires context { IsContext sig.now (tele_of ctx.now) }
    requires variable { x < length ctx.now }
    requires member { IsMember sig.now (length ctx.now) m.now }
    requires constructors { AreFrom m.now number cons.now }
    ensures answer { Yields runs_of result kernel.new.left (spec.ends_behind (ends_of made) (looking.run_all sig.now (tele_of ctx.now) x (member_meant m.now) number (map (constructor_of (length m.now.family.now.params)) cons.now) kernel.old.left)) }
    ensures sum { kernel.new.left + kernel.new.spent ≡ kernel.old.left + kernel.old.spent }
    ensures spends { kernel.new.left ≤ kernel.old.left }
    ensures kernel { kernel.new.signature ≡ sig.now }
{
    let [con, rest @ ..] = cons else {
        return Ok(Runs::Found(made));
    };
    match unless_stuck(run_one(alloc, sig, ctx, x, m, number, con, kernel)?) {
        Ok(ran) => {
            made.push(ran)?;
            let next = following(number)?;
            run_from(alloc, sig, ctx, x, m, next, rest, made, kernel)
        }
        Err(stuck) => Ok(Runs::Passed(stuck)),
    }
}

/// The next number, or Memory: so many constructors have no room.
fn following(number: u32) -> Result<u32, Stop>
    ensures { Gives (λ next. next) result (Ok (number + 1)) }
{
    match number.checked_add(1) {
        Some(next) => Ok(next),
        None => Err(Stop::Memory),
    }
}
