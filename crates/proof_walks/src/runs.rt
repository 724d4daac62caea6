//! The runs of all constructors of a variable.
ghost use Rattle.std.specs.Prelude.{◌≡◌, ◌≤◌, ◌<◌, ◌+◌, IfOk, Ok, length, map};
ghost use Rattle.core_terms.specs.Answers.{Gives};
ghost use Rattle.core_terms.specs.Meanings.{tree_of, tele_of};
ghost use Rattle.core_terms.specs.TreeMeanings.{steps_of};
ghost use Rattle.core_terms.specs.declared.stop.Stop.TheVariants.{Memory};
ghost use Rattle.clause_reports.specs.ProofWalks as walks;
ghost use Rattle.clause_reports.specs.Stops as stops;
ghost use Rattle.problems.specs.MemberConditions.{IsContext, IsMember};
ghost use Rattle.clause_walks.specs.LookMeanings.{ends_of, runs_of, stuck_of};
ghost use Rattle.problems.specs.MemberMeanings.{member_meant};
ghost use Rattle.clause_walks.specs.Stops as tree_stops;
ghost use Rattle.clause_walks.specs.declared.stops.TreeStop.TheVariants as tree_stop;
ghost use Rattle.drafts.specs.draft_entering.Stops.{Reports, stop_of};
ghost use Rattle.drafts.specs.declared.draft_entering.stop.ReportStop.TheVariants as report_stop;
ghost use Rattle.proof_walks.specs.SolvedRuns as spec;
ghost use Rattle.unification.specs.Outcomes as outcomes;
ghost use Rattle.unification.specs.declared.why.Why.TheVariants as why;
ghost use Rattle.unification.specs.ScopedStates.{IsReady};
ghost use Rattle.problems.specs.Meanings.{outcome_of};

use clause_walks::{Ran, Runs, StuckRun, TreeStop, run_from};
use core_sig::Signature;
use core_terms::{Items, Step, Stop, Term, copy_tele, copy_whole};
use drafts::draft_entering::ReportStop;
use kernel_check::Kernel;
use problems::{Member, Outcome};
use std::alloc::Global;
use unification::Why;

/// The refusal of a walk where running the problems of constructors is refused: units or heights ran out.
fn halted(stop: TreeStop) -> ReportStop
    ensures is { stop_of result ≡ walks.halted (tree_stops.stop_of stop) }
    ensures memory { stop ≡ tree_stop.Stop Memory → result ≡ report_stop.Stop Memory }
{
    match stop {
        TreeStop::Stop(e) => ReportStop::Stop(e),
        _ => ReportStop::Stop(Stop::Deep),
    }
}

/// The refusal of a walk where a run is stuck.
pub(crate) fn stuck_run(run: StuckRun) -> ReportStop
    ensures { stop_of result ≡ stops.Stuck (stuck_of run).context (stuck_of run).left (stuck_of run).right (stuck_of run).why }
{
    let StuckRun {
        ctx,
        left,
        right,
        why,
    } = run;
    ReportStop::Stuck {
        ctx,
        left,
        right,
        why,
    }
}

/// The refusal of a walk at two terms that are no constructors.
pub(crate) fn stuck(
    alloc: Global,
    ctx: &[Term],
    left: &Term,
    right: &Term,
) -> Result<ReportStop, Stop>
    ensures { Gives stop_of result (Ok (stops.Stuck (tele_of ctx.now) (tree_of left.now) (tree_of right.now) why.NotRigid)) }
{
    Ok(ReportStop::Stuck {
        ctx: copy_tele(alloc, ctx)?,
        left: copy_whole(alloc, left)?,
        right: copy_whole(alloc, right)?,
        why: Why::NotRigid,
    })
}

/// The runs of all constructors of a variable's family, or of the first that is stuck.
pub(crate) fn all_runs(
    alloc: Global,
    sig: &Signature,
    ctx: &[Term],
    x: u32,
    m: &Member,
    kernel: &mut Kernel<'_>,
) -> Result<Runs, ReportStop>
    requires kernel { kernel.old.signature ≡ sig.now }
    requires ready { IsReady sig.now }
    requires context { IsContext sig.now (tele_of ctx.now) }
    requires variable { x < length ctx.now }
    requires member { IsMember sig.now (length ctx.now) m.now }
    ensures answer { Reports runs_of result kernel.new.left (spec.all_runs sig.now (tele_of ctx.now) x (member_meant m.now) kernel.old.left) }
    ensures sum { kernel.new.left + kernel.new.spent ≡ kernel.old.left + kernel.old.spent }
    ensures spends { kernel.new.left ≤ kernel.old.left }
    ensures kernel { kernel.new.signature ≡ sig.now }
    ensures solving { IfOk result (λ runs. spec.AreSolvingRuns sig.now (runs_of runs)) }
{
    let cons = m.family.cons.as_slice();
    match run_from(alloc, sig, ctx, x, m, 0, cons, Items::new(alloc), kernel) {
        Ok(runs) => Ok(runs),
        Err(stop) => Err(halted(stop)),
    }
}

/// The steps of an outcome.
fn steps_in(outcome: Outcome) -> Items<Step>
    ensures { steps_of result ≡ outcomes.steps_in (outcome_of outcome) }
{
    match outcome {
        Outcome::Solved { steps, .. } => steps,
        Outcome::Absurd { steps, .. } => steps,
        Outcome::Stuck { steps, .. } => steps,
    }
}

/// The steps of each run.
#[tactic(auto, using(crate::proofs::Joining::joining))]
pub(crate) fn steps_of_runs(alloc: Global, runs: Items<Ran>) -> Result<Items<Items<Step>>, Stop>
    ensures { Gives (λ all. map steps_of all) result (Ok (spec.steps_of_ends (ends_of runs))) }
{
    let mut all = Items::new(alloc);
    for run in runs.into_vec() {
        all.push(steps_in(run.outcome))?;
    }
    Ok(all)
}
