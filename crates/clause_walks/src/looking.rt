ghost use Rattle.std.specs.Prelude.{◌≡◌, ◌≤◌, ◌+◌, length, option_map, IfOk, None, Some, Ok, Err, ℕ};
ghost use Rattle.core_terms.specs.Answers.{Gives};
ghost use Rattle.core_terms.specs.Meanings.{tree_of, tele_of};
ghost use Rattle.core_terms.specs.PatternMeanings.{pat_of};
ghost use Rattle.theory.specs.SignatureScopes.{IsScoped};
ghost use Rattle.theory.specs.Telescopes.{Telescope};
ghost use Rattle.unification.specs.ScopedStates.{IsReady};
ghost use Rattle.case_trees.specs.Looking as looking;
ghost use Rattle.unification.specs.Solutions.{variable_in as variable_meant};
ghost use Rattle.case_trees.specs.Pairs as pairs_spec;
ghost use Rattle.problems.specs.MemberConditions.{IsContext};
ghost use Rattle.clause_walks.specs.LookMeanings.{arrival_of, reached_of, stuck_stop, unmatched_stop};
ghost use Rattle.clause_walks.specs.OpenPairs.{AreScopedOpen, all_open_of};
ghost use Rattle.clause_walks.specs.ReachedRuns.{IsReached};
ghost use Rattle.clause_walks.specs.Reaching as spec;
ghost use Rattle.clause_walks.specs.Stops.{Tells, Yields, stop_of};

use crate::open_pair::OpenPair;
use crate::reaching::{Reach, Reached, reach_at};
use crate::running::StuckRun;
use crate::stops::TreeStop;
use core_sig::Signature;
use core_terms::{Pat, Stop, Term, copy_pat, copy_tele};
use kernel_check::Kernel;
use problems::variable_in;
use std::alloc::Global;

/// A pattern that asks for a constructor, with a term that is neither one nor a variable.
#[derive(Debug, Drop)]
pub(crate) struct Unmatched<'a> {
    pub pat: &'a Pat,
    pub term: Term,
}

/// An open pair is reached, or the value says why it is not.
#[derive(Debug, Drop)]
pub(crate) enum Arrival<'a> {
    Found(Reached),
    Stuck(StuckRun),
    Forced(Unmatched<'a>),
}

/// The first stuck run: the later one if there was none yet.
fn keep_stuck(first: &mut Option<StuckRun>, later: StuckRun)
    ensures { (clause : ℕ) → option_map (stuck_stop clause) first.new ≡ pairs_spec.or_later (option_map (stuck_stop clause) first.old) (Some (stuck_stop clause later)) }
{
    if first.is_none() {
        *first = Some(later);
    }
}

/// The first pair that is not matched: the later one if there was none yet.
fn keep_unmatched<'a>(first: &mut Option<Unmatched<'a>>, later: Unmatched<'a>)
    ensures { (clause : ℕ) (context : Telescope) → option_map (unmatched_stop clause context) first.new ≡ pairs_spec.or_later (option_map (unmatched_stop clause context) first.old) (Some (unmatched_stop clause context later.entry)) }
{
    if first.is_none() {
        *first = Some(later);
    }
}

/// The refusal if no pair is reached.
fn none_found(
    alloc: Global,
    clause: u32,
    ctx: &[Term],
    stuck: &mut Option<StuckRun>,
    forced: &mut Option<Unmatched>,
) -> Result<Reached, TreeStop>
    ensures { Tells reached_of result (Err (looking.none_found (option_map (stuck_stop clause) stuck.old) (option_map (unmatched_stop clause (tele_of ctx.now)) forced.old))) }
{
    if let Some(run) = stuck.take() {
        return Err(stuck_at(clause, run));
    }
    match forced.take() {
        Some(unmatched) => Err(forced_at(alloc, clause, ctx, unmatched)?),
        None => Err(TreeStop::Stop(Stop::Deep)),
    }
}

/// The refusal that says that a run was stuck.
fn stuck_at(clause: u32, run: StuckRun) -> TreeStop
    ensures { stop_of result ≡ stuck_stop clause run }
{
    let StuckRun {
        ctx,
        left,
        right,
        why,
    } = run;
    TreeStop::Stuck {
        clause,
        ctx,
        left,
        right,
        why,
    }
}

/// The refusal that says that a term is neither a constructor nor a variable.
fn forced_at(
    alloc: Global,
    clause: u32,
    ctx: &[Term],
    unmatched: Unmatched,
) -> Result<TreeStop, Stop>
    ensures { Gives stop_of result (Ok (unmatched_stop clause (tele_of ctx.now) unmatched.entry)) }
{
    Ok(TreeStop::Forced {
        clause,
        ctx: copy_tele(alloc, ctx)?,
        pat: copy_pat(alloc, unmatched.pat)?,
        term: unmatched.term,
    })
}

/// The arrival at an open pair with this tidied term.
fn arrive_at<'a>(
    alloc: Global,
    sig: &Signature,
    own: bool,
    clause: u32,
    ctx: &[Term],
    pat: &'a Pat,
    term: Term,
    kernel: &mut Kernel<'_>,
) -> Result<Arrival<'a>, TreeStop>
    requires kernel { kernel.old.signature ≡ sig.now }
    requires ready { IsReady sig.now }
    requires context { IsContext sig.now (tele_of ctx.now) }
    requires term { IsScoped sig.now (length ctx.now) (tree_of term) }
    ensures answer { Yields (arrival_of clause (tele_of ctx.now)) result kernel.new.left (spec.arrive_at sig.now own clause (tele_of ctx.now) (pat_of pat.now) (tree_of term) (variable_meant (tree_of term)) kernel.old.left) }
    ensures sum { kernel.new.left + kernel.new.spent ≡ kernel.old.left + kernel.old.spent }
    ensures spends { kernel.new.left ≤ kernel.old.left }
    ensures kernel { kernel.new.signature ≡ sig.now }
{
    let Some(x) = variable_in(&term) else {
        return Ok(Arrival::Forced(Unmatched { pat, term }));
    };
    match reach_at(alloc, sig, own, clause, ctx, pat, x, kernel)? {
        Reach::Found(found) => Ok(Arrival::Found(found)),
        Reach::Passed(run) => Ok(Arrival::Stuck(run)),
    }
}

/// The arrival at an open pair, which is tidied first.
fn arrive<'a>(
    alloc: Global,
    sig: &Signature,
    own: bool,
    clause: u32,
    ctx: &[Term],
    pair: OpenPair<'a>,
    kernel: &mut Kernel<'_>,
) -> Result<Arrival<'a>, TreeStop>
    requires kernel { kernel.old.signature ≡ sig.now }
    requires ready { IsReady sig.now }
    requires context { IsContext sig.now (tele_of ctx.now) }
    requires term { IsScoped sig.now (length ctx.now) (tree_of pair.term.now) }
    ensures answer { Yields (arrival_of clause (tele_of ctx.now)) result kernel.new.left (spec.arrive sig.now own clause (tele_of ctx.now) (pat_of pair.entry.pat.now) (tree_of pair.entry.term.now) kernel.old.left) }
    ensures sum { kernel.new.left + kernel.new.spent ≡ kernel.old.left + kernel.old.spent }
    ensures spends { kernel.new.left ≤ kernel.old.left }
    ensures kernel { kernel.new.signature ≡ sig.now }
{
    let term = kernel.tidy(pair.term)?;
    arrive_at(alloc, sig, own, clause, ctx, pair.pat, term, kernel)
}

/// The looking from a pair on, with the refusals that the pairs before it left.
fn look_from<'a>(
    alloc: Global,
    sig: &Signature,
    own: bool,
    clause: u32,
    ctx: &[Term],
    pairs: &[OpenPair<'a>],
    stuck: &mut Option<StuckRun>,
    forced: &mut Option<Unmatched<'a>>,
    kernel: &mut Kernel<'_>,
) -> Result<Reached, TreeStop>
    requires kernel { kernel.old.signature ≡ sig.now }
    requires ready { IsReady sig.now }
    requires context { IsContext sig.now (tele_of ctx.now) }
    requires pairs { AreScopedOpen sig.now (length ctx.now) (all_open_of pairs.now) }
    ensures answer { Yields reached_of result kernel.new.left (looking.first_found sig.now clause (tele_of ctx.now) (spec.reach sig.now own clause (tele_of ctx.now)) (all_open_of pairs.now) (option_map (stuck_stop clause) stuck.old) (option_map (unmatched_stop clause (tele_of ctx.now)) forced.old) kernel.old.left) }
    ensures sum { kernel.new.left + kernel.new.spent ≡ kernel.old.left + kernel.old.spent }
    ensures spends { kernel.new.left ≤ kernel.old.left }
    ensures kernel { kernel.new.signature ≡ sig.now }
{
    let [pair, rest @ ..] = pairs else {
        return none_found(alloc, clause, ctx, stuck, forced);
    };
    match arrive(alloc, sig, own, clause, ctx, *pair, kernel)? {
        Arrival::Found(found) => Ok(found),
        Arrival::Stuck(run) => {
            keep_stuck(stuck, run);
            look_from(alloc, sig, own, clause, ctx, rest, stuck, forced, kernel)
        }
        Arrival::Forced(unmatched) => {
            keep_unmatched(forced, unmatched);
            look_from(alloc, sig, own, clause, ctx, rest, stuck, forced, kernel)
        }
    }
}

/// The first open pair of a clause that has a variable at which no run is stuck.
///
/// With `own` the pattern's own constructor alone is run where the pattern has one, as a walk does; a tree runs all. Where no pair is
/// reached, the first stuck run is answered as Stuck, or, where there was none, the first pair as Forced. WrongConstructor comes where
/// the type of a variable is not the family of the pattern's constructor.
pub fn first_found(
    alloc: Global,
    sig: &Signature,
    own: bool,
    clause: u32,
    ctx: &[Term],
    pairs: &[OpenPair],
    kernel: &mut Kernel<'_>,
) -> Result<Reached, TreeStop>
    requires kernel { kernel.old.signature ≡ sig.now }
    requires ready { IsReady sig.now }
    requires context { IsContext sig.now (tele_of ctx.now) }
    requires pairs { AreScopedOpen sig.now (length ctx.now) (all_open_of pairs.now) }
    ensures answer { Yields reached_of result kernel.new.left (looking.first_found sig.now clause (tele_of ctx.now) (spec.reach sig.now own clause (tele_of ctx.now)) (all_open_of pairs.now) None None kernel.old.left) }
    ensures sum { kernel.new.left + kernel.new.spent ≡ kernel.old.left + kernel.old.spent }
    ensures spends { kernel.new.left ≤ kernel.old.left }
    ensures kernel { kernel.new.signature ≡ sig.now }
    ensures reached { IfOk result (λ r. IsReached sig.now (length ctx.now) (reached_of r)) }
{
    let mut stuck = None;
    let mut forced = None;
    look_from(
        alloc,
        sig,
        own,
        clause,
        ctx,
        pairs,
        &mut stuck,
        &mut forced,
        kernel,
    )
}
