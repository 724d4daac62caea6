ghost use Rattle.std.specs.Prelude.{◌≡◌, ◌≤◌, ◌+◌, IfOk, OnErr};
ghost use Rattle.clause_lines.specs.CodeReports as spec;
ghost use Rattle.clause_lines.specs.LineMeanings.{IsJudged, clause_of, judged_of, line_of};
ghost use Rattle.clause_reports.specs.ProofWalks.{leaves_in};
ghost use Rattle.clause_reports.specs.Reports.{reported};
ghost use Rattle.core_sig.specs.Drafts.{draft_of};
ghost use Rattle.core_terms.specs.TreeMeanings.{walk_of};
ghost use Rattle.drafts.specs.draft_entering.Conditions.{Extends, IsEnterableDraft, IsOpen};
ghost use Rattle.drafts.specs.draft_entering.Depths.{own_name as own_meant};
ghost use Rattle.drafts.specs.draft_entering.Stops.{Reports, stop_of};
ghost use Rattle.leaf_terms.specs.PlanMeanings.{plan_of};
ghost use Rattle.proof_walks.specs.proof_terms.ProofMeanings.{proof_of};
ghost use Rattle.proof_walks.specs.PlaceScopes.{AreKeptLeaves};

use crate::Line;
use crate::clause::PlannedClause;
use crate::judging::{Judgement, judged};
use crate::shadowing::shadowed;
use clause_equations::part_or;
use core_sig::{Draft, Entry, Signature};
use core_terms::{Units, Walk};
use drafts::draft_entering::{ReportStop, enter_draft};
use kernel_check::Kernel;
use leaf_terms::{Plan, no_part};
use proof_walks::proof_terms::Proof;
use std::alloc::Global;

/// The name of a draft's definition, or no bytes.
fn own_name(draft: &Draft) -> &[u8]
    ensures { result.now ≡ own_meant (draft_of draft.now) }
{
    match &draft.entry {
        Entry::Def { name, .. } => name.as_slice(),
        _ => b"",
    }
}

/// Whether the entry with this name is the one that is rejected.
fn denies(name: &[u8], stop: &ReportStop) -> bool
    ensures { result ≡ spec.denies name.now (stop_of stop.now) }
{
    match stop {
        ReportStop::Rejected { entry, .. } => entry.as_slice() == name,
        ReportStop::Stop(_) | ReportStop::Stuck { .. } => false,
    }
}

/// The line of a clause whose candidate does not enter, or why it does not.
fn denied(
    alloc: Global,
    sig: &Signature,
    c: PlannedClause,
    proof: &Proof,
    draft: &Draft,
    stop: ReportStop,
    units: &mut Units,
) -> Result<Line, ReportStop>
    requires signature { IsOpen sig.now }
    requires kept { AreKeptLeaves sig.now (leaves_in (proof_of proof.now)) }
    ensures answer { Reports (λ line. reported sig.now (line_of line)) result units.new.left (spec.denied_made sig.now (clause_of c.entry) (proof_of proof.now) (own_meant (draft_of draft.now)) (stop_of stop) units.old.left) }
    ensures sum { units.new.left + units.new.spent ≡ units.old.left + units.old.spent }
    ensures spends { units.new.left ≤ units.old.left }
{
    if denies(own_name(draft), &stop) {
        let mut kernel = Kernel::new(alloc, sig, *units);
        let line = shadowed(alloc, sig, c, proof, stop, &mut kernel);
        *units = kernel.into_units();
        line
    } else {
        Err(stop)
    }
}

/// The line of a clause, whose candidate enters where the checker grants it.
fn entered(
    alloc: Global,
    sig: &mut Signature,
    c: PlannedClause,
    proof: &Proof,
    draft: &Draft,
    units: &mut Units,
) -> Result<Line, ReportStop>
    requires signature { IsOpen sig.old }
    requires kept { AreKeptLeaves sig.old (leaves_in (proof_of proof.now)) }
    requires draft { IsEnterableDraft sig.old (draft_of draft.now) }
    ensures answer { Reports (λ line. reported sig.new (line_of line)) result units.new.left (spec.entering_made sig.old (clause_of c.entry) (proof_of proof.now) (draft_of draft.now) units.old.left) }
    ensures err { OnErr result (sig.new ≡ sig.old) }
    ensures sum { units.new.left + units.new.spent ≡ units.old.left + units.old.spent }
    ensures spends { units.new.left ≤ units.old.left }
    ensures longer { Extends sig.old sig.new }
    ensures ready { IsOpen sig.new }
{
    match enter_draft(alloc, sig, draft, units) {
        Ok(number) => Ok(Line::Proved(number)),
        Err(stop) => denied(alloc, sig, c, proof, draft, stop, units),
    }
}

/// The judgement of a clause, before anything enters.
fn judgement(
    alloc: Global,
    sig: &Signature,
    c: PlannedClause,
    units: &mut Units,
) -> Result<Judgement, ReportStop>
    requires { IsOpen sig.now }
    ensures answer { Reports judged_of result units.new.left (spec.judged sig.now (clause_of c.entry) units.old.left) }
    ensures sum { units.new.left + units.new.spent ≡ units.old.left + units.old.spent }
    ensures spends { units.new.left ≤ units.old.left }
    ensures judged { IfOk result (IsJudged sig.now) }
{
    let mut kernel = Kernel::new(alloc, sig, *units);
    let judgement = judged(alloc, sig, c, &mut kernel);
    *units = kernel.into_units();
    judgement
}

/// The line of a clause of a plan.
fn clause_report(
    alloc: Global,
    sig: &mut Signature,
    c: PlannedClause,
    units: &mut Units,
) -> Result<Line, ReportStop>
    requires signature { IsOpen sig.old }
    ensures answer { Reports (λ line. reported sig.new (line_of line)) result units.new.left (spec.clause_report sig.old (clause_of c.entry) units.old.left) }
    ensures err { OnErr result (sig.new ≡ sig.old) }
    ensures sum { units.new.left + units.new.spent ≡ units.old.left + units.old.spent }
    ensures spends { units.new.left ≤ units.old.left }
    ensures longer { Extends sig.old sig.new }
    ensures ready { IsOpen sig.new }
{
    match judgement(alloc, sig, c, units)? {
        Judgement::Known(line) => Ok(line),
        Judgement::Candidate { proof, draft } => entered(alloc, sig, c, &proof, &draft, units),
    }
}

/// The line of clause `clause`, counted from 0, of a part of a plan, whose own walk is given.
///
/// The equation of the clause holds by conversion, or a proof of it, with the entries that the proof needs, is added to
/// the signature. If the checker rejects the proof itself, and an earlier clause shadows the clause, the signature
/// stays as it was; so it does after an error. The units that were spent stay spent. The answer is Deep if the
/// equation, its walk or its proof is Deep, if a side names a number that is no entry's, or if the proof may not enter.
pub fn report(
    alloc: Global,
    sig: &mut Signature,
    plan: &Plan,
    part: u32,
    clause: u32,
    walk: &Walk,
    units: &mut Units,
) -> Result<Line, ReportStop>
    requires signature { IsOpen sig.old }
    ensures answer { Reports (λ line. reported sig.new (line_of line)) result units.new.left (spec.report_made sig.old (plan_of plan.now) (record { part = part; clause = clause; walk = walk_of walk.now }) units.old.left) }
    ensures err { OnErr result (sig.new ≡ sig.old) }
    ensures sum { units.new.left + units.new.spent ≡ units.old.left + units.old.spent }
    ensures spends { units.new.left ≤ units.old.left }
    ensures longer { Extends sig.old sig.new }
    ensures ready { IsOpen sig.new }
{
    let none = no_part(alloc);
    let c = PlannedClause {
        plan,
        part: part_or(plan.parts.as_slice(), part, &none),
        number: part,
        clause,
        walk,
    };
    clause_report(alloc, sig, c, units)
}
