//! The judgement of a clause, before anything enters the signature.
ghost use Rattle.std.specs.Prelude.{◌≡◌, ◌≤◌, ◌+◌, IfOk};
ghost use Rattle.clause_equations.specs.EquationMeanings.{equation_of};
ghost use Rattle.clause_lines.specs.CodeReports as spec;
ghost use Rattle.clause_lines.specs.LineMeanings.{IsJudged, clause_of, judged_of};
ghost use Rattle.clause_reports.specs.ProofWalks.{leaves_in};
ghost use Rattle.core_sig.specs.Drafts.{draft_of};
ghost use Rattle.core_terms.specs.Answers.{Gives, StandsFor};
ghost use Rattle.drafts.specs.draft_entering.Conditions.{IsOpen};
ghost use Rattle.drafts.specs.draft_entering.Stops.{IsUnforeseen, Reports, stop_of};
ghost use Rattle.proof_walks.specs.proof_terms.ProofMeanings.{goal_of as goal_meant, proof_of};
ghost use Rattle.proof_walks.specs.PlaceScopes.{AreKeptLeaves};
ghost use Rattle.proof_walks.specs.Starts.{walk_made};

use crate::Line;
use crate::clause::PlannedClause;
use crate::names::proof_name;
use crate::sides::equation_converts;
use clause_equations::shadow_vectors::some_absurd;
use clause_equations::{Equation, equation, pats_at};
use core_sig::{Draft, Signature};
use core_terms::Stop;
use drafts::draft_checks::is_enterable;
use drafts::draft_entering::ReportStop;
use kernel_check::Kernel;
use proof_walks::equation_proof_with;
use proof_walks::proof_terms::{Goal, Proof, candidate};
use std::alloc::Global;

/// The judgement of a clause, before anything enters: its line, or a proof of its equation with the candidate.
#[derive(Drop)]
pub enum Judgement {
    Known(Line),
    Candidate { proof: Proof, draft: Draft },
}

/// The equation, as it is to be proved.
fn goal_of(e: &Equation) -> Goal
    ensures { goal_meant result ≡ equation_of e.now }
{
    Goal {
        ctx: e.ctx.as_slice(),
        ty: &e.ty,
        left: &e.left,
        right: &e.right,
    }
}

/// The candidate of a clause, or Deep.
fn candidate_of(
    alloc: Global,
    sig: &Signature,
    c: PlannedClause,
    e: &Equation,
    proof: &Proof,
) -> Result<Draft, Stop>
    ensures { Gives draft_of result (spec.candidate_of sig.now (clause_of c.entry) (equation_of e.now) (proof_of proof.now)) }
{
    let name = proof_name(alloc, c.plan, c.number, c.clause)?;
    candidate(alloc, sig, name, c.part.level, goal_of(e), proof)
}

/// A proof with its candidate, or Deep if the candidate may not enter.
fn with_candidate(sig: &Signature, proof: Proof, draft: Draft) -> Result<Judgement, ReportStop>
    requires { AreKeptLeaves sig.now (leaves_in (proof_of proof)) }
    ensures answer { StandsFor IsUnforeseen stop_of judged_of result (spec.with_candidate sig.now (proof_of proof) (draft_of draft)) }
    ensures judged { IfOk result (IsJudged sig.now) }
{
    if is_enterable(sig, &draft)? {
        Ok(Judgement::Candidate { proof, draft })
    } else {
        Err(ReportStop::Stop(Stop::Deep))
    }
}

/// The judgement of a clause by the proof of its equation.
fn proof_judged(
    alloc: Global,
    sig: &Signature,
    c: PlannedClause,
    e: &Equation,
    proof: Proof,
) -> Result<Judgement, ReportStop>
    requires { AreKeptLeaves sig.now (leaves_in (proof_of proof)) }
    ensures answer { StandsFor IsUnforeseen stop_of judged_of result (spec.proof_judged sig.now (clause_of c.entry) (equation_of e.now) (proof_of proof)) }
    ensures judged { IfOk result (IsJudged sig.now) }
{
    let draft = candidate_of(alloc, sig, c, e, &proof)?;
    with_candidate(sig, proof, draft)
}

/// The proof of a clause's equation by the walk of its terms through the tree of its part.
fn proof_of_equation(
    alloc: Global,
    sig: &Signature,
    c: PlannedClause,
    e: &Equation,
    kernel: &mut Kernel<'_>,
) -> Result<Proof, ReportStop>
    requires kernel { kernel.old.signature ≡ sig.now }
    requires given { IsOpen sig.now }
    ensures answer { Reports proof_of result kernel.new.left (walk_made sig.now (clause_of c.entry).plan c.entry.number (clause_of c.entry).walk (equation_of e.now) (clause_of c.entry).part.tree kernel.old.left) }
    ensures sum { kernel.new.left + kernel.new.spent ≡ kernel.old.left + kernel.old.spent }
    ensures spends { kernel.new.left ≤ kernel.old.left }
    ensures kernel { kernel.new.signature ≡ sig.now }
    ensures kept { IfOk result (λ proof. AreKeptLeaves sig.now (leaves_in (proof_of proof))) }
{
    equation_proof_with(
        alloc,
        sig,
        c.plan,
        c.number,
        c.walk,
        goal_of(e),
        &c.part.tree,
        kernel,
    )
}

/// The judgement of a clause whose equation does not convert.
fn walk_judged(
    alloc: Global,
    sig: &Signature,
    c: PlannedClause,
    e: &Equation,
    kernel: &mut Kernel<'_>,
) -> Result<Judgement, ReportStop>
    requires kernel { kernel.old.signature ≡ sig.now }
    requires given { IsOpen sig.now }
    ensures answer { Reports judged_of result kernel.new.left (spec.walk_judged sig.now (clause_of c.entry) (equation_of e.now) kernel.old.left) }
    ensures sum { kernel.new.left + kernel.new.spent ≡ kernel.old.left + kernel.old.spent }
    ensures spends { kernel.new.left ≤ kernel.old.left }
    ensures kernel { kernel.new.signature ≡ sig.now }
    ensures judged { IfOk result (IsJudged sig.now) }
{
    let proof = proof_of_equation(alloc, sig, c, e, kernel)?;
    proof_judged(alloc, sig, c, e, proof)
}

/// The judgement of a clause by its equation.
fn sides_judged(
    alloc: Global,
    sig: &Signature,
    c: PlannedClause,
    e: &Equation,
    kernel: &mut Kernel<'_>,
) -> Result<Judgement, ReportStop>
    requires kernel { kernel.old.signature ≡ sig.now }
    requires given { IsOpen sig.now }
    ensures answer { Reports judged_of result kernel.new.left (spec.sides_judged sig.now (clause_of c.entry) (equation_of e.now) kernel.old.left) }
    ensures sum { kernel.new.left + kernel.new.spent ≡ kernel.old.left + kernel.old.spent }
    ensures spends { kernel.new.left ≤ kernel.old.left }
    ensures kernel { kernel.new.signature ≡ sig.now }
    ensures judged { IfOk result (IsJudged sig.now) }
{
    if equation_converts(sig, e, kernel)? {
        return Ok(Judgement::Known(Line::Definitional));
    }
    walk_judged(alloc, sig, c, e, kernel)
}

/// The judgement of a clause that has a right side.
fn equation_judged(
    alloc: Global,
    sig: &Signature,
    c: PlannedClause,
    kernel: &mut Kernel<'_>,
) -> Result<Judgement, ReportStop>
    requires kernel { kernel.old.signature ≡ sig.now }
    requires given { IsOpen sig.now }
    ensures answer { Reports judged_of result kernel.new.left (spec.equation_judged sig.now (clause_of c.entry) kernel.old.left) }
    ensures sum { kernel.new.left + kernel.new.spent ≡ kernel.old.left + kernel.old.spent }
    ensures spends { kernel.new.left ≤ kernel.old.left }
    ensures kernel { kernel.new.signature ≡ sig.now }
    ensures judged { IfOk result (IsJudged sig.now) }
{
    let e = equation(alloc, sig, c.plan, c.number, c.clause, c.walk)?;
    sides_judged(alloc, sig, c, &e, kernel)
}

/// The judgement of a clause, before anything enters.
pub(crate) fn judged(
    alloc: Global,
    sig: &Signature,
    c: PlannedClause,
    kernel: &mut Kernel<'_>,
) -> Result<Judgement, ReportStop>
    requires kernel { kernel.old.signature ≡ sig.now }
    requires given { IsOpen sig.now }
    ensures answer { Reports judged_of result kernel.new.left (spec.judged sig.now (clause_of c.entry) kernel.old.left) }
    ensures sum { kernel.new.left + kernel.new.spent ≡ kernel.old.left + kernel.old.spent }
    ensures spends { kernel.new.left ≤ kernel.old.left }
    ensures kernel { kernel.new.signature ≡ sig.now }
    ensures judged { IfOk result (IsJudged sig.now) }
{
    if some_absurd(pats_at(c.part.pats.as_slice(), c.clause)) {
        return Ok(Judgement::Known(Line::Absurd));
    }
    equation_judged(alloc, sig, c, kernel)
}
