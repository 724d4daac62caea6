//! Clauses that an earlier one shadows.
ghost use Rattle.std.specs.Prelude.{◌≡◌, ◌≤◌, ◌+◌, ◌++◌, Ok, map};
ghost use Rattle.clause_lines.specs.CodeReports as spec;
ghost use Rattle.clause_lines.specs.LineMeanings.{clause_of, leaf_shown, line_of};
ghost use Rattle.clause_reports.specs.Equations.{pats_of as pats_in};
ghost use Rattle.clause_reports.specs.ProofWalks.{leaves_in as leaves_meant};
ghost use Rattle.clause_reports.specs.Reports.{Shadowed, reported, shown_leaf};
ghost use Rattle.clause_reports.specs.Shadows as shadows;
ghost use Rattle.clause_reports.specs.Stops.{halting};
ghost use Rattle.core_terms.specs.Answers.{Gives, StandsFor};
ghost use Rattle.core_terms.specs.Meanings.{tree_of, tele_of};
ghost use Rattle.drafts.specs.draft_entering.Stops.{IsUnforeseen, Reports, stop_of};
ghost use Rattle.leaf_terms.specs.PlanMeanings.{part_of};
ghost use Rattle.proof_walks.specs.proof_terms.ProofMeanings.{place_of, proof_of};
ghost use Rattle.proof_walks.specs.PlaceScopes.{AreKeptLeaves, IsKeptPlace};
ghost use Rattle.proof_walks.specs.WalkMeanings.{leaf_of, leaves_of as proof_leaves};
ghost use Rattle.clause_equations.specs.shadow_vectors.LeafMeanings.{all_leaves_of, leaf_of as tree_leaf};
ghost use Rattle.theory.specs.Signatures.{Signature as signature};
ghost use Rattle.unification.specs.ScopedStates.{IsReady};

use crate::Line;
use crate::clause::{PlannedClause, match_at};
use crate::leaves::converts_at_leaves;
use clause_equations::pats_at;
use clause_equations::shadow_vectors::{TreeLeaf, leaves_of, vector_of};
use core_sig::Signature;
use core_terms::{Items, Stop, Tele, Term, copy_tele};
use drafts::draft_entering::ReportStop;
use kernel_check::Kernel;
use proof_walks::proof_terms::{Place, Proof};
use proof_walks::{Leaf, leaves_in};
use std::alloc::Global;

// ---- the arguments

/// Whether the sides at a leaf of a proof convert.
#[tactic(auto, unfolding(crate::specs::CodeReports::place_converts))]
fn leaf_converts(p: &Place, kernel: &mut Kernel<'_>) -> Result<bool, ReportStop>
    requires ready { IsReady kernel.old.signature }
    requires kept { IsKeptPlace kernel.old.signature (place_of p.now) }
    ensures answer { Reports (λ holds. holds) result kernel.new.left (spec.place_converts kernel.old.signature (place_of p.now) kernel.old.left) }
    ensures sum { kernel.new.left + kernel.new.spent ≡ kernel.old.left + kernel.old.spent }
    ensures spends { kernel.new.left ≤ kernel.old.left }
    ensures kernel { kernel.new.signature ≡ kernel.old.signature }
{
    Ok(kernel.convertible(&p.left, &p.right)?)
}

/// Whether the sides at a leaf of a proof do not convert and its clause is an earlier one.
fn is_earlier(clause: u32, leaf: Leaf, kernel: &mut Kernel<'_>) -> Result<bool, ReportStop>
    requires ready { IsReady kernel.old.signature }
    requires kept { IsKeptPlace kernel.old.signature (place_of leaf.place.now) }
    ensures answer { Reports (λ found. found) result kernel.new.left (spec.is_earlier kernel.old.signature clause (leaf_of leaf.entry) kernel.old.left) }
    ensures sum { kernel.new.left + kernel.new.spent ≡ kernel.old.left + kernel.old.spent }
    ensures spends { kernel.new.left ≤ kernel.old.left }
    ensures kernel { kernel.new.signature ≡ kernel.old.signature }
{
    let holds = leaf_converts(leaf.place, kernel)?;
    Ok(!holds && leaf.clause < clause)
}

/// The arguments that an earlier clause takes from the terms of the clause at a leaf of its proof.
fn vector_at(
    alloc: Global,
    sig: &Signature,
    c: PlannedClause,
    earlier: u32,
    p: &Place,
    kernel: &mut Kernel<'_>,
) -> Result<Tele, ReportStop>
    requires kernel { kernel.old.signature ≡ sig.now }
    requires ready { IsReady sig.now }
    requires kept { IsKeptPlace sig.now (place_of p.now) }
    ensures answer { Reports tele_of result kernel.new.left (halting (shadows.vector_of sig.now (pats_in (part_of c.entry.part.now) c.entry.clause) (pats_in (part_of c.entry.part.now) earlier) (place_of p.now).terms kernel.old.left)) }
    ensures sum { kernel.new.left + kernel.new.spent ≡ kernel.old.left + kernel.old.spent }
    ensures spends { kernel.new.left ≤ kernel.old.left }
    ensures kernel { kernel.new.signature ≡ sig.now }
{
    let own = pats_at(c.part.pats.as_slice(), c.clause);
    let other = pats_at(c.part.pats.as_slice(), earlier);
    Ok(vector_of(alloc, sig, own, other, p.terms.as_slice(), kernel)?)
}

/// Whether the clause and an earlier one match the same arguments.
fn both_match(sig: &Signature, c: PlannedClause, earlier: u32, vector: &Tele) -> bool
    ensures { result ≡ spec.both_match sig.now (clause_of c.entry) earlier (tele_of vector.now) }
{
    let pats = c.part.pats.as_slice();
    match_at(sig, pats, c.clause, vector) && match_at(sig, pats, earlier, vector)
}

// ---- the line

/// The context and the terms of a leaf, which the line shows.
fn shown(alloc: Global, leaf: TreeLeaf) -> Result<(Tele, Tele), Stop>
    ensures { Gives leaf_shown result (Ok (shown_leaf (tree_leaf leaf.entry))) }
{
    let ctx = copy_tele(alloc, leaf.ctx)?;
    Ok((ctx, copy_tele(alloc, leaf.terms)?))
}

/// The contexts and the terms of leaves, after those that were made before.
fn with_shown(
    alloc: Global,
    leaves: &[TreeLeaf],
    mut made: Items<(Tele, Tele)>,
) -> Result<Items<(Tele, Tele)>, Stop>
    ensures { Gives (map leaf_shown) result (Ok (map leaf_shown made ++ map shown_leaf (all_leaves_of leaves.now))) }
{
    match leaves {
        [] => Ok(made),
        [leaf, rest @ ..] => {
            made.push(shown(alloc, *leaf)?)?;
            with_shown(alloc, rest, made)
        }
    }
}

/// The line of a shadowed clause.
fn shadowed_line(
    alloc: Global,
    earlier: u32,
    ctx: &[Term],
    vector: Tele,
    leaves: &[TreeLeaf],
) -> Result<Line, Stop>
    ensures { Gives line_of result (Ok (Shadowed earlier (tele_of ctx.now) (tele_of vector) (map shown_leaf (all_leaves_of leaves.now)))) }
{
    let ctx = copy_tele(alloc, ctx)?;
    let leaves = with_shown(alloc, leaves, Items::new(alloc))?;
    Ok(Line::Shadowed {
        earlier,
        ctx,
        vector,
        leaves,
    })
}

/// That line, or the rejection of the candidate where the equation does not convert at each leaf.
fn if_shadowed(
    alloc: Global,
    stop: ReportStop,
    earlier: u32,
    ctx: &[Term],
    vector: Tele,
    leaves: &[TreeLeaf],
    holds: bool,
) -> Result<Line, ReportStop>
    ensures { (S : signature) → StandsFor IsUnforeseen stop_of (λ line. reported S (line_of line)) result (spec.if_shadowed S (stop_of stop) earlier (tele_of ctx.now) (tele_of vector) (all_leaves_of leaves.now) holds) }
{
    if holds {
        Ok(shadowed_line(alloc, earlier, ctx, vector, leaves)?)
    } else {
        Err(stop)
    }
}

/// The line of a clause that matches the arguments as an earlier one does and has these leaves, or the rejection of its
/// candidate.
fn at_matched(
    alloc: Global,
    sig: &Signature,
    c: PlannedClause,
    stop: ReportStop,
    earlier: u32,
    ctx: &[Term],
    vector: Tele,
    leaves: &[TreeLeaf],
    kernel: &mut Kernel<'_>,
) -> Result<Line, ReportStop>
    requires kernel { kernel.old.signature ≡ sig.now }
    requires given { IsReady sig.now }
    ensures answer { Reports (λ line. reported sig.now (line_of line)) result kernel.new.left (spec.at_matched sig.now (clause_of c.entry) (stop_of stop) earlier (tele_of ctx.now) (tele_of vector) (all_leaves_of leaves.now) kernel.old.left) }
    ensures sum { kernel.new.left + kernel.new.spent ≡ kernel.old.left + kernel.old.spent }
    ensures spends { kernel.new.left ≤ kernel.old.left }
    ensures kernel { kernel.new.signature ≡ sig.now }
{
    let holds = converts_at_leaves(alloc, sig, c, leaves, kernel)?;
    if_shadowed(alloc, stop, earlier, ctx, vector, leaves, holds)
}

/// The line of a clause that matches the arguments as an earlier one does, by its leaves in its part's tree, or the
/// rejection of its candidate.
fn at_leaves(
    alloc: Global,
    sig: &Signature,
    c: PlannedClause,
    stop: ReportStop,
    earlier: u32,
    ctx: &[Term],
    vector: Tele,
    kernel: &mut Kernel<'_>,
) -> Result<Line, ReportStop>
    requires kernel { kernel.old.signature ≡ sig.now }
    requires given { IsReady sig.now }
    ensures answer { Reports (λ line. reported sig.now (line_of line)) result kernel.new.left (spec.at_matched sig.now (clause_of c.entry) (stop_of stop) earlier (tele_of ctx.now) (tele_of vector) (shadows.leaves_of c.entry.clause (part_of c.entry.part.now).tree) kernel.old.left) }
    ensures sum { kernel.new.left + kernel.new.spent ≡ kernel.old.left + kernel.old.spent }
    ensures spends { kernel.new.left ≤ kernel.old.left }
    ensures kernel { kernel.new.signature ≡ sig.now }
{
    let leaves = leaves_of(alloc, c.clause, &c.part.tree)?;
    at_matched(
        alloc,
        sig,
        c,
        stop,
        earlier,
        ctx,
        vector,
        leaves.as_slice(),
        kernel,
    )
}

/// The line of a clause whose arguments are found, or the rejection of its candidate.
fn at_vector(
    alloc: Global,
    sig: &Signature,
    c: PlannedClause,
    stop: ReportStop,
    earlier: u32,
    ctx: &[Term],
    vector: Tele,
    kernel: &mut Kernel<'_>,
) -> Result<Line, ReportStop>
    requires kernel { kernel.old.signature ≡ sig.now }
    requires given { IsReady sig.now }
    ensures answer { Reports (λ line. reported sig.now (line_of line)) result kernel.new.left (spec.at_vector_made sig.now (clause_of c.entry) (stop_of stop) earlier (tele_of ctx.now) (tele_of vector) kernel.old.left) }
    ensures sum { kernel.new.left + kernel.new.spent ≡ kernel.old.left + kernel.old.spent }
    ensures spends { kernel.new.left ≤ kernel.old.left }
    ensures kernel { kernel.new.signature ≡ sig.now }
{
    if both_match(sig, c, earlier, &vector) {
        at_leaves(alloc, sig, c, stop, earlier, ctx, vector, kernel)
    } else {
        Err(stop)
    }
}

/// The line of a clause by a leaf of its proof that belongs to an earlier clause, or the rejection of its candidate.
fn at_place(
    alloc: Global,
    sig: &Signature,
    c: PlannedClause,
    stop: ReportStop,
    earlier: u32,
    p: &Place,
    kernel: &mut Kernel<'_>,
) -> Result<Line, ReportStop>
    requires kernel { kernel.old.signature ≡ sig.now }
    requires ready { IsReady sig.now }
    requires kept { IsKeptPlace sig.now (place_of p.now) }
    ensures answer { Reports (λ line. reported sig.now (line_of line)) result kernel.new.left (spec.at_place sig.now (clause_of c.entry) (stop_of stop) earlier (place_of p.now) kernel.old.left) }
    ensures sum { kernel.new.left + kernel.new.spent ≡ kernel.old.left + kernel.old.spent }
    ensures spends { kernel.new.left ≤ kernel.old.left }
    ensures kernel { kernel.new.signature ≡ sig.now }
{
    let vector = vector_at(alloc, sig, c, earlier, p, kernel)?;
    at_vector(
        alloc,
        sig,
        c,
        stop,
        earlier,
        p.ctx.as_slice(),
        vector,
        kernel,
    )
}

/// The line of a clause by the first of these leaves of its proof at which the sides do not convert and whose clause is
/// an earlier one, or the rejection of its candidate.
fn shadowed_among(
    alloc: Global,
    sig: &Signature,
    c: PlannedClause,
    stop: ReportStop,
    leaves: &[Leaf],
    kernel: &mut Kernel<'_>,
) -> Result<Line, ReportStop>
    requires kernel { kernel.old.signature ≡ sig.now }
    requires ready { IsReady sig.now }
    requires kept { AreKeptLeaves sig.now (proof_leaves leaves.now) }
    ensures answer { Reports (λ line. reported sig.now (line_of line)) result kernel.new.left (spec.shadowed_among sig.now (clause_of c.entry) (stop_of stop) (proof_leaves leaves.now) kernel.old.left) }
    ensures sum { kernel.new.left + kernel.new.spent ≡ kernel.old.left + kernel.old.spent }
    ensures spends { kernel.new.left ≤ kernel.old.left }
    ensures kernel { kernel.new.signature ≡ sig.now }
{
    match leaves {
        [] => Err(stop),
        [leaf, rest @ ..] => {
            if is_earlier(c.clause, *leaf, kernel)? {
                return at_place(alloc, sig, c, stop, leaf.clause, leaf.place, kernel);
            }
            shadowed_among(alloc, sig, c, stop, rest, kernel)
        }
    }
}

/// The line of a clause whose candidate is rejected where an earlier clause shadows it, or that rejection.
pub(crate) fn shadowed(
    alloc: Global,
    sig: &Signature,
    c: PlannedClause,
    proof: &Proof,
    stop: ReportStop,
    kernel: &mut Kernel<'_>,
) -> Result<Line, ReportStop>
    requires kernel { kernel.old.signature ≡ sig.now }
    requires ready { IsReady sig.now }
    requires kept { AreKeptLeaves sig.now (leaves_meant (proof_of proof.now)) }
    ensures answer { Reports (λ line. reported sig.now (line_of line)) result kernel.new.left (spec.shadowed_made sig.now (clause_of c.entry) (proof_of proof.now) (stop_of stop) kernel.old.left) }
    ensures sum { kernel.new.left + kernel.new.spent ≡ kernel.old.left + kernel.old.spent }
    ensures spends { kernel.new.left ≤ kernel.old.left }
    ensures kernel { kernel.new.signature ≡ sig.now }
{
    let leaves = leaves_in(alloc, proof)?;
    shadowed_among(alloc, sig, c, stop, leaves.as_slice(), kernel)
}
