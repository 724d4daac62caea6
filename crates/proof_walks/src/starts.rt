//! Where the walk of a clause starts, and the walk.
ghost use Rattle.std.specs.Prelude.{◌≡◌, ◌≤◌, ◌+◌, IfOk, Ok, length, option_map};
ghost use Rattle.std.specs.Option.{option_copied};
ghost use Rattle.core_terms.specs.Answers.{Gives};
ghost use Rattle.core_terms.specs.Meanings.{tele_of};
ghost use Rattle.core_terms.specs.TreeMeanings.{case_tree_of, walk_of};
ghost use Rattle.clause_reports.specs.ProofWalks.{leaves_in};
ghost use Rattle.drafts.specs.draft_entering.Stops.{Reports};
ghost use Rattle.leaf_terms.specs.PlanMeanings.{plan_of};
ghost use Rattle.leaf_terms.specs.RecursionMeanings.{recursion_of};
ghost use Rattle.proof_walks.specs.proof_terms.ProofMeanings.{goal_of, place_of, proof_of};
ghost use Rattle.proof_walks.specs.PlaceScopes.{AreKeptLeaves, IsKeptPlace};
ghost use Rattle.proof_walks.specs.Starts as spec;
ghost use Rattle.unification.specs.ScopedStates.{IsReady};

use crate::places::few_place;
use crate::proof_terms::{Goal, Place, Proof};
use crate::scopes::is_scoped_place;
use crate::walking::walk_tree;
use core_sig::Signature;
use core_terms::{Stop, Tele, Term, Tree, Units, Walk, copy_tele, copy_whole, number_of};
use drafts::draft_entering::ReportStop;
use kernel_check::Kernel;
use leaf_terms::{Plan, Recursion, order_of, own_tele, recursion_of, terms_at};
use std::alloc::Global;

/// The terms of the function's columns in the order of its recursion.
#[tactic(auto, using(leaf_terms::proofs::Lengths::lengths))]
fn values_in_order(
    alloc: Global,
    plan: &Plan,
    r: Option<&Recursion>,
    terms: &[Term],
) -> Result<Tele, Stop>
    ensures { Gives tele_of result (Ok (spec.values_in_order (plan_of plan.now) (tele_of terms.now) (option_map recursion_of (option_copied r.entry)))) }
{
    let count = number_of(own_tele(plan).len())?;
    let order = order_of(alloc, count, r)?;
    terms_at(alloc, order.as_slice(), terms)
}

/// The terms for the variables from which the tree of a part starts, or Deep where recursion is looked for in a telescope that is too
/// high.
fn first_values(
    alloc: Global,
    sig: &Signature,
    plan: &Plan,
    k: u32,
    walk: &Walk,
) -> Result<Tele, Stop>
    ensures { Gives tele_of result (spec.values_made sig.now (plan_of plan.now) k (walk_of walk.now)) }
{
    if k > 0 {
        return copy_tele(alloc, walk.subst.as_slice());
    }
    match recursion_of(alloc, sig, plan)? {
        Some(r) => values_in_order(alloc, plan, Some(&r), walk.terms.as_slice()),
        None => values_in_order(alloc, plan, None, walk.terms.as_slice()),
    }
}

/// The place of an equation, with the terms of the clause and of the tree's variables.
fn place_at(alloc: Global, e: Goal, terms: &[Term], values: Tele) -> Result<Place, Stop>
    ensures { Gives place_of result (Ok (spec.place_at (goal_of e.entry) (tele_of terms.now) (tele_of values))) }
{
    Ok(Place {
        ctx: copy_tele(alloc, e.ctx)?,
        ty: copy_whole(alloc, e.ty)?,
        left: copy_whole(alloc, e.left)?,
        right: copy_whole(alloc, e.right)?,
        terms: copy_tele(alloc, terms)?,
        values,
    })
}

/// The place itself, or Deep where it is not scoped.
fn scoped_place(sig: &Signature, p: Place) -> Result<Place, Stop>
    requires few { length p.ctx ≤ 2147400000 }
    ensures answer { Gives place_of result (spec.scoped_place sig.now (place_of p)) }
    ensures kept { IfOk result (λ q. IsKeptPlace sig.now (place_of q)) }
{
    if is_scoped_place(sig, &p) {
        Ok(p)
    } else {
        Err(Stop::Deep)
    }
}

/// Where the walk of a clause starts, or Deep.
fn start(
    alloc: Global,
    sig: &Signature,
    plan: &Plan,
    k: u32,
    walk: &Walk,
    e: Goal,
) -> Result<Place, Stop>
    ensures answer { Gives place_of result (spec.start_made sig.now (plan_of plan.now) k (walk_of walk.now) (goal_of e.entry)) }
    ensures kept { IfOk result (λ q. IsKeptPlace sig.now (place_of q)) }
{
    let values = first_values(alloc, sig, plan, k, walk)?;
    let place = place_at(alloc, e, walk.terms.as_slice(), values)?;
    scoped_place(sig, few_place(place)?)
}

/// The place where the walk of a clause starts in a box of its own, or Deep.
fn boxed_start(
    alloc: Global,
    sig: &Signature,
    plan: &Plan,
    k: u32,
    walk: &Walk,
    e: Goal,
) -> Result<Box<Place>, Stop>
    ensures answer { Gives (λ q. place_of q.value) result (spec.start_made sig.now (plan_of plan.now) k (walk_of walk.now) (goal_of e.entry)) }
    ensures kept { IfOk result (λ q. IsKeptPlace sig.now (place_of q.value)) }
{
    let place = start(alloc, sig, plan, k, walk, e)?;
    Ok(Box::new(alloc, place)?)
}

/// The walk of a clause of part k of a plan, whose own walk and whose equation are given, through a tree.
///
/// It is Deep where recursion is looked for in a telescope that is too high, and where a term of the equation or of the
/// clause's own walk is not scoped over the signature and the context of the equation. Each leaf is at a place that is
/// scoped.
pub fn equation_proof(
    alloc: Global,
    sig: &Signature,
    plan: &Plan,
    k: u32,
    walk: &Walk,
    e: Goal,
    tree: &Tree,
    units: &mut Units,
) -> Result<Proof, ReportStop>
    requires ready { IsReady sig.now }
    ensures answer { Reports proof_of result units.new.left (spec.walk_made sig.now (plan_of plan.now) k (walk_of walk.now) (goal_of e.entry) (case_tree_of tree.now) units.old.left) }
    ensures sum { units.new.left + units.new.spent ≡ units.old.left + units.old.spent }
    ensures spends { units.new.left ≤ units.old.left }
    ensures kept { IfOk result (λ proof. AreKeptLeaves sig.now (leaves_in (proof_of proof))) }
{
    let mut kernel = Kernel::new(alloc, sig, *units);
    let made = equation_proof_with(alloc, sig, plan, k, walk, e, tree, &mut kernel);
    *units = kernel.into_units();
    made
}

/// `equation_proof` over a kernel with this signature, with its units.
pub fn equation_proof_with(
    alloc: Global,
    sig: &Signature,
    plan: &Plan,
    k: u32,
    walk: &Walk,
    e: Goal,
    tree: &Tree,
    kernel: &mut Kernel<'_>,
) -> Result<Proof, ReportStop>
    requires kernel { kernel.old.signature ≡ sig.now }
    requires ready { IsReady sig.now }
    ensures answer { Reports proof_of result kernel.new.left (spec.walk_made sig.now (plan_of plan.now) k (walk_of walk.now) (goal_of e.entry) (case_tree_of tree.now) kernel.old.left) }
    ensures sum { kernel.new.left + kernel.new.spent ≡ kernel.old.left + kernel.old.spent }
    ensures spends { kernel.new.left ≤ kernel.old.left }
    ensures kernel { kernel.new.signature ≡ sig.now }
    ensures kept { IfOk result (λ proof. AreKeptLeaves sig.now (leaves_in (proof_of proof))) }
{
    let place = boxed_start(alloc, sig, plan, k, walk, e)?;
    walk_tree(alloc, sig, tree, place, kernel)
}
