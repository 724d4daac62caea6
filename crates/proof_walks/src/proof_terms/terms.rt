ghost use Rattle.std.specs.Prelude.{◌++◌, [], Ok, map};
ghost use Rattle.core_terms.specs.Answers.{Gives};
ghost use Rattle.core_terms.specs.Meanings.{tree_of, tele_of};
ghost use Rattle.core_terms.specs.TreeMeanings.{steps_of};
ghost use Rattle.theory.specs.Signatures as signatures;
ghost use Rattle.run_terms.specs.outlines.OutlineMeanings.{outline_of, outlines_of};
ghost use Rattle.run_terms.specs.CodeNaming.{naming_of};
ghost use Rattle.split_terms.specs.CodeSplits as splits;
ghost use Rattle.split_terms.specs.NodeMeanings.{node_of};
ghost use Rattle.clause_reports.specs.ProofTerms as meant;
ghost use Rattle.proof_walks.specs.proof_terms.CodeProofs as spec;
ghost use Rattle.proof_walks.specs.proof_terms.ProofMeanings.{place_of, proof_of, proofs_of};

use crate::proof_terms::proof::{Place, Proof};
use core_sig::{Signature, equality};
use core_terms::{Items, Name, Step, Stop, Term, copy_tele, copy_whole};
use run_terms::outlines::{Outline, Outlines, listed};
use run_terms::{Naming, reflexivity};
use split_terms::{Node, split_names, split_outline};
use std::alloc::Global;

/// `Eq.L type left right`.
pub fn equation(
    alloc: Global,
    level: u8,
    ty: &Term,
    left: &Term,
    right: &Term,
) -> Result<Term, Stop>
    ensures { Gives tree_of result (Ok (signatures.equation level (tree_of ty.now) (tree_of left.now) (tree_of right.now))) }
{
    let head = Term::new_app(alloc, Term::Fam(equality(level)), copy_whole(alloc, ty)?)?;
    let head = Term::new_app(alloc, head, copy_whole(alloc, left)?)?;
    Term::new_app(alloc, head, copy_whole(alloc, right)?)
}

/// The node of a place, where the goal is its equation.
fn goal_node(alloc: Global, level: u8, p: &Place) -> Result<Node, Stop>
    ensures { Gives node_of result (Ok (meant.goal_node level (place_of p.now))) }
{
    Ok(Node {
        ctx: copy_tele(alloc, p.ctx.as_slice())?,
        goal: equation(alloc, level, &p.ty, &p.left, &p.right)?,
        hidden: Items::new(alloc),
    })
}

/// Runs, followed by others.
#[tactic(auto, using(tele_eq::proofs::Growing::growing))]
fn with_runs<'a>(
    runs: &'a [Items<Step>],
    mut made: Vec<&'a [Step]>,
) -> Result<Vec<&'a [Step]>, Stop>
    ensures { Gives (λ v. map (λ steps. steps_of steps.now) v.items) result (Ok (map (λ steps. steps_of steps.now) made.entry.items ++ map steps_of runs.now)) }
{
    match runs {
        [] => Ok(made),
        [steps, rest @ ..] => {
            made.push(steps.as_slice())?;
            with_runs(rest, made)
        }
    }
}

/// Runs by reference.
fn runs_of<'a>(alloc: Global, runs: &'a [Items<Step>]) -> Result<Vec<&'a [Step]>, Stop>
    ensures { Gives (λ v. map (λ steps. steps_of steps.now) v.items) result (Ok (map steps_of runs.now)) }
{
    with_runs(runs, Vec::new(alloc))
}

/// The term of a leaf: its equation by reflexivity.
fn end_term(alloc: Global, level: u8, p: &Place) -> Result<Outline, Stop>
    ensures { Gives outline_of result (Ok (signatures.reflexivity level (tree_of p.now.ty) (tree_of p.now.left))) }
{
    let ty = copy_whole(alloc, &p.ty)?;
    let left = copy_whole(alloc, &p.left)?;
    Ok(Outline::Whole(reflexivity(alloc, level, ty, left)?))
}

/// The term of a split at a place, from those of the proofs after it, or Deep.
fn split_at(
    alloc: Global,
    sig: &Signature,
    naming: Naming,
    level: u8,
    p: &Place,
    x: u32,
    ty: &Term,
    runs: &[Items<Step>],
    ends: Outlines,
) -> Result<Outline, Stop>
    ensures { Gives outline_of result (splits.split_node_made sig.now (naming_of naming.entry) level (meant.goal_node level (place_of p.now)) x (tree_of ty.now) (map steps_of runs.now) (outlines_of ends)) }
{
    let node = goal_node(alloc, level, p)?;
    let runs = runs_of(alloc, runs)?;
    split_outline(
        alloc,
        sig,
        naming,
        level,
        &node,
        x,
        ty,
        runs.as_slice(),
        ends,
    )
}

/// The term of a proof, in outline, or Deep where a split node of it is.
#[cycle(terms)]
pub fn proof_term(
    alloc: Global,
    sig: &Signature,
    naming: Naming,
    level: u8,
    proof: &Proof,
) -> Result<Outline, Stop>
    ensures { Gives outline_of result (spec.proof_made sig.now (naming_of naming.entry) level (proof_of proof.now)) }
{
    match proof {
        Proof::Ends { place, .. } => end_term(alloc, level, place),
        Proof::Splits {
            place,
            x,
            ty,
            runs,
            proofs,
        } => {
            let none = Items::new(alloc);
            let ends = proof_terms(alloc, sig, naming, level, proofs.as_slice(), none)?;
            split_at(
                alloc,
                sig,
                naming,
                level,
                place,
                *x,
                ty,
                runs.as_slice(),
                listed(alloc, ends.into_vec())?,
            )
        }
    }
}

/// Terms, followed by those of proofs, or Deep.
#[cycle(terms)]
#[tactic(auto, using(crate::proofs::proof_terms::Joining::joining))]
fn proof_terms(
    alloc: Global,
    sig: &Signature,
    naming: Naming,
    level: u8,
    proofs: &[Proof],
    mut made: Items<Outline>,
) -> Result<Items<Outline>, Stop>
    ensures { Gives (λ v. map outline_of v) result (spec.proofs_made sig.now (naming_of naming.entry) level (proofs_of proofs.now) (map outline_of made)) }
{
    match proofs {
        [] => Ok(made),
        [proof, rest @ ..] => {
            made.push(proof_term(alloc, sig, naming, level, proof)?)?;
            proof_terms(alloc, sig, naming, level, rest, made)
        }
    }
}

/// Names, followed by those of a split at a place, or Deep.
fn with_split(
    alloc: Global,
    sig: &Signature,
    level: u8,
    p: &Place,
    x: u32,
    ty: &Term,
    runs: &[Items<Step>],
    names: Items<Name>,
) -> Result<Items<Name>, Stop>
    ensures { Gives (λ ns. ns) result (splits.split_names_made sig.now level (meant.goal_node level (place_of p.now)) x (tree_of ty.now) (map steps_of runs.now) names) }
{
    let node = goal_node(alloc, level, p)?;
    let runs = runs_of(alloc, runs)?;
    split_names(alloc, sig, level, &node, x, ty, runs.as_slice(), names)
}

/// Names, followed by those that the term of a proof may mention, or Deep.
#[cycle(names)]
pub fn proof_names(
    alloc: Global,
    sig: &Signature,
    level: u8,
    proof: &Proof,
    names: Items<Name>,
) -> Result<Items<Name>, Stop>
    ensures { Gives (λ ns. ns) result (spec.names_made sig.now level (proof_of proof.now) names) }
{
    match proof {
        Proof::Ends { .. } => Ok(names),
        Proof::Splits {
            place,
            x,
            ty,
            runs,
            proofs,
        } => {
            let names = with_split(alloc, sig, level, place, *x, ty, runs.as_slice(), names)?;
            all_names(alloc, sig, level, proofs.as_slice(), names)
        }
    }
}

/// Names, followed by those that the terms of proofs may mention, one proof after the other, or Deep.
#[cycle(names)]
fn all_names(
    alloc: Global,
    sig: &Signature,
    level: u8,
    proofs: &[Proof],
    names: Items<Name>,
) -> Result<Items<Name>, Stop>
    ensures { Gives (λ ns. ns) result (spec.all_names_made sig.now level (proofs_of proofs.now) names) }
{
    match proofs {
        [] => Ok(names),
        [proof, rest @ ..] => {
            let names = proof_names(alloc, sig, level, proof, names)?;
            all_names(alloc, sig, level, rest, names)
        }
    }
}
