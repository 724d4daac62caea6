ghost use Rattle.std.specs.Prelude.{[], Ok};
ghost use Rattle.core_terms.specs.Answers.{Gives};
ghost use Rattle.core_terms.specs.Meanings.{tree_of};
ghost use Rattle.core_sig.specs.Drafts.{draft_of};
ghost use Rattle.run_terms.specs.CodeNaming.{naming_of};
ghost use Rattle.proof_walks.specs.proof_terms.CodeProofs as spec;
ghost use Rattle.proof_walks.specs.proof_terms.ProofMeanings.{goal_of, proof_of};
ghost use Rattle.clause_reports.specs.Equations.{closed_type};

use crate::proof_terms::proof::Proof;
use crate::proof_terms::terms::{equation, proof_names, proof_term};
use core_sig::{Draft, Signature};
use core_terms::{Items, Name, Stop, Term, copy_tele, functions, products};
use leaf_terms::numbered;
use run_terms::outlines::whole;
use run_terms::{Naming, with_names};
use std::alloc::Global;

/// An equation that is to be proved, over a context.
#[derive(Clone, Copy)]
pub struct Goal<'a> {
    pub ctx: &'a [Term],
    pub ty: &'a Term,
    pub left: &'a Term,
    pub right: &'a Term,
}

/// The names that a proof may mention, each once, or Deep.
fn table_of(alloc: Global, sig: &Signature, level: u8, proof: &Proof) -> Result<Items<Name>, Stop>
    ensures { Gives (λ ns. ns) result (spec.table_made sig.now level (proof_of proof.now)) }
{
    let names = proof_names(alloc, sig, level, proof, Items::new(alloc))?;
    with_names(alloc, Items::new(alloc), names.as_slice())
}

/// `(context) -> Eq.L type left right`.
fn goal_type(alloc: Global, level: u8, e: Goal) -> Result<Term, Stop>
    ensures { Gives tree_of result (Ok (closed_type level (goal_of e.entry))) }
{
    let context = copy_tele(alloc, e.ctx)?;
    let end = equation(alloc, level, e.ty, e.left, e.right)?;
    products(alloc, context.into_vec(), end)
}

/// `\context. proof`, or Deep.
fn body_of(
    alloc: Global,
    sig: &Signature,
    naming: Naming,
    level: u8,
    e: Goal,
    proof: &Proof,
) -> Result<Term, Stop>
    ensures { Gives tree_of result (spec.body_made sig.now (naming_of naming.entry) level (goal_of e.entry) (proof_of proof.now)) }
{
    let body = proof_term(alloc, sig, naming, level, proof)?;
    let context = copy_tele(alloc, e.ctx)?;
    functions(alloc, context.into_vec(), whole(alloc, body)?)
}

/// The draft of a proof that is made with the numbers of these names, or Deep.
fn candidate_with(
    alloc: Global,
    sig: &Signature,
    name: Name,
    level: u8,
    e: Goal,
    proof: &Proof,
    table: &[Name],
) -> Result<Draft, Stop>
    ensures { Gives draft_of result (spec.candidate_with sig.now name level (goal_of e.entry) (proof_of proof.now) table.now) }
{
    let naming = Naming {
        base: sig.len(),
        names: table,
    };
    let body = body_of(alloc, sig, naming, level, e, proof)?;
    let ty = goal_type(alloc, level, e)?;
    numbered(alloc, name, sig.len(), table, &ty, &body)
}

/// The candidate for the proof of an equation: a definition of its closed type by the closed term of the walk. Deep
/// where one of these is too high, or a term on the way to them.
pub fn candidate(
    alloc: Global,
    sig: &Signature,
    name: Name,
    level: u8,
    e: Goal,
    proof: &Proof,
) -> Result<Draft, Stop>
    ensures { Gives draft_of result (spec.candidate_made sig.now name level (goal_of e.entry) (proof_of proof.now)) }
{
    let table = table_of(alloc, sig, level, proof)?;
    candidate_with(alloc, sig, name, level, e, proof, table.as_slice())
}
