ghost use Rattle.std.specs.Prelude.{◌≡◌, ◌++◌, Ok, Err, OnErr, OnOk};
ghost use Rattle.core_terms.specs.Answers.{Gives};
ghost use Rattle.core_terms.specs.declared.stop.Stop.TheVariants.{Memory};
ghost use Rattle.clause_reports.specs.ProofWalks as spec;
ghost use Rattle.proof_walks.specs.proof_terms.ProofMeanings.{proof_of, proofs_of};
ghost use Rattle.proof_walks.specs.WalkMeanings.{leaves_of};

use crate::proof_terms::{Place, Proof};
use core_terms::{Items, Stop};
use std::alloc::Global;

/// A leaf of a proof: the number of the clause of the tree that it belongs to, and its place.
#[derive(Clone, Copy)]
pub struct Leaf<'a> {
    pub clause: u32,
    pub place: &'a Place,
}

/// The leaves of a proof after those that are found.
#[cycle(leaves)]
fn add_leaves<'a>(proof: &'a Proof, found: &mut Items<Leaf<'a>>) -> Result<(), Stop>
    ensures ok { OnOk result (leaves_of found.new ≡ leaves_of found.old ++ spec.leaves_in (proof_of proof.now)) }
    ensures err { OnErr result (result ≡ Err Memory) }
{
    match proof {
        Proof::Ends { clause, place } => found.push(Leaf {
            clause: *clause,
            place,
        }),
        Proof::Splits { proofs, .. } => add_all(proofs.as_slice(), found),
    }
}

/// The leaves of proofs, one after the other, after those that are found.
#[cycle(leaves)]
fn add_all<'a>(proofs: &'a [Proof], found: &mut Items<Leaf<'a>>) -> Result<(), Stop>
    ensures ok { OnOk result (leaves_of found.new ≡ leaves_of found.old ++ spec.all_leaves (proofs_of proofs.now)) }
    ensures err { OnErr result (result ≡ Err Memory) }
{
    match proofs {
        [] => Ok(()),
        [proof, rest @ ..] => {
            add_leaves(proof, found)?;
            add_all(rest, found)
        }
    }
}

/// The leaves of a proof, in their order.
pub fn leaves_in<'a>(alloc: Global, proof: &'a Proof) -> Result<Items<Leaf<'a>>, Stop>
    ensures { Gives leaves_of result (Ok (spec.leaves_in (proof_of proof.now))) }
{
    let mut found = Items::new(alloc);
    add_leaves(proof, &mut found)?;
    Ok(found)
}
