//! The names of proofs.
ghost use Rattle.std.specs.Prelude.{◌++◌, Ok, codes, decimal};
ghost use Rattle.clause_reports.specs.Equations.{part_name as part_meant};
ghost use Rattle.core_terms.specs.Answers.{Gives};
ghost use Rattle.leaf_terms.specs.PlanMeanings.{plan_of};
ghost use Rattle.proof_walks.specs.proof_terms.CodeProofs as spec;

use core_terms::{Name, Stop, next};
use core_text::write_number;
use leaf_terms::{Plan, part_name};
use std::alloc::Global;

/// A part's name, a mark, and the number of a clause.
fn with_clause(part: Name, number: u32) -> Result<Name, Stop>
    ensures { Gives (λ name. name) result (Ok (part ++ codes "!c" ++ decimal number)) }
{
    let mut text = part.into_vec();
    text.extend_from_slice(b"!c")?;
    write_number(&mut text, u64::from(number))?;
    Ok(Name::from_vec(text))
}

/// `F!cK`: the name of the proof of clause K, counted from 1, of the part F.
pub(crate) fn proof_name(alloc: Global, plan: &Plan, k: u32, clause: u32) -> Result<Name, Stop>
    ensures { Gives (λ name. name) result (Ok (spec.name_made (part_meant (plan_of plan.now) k) clause)) }
{
    let part = part_name(alloc, &plan.name, k)?;
    with_clause(part, next(clause)?)
}
