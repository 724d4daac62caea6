ghost use Rattle.std.specs.Prelude.{Ok};
ghost use Rattle.core_terms.specs.Answers.{Gives};
ghost use Rattle.function_session.specs.decisions.Known as spec;

use crate::decisions::Decision;
use core_terms::{Items, Stop};
use std::alloc::Global;

/// The families whose equality is decided into the family with the number, each with the entry of its decision, in the order in which
/// these were accepted.
pub(crate) fn known_into(
    alloc: Global,
    decisions: &[Decision],
    into: u32,
) -> Result<Items<(u32, u32)>, Stop>
    ensures { Gives (λ known. known) result (Ok (spec.known_into into decisions.now)) }
{
    let mut known = Items::new(alloc);
    for decision in decisions {
        if decision.into == into {
            known.push((decision.family, decision.entry))?;
        }
    }
    Ok(known)
}
