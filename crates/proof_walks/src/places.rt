//! The next places of a walk.
ghost use Rattle.std.specs.Prelude.{◌≡◌, ◌≤◌, IfOk, Ok, length};
ghost use Rattle.core_terms.specs.Answers.{Gives};
ghost use Rattle.core_terms.specs.Meanings.{tele_of};
ghost use Rattle.clause_walks.specs.PairConditions.{IsSolvedIn};
ghost use Rattle.clause_reports.specs.ProofWalks as spec;
ghost use Rattle.proof_walks.specs.proof_terms.ProofMeanings.{place_of};
ghost use Rattle.proof_walks.specs.PlaceScopes.{IsKeptPlace};
ghost use Rattle.problems.specs.Conditions.{most_levels};

use crate::proof_places::moved_place;
use crate::proof_terms::Place;
use core_sig::Signature;
use core_terms::{Stop, Tele, Term, copy_tele};
use std::alloc::Global;

/// How many variables a context may have; with more, memory is short.
const MOST_LEVELS: usize = 2147400000;

/// The place itself, or Memory where its context has too many variables.
pub(crate) fn few_place(p: Place) -> Result<Place, Stop>
    ensures answer { Gives place_of result (Ok (place_of p)) }
    ensures few { IfOk result (λ q. length q.ctx ≤ most_levels) }
{
    if p.ctx.as_slice().len() > MOST_LEVELS {
        return Err(Stop::Memory);
    }
    Ok(p)
}

/// The place after a solution, or Deep where a term there is too high.
fn place_after(
    alloc: Global,
    sig: &Signature,
    p: &Place,
    ctx: &[Term],
    subst: &[Term],
) -> Result<Place, Stop>
    requires place { IsKeptPlace sig.now (place_of p.now) }
    requires solved { IsSolvedIn sig.now (tele_of ctx.now) (tele_of subst.now) }
    ensures answer { Gives place_of result (spec.bounded_place (spec.moved_place (place_of p.now) (tele_of ctx.now) (tele_of subst.now))) }
    ensures kept { IfOk result (λ q. IsKeptPlace sig.now (place_of q)) }
{
    let context = copy_tele(alloc, ctx)?;
    let moved = moved_place(alloc, p, context, subst)?;
    few_place(moved)
}

/// The place after a solution in a box of its own, or Deep where a term there is too high.
pub(crate) fn boxed_after(
    alloc: Global,
    sig: &Signature,
    p: &Place,
    ctx: &[Term],
    subst: &[Term],
) -> Result<Box<Place>, Stop>
    requires place { IsKeptPlace sig.now (place_of p.now) }
    requires solved { IsSolvedIn sig.now (tele_of ctx.now) (tele_of subst.now) }
    ensures answer { Gives (λ q. place_of q.value) result (spec.bounded_place (spec.moved_place (place_of p.now) (tele_of ctx.now) (tele_of subst.now))) }
    ensures kept { IfOk result (λ q. IsKeptPlace sig.now (place_of q.value)) }
{
    let place = place_after(alloc, sig, p, ctx, subst)?;
    Ok(Box::new(alloc, place)?)
}

/// The place with other terms for the variables of the tree's node.
pub(crate) fn with_values(mut p: Box<Place>, values: Tele) -> Box<Place>
    ensures { place_of result.value ≡ record (place_of p.value) { values = tele_of values } }
{
    p.values = values;
    p
}
