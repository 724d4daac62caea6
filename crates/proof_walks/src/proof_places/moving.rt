ghost use Rattle.std.specs.Prelude.{◌≡◌, Ok, map, take};
ghost use Rattle.core_terms.specs.Answers.{Gives, are_low as low_terms};
ghost use Rattle.core_terms.specs.Meanings.{tree_of, tele_of};
ghost use Rattle.case_trees.specs.Points.{under_solution};
ghost use Rattle.clause_reports.specs.ProofWalks as spec;
ghost use Rattle.proof_walks.specs.proof_terms.ProofMeanings.{place_of};
ghost use Rattle.proof_walks.specs.proof_places.PlaceParts as parts;

use crate::proof_terms::Place;
use core_terms::{MAX_HEIGHT, Stop, Tele, Term};
use run_terms::{all_instantiated, instance};
use std::alloc::Global;

/// Whether no term is too high.
fn are_low(terms: &[Term]) -> bool
    ensures { result ≡ low_terms (tele_of terms.now) }
{
    match terms {
        [] => true,
        [t, rest @ ..] => t.height() <= MAX_HEIGHT && are_low(rest),
    }
}

/// Whether nothing at a place is too high.
fn is_low(p: &Place) -> bool
    ensures { result ≡ parts.place_is_low (place_of p.now) }
{
    are_low(p.ctx.as_slice())
        && p.ty.height() <= MAX_HEIGHT
        && p.left.height() <= MAX_HEIGHT
        && p.right.height() <= MAX_HEIGHT
        && are_low(p.terms.as_slice())
        && are_low(p.values.as_slice())
}

/// The place itself, or Deep where a term there is too high.
fn bounded_place(p: Place) -> Result<Place, Stop>
    ensures { Gives place_of result (spec.bounded_place (place_of p)) }
{
    if is_low(&p) { Ok(p) } else { Err(Stop::Deep) }
}

/// The first `count` of some terms.
#[tactic(auto, using(case_below_gen::proofs::TermLists::cut_laws))]
fn first_of(terms: &[Term], count: usize) -> &[Term]
    ensures { tele_of result.now ≡ take count (tele_of terms.now) }
{
    if count < terms.len() {
        &terms[..count]
    } else {
        terms
    }
}

/// A term of a context whose variables have these terms.
#[tactic(auto, using(core_terms::proofs::Instances::instance_laws))]
fn under(alloc: Global, solution: &[Term], t: &Term) -> Result<Term, Stop>
    ensures { Gives tree_of result (Ok (under_solution (tele_of solution.now) (tree_of t.now))) }
{
    instance(alloc, solution, t, 0)
}

/// Terms of a context whose variables have these terms.
fn all_under(alloc: Global, solution: &[Term], terms: &[Term]) -> Result<Tele, Stop>
    ensures { Gives tele_of result (Ok (map (under_solution (tele_of solution.now)) (tele_of terms.now))) }
{
    all_instantiated(alloc, solution, terms)
}

/// The place in a new context, where the variables of the old one have these terms.
fn place_under(alloc: Global, p: &Place, context: Tele, own: &[Term]) -> Result<Place, Stop>
    ensures { Gives place_of result (Ok (parts.place_under (place_of p.now) (tele_of context) (tele_of own.now))) }
{
    Ok(Place {
        ctx: context,
        ty: under(alloc, own, &p.ty)?,
        left: under(alloc, own, &p.left)?,
        right: under(alloc, own, &p.right)?,
        terms: all_under(alloc, own, p.terms.as_slice())?,
        values: all_under(alloc, own, p.values.as_slice())?,
    })
}

/// The place after the solution of a problem, which also has terms for the arguments of a constructor, or Deep where something there is
/// too high.
pub fn moved_place(
    alloc: Global,
    p: &Place,
    context: Tele,
    solution: &[Term],
) -> Result<Place, Stop>
    ensures { Gives place_of result (spec.bounded_place (spec.moved_place (place_of p.now) (tele_of context) (tele_of solution.now))) }
{
    let own = first_of(solution, p.ctx.as_slice().len());
    bounded_place(place_under(alloc, p, context, own)?)
}
