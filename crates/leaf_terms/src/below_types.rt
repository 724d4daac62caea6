ghost use Rattle.std.specs.Prelude.{◌≡◌, ◌∷◌, ◌++◌, [], Ok, take};
ghost use Rattle.core_terms.specs.Answers.{Gives};
ghost use Rattle.core_terms.specs.Meanings.{tree_of, tele_of};
ghost use Rattle.tele_eq.specs.Items as items;
ghost use Rattle.theory.specs.Eliminators.{no_variable};
ghost use Rattle.theory.specs.Substitutions.{fill, inst};
ghost use Rattle.theory.specs.Terms as tree;
ghost use Rattle.tree_translation.specs.Naming as names;
ghost use Rattle.tree_translation.specs.Plans.{own_part};
ghost use Rattle.tree_translation.specs.Recursion as spec;
ghost use Rattle.run_terms.specs.CodeNaming.{naming_of};
ghost use Rattle.leaf_terms.specs.PlanMeanings.{plan_of};
ghost use Rattle.leaf_terms.specs.RecursionMeanings.{recursion_of};

use crate::entry_names::motive_name;
use crate::orders::scrutinee_positions;
use crate::plan::Plan;
use crate::recursion::{Recursion, own_tele};
use core_terms::{Items, Stop, Tele, Term, applied, copy_whole, into_spine};
use run_terms::{Naming, below_name, constant, instance, with_terms};
use std::alloc::Global;

/// The term at a position, or Type 0 where there is none.
pub fn copied_at(alloc: Global, terms: &[Term], position: u32) -> Result<Term, Stop>
    ensures { Gives tree_of result (Ok (items.term_at (tele_of terms.now) position)) }
{
    match terms.get(position as usize) {
        Some(t) => copy_whole(alloc, t),
        None => Ok(Term::Sort(0)),
    }
}

/// Terms, followed by those at some positions of others.
#[tactic(auto, using(tele_eq::proofs::Growing::growing))]
fn with_terms_at(
    alloc: Global,
    positions: &[u32],
    terms: &[Term],
    mut made: Tele,
) -> Result<Tele, Stop>
    ensures { Gives tele_of result (Ok (tele_of made ++ spec.terms_at positions.now (tele_of terms.now))) }
{
    match positions {
        [] => Ok(made),
        [j, rest @ ..] => {
            made.push(copied_at(alloc, terms, *j)?)?;
            with_terms_at(alloc, rest, terms, made)
        }
    }
}

/// The terms at some positions.
pub fn terms_at(alloc: Global, positions: &[u32], terms: &[Term]) -> Result<Tele, Stop>
    ensures { Gives tele_of result (Ok (spec.terms_at positions.now (tele_of terms.now))) }
{
    with_terms_at(alloc, positions, terms, Items::new(alloc))
}

/// Terms, followed by the first `count` of others.
#[tactic(auto, using(tele_eq::proofs::Growing::growing))]
fn with_first(alloc: Global, count: usize, terms: &[Term], mut made: Tele) -> Result<Tele, Stop>
    ensures { Gives tele_of result (Ok (tele_of made ++ take count (tele_of terms.now))) }
{
    if count == 0 {
        return Ok(made);
    }
    match terms {
        [] => Ok(made),
        [t, rest @ ..] => {
            made.push(copy_whole(alloc, t)?)?;
            with_first(alloc, count - 1, rest, made)
        }
    }
}

/// The first `count` of some terms.
pub fn first_of(alloc: Global, count: usize, terms: &[Term]) -> Result<Tele, Stop>
    ensures { Gives tele_of result (Ok (take count (tele_of terms.now))) }
{
    with_first(alloc, count, terms, Items::new(alloc))
}

/// A term at values for its variables.
#[tactic(auto, using(core_terms::proofs::Instances::instance_laws))]
pub(crate) fn at_values(alloc: Global, values: &[Term], t: &Term) -> Result<Term, Stop>
    ensures { Gives tree_of result (Ok (inst (fill no_variable (tele_of values.now)) (tree_of t.now))) }
{
    instance(alloc, values, t, 0)
}

/// The type at a position of a telescope, at the terms before it.
fn type_with(alloc: Global, values: &[Term], tele: &[Term], position: u32) -> Result<Term, Stop>
    ensures { Gives tree_of result (Ok (inst (fill no_variable (tele_of values.now)) (items.term_at (tele_of tele.now) position))) }
{
    match tele.get(position as usize) {
        Some(ty) => at_values(alloc, values, ty),
        None => Ok(Term::Sort(0)),
    }
}

/// The type at a position of a telescope, where terms for the whole telescope are given.
fn type_at(alloc: Global, tele: &[Term], position: u32, terms: &[Term]) -> Result<Term, Stop>
    ensures { Gives tree_of result (Ok (inst (fill no_variable (take position (tele_of terms.now))) (items.term_at (tele_of tele.now) position))) }
{
    let values = first_of(alloc, position as usize, terms)?;
    type_with(alloc, values.as_slice(), tele, position)
}

/// ps: the parameters in the type of the position.
#[tactic(auto, using(crate::proofs::Lengths::lengths))]
pub fn parameters_at(
    alloc: Global,
    tele: &[Term],
    r: &Recursion,
    terms: &[Term],
) -> Result<Tele, Stop>
    ensures { Gives tele_of result (Ok (spec.parameters_at (tele_of tele.now) (recursion_of r.now) (tele_of terms.now))) }
{
    let ty = type_at(alloc, tele, r.position, terms)?;
    let spine = into_spine(alloc, ty)?;
    first_of(alloc, r.family.params.as_slice().len(), spine.as_slice())
}

/// `F!motive F`.
pub fn motive_at(
    alloc: Global,
    naming: Naming,
    plan: &Plan,
    r: &Recursion,
    terms: &[Term],
) -> Result<Term, Stop>
    ensures { Gives tree_of result (Ok (spec.motive_at (naming_of naming.entry) (plan_of plan.now) (recursion_of r.now) (tele_of terms.now))) }
{
    let name = motive_name(alloc, &plan.name)?;
    let head = constant(naming, &name)?;
    let fixed = terms_at(alloc, r.admission.fixed.as_slice(), terms)?;
    applied(alloc, head, fixed.into_vec())
}

/// is, x.
pub fn scrutinee_at(alloc: Global, r: &Recursion, terms: &[Term]) -> Result<Tele, Stop>
    ensures { Gives tele_of result (Ok (spec.scrutinee_at (recursion_of r.now) (tele_of terms.now))) }
{
    let positions = scrutinee_positions(alloc, r)?;
    terms_at(alloc, positions.as_slice(), terms)
}

/// `ps motive is x`.
#[tactic(auto, using(tele_eq::proofs::Growing::growing))]
fn below_arguments(
    alloc: Global,
    plan: &Plan,
    r: &Recursion,
    motive: Term,
    terms: &[Term],
) -> Result<Tele, Stop>
    ensures { Gives tele_of result (Ok (spec.parameters_at (own_part (plan_of plan.now)).tele (recursion_of r.now) (tele_of terms.now) ++ tree_of motive ∷ spec.scrutinee_at (recursion_of r.now) (tele_of terms.now))) }
{
    let mut made = parameters_at(alloc, own_tele(plan), r, terms)?;
    made.push(motive)?;
    let scrutinee = scrutinee_at(alloc, r, terms)?;
    with_terms(alloc, made, scrutinee.as_slice())
}

/// The constant `D!below.L`.
fn below_constant(alloc: Global, naming: Naming, plan: &Plan, r: &Recursion) -> Result<Term, Stop>
    ensures { Gives tree_of result (Ok (tree.Const (naming_of naming.entry (names.below_name (recursion_of r.now).family (plan_of plan.now).level)))) }
{
    let name = below_name(alloc, r.family, plan.level)?;
    constant(naming, &name)
}

/// The type of the below value of a motive: `D!below.L ps motive is x`.
pub fn below_with(
    alloc: Global,
    naming: Naming,
    plan: &Plan,
    r: &Recursion,
    motive: Term,
    terms: &[Term],
) -> Result<Term, Stop>
    ensures { Gives tree_of result (Ok (spec.below_with (naming_of naming.entry) (plan_of plan.now) (recursion_of r.now) (tree_of motive) (tele_of terms.now))) }
{
    let head = below_constant(alloc, naming, plan, r)?;
    let arguments = below_arguments(alloc, plan, r, motive, terms)?;
    applied(alloc, head, arguments.into_vec())
}

/// `D!below.L ps (F!motive F) is x`.
pub fn below_type(
    alloc: Global,
    naming: Naming,
    plan: &Plan,
    r: &Recursion,
    terms: &[Term],
) -> Result<Term, Stop>
    ensures { Gives tree_of result (Ok (spec.below_type (naming_of naming.entry) (plan_of plan.now) (recursion_of r.now) (tele_of terms.now))) }
{
    let motive = motive_at(alloc, naming, plan, r, terms)?;
    below_with(alloc, naming, plan, r, motive, terms)
}
