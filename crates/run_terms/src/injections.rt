ghost use Rattle.std.specs.Prelude.{◌≡◌, Ok, length};
ghost use Rattle.core_terms.specs.Answers.{Gives};
ghost use Rattle.core_terms.specs.Meanings.{tele_of};
ghost use Rattle.core_sig.specs.Kinds.{HaveKinds};
ghost use Rattle.core_sig.specs.Meanings.{family_of};
ghost use Rattle.tele_eq.specs.Items.{items_of};
ghost use Rattle.theory.specs.Telescopes.{variables};
ghost use Rattle.unification.specs.Injecting.{lifted};
ghost use Rattle.run_terms.specs.CodeInjections as spec;
ghost use Rattle.run_terms.specs.ComparisonMeanings.{comparison_of};
ghost use Rattle.run_terms.specs.Made as made;
ghost use Rattle.run_terms.specs.StandingMeanings.{equations_of, standing_of, state_of};

use crate::comparisons::Comparison;
use crate::injecting::{argument_items, constructor_terms, joined_equations};
use crate::instances::{all_raised, family_items};
use crate::replays::with_equations;
use crate::smallness::{congruences_made, equations_made};
use crate::state::{Equation, Standing, State};
use core_terms::{Items, Stop, Tele, Term, number_of};
use std::alloc::Global;
use tele_eq::{Item, with_variables};

/// The telescope of the arguments of the left constructor.
fn arguments_of(alloc: Global, c: &Comparison) -> Result<Items<Item>, Stop>
    requires kinds { HaveKinds c.now.left.built.family (family_of c.now.left.built.record.now) 0 c.now.left.built.con.now.args }
    requires parameters { length c.now.parameters ≡ length c.now.left.built.record.now.params }
    ensures { Gives items_of result (Ok (spec.arguments_of (comparison_of c.now))) }
{
    argument_items(alloc, c.parameters.as_slice(), c.left.built.con)
}

/// The targets of the left constructor, and the constructor, at parameters and after its arguments.
fn terms_at(alloc: Global, c: &Comparison, ps: &[Term]) -> Result<Tele, Stop>
    ensures { Gives tele_of result (Ok (spec.terms_at (comparison_of c.now) (tele_of ps.now))) }
{
    let built = c.left.built;
    constructor_terms(alloc, built.family, built.number, ps, built.con)
}

/// The proofs of the equations between terms over two telescopes, after the equations of the arguments, or Deep.
fn proofs_between(
    alloc: Global,
    c: &Comparison,
    count: u32,
    from: &Items<Item>,
    to: &Items<Item>,
    terms: &Tele,
) -> Result<Tele, Stop>
    ensures { Gives tele_of result (made.congruences_made (items_of from.now) (items_of to.now) (tele_of terms.now) (lifted count (comparison_of c.now).left.arguments) (lifted count (comparison_of c.now).right.arguments) (variables count)) }
{
    let left = all_raised(alloc, count, c.left.arguments.as_slice())?;
    let right = all_raised(alloc, count, c.right.arguments.as_slice())?;
    let eqs = with_variables(Items::new(alloc), count)?;
    congruences_made(alloc, from, to, terms, &left, &right, &eqs)
}

/// The proof of each equation of a group, after the equations of the arguments, at the parameters that the equations have, or
/// Deep.
fn proofs_after(alloc: Global, c: &Comparison, count: u32, ps: &[Term]) -> Result<Tele, Stop>
    requires kinds { HaveKinds c.now.left.built.family (family_of c.now.left.built.record.now) 0 c.now.left.built.con.now.args }
    requires parameters { length ps.now ≡ length c.now.left.built.record.now.params }
    ensures { Gives tele_of result (spec.proofs_after (comparison_of c.now) count (tele_of ps.now)) }
{
    let built = c.left.built;
    let from = argument_items(alloc, ps, built.con)?;
    let to = family_items(alloc, built.family, built.record, ps)?;
    let terms = terms_at(alloc, c, ps)?;
    proofs_between(alloc, c, count, &from, &to, &terms)
}

/// The proof of each equation of a group, after the equations of the arguments, or Deep.
fn group_proofs(alloc: Global, c: &Comparison) -> Result<Tele, Stop>
    requires kinds { HaveKinds c.now.left.built.family (family_of c.now.left.built.record.now) 0 c.now.left.built.con.now.args }
    requires parameters { length c.now.parameters ≡ length c.now.left.built.record.now.params }
    ensures { Gives tele_of result (spec.group_made (comparison_of c.now)) }
{
    let count = number_of(c.left.built.con.args.as_slice().len())?;
    let ps = all_raised(alloc, count, c.parameters.as_slice())?;
    proofs_after(alloc, c, count, ps.as_slice())
}

/// The equations after an injectivity of the first `group` ones, or Deep.
fn injected_equations(
    alloc: Global,
    s: &State,
    group: u32,
    c: &Comparison,
) -> Result<Items<Equation>, Stop>
    requires kinds { HaveKinds c.now.left.built.family (family_of c.now.left.built.record.now) 0 c.now.left.built.con.now.args }
    requires parameters { length c.now.parameters ≡ length c.now.left.built.record.now.params }
    ensures { Gives equations_of result (spec.injected_made (state_of s.now) group (comparison_of c.now)) }
{
    let tele = arguments_of(alloc, c)?;
    let types = equations_made(alloc, &tele, &c.left.arguments, &c.right.arguments)?;
    let proofs = group_proofs(alloc, c)?;
    let terms = terms_at(alloc, c, c.parameters.as_slice())?;
    let (left, right) = (c.left.arguments.as_slice(), c.right.arguments.as_slice());
    let (tele, types) = (tele.as_slice(), types.as_slice());
    let (terms, proofs) = (terms.as_slice(), proofs.as_slice());
    joined_equations(alloc, s, group, tele, types, left, right, terms, proofs)
}

/// The standing after an injectivity of the first `group` equations, or Deep where something in their equations is too high.
pub fn injected_standing(
    alloc: Global,
    s: &Standing,
    group: u32,
    c: &Comparison,
) -> Result<Standing, Stop>
    requires kinds { HaveKinds c.now.left.built.family (family_of c.now.left.built.record.now) 0 c.now.left.built.con.now.args }
    requires parameters { length c.now.parameters ≡ length c.now.left.built.record.now.params }
    ensures { Gives standing_of result (spec.standing_made (standing_of s.now) group (comparison_of c.now)) }
{
    let equations = injected_equations(alloc, &s.state, group, c)?;
    with_equations(alloc, s, equations)
}
