ghost use Rattle.std.specs.Prelude.{◌≡◌, ◌≤◌, ◌<◌, ◌+◌, ◌^◌, ◌++◌, true, false, length, map, IfErr, OnOk};
ghost use Rattle.std.specs.List.{All};
ghost use Rattle.core_terms.specs.Answers.{Gives, IsUnforeseen, Makes, Unless, are_low, bounded, bounded_terms};
ghost use Rattle.core_terms.specs.Bounds.{most_inner_variables};
ghost use Rattle.core_terms.specs.Instances.{instance_of, instances_of, telescope_instance_of, under_binders};
ghost use Rattle.core_terms.specs.Meanings.{tree_of, tele_of};
ghost use Rattle.core_terms.specs.declared.stop.Stop.TheVariants.{Deep};
ghost use Rattle.theory.specs.Eliminators.{no_variable};
ghost use Rattle.theory.specs.Substitutions.{fill, inst};
ghost use Rattle.theory.specs.Telescopes.{inst_telescope};
ghost use Rattle.theory.specs.Terms as tree;

use crate::{Items, MAX_HEIGHT, Stop, Tele, Term, checked, copy_whole, lift};
use std::alloc::Global;

/// Puts a value for every free variable of a term: the last one for the nearest variable. Deep where the outcome is too high.
///
/// A variable that no value stands for becomes `Type 0`.
#[tactic(auto, using(crate::proofs::Instances::instance_laws))]
pub fn inst(alloc: Global, values: &[Term], t: &Term) -> Result<Term, Stop>
    requires { All (λ v. tree.free_of v ≤ most_inner_variables) (tele_of values.now) }
    ensures { Gives tree_of result (bounded (inst (fill no_variable (tele_of values.now)) (tree_of t.now))) }
{
    inst_low(alloc, values, t, 0)
}

/// `inst` in each term of a list. Deep where one of the outcomes is too high.
#[tactic(auto, using(crate::proofs::Instances::instance_laws))]
pub fn inst_terms(alloc: Global, values: &[Term], terms: &[Term]) -> Result<Tele, Stop>
    requires { All (λ v. tree.free_of v ≤ most_inner_variables) (tele_of values.now) }
    ensures { Gives tele_of result (bounded_terms (map (inst (fill no_variable (tele_of values.now))) (tele_of terms.now))) }
{
    let mut instances = Items::new(alloc);
    add_terms(alloc, values, terms, &mut instances)?;
    Ok(instances)
}

/// `inst` through a telescope, whose types are each over those before it as well. Deep where one of the outcomes is too high.
#[tactic(auto, using(crate::proofs::Instances::instance_laws))]
pub fn inst_tele(alloc: Global, values: &[Term], tele: &[Term]) -> Result<Tele, Stop>
    requires values { All (λ v. tree.free_of v ≤ most_inner_variables) (tele_of values.now) }
    requires length { length tele.now ≤ 2 ^ 29 }
    ensures { Gives tele_of result (bounded_terms (inst_telescope (fill no_variable (tele_of values.now)) (tele_of tele.now))) }
{
    let mut instances = Items::new(alloc);
    add_types(alloc, values, tele, 0, &mut instances)?;
    Ok(instances)
}

/// `inst` under so many binders. The answer may be too high; Deep comes only where the outcome is.
#[tactic(auto, using(crate::proofs::Instances::instance_heights))]
pub fn inst_under(alloc: Global, values: &[Term], t: &Term, under: u32) -> Result<Term, Stop>
    requires values { All (λ v. tree.free_of v ≤ most_inner_variables) (tele_of values.now) }
    requires under { under ≤ 2 ^ 29 }
    ensures { Makes result (instance_of (tele_of values.now) under (tree_of t.now)) }
{
    if t.height() > MAX_HEIGHT {
        return Err(Stop::Deep);
    }
    instance(alloc, values, t, under)
}

fn inst_low(alloc: Global, values: &[Term], t: &Term, under: u32) -> Result<Term, Stop>
    requires values { All (λ v. tree.free_of v ≤ most_inner_variables) (tele_of values.now) }
    requires under { under ≤ 2 ^ 29 }
    ensures { Gives tree_of result (bounded (instance_of (tele_of values.now) under (tree_of t.now))) }
{
    checked(inst_under(alloc, values, t, under)?)
}

fn add_terms(
    alloc: Global,
    values: &[Term],
    terms: &[Term],
    instances: &mut Tele,
) -> Result<(), Stop>
    requires { All (λ v. tree.free_of v ≤ most_inner_variables) (tele_of values.now) }
    ensures ok { OnOk result (tele_of instances.new ≡ tele_of instances.old ++ instances_of (tele_of values.now) (tele_of terms.now)) }
    ensures low { OnOk result (are_low (instances_of (tele_of values.now) (tele_of terms.now)) ≡ true) }
    ensures deep { IfErr result (λ e. Unless (IsUnforeseen e) ((e ≡ Deep) × (are_low (instances_of (tele_of values.now) (tele_of terms.now)) ≡ false))) }
{
    match terms {
        [] => Ok(()),
        [t, rest @ ..] => {
            instances.push(inst_low(alloc, values, t, 0)?)?;
            add_terms(alloc, values, rest, instances)
        }
    }
}

fn add_types(
    alloc: Global,
    values: &[Term],
    tele: &[Term],
    under: u32,
    instances: &mut Tele,
) -> Result<(), Stop>
    requires values { All (λ v. tree.free_of v ≤ most_inner_variables) (tele_of values.now) }
    requires length { under + length tele.now ≤ 2 ^ 29 }
    ensures ok { OnOk result (tele_of instances.new ≡ tele_of instances.old ++ telescope_instance_of (tele_of values.now) under (tele_of tele.now)) }
    ensures low { OnOk result (are_low (telescope_instance_of (tele_of values.now) under (tele_of tele.now)) ≡ true) }
    ensures deep { IfErr result (λ e. Unless (IsUnforeseen e) ((e ≡ Deep) × (are_low (telescope_instance_of (tele_of values.now) under (tele_of tele.now)) ≡ false))) }
{
    match tele {
        [] => Ok(()),
        [ty, rest @ ..] => {
            instances.push(inst_low(alloc, values, ty, under)?)?;
            add_types(alloc, values, rest, under + 1, instances)
        }
    }
}

fn instance(alloc: Global, values: &[Term], t: &Term, under: u32) -> Result<Term, Stop>
    requires values { All (λ v. tree.free_of v ≤ most_inner_variables) (tele_of values.now) }
    requires under { under + tree.height (tree_of t.now) ≤ 1000000000 }
    ensures { Makes result (instance_of (tele_of values.now) under (tree_of t.now)) }
{
    match t {
        Term::Var(n) => value(alloc, values, *n, under),
        Term::Pi(domain, codomain) => Term::product_of(
            alloc,
            instance(alloc, values, domain, under),
            instance(alloc, values, codomain, under + 1),
        ),
        Term::Lam(domain, body) => Term::function_of(
            alloc,
            instance(alloc, values, domain, under),
            instance(alloc, values, body, under + 1),
        ),
        Term::App(function, argument) => Term::application_of(
            alloc,
            instance(alloc, values, function, under),
            instance(alloc, values, argument, under),
        ),
        Term::Let(ty, bound, rest) => Term::local_of(
            alloc,
            instance(alloc, values, ty, under),
            instance(alloc, values, bound, under),
            instance(alloc, values, rest, under + 1),
        ),
        Term::Sort(_)
        | Term::Const(_)
        | Term::Fam(_)
        | Term::Con(_, _)
        | Term::Elim(_, _)
        | Term::AxiomK(_, _) => copy_whole(alloc, t),
    }
}

/// The term for a variable under so many binders.
fn value(alloc: Global, values: &[Term], n: u32, under: u32) -> Result<Term, Stop>
    requires values { All (λ v. tree.free_of v ≤ most_inner_variables) (tele_of values.now) }
    requires under { under ≤ 1000000000 }
    ensures { Makes result (under_binders under (fill no_variable (tele_of values.now)) n) }
{
    if n < under {
        return Ok(Term::Var(n));
    }
    let place = (n - under) as usize;
    if place < values.len() {
        lift(alloc, &values[values.len() - 1 - place], under, 0)
    } else {
        Ok(Term::Sort(0))
    }
}
