ghost use Rattle.std.specs.Prelude.{◌≡◌, ◌∷◌, ◌++◌, [], Ok, option_map};
ghost use Rattle.std.specs.Option.{option_copied};
ghost use Rattle.core_terms.specs.Answers.{Gives};
ghost use Rattle.core_terms.specs.Meanings.{tree_of, tele_of};
ghost use Rattle.core_sig.specs.Meanings.{family_of};
ghost use Rattle.theory.specs.Telescopes as telescopes;
ghost use Rattle.theory.specs.Terms as tree;
ghost use Rattle.tree_translation.specs.Naming as names;
ghost use Rattle.tree_translation.specs.Plans.{own_part};
ghost use Rattle.tree_translation.specs.Recursion as recursions;
ghost use Rattle.leaf_terms.specs.PlanMeanings.{plan_of};
ghost use Rattle.leaf_terms.specs.RecursionMeanings.{recursion_of};
ghost use Rattle.clause_reports.specs.Equations as spec;
ghost use Rattle.clause_reports.specs.Generated.{all_name};
ghost use Rattle.clause_equations.specs.CodeEquations.{at_fixed};

use crate::constants::entry_number;
use crate::parts::first_terms;
use core_sig::{Family, Signature};
use core_terms::{Items, Name, Stop, Tele, Term, applied};
use leaf_terms::{
    Plan, Recursion, motive_name, own_tele, parameters_at, scrutinee_at, step_name, terms_at,
};
use run_terms::{generated_name, with_terms};
use std::alloc::Global;

/// A constant of the signature at the arguments that recursion keeps.
fn constant_at_fixed(
    alloc: Global,
    sig: &Signature,
    r: &Recursion,
    terms: &[Term],
    name: &Name,
) -> Result<Term, Stop>
    ensures { Gives tree_of result (Ok (at_fixed sig.now (recursion_of r.now) (tele_of terms.now) name.now)) }
{
    let fixed = terms_at(alloc, r.admission.fixed.as_slice(), terms)?;
    applied(
        alloc,
        Term::Const(entry_number(sig, name)),
        fixed.into_vec(),
    )
}

/// `F!motive F`.
fn motive_there(
    alloc: Global,
    sig: &Signature,
    plan: &Plan,
    r: &Recursion,
    terms: &[Term],
) -> Result<Term, Stop>
    ensures { Gives tree_of result (Ok (at_fixed sig.now (recursion_of r.now) (tele_of terms.now) (names.motive_name (plan_of plan.now).name))) }
{
    let name = motive_name(alloc, &plan.name)?;
    constant_at_fixed(alloc, sig, r, terms, &name)
}

/// `F!step F`.
fn step_there(
    alloc: Global,
    sig: &Signature,
    plan: &Plan,
    r: &Recursion,
    terms: &[Term],
) -> Result<Term, Stop>
    ensures { Gives tree_of result (Ok (at_fixed sig.now (recursion_of r.now) (tele_of terms.now) (names.step_name (plan_of plan.now).name))) }
{
    let name = step_name(alloc, &plan.name)?;
    constant_at_fixed(alloc, sig, r, terms, &name)
}

/// Terms, followed by `(F!motive F) (F!step F)`.
#[tactic(auto, using(tele_eq::proofs::Growing::growing))]
fn with_motive_and_step(
    alloc: Global,
    sig: &Signature,
    plan: &Plan,
    r: &Recursion,
    terms: &[Term],
    mut made: Tele,
) -> Result<Tele, Stop>
    ensures { Gives tele_of result (Ok (tele_of made ++ at_fixed sig.now (recursion_of r.now) (tele_of terms.now) (names.motive_name (plan_of plan.now).name) ∷ at_fixed sig.now (recursion_of r.now) (tele_of terms.now) (names.step_name (plan_of plan.now).name) ∷ [])) }
{
    made.push(motive_there(alloc, sig, plan, r, terms)?)?;
    made.push(step_there(alloc, sig, plan, r, terms)?)?;
    Ok(made)
}

/// `ps (F!motive F) (F!step F) is x`.
#[tactic(auto, using(crate::proofs::Pairs::pairs))]
fn recursion_arguments(
    alloc: Global,
    sig: &Signature,
    plan: &Plan,
    r: &Recursion,
    terms: &[Term],
) -> Result<Tele, Stop>
    ensures { Gives tele_of result (Ok (recursions.parameters_at (own_part (plan_of plan.now)).tele (recursion_of r.now) (tele_of terms.now) ++ at_fixed sig.now (recursion_of r.now) (tele_of terms.now) (names.motive_name (plan_of plan.now).name) ∷ at_fixed sig.now (recursion_of r.now) (tele_of terms.now) (names.step_name (plan_of plan.now).name) ∷ recursions.scrutinee_at (recursion_of r.now) (tele_of terms.now))) }
{
    let made = parameters_at(alloc, own_tele(plan), r, terms)?;
    let made = with_motive_and_step(alloc, sig, plan, r, terms, made)?;
    let scrutinee = scrutinee_at(alloc, r, terms)?;
    with_terms(alloc, made, scrutinee.as_slice())
}

/// `D!all.L`.
fn name_of_all(alloc: Global, f: &Family, level: u8) -> Result<Name, Stop>
    ensures { Gives (λ name. name) result (Ok (all_name (family_of f.now) level)) }
{
    generated_name(alloc, f.name.as_slice(), b"!all.", level)
}

/// The constant `D!all.L`.
fn all_constant(alloc: Global, sig: &Signature, plan: &Plan, r: &Recursion) -> Result<Term, Stop>
    ensures { Gives tree_of result (Ok (tree.Const (spec.number_of sig.now (all_name (recursion_of r.now).family (plan_of plan.now).level)))) }
{
    let name = name_of_all(alloc, r.family, plan.level)?;
    Ok(Term::Const(entry_number(sig, &name)))
}

/// The values of the recursion at terms of the function's telescope: `D!all.L ps (F!motive F) (F!step F) is x`.
pub fn values_of_recursion(
    alloc: Global,
    sig: &Signature,
    plan: &Plan,
    r: &Recursion,
    terms: &[Term],
) -> Result<Term, Stop>
    ensures { Gives tree_of result (Ok (spec.values_of_recursion sig.now (plan_of plan.now) (recursion_of r.now) (tele_of terms.now))) }
{
    let head = all_constant(alloc, sig, plan, r)?;
    let arguments = recursion_arguments(alloc, sig, plan, r, terms)?;
    applied(alloc, head, arguments.into_vec())
}

/// `head` applied to the last argument of a helper: with recursion, its values at the first of the terms, which are those of the
/// function's own columns; without it there is none.
pub fn applied_to_last(
    alloc: Global,
    sig: &Signature,
    plan: &Plan,
    r: Option<&Recursion>,
    terms: &[Term],
    head: Term,
) -> Result<Term, Stop>
    ensures { Gives tree_of result (Ok (telescopes.applied (tree_of head) (spec.last_argument sig.now (plan_of plan.now) (option_map recursion_of (option_copied r.entry)) (tele_of terms.now)))) }
{
    match r {
        None => Ok(head),
        Some(r) => {
            let own = first_terms(terms, plan.arity as usize);
            let last = values_of_recursion(alloc, sig, plan, r, own)?;
            Term::new_app(alloc, head, last)
        }
    }
}
