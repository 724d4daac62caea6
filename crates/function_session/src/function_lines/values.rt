ghost use Rattle.std.specs.Prelude.{◌≡◌, Ok, Some, option_map, true};
ghost use Rattle.clause_reports.specs.Generated.{all_name};
ghost use Rattle.core_sig.specs.Meanings.{family_of};
ghost use Rattle.clause_reports.specs.elaboration.Functions.{first_domains as domains, recursion_in as found};
ghost use Rattle.core_terms.specs.Answers.{Gives, are_low};
ghost use Rattle.core_terms.specs.Meanings.{tele_of};
ghost use Rattle.function_session.specs.function_lines.Phases as spec;
ghost use Rattle.leaf_terms.specs.PlanMeanings.{parts_of, plan_of};
ghost use Rattle.leaf_terms.specs.RecursionMeanings as meanings;

use core_sig::{Family, Signature};
use core_terms::{Name, Stop, Term};
use function_checks::function_walks::first_domains;
use leaf_terms::{Part, Plan, Recursion, recursion_at};
use run_terms::generated_name;
use std::alloc::Global;

/// `D!all.L`.
fn name_of_all(alloc: Global, f: &Family, level: u8) -> Result<Name, Stop>
    ensures { Gives (λ name. name) result (Ok (all_name (family_of f.now) level)) }
{
    generated_name(alloc, f.name.as_slice(), b"!all.", level)
}

/// The name of the recursion's values, where there is a helper beside the function itself.
fn values_in(alloc: Global, level: u8, parts: &[Part], r: &Recursion) -> Result<Option<Name>, Stop>
    ensures { Gives (λ name. name) result (Ok (spec.values_in level (parts_of parts.now) (Some (meanings.recursion_of r.now)))) }
{
    match parts {
        [_, _, ..] => Ok(Some(name_of_all(alloc, r.family, level)?)),
        _ => Ok(None),
    }
}

/// Recursion at a position of a telescope that is not too high, or none where there is no position.
fn recursion_in<'a>(
    alloc: Global,
    sig: &'a Signature,
    tele: &[Term],
    position: Option<u32>,
) -> Result<Option<Recursion<'a>>, Stop>
    requires { are_low (tele_of tele.now) ≡ true }
    ensures { Gives (option_map meanings.recursion_of) result (Ok (found sig.now (tele_of tele.now) position)) }
{
    match position {
        None => Ok(None),
        Some(j) => recursion_at(alloc, sig, tele, j),
    }
}

/// The recursion of a plan, by its written type.
fn recursion<'a>(
    alloc: Global,
    sig: &'a Signature,
    plan: &Plan,
) -> Result<Option<Recursion<'a>>, Stop>
    requires { are_low (domains (plan_of plan.now).arity (plan_of plan.now).type) ≡ true }
    ensures { Gives (option_map meanings.recursion_of) result (Ok (found sig.now (domains (plan_of plan.now).arity (plan_of plan.now).type) (plan_of plan.now).position)) }
{
    let tele = first_domains(alloc, plan.arity, &plan.ty)?;
    recursion_in(alloc, sig, tele.as_slice(), plan.position)
}

/// The name of the recursion's values, which equations name where there is recursion and a helper.
pub(crate) fn values_name(alloc: Global, sig: &Signature, plan: &Plan) -> Result<Option<Name>, Stop>
    requires { are_low (domains (plan_of plan.now).arity (plan_of plan.now).type) ≡ true }
    ensures { Gives (λ name. name) result (Ok (spec.values_named sig.now (plan_of plan.now))) }
{
    match recursion(alloc, sig, plan)? {
        None => Ok(None),
        Some(r) => values_in(alloc, plan.level, plan.parts.as_slice(), &r),
    }
}
