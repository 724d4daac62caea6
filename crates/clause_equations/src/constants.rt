ghost use Rattle.std.specs.Prelude.{◌≡◌, Ok};
ghost use Rattle.core_terms.specs.Answers.{Gives};
ghost use Rattle.core_terms.specs.Meanings.{tree_of};
ghost use Rattle.leaf_terms.specs.PlanMeanings.{plan_of};
ghost use Rattle.clause_reports.specs.Equations as spec;

use core_sig::{Found, Signature};
use core_terms::{Name, Stop, Term, copy_whole};
use leaf_terms::{Plan, part_name};
use std::alloc::Global;

/// The number of the entry with a name, or 0 where no entry has it.
pub fn entry_number(sig: &Signature, name: &Name) -> u32
    ensures { result ≡ spec.number_of sig.now name.now }
{
    match sig.find(name.as_slice()) {
        Some(Found::Entry(n)) => n,
        Some(Found::Con(_, _)) | None => 0,
    }
}

/// The number that a constant of the plan has in the signature.
fn own_number(alloc: Global, sig: &Signature, plan: &Plan, c: u32) -> Result<u32, Stop>
    ensures { Gives (λ n. n) result (Ok (spec.own_number sig.now (plan_of plan.now) c)) }
{
    if c < plan.base {
        return Ok(c);
    }
    let name = part_name(alloc, &plan.name, c - plan.base)?;
    Ok(entry_number(sig, &name))
}

/// A term in which the function and its helpers have the numbers of the signature.
pub fn in_signature(alloc: Global, sig: &Signature, plan: &Plan, t: &Term) -> Result<Term, Stop>
    ensures { Gives tree_of result (Ok (spec.in_signature sig.now (plan_of plan.now) (tree_of t.now))) }
{
    match t {
        Term::Pi(domain, codomain) => Term::product_of(
            alloc,
            in_signature(alloc, sig, plan, domain),
            in_signature(alloc, sig, plan, codomain),
        ),
        Term::Lam(domain, body) => Term::function_of(
            alloc,
            in_signature(alloc, sig, plan, domain),
            in_signature(alloc, sig, plan, body),
        ),
        Term::App(function, argument) => Term::application_of(
            alloc,
            in_signature(alloc, sig, plan, function),
            in_signature(alloc, sig, plan, argument),
        ),
        Term::Let(ty, value, rest) => Term::local_of(
            alloc,
            in_signature(alloc, sig, plan, ty),
            in_signature(alloc, sig, plan, value),
            in_signature(alloc, sig, plan, rest),
        ),
        Term::Const(c) => Ok(Term::Const(own_number(alloc, sig, plan, *c)?)),
        Term::Var(_)
        | Term::Sort(_)
        | Term::Fam(_)
        | Term::Con(_, _)
        | Term::Elim(_, _)
        | Term::AxiomK(_, _) => copy_whole(alloc, t),
    }
}
