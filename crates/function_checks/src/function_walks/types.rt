ghost use Rattle.std.specs.Prelude.{◌≡◌, ◌++◌, Ok};
ghost use Rattle.core_terms.specs.Answers.{Gives};
ghost use Rattle.core_terms.specs.Meanings.{tree_of, tele_of};
ghost use Rattle.clause_reports.specs.elaboration.Functions as spec;
ghost use Rattle.function_checks.specs.function_refusals.RefusalMeanings.{Tells};

use crate::function_refusals::{FunctionRefusal, WrittenPart, level_too_high};
use core_sig::Signature;
use core_terms::{Items, Stop, TOP, Tele, Term, copy_whole};
use std::alloc::Global;

/// The greatest level of a function or helper: up to it, the entries that are generated for one have a type.
pub const GREATEST_LEVEL: u8 = TOP - 3;

/// Types, followed by those of a number of products.
#[tactic(auto, using(tele_eq::proofs::Growing::growing))]
fn with_domains(alloc: Global, count: u32, ty: &Term, mut made: Tele) -> Result<Tele, Stop>
    ensures { Gives tele_of result (Ok (tele_of made ++ spec.first_domains count (tree_of ty.now))) }
{
    if count == 0 {
        return Ok(made);
    }
    match ty {
        Term::Pi(domain, codomain) => {
            made.push(copy_whole(alloc, domain)?)?;
            with_domains(alloc, count - 1, codomain, made)
        }
        _ => Ok(made),
    }
}

/// The types of a number of products.
pub fn first_domains(alloc: Global, count: u32, ty: &Term) -> Result<Tele, Stop>
    ensures { Gives tele_of result (Ok (spec.first_domains count (tree_of ty.now))) }
{
    with_domains(alloc, count, ty, Items::new(alloc))
}

/// The type after a number of products.
pub fn after_domains(count: u32, ty: &Term) -> &Term
    ensures { tree_of result.now ≡ spec.after_domains count (tree_of ty.now) }
{
    if count == 0 {
        return ty;
    }
    match ty {
        Term::Pi(_, codomain) => after_domains(count - 1, codomain),
        _ => ty,
    }
}

/// The level of a function whose type has this sort, where it is not too high.
pub fn function_level(alloc: Global, sig: &Signature, sort: &Term) -> Result<u8, FunctionRefusal>
    ensures { Tells (λ n. n) result (spec.function_level sig.now (tree_of sort.now)) }
{
    match sort {
        Term::Sort(level) => {
            if *level > GREATEST_LEVEL {
                return Err(level_too_high(alloc, sig, WrittenPart::Type, *level, GREATEST_LEVEL));
            }
            Ok(*level)
        }
        _ => Ok(0),
    }
}
