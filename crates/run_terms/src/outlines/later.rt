ghost use Rattle.std.specs.Prelude.{◌≡◌, Ok};
ghost use Rattle.core_terms.specs.Answers.{Gives};
ghost use Rattle.core_terms.specs.Meanings.{tree_of};
ghost use Rattle.run_terms.specs.outlines.Later as spec;
ghost use Rattle.run_terms.specs.outlines.OutlineMeanings.{outline_of};

use crate::outlines::outline::Outline;
use core_terms::{Stop, Term};
use std::alloc::Global;

/// Whether a term is a variable.
fn is_variable(t: &Term) -> bool
    ensures { result ≡ spec.is_variable (tree_of t.now) }
{
    matches!(t, Term::Var(_))
}

/// A function of so many binders with another body.
pub fn in_body(alloc: Global, t: Term, inner: Outline) -> Result<Outline, Stop>
    ensures { Gives outline_of result (Ok (spec.in_body (tree_of t) (outline_of inner))) }
{
    match t {
        Term::Lam(domain, body) => {
            let body = in_body(alloc, Box::into_inner(body), inner)?;
            Outline::new_lam(alloc, Box::into_inner(domain), body)
        }
        _ => Ok(inner),
    }
}

/// Another head applied to the same arguments.
pub fn at_head(alloc: Global, t: Term, inner: Outline) -> Result<Outline, Stop>
    ensures { Gives outline_of result (Ok (spec.at_head (tree_of t) (outline_of inner))) }
{
    match t {
        Term::App(function, argument) => {
            let function = at_head(alloc, Box::into_inner(function), inner)?;
            Outline::new_app(alloc, function, Outline::Whole(Box::into_inner(argument)))
        }
        _ => Ok(inner),
    }
}

/// Another body for the last argument that is no variable; the others stay.
pub fn with_later(alloc: Global, t: Term, inner: Outline) -> Result<Outline, Stop>
    ensures { Gives outline_of result (Ok (spec.with_later (tree_of t) (outline_of inner))) }
{
    match t {
        Term::App(function, argument) => {
            let (function, argument) = (Box::into_inner(function), Box::into_inner(argument));
            if is_variable(&argument) {
                let function = with_later(alloc, function, inner)?;
                return Outline::new_app(alloc, function, Outline::Whole(argument));
            }
            let argument = in_body(alloc, argument, inner)?;
            Outline::new_app(alloc, Outline::Whole(function), argument)
        }
        other => Ok(Outline::Whole(other)),
    }
}
