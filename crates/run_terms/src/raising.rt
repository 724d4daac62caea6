ghost use Rattle.std.specs.Prelude.{◌≡◌, ◌+◌, Ok};
ghost use Rattle.core_terms.specs.Answers.{Gives};
ghost use Rattle.core_terms.specs.Meanings.{tree_of, tele_of};
ghost use Rattle.tele_eq.specs.Items as items;
ghost use Rattle.theory.specs.Terms as tree;

use core_terms::{Stop, Term, copy_whole, next, sum};
use std::alloc::Global;

/// Adds `by` to every variable numbered `from` or more. Nothing tests its height.
pub fn raised(alloc: Global, by: u32, from: u32, t: &Term) -> Result<Term, Stop>
    ensures { Gives tree_of result (Ok (tree.lift (tree_of t.now) by from)) }
{
    match t {
        Term::Var(n) if *n < from => Ok(Term::Var(*n)),
        Term::Var(n) => Ok(Term::Var(sum(*n, by)?)),
        Term::Pi(domain, codomain) => {
            let inner = next(from)?;
            Term::product_of(
                alloc,
                raised(alloc, by, from, domain),
                raised(alloc, by, inner, codomain),
            )
        }
        Term::Lam(domain, body) => {
            let inner = next(from)?;
            Term::function_of(
                alloc,
                raised(alloc, by, from, domain),
                raised(alloc, by, inner, body),
            )
        }
        Term::App(function, argument) => Term::application_of(
            alloc,
            raised(alloc, by, from, function),
            raised(alloc, by, from, argument),
        ),
        Term::Let(ty, value, rest) => {
            let inner = next(from)?;
            Term::local_of(
                alloc,
                raised(alloc, by, from, ty),
                raised(alloc, by, from, value),
                raised(alloc, by, inner, rest),
            )
        }
        Term::Sort(_)
        | Term::Const(_)
        | Term::Fam(_)
        | Term::Con(_, _)
        | Term::Elim(_, _)
        | Term::AxiomK(_, _) => copy_whole(alloc, t),
    }
}

/// The term at a position, raised by so many variables, or Type 0 where there is none.
pub fn term_at(alloc: Global, terms: &[Term], position: u32, by: u32) -> Result<Term, Stop>
    ensures { Gives tree_of result (Ok (tree.lift (items.term_at (tele_of terms.now) position) by 0)) }
{
    match terms {
        [] => Ok(Term::Sort(0)),
        [t, rest @ ..] => {
            if position == 0 {
                raised(alloc, by, 0, t)
            } else {
                term_at(alloc, rest, position - 1, by)
            }
        }
    }
}
