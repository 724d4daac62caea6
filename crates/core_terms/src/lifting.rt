ghost use Rattle.std.specs.Prelude.{◌≡◌, ◌≤◌, ◌<◌, ◌+◌, ◌^◌};
ghost use Rattle.core_terms.specs.Answers.{Gives, bounded};
ghost use Rattle.core_terms.specs.Bounds.{most_free};
ghost use Rattle.core_terms.specs.Meanings.{tree_of};
ghost use Rattle.theory.specs.Terms as tree;

use crate::copying::copy_whole;
use crate::{MAX_HEIGHT, Stop, Term};
use std::alloc::Global;

/// Adds `by` to every variable numbered `from` or more, or answers Deep.
#[tactic(auto, using(crate::proofs::SubstUnder::lift_laws))]
pub fn lift(alloc: Global, t: &Term, by: u32, from: u32) -> Result<Term, Stop>
    requires { tree.free_of (tree_of t.now) + by ≤ most_free }
    ensures { Gives tree_of result (bounded (tree.lift (tree_of t.now) by from)) }
{
    if t.height() > MAX_HEIGHT {
        return Err(Stop::Deep);
    }
    lift_whole(alloc, t, by, from as u64)
}

/// Lifts a term of any height.
pub(crate) fn lift_whole(alloc: Global, t: &Term, by: u32, from: u64) -> Result<Term, Stop>
    requires indices { tree.free_of (tree_of t.now) + tree.height (tree_of t.now) + by < 2 ^ 32 }
    requires binders { from + tree.height (tree_of t.now) < 2 ^ 64 }
    ensures { Gives tree_of result (Ok (tree.lift (tree_of t.now) by from)) }
{
    match t {
        Term::Var(n) => Ok(Term::Var(lift_variable(*n, by, from))),
        Term::Pi(domain, codomain) => Term::product_of(
            alloc,
            lift_whole(alloc, domain, by, from),
            lift_whole(alloc, codomain, by, from + 1),
        ),
        Term::Lam(domain, body) => Term::function_of(
            alloc,
            lift_whole(alloc, domain, by, from),
            lift_whole(alloc, body, by, from + 1),
        ),
        Term::App(function, argument) => Term::application_of(
            alloc,
            lift_whole(alloc, function, by, from),
            lift_whole(alloc, argument, by, from),
        ),
        Term::Let(ty, value, rest) => Term::local_of(
            alloc,
            lift_whole(alloc, ty, by, from),
            lift_whole(alloc, value, by, from),
            lift_whole(alloc, rest, by, from + 1),
        ),
        Term::Sort(_)
        | Term::Const(_)
        | Term::Fam(_)
        | Term::Con(_, _)
        | Term::Elim(_, _)
        | Term::AxiomK(_, _) => copy_whole(alloc, t),
    }
}

fn lift_variable(n: u32, by: u32, from: u64) -> u32
    requires { n + by < 2 ^ 32 }
    ensures { result ≡ tree.lift_var n by from }
{
    if (n as u64) < from { n } else { n + by }
}
