ghost use Rattle.std.specs.Prelude.{◌≡◌, ◌≤◌, ◌<◌, ◌+◌, ◌^◌, min};
ghost use Rattle.core_terms.specs.Answers.{Gives, bounded};
ghost use Rattle.core_terms.specs.Bounds.{most_free, most_height};
ghost use Rattle.core_terms.specs.Meanings.{tree_of};
ghost use Rattle.core_terms.specs.Substitution.{subst_under, height_with};
ghost use Rattle.theory.specs.Terms as tree;

use crate::copying::copy_whole;
use crate::lifting::lift_whole;
use crate::term::above;
use crate::{MAX_HEIGHT, Stop, Term};
use std::alloc::Global;

/// Puts `by` for variable `at` and lowers greater variables by one, or answers Deep.
#[tactic(auto, using(crate::proofs::SubstUnder::subst_laws))]
pub fn subst(alloc: Global, t: &Term, at: u32, by: &Term) -> Result<Term, Stop>
    requires { tree.free_of (tree_of by.now) ≤ most_free }
    ensures { Gives tree_of result (bounded (tree.subst (tree_of t.now) at (tree_of by.now))) }
{
    subst_under(alloc, t, at, by, 0)
}

/// The substitution, where `by` is so many binders further out.
#[tactic(auto, using(crate::proofs::SubstUnder::height_laws))]
pub(crate) fn subst_under(
    alloc: Global,
    t: &Term,
    at: u32,
    by: &Term,
    under: u32,
) -> Result<Term, Stop>
    requires { tree.free_of (tree_of by.now) + under ≤ most_free }
    ensures { Gives tree_of result (bounded (subst_under (tree_of t.now) at (tree_of by.now) under)) }
{
    if t.height() > MAX_HEIGHT || substituted_height(t, at as u64, by.height()) > MAX_HEIGHT {
        return Err(Stop::Deep);
    }
    subst_whole(alloc, t, at as u64, by, under)
}

/// The height that `t` has once a term of height `put` stands for variable `at`, or `MAX_HEIGHT + 1` where it is greater.
fn substituted_height(t: &Term, at: u64, put: u32) -> u32
    requires height { put ≤ most_height + 1 }
    requires binders { at + tree.height (tree_of t.now) < 2 ^ 64 }
    ensures { result ≡ min (height_with (tree_of t.now) at put) (most_height + 1) }
{
    match t {
        Term::Var(n) if *n as u64 == at => put,
        Term::Pi(first, second) | Term::Lam(first, second) => {
            above(substituted_height(first, at, put).max(substituted_height(second, at + 1, put)))
        }
        Term::App(first, second) => {
            above(substituted_height(first, at, put).max(substituted_height(second, at, put)))
        }
        Term::Let(ty, value, rest) => {
            let parts = substituted_height(value, at, put).max(substituted_height(
                rest,
                at + 1,
                put,
            ));
            above(substituted_height(ty, at, put).max(parts))
        }
        _ => 1,
    }
}

/// Puts `by`, lifted by `under`, for variable `at` in a term of any height.
fn subst_whole(alloc: Global, t: &Term, at: u64, by: &Term, under: u32) -> Result<Term, Stop>
    requires indices { tree.free_of (tree_of by.now) + under + height_with (tree_of t.now) at (tree.height (tree_of by.now)) < 2 ^ 32 }
    requires binders { at + tree.height (tree_of t.now) < 2 ^ 64 }
    ensures { Gives tree_of result (Ok (subst_under (tree_of t.now) at (tree_of by.now) under)) }
{
    match t {
        Term::Var(n) => subst_variable(alloc, *n, at, by, under),
        Term::Pi(domain, codomain) => Term::product_of(
            alloc,
            subst_whole(alloc, domain, at, by, under),
            subst_whole(alloc, codomain, at + 1, by, under + 1),
        ),
        Term::Lam(domain, body) => Term::function_of(
            alloc,
            subst_whole(alloc, domain, at, by, under),
            subst_whole(alloc, body, at + 1, by, under + 1),
        ),
        Term::App(function, argument) => Term::application_of(
            alloc,
            subst_whole(alloc, function, at, by, under),
            subst_whole(alloc, argument, at, by, under),
        ),
        Term::Let(ty, value, rest) => Term::local_of(
            alloc,
            subst_whole(alloc, ty, at, by, under),
            subst_whole(alloc, value, at, by, under),
            subst_whole(alloc, rest, at + 1, by, under + 1),
        ),
        Term::Sort(_)
        | Term::Const(_)
        | Term::Fam(_)
        | Term::Con(_, _)
        | Term::Elim(_, _)
        | Term::AxiomK(_, _) => copy_whole(alloc, t),
    }
}

fn subst_variable(alloc: Global, n: u32, at: u64, by: &Term, under: u32) -> Result<Term, Stop>
    requires { tree.free_of (tree_of by.now) + under + height_with (tree.Var n) at (tree.height (tree_of by.now)) < 2 ^ 32 }
    ensures { Gives tree_of result (Ok (tree.subst_var n at (tree.lift (tree_of by.now) under 0))) }
{
    if (n as u64) < at {
        Ok(Term::Var(n))
    } else if n as u64 == at {
        lift_whole(alloc, by, under, 0)
    } else {
        Ok(Term::Var(n - 1))
    }
}
