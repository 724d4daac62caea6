ghost use Rattle.std.specs.Prelude.{◌≡◌, ◌≤◌, ◌<◌, ◌+◌, ◌^◌, IfOk, IsTrue, Ok, ◌↔◌};
ghost use Rattle.core_terms.specs.Answers.{Gives};
ghost use Rattle.core_terms.specs.Meanings.{tree_of};
ghost use Rattle.theory.specs.Terms as tree;
ghost use Rattle.core_terms.specs.Bounds.{context_limit, most_height};
ghost use Rattle.with_abstraction.specs.Conditions.{IsOver};
ghost use Rattle.with_abstraction.specs.Occurrences as spec;

use core_terms::{Stop, Term, copy_whole};
use std::alloc::Global;

/// Whether `u` is `t` with `by` added to every variable numbered `from` or more. Takes no memory.
fn is_lifted(t: &Term, by: u32, from: u32, u: &Term) -> bool
    requires { from + tree.height (tree_of t.now) < 2 ^ 32 }
    ensures { IsTrue result ↔ (tree_of u.now ≡ tree.lift (tree_of t.now) by from) }
{
    match (t, u) {
        (Term::Var(n), Term::Var(m)) => {
            if *n < from {
                *m == *n
            } else {
                *m as u64 == *n as u64 + by as u64
            }
        }
        (Term::Sort(i), Term::Sort(j)) => j == i,
        (Term::Pi(a, b), Term::Pi(c, d)) => {
            is_lifted(a, by, from, c) && is_lifted(b, by, from + 1, d)
        }
        (Term::Lam(a, b), Term::Lam(c, d)) => {
            is_lifted(a, by, from, c) && is_lifted(b, by, from + 1, d)
        }
        (Term::App(f, a), Term::App(g, b)) => {
            is_lifted(f, by, from, g) && is_lifted(a, by, from, b)
        }
        (Term::Let(a, v, b), Term::Let(c, w, d)) => {
            is_lifted(a, by, from, c) && is_lifted(v, by, from, w) && is_lifted(b, by, from + 1, d)
        }
        (Term::Const(c), Term::Const(d)) => d == c,
        (Term::Fam(f), Term::Fam(g)) => g == f,
        (Term::Con(f, c), Term::Con(g, d)) => g == f && d == c,
        (Term::Elim(f, m), Term::Elim(g, n)) => g == f && n == m,
        (Term::AxiomK(i, m), Term::AxiomK(j, n)) => j == i && n == m,
        _ => false,
    }
}

/// Whether `u` is `t`, so many binders further in.
fn is_occurrence(t: &Term, under: u32, u: &Term) -> bool
    requires { tree.height (tree_of t.now) ≤ most_height }
    ensures { result ≡ spec.is_occurrence (tree_of t.now) under (tree_of u.now) }
{
    is_lifted(t, under, 0, u)
}

/// A term in which the variable `under` stands for each occurrence of `t`, and the variables from there on make room for it.
pub(crate) fn without_under(alloc: Global, t: &Term, under: u32, u: &Term) -> Result<Term, Stop>
    requires low { tree.height (tree_of t.now) ≤ most_height }
    requires under { under + tree.height (tree_of u.now) ≤ most_height }
    requires free { tree.free_of (tree_of u.now) ≤ context_limit + under }
    ensures { Gives tree_of result (Ok (spec.without_under (tree_of t.now) under (tree_of u.now))) }
{
    if is_occurrence(t, under, u) {
        return Ok(Term::Var(under));
    }
    match u {
        Term::Var(n) => Ok(Term::Var(if *n < under { *n } else { *n + 1 })),
        Term::Pi(domain, codomain) => Term::product_of(
            alloc,
            without_under(alloc, t, under, domain),
            without_under(alloc, t, under + 1, codomain),
        ),
        Term::Lam(domain, body) => Term::function_of(
            alloc,
            without_under(alloc, t, under, domain),
            without_under(alloc, t, under + 1, body),
        ),
        Term::App(function, argument) => Term::application_of(
            alloc,
            without_under(alloc, t, under, function),
            without_under(alloc, t, under, argument),
        ),
        Term::Let(ty, value, rest) => Term::local_of(
            alloc,
            without_under(alloc, t, under, ty),
            without_under(alloc, t, under, value),
            without_under(alloc, t, under + 1, rest),
        ),
        Term::Sort(_)
        | Term::Const(_)
        | Term::Fam(_)
        | Term::Con(_, _)
        | Term::Elim(_, _)
        | Term::AxiomK(_, _) => copy_whole(alloc, u),
    }
}

/// A term one variable further in, where the nearest variable stands for each occurrence of `t`.
pub(crate) fn without(alloc: Global, t: &Term, u: &Term) -> Result<Term, Stop>
    requires low { tree.height (tree_of t.now) ≤ most_height }
    requires over { IsOver context_limit (tree_of u.now) }
    ensures is { Gives tree_of result (Ok (spec.without (tree_of t.now) (tree_of u.now))) }
    ensures low { IfOk result (λ v. tree.height (tree_of v) ≤ most_height) }
{
    without_under(alloc, t, 0, u)
}
