ghost use Rattle.std.specs.Prelude.{◌≡◌, ◌≤◌, ◌<◌, ◌+◌, ◌^◌, ◌++◌, Ok, length};
ghost use Rattle.core_terms.specs.Answers.{Gives};
ghost use Rattle.core_terms.specs.Meanings.{tree_of, tele_of};
ghost use Rattle.tele_eq.specs.Environments as environments;
ghost use Rattle.tele_eq.specs.Items as items;
ghost use Rattle.theory.specs.Terms as tree;
ghost use Rattle.core_terms.specs.Bounds.{context_limit, most_height};
ghost use Rattle.unification.specs.Occurrences as occurring;
ghost use Rattle.unification.specs.Solving.{reordered};
ghost use Rattle.with_abstraction.specs.Conditions.{AreLow, IsOver};
ghost use Rattle.with_abstraction.specs.Occurrences as occurrences;
ghost use Rattle.with_abstraction.specs.Orders as spec;

use crate::occurrences::without;
use core_terms::{Stop, Tele, Term, copy_whole, variable};
use std::alloc::Global;
use tele_eq::place_in;

/// The variable that stands for variable `n` of a term over `size` variables, under so many binders of the term's own.
fn put_variable(order: &[u32], size: u32, depth: u32, under: u32, n: u32) -> Term
    requires order { length order.now < 2 ^ 32 }
    requires depth { depth ≤ size }
    requires under { size + under < 2 ^ 32 }
    ensures { tree_of result ≡ environments.put_variable (reordered order.now) size depth under n }
{
    if n < under {
        Term::Var(n)
    } else if n < size + under {
        variable(depth + under, place_in(order, size + under - (n + 1)))
    } else {
        Term::Var(n - size + depth)
    }
}

/// A term over `size` variables, under so many binders of its own, with the variables in their new order.
fn put_under(
    alloc: Global,
    order: &[u32],
    size: u32,
    depth: u32,
    under: u32,
    t: &Term,
) -> Result<Term, Stop>
    requires order { length order.now < 2 ^ 32 }
    requires depth { depth ≤ size }
    requires under { size + under + tree.height (tree_of t.now) < 2 ^ 32 }
    ensures { Gives tree_of result (Ok (environments.put_under (reordered order.now) size depth under (tree_of t.now))) }
{
    match t {
        Term::Var(n) => Ok(put_variable(order, size, depth, under, *n)),
        Term::Pi(domain, codomain) => Term::product_of(
            alloc,
            put_under(alloc, order, size, depth, under, domain),
            put_under(alloc, order, size, depth, under + 1, codomain),
        ),
        Term::Lam(domain, body) => Term::function_of(
            alloc,
            put_under(alloc, order, size, depth, under, domain),
            put_under(alloc, order, size, depth, under + 1, body),
        ),
        Term::App(function, argument) => Term::application_of(
            alloc,
            put_under(alloc, order, size, depth, under, function),
            put_under(alloc, order, size, depth, under, argument),
        ),
        Term::Let(ty, value, rest) => Term::local_of(
            alloc,
            put_under(alloc, order, size, depth, under, ty),
            put_under(alloc, order, size, depth, under, value),
            put_under(alloc, order, size, depth, under + 1, rest),
        ),
        Term::Sort(_)
        | Term::Const(_)
        | Term::Fam(_)
        | Term::Con(_, _)
        | Term::Elim(_, _)
        | Term::AxiomK(_, _) => copy_whole(alloc, t),
    }
}

/// The type at a position, at a depth, with the variables in their new order.
fn type_put(
    alloc: Global,
    order: &[u32],
    n: u32,
    depth: u32,
    types: &[Term],
    position: u32,
) -> Result<Term, Stop>
    requires order { length order.now < 2 ^ 32 }
    requires depth { depth ≤ n + 1 }
    requires few { n ≤ context_limit }
    requires types { AreLow (tele_of types.now) }
    ensures { Gives tree_of result (Ok (environments.put (reordered order.now) (n + 1) depth (items.term_at (tele_of types.now) position))) }
{
    match types {
        [] => Ok(Term::Sort(0)),
        [ty, rest @ ..] => {
            if position == 0 {
                put_under(alloc, order, n + 1, depth, 0, ty)
            } else {
                type_put(alloc, order, n, depth, rest, position - 1)
            }
        }
    }
}

/// The types of the variables with these levels, the first of which is at a depth, after those that are made.
#[tactic(auto, using(tele_eq::proofs::Growing::growing))]
pub(crate) fn arranged(
    alloc: Global,
    order: &[u32],
    n: u32,
    types: &[Term],
    depth: u32,
    levels: &[u32],
    mut made: Tele,
) -> Result<Tele, Stop>
    requires order { length order.now < 2 ^ 32 }
    requires depth { depth + length levels.now ≤ n + 1 }
    requires few { n ≤ context_limit }
    requires types { AreLow (tele_of types.now) }
    ensures { Gives tele_of result (Ok (tele_of made ++ spec.arranged order.now n (tele_of types.now) depth levels.now)) }
{
    match levels {
        [] => Ok(made),
        [j, rest @ ..] => {
            made.push(type_put(alloc, order, n, depth, types, *j)?)?;
            arranged(alloc, order, n, types, depth + 1, rest, made)
        }
    }
}

/// A goal without `t`, after all variables in their new order.
pub(crate) fn arranged_goal(
    alloc: Global,
    order: &[u32],
    n: u32,
    t: &Term,
    goal: &Term,
) -> Result<Term, Stop>
    requires order { length order.now < 2 ^ 32 }
    requires few { n ≤ context_limit }
    requires low { tree.height (tree_of t.now) ≤ most_height }
    requires goal { IsOver context_limit (tree_of goal.now) }
    ensures { Gives tree_of result (Ok (environments.put (reordered order.now) (n + 1) (n + 1) (occurrences.without (tree_of t.now) (tree_of goal.now)))) }
{
    let opened = without(alloc, t, goal)?;
    put_under(alloc, order, n + 1, n + 1, 0, &opened)
}
