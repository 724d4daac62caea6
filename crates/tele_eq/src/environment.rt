ghost use Rattle.std.specs.Prelude.{◌≡◌, ◌≤◌, ◌<◌, ◌+◌, ◌*◌, ◌^◌, Ok, MatchOption, length};
ghost use Rattle.core_terms.specs.Answers.{Gives};
ghost use Rattle.core_terms.specs.Meanings.{tree_of, tele_of};
ghost use Rattle.tele_eq.specs.Environments as spec;
ghost use Rattle.tele_eq.specs.CodeEnvironments.{AreSmallPairs, AreSmallSides, IsSmallLeft, IsSmallMap, environment_of, images_of, left_of, maps_of_left, maps_of_pairs, variables_of};
ghost use Rattle.tele_eq.specs.Items.{AreSmallTerms};
ghost use Rattle.tele_eq.specs.Items as items;
ghost use Rattle.theory.specs.Terms as tree;
ghost use Rattle.core_terms.specs.Bounds.{context_limit};

use crate::sides::{Left, Map, Pairs, Sides};
use core_terms::{Stop, Term, copy_whole, lift, variable};
use std::alloc::Global;

/// A term of the context, at a depth.
#[tactic(auto, using(core_terms::proofs::SubstUnder::lift_laws))]
pub(crate) fn outside(
    alloc: Global,
    terms: &[Term],
    depth: u32,
    position: u32,
) -> Result<Term, Stop>
    requires small { AreSmallTerms (tele_of terms.now) }
    requires depth { depth ≤ 2042000000 }
    ensures { Gives tree_of result (Ok (spec.outside (tele_of terms.now) depth position)) }
{
    match terms {
        [] => Ok(Term::Sort(0)),
        [t, rest @ ..] => {
            if position == 0 {
                lift(alloc, t, depth, 0)
            } else {
                outside(alloc, rest, depth, position - 1)
            }
        }
    }
}

/// The left term at a position, at a depth.
#[cycle(put)]
pub(crate) fn left_at(alloc: Global, left: Left, depth: u32, position: u32) -> Result<Term, Stop>
    requires left { IsSmallLeft left }
    requires depth { depth + 200000 * (maps_of_left left) ≤ 2041100000 }
    ensures { Gives tree_of result (Ok (left_of left.entry depth position)) }
{
    match left {
        Left::Terms(terms) => outside(alloc, terms, depth, position),
        Left::Images(map) => image(alloc, map, Sides::Inside(&[], 0), depth, position),
    }
}

/// The term for the variable at a position, at a depth.
#[cycle(put)]
pub(crate) fn at(
    alloc: Global,
    left: Left,
    pairs: Pairs,
    depth: u32,
    position: u32,
) -> Result<Term, Stop>
    requires left { IsSmallLeft left }
    requires pairs { AreSmallPairs pairs }
    requires depth { depth + 200000 * (maps_of_left left + maps_of_pairs pairs) ≤ 2041100000 }
    ensures { Gives tree_of result (Ok (environment_of (left_of left.entry) pairs.entry depth position)) }
{
    match pairs {
        Pairs::Plain(Sides::Given(right, _)) | Pairs::Plain(Sides::Bound(right)) => {
            outside(alloc, right, depth, position)
        }
        Pairs::Plain(Sides::Inside(positions, level)) => {
            inside(alloc, left, positions, level, depth, position)
        }
        Pairs::Mapped(map, _, sides) => image(alloc, map, sides, depth, position),
    }
}

#[cycle(put)]
fn inside(
    alloc: Global,
    left: Left,
    positions: &[u32],
    level: u32,
    depth: u32,
    position: u32,
) -> Result<Term, Stop>
    requires left { IsSmallLeft left }
    requires depth { depth + 200000 * (maps_of_left left) ≤ 2041100000 }
    requires level { level + 2 * length positions.now ≤ 2040000000 }
    ensures { Gives tree_of result (Ok (spec.inside positions.now level (left_of left.entry) depth position)) }
{
    match positions {
        [] => left_at(alloc, left, depth, position),
        [t, rest @ ..] => {
            if position == *t {
                Ok(variable(depth, level))
            } else {
                inside(alloc, left, rest, level + 2, depth, position)
            }
        }
    }
}

/// The term of a map at a position, with terms for the variables of its first telescope.
#[cycle(put)]
fn image(alloc: Global, map: Map, sides: Sides, depth: u32, position: u32) -> Result<Term, Stop>
    requires map { IsSmallMap map }
    requires sides { AreSmallSides sides }
    requires depth { depth ≤ 2041000000 }
    ensures { Gives tree_of result (Ok (images_of map.entry (variables_of (spec.outside (tele_of map.entry.left.now)) sides.entry) depth position)) }
{
    let Some(t) = term_at(map.terms, position) else {
        return Ok(Term::Sort(0));
    };
    let left = Left::Terms(map.left);
    let pairs = Pairs::Plain(sides);
    put_under(alloc, left, pairs, map.from.len() as u32, depth, 0, t)
}

/// The term at a position, where there is one.
fn term_at(terms: &[Term], position: u32) -> Option<&Term>
    requires { AreSmallTerms (tele_of terms.now) }
    ensures term { MatchOption result (items.term_at (tele_of terms.now) position ≡ tree.Sort 0) (λ t. items.term_at (tele_of terms.now) position ≡ tree_of t.now) }
    ensures small { MatchOption result (Unit {0}) (λ t. items.IsSmall (tree_of t.now)) }
{
    match terms {
        [] => None,
        [t, rest @ ..] => {
            if position == 0 {
                Some(t)
            } else {
                term_at(rest, position - 1)
            }
        }
    }
}

#[cycle(put)]
fn put_variable(
    alloc: Global,
    left: Left,
    pairs: Pairs,
    size: u32,
    depth: u32,
    under: u32,
    n: u32,
) -> Result<Term, Stop>
    requires left { IsSmallLeft left }
    requires pairs { AreSmallPairs pairs }
    requires depth { depth + 200000 * (maps_of_left left + maps_of_pairs pairs) ≤ 2041000000 }
    requires under { under ≤ 100000 }
    requires n { n ≤ 2147583648 }
    ensures { Gives tree_of result (Ok (spec.put_variable (environment_of (left_of left.entry) pairs.entry) size depth under n)) }
{
    if n < under {
        Ok(Term::Var(n))
    } else if (n as u64) < size as u64 + under as u64 {
        let position = (size as u64 + under as u64) - (n as u64 + 1);
        at(alloc, left, pairs, depth + under, position as u32)
    } else {
        Ok(Term::Var(n - size + depth))
    }
}

#[cycle(put)]
fn put_under(
    alloc: Global,
    left: Left,
    pairs: Pairs,
    size: u32,
    depth: u32,
    under: u32,
    t: &Term,
) -> Result<Term, Stop>
    requires left { IsSmallLeft left }
    requires pairs { AreSmallPairs pairs }
    requires depth { depth + 200000 * (maps_of_left left + maps_of_pairs pairs) ≤ 2041000000 }
    requires under { under + tree.height (tree_of t.now) ≤ 100000 }
    requires free { tree.free_of (tree_of t.now) ≤ context_limit + under }
    ensures { Gives tree_of result (Ok (spec.put_under (environment_of (left_of left.entry) pairs.entry) size depth under (tree_of t.now))) }
{
    match t {
        Term::Var(n) => put_variable(alloc, left, pairs, size, depth, under, *n),
        Term::Pi(domain, codomain) => Term::product_of(
            alloc,
            put_under(alloc, left, pairs, size, depth, under, domain),
            put_under(alloc, left, pairs, size, depth, under + 1, codomain),
        ),
        Term::Lam(domain, body) => Term::function_of(
            alloc,
            put_under(alloc, left, pairs, size, depth, under, domain),
            put_under(alloc, left, pairs, size, depth, under + 1, body),
        ),
        Term::App(function, argument) => Term::application_of(
            alloc,
            put_under(alloc, left, pairs, size, depth, under, function),
            put_under(alloc, left, pairs, size, depth, under, argument),
        ),
        Term::Let(ty, value, rest) => Term::local_of(
            alloc,
            put_under(alloc, left, pairs, size, depth, under, ty),
            put_under(alloc, left, pairs, size, depth, under, value),
            put_under(alloc, left, pairs, size, depth, under + 1, rest),
        ),
        Term::Sort(_)
        | Term::Const(_)
        | Term::Fam(_)
        | Term::Con(_, _)
        | Term::Elim(_, _)
        | Term::AxiomK(_, _) => copy_whole(alloc, t),
    }
}

/// A small term over the first `size` variables of a telescope with their terms put in, at a depth.
pub(crate) fn put(
    alloc: Global,
    left: Left,
    pairs: Pairs,
    size: u32,
    depth: u32,
    t: &Term,
) -> Result<Term, Stop>
    requires left { IsSmallLeft left }
    requires pairs { AreSmallPairs pairs }
    requires depth { depth ≤ 2040000000 }
    requires small { items.IsSmall (tree_of t.now) }
    ensures { Gives tree_of result (Ok (spec.put (environment_of (left_of left.entry) pairs.entry) size depth (tree_of t.now))) }
{
    put_under(alloc, left, pairs, size, depth, 0, t)
}
