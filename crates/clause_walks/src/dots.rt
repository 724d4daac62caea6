ghost use Rattle.std.specs.Prelude.{◌≡◌, ◌++◌, [], ℕ, map, min, Ok};
ghost use Rattle.core_terms.specs.Answers.{Gives};
ghost use Rattle.core_terms.specs.Meanings.{tree_of, tele_of};
ghost use Rattle.core_terms.specs.TreeMeanings.{walk_of};
ghost use Rattle.case_trees.specs.OwnWalks as spec;
ghost use Rattle.case_trees.specs.Pairs.{all_bound as all_bound_of, all_dots as all_dots_of};
ghost use Rattle.clause_walks.specs.CodeDots.{bound_of, term_bound, dot_of, dots_of, dot_made, dots_behind, ends_of, ends_made, walk_made};
ghost use Rattle.clause_walks.specs.Meanings.{pairs_of};
ghost use Rattle.clause_walks.specs.Parts.{forced_of, all_forced};
ghost use Rattle.clause_walks.specs.PointConditions.{AreOverSo};
ghost use Rattle.clause_walks.specs.PointMeanings.{point_of};
ghost use Rattle.tele_eq.specs.Dependences as dependences;
ghost use Rattle.problems.specs.Conditions.{most_levels};

use crate::parts::{Forced, all_bound, all_dots};
use crate::{Pair, Point};
use core_terms::{Items, Stop, Tele, Term, Walk, copy_whole, inst};
use std::alloc::Global;

/// Whether a variable is free in a term of any height. It has the number `n` where the term is.
fn mentions(n: u64, t: &Term) -> bool
    ensures { (m : ℕ) → n ≡ min m 18446744073709551615 → result ≡ dependences.has_variable m (tree_of t.now) }
{
    match t {
        Term::Var(v) => *v as u64 == n,
        Term::Pi(first, second) | Term::Lam(first, second) => {
            mentions(n, first) || mentions(n.saturating_add(1), second)
        }
        Term::App(first, second) => mentions(n, first) || mentions(n, second),
        Term::Let(ty, value, rest) => {
            mentions(n, ty) || mentions(n, value) || mentions(n.saturating_add(1), rest)
        }
        _ => false,
    }
}

/// Whether one of the variables without a term is in the written term; the last of them has number 0.
fn mentions_unbound(bound: &[Option<&Term>], written: &Term) -> bool
    ensures { result ≡ spec.mentions_unbound (bound_of bound.now) (tree_of written.now) }
{
    match bound {
        [] => false,
        [Some(_), rest @ ..] => mentions_unbound(rest, written),
        [None, rest @ ..] => mentions(rest.len() as u64, written)
            || mentions_unbound(rest, written),
    }
}

/// The dot with the bindings put in the written term, or Deep.
fn walked_dot(alloc: Global, binds: &[Term], dot: Forced) -> Result<(Term, Term), Stop>
    requires binds { AreOverSo most_levels (tele_of binds.now) }
    ensures { Gives dot_of result (dot_made (tele_of binds.now) (forced_of dot.entry)) }
{
    let put = inst(alloc, binds, dot.written)?;
    Ok((put, copy_whole(alloc, dot.term)?))
}

/// The dots after those that are made, or Deep; those that mention a variable without a term are not kept.
fn walked_onto(
    alloc: Global,
    bound: &[Option<&Term>],
    binds: &[Term],
    dots: &[Forced],
    mut made: Items<(Term, Term)>,
) -> Result<Items<(Term, Term)>, Stop>
    requires binds { AreOverSo most_levels (tele_of binds.now) }
    requires same { tele_of binds.now ≡ map spec.or_none (bound_of bound.now) }
    ensures { Gives dots_of result (dots_behind (dots_of made) (spec.walked_dots (bound_of bound.now) (all_forced dots.now))) }
{
    match dots {
        [] => Ok(made),
        [dot, rest @ ..] => {
            if !mentions_unbound(bound, dot.written) {
                made.push(walked_dot(alloc, binds, *dot)?)?;
            }
            walked_onto(alloc, bound, binds, rest, made)
        }
    }
}

/// The term of a variable: one that has none is given one that nothing reads.
fn or_none(alloc: Global, bound: Option<&Term>) -> Result<Term, Stop>
    ensures { Gives tree_of result (Ok (spec.or_none (term_bound bound.entry))) }
{
    match bound {
        Some(t) => copy_whole(alloc, t),
        None => Ok(Term::Sort(0)),
    }
}

/// A term for each variable of the clause, after those that are made.
fn with_none(alloc: Global, bound: &[Option<&Term>], mut made: Tele) -> Result<Tele, Stop>
    ensures { Gives tele_of result (Ok (tele_of made ++ map spec.or_none (bound_of bound.now))) }
{
    match bound {
        [] => Ok(made),
        [one, rest @ ..] => {
            made.push(or_none(alloc, *one)?)?;
            with_none(alloc, rest, made)
        }
    }
}

/// The terms of the clause's variables, in the order in which they are written, as a leaf has them.
pub fn bound_terms(alloc: Global, pairs: &[Pair]) -> Result<Tele, Stop>
    ensures { Gives tele_of result (Ok (map spec.or_none (all_bound_of (pairs_of pairs.now)))) }
{
    let bound = all_bound(alloc, pairs)?;
    with_none(alloc, bound.as_slice(), Items::new(alloc))
}

/// The bindings of the pairs, and their dots, or Deep.
fn ends(alloc: Global, pairs: &[Pair]) -> Result<(Tele, Items<(Term, Term)>), Stop>
    requires binds { AreOverSo most_levels (map spec.or_none (all_bound_of (pairs_of pairs.now))) }
    ensures { Gives ends_of result (ends_made (pairs_of pairs.now)) }
{
    let bound = all_bound(alloc, pairs)?;
    ends_over(alloc, pairs, bound.as_slice())
}

/// The bindings and dots, where `bound` are the terms of the clause's variables.
fn ends_over(
    alloc: Global,
    pairs: &[Pair],
    bound: &[Option<&Term>],
) -> Result<(Tele, Items<(Term, Term)>), Stop>
    requires bound { bound_of bound.now ≡ all_bound_of (pairs_of pairs.now) }
    requires binds { AreOverSo most_levels (map spec.or_none (bound_of bound.now)) }
    ensures { Gives ends_of result (ends_made (pairs_of pairs.now)) }
{
    let binds = with_none(alloc, bound, Items::new(alloc))?;
    let dots = kept_dots(alloc, pairs, bound, binds.as_slice())?;
    Ok((binds, dots))
}

fn kept_dots(
    alloc: Global,
    pairs: &[Pair],
    bound: &[Option<&Term>],
    binds: &[Term],
) -> Result<Items<(Term, Term)>, Stop>
    requires binds { AreOverSo most_levels (tele_of binds.now) }
    requires same { tele_of binds.now ≡ map spec.or_none (bound_of bound.now) }
    ensures { Gives dots_of result (dots_behind [] (spec.walked_dots (bound_of bound.now) (all_dots_of (pairs_of pairs.now)))) }
{
    let dots = all_dots(alloc, pairs)?;
    walked_onto(alloc, bound, binds, dots.as_slice(), Items::new(alloc))
}

/// The walk that ends in a state, or Deep.
pub(crate) fn walk_at(alloc: Global, p: Point, pairs: &[Pair]) -> Result<Walk, Stop>
    requires binds { AreOverSo most_levels (map spec.or_none (all_bound_of (pairs_of pairs.now))) }
    ensures { Gives walk_of result (walk_made (spec.walk_at (point_of p) (pairs_of pairs.now))) }
{
    let (binds, dots) = ends(alloc, pairs)?;
    let Point {
        context,
        goal,
        substitution,
        terms,
    } = p;
    Ok(Walk {
        ctx: context,
        goal,
        subst: substitution,
        terms,
        binds,
        dots,
    })
}
