ghost use Rattle.std.specs.Prelude.{◌≡◌, ◌≤◌, ◌++◌, true, Ok, IfOk, length};
ghost use Rattle.core_terms.specs.Answers.{Gives, are_low};
ghost use Rattle.core_terms.specs.Meanings.{tree_of, tele_of};
ghost use Rattle.case_trees.specs.Keeping as spec;
ghost use Rattle.case_trees.specs.Points.{point_keeping as point_kept};
ghost use Rattle.clause_walks.specs.Meanings.{pair_of, pairs_of};
ghost use Rattle.clause_walks.specs.PointMeanings.{point_of};
ghost use Rattle.theory.specs.Terms as tree;
ghost use Rattle.core_terms.specs.Bounds.{most_height};
ghost use Rattle.unification.specs.Built as built;
ghost use Rattle.problems.specs.CodeBuilt.{IfThere, IsBuiltAs};
ghost use Rattle.problems.specs.Conditions.{most_levels};

use crate::parts::term_in;
use crate::points::bounded_point;
use crate::{Pair, Point};
use core_sig::Signature;
use core_terms::{Items, Stop, Tele, Term, applied, copy_whole};
use problems::{Built, built_of, split_spine};
use std::alloc::Global;

/// The shared term with the head form that a pair was compared with. Nothing tests its height.
#[cycle(keeping)]
fn keep(alloc: Global, sig: &Signature, pair: &Pair, t: &Term) -> Result<Term, Stop>
    requires low { tree.height (tree_of t.now) ≤ most_height }
    ensures { Gives tree_of result (Ok (spec.keep sig.now (pair_of pair.now) (tree_of t.now))) }
{
    match pair {
        Pair::Builds(_, _, _, pairs) => match built_of(sig, t) {
            Some(b) => keep_arguments(alloc, sig, pairs.as_slice(), b, t),
            None => term_in(alloc, pair),
        },
        Pair::Clashes(_, w) if built_of(sig, t).is_none() => copy_whole(alloc, w),
        _ => copy_whole(alloc, t),
    }
}

/// A constructor that the term already has stays, and its arguments keep what the pairs were compared with.
#[cycle(keeping)]
fn keep_arguments(
    alloc: Global,
    sig: &Signature,
    pairs: &[Pair],
    b: Built,
    t: &Term,
) -> Result<Term, Stop>
    requires low { tree.height (tree_of t.now) ≤ most_height }
    requires there { IfThere (IsBuiltAs b) (built.built_of sig.now (tree_of t.now)) }
    ensures { (new : tree.Term) → Gives tree_of result (Ok (spec.kept_over (spec.keep_all sig.now (pairs_of pairs.now)) new (built.built_of sig.now (tree_of t.now)))) }
{
    let count = b.record.params.as_slice().len();
    let (ps, arguments) = split_spine(alloc, t, count)?;
    let kept = keep_onto(alloc, sig, pairs, arguments.as_slice(), ps)?;
    applied(alloc, Term::Con(b.family, b.number), kept.into_vec())
}

/// The shared terms with what the pairs were compared with, after those that are made.
#[cycle(keeping)]
fn keep_onto(
    alloc: Global,
    sig: &Signature,
    pairs: &[Pair],
    terms: &[Term],
    mut made: Tele,
) -> Result<Tele, Stop>
    requires low { are_low (tele_of terms.now) ≡ true }
    ensures { Gives tele_of result (Ok (tele_of made ++ spec.keep_all sig.now (pairs_of pairs.now) (tele_of terms.now))) }
{
    match pairs {
        [] => copied_onto(alloc, terms, made),
        [pair, pairs @ ..] => match terms {
            [] => Ok(made),
            [t, terms @ ..] => {
                made.push(keep(alloc, sig, pair, t)?)?;
                keep_onto(alloc, sig, pairs, terms, made)
            }
        },
    }
}

/// The terms after those that are made.
fn copied_onto(alloc: Global, terms: &[Term], mut made: Tele) -> Result<Tele, Stop>
    ensures { Gives tele_of result (Ok (tele_of made ++ tele_of terms.now)) }
{
    match terms {
        [] => Ok(made),
        [t, rest @ ..] => {
            made.push(copy_whole(alloc, t)?)?;
            copied_onto(alloc, rest, made)
        }
    }
}

/// The shared terms with what the pairs were compared with. Their heights nothing tests.
pub fn keep_all(
    alloc: Global,
    sig: &Signature,
    pairs: &[Pair],
    terms: &[Term],
) -> Result<Tele, Stop>
    requires low { are_low (tele_of terms.now) ≡ true }
    ensures { Gives tele_of result (Ok (spec.keep_all sig.now (pairs_of pairs.now) (tele_of terms.now))) }
{
    keep_onto(alloc, sig, pairs, terms, Items::new(alloc))
}

/// The point with what the pairs of a clause were compared with, or Deep.
pub fn point_keeping(
    alloc: Global,
    sig: &Signature,
    p: Point,
    pairs: &[Pair],
) -> Result<Point, Stop>
    requires low { are_low (tele_of p.terms) ≡ true }
    ensures answer { Gives point_of result (point_kept sig.now (point_of p) (pairs_of pairs.now)) }
    ensures few { IfOk result (λ q. length q.context ≤ most_levels) }
{
    let terms = keep_all(alloc, sig, pairs, p.terms.as_slice())?;
    bounded_point(with_terms(p, terms))
}

/// The point with these terms of the columns.
fn with_terms(p: Point, terms: Tele) -> Point
    ensures context { result.context ≡ p.context }
    ensures goal { result.goal ≡ p.goal }
    ensures substitution { result.substitution ≡ p.substitution }
    ensures terms { result.terms ≡ terms }
{
    let Point {
        context,
        goal,
        substitution,
        ..
    } = p;
    Point {
        context,
        goal,
        substitution,
        terms,
    }
}
