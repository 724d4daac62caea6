ghost use Rattle.std.specs.Prelude.{◌≡◌, ◌-◌, ◌+◌, ◌++◌, ◌==◌, Ok, length, option_map};
ghost use Rattle.std.specs.Option.{option_copied};
ghost use Rattle.core_terms.specs.Answers.{Gives};
ghost use Rattle.core_terms.specs.Meanings.{tree_of, tele_of};
ghost use Rattle.core_terms.specs.TreeMeanings.{walk_of};
ghost use Rattle.tele_eq.specs.Items as items;
ghost use Rattle.tele_eq.specs.Levels.{place_in};
ghost use Rattle.theory.specs.Spines.{spine_of};
ghost use Rattle.theory.specs.Terms as tree;
ghost use Rattle.tree_translation.specs.Mappings as spec;

use crate::below_types::copied_at;
use core_terms::{Items, Stop, Tele, Term, Walk, copy_whole, head, next, number_of};
use run_terms::{place_in, terms_joined};
use std::alloc::Global;

fn are_one_constructor(w: &Term, t: &Term) -> bool
    ensures { result ≡ spec.are_one_constructor (tree_of w.now) (tree_of t.now) }
{
    match w {
        Term::Con(n, c) => is_constructor(*n, *c, t),
        _ => false,
    }
}

fn is_constructor(n: u32, c: u32, t: &Term) -> bool
    ensures { result ≡ spec.are_one_constructor (tree.Con n c) (tree_of t.now) }
{
    match t {
        Term::Con(m, d) => n == *m && c == *d,
        _ => false,
    }
}

/// Whether a term has no arguments.
#[tactic(auto, using(core_terms::proofs::Builders::length_snoc))]
fn is_alone(t: &Term) -> bool
    ensures { result ≡ (0 == length (spine_of (tree_of t.now))) }
{
    match t {
        Term::App(_, _) => false,
        _ => true,
    }
}

/// Whether the heads of two terms have as many arguments.
#[tactic(auto, using(core_terms::proofs::Builders::length_snoc))]
fn have_as_many(w: &Term, t: &Term) -> bool
    ensures { result ≡ (length (spine_of (tree_of w.now)) == length (spine_of (tree_of t.now))) }
{
    match w {
        Term::App(g, _) => match t {
            Term::App(h, _) => have_as_many(g, h),
            _ => false,
        },
        _ => is_alone(t),
    }
}

/// Whether two terms are one constructor at as many arguments.
fn have_one_constructor(w: &Term, t: &Term) -> bool
    ensures { result ≡ spec.have_one_constructor (tree_of w.now) (tree_of t.now) }
{
    are_one_constructor(head(w), head(t)) && have_as_many(w, t)
}

/// The subterm of `t` at the first place at which `w` has variable x, where places under constructors that both have
/// are looked at.
#[cycle(found)]
fn found_in<'a>(x: u32, w: &Term, t: &'a Term) -> Option<&'a Term>
    ensures { option_map tree_of (option_copied result) ≡ spec.found_in x (tree_of w.now) (tree_of t.now) }
{
    match w {
        Term::Var(v) => { if *v == x { Some(t) } else { None } }
        Term::App(_, _) => match t {
            Term::App(_, _) => {
                if have_one_constructor(w, t) {
                    found_along(x, w, t)
                } else {
                    None
                }
            }
            _ => None,
        },
        _ => None,
    }
}

/// The subterm of `t` at the first such place among the arguments of a constructor, its parameters included.
#[cycle(found)]
fn found_along<'a>(x: u32, w: &Term, t: &'a Term) -> Option<&'a Term>
    ensures { option_map tree_of (option_copied result) ≡ spec.found_along x (tree_of w.now) (tree_of t.now) }
{
    match w {
        Term::App(g, r) => match t {
            Term::App(h, s) => match found_along(x, g, h) {
                Some(u) => Some(u),
                None => found_in(x, r, s),
            },
            _ => None,
        },
        _ => None,
    }
}

/// The subterm at the first such place among two lists of terms, place by place.
fn found_among<'a>(x: u32, ws: &[Term], ts: &'a [Term]) -> Option<&'a Term>
    ensures { option_map tree_of (option_copied result) ≡ spec.found_among x (tele_of ws.now) (tele_of ts.now) }
{
    match ws {
        [] => None,
        [w, others @ ..] => match ts {
            [] => None,
            [t, rest @ ..] => match found_in(x, w, t) {
                Some(u) => Some(u),
                None => found_among(x, others, rest),
            },
        },
    }
}

/// The term that is found for variable x, or Type 0.
fn found_or_sort(alloc: Global, x: u32, ws: &[Term], ts: &[Term]) -> Result<Term, Stop>
    ensures { Gives tree_of result (Ok (spec.or_sort (spec.found_among x (tele_of ws.now) (tele_of ts.now)))) }
{
    match found_among(x, ws, ts) {
        Some(t) => copy_whole(alloc, t),
        None => Ok(Term::Sort(0)),
    }
}

/// Terms, followed by those that are found for the variables of a walk's context of `count` variables, for `left` of
/// them from level j on.
#[tactic(auto, using(tele_eq::proofs::Growing::growing))]
fn with_found(
    alloc: Global,
    count: u32,
    ws: &[Term],
    ts: &[Term],
    j: u32,
    left: u32,
    mut made: Tele,
) -> Result<Tele, Stop>
    ensures { Gives tele_of result (Ok (tele_of made ++ items.each_position (λ j. spec.or_sort (spec.found_among (count - (j + 1)) (tele_of ws.now) (tele_of ts.now))) j left)) }
{
    if left == 0 {
        return Ok(made);
    }
    let after = next(j)?;
    made.push(found_or_sort(alloc, count.saturating_sub(after), ws, ts)?)?;
    with_found(alloc, count, ws, ts, after, left - 1, made)
}

/// The terms for the variables of a walk's context: its substitution and terms are compared with those of a leaf.
pub fn mapping(
    alloc: Global,
    walk: &Walk,
    substitution: &[Term],
    terms: &[Term],
) -> Result<Tele, Stop>
    ensures { Gives tele_of result (Ok (spec.mapping (walk_of walk.now) (tele_of substitution.now) (tele_of terms.now))) }
{
    let count = number_of(walk.ctx.as_slice().len())?;
    let ws = terms_joined(alloc, walk.subst.as_slice(), walk.terms.as_slice())?;
    let ts = terms_joined(alloc, substitution, terms)?;
    with_found(
        alloc,
        count,
        ws.as_slice(),
        ts.as_slice(),
        0,
        count,
        Items::new(alloc),
    )
}

/// Terms, followed by those of a substitution for a telescope in a new order, at `count` old places from `i` on.
#[tactic(auto, using(tele_eq::proofs::Growing::growing))]
fn with_old_order(
    alloc: Global,
    order: &[u32],
    substitution: &[Term],
    i: u32,
    count: usize,
    mut made: Tele,
) -> Result<Tele, Stop>
    ensures { Gives tele_of result (Ok (tele_of made ++ items.each_position (λ i. items.term_at (tele_of substitution.now) (place_in order.now i)) i count)) }
{
    if count == 0 {
        return Ok(made);
    }
    let place = number_of(place_in(order, i))?;
    made.push(copied_at(alloc, substitution, place)?)?;
    with_old_order(alloc, order, substitution, next(i)?, count - 1, made)
}

/// A substitution for a telescope in a new order, as one for the old order.
pub fn in_old_order(alloc: Global, order: &[u32], substitution: &[Term]) -> Result<Tele, Stop>
    ensures { Gives tele_of result (Ok (spec.in_old_order order.now (tele_of substitution.now))) }
{
    with_old_order(
        alloc,
        order,
        substitution,
        0,
        order.len(),
        Items::new(alloc),
    )
}
