ghost use Rattle.std.specs.Prelude.{◌≡◌, ◌==◌, ◌&&◌, length, option_map};
ghost use Rattle.core_terms.specs.Meanings.{tree_of, tele_of};
ghost use Rattle.core_terms.specs.PatternMeanings.{pat_of, pats_of};
ghost use Rattle.case_trees.specs.pattern_vectors.Matching as spec;
ghost use Rattle.case_trees.specs.pattern_vectors.Whole.{is_whole_of, last, numbers_in, numbers_of};
ghost use Rattle.theory.specs.Spines.{spine_of};
ghost use Rattle.theory.specs.Terms as tree;
ghost use Rattle.unification.specs.Built.{built_of};

use core_sig::Signature;
use core_terms::{Items, Pat, Tele, Term, head};
use kernel_reduce::family;

/// A constructor, with how many arguments it has after the parameters.
#[derive(Clone, Copy)]
pub(crate) struct Found {
    pub(crate) family: u32,
    pub(crate) number: u32,
    pub(crate) args: usize,
}

/// Whether a head is applied to exactly so many arguments.
fn has_arguments(t: &Term, count: u128) -> bool
    ensures { result ≡ (length (spine_of (tree_of t.now)) == count) }
{
    match t {
        Term::App(f, _) => count > 0 && has_arguments(f, count - 1),
        _ => count == 0,
    }
}

/// The constructor that a term is with all its arguments.
pub(crate) fn find_constructor(sig: &Signature, t: &Term) -> Option<Found>
    ensures { option_map numbers_of result ≡ option_map numbers_in (built_of sig.now (tree_of t.now)) }
{
    let Term::Con(n, number) = head(t) else {
        return None;
    };
    let f = family(sig, *n)?;
    let con = f.cons.as_slice().get(*number as usize)?;
    let args = con.args.as_slice().len();
    if !has_arguments(t, f.params.as_slice().len() as u128 + args as u128) {
        return None;
    }
    Some(Found {
        family: *n,
        number: *number,
        args,
    })
}

/// Whether the term is constructor `number` of the family, with `count` arguments after the parameters.
fn is_whole(sig: &Signature, n: u32, number: u32, count: usize, t: &Term) -> bool
    ensures { result ≡ is_whole_of n number count (built_of sig.now (tree_of t.now)) }
{
    match find_constructor(sig, t) {
        Some(w) => w.family == n && w.number == number && w.args == count,
        None => false,
    }
}

/// Whether a pattern matches a term.
#[cycle(matching)]
fn pattern_matches(sig: &Signature, pat: &Pat, t: &Term) -> bool
    ensures { result ≡ spec.matches sig.now (pat_of pat.now) (tree_of t.now) }
{
    match pat {
        Pat::Bind | Pat::Wild | Pat::Dot(_) => true,
        Pat::Con(n, number, pats) => {
            let pats = pats.as_slice();
            is_whole(sig, *n, *number, pats.len(), t) && last_match(sig, pats, t)
        }
        Pat::Absurd => false,
    }
}

/// Whether patterns match the last arguments of a term's head.
#[cycle(matching)]
fn last_match(sig: &Signature, pats: &[Pat], t: &Term) -> bool
    ensures { result ≡ spec.matches_all sig.now (pats_of pats.now) (last (length pats.now) (spine_of (tree_of t.now))) }
{
    match t {
        Term::App(f, a) => match pats {
            [pats @ .., pat] => pattern_matches(sig, pat, a) && last_match(sig, pats, f),
            [] => true,
        },
        _ => pats.is_empty(),
    }
}

/// Whether a list of patterns matches an argument list (Goguen, McBride and McKinna, "Eliminating dependent pattern matching",
/// 2006). Both have one length, and each constructor in a pattern has all its arguments: nothing else matches.
pub fn matches(sig: &Signature, pats: &Items<Pat>, terms: &Tele) -> bool
    ensures { result ≡ spec.matches_all sig.now (pats_of pats.now) (tele_of terms.now) }
{
    vector_matches(sig, pats.as_slice(), terms.as_slice())
}

fn vector_matches(sig: &Signature, pats: &[Pat], terms: &[Term]) -> bool
    ensures { result ≡ spec.matches_all sig.now (pats_of pats.now) (tele_of terms.now) }
{
    match pats {
        [pat, pats @ ..] => match terms {
            [t, terms @ ..] => pattern_matches(sig, pat, t) && vector_matches(sig, pats, terms),
            [] => false,
        },
        [] => terms.is_empty(),
    }
}
