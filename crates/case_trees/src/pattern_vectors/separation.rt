ghost use Rattle.std.specs.Prelude.{◌≡◌, ◌≤◌, length};
ghost use Rattle.core_terms.specs.Meanings.{tree_of, tele_of};
ghost use Rattle.core_terms.specs.PatternMeanings.{pat_of, pats_of};
ghost use Rattle.case_trees.specs.pattern_vectors.Matching as spec;
ghost use Rattle.case_trees.specs.pattern_vectors.Whole.{last};
ghost use Rattle.theory.specs.Spines.{spine_of};

use crate::pattern_vectors::matching::{Found, find_constructor};
use core_sig::Signature;
use core_terms::{Items, Pat, Tele, Term};

/// Whether a pattern is apart from a term.
#[cycle(separation)]
fn pattern_apart(sig: &Signature, pat: &Pat, t: &Term) -> bool
    ensures { result ≡ spec.is_apart sig.now (pat_of pat.now) (tree_of t.now) }
{
    match pat {
        Pat::Bind | Pat::Wild | Pat::Dot(_) => false,
        Pat::Con(n, number, pats) => match find_constructor(sig, t) {
            Some(w) if w.family == *n && w.number == *number => {
                let pats = pats.as_slice();
                w.args == pats.len() && last_apart(sig, pats, t)
            }
            found => found.is_some(),
        },
        Pat::Absurd => find_constructor(sig, t).is_some(),
    }
}

/// Whether one of the patterns is apart from its term among the last arguments of a term's head.
#[cycle(separation)]
fn last_apart(sig: &Signature, pats: &[Pat], t: &Term) -> bool
    requires { length pats.now ≤ length (spine_of (tree_of t.now)) }
    ensures { result ≡ spec.has_apart sig.now (pats_of pats.now) (last (length pats.now) (spine_of (tree_of t.now))) }
{
    match t {
        Term::App(f, a) => match pats {
            [pats @ .., pat] => pattern_apart(sig, pat, a) || last_apart(sig, pats, f),
            [] => false,
        },
        _ => false,
    }
}

/// Whether a list of patterns is apart from an argument list of the same length: no instance of this one is matched.
pub fn apart(sig: &Signature, pats: &Items<Pat>, terms: &Tele) -> bool
    ensures { result ≡ spec.are_apart sig.now (pats_of pats.now) (tele_of terms.now) }
{
    let pats = pats.as_slice();
    let terms = terms.as_slice();
    pats.len() == terms.len() && vector_apart(sig, pats, terms)
}

/// Whether one of the patterns is apart from its term.
fn vector_apart(sig: &Signature, pats: &[Pat], terms: &[Term]) -> bool
    ensures { result ≡ spec.has_apart sig.now (pats_of pats.now) (tele_of terms.now) }
{
    match pats {
        [pat, pats @ ..] => match terms {
            [t, terms @ ..] => pattern_apart(sig, pat, t) || vector_apart(sig, pats, terms),
            [] => false,
        },
        [] => false,
    }
}
