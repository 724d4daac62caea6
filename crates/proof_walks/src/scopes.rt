//! Tests that say whether a place is scoped.
ghost use Rattle.std.specs.Prelude.{◌≡◌, ◌≤◌, ◌+◌, length};
ghost use Rattle.core_terms.specs.Meanings.{tree_of, tele_of};
ghost use Rattle.proof_walks.specs.proof_terms.ProofMeanings.{place_of};
ghost use Rattle.proof_walks.specs.PlaceScopes as spec;
ghost use Rattle.problems.specs.Conditions.{most_levels};

use crate::proof_terms::Place;
use core_sig::Signature;
use core_terms::Term;

/// Whether a term is over `n` variables, and each number in it has its entry.
fn is_scoped(sig: &Signature, n: u32, t: &Term) -> bool
    ensures { result ≡ spec.is_scoped sig.now n (tree_of t.now) }
{
    core_sig::is_scoped(sig, n, t)
}

/// Whether each type of a telescope after `n` variables is over these and the types before it.
fn is_scoped_telescope(sig: &Signature, n: u32, tele: &[Term]) -> bool
    requires { n + length tele.now ≤ most_levels }
    ensures { result ≡ spec.is_scoped_telescope sig.now n (tele_of tele.now) }
{
    match tele {
        [] => true,
        [a, rest @ ..] => is_scoped(sig, n, a) && is_scoped_telescope(sig, n + 1, rest),
    }
}

/// Whether terms are over `n` variables.
fn are_scoped(sig: &Signature, n: u32, terms: &[Term]) -> bool
    ensures { result ≡ spec.are_scoped sig.now n (tele_of terms.now) }
{
    match terms {
        [] => true,
        [t, rest @ ..] => is_scoped(sig, n, t) && are_scoped(sig, n, rest),
    }
}

/// Whether the equation and the terms of a place are over `n` variables.
fn is_scoped_over(sig: &Signature, n: u32, p: &Place) -> bool
    ensures { result ≡ spec.is_scoped_over sig.now n (place_of p.now) }
{
    is_scoped(sig, n, &p.ty)
        && is_scoped(sig, n, &p.left)
        && is_scoped(sig, n, &p.right)
        && are_scoped(sig, n, p.terms.as_slice())
        && are_scoped(sig, n, p.values.as_slice())
}

/// Whether all that is at a place is scoped.
#[tactic(auto, using(leaf_terms::proofs::Lengths::lengths))]
pub(crate) fn is_scoped_place(sig: &Signature, p: &Place) -> bool
    requires { length p.now.ctx ≤ most_levels }
    ensures { result ≡ spec.is_scoped_place sig.now (place_of p.now) }
{
    let n = p.ctx.as_slice().len() as u32;
    is_scoped_telescope(sig, 0, p.ctx.as_slice()) && is_scoped_over(sig, n, p)
}
