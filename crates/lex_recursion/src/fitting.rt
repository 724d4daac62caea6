ghost use Rattle.std.specs.Prelude.{◌≤◌, Ok};
ghost use Rattle.core_terms.specs.Answers.{Gives};
ghost use Rattle.core_terms.specs.Bounds.{most_height};
ghost use Rattle.core_terms.specs.Meanings.{tree_of, tele_of};
ghost use Rattle.tele_eq.specs.Items.{AreSmallTerms};
ghost use Rattle.lex_recursion.specs.FittingPairs as spec;
ghost use Rattle.lex_recursion.specs.Meanings.{pair_of};

use core_sig::Signature;
use core_terms::{Stop, Term};
use std::alloc::Global;
use tree_translation::structural_rec::{Admission, Place, fits};

/// A pair of `count` positions, with their admissions, for the function with the constant `own`.
#[derive(Clone, Copy)]
pub(crate) struct PairPlace<'a> {
    pub(crate) sig: &'a Signature,
    pub(crate) own: u32,
    pub(crate) count: u32,
    pub(crate) first: u32,
    pub(crate) outer: &'a Admission,
    pub(crate) second: u32,
    pub(crate) inner: &'a Admission,
}

/// Whether a call under so many binders fits the pair.
pub(crate) fn fits_pair(
    alloc: Global,
    p: &PairPlace,
    terms: &[Term],
    under: u32,
    call: &Term,
) -> Result<bool, Stop>
    requires small { AreSmallTerms (tele_of terms.now) }
    requires under { under ≤ most_height }
    ensures { Gives (λ b. b) result (Ok (spec.fits_pair p.now.sig.now p.now.count (pair_of p.now) (tele_of terms.now) (record { under = under; term = tree_of call.now }))) }
{
    let first = Place {
        sig: p.sig,
        own: p.own,
        count: p.count,
        position: p.first,
        admission: p.outer,
    };
    if fits(alloc, &first, terms, under, call)? {
        return Ok(true);
    }
    let second = Place {
        sig: p.sig,
        own: p.own,
        count: p.count,
        position: p.second,
        admission: p.inner,
    };
    fits(alloc, &second, terms, under, call)
}
