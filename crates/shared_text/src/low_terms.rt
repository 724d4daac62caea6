//! Whether the terms that a line writes are at most 2,000 high.
ghost use Rattle.std.specs.Prelude.{◌≡◌, [], ◌∷◌, ◌&&◌, map};
ghost use Rattle.core_terms.specs.Answers as spec;
ghost use Rattle.core_terms.specs.Meanings.{tele_of, tree_of};
ghost use Rattle.core_sig.specs.Raw.{raw_constructor_of, raw_of};
ghost use Rattle.core_text.specs.RawEntries.{RawFamilyOf};
ghost use Rattle.shared_text.specs.PrintedTerms.{written_terms};

use core_sig::{RawCon, RawFamily};
use core_terms::{MAX_HEIGHT, Term};

fn is_low(t: &Term) -> bool
    ensures { result ≡ spec.is_low (tree_of t.now) }
{
    t.height() <= MAX_HEIGHT
}

fn are_low(terms: &[Term]) -> bool
    ensures { result ≡ spec.are_low (tele_of terms.now) }
{
    match terms {
        [] => true,
        [t, rest @ ..] => is_low(t) && are_low(rest),
    }
}

/// Whether the types of constructors are low.
fn have_low_types(cons: &[RawCon]) -> bool
    ensures { result ≡ spec.are_low (map (λ c. c.type) (map raw_constructor_of cons.now)) }
{
    match cons {
        [] => true,
        [con, rest @ ..] => is_low(&con.ty) && have_low_types(rest),
    }
}

/// Whether the line of a family writes low terms alone.
#[tactic(auto, using(crate::proofs::LowTerms::low_around))]
pub(crate) fn is_low_family(raw: &RawFamily) -> bool
    ensures { result ≡ spec.are_low (written_terms (RawFamilyOf (raw_of raw.now))) }
{
    are_low(raw.params.as_slice()) && is_low(&raw.ty) && have_low_types(raw.cons.as_slice())
}

/// Whether the line of a definition writes low terms alone.
pub(crate) fn is_low_definition(ty: &Term, body: &Term) -> bool
    ensures { result ≡ spec.are_low (tree_of ty.now ∷ tree_of body.now ∷ []) }
{
    is_low(ty) && is_low(body)
}
