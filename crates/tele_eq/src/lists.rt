ghost use Rattle.std.specs.Prelude.{◌≡◌};
ghost use Rattle.core_terms.specs.Answers as spec;
ghost use Rattle.core_terms.specs.Meanings.{tele_of};

use core_terms::{MAX_HEIGHT, Stop, Tele, Term};

/// Whether no term is too high.
fn are_low(terms: &[Term]) -> bool
    ensures { result ≡ spec.are_low (tele_of terms.now) }
{
    match terms {
        [] => true,
        [t, rest @ ..] => t.height() <= MAX_HEIGHT && are_low(rest),
    }
}

/// The terms themselves, or Deep where one of them is too high.
pub(crate) fn bounded_terms(terms: Tele) -> Result<Tele, Stop>
    ensures { spec.Gives tele_of result (spec.bounded_terms (tele_of terms)) }
{
    if are_low(terms.as_slice()) {
        Ok(terms)
    } else {
        Err(Stop::Deep)
    }
}
