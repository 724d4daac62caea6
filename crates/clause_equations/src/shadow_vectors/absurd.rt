//! Clauses without a right side.
ghost use Rattle.std.specs.Prelude.{◌≡◌};
ghost use Rattle.core_terms.specs.PatternMeanings.{pat_of, pats_of};
ghost use Rattle.clause_reports.specs.Reports as spec;

use core_terms::Pat;

/// Whether a pattern is `( )`, or has it within.
#[cycle(absurd)]
fn is_absurd(pat: &Pat) -> bool
    ensures { result ≡ spec.is_absurd (pat_of pat.now) }
{
    match pat {
        Pat::Absurd => true,
        Pat::Con(_, _, pats) => some_absurd(pats.as_slice()),
        Pat::Bind | Pat::Wild | Pat::Dot(_) => false,
    }
}

/// Whether `( )` is among the patterns, or within one: a clause with these has no right side.
#[cycle(absurd)]
pub fn some_absurd(pats: &[Pat]) -> bool
    ensures { result ≡ spec.some_absurd (pats_of pats.now) }
{
    match pats {
        [] => false,
        [pat, rest @ ..] => is_absurd(pat) || some_absurd(rest),
    }
}
