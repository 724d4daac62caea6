//! Whether patterns are as walks and trees ask.
ghost use Rattle.std.specs.Prelude.{◌≡◌, ◌+◌, IsTrue, IfSome, Some, length};
ghost use Rattle.core_terms.specs.PatternMeanings.{pat_of, pats_of};
ghost use Rattle.theory.specs.Families.{Constructor};
ghost use Rattle.kernel_reduce.specs.Entries.{constructor_at};
ghost use Rattle.case_trees.specs.pattern_vectors.Columns.{AreWhole, IsWhole};
ghost use Rattle.case_trees.specs.Pairs.{all_unbound, unbound};
ghost use Rattle.case_trees.specs.Scoped.{AreScopedPatterns, IsScopedPattern};

use core_sig::{Signature, is_scoped};
use core_terms::{Pat, Term};
use kernel_reduce::family;

/// Whether a constructor has so many arguments after the parameters.
fn has_arguments(sig: &Signature, n: u32, number: u32, count: usize) -> bool
    ensures { IsTrue result → (c : Constructor) → constructor_at sig.now n number ≡ Some c → count ≡ length c.arguments }
{
    let Some(f) = family(sig, n) else {
        return false;
    };
    match f.cons.as_slice().get(number as usize) {
        Some(con) => con.args.as_slice().len() == count,
        None => false,
    }
}

/// Whether each constructor in a pattern has all its arguments.
#[cycle(whole)]
fn is_whole(sig: &Signature, pat: &Pat) -> bool
    ensures { IsTrue result → IsWhole sig.now (pat_of pat.now) }
{
    match pat {
        Pat::Con(n, number, pats) => {
            let pats = pats.as_slice();
            has_arguments(sig, *n, *number, pats.len()) && are_whole(sig, pats)
        }
        _ => true,
    }
}

/// Whether each constructor in patterns has all its arguments.
#[cycle(whole)]
pub fn are_whole(sig: &Signature, pats: &[Pat]) -> bool
    ensures { IsTrue result → AreWhole sig.now (pats_of pats.now) }
{
    match pats {
        [pat, rest @ ..] => is_whole(sig, pat) && are_whole(sig, rest),
        [] => true,
    }
}

/// Whether each constructor in a pattern is there, and each dot is over so many variables.
#[cycle(scoped)]
fn is_scoped_pattern(sig: &Signature, binds: u32, pat: &Pat) -> bool
    ensures { IsTrue result → IsScopedPattern sig.now binds (pat_of pat.now) }
{
    match pat {
        Pat::Con(n, number, pats) => {
            is_scoped(sig, 0, &Term::Con(*n, *number))
                && are_scoped_patterns(sig, binds, pats.as_slice())
        }
        Pat::Dot(written) => is_scoped(sig, binds, written),
        _ => true,
    }
}

/// Whether each constructor in patterns is there, and each dot is over so many variables.
#[cycle(scoped)]
pub fn are_scoped_patterns(sig: &Signature, binds: u32, pats: &[Pat]) -> bool
    ensures { IsTrue result → AreScopedPatterns sig.now binds (pats_of pats.now) }
{
    match pats {
        [pat, rest @ ..] => {
            is_scoped_pattern(sig, binds, pat) && are_scoped_patterns(sig, binds, rest)
        }
        [] => true,
    }
}

/// What is left of a number without one for each variable that a pattern binds.
#[cycle(count)]
fn without(pat: &Pat, count: u32) -> Option<u32>
    ensures { IfSome result (λ left. count ≡ length (unbound (pat_of pat.now)) + left) }
{
    match pat {
        Pat::Bind => count.checked_sub(1),
        Pat::Con(_, _, pats) => without_all(pats.as_slice(), count),
        _ => Some(count),
    }
}

/// What is left of a number without one for each variable that patterns bind.
#[cycle(count)]
pub fn without_all(pats: &[Pat], count: u32) -> Option<u32>
    ensures { IfSome result (λ left. count ≡ length (all_unbound (pats_of pats.now)) + left) }
{
    match pats {
        [pat, rest @ ..] => without_all(rest, without(pat, count)?),
        [] => Some(count),
    }
}
