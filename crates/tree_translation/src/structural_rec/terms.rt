ghost use Rattle.std.specs.Prelude.{◌≡◌, ◌≤◌, Ok, option_map, slice_get, IfSome};
ghost use Rattle.std.specs.Option.{option_copied};
ghost use Rattle.theory.specs.Terms as tree;
ghost use Rattle.core_terms.specs.Answers.{Gives};
ghost use Rattle.core_terms.specs.Bounds.{most_height};
ghost use Rattle.core_terms.specs.Meanings.{tree_of, tele_of};
ghost use Rattle.tele_eq.specs.Items.{AreSmallTerms, IsSmall};

use core_terms::{Stop, Term, lift};
use std::alloc::Global;

/// The term with the number.
pub(crate) fn term_at(terms: &[Term], i: u32) -> Option<&Term>
    ensures { option_map tree_of (option_copied result) ≡ slice_get (tele_of terms.now) i }
{
    terms.get(i as usize)
}

/// The term with the number, which is small if all are.
pub fn small_term_at(terms: &[Term], i: u32) -> Option<&Term>
    requires { AreSmallTerms (tele_of terms.now) }
    ensures term { option_map tree_of (option_copied result) ≡ slice_get (tele_of terms.now) i }
    ensures small { IfSome result (λ t. IsSmall (tree_of t.now)) }
{
    match terms {
        [] => None,
        [t, rest @ ..] => if i == 0 {
            Some(t)
        } else {
            small_term_at(rest, i - 1)
        },
    }
}

/// A small term under so many binders.
pub(crate) fn lifted(alloc: Global, t: &Term, under: u32) -> Result<Term, Stop>
    requires small { IsSmall (tree_of t.now) }
    requires under { under ≤ most_height }
    ensures { Gives tree_of result (Ok (tree.lift (tree_of t.now) under 0)) }
{
    lift(alloc, t, under, 0)
}
