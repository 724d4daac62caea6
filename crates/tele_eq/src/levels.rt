ghost use Rattle.std.specs.Prelude.{◌≡◌, ◌≤◌, ◌<◌, ◌^◌, length};
ghost use Rattle.core_terms.specs.Meanings.{tree_of};
ghost use Rattle.tele_eq.specs.Levels as spec;
ghost use Rattle.theory.specs.Terms as tree;
ghost use Rattle.core_terms.specs.Bounds.{most_height};

use crate::has_variable;
use core_terms::Term;

/// Whether a level, or a position, is one of them.
pub fn is_among(j: u32, levels: &[u32]) -> bool
    ensures { result ≡ spec.is_among j levels.now }
{
    match levels {
        [] => false,
        [i, rest @ ..] => *i == j || is_among(j, rest),
    }
}

/// The place of a level among levels, or their number.
pub fn place_in(levels: &[u32], j: u32) -> u32
    requires { length levels.now < 2 ^ 32 }
    ensures is { result ≡ spec.place_in levels.now j }
    ensures low { result ≤ length levels.now }
{
    match levels {
        [] => 0,
        [i, rest @ ..] => { if *i == j { 0 } else { place_in(rest, j) + 1 } }
    }
}

/// Whether a variable with one of the levels is free in a term over `n` variables.
pub fn has_level(n: u32, levels: &[u32], t: &Term) -> bool
    requires { tree.height (tree_of t.now) ≤ most_height }
    ensures { result ≡ spec.has_level n levels.now (tree_of t.now) }
{
    match levels {
        [] => false,
        [p, rest @ ..] => {
            let number = (n as u64).saturating_sub(*p as u64 + 1);
            has_variable(number, t) || has_level(n, rest, t)
        }
    }
}
