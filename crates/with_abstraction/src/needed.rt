ghost use Rattle.std.specs.Prelude.{◌≡◌, ◌≤◌, [], Ok};
ghost use Rattle.core_terms.specs.Answers.{Gives};
ghost use Rattle.core_terms.specs.Meanings.{tree_of, tele_of};
ghost use Rattle.tele_eq.specs.Dependences as dependences;
ghost use Rattle.tele_eq.specs.Items as items;
ghost use Rattle.theory.specs.Terms as tree;
ghost use Rattle.core_terms.specs.Bounds.{most_height};
ghost use Rattle.with_abstraction.specs.Conditions.{AreLow};
ghost use Rattle.with_abstraction.specs.Needed as spec;

use core_terms::{Stop, Term};
use std::alloc::Global;
use tele_eq::has_variable;

/// Whether the type at a position has a variable.
fn type_has(types: &[Term], position: u32, number: u32) -> bool
    requires { AreLow (tele_of types.now) }
    ensures { result ≡ dependences.has_variable number (items.term_at (tele_of types.now) position) }
{
    match types {
        [] => false,
        [ty, rest @ ..] => {
            if position == 0 {
                has_variable(number as u64, ty)
            } else {
                type_has(rest, position - 1, number)
            }
        }
    }
}

/// Whether the type of a variable with one of the levels has the variable with level `p`.
fn is_mentioned(n: u32, types: &[Term], p: u32, levels: &[u32]) -> bool
    requires { AreLow (tele_of types.now) }
    ensures { result ≡ spec.is_mentioned n (tele_of types.now) p levels.now }
{
    match levels {
        [] => false,
        [j, rest @ ..] => {
            let number = (n as u64).saturating_sub(p as u64 + 1) as u32;
            type_has(types, *j, number) || is_mentioned(n, types, p, rest)
        }
    }
}

/// Those of the first `below` levels that `ty` has, or the type of a variable which is found, before those that are found.
fn needed_below(
    alloc: Global,
    n: u32,
    types: &[Term],
    ty: &Term,
    below: u32,
    mut found: Vec<u32>,
) -> Result<Vec<u32>, Stop>
    requires types { AreLow (tele_of types.now) }
    requires ty { tree.height (tree_of ty.now) ≤ most_height }
    ensures { Gives (λ v. v.items) result (Ok (spec.needed_below n (tele_of types.now) (tree_of ty.now) below found.items)) }
{
    if below == 0 {
        return Ok(found);
    }
    let p = below - 1;
    let number = (n as u64).saturating_sub(p as u64 + 1);
    if has_variable(number, ty) || is_mentioned(n, types, p, found.as_slice()) {
        found.insert(0, p)?;
    }
    needed_below(alloc, n, types, ty, p, found)
}

/// The variables that a scrutinee's type needs, by their levels.
pub(crate) fn needed(alloc: Global, n: u32, types: &[Term], ty: &Term) -> Result<Vec<u32>, Stop>
    requires types { AreLow (tele_of types.now) }
    requires ty { tree.height (tree_of ty.now) ≤ most_height }
    ensures { Gives (λ v. v.items) result (Ok (spec.needed n (tele_of types.now) (tree_of ty.now))) }
{
    needed_below(alloc, n, types, ty, n, Vec::new(alloc))
}
