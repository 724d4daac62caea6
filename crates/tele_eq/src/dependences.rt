ghost use Rattle.std.specs.Prelude.{◌≡◌, ◌≤◌, ◌<◌, ◌+◌, ◌^◌, Ok, IfOk, length};
ghost use Rattle.core_terms.specs.Answers.{Gives};
ghost use Rattle.core_terms.specs.Meanings.{tree_of};
ghost use Rattle.tele_eq.specs.Dependences as spec;
ghost use Rattle.tele_eq.specs.Items.{AreSmall, AreUpTo, items_of, type_at};
ghost use Rattle.theory.specs.Terms as tree;

use crate::Item;
use core_terms::{Stop, Term};
use std::alloc::Global;

/// Whether a variable is free in a term. It has the number `n` where the term is.
pub fn has_variable(n: u64, t: &Term) -> bool
    requires { n + tree.height (tree_of t.now) < 2 ^ 64 }
    ensures { result ≡ spec.has_variable n (tree_of t.now) }
{
    match t {
        Term::Var(v) => *v as u64 == n,
        Term::Pi(first, second) | Term::Lam(first, second) => {
            has_variable(n, first) || has_variable(n + 1, second)
        }
        Term::App(first, second) => has_variable(n, first) || has_variable(n, second),
        Term::Let(ty, value, rest) => {
            has_variable(n, ty) || has_variable(n, value) || has_variable(n + 1, rest)
        }
        _ => false,
    }
}

/// Whether the type at a position has a variable.
fn type_has(tele: &[Item], position: u32, n: u32) -> bool
    requires { AreSmall (items_of tele.now) }
    ensures { result ≡ spec.has_variable n (type_at (items_of tele.now) position) }
{
    match tele {
        [] => false,
        [item, rest @ ..] => {
            if position == 0 {
                has_variable(n as u64, &item.ty)
            } else {
                type_has(rest, position - 1, n)
            }
        }
    }
}

/// Whether the type at one of the positions, all after `at`, mentions the variable at `at`.
fn is_mentioned(tele: &[Item], at: u32, positions: &[u32]) -> bool
    requires { AreSmall (items_of tele.now) }
    ensures { result ≡ spec.is_mentioned (items_of tele.now) at positions.now }
{
    match positions {
        [] => false,
        [position, rest @ ..] => {
            let n = (*position as u64).saturating_sub(at as u64 + 1) as u32;
            type_has(tele, *position, n) || is_mentioned(tele, at, rest)
        }
    }
}

/// The positions below `at` that the type at position `j`, or the type at a position that is found, depends on, before those
/// that are found.
fn closed(
    alloc: Global,
    tele: &[Item],
    j: u32,
    at: u32,
    mut found: Vec<u32>,
) -> Result<Vec<u32>, Stop>
    requires small { AreSmall (items_of tele.now) }
    requires at { at ≤ 1000 }
    requires found { AreUpTo 1000 found.items }
    ensures is { Gives (λ v. v.items) result (Ok (spec.closed (items_of tele.now) j at found.items)) }
    ensures few { IfOk result (λ v. length v.items ≤ length found.items + at) }
    ensures low { IfOk result (λ v. AreUpTo 1000 v.items) }
{
    if at == 0 {
        return Ok(found);
    }
    let at = at - 1;
    let n = (j as u64).saturating_sub(at as u64 + 1) as u32;
    if type_has(tele, j, n) || is_mentioned(tele, at, found.as_slice()) {
        found.insert(0, at)?;
    }
    closed(alloc, tele, j, at, found)
}

/// The earlier positions that the type at position `j` depends on.
pub(crate) fn dependences(alloc: Global, tele: &[Item], j: u32) -> Result<Vec<u32>, Stop>
    requires small { AreSmall (items_of tele.now) }
    requires position { j ≤ 1000 }
    ensures is { Gives (λ v. v.items) result (Ok (spec.dependences (items_of tele.now) j)) }
    ensures few { IfOk result (λ v. length v.items ≤ 1000) }
    ensures low { IfOk result (λ v. AreUpTo 1000 v.items) }
{
    closed(alloc, tele, j, j, Vec::new(alloc))
}
