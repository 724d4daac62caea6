ghost use Rattle.std.specs.Prelude.{◌≡◌, ◌≤◌, ◌+◌, ◌++◌, IfOk, Ok, length};
ghost use Rattle.core_terms.specs.Answers.{Gives};
ghost use Rattle.core_terms.specs.Meanings.{tree_of, tele_of};
ghost use Rattle.theory.specs.Terms as tree;
ghost use Rattle.core_terms.specs.Bounds.{context_limit, most_height};
ghost use Rattle.with_abstraction.specs.Abstractions as spec;
ghost use Rattle.with_abstraction.specs.Conditions.{AreLow, AreOver, AreTypesOver};
ghost use Rattle.with_abstraction.specs.Needed.{widened as wide};

use crate::needed::needed;
use crate::occurrences::without;
use core_terms::{Items, Stop, Tele, Term, lift};
use std::alloc::Global;
use tele_eq::is_among;

/// A term so many variables further in.
#[tactic(auto, using(crate::proofs::Widths::bounded_lift))]
pub(crate) fn lifted(alloc: Global, t: &Term, by: u32) -> Result<Term, Stop>
    requires low { tree.height (tree_of t.now) ≤ most_height }
    requires free { tree.free_of (tree_of t.now) + by ≤ 2147483649 }
    ensures { Gives tree_of result (Ok (tree.lift (tree_of t.now) by 0)) }
{
    lift(alloc, t, by, 0)
}

/// The types of a context of `n` variables, the first of which is that of the variable with level `j`, each as a term over all `n`
/// variables, after those that are made.
#[tactic(auto, using(tele_eq::proofs::Growing::growing))]
fn widened(alloc: Global, n: u32, j: u32, types: &[Term], mut made: Tele) -> Result<Tele, Stop>
    requires types { AreTypesOver j (tele_of types.now) }
    requires few { n ≤ 2147483647 }
    requires levels { j + length types.now ≤ n }
    ensures { Gives tele_of result (Ok (tele_of made ++ wide n j (tele_of types.now))) }
{
    match types {
        [] => Ok(made),
        [ty, rest @ ..] => {
            made.push(lifted(alloc, ty, n - j)?)?;
            widened(alloc, n, j + 1, rest, made)
        }
    }
}

/// The types of a whole context, each as a term over all its variables.
fn all_widened(alloc: Global, types: &[Term]) -> Result<Tele, Stop>
    requires types { AreTypesOver 0 (tele_of types.now) }
    requires few { length types.now ≤ 2147483647 }
    ensures all { Gives tele_of result (Ok (wide (length types.now) 0 (tele_of types.now))) }
    ensures over { IfOk result (λ v. AreOver context_limit (tele_of v)) }
    ensures low { IfOk result (λ v. AreLow (tele_of v)) }
    ensures count { IfOk result (λ v. length v ≡ length types.now) }
{
    widened(alloc, types.len() as u32, 0, types, Items::new(alloc))
}

/// The types one variable further in, the first of which is that of the variable with level `j`, after those that are made: the new
/// variable stands for `t`, but not in those that are kept.
#[tactic(auto, using(tele_eq::proofs::Growing::growing))]
fn opened(
    alloc: Global,
    t: &Term,
    kept: &[u32],
    j: u32,
    types: &[Term],
    mut made: Tele,
) -> Result<Tele, Stop>
    requires low { tree.height (tree_of t.now) ≤ most_height }
    requires types { AreOver context_limit (tele_of types.now) }
    requires levels { j + length types.now ≤ context_limit }
    ensures { Gives tele_of result (Ok (tele_of made ++ spec.opened (tree_of t.now) kept.now j (tele_of types.now))) }
{
    match types {
        [] => Ok(made),
        [ty, rest @ ..] => {
            if is_among(j, kept) {
                made.push(lifted(alloc, ty, 1)?)?;
            } else {
                made.push(without(alloc, t, ty)?)?;
            }
            opened(alloc, t, kept, j + 1, rest, made)
        }
    }
}

/// The types of a context without `t`, one variable further in, where `ty` is the type of `t`.
pub(crate) fn opened_types(alloc: Global, t: &Term, ty: &Term, types: &[Term]) -> Result<Tele, Stop>
    requires low { tree.height (tree_of t.now) ≤ most_height }
    requires ty { tree.height (tree_of ty.now) ≤ most_height }
    requires types { AreTypesOver 0 (tele_of types.now) }
    requires few { length types.now ≤ 2147483647 }
    ensures is { Gives tele_of result (Ok (spec.opened_types (length types.now) (tree_of t.now) (tree_of ty.now) (wide (length types.now) 0 (tele_of types.now)))) }
    ensures low { IfOk result (λ v. AreLow (tele_of v)) }
    ensures count { IfOk result (λ v. length v ≡ length types.now) }
{
    let all = all_widened(alloc, types)?;
    let kept = needed(alloc, types.len() as u32, all.as_slice(), ty)?;
    opened(
        alloc,
        t,
        kept.as_slice(),
        0,
        all.as_slice(),
        Items::new(alloc),
    )
}
