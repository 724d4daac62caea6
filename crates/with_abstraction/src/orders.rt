ghost use Rattle.std.specs.Prelude.{◌≡◌, ◌≤◌, ◌<◌, ◌+◌, ◌-◌, ◌^◌, ◌∷◌, ◌++◌, [], Ok, length, map};
ghost use Rattle.core_terms.specs.Answers.{Gives};
ghost use Rattle.core_terms.specs.Meanings.{tree_of, tele_of};
ghost use Rattle.tele_eq.specs.Items.{each_position};
ghost use Rattle.theory.specs.Terms as tree;
ghost use Rattle.core_terms.specs.Bounds.{context_limit};
ghost use Rattle.unification.specs.Occurrences as occurring;
ghost use Rattle.with_abstraction.specs.Conditions.{AreLow};
ghost use Rattle.with_abstraction.specs.Orders as spec;

use core_terms::{Items, Stop, Term};
use std::alloc::Global;
use tele_eq::{has_level, is_among};

/// The levels from `j` on whose types have a variable that is found, after those that are made.
#[tactic(auto, using(tele_eq::proofs::Growing::growing))]
fn behind_from(
    alloc: Global,
    n: u32,
    j: u32,
    mut found: Vec<u32>,
    types: &[Term],
    mut made: Vec<u32>,
) -> Result<Vec<u32>, Stop>
    requires types { AreLow (tele_of types.now) }
    requires few { n ≤ context_limit }
    requires levels { j + length types.now ≤ context_limit }
    ensures { Gives (λ v. v.items) result (Ok (made.items ++ spec.behind_from n j found.items (tele_of types.now))) }
{
    match types {
        [] => Ok(made),
        [ty, rest @ ..] => {
            if has_level(n + 1, found.as_slice(), ty) {
                found.insert(0, j)?;
                made.push(j)?;
            }
            behind_from(alloc, n, j + 1, found, rest, made)
        }
    }
}

/// The variables after the new one, by their levels. The types are over the context and the new variable.
pub(crate) fn behind(alloc: Global, n: u32, types: &[Term]) -> Result<Vec<u32>, Stop>
    requires types { AreLow (tele_of types.now) }
    requires few { n ≤ context_limit }
    requires levels { length types.now ≤ context_limit }
    ensures { Gives (λ v. v.items) result (Ok (spec.behind n (tele_of types.now))) }
{
    let mut found = Vec::new(alloc);
    found.push(n)?;
    behind_from(alloc, n, 0, found, types, Vec::new(alloc))
}

/// The levels from `j` on, `count` of them, that are not left out, after those that are made.
#[tactic(auto, using(tele_eq::proofs::Growing::listing))]
pub(crate) fn others_from(
    alloc: Global,
    out: &[u32],
    j: u32,
    count: u32,
    mut made: Vec<u32>,
) -> Result<Vec<u32>, Stop>
    requires { j + count < 2 ^ 32 }
    ensures { Gives (λ v. v.items) result (Ok (made.items ++ occurring.without out.now (each_position (λ j. j) j count))) }
{
    if count == 0 {
        return Ok(made);
    }
    if !is_among(j, out) {
        made.push(j)?;
    }
    others_from(alloc, out, j + 1, count - 1, made)
}

/// The levels after those that are made.
#[tactic(auto, using(tele_eq::proofs::Growing::growing))]
fn appended(mut made: Vec<u32>, levels: &[u32]) -> Result<Vec<u32>, Stop>
    ensures { Gives (λ v. v.items) result (Ok (made.items ++ levels.now)) }
{
    match levels {
        [] => Ok(made),
        [j, rest @ ..] => {
            made.push(*j)?;
            appended(made, rest)
        }
    }
}

/// All levels in their new order: those in front, the new variable, those after it.
pub(crate) fn new_order(
    alloc: Global,
    n: u32,
    front: &[u32],
    behind: &[u32],
) -> Result<Vec<u32>, Stop>
    ensures { Gives (λ v. v.items) result (Ok (front.now ++ n ∷ behind.now)) }
{
    let mut order = appended(Vec::new(alloc), front)?;
    order.push(n)?;
    appended(order, behind)
}

/// The numbers of the variables with these levels in a context of `n` variables, after those that are made.
#[tactic(auto, using(tele_eq::proofs::Growing::growing))]
pub(crate) fn numbers(
    alloc: Global,
    n: u32,
    levels: &[u32],
    mut made: Items<u32>,
) -> Result<Items<u32>, Stop>
    ensures { Gives (λ v. v) result (Ok (made ++ map (λ j. n - (j + 1)) levels.now)) }
{
    match levels {
        [] => Ok(made),
        [j, rest @ ..] => {
            made.push((n as u64).saturating_sub(*j as u64 + 1) as u32)?;
            numbers(alloc, n, rest, made)
        }
    }
}
