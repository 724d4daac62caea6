ghost use Rattle.std.specs.Prelude.{◌≡◌, ◌<◌, ◌+◌, ◌^◌, ◌∷◌, ◌++◌, Ok, length, not, ◌≤◌};
ghost use Rattle.core_terms.specs.Answers.{Gives};
ghost use Rattle.core_terms.specs.Meanings.{tree_of, tele_of};
ghost use Rattle.tele_eq.specs.Items.{each_position};
ghost use Rattle.tele_eq.specs.Levels as levels;
ghost use Rattle.theory.specs.Terms as tree;
ghost use Rattle.core_terms.specs.Bounds.{context_limit, most_height};
ghost use Rattle.unification.specs.Occurrences as spec;
ghost use Rattle.problems.specs.Conditions.{AreLow};

use core_terms::{Stop, Term};
use std::alloc::Global;
use tele_eq::{has_level, has_variable, is_among};

/// The levels from `at` on whose types have a variable that is found, after those that are made.
#[tactic(auto, using(tele_eq::proofs::Growing::listing))]
fn dependants_from(
    alloc: Global,
    at: u32,
    mut found: Vec<u32>,
    types: &[Term],
    mut made: Vec<u32>,
) -> Result<Vec<u32>, Stop>
    requires low { AreLow (tele_of types.now) }
    requires levels { at + length types.now < 2 ^ 32 }
    ensures { Gives (λ v. v.items) result (Ok (made.items ++ spec.dependants_from at found.items (tele_of types.now))) }
{
    match types {
        [] => Ok(made),
        [ty, rest @ ..] => {
            if has_level(at, found.as_slice(), ty) {
                found.insert(0, at)?;
                made.push(at)?;
            }
            dependants_from(alloc, at + 1, found, rest, made)
        }
    }
}

/// The variables whose types depend on the one with level `p`, by their levels.
pub fn dependants(alloc: Global, ctx: &[Term], p: u32) -> Result<Vec<u32>, Stop>
    requires low { AreLow (tele_of ctx.now) }
    requires few { length ctx.now < context_limit }
    requires p { p < length ctx.now }
    ensures { Gives (λ v. v.items) result (Ok (spec.dependants (tele_of ctx.now) p)) }
{
    let mut found = Vec::new(alloc);
    found.push(p)?;
    let types = &ctx[p as usize + 1..];
    dependants_from(alloc, p + 1, found, types, Vec::new(alloc))
}

/// Whether neither the variable with level `p` nor one of its dependants is in a term of the context.
pub(crate) fn lacks(n: u32, p: u32, dependants: &[u32], t: &Term) -> bool
    requires { tree.height (tree_of t.now) ≤ most_height }
    ensures { result ≡ not (levels.has_level n (p ∷ dependants.now) (tree_of t.now)) }
{
    let number = (n as u64).saturating_sub(p as u64 + 1);
    !(has_variable(number, t) || has_level(n, dependants, t))
}

/// The levels from `at` on, `count` of them, that are neither `p` nor among those left out, after those that are made.
#[tactic(auto, using(tele_eq::proofs::Growing::listing))]
fn others_from(
    alloc: Global,
    p: u32,
    out: &[u32],
    at: u32,
    count: u32,
    mut made: Vec<u32>,
) -> Result<Vec<u32>, Stop>
    requires { at + count < 2 ^ 32 }
    ensures { Gives (λ v. v.items) result (Ok (made.items ++ spec.without (p ∷ out.now) (each_position (λ j. j) at count))) }
{
    if count == 0 {
        return Ok(made);
    }
    if p != at && !is_among(at, out) {
        made.push(at)?;
    }
    others_from(alloc, p, out, at + 1, count - 1, made)
}

/// The levels of all variables but the one with level `p`, in their new order: its dependants come last.
#[tactic(auto, using(tele_eq::proofs::Growing::listing))]
pub(crate) fn order_without(
    alloc: Global,
    count: u32,
    p: u32,
    dependants: &[u32],
) -> Result<Vec<u32>, Stop>
    ensures { Gives (λ v. v.items) result (Ok (spec.without (p ∷ dependants.now) (each_position (λ j. j) 0 count) ++ dependants.now)) }
{
    let mut order = others_from(alloc, p, dependants, 0, count, Vec::new(alloc))?;
    for j in dependants {
        order.push(*j)?;
    }
    Ok(order)
}
