ghost use Rattle.std.specs.Prelude.{◌≡◌, ◌+◌, ◌∷◌, ◌++◌, Ok, drop, length};
ghost use Rattle.core_terms.specs.Answers.{Gives};
ghost use Rattle.core_terms.specs.Meanings.{tree_of, tele_of};
ghost use Rattle.tele_eq.specs.Dependences as dependences;
ghost use Rattle.tele_eq.specs.Levels as spec_levels;
ghost use Rattle.tree_translation.specs.Standings.{levels_from};
ghost use Rattle.unification.specs.Occurrences as spec;
ghost use Rattle.unification.specs.Rules as rules;

use crate::level_lists::with_levels_without;
use core_terms::{Items, Stop, Term, next};
use std::alloc::Global;

/// Whether a variable is free in a term. It has the number `n` where the term is.
fn occurs(n: u32, t: &Term) -> Result<bool, Stop>
    ensures { Gives (λ b. b) result (Ok (dependences.has_variable n (tree_of t.now))) }
{
    match t {
        Term::Var(v) => Ok(*v == n),
        Term::Pi(first, second) | Term::Lam(first, second) => {
            let inner = next(n)?;
            Ok(occurs(n, first)? || occurs(inner, second)?)
        }
        Term::App(first, second) => Ok(occurs(n, first)? || occurs(n, second)?),
        Term::Let(ty, value, rest) => {
            let inner = next(n)?;
            Ok(occurs(n, ty)? || occurs(n, value)? || occurs(inner, rest)?)
        }
        _ => Ok(false),
    }
}

/// The number of the variable with a level, or the level of the variable with a number, among `n`.
pub fn opposite(n: u32, level: u32) -> u32
    ensures { result ≡ rules.level_of n level }
{
    (n as u64).saturating_sub(level as u64 + 1) as u32
}

/// Whether a variable with one of the levels is free in a term over `n` variables.
fn has_level(n: u32, levels: &[u32], t: &Term) -> Result<bool, Stop>
    ensures { Gives (λ b. b) result (Ok (spec_levels.has_level n levels.now (tree_of t.now))) }
{
    match levels {
        [] => Ok(false),
        [p, rest @ ..] => Ok(occurs(opposite(n, *p), t)? || has_level(n, rest, t)?),
    }
}

/// Levels, followed by those from `at` on whose types have a variable that is found.
#[tactic(auto, using(tele_eq::proofs::Growing::listing))]
fn dependants_from(
    at: u32,
    mut found: Vec<u32>,
    types: &[Term],
    mut made: Items<u32>,
) -> Result<Items<u32>, Stop>
    ensures { Gives (λ v. v) result (Ok (made ++ spec.dependants_from at found.items (tele_of types.now))) }
{
    match types {
        [] => Ok(made),
        [ty, rest @ ..] => {
            if has_level(at, found.as_slice(), ty)? {
                found.insert(0, at)?;
                made.push(at)?;
            }
            dependants_from(next(at)?, found, rest, made)
        }
    }
}

/// The terms after the first `count` ones.
pub fn after_terms(terms: &[Term], count: usize) -> &[Term]
    ensures { tele_of result.now ≡ drop count (tele_of terms.now) }
{
    if count == 0 {
        return terms;
    }
    match terms {
        [] => terms,
        [_, rest @ ..] => after_terms(rest, count - 1),
    }
}

/// The variables whose types depend on the one with level `p`, by their levels.
pub fn dependants(alloc: Global, ctx: &[Term], p: u32) -> Result<Items<u32>, Stop>
    ensures { Gives (λ v. v) result (Ok (spec.dependants (tele_of ctx.now) p)) }
{
    let start = next(p)?;
    let mut found = Vec::new(alloc);
    found.push(p)?;
    let types = after_terms(ctx, start as usize);
    dependants_from(start, found, types, Items::new(alloc))
}

/// The levels among `n` that are neither `p` nor among others.
pub fn others(alloc: Global, n: u32, p: u32, moved: &[u32]) -> Result<Items<u32>, Stop>
    ensures { Gives (λ v. v) result (Ok (spec.without (p ∷ moved.now) (levels_from 0 n))) }
{
    let mut out = Vec::new(alloc);
    out.push(p)?;
    out.extend_from_slice(moved)?;
    with_levels_without(out.as_slice(), 0, n, Items::new(alloc))
}
