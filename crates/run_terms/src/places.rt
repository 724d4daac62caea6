ghost use Rattle.std.specs.Prelude.{◌≡◌, ◌≤◌, ◌<◌, ◌+◌, ◌^◌, Ok, get_or, length};
ghost use Rattle.core_terms.specs.Answers.{Gives};
ghost use Rattle.core_terms.specs.Levels as by_level;
ghost use Rattle.core_terms.specs.Meanings.{tree_of};
ghost use Rattle.tele_eq.specs.Environments as environments;
ghost use Rattle.tele_eq.specs.Levels as spec_levels;
ghost use Rattle.run_terms.specs.CodePlaces.{after_environment, environment_of, variables_of};

use crate::raising::term_at;
use core_terms::{Stop, Term, copy_whole, next, sum};
use problems::Solution;
use std::alloc::Global;

/// Terms over the first `over` variables for the first `count` places after `size` variables; the further places are from level
/// `new` on.
#[derive(Clone, Copy)]
pub struct After<'a> {
    pub solution: Option<Solution<'a>>,
    pub size: u32,
    pub count: u32,
    pub new: u32,
    pub over: u32,
    pub terms: &'a [Term],
}

/// Terms for the variables of a context: variables with other levels, or with their places in a new order; those with one of them
/// solved; or those with terms for places after the context.
#[derive(Clone, Copy)]
pub enum Places<'a> {
    Levels(&'a [u32]),
    Reordered(&'a [u32]),
    Solved(Solution<'a>),
    After(After<'a>),
}

/// The variable with a level, at a depth.
fn variable_at(depth: u32, level: u64) -> Term
    requires { level < 2 ^ 63 }
    ensures { tree_of result ≡ by_level.variable depth level }
{
    Term::Var((depth as u64).saturating_sub(level + 1) as u32)
}

/// The level at a position, or 0 where there is none.
pub fn level_at(levels: &[u32], position: usize) -> u32
    ensures { result ≡ get_or levels.now position 0 }
{
    match levels.get(position) {
        Some(level) => *level,
        None => 0,
    }
}

/// The place of a level among levels, or their number.
pub fn place_in(levels: &[u32], j: u32) -> usize
    ensures is { result ≡ spec_levels.place_in levels.now j }
    ensures low { result ≤ length levels.now }
{
    match levels {
        [] => 0,
        [i, rest @ ..] => { if *i == j { 0 } else { place_in(rest, j) + 1 } }
    }
}

/// The term that stands for a variable of the context, at a depth.
#[cycle(put)]
fn solved_at(alloc: Global, solution: Option<Solution>, depth: u32, j: u32) -> Result<Term, Stop>
    ensures { Gives tree_of result (Ok (variables_of solution.entry depth j)) }
{
    match solution {
        None => Ok(variable_at(depth, j as u64)),
        Some(solution) => {
            if j == solution.level {
                let order = Places::Reordered(solution.order);
                put_under(alloc, order, solution.size, depth, 0, solution.by)
            } else {
                Ok(variable_at(depth, place_in(solution.order, j) as u64))
            }
        }
    }
}

/// The term for a variable that comes after those of a context, at a depth.
#[cycle(put)]
fn after_at(alloc: Global, after: After, depth: u32, j: u32) -> Result<Term, Stop>
    ensures { Gives tree_of result (Ok (after_environment after.entry depth j)) }
{
    if j < after.size {
        return solved_at(alloc, after.solution, depth, j);
    }
    let place = j - after.size;
    if place < after.count {
        let by = depth.saturating_sub(after.over);
        return term_at(alloc, after.terms, place, by);
    }
    Ok(variable_at(depth, after.new as u64 + (place - after.count) as u64))
}

/// The term for a variable, at a depth.
#[cycle(put)]
fn at(alloc: Global, places: Places, depth: u32, j: u32) -> Result<Term, Stop>
    ensures { Gives tree_of result (Ok (environment_of places.entry depth j)) }
{
    match places {
        Places::Levels(levels) => Ok(variable_at(depth, level_at(levels, j as usize) as u64)),
        Places::Reordered(order) => Ok(variable_at(depth, place_in(order, j) as u64)),
        Places::Solved(solution) => solved_at(alloc, Some(solution), depth, j),
        Places::After(after) => after_at(alloc, after, depth, j),
    }
}

#[cycle(put)]
fn put_variable(
    alloc: Global,
    places: Places,
    size: u32,
    depth: u32,
    under: u32,
    n: u32,
) -> Result<Term, Stop>
    ensures { Gives tree_of result (Ok (environments.put_variable (environment_of places.entry) size depth under n)) }
{
    if n < under {
        return Ok(Term::Var(n));
    }
    let end = size as u64 + under as u64;
    if n as u64 >= end {
        return Ok(Term::Var(sum(n - size, depth)?));
    }
    let position = end - (n as u64 + 1);
    at(alloc, places, sum(depth, under)?, position as u32)
}

/// `put` under so many binders of the term's own.
#[cycle(put)]
pub fn put_under(
    alloc: Global,
    places: Places,
    size: u32,
    depth: u32,
    under: u32,
    t: &Term,
) -> Result<Term, Stop>
    ensures { Gives tree_of result (Ok (environments.put_under (environment_of places.entry) size depth under (tree_of t.now))) }
{
    match t {
        Term::Var(n) => put_variable(alloc, places, size, depth, under, *n),
        Term::Pi(domain, codomain) => {
            let inner = next(under)?;
            Term::product_of(
                alloc,
                put_under(alloc, places, size, depth, under, domain),
                put_under(alloc, places, size, depth, inner, codomain),
            )
        }
        Term::Lam(domain, body) => {
            let inner = next(under)?;
            Term::function_of(
                alloc,
                put_under(alloc, places, size, depth, under, domain),
                put_under(alloc, places, size, depth, inner, body),
            )
        }
        Term::App(function, argument) => Term::application_of(
            alloc,
            put_under(alloc, places, size, depth, under, function),
            put_under(alloc, places, size, depth, under, argument),
        ),
        Term::Let(ty, value, rest) => {
            let inner = next(under)?;
            Term::local_of(
                alloc,
                put_under(alloc, places, size, depth, under, ty),
                put_under(alloc, places, size, depth, under, value),
                put_under(alloc, places, size, depth, inner, rest),
            )
        }
        Term::Sort(_)
        | Term::Const(_)
        | Term::Fam(_)
        | Term::Con(_, _)
        | Term::Elim(_, _)
        | Term::AxiomK(_, _) => copy_whole(alloc, t),
    }
}

/// A term over the first `size` variables with their terms put in, at a depth. Nothing tests its height.
pub fn put(alloc: Global, places: Places, size: u32, depth: u32, t: &Term) -> Result<Term, Stop>
    ensures { Gives tree_of result (Ok (environments.put (environment_of places.entry) size depth (tree_of t.now))) }
{
    put_under(alloc, places, size, depth, 0, t)
}
