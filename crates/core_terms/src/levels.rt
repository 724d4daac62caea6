ghost use Rattle.std.specs.Prelude.{◌≡◌, ◌≤◌, ◌<◌, ◌+◌, ◌^◌, length, map};
ghost use Rattle.core_terms.specs.Answers.{Gives};
ghost use Rattle.core_terms.specs.Levels as spec;
ghost use Rattle.core_terms.specs.Meanings.{tree_of, tele_of};
ghost use Rattle.theory.specs.Telescopes.{applied};
ghost use Rattle.theory.specs.Terms as tree;
ghost use Rattle.core_terms.specs.Bounds.{context_limit};

use crate::copying::copy_whole;
use crate::{MAX_HEIGHT, Stop, Term};
use std::alloc::Global;

/// A number of levels from a level on: `(start, count)`.
pub type Run = (u32, u32);

/// The variable with a level, at a depth. The outermost binder has level 0.
pub fn variable(depth: u32, level: u32) -> Term
    ensures { tree_of result ≡ spec.variable depth level }
{
    Term::Var((depth as u64).saturating_sub(level as u64 + 1) as u32)
}

/// The level that a level of a record has among runs of levels.
fn level_at(runs: &[Run], level: u32) -> u64
    ensures is { result ≡ spec.level_at runs.now level }
    ensures bound { result < 2 ^ 33 }
{
    match runs {
        [] => 0,
        [run, rest @ ..] => {
            if level < run.1 {
                run.0 as u64 + level as u64
            } else {
                level_at(rest, level - run.1)
            }
        }
    }
}

fn place_var(runs: &[Run], size: u32, depth: u32, under: u32, n: u32) -> u32
    requires { depth + under < 2 ^ 32 }
    ensures { result ≡ spec.place_var runs.now size depth under n }
{
    if n < under {
        return n;
    }
    let level = level_at(
        runs,
        (size as u64).saturating_sub((n - under) as u64 + 1) as u32,
    );
    ((depth + under) as u64).saturating_sub(level + 1) as u32
}

fn place_under(
    alloc: Global,
    runs: &[Run],
    size: u32,
    depth: u32,
    under: u32,
    t: &Term,
) -> Result<Term, Stop>
    requires { depth + under + tree.height (tree_of t.now) < 2 ^ 32 }
    ensures { Gives tree_of result (Ok (spec.place_under runs.now size depth under (tree_of t.now))) }
{
    match t {
        Term::Var(n) => Ok(Term::Var(place_var(runs, size, depth, under, *n))),
        Term::Pi(domain, codomain) => Term::product_of(
            alloc,
            place_under(alloc, runs, size, depth, under, domain),
            place_under(alloc, runs, size, depth, under + 1, codomain),
        ),
        Term::Lam(domain, body) => Term::function_of(
            alloc,
            place_under(alloc, runs, size, depth, under, domain),
            place_under(alloc, runs, size, depth, under + 1, body),
        ),
        Term::App(function, argument) => Term::application_of(
            alloc,
            place_under(alloc, runs, size, depth, under, function),
            place_under(alloc, runs, size, depth, under, argument),
        ),
        Term::Let(ty, value, rest) => Term::local_of(
            alloc,
            place_under(alloc, runs, size, depth, under, ty),
            place_under(alloc, runs, size, depth, under, value),
            place_under(alloc, runs, size, depth, under + 1, rest),
        ),
        Term::Sort(_)
        | Term::Const(_)
        | Term::Fam(_)
        | Term::Con(_, _)
        | Term::Elim(_, _)
        | Term::AxiomK(_, _) => copy_whole(alloc, t),
    }
}

/// A term over `size` variables of a record, whose levels lie in the runs, at a depth. A term that is higher than
/// `MAX_HEIGHT` stays as it is.
pub fn place(alloc: Global, runs: &[Run], size: u32, depth: u32, t: &Term) -> Result<Term, Stop>
    requires { depth < context_limit }
    ensures { Gives tree_of result (Ok (spec.place runs.now size depth (tree_of t.now))) }
{
    if t.height() > MAX_HEIGHT {
        return copy_whole(alloc, t);
    }
    place_under(alloc, runs, size, depth, 0, t)
}

/// A product or a function.
#[derive(Clone, Copy, Debug, PartialEq, Eq)]
pub enum Binder {
    Product,
    Function,
}

/// A product or a function. Its height is not tested.
pub fn bind(alloc: Global, binder: Binder, domain: Term, body: Term) -> Result<Term, Stop>
    ensures { Gives tree_of result (Ok (spec.bind binder (tree_of domain) (tree_of body))) }
{
    match binder {
        Binder::Product => Term::new_pi(alloc, domain, body),
        Binder::Function => Term::new_lam(alloc, domain, body),
    }
}

/// Binds a telescope of a record around `end`, at a depth.
pub fn over(
    alloc: Global,
    binder: Binder,
    runs: &[Run],
    size: u32,
    depth: u32,
    tele: &[Term],
    end: Term,
) -> Result<Term, Stop>
    requires size { size + length tele.now < 2 ^ 32 }
    requires depth { depth + length tele.now < context_limit }
    ensures { Gives tree_of result (Ok (spec.over binder runs.now size depth (tele_of tele.now) (tree_of end))) }
{
    match tele {
        [] => Ok(end),
        [ty, rest @ ..] => {
            let ty = place(alloc, runs, size, depth, ty)?;
            let rest = over(alloc, binder, runs, size + 1, depth + 1, rest, end)?;
            bind(alloc, binder, ty, rest)
        }
    }
}

/// `head` applied to terms of a record, at a depth.
pub fn applied_to_places(
    alloc: Global,
    head: Term,
    runs: &[Run],
    size: u32,
    depth: u32,
    terms: &[Term],
) -> Result<Term, Stop>
    requires { depth < context_limit }
    ensures { Gives tree_of result (Ok (applied (tree_of head) (map (spec.place runs.now size depth) (tele_of terms.now)))) }
{
    match terms {
        [] => Ok(head),
        [t, rest @ ..] => {
            let t = place(alloc, runs, size, depth, t)?;
            let head = Term::new_app(alloc, head, t)?;
            applied_to_places(alloc, head, runs, size, depth, rest)
        }
    }
}

/// `head` applied to the variables of a run of levels, at a depth.
pub fn applied_to_run(
    alloc: Global,
    head: Term,
    depth: u32,
    start: u32,
    count: u32,
) -> Result<Term, Stop>
    requires { start + count < 2 ^ 32 }
    ensures { Gives tree_of result (Ok (applied (tree_of head) (spec.run depth start count))) }
{
    if count == 0 {
        return Ok(head);
    }
    let head = Term::new_app(alloc, head, variable(depth, start))?;
    applied_to_run(alloc, head, depth, start + 1, count - 1)
}
