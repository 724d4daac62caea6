ghost use Rattle.std.specs.Prelude.{◌≡◌, Ok, length};
ghost use Rattle.core_terms.specs.Answers.{Gives};
ghost use Rattle.core_terms.specs.Meanings.{tree_of};
ghost use Rattle.tele_eq.specs.Environments as environments;
ghost use Rattle.tree_translation.specs.Standings.{at_levels, placed};
ghost use Rattle.run_terms.specs.outlines.Composing as spec;
ghost use Rattle.run_terms.specs.outlines.OutlineMeanings.{outline_of};

use crate::outlines::composing::{are_below, composed};
use crate::outlines::outline::Outline;
use crate::{Places, put_under};
use core_terms::{Items, Stop, Term, next, number_of, sum};
use std::alloc::Global;

/// A term over variables that have these levels, at a depth and under so many binders of its own.
fn placed_under(
    alloc: Global,
    levels: &[u32],
    depth: u32,
    under: u32,
    t: &Term,
) -> Result<Term, Stop>
    ensures { Gives tree_of result (Ok (environments.put_under (at_levels levels.now) (length levels.now) depth under (tree_of t.now))) }
{
    let size = number_of(levels.len())?;
    put_under(alloc, Places::Levels(levels), size, depth, under, t)
}

/// Whether a term that is placed by its own levels, at its own depth, is placed under these binders by one list of levels.
fn composes(levels: &[u32], under: u32, own: &[u32], at: u32) -> bool
    ensures { result ≡ spec.composes levels.now under own.now at }
{
    levels.len() as u64 + under as u64 == at as u64 && are_below(at, own)
}

/// The term of an outline that is placed, where it is placed again.
#[cycle(writing)]
fn placed_again(
    alloc: Global,
    levels: &[u32],
    depth: u32,
    under: u32,
    own: &[u32],
    at: u32,
    inner: &Outline,
) -> Result<Term, Stop>
    ensures { Gives tree_of result (Ok (environments.put_under (at_levels levels.now) (length levels.now) depth under (placed own.now at (outline_of inner.now)))) }
{
    if composes(levels, under, own, at) {
        let levels = composed(levels, depth, own, Items::new(alloc))?;
        return written(alloc, levels.as_slice(), sum(depth, under)?, 0, inner);
    }
    let t = written(alloc, own, at, 0, inner)?;
    placed_under(alloc, levels, depth, under, &t)
}

/// The term of an outline over variables that have these levels, at a depth and under so many binders of its own.
#[cycle(writing)]
pub fn written(
    alloc: Global,
    levels: &[u32],
    depth: u32,
    under: u32,
    o: &Outline,
) -> Result<Term, Stop>
    ensures { Gives tree_of result (Ok (environments.put_under (at_levels levels.now) (length levels.now) depth under (outline_of o.now))) }
{
    match o {
        Outline::Whole(t) => placed_under(alloc, levels, depth, under, t),
        Outline::Lam(domain, body) => {
            let inner = next(under)?;
            Term::function_of(
                alloc,
                placed_under(alloc, levels, depth, under, domain),
                written(alloc, levels, depth, inner, body),
            )
        }
        Outline::App(function, argument) => Term::application_of(
            alloc,
            written(alloc, levels, depth, under, function),
            written(alloc, levels, depth, under, argument),
        ),
        Outline::Placed(own, at, inner) => {
            placed_again(alloc, levels, depth, under, own.as_slice(), *at, inner)
        }
    }
}

/// The term of an outline.
pub fn whole(alloc: Global, o: Outline) -> Result<Term, Stop>
    ensures { Gives tree_of result (Ok (outline_of o)) }
{
    match o {
        Outline::Whole(t) => Ok(t),
        Outline::Lam(domain, body) => {
            let body = whole(alloc, Box::into_inner(body))?;
            Term::new_lam(alloc, domain, body)
        }
        Outline::App(function, argument) => {
            let function = whole(alloc, Box::into_inner(function))?;
            let argument = whole(alloc, Box::into_inner(argument))?;
            Term::new_app(alloc, function, argument)
        }
        Outline::Placed(own, at, inner) => {
            let inner = Box::into_inner(inner);
            written(alloc, own.as_slice(), at, 0, &inner)
        }
    }
}
