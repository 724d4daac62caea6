ghost use Rattle.std.specs.Prelude.{◌≡◌};
ghost use Rattle.core_terms.specs.Answers.{Gives};
ghost use Rattle.core_terms.specs.Meanings.{tree_of};
ghost use Rattle.generators.specs.acyclic_gen.Bounds.{IsNear};
ghost use Rattle.generators.specs.acyclic_gen.Statements as spec;

use crate::acyclic_gen::carrier::Carrier;
use core_terms::{Stop, Term, applied_to_run, variable};
use std::alloc::Global;

/// A variable with a level, or a constructor with a number, at the parameters.
#[derive(Clone, Copy)]
pub enum Head {
    Variable(u32),
    Constructor(u32),
}

/// A term of D p: a head applied to `count` variables, whose levels begin with `start`.
#[derive(Clone, Copy)]
pub struct Point {
    pub head: Head,
    pub start: u32,
    pub count: u32,
}

/// The variable with a level.
pub fn at_level(level: u32) -> Point
    ensures { result ≡ spec.at_level level }
{
    Point {
        head: Head::Variable(level),
        start: 0,
        count: 0,
    }
}

/// Constructor `number` at `count` arguments, whose levels begin with `start`.
pub fn built(number: u32, start: u32, count: u32) -> Point
    ensures { result ≡ spec.built number start count }
{
    Point {
        head: Head::Constructor(number),
        start,
        count,
    }
}

fn head_at(alloc: Global, q: Carrier, depth: u32, head: Head) -> Result<Term, Stop>
    ensures { Gives tree_of result (Ok (spec.head_at q depth head)) }
{
    match head {
        Head::Variable(level) => Ok(variable(depth, level)),
        Head::Constructor(number) => {
            applied_to_run(alloc, Term::Con(q.family, number), depth, 0, q.params)
        }
    }
}

/// The term itself, at a depth.
pub fn point_at(alloc: Global, q: Carrier, depth: u32, x: Point) -> Result<Term, Stop>
    requires { IsNear x }
    ensures { Gives tree_of result (Ok (spec.point_at q depth x)) }
{
    let head = head_at(alloc, q, depth, x.head)?;
    applied_to_run(alloc, head, depth, x.start, x.count)
}
