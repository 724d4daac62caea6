ghost use Rattle.std.specs.Prelude.{◌≡◌, ◌≤◌, ◌<◌, ◌+◌};
ghost use Rattle.core_terms.specs.Answers.{Gives};
ghost use Rattle.core_terms.specs.Meanings.{tree_of};
ghost use Rattle.generators.specs.acyclic_gen.Bounds.{IsNear, IsNearClaim};
ghost use Rattle.generators.specs.acyclic_gen.Claims as spec;

use crate::acyclic_gen::carrier::{Carrier, carrier_at};
use crate::acyclic_gen::point::{Point, at_level, built};
use crate::acyclic_gen::statements::{no_part, not_within};
use core_terms::{Stop, Term, applied_to_run};
use std::alloc::Global;

/// From a direct argument of c p a to the whole: the constructor's number, the constant `D!noconf.c.0`, the level of the first
/// argument and how many there are, and the level of the direct one among them.
#[derive(Clone, Copy)]
pub struct Push {
    pub constructor: u32,
    pub noconf: u32,
    pub first: u32,
    pub count: u32,
    pub part: u32,
}

/// The claim of an elimination about each term b: a type of its parts; that it is no part of itself; or that where the direct
/// argument of c p a is no part of b, c p a is neither b nor a part of b.
#[derive(Clone, Copy)]
pub enum Claim {
    Direct,
    Acyclic,
    Pushed(Push),
}

/// The constructor at its arguments.
pub fn pushed_whole(push: Push) -> Point
    ensures { result ≡ spec.pushed_whole push }
{
    built(push.constructor, push.first, push.count)
}

/// The direct argument.
pub fn pushed_part(push: Push) -> Point
    ensures { result ≡ spec.pushed_part push }
{
    at_level(push.part)
}

/// Its position among the arguments.
pub fn position_of(push: Push) -> u32
    ensures { result ≡ spec.position_of push }
{
    push.part.saturating_sub(push.first)
}

/// The claim about b, at a depth.
pub fn claim_at(alloc: Global, claim: Claim, q: Carrier, depth: u32, b: Point) -> Result<Term, Stop>
    requires claim { IsNearClaim claim }
    requires b { IsNear b }
    requires depth { depth ≤ 900000 }
    ensures { Gives tree_of result (Ok (spec.claim_at claim q depth b)) }
{
    match claim {
        Claim::Direct => Ok(Term::Sort(q.level)),
        Claim::Acyclic => no_part(alloc, q, depth, b, b),
        Claim::Pushed(push) => {
            let domain = no_part(alloc, q, depth, pushed_part(push), b)?;
            let codomain = not_within(alloc, q, depth + 1, pushed_whole(push), b)?;
            Term::new_pi(alloc, domain, codomain)
        }
    }
}

/// The level of a claim.
fn claim_level(claim: Claim, q: Carrier) -> u8
    requires { q.level < 100 }
    ensures { result ≡ spec.claim_level claim q }
{
    match claim {
        Claim::Direct => q.level + 1,
        Claim::Acyclic | Claim::Pushed(_) => q.level,
    }
}

/// The eliminator at the parameters and at the motive of the claim, at a depth.
pub fn eliminator(alloc: Global, claim: Claim, q: Carrier, depth: u32) -> Result<Term, Stop>
    requires level { q.level < 100 }
    requires claim { IsNearClaim claim }
    requires depth { depth ≤ 800000 }
    ensures { Gives tree_of result (Ok (spec.eliminator claim q depth)) }
{
    let head = Term::Elim(q.family, claim_level(claim, q));
    let head = applied_to_run(alloc, head, depth, 0, q.params)?;
    let body = claim_at(alloc, claim, q, depth + 1, at_level(depth));
    let motive = Term::function_of(alloc, carrier_at(alloc, q, depth), body);
    Term::application_of(alloc, Ok(head), motive)
}
