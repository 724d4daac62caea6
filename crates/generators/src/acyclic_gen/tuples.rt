//! Pairs and binders around terms that are answers: each call answers the first refusal among them, or else the term.
ghost use Rattle.std.specs.Prelude.{Ok};
ghost use Rattle.core_terms.specs.Answered.{of_two, shown};
ghost use Rattle.core_terms.specs.Answers.{Gives, and_then};
ghost use Rattle.core_terms.specs.Levels as levels;
ghost use Rattle.core_terms.specs.Meanings.{tree_of};
ghost use Rattle.case_below_gen.specs.Components as spec;

use case_below_gen::pair_with;
use core_terms::{Binder, Stop, Term};
use std::alloc::Global;

/// A product or a function.
pub fn bound(
    alloc: Global,
    binder: Binder,
    domain: Result<Term, Stop>,
    body: Result<Term, Stop>,
) -> Result<Term, Stop>
    ensures { Gives tree_of result (of_two (levels.bind binder) (shown domain) (shown body)) }
{
    match binder {
        Binder::Product => Term::product_of(alloc, domain, body),
        Binder::Function => Term::function_of(alloc, domain, body),
    }
}

/// `pair.m A B a b`.
pub fn pair_from(
    alloc: Global,
    m: u8,
    first: Result<Term, Stop>,
    second: Result<Term, Stop>,
    left: Result<Term, Stop>,
    right: Result<Term, Stop>,
) -> Result<Term, Stop>
    ensures { Gives tree_of result (and_then (shown first) (λ A. and_then (shown second) (λ B. and_then (shown left) (λ a. and_then (shown right) (λ b. Ok (spec.pair_with m A B a b)))))) }
{
    pair_with(alloc, m, first?, second?, left?, right?)
}
