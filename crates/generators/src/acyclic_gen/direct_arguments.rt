ghost use Rattle.std.specs.Prelude.{◌≡◌, ◌≤◌, ◌<◌, ◌+◌, ◌++◌, true, IfOk, length, map};
ghost use Rattle.core_terms.specs.Answers.{Gives};
ghost use Rattle.core_sig.specs.Shapes.{argument_shape, by_kind};
ghost use Rattle.generators.specs.acyclic_gen.Bounds.{AreNear};
ghost use Rattle.generators.specs.acyclic_gen.Statements as spec;

use core_sig::{Arg, ArgKind};
use core_terms::{Items, Stop};
use std::alloc::Global;

/// A direct argument of a constructor: its level, and that of its hypothesis.
#[derive(Clone, Copy)]
pub struct Direct {
    pub argument: u32,
    pub hypothesis: u32,
}

/// Whether arguments of a kind have the type D p itself.
fn is_direct(kind: ArgKind) -> bool
    ensures { result ≡ spec.is_direct kind }
{
    match kind {
        ArgKind::Plain => false,
        ArgKind::Recursive(count) => count == 0,
    }
}

/// Whether one of the arguments is direct.
pub fn has_direct(args: &[Arg]) -> bool
    ensures { result ≡ spec.has_direct (map argument_shape args.now) }
{
    match args {
        [] => false,
        [arg, rest @ ..] => is_direct(arg.kind) || has_direct(rest),
    }
}

/// The level of the next hypothesis after an argument of a kind.
fn next_hypothesis(hypothesis: u32, kind: ArgKind) -> u32
    requires { hypothesis ≤ 1000000 }
    ensures is { result ≡ by_kind kind hypothesis (λ count. hypothesis + 1) }
    ensures near { result ≤ hypothesis + 1 }
{
    match kind {
        ArgKind::Plain => hypothesis,
        ArgKind::Recursive(_) => hypothesis + 1,
    }
}

/// The direct arguments, after those that are found.
#[tactic(auto, using(tele_eq::proofs::Growing::listing))]
fn directs_from(
    alloc: Global,
    argument: u32,
    hypothesis: u32,
    args: &[Arg],
    mut found: Items<Direct>,
) -> Result<Items<Direct>, Stop>
    requires arguments { argument + length args.now ≤ 100000 }
    requires hypotheses { hypothesis + length args.now ≤ 1000000 }
    ensures { Gives (λ ds. ds) result (Ok (found ++ spec.directs argument hypothesis (map argument_shape args.now))) }
{
    match args {
        [] => Ok(found),
        [arg, rest @ ..] => {
            let next = next_hypothesis(hypothesis, arg.kind);
            if is_direct(arg.kind) {
                found.push(Direct {
                    argument,
                    hypothesis,
                })?;
            }
            directs_from(alloc, argument + 1, next, rest, found)
        }
    }
}

/// The direct arguments with their hypotheses, where the first argument and the first hypothesis have the levels.
pub fn directs(
    alloc: Global,
    argument: u32,
    hypothesis: u32,
    args: &[Arg],
) -> Result<Items<Direct>, Stop>
    requires arguments { argument + length args.now ≤ 100000 }
    requires hypotheses { hypothesis + length args.now ≤ 1000000 }
    ensures is { Gives (λ ds. ds) result (Ok (spec.directs argument hypothesis (map argument_shape args.now))) }
    ensures near { IfOk result (λ ds. AreNear ds) }
    ensures some { IfOk result (λ ds. 0 < length ds → spec.has_direct (map argument_shape args.now) ≡ true) }
{
    directs_from(alloc, argument, hypothesis, args, Items::new(alloc))
}
