ghost use Rattle.std.specs.Prelude.{◌≡◌, Ok};
ghost use Rattle.core_terms.specs.Answers.{Gives};
ghost use Rattle.core_terms.specs.TreeMeanings.{step_of, steps_of};
ghost use Rattle.run_terms.specs.outlines.OutlineMeanings.{outline_of};
ghost use Rattle.tree_translation.specs.Standings.{here};
ghost use Rattle.run_terms.specs.CodeNaming.{naming_of};
ghost use Rattle.run_terms.specs.CodeRuns as runs;
ghost use Rattle.run_terms.specs.StandingMeanings.{standing_of};
ghost use Rattle.split_terms.specs.CodeRunTerms as spec;

use crate::methods::is_last;
use crate::rule_terms::step_term;
use core_sig::Signature;
use core_terms::{Items, Step, Stop, Term};
use run_terms::outlines::{Outline, with_later};
use run_terms::{Naming, Standing, after_step, inside, with_all};
use std::alloc::Global;

/// A term of the context, after the equations, which is not placed yet.
fn end_here(alloc: Global, s: &Standing, end: Outline) -> Result<Outline, Stop>
    ensures { Gives outline_of result (Ok (here (standing_of s.now) (outline_of end))) }
{
    let levels = with_all(Items::new(alloc), s.variables.as_slice())?;
    let depth = inside(s)?;
    Outline::new_placed(alloc, levels, depth, end)
}

/// The term of a step, with that of the later steps in outline, or Deep.
fn step_outline(
    alloc: Global,
    sig: &Signature,
    naming: Naming,
    level: u8,
    s: &Standing,
    step: &Step,
    next: &Standing,
    inner: Outline,
) -> Result<Outline, Stop>
    requires { runs.after_step sig.now (standing_of s.now) (step_of step.now) ≡ Ok (standing_of next.now) }
    ensures { Gives outline_of result (spec.step_made sig.now (naming_of naming.entry) level (standing_of s.now) (step_of step.now) (standing_of next.now) (outline_of inner)) }
{
    let around = step_term(alloc, sig, naming, level, s, step, next, Term::Sort(0))?;
    if is_last(step.rule) {
        return Ok(Outline::Whole(around));
    }
    with_later(alloc, around, inner)
}

/// The term of a state after its equations, from the steps that are left and an end over the last context, or Deep.
pub fn run_term(
    alloc: Global,
    sig: &Signature,
    naming: Naming,
    level: u8,
    end: Outline,
    steps: &[Step],
    s: &Standing,
) -> Result<Outline, Stop>
    ensures { Gives outline_of result (spec.run_made sig.now (naming_of naming.entry) level (outline_of end) (steps_of steps.now) (standing_of s.now)) }
{
    match steps {
        [] => end_here(alloc, s, end),
        [step, rest @ ..] => {
            let next = after_step(alloc, sig, s, step)?;
            let inner = run_term(alloc, sig, naming, level, end, rest, &next)?;
            step_outline(alloc, sig, naming, level, s, step, &next, inner)
        }
    }
}
