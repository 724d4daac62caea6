ghost use Rattle.std.specs.Prelude.{◌≡◌};
ghost use Rattle.core_terms.specs.Answers.{Gives};
ghost use Rattle.core_terms.specs.TreeMeanings.{step_of};
ghost use Rattle.tree_translation.specs.Replays as replays;
ghost use Rattle.run_terms.specs.CodeRuns as spec;
ghost use Rattle.run_terms.specs.StandingMeanings.{standing_of};

use core_sig::Signature;
use core_terms::{Step, Stop};
use run_terms::{Standing, after_rule};
use std::alloc::Global;

/// The standing after a step of a run, which is read over the whole context, or Deep.
pub fn next_standing(
    alloc: Global,
    sig: &Signature,
    s: &Standing,
    step: &Step,
    read: &Step,
) -> Result<Standing, Stop>
    requires { step_of read.now ≡ replays.step_in (standing_of s.now) (step_of step.now) }
    ensures { Gives standing_of result (spec.after_step sig.now (standing_of s.now) (step_of step.now)) }
{
    after_rule(alloc, sig, s, read)
}
