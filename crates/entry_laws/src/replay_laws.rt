//! The replay of a run in code is the replay that is meant.
ghost use Rattle.entry_laws.specs.replay_laws.Laws.{AfterStepIsStep, AfterRunIsRun, AfterRunOnlyDeep, ReplayAnswers, BranchWidens};

/// The standing that the code answers after a step is the one that is meant.
pub fn after_step_is_step()
    ensures { AfterStepIsStep }
{}

/// The standing that the code answers after a run is the one that is meant.
pub fn after_run_is_run()
    ensures { AfterRunIsRun }
{}

/// No other refusal than `Deep` is meant.
pub fn after_run_only_deep()
    ensures { AfterRunOnlyDeep }
{}

/// Replaying a run that unification answers is never refused.
pub fn replay_answers()
    ensures { ReplayAnswers }
{}

/// From the state of a branch over a whole context, the state of the constructor's problem is seen.
pub fn branch_widens()
    ensures { BranchWidens }
{}
