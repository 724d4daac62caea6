//! The laws of rules: turns and runs follow them.
ghost use Rattle.unification.specs.Laws.{RunFollows, TurnFollows};

/// A turn that goes on is a step of the rules, and one that fails has the evidence of a rule.
pub fn turn_follows()
    ensures { TurnFollows }
{}

/// The outcome of a problem is reached by its steps, each of them one of the rules, and an absurd end has its evidence.
pub fn run_follows()
    ensures { RunFollows }
{}
