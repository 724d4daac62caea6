//! A decision computes, in the words of the theory.
ghost use Rattle.decide_eq.specs.DecisionLaws.{DecisionUnfolds, DifferentAreRefuted, EqualAreProved};

/// A decision converts to the eliminator at the one term.
pub fn decision_unfolds()
    ensures { DecisionUnfolds }
{}

/// At different constructors a decision converts to the second constructor of the family into which equality is decided, at the equation
/// of the two.
pub fn different_are_refuted()
    ensures { DifferentAreRefuted }
{}

/// At equal constructors whose arguments are decided equal it converts to the first constructor of that family, at the congruence of the
/// constructor.
pub fn equal_are_proved()
    ensures { EqualAreProved }
{}
