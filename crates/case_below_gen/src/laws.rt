//! Laws of the generated entries, in the words of the theory.
ghost use Rattle.case_below_gen.specs.CaseLaws.{CaseTypeWithoutHypotheses};
ghost use Rattle.case_below_gen.specs.CourseLaws.{AllComputes, PathStepComputes, RecComputes};
ghost use Rattle.case_below_gen.specs.PathLaws.{PathComputes};
ghost use Rattle.case_below_gen.specs.SettledLaws.{AuxSettles, SidesSettle};

/// The type of case analysis is the eliminator's type without hypotheses.
pub fn case_type_without_hypotheses()
    ensures { CaseTypeWithoutHypotheses }
{}

/// At a constructor, `D!rec.m` converts to the step with the tuple of `D!aux.m` at the recursive arguments.
pub fn rec_computes()
    ensures { RecComputes }
{}

/// And `D!all.m` converts to that tuple.
pub fn all_computes()
    ensures { AllComputes }
{}

/// In `D!all.m` at a constructor, a path's step to a recursive argument converts to `D!rec.m` or `D!all.m` at the argument.
pub fn path_step_computes()
    ensures { PathStepComputes }
{}

/// In `D!all.m` at a term, the path to a strict part converts to `D!rec.m` at the part.
pub fn path_computes()
    ensures { PathComputes }
{}

/// The draft of `D!aux.m`, settled, is the entry on whose body these laws are stated.
pub fn aux_settles()
    ensures { AuxSettles }
{}

/// And so are those of `D!rec.m` and `D!all.m`.
pub fn sides_settle()
    ensures { SidesSettle }
{}
