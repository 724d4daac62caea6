//! The plan that the code makes of a function whose clauses are walked is the one that is meant.
ghost use Rattle.function_plans.specs.Laws.{PlanAnswers, PlanIsThis};

/// A plan that is made is the one that is meant.
pub fn plan_answers()
    ensures { PlanAnswers }
{}

/// The plan that is made, or the refusal, is the one that is meant, where the telescope and the uses of the function
/// are low.
pub fn plan_is_this()
    ensures { PlanIsThis }
{}
