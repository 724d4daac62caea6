//! Laws of plans: the plan of a function by clauses meets the conditions of its entries.
ghost use Rattle.function_session.specs.plan_laws.Laws.{PlanIsOfFunction, PlanIsPlanned, PlanStandsApart, SameAbstractions, SameTrees, SameWalks};
ghost use Rattle.function_session.specs.plan_laws.Reading.{FunctionIsNotRead};

/// A function at the end of a signature is not read.
pub fn function_is_not_read()
    ensures { FunctionIsNotRead }
{}

/// Signatures from which the same is read have the same walks.
pub fn same_walks()
    ensures { SameWalks }
{}

/// Signatures from which the same is read have the same trees.
pub fn same_trees()
    ensures { SameTrees }
{}

/// Signatures from which the same is read have the same abstractions.
pub fn same_abstractions()
    ensures { SameAbstractions }
{}

/// A plan has the name and the type of its function.
pub fn plan_is_of_function()
    ensures { PlanIsOfFunction }
{}

/// The plan of a function is one.
pub fn plan_is_planned()
    ensures { PlanIsPlanned }
{}

/// No call in the plan of a function is the decreasing argument of another one.
pub fn plan_stands_apart()
    ensures { PlanStandsApart }
{}
