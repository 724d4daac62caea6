//! Why functions by clauses are refused: what a refusal shows holds of the clauses.
pub mod accepted_laws;
pub mod unit_laws;

ghost use Rattle.elim.specs.refusal_laws.MutualCauses.{MutualIsCaused};
ghost use Rattle.elim.specs.refusal_laws.Laws.{DeclarationIsCaused, IllTypedIsDenied, MeantIsCaused, MismatchIsDenied, NotSmallerFails, RefusalIsCaused, RejectedDecisionIsDenied, RejectedIsDenied, UncoveredIsApart};

/// A refusal of a function, as it is elaborated, has its cause at the clauses.
pub fn refusal_is_caused()
    ensures { RefusalIsCaused }
{}

/// So has a refusal that is meant.
pub fn meant_is_caused()
    ensures { MeantIsCaused }
{}

/// A declaration that is refused as a function is written as one, and the refusal has its cause there.
pub fn declaration_is_caused()
    ensures { DeclarationIsCaused }
{}

/// Arguments that are shown as uncovered are apart from each clause of the part.
pub fn uncovered_is_apart()
    ensures { UncoveredIsApart }
{}

/// The two terms of a mismatch do not convert, or a pattern met a term that is neither a variable nor a constructor.
pub fn mismatch_is_denied()
    ensures { MismatchIsDenied }
{}

/// A failing call is shown for each position that admits recursion.
pub fn not_smaller_fails()
    ensures { NotSmallerFails }
{}

/// An entry that is shown as rejected is one that the checker rejects.
pub fn rejected_is_denied()
    ensures { RejectedIsDenied }
{}

/// A part that is shown as ill typed is one that the checker rejects, or its level is too high.
pub fn ill_typed_is_denied()
    ensures { IllTypedIsDenied }
{}

/// Where a decision of equality is refused as rejected, the checker rejects the entry that is shown.
pub fn rejected_decision_is_denied()
    ensures { RejectedDecisionIsDenied }
{}

/// Families that refer to each other are refused for a cause at the declaration, or by the checker.
pub fn mutual_is_caused()
    ensures { MutualIsCaused }
{}
