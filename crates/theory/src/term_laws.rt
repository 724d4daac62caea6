//! The laws of lifting and substitution, the algebra of de Bruijn indices.
ghost use Rattle.theory.specs.TermLaws.{LiftIsRen, LiftIsWeaken, SubstIsInst, SubstIsExtend, LiftByNone, LiftLift, LiftMerge, LiftOfSubst, LiftOfSubstAbove, SubstOfLift, SubstCancels, SubstSubst, LiftOfScoped, SubstOfScoped, FreeOfLift, FreeOfSubst, FreeBeforeSubst, HeightOfLift, HeightOfSubst, SortsRaised, SortsOfLift, SortsOfSubst, SortsBeforeSubst};

/// A lift is a renaming.
pub fn lift_is_ren()
    ensures { LiftIsRen }
{}

/// A lift of every variable by one is weakening.
pub fn lift_is_weaken()
    ensures { LiftIsWeaken }
{}

/// A substitution is an instantiation.
pub fn subst_is_inst()
    ensures { SubstIsInst }
{}

/// A substitution for the nearest variable extends the identity.
pub fn subst_is_extend()
    ensures { SubstIsExtend }
{}

/// Lifting by nothing changes nothing.
pub fn lift_by_none()
    ensures { LiftByNone }
{}

/// Two lifts commute.
pub fn lift_lift()
    ensures { LiftLift }
{}

/// A second lift within the gap of the first only widens it.
pub fn lift_merge()
    ensures { LiftMerge }
{}

/// A lift passes a substitution at or above it.
pub fn lift_of_subst()
    ensures { LiftOfSubst }
{}

/// A lift passes a substitution at or below it.
pub fn lift_of_subst_above()
    ensures { LiftOfSubstAbove }
{}

/// A substitution within the gap of a lift closes the gap by one.
pub fn subst_of_lift()
    ensures { SubstOfLift }
{}

/// A substitution for the variable that a lift made room for cancels the lift.
pub fn subst_cancels()
    ensures { SubstCancels }
{}

/// Two substitutions commute: the substitution lemma.
pub fn subst_subst()
    ensures { SubstSubst }
{}

/// A lift from above the free variables changes nothing.
pub fn lift_of_scoped()
    ensures { LiftOfScoped }
{}

/// A substitution above the free variables changes nothing.
pub fn subst_of_scoped()
    ensures { SubstOfScoped }
{}

/// The bound on the free variables of a lifted term.
pub fn free_of_lift()
    ensures { FreeOfLift }
{}

/// A substitution for one of n + 1 variables leaves n of them.
pub fn free_of_subst()
    ensures { FreeOfSubst }
{}

/// A term that is scoped after a substitution was scoped before it, with one variable more.
pub fn free_before_subst()
    ensures { FreeBeforeSubst }
{}

/// A lift keeps the height.
pub fn height_of_lift()
    ensures { HeightOfLift }
{}

/// Both bounds on the height after a substitution.
pub fn height_of_subst()
    ensures { HeightOfSubst }
{}

/// A bound on the sorts of a term may be raised.
pub fn sorts_raised()
    ensures { SortsRaised }
{}

/// A lift keeps the sorts.
pub fn sorts_of_lift()
    ensures { SortsOfLift }
{}

/// A substitution brings no sorts but those of its term.
pub fn sorts_of_subst()
    ensures { SortsOfSubst }
{}

/// A substitution drops no sorts.
pub fn sorts_before_subst()
    ensures { SortsBeforeSubst }
{}
