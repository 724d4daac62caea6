//! The laws of an abstraction: nothing is lost, the result is scoped, and no occurrence of the scrutinee is left.
ghost use Rattle.with_abstraction.specs.Laws.{AbstractionGivesBack, AbstractionLeavesNone, AbstractionScoped, AbstractionSpends};

/// An abstraction gives no units back.
pub fn abstraction_spends()
    ensures { AbstractionSpends }
{}

/// At the variables of the context, and the scrutinee for the new variable, the goal and the types are what they were.
pub fn abstraction_gives_back()
    ensures { AbstractionGivesBack }
{}

/// Each type is over those before it, and each variable of the context occurs once.
pub fn abstraction_scoped()
    ensures { AbstractionScoped }
{}

/// The new variable alone stands for the scrutinee, but in the types that the scrutinee's type needs.
pub fn abstraction_leaves_none()
    ensures { AbstractionLeavesNone }
{}
