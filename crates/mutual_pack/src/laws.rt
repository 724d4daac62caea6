//! What is packed, in the words of the theory.
ghost use Rattle.mutual_pack.specs.EquationLaws.{SidesConvert};
ghost use Rattle.mutual_pack.specs.EquationScopes.{SidesAreScoped};
ghost use Rattle.mutual_pack.specs.InductionLaws.{InductionUnfolds};
ghost use Rattle.mutual_pack.specs.PackedScopes.{PackedIsScoped};
ghost use Rattle.mutual_pack.specs.PackingLaws.{LevelIsLow, MembersUnfold, NoMemberIsLeft, PackedIsPositive};
ghost use Rattle.mutual_pack.specs.TagLaws.{ConstructorsAreAtTheirTags};

/// The level of what is packed leaves room for two levels above it.
pub fn level_is_low()
    ensures { LevelIsLow }
{}

/// No member is left in the type of a constructor of the packed family.
pub fn no_member_is_left()
    ensures { NoMemberIsLeft }
{}

/// The packed family is positive.
pub fn packed_is_positive()
    ensures { PackedIsPositive }
{}

/// The packed family is scoped.
pub fn packed_is_scoped()
    ensures { PackedIsScoped }
{}

/// At a tag the packed family has the constructors of the tag's member, and no others.
pub fn constructors_are_at_their_tags()
    ensures { ConstructorsAreAtTheirTags }
{}

/// The type of each constructor as packed converts to the written one, where the members are their definitions.
pub fn members_unfold()
    ensures { MembersUnfold }
{}

/// An induction converts to the eliminator of the packed family.
pub fn induction_unfolds()
    ensures { InductionUnfolds }
{}

/// Both sides of the equation of each constructor convert.
pub fn sides_convert()
    ensures { SidesConvert }
{}

/// The equation of each constructor is scoped.
pub fn sides_are_scoped()
    ensures { SidesAreScoped }
{}
