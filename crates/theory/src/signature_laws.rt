//! The laws of signatures: longer ones, well-formed ones, and how they grow.
ghost use Rattle.theory.specs.SignatureLaws.{PushIsLonger, FirstEntriesArePrefix, PrefixReflexive, PrefixTransitive, CutToPrefix, EntriesOverLonger, TypesOverLonger, ConversionOverLonger, BelowOverLonger, ContextsOverLonger, DerivationsOverLonger, SortsOverLonger, LevelsOverLonger, ConstructorsOverLonger, DefinitionsOverLonger, WellFormedIsTyped, SoFarIsTyped, EmptyIsWellFormed, PushIsWellFormed, NamesOfPush, FirstEntriesAreWellFormed};

/// A signature is a prefix of what is pushed on it.
pub fn push_is_longer()
    ensures { PushIsLonger }
{}

/// The first entries of a signature are a prefix of it.
pub fn first_entries_are_prefix()
    ensures { FirstEntriesArePrefix }
{}

/// A signature is a prefix of itself.
pub fn prefix_reflexive()
    ensures { PrefixReflexive }
{}

/// A prefix of a prefix is a prefix.
pub fn prefix_transitive()
    ensures { PrefixTransitive }
{}

/// A longer signature that is cut to the length of the shorter one is that one.
pub fn cut_to_prefix()
    ensures { CutToPrefix }
{}

/// Entries keep their numbers in a longer signature.
pub fn entries_over_longer()
    ensures { EntriesOverLonger }
{}

/// A longer signature gives symbols the same types.
pub fn types_over_longer()
    ensures { TypesOverLonger }
{}

/// Conversion holds over a longer signature.
pub fn conversion_over_longer()
    ensures { ConversionOverLonger }
{}

/// The order of types holds over a longer signature.
pub fn below_over_longer()
    ensures { BelowOverLonger }
{}

/// Contexts stay well formed over a longer signature.
pub fn contexts_over_longer()
    ensures { ContextsOverLonger }
{}

/// Derivations hold over a longer signature.
pub fn derivations_over_longer()
    ensures { DerivationsOverLonger }
{}

/// A type with a sort has one over a longer signature.
pub fn sorts_over_longer()
    ensures { SortsOverLonger }
{}

/// Kept levels stay right over a longer signature.
pub fn levels_over_longer()
    ensures { LevelsOverLonger }
{}

/// Constructors stay well formed over a longer signature.
pub fn constructors_over_longer()
    ensures { ConstructorsOverLonger }
{}

/// Definitions stay well formed over a longer signature.
pub fn definitions_over_longer()
    ensures { DefinitionsOverLonger }
{}

/// A well-formed signature has what the laws of typing need.
pub fn well_formed_is_typed()
    ensures { WellFormedIsTyped }
{}

/// So has one that is well formed up to a provisional end.
pub fn so_far_is_typed()
    ensures { SoFarIsTyped }
{}

/// The signature without entries is well formed.
pub fn empty_is_well_formed()
    ensures { EmptyIsWellFormed }
{}

/// A well-formed entry with new names may be pushed.
pub fn push_is_well_formed()
    ensures { PushIsWellFormed }
{}

/// The names after a push.
pub fn names_of_push()
    ensures { NamesOfPush }
{}

/// The first entries of a well-formed signature are well formed.
pub fn first_entries_are_well_formed()
    ensures { FirstEntriesAreWellFormed }
{}
