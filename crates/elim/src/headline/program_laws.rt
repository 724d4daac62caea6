//! Laws that use the headline of the program: for all words and bytes an output is defined, and what that output says.
ghost use Rattle.elim.specs.headline.program_laws.Laws.{GivesByTheGrammar, HasOutput, OneSignature, ReadsByTheGrammar, ReasonsAreGiven, StatusFollows, VerifiedWithoutK, WithoutK};

/// For all words and bytes an output is defined.
pub fn has_output()
    ensures { HasOutput }
{}

/// Tokens are read as declarations, or have a first place at which they go wrong or something is too deep.
pub fn reads_by_the_grammar()
    ensures { ReadsByTheGrammar }
{}

/// The declarations of a source file are those that the grammar has for it.
pub fn gives_by_the_grammar()
    ensures { GivesByTheGrammar }
{}

/// The last line of an output shows its status.
pub fn status_follows()
    ensures { StatusFollows }
{}

/// Each line that is defined for a refusal has a reason.
pub fn reasons_are_given()
    ensures { ReasonsAreGiven }
{}

/// Where the words do not ask for axiom K, no entry of an accepted source file holds it.
pub fn without_k()
    ensures { WithoutK }
{}

/// Where the words do not ask for axiom K, no verified entry holds it.
pub fn verified_without_k()
    ensures { VerifiedWithoutK }
{}

/// The lines above one that accepts a declaration are a core file of the signature that has it.
pub fn one_signature()
    ensures { OneSignature }
{}
