//! Each declaration of a session is made as is meant.
ghost use Rattle.function_session.specs.function_laws.declaration_laws.Laws.{DeclarationIsMeant, DeclarationStaysUnmarked, DeclaredIsMeant, TextIsMeant, WordsAreUnmarked};

/// Each declaration is accepted or refused as is meant.
pub fn declaration_is_meant()
    ensures { DeclarationIsMeant }
{}

/// So is each declaration in a session, a decision of equality too.
pub fn declared_is_meant()
    ensures { DeclaredIsMeant }
{}

/// No declaration adds a family or constructor whose name holds a `!`, where none that it declares does.
pub fn declaration_stays_unmarked()
    ensures { DeclarationStaysUnmarked }
{}

/// No name of a family or constructor that a source file declares holds a `!`.
pub fn words_are_unmarked()
    ensures { WordsAreUnmarked }
{}

/// So the declarations of a source file are made as is meant, one after the other from the prelude on.
pub fn text_is_meant()
    ensures { TextIsMeant }
{
    declared_is_meant();
}
