//! The lines that the program writes for a source file are those that are meant.
ghost use Rattle.elim.specs.headline.meaning_laws.Complete.{EachIsAnswered, RunsAgree, WholeIsMeant};
ghost use Rattle.elim.specs.headline.meaning_laws.Laws.{CompiledIsMeant, LinesAreMeant, RunIsMeant, WorkIsMeant};

use function_session::function_laws::declaration_laws::text_is_meant;

/// The lines that are defined for the declarations of a source file are those that are meant.
pub fn lines_are_meant()
    ensures { LinesAreMeant }
{
    text_is_meant();
}

/// So is the output that is defined for `compile`.
pub fn compiled_is_meant()
    ensures { CompiledIsMeant }
{
    lines_are_meant();
}

/// So is the output that is defined for `work`.
pub fn work_is_meant()
    ensures { WorkIsMeant }
{
    text_is_meant();
}

/// So a run that compiles writes what is meant, with its status.
pub fn run_is_meant()
    ensures { RunIsMeant }
{
    compiled_is_meant();
}

/// An output that is written whole is the one that is meant, whatever the words ask for.
pub fn whole_is_meant()
    ensures { WholeIsMeant }
{
    compiled_is_meant();
    work_is_meant();
}

/// In it each declaration that its phases accept is accepted, as long as those before it are, and the first that they refuse is refused
/// with this refusal.
pub fn each_is_answered()
    ensures { EachIsAnswered }
{}

/// What is written whole, and the status, follow from the words and the bytes alone.
pub fn runs_agree()
    ensures { RunsAgree }
{}
