//! The laws of the lines that accept a declaration.
ghost use Rattle.elim.specs.headline.FullHeadline.{AcceptedIsTheShown, FullHeadline};

use crate::elim_program::laws::{acceptance, accepted_is_shown};
use crate::headline::program_laws::{gives_by_the_grammar, without_k};
use crate::headline::verified_laws::lines::{lines_are_core_files, lines_are_reports};
use crate::k_laws::lines_lack_axiom_k;
use crate::written_functions::functions_are_by_clauses;

/// A declaration that the elaborator accepts is shown as the headline says.
pub fn accepted_is_the_shown()
    ensures { AcceptedIsTheShown }
{
    accepted_is_shown();
    gives_by_the_grammar();
    functions_are_by_clauses();
}

/// Where a line says that a declaration is accepted, it has the headline; the lines above are one core file, without K unless the
/// words ask for it; and the elaborator accepts this declaration with these lines.
pub fn full_headline()
    ensures { FullHeadline }
{
    acceptance();
    accepted_is_the_shown();
    lines_are_core_files();
    lines_are_reports();
    without_k();
    lines_lack_axiom_k();
}
