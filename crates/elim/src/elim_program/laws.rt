//! The laws of the defined output.
ghost use Rattle.elim.specs.elim_program.Acceptance.{Acceptance, AcceptedIsShown};
ghost use Rattle.elim.specs.elim_program.DefinedOutputs.{HasOneOutput};
ghost use Rattle.elim.specs.elim_program.Headline.{Headline};
ghost use Rattle.elim.specs.program_texts.Refusals.{StopsHaveReasons};
ghost use Rattle.elim.specs.elim_program.Verifies.{BoundIsEnough};
ghost use Rattle.elim.specs.elim_program.VerifyHeadline.{VerifiedIsReady, VerifyHeadline};
ghost use Rattle.elim.specs.elim_program.WorkLaws.{WorkCountsOutput};

/// Where a line says that a declaration is accepted, the elaborator accepts it over the signature that the declarations before it gave.
pub fn acceptance()
    ensures { Acceptance }
{}

/// The headline says of what is accepted that it is shown.
pub fn accepted_is_shown()
    ensures { AcceptedIsShown }
{}

/// Where a line says that a declaration is accepted, the lines above it show that it has its written type.
pub fn headline()
    ensures { Headline }
{}

/// No source file is refused without a reason.
pub fn stops_have_reasons()
    ensures { StopsHaveReasons }
{}

/// The bound in the definition of the lines of a core file cuts nothing off.
pub fn bound_is_enough()
    ensures { BoundIsEnough }
{}

/// Where a line says that an entry of a core file is verified, the entries that are verified up to it are a signature by the
/// rules.
pub fn verify_headline()
    ensures { VerifyHeadline }
{}

/// Where a line says that an entry of a core file is verified, its signature is also one that a session may have.
pub fn verified_is_ready()
    ensures { VerifiedIsReady }
{}

/// The output and the status are a function of the words and the bytes.
pub fn has_one_output()
    ensures { HasOneOutput }
{}

/// The mode `work` counts the clauses of the lines that `compile` writes for the same declarations, or ends in the lines of the
/// same refusal.
pub fn work_counts_output()
    ensures { WorkCountsOutput }
{}
