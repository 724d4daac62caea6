//! Terms, names and candidates of proofs as the code makes them are those of the definitions.
ghost use Rattle.proof_walks.specs.proof_terms.Laws.{CandidateIsThis, ProofIsTerm, ProofNamesAreThese};

/// The term that the code makes of a proof is the proof's term.
pub fn proof_is_term()
    ensures { ProofIsTerm }
{}

/// The names that the code finds in a proof are the proof's names.
pub fn proof_names_are_these()
    ensures { ProofNamesAreThese }
{}

/// The candidate that the code makes is the candidate as it is defined.
pub fn candidate_is_this()
    ensures { CandidateIsThis }
{}
