//! The laws of derivations, without confluence, normalisation or subject reduction.
ghost use Rattle.theory.specs.TypingLaws.{ContextOfDerivation, TermScoped, TypeScoped, BodiesClosed, Renaming, Weakening, WeakeningOfContexts, Instantiation, Substitution, Generation, TelescopeFormation, TelescopeGeneration, Validity, Subsumption, FunctionTypes};

/// The context of a derivation is well formed.
pub fn context_of_derivation()
    ensures { ContextOfDerivation }
{}

/// A derived term is scoped in its context.
pub fn term_scoped()
    ensures { TermScoped }
{}

/// So is its type.
pub fn type_scoped()
    ensures { TypeScoped }
{}

/// The bodies of definitions are closed.
pub fn bodies_closed()
    ensures { BodiesClosed }
{}

/// Renaming keeps derivations.
pub fn renaming()
    ensures { Renaming }
{}

/// Weakening: new types may be put in anywhere in a context.
pub fn weakening()
    ensures { Weakening }
{}

/// A context stays well formed where new types are put in.
pub fn weakening_of_contexts()
    ensures { WeakeningOfContexts }
{}

/// Instantiation keeps derivations.
pub fn instantiation()
    ensures { Instantiation }
{}

/// Substitution for the nearest variable keeps derivations.
pub fn substitution()
    ensures { Substitution }
{}

/// Generation: the parts of a derivation of each form of term.
pub fn generation()
    ensures { Generation }
{}

/// Products over a telescope have a sort where the body has one after it.
pub fn telescope_formation()
    ensures { TelescopeFormation }
{}

/// They have one only in that case.
pub fn telescope_generation()
    ensures { TelescopeGeneration }
{}

/// Validity: every derived type is a sort or has one.
pub fn validity()
    ensures { Validity }
{}

/// A term has every greater type.
pub fn subsumption()
    ensures { Subsumption }
{}

/// The domain and the codomain of a function's type have sorts.
pub fn function_types()
    ensures { FunctionTypes }
{}
