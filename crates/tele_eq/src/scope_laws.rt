//! Terms that are made from scoped ones are scoped, over a signature that has the identity families of the prelude.
ghost use Rattle.tele_eq.specs.ScopeLaws.{ScopedCongruences, ScopedElimination, ScopedEquations, ScopedReflexivities, ScopedTransport};

/// The equations between two lists of terms are a scoped telescope.
pub fn scoped_equations()
    ensures { ScopedEquations }
{}

/// Reflexivities are scoped.
pub fn scoped_reflexivities()
    ensures { ScopedReflexivities }
{}

/// A transport is scoped.
pub fn scoped_transport()
    ensures { ScopedTransport }
{}

/// Congruences are scoped.
pub fn scoped_congruences()
    ensures { ScopedCongruences }
{}

/// A telescopic J is scoped.
pub fn scoped_elimination()
    ensures { ScopedElimination }
{}
