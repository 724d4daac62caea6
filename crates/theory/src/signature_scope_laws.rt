//! The laws of scoping: scoped terms stay scoped, and the terms of a scoped signature are scoped.
ghost use Rattle.theory.specs.SignatureScopeLaws.{ScopedOverMore, ScopedOverAll, ScopedOverLonger, ScopedTelescopesOverLonger, ScopedContextsOverLonger, RenScoped, InstScoped, LiftScoped, SubstScoped, ContextScoped, TypesScoped, BodiesScoped, IotaScoped};

/// A scoped term is scoped over more variables.
pub fn scoped_over_more()
    ensures { ScopedOverMore }
{}

/// A term that is scoped over the first entries is scoped over all.
pub fn scoped_over_all()
    ensures { ScopedOverAll }
{}

/// Terms stay scoped over a longer signature.
pub fn scoped_over_longer()
    ensures { ScopedOverLonger }
{}

/// Telescopes stay scoped over a longer signature.
pub fn scoped_telescopes_over_longer()
    ensures { ScopedTelescopesOverLonger }
{}

/// Contexts stay scoped over a longer signature.
pub fn scoped_contexts_over_longer()
    ensures { ScopedContextsOverLonger }
{}

/// A renaming keeps terms scoped.
pub fn ren_scoped()
    ensures { RenScoped }
{}

/// An instantiation by scoped terms keeps terms scoped.
pub fn inst_scoped()
    ensures { InstScoped }
{}

/// A lift keeps terms scoped, over the variables that it makes room for too.
pub fn lift_scoped()
    ensures { LiftScoped }
{}

/// A substitution for one of n + 1 variables leaves a term over n.
pub fn subst_scoped()
    ensures { SubstScoped }
{}

/// A telescope is scoped exactly where the context after it is.
pub fn context_scoped()
    ensures { ContextScoped }
{}

/// The types of all symbols are closed and scoped.
pub fn types_scoped()
    ensures { TypesScoped }
{}

/// The bodies of constants are closed and scoped.
pub fn bodies_scoped()
    ensures { BodiesScoped }
{}

/// Iota keeps terms scoped.
pub fn iota_scoped()
    ensures { IotaScoped }
{}
