//! The generated entries compute, in the words of the theory.
ghost use Rattle.generators.specs.noconf_gen.ConfusionLaws.{ConflictComputes, InjectionComputes};

/// `D!nct.c.m` at two applications of the constructor `c`, with any equations, converts to the type that each motive holds that
/// holds at the congruences of equal arguments.
pub fn injection_computes()
    ensures { InjectionComputes }
{}

/// At an application of another constructor it converts to the type that each motive holds.
pub fn conflict_computes()
    ensures { ConflictComputes }
{}
