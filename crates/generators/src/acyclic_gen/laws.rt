//! Laws of direct arguments and of `D!direct`, in the words of the theory.
ghost use Rattle.generators.specs.acyclic_gen.DirectComputing.{DirectComputes};
ghost use Rattle.generators.specs.acyclic_gen.DirectLaws.{DirectAtTheFamily};

/// An argument is direct exactly where its type is the family at its parameters.
pub fn direct_at_the_family()
    ensures { DirectAtTheFamily }
{}

/// At a constructor `D!direct` converts to the type of pairs of the motive and `D!direct` at each direct argument.
pub fn direct_computes()
    ensures { DirectComputes }
{}
