//! The law without K: where the flag of a well-formed signature is off, nothing in it or over it holds K.
ghost use Rattle.theory.specs.AxiomKLaws.{NoAxiomKEntry, NoAxiomKInDerivations};

/// No entry is an instance of K.
pub fn no_axiom_k_entry()
    ensures { NoAxiomKEntry }
{}

/// No term that has a type holds a symbol of K, and neither does the type.
pub fn no_axiom_k_in_derivations()
    ensures { NoAxiomKInDerivations }
{}
