//! The laws of telescopic equality: on reflexivities everything computes away.
ghost use Rattle.tele_eq.specs.ReflexivityLaws.{CongruencesOfReflexivities, EliminationOfReflexivities, TransportOfReflexivities};

/// A telescopic J along reflexivities converts to the term that it begins from.
pub fn elimination_of_reflexivities()
    ensures { EliminationOfReflexivities }
{}

/// A transport along reflexivities converts to its argument.
pub fn transport_of_reflexivities()
    ensures { TransportOfReflexivities }
{}

/// Congruences at reflexivities convert to reflexivities.
pub fn congruences_of_reflexivities()
    ensures { CongruencesOfReflexivities }
{}
