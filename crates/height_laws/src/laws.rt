//! Many equations make high terms.
ghost use Rattle.height_laws.specs.Laws.{CongruencesAreHigh, EliminationIsHigh, EquationsAreHigh, TelescopicJIsHigh, TransportIsHigh};

/// A telescopic J along n equations has at least the height 2n² + n + 4.
pub fn telescopic_j_is_high()
    ensures { TelescopicJIsHigh }
{}

/// What is solved along 32 equations or more at once, by one telescopic J, is higher than 2,000.
pub fn elimination_is_high()
    ensures { EliminationIsHigh }
{}

/// A term is transported along 32 equations or more by a term that is higher than 2,000.
pub fn transport_is_high()
    ensures { TransportIsHigh }
{}

/// A congruence along 32 equations or more is higher than 2,000.
pub fn congruences_are_high()
    ensures { CongruencesAreHigh }
{}

/// Variables of 1,001 places or more and the equations at these, bound one after the other, make a term that is higher than 2,000.
pub fn equations_are_high()
    ensures { EquationsAreHigh }
{}
