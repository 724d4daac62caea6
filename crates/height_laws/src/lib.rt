//! Laws: along many equations at once a term is higher than 2,000, whatever the equations are.
#![tactic(auto)]

pub mod laws;
