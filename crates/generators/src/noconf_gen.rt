//! Generated entries of each constructor: no confusion, `D!nct.c.m` and `D!noconf.c.m`, as drafts.
mod compared;
mod confusion;
mod fitting;
pub mod laws;
mod lengths;
mod members;
mod naming;
mod nct;
mod noconf;

pub use nct::nct_entry;
pub use noconf::noconf_entry;
