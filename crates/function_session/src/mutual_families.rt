//! Families that refer to each other in a session: what stands for them is packed and enters, and the equations of their inductions are
//! compared.
mod copying;
mod declaring;
mod entering;
mod equations;
mod inductions;
mod lines;
mod parameters;
mod refusing;

pub(crate) use declaring::declare_mutual;
