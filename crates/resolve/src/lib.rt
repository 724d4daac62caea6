//! Names: the core terms, families and functions that written declarations stand for.
#![tactic(auto)]

mod binders;
mod constructors;
mod declared_names;
mod families;
mod forming;
mod fun_core;
mod functions;
mod laws;
mod member_names;
mod mutual;
mod names;
mod patterns;
mod scope;
mod stop;
mod symbols;
mod terms;
mod variables;

pub use declared_names::declared_word;
pub use families::resolve_data;
pub use fun_core::FunCore;
pub use functions::resolve_fun;
pub use laws::{families_resolve, functions_resolve, mutual_families_resolve, terms_resolve};
pub use mutual::resolve_mutual;
pub use stop::ResolveStop;
pub use terms::resolve_term;
