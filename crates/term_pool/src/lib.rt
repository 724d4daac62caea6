//! Terms in a store, where an id stands for a tree: nodes and rows, stores that share equal terms and stores that don't, and the
//! calls on terms over any store.
#![tactic(auto)]

mod facts;
mod hashing;
mod ids;
mod instantiation;
mod layer;
mod lifting;
mod memo;
mod node;
mod placing;
mod pool;
mod row;
mod shifts;
mod store;
mod substitution;
mod terms;
mod trees;

pub use hashing::WordHasher;
pub use ids::{Id, Mark, TreeId};
pub use instantiation::{inst_in, subst_all_in};
pub use layer::Layer;
pub use lifting::lift_in;
pub use node::Node;
pub use pool::Pool;
pub use row::{Answer, Key, Row};
pub use store::TermStore;
pub use substitution::subst_in;
pub use terms::{export_in, import_in};
pub use trees::Trees;
