//! Signatures: the entries that terms name by their numbers, the names that they bring, and the types that families
//! bring along.
#![tactic(auto)]

mod axiom_k;
mod by_levels;
mod drafting;
mod eliminator;
mod entry;
mod entry_ids;
mod family;
mod hypotheses;
mod importing;
mod instance_place;
mod kinds;
mod name_index;
mod name_set;
mod naming;
mod positivity;
mod prelude;
mod raw;
mod scoping;
mod settling;
mod shapes;
mod signature;
mod storing;
mod types;

pub use axiom_k::axiom_k_type;
pub use by_levels::{arguments_over, family_at, goal_type, motive_type};
pub use drafting::{drafted, generated_name};
pub use eliminator::elim_type;
pub use entry::{Draft, Entry, Found};
pub use entry_ids::{ConstructorId, EntryId, EntryIds, Stored};
pub use family::{Arg, ArgKind, Constructor, Family};
pub use hypotheses::{Motive, applied_to_targets, conclusion, hypotheses_over, hypothesis_type};
pub use importing::import_where_low;
pub use kinds::kind_of;
pub use name_set::NameSet;
pub use positivity::{mentions, strictly_positive};
pub use prelude::{equality, pair, unit};
pub use raw::{MutualRaw, RawCon, RawFamily, RawMember};
pub use scoping::is_scoped;
pub use settling::settle;
pub use shapes::{is_few, recursive_count};
pub use signature::Signature;
pub use types::{con_type, family_type, types_of};
