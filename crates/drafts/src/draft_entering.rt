//! How a draft enters a signature: first the entries that it mentions and the signature lacks, in the same way, and
//! then itself.
mod defining;
mod entering;
mod finding;
mod generated;
mod generating;
mod instances;
pub mod laws;
mod naming;
mod rejecting;
mod spelling;
mod stop;
mod texts;

pub use entering::enter_draft;
pub use finding::generated_by;
pub use generated::Generated;
pub use naming::enter_named;
pub use stop::ReportStop;
