//! The top call of the compiler.
mod block;
mod clause_texts;
mod counts;
mod declaring;
pub mod laws;
mod running;
mod verifying;
mod work_texts;
mod working;

use block::Block;
pub use running::run;
