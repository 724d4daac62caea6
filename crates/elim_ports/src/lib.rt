//! Sources and sinks of bytes: the two traits, their objects in memory and over the standard library, and the calls
//! that read a source to its end and write a text whole.
#![tactic(auto)]

mod call_plan;
mod copying;
mod memory_sink;
mod memory_source;
mod port_error;
mod reading;
mod sink;
mod source;
mod std_sink;
mod std_source;
mod writing;

pub use call_plan::calls_fail_as_listed;
pub use memory_sink::MemorySink;
pub use memory_source::MemorySource;
pub use port_error::PortError;
pub use reading::{ReadError, read_all};
pub use sink::Sink;
pub use source::Source;
pub use std_sink::StdSink;
pub use std_source::StdSource;
pub use writing::write_all;
