//! The outside: sources and sinks of bytes that count their faults, in memory and over std's
//! readers and writers, and the loops over short reads and short writes.
#![tactic(auto)]

mod calls;
mod failed;
mod memory_sink;
mod memory_source;
mod reading;
mod retry;
mod sink;
mod source;
mod std_sink;
mod std_source;
mod writing;

pub use failed::Failed;
pub use memory_sink::MemorySink;
pub use memory_source::MemorySource;
pub use reading::{Ended, Taken, read_all};
pub use sink::Sink;
pub use source::Source;
pub use std_sink::StdSink;
pub use std_source::StdSource;
pub use writing::write_all;
