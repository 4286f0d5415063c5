//! Input and output of bytes: a source that is read to its end, a sink that takes a whole text, and what represents them in tests.
#![tactic(auto)]

mod fault_plan;
mod mem_sink;
mod mem_source;
mod read;
mod std_sink;
mod std_source;
mod sure_sink;
mod sure_source;
#[cfg(test)]
mod tests;
mod traits;
mod write;

pub use mem_sink::MemSink;
pub use mem_source::MemSource;
pub use read::{ReadRefusal, read_all};
pub use std_sink::StdSink;
pub use std_source::StdSource;
pub use sure_sink::SureSink;
pub use sure_source::SureSource;
pub use traits::{Failed, Sink, Source};
pub use write::{WriteRefusal, write_all_of};
