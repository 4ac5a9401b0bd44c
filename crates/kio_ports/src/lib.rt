//! The outside of the program: a stream of bytes that comes in and one that goes out.
//!
//! Whoever reads or writes is generic over `Source` and `Sink`. The streams in memory fail and stop short where a test wants it,
//! the clean ones never do, and the standard streams are the edge of what contracts see.
#![tactic(auto)]

mod calls;
mod clean;
mod failed;
mod mem_sink;
mod mem_source;
mod sink;
mod source;
mod standard;
mod unread;

pub use clean::{CleanSink, CleanSource};
pub use failed::Failed;
pub use mem_sink::MemSink;
pub use mem_source::MemSource;
pub use sink::Sink;
pub use source::Source;
pub use standard::{ReadSource, StdSink, StdSource, WriteSink};
