//! Streams in memory, which fail on the calls that their maker lists.

mod sink;
mod source;

pub use sink::MemSink;
pub use source::MemSource;
