//! Bytes in and out, with failures counted.
//!
//! Everything that the program reads from or writes to is passed in as an object that may fail.
//! Each such object counts its failures, and a call answers [`Failed`] only where that count rose.
//! So a caller always knows whether an answer has its cause outside, and never mistakes a failure
//! for an end of input.
//!
//! No clause says which bytes a reader or a writer of std gives or takes: [`StdSource`] and
//! [`StdSink`] are tested over vectors, a reader that fails and a writer that takes nothing.
#![tactic(auto)]

mod bytes;
mod fault;
mod memory;
mod sink;
mod source;
mod std_streams;

pub use bytes::Bytes;
pub use fault::{Failed, Memory};
pub use memory::{MemSink, MemSource};
pub use sink::{Sink, write_all, write_pieces};
pub use source::{ReadError, Source, read_all};
pub use std_streams::{StdSink, StdSource};
