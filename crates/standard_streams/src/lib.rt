//! The program's stdin, stdout and stderr: sources and sinks over std's readers and writers; and its arguments (this
//! project's own).
//!
//!     stdin  --read, again if interrupted-->  ReaderSource, a Source
//!     stdout, stderr  <--write, again if interrupted--  WriterSink, a Sink
//!
//! A reader and a writer show their bytes to the proof or not; a source and a sink show what these show. Standard
//! input, output and error show none. What a source and a sink promise is `outside_core`'s.
#![tactic(auto)]

mod arguments;
mod streams;

pub use arguments::given_arguments;
pub use streams::{ReaderSource, WriterSink};
