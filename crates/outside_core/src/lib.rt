//! Sources and sinks: what is read, what is written, and what watches.
//!
//!     Source --read_all--> bytes          bytes --write_all--> Sink
//!
//! Each is a trait with a written meaning: the bytes that a source has left and that a sink holds, if contracts
//! see them, and a count of faults that never falls. A source or a sink answers an error only if its count rose,
//! so a clause that rests on it refuses a body that gives up by itself. A source and a sink in memory are here.
//! Not handled here: stdin and stdout (see `standard_streams`).
#![tactic(auto)]

mod ends;
mod memory;
mod transfer;
mod watch;

pub use ends::{Failed, Gate, OpenGate, Sink, Source};
pub use memory::{MemSink, MemSource};
pub use transfer::{ReadAll, WriteFault, read_all, write_all};
pub use watch::{Compare, NeverSource};
