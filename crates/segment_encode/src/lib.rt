//! The segments of a file, or of a chunk's rows of it, coded side by side (this project's own).
//!
//!     encode_scan  scouts --threads--> excerpts                     before the pass, if the scan has no restarts
//!                  pass --ReadyPart--> lane --thread--> streams     the pass goes on, and codes the last segments
//!     encode_all   starts -ReadyPart-> lanes --threads--> streams
//!
//! A *lane* is segments in order that one thread codes, one after another, with the memory for all of them. There are
//! at most 16 lanes, so at most 16 segments are coded at the same time. A lane's memory is allocated on the calling
//! thread before the lane's thread starts, but for the tables of its readers; the thread asks for more only if a
//! stream is longer than its list has room for. `container_spec` says what a segment's stream is.
//!
//! `encode_scan_alone` and `encode_all_alone` give the same on the calling thread: they are given no `Threads`.
#![tactic(auto)]

mod alone;
mod lanes;
mod relay;
mod scouts;
mod streams;
mod tasks;

pub use alone::{encode_all_alone, encode_scan_alone};
pub use streams::{encode_all, encode_scan};
