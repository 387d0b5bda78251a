//! A file's container (this project's own; docs/FORMAT.md).
//!
//!     bytes --find_heads--> the plan of each scan
//!     each scan --code_scan--> starts, streams
//!     scans --write_front--> all but the streams --joined_after--> container
//!
//! The container is of version 2 for one scan, and of version 4 for several. A file of several scans is gone over
//! twice: once for where its headers are, since each scan has an equal share of the segments, and once to code them.
//!
//! The segments are coded side by side from the file's bytes, at most 16 at the same time, each after a pass over the
//! scan is through it; `encode_alone` codes them on the calling thread. Beside the bytes, memory is for the streams,
//! and for an MCU row of blocks and the bins of each that is coded. The container is made in the memory of its first
//! stream, or of what comes before that if it is longer, so that no more than a stream is there twice. What a
//! segment's stream is and what a file's container stands for is `container_spec`'s, how a stream is made
//! `segment_code`'s, and in which thread `segment_encode`'s.
#![tactic(auto)]

mod coders;
mod container;
mod error;
mod heads;
mod one_scan;
mod scans;

pub use coders::{Alone, InThreads, ScanCoder};
pub use container::joined_after;
pub use error::{EncodeError, OneScanError};
pub use one_scan::read_one_scan;
pub use scans::{encode, encode_alone, encode_placed};
