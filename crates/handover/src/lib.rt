//! Where a segment of a scan starts, and how it ends (this project's own).
//!
//!     .. b7 ff 00 | 10100... |  a byte begun: partial 0xa0, bits 3
//!                    ^ the segment continues with this bit
//!
//! A scan is cut into segments so that several workers decode it. What one of them leaves to the next is a
//! `Handover`. An `Outcome` says how the segment's stream ended, and what its restart intervals were padded with;
//! `ScanPads` has that scan by scan. Not handled here: which bits and bytes a segment has (see `cut_spec`).
#![tactic(auto)]

mod bytes;
mod handover;
mod laws;
mod outcome;
mod pads;
mod scan_pads;

pub use handover::Handover;
pub use laws::handovers_have_one_spelling;
pub use outcome::{Outcome, StreamCause, StreamFault};
pub use pads::PadSum;
pub use scan_pads::{ScanPads, add_sum, no_sums, sum_in};
