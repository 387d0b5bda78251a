//! Where a scan is cut into segments: which rows of MCUs and which of the scan's bytes a segment has, and what it
//! starts from (this project's own).
//!
//!     scan      3f .. 5b a1 | 0c .. ff 00 | 9e ..     the bytes that a segment's bits complete
//!     bits            ...101|00 ...     11|1..        a byte begun continues in the next segment
//!     handover             101              11        its bits, the last DCs, the restart markers before
//!
//! These are definitions with their laws, for whatever reads or writes a segment of a scan: segments joined are the
//! scan, and a segment is read from its handover alone. Not handled here: how a segment is coded (see
//! `container_spec`).
#![tactic(auto)]

mod laws;

pub use laws::{handovers_are_spots, rows_of_segments, segments_joined_are_the_scan};
