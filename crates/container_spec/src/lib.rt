//! What a container stands for: the bytes of a file and how decoding ends, for any bytes whatever; the containers of a
//! file and of its chunks; and what a range of a container's file is (this project's own).
//!
//!     streams  --blocks, one after another-->  MCUs  --written from a handover-->  bytes of the scan
//!     segment  its bytes S, and its outcome O: good, or the first fault
//!     meaning  header, S 0, S 1, .. and trailer; or all up to the first fault
//!
//! These are definitions as functions of the container alone, with their laws: a file's container stands for that file,
//! what stands for a file is its container, and a chunk's container stands for the chunk. Segments are numbered on
//! through the scans. A chunk is a slice of a file with its rows of MCUs as parts, a
//! range one with its segments (see `byte_window`).
#![tactic(auto)]

mod kind;
mod laws;

pub use kind::Kind;
pub use laws::{
    chunks_are_restored, containers_stand_for_files, files_have_one_container,
    good_segments_have_their_stream, indexed_containers_stand_for_files,
    ranges_of_containers_are_slices, rows_of_chunks, rows_of_meanings,
    rows_of_ranges_of_containers, rows_of_scans, segments_are_short, segments_are_slices,
};
