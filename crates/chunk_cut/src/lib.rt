//! Chunks of a file, each cut into a container of its own, which is decoded alone (this project's own; docs/FORMAT.md).
//!
//!     bytes --read_one_scan--> plan --find_rows--> where each row starts
//!     chunk --its rows--> segments --code_rows--> streams --write_front, joined_after--> container of version 3
//!
//! A `ChunkCutter` reads a file's scan once, and cuts each chunk from it. Which rows a chunk has is found by
//! `byte_window`; what a chunk's container is, and what it stands for, is defined in `container_spec`.
#![tactic(auto)]

mod cutter;
mod error;
mod rows;

pub use cutter::{ChunkCutter, cut_chunk, cut_chunk_alone};
pub use error::CutError;
pub use lepton_encode::{Alone, InThreads, ScanCoder};
