//! The recoder for C, on bytes in memory (this project's own).
//!
//!     file --lepton_encode--> container --lepton_decode--> file
//!     file --lepton_chunk--> container of a chunk --lepton_decode--> chunk
//!     container --lepton_index--> container of version 5 --lepton_range--> a range of the file
//!
//! Each export works on the calling thread, writes into memory of its caller, waits for nothing and keeps nothing. What
//! it gives is an `Answer`, in numbers. Not handled here: how a file is encoded (see `lepton_encode`,
//! `chunk_cut`), and a container decoded (see `lepton_decode`, `range_read`).
#![tactic(auto)]

mod answer;
mod containers;
mod decoding;
mod encoding;
mod memory;
mod nowhere;
mod numbers;
mod ranging;

pub use answer::Answer;
pub use containers::{lepton_index, lepton_migrate};
pub use decoding::{lepton_decode, lepton_length};
pub use encoding::{lepton_chunk, lepton_encode};
pub use numbers::LeptonEnding;
pub use ranging::lepton_range;
