//! The blob by which a file is kept, and its file (docs/STORE.md, Blobs).
//!
//!     file --encode--> 1, container        a file that isn't accepted --> 0, file
//!     blob --show_blob--> file
//!
//! A file has one blob, and a blob is that of one file. The container has one segment for each scan. Not handled here:
//! `encode` (`photo_store` uses `lepton_encode`), and where blobs are kept.
#![tactic(auto)]

mod grown;
mod laws;
mod show;

pub use laws::a_file_has_one_blob;
pub use show::{CONTAINER, PLAIN, show_blob};
