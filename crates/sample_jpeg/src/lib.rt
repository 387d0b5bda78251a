//! A JPEG file made from a number: a picture of noise in three components, up to 2,048 by 2,048 pixels, for tests of
//! large files and for a check that a user can run (this project's own; docs/SAMPLE.md).
//!
//!     seed --Draws--> blocks --Writer::mcu--> pieces --> file
//!
//! The same seed and size give the same file on every machine. Which one is `sample_file` in `specs/`; that every
//! such file is accepted is the law `samples_are_files`.
#![tactic(auto)]

mod draws;
mod extent;
mod file;
mod header;
mod laws;

pub use file::sample;
pub use laws::samples_are_files;
