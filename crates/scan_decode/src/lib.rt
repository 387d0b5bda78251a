//! A scan read MCU by MCU: its blocks, or the first refusal with its place (ITU-T T.81, B.2.1, E.1.4, F.2.2).
//!
//!     header | 3f         ff d0    3f         | ff d9
//!            | block pads RST0     block pads | trailer
//!            start        -- next_mcu --      end
//!
//! What each call reads is stated by the definitions of `scan_spec`, and nothing outside the bytes is read. A reader
//! asks for 4 KiB of memory a component with the first MCU that it reads, and for 12 KiB with the first that it skips,
//! and needs neither. It starts with the scan, or with a row of MCUs from what those before it hand over, by the
//! definitions of `cut_spec`.
//!
//! A `Scout` reads from a place in the middle of a scan, where nobody knows yet which MCU is there or what the last DCs
//! are, and keeps *excerpts*: MCUs with the bits where they start and end, and how much they change the last DCs. A
//! reader that comes to the start of an excerpt goes past it at once (`Reader::skip_excerpt`), as if it had read each
//! of its MCUs. So several threads read parts of one scan at the same time.
//!
//! Not handled here: writing (see `scan_write`).
#![tactic(auto)]

mod acs;
mod block;
mod blocks;
mod byte_begun;
mod dc;
mod excerpt;
mod pads;
mod read_word;
mod reader;
mod refusals;
mod scout;
mod skip;
mod skip_symbols;
mod skip_tables;
mod skip_word;
mod target;
mod values;
mod word_lists;

pub use excerpt::Excerpt;
pub use reader::Reader;
pub use scout::Scout;
pub use skip_tables::SkipTables;
