//! The segments of a scan: blocks read, coded and forgotten MCU by MCU, and the way back.
//!
//!     scan   --Reader-->  blocks of an MCU  --put_mcu-->  stream
//!     stream --get_mcu--> blocks of an MCU  --Writer-->   scan
//!
//! `ScanPass` goes over a scan from segment to segment, and keeps where each starts. It reads a segment and codes it by
//! a `SegmentEncoder`, or only reads it, and gives a `SegmentPart`. That is made ready with all its memory, a
//! `ReadyPart`, and coded beside the pass by another encoder. `find_starts` is a pass that codes nothing, and
//! `find_rows` one that finds where each row starts. By these starts `encode_segment` codes one segment of a file, or
//! of a chunk's rows of it, and `ready_segment` makes one ready. `SegmentDecoder` decodes the segments of a scan, each
//! in steps of a piece of bytes; `FileDecoder` those of a container of one scan or of several, with the header that
//! comes before a later scan.
//!
//! One MCU row of blocks is kept, as neighbours. What a block's events are is `block_spec`'s, what a scan's bytes are
//! is `scan_spec`'s, and what a segment's stream stands for is `container_spec`'s.
#![tactic(auto)]

mod causes;
mod cuts;
mod decoder;
mod encoder;
mod error;
mod file_decoder;
mod find;
mod grid;
mod laws;
mod pads;
mod part;
mod pass;
mod ready;
mod segment_stream;
mod starts;
mod step;

pub use cuts::row_of;
pub use decoder::SegmentDecoder;
pub use encoder::SegmentEncoder;
pub use error::ScanError;
pub use file_decoder::{FileDecoder, segment_at};
pub use find::{find_rows, find_starts};
pub use laws::{rows_of_pieces, segments_come_in_pieces};
pub use part::SegmentPart;
pub use pass::ScanPass;
pub use ready::ReadyPart;
pub use segment_stream::{encode_segment, ready_segment};
pub use starts::Starts;
pub use step::Step;
