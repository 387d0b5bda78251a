//! The text of a scan: which bits a block has, which bytes a scan has, and how bytes are read as a scan, with the first
//! refusal (ITU-T T.81, A.2, F.1.1.5.1, F.1.2, F.2.2).
//!
//!     15  0 -1  0 ..     the DC before is 12, with the tables K.3 and K.5
//!     -2 -1  0 ..
//!     -1 -1  0 ..
//!      0 ..
//!
//!     category 2, 3     run 1, -2    -1     -1     -1     run 2, -1    end
//!     011 11            11011 01     00 0   00 0   00 0   11100 0      1010
//!
//! These are definitions for whatever reads or writes a scan, and beside them a plain program, too slow for use.
#![tactic(auto)]

mod additional_bits;
mod laws;
mod pads;
mod plain;
mod plain_bytes;
mod refusal;
mod scan_shape;
mod slot;
mod stop;

pub use additional_bits::{extend, value_bits};
pub use laws::{
    a_file_has_one_reading, blocks_are_text, blocks_in_parts, first_mcus_are_first_bytes,
    items_are_read, rows_of_pads, rows_of_scans, rows_of_the_definition, scans_are_text,
    values_are_bits, zigzag_determines_blocks,
};
pub use pads::Pads;
pub use plain::{PlainError, plain_block, plain_blocks};
pub use plain_bytes::plain_scan;
pub use refusal::ScanRefusal;
pub use scan_shape::{MOST_SLOTS, ScanShape};
pub use slot::Slot;
pub use stop::WriteStop;
