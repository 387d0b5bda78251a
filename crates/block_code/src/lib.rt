//! Blocks and MCUs as events in a stream, there and back (docs/FORMAT.md).
//!
//!     put_block:  block --> code_parts --> Put --> stream
//!     get_block:  block <-- code_parts <-- Get <-- stream
//!
//!     residue     | row edge, 7             inner count   6 bits
//!     ------------+---------------          inner band    49 values in zigzag order, while some that are not 0 remain
//!     column edge | inner band, 49          row edge      3 bits of count, 7 values
//!     7           |                         column edge   3 bits of count, 7 values
//!                                           residue       the DC less its prediction
//!
//! One body codes the parts of a block in that order, as the events of `block_spec` say: with `Put` it is given each
//! bit, and with `Get` it gets each. A bit's bin follows from the blocks around and from earlier bits of the block.
//! `SegmentRows` keeps an MCU row of blocks, so that `put_mcu` and `get_mcu` find the blocks around each.
//!
//! Bins and their probabilities are `adapt_bins`', the stream `bool_coder`'s, the prediction `dc_predict`'s.
//!
//! Not handled here: how many MCUs there are, and that a stream has ended (see `segment_code`).
#![tactic(auto)]

mod bands;
mod bits;
mod block;
mod coefficients;
mod counts;
mod mcu;
mod mcu_grid;
mod neighbours;
mod parts_code;
mod positions;
mod sums;
mod value;
mod values;

pub use block::{get_block, put_block};
pub use mcu::{SegmentRows, get_mcu, put_mcu};
pub use mcu_grid::McuGrid;
pub use neighbours::Neighbours;
