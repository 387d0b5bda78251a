//! The events of a block and of a segment, as definitions with laws: bits, each in a bin that follows from earlier
//! bits and from the blocks around.
//!
//!     diagonal | above              DC          | row edge, 7 coefficients
//!     ---------+------              ------------+-------------------------
//!       left   |   ?                column edge | inner coefficients, 49
//!
//! A block has the count of its inner coefficients that are not 0, then these; of each edge such a count, then its
//! coefficients; and last the DC less its prediction.
//!
//! Bins have the numbers of `coef_context` and the probabilities of `adapt_bins`; a stream of bools is `bool_coder`'s.
//! Read the other way, bytes give the blocks or the first fault: a tree of bins in which bits are asked for, with a
//! block or a fault at each leaf.
//!
//!     bytes --next_bit--> a bit --asked in a bin--> the next bin .. --told--> a block
//!
//! These are definitions and laws. The program that codes blocks by them is `block_code`.
#![tactic(auto)]

mod fault;
mod laws;
mod reading;
mod worked;

pub use fault::BlockFault;
pub use laws::{
    a_block_more, cells_of_blocks, events_are_few, one_answer, one_block, one_row_is_enough,
    one_segment, predictions_are_in_range, probs_are_bools,
};
pub use reading::{blocks_are_given, given_blocks_are_read};
pub use worked::{random_segment, rows_of_events, rows_of_reading, rows_of_weights};
