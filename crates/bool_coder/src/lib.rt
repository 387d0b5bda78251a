//! The boolean coder (RFC 6386, section 7): bools, each with the probability of a zero, as one stream of bytes.
//!
//!     bottom          bottom + split         bottom + range
//!       |------- 0 -------|--------- 1 ---------|          then both are doubled until range is at least 128
//!
//! The bottom is one long number, highest bits first. The encoder keeps its last bits in a machine word and the bytes
//! before them in a buffer; a carry out of the word goes back through written bytes of 0xff. The decoder keeps how far
//! the stream lies above the bottom, and knows at the end whether the bytes are the stream of its bools and nothing
//! else. What was written is read again, and a stream has one list of bools under its probs: `laws.rt`.
//!
//! Not handled here: adapting the probabilities (see `adapt_bins`).
#![tactic(auto)]

mod decoder;
mod doublings;
mod encoder;
mod laws;
mod plain;

pub use decoder::Decoder;
pub use encoder::Encoder;
pub use laws::{
    is_read_again, is_read_in_turn, one_list_a_stream, rows_of_the_definition, stays_on_the_line,
};
pub use plain::plain_stream;
