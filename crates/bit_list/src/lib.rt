//! Single bits, stuffed bytes and units of a scan, written and read (ITU-T T.81, B.1.1.5, C.3 and F.1.2.3).
//!
//!     101  1111111111101              two codes, the highest bit first
//!     10111111  11111101              the bytes that they complete
//!
//!     bf    ff        d8    3f        coded bytes
//!     bf    ff 00     d8    3f        stuffed: a zero after 0xff, so that no marker shows
//!     ^     ^         ^     ^         the places of the units: what each coded byte became
//!
//! Bits wait in a `BitBuffer`, four bytes of them at once go to a `Piece`, and what is left is a byte begun, `BitOut`.
//! `BitIn` reads units, from any bit on, several at once, and stops at the end of the bytes or at a marker. Not handled
//! here: what the bits mean (see `huff_table`).
#![tactic(auto)]

mod bit_buffer;
mod bit_in;
mod bit_out;
mod fault;
mod fetched;
mod laws;
mod piece;
mod window;

pub use bit_buffer::BitBuffer;
pub use bit_in::BitIn;
pub use bit_out::BitOut;
pub use fault::BitFault;
pub use laws::{
    begun_of_parts, bits_are_bytes, bits_are_numbers, bits_stand_in_units, bytes_of_parts,
    eight_bits_a_byte, peeked_bits_are_taken, put_is_taken_again, stuffed_has_one_reading,
    stuffed_of_parts, taken_in_parts,
};
pub use piece::{Piece, ROOM};
