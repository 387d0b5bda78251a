//! A block of 64 quantized DCT coefficients, and the zigzag order in which a scan codes them (ITU-T T.81, A.3.6).
//!
//!      0 →  1     5 →  6    14 ..
//!         ↙    ↗     ↙    ↗
//!      2     4     7    13 ..
//!      ↓  ↗     ↙    ↗
//!      3     8    12 ..              Zigzag indexes by row and column: up and to the right on the diagonals whose
//!         ↙    ↗                     row plus column is even, down and to the left on the others, and along an edge
//!      9    11 ..                    from each to the next.
//!      ↓  ↗
//!     10 ..
//!
//! A natural position is 8 times the row plus the column. The number of bits of a coefficient or of a difference
//! is its category (Table F.1). Not handled here: coding those bits (see `scan_write`, `scan_decode`).
//!
//! `Rows` keeps the blocks of an MCU row, and gives those above, to the left and diagonally of the next one.
#![tactic(auto)]

mod block;
mod category;
mod rows;
mod zigzag;

pub use block::{Block, MOST_DC, MOST_DIFFERENCE};
pub use category::size;
pub use rows::Rows;
pub use zigzag::{
    ZIGZAG, natural_position, natural_positions, zigzag_is_a_permutation, zigzag_is_the_figures,
};
