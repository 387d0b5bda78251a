//! Bins: how often each bit occurred in a context, and the probability that follows (docs/FORMAT.md).
//!
//!     bit, bin --> Put:  prob of the bin --> Encoder --> stream
//!                        count the bit
//!
//!     stream --> Decoder <-- prob of the bin  :Get --> bit
//!                            count the bit
//!
//! A bin has two counts from 1 to 255. The probability of a zero is the share of its zeros, as parts of 256. Both sides
//! count alike, so that a bit is read with the probability that it was written with. `Coder` is what both have in
//! common, so that what codes a block is written once.
//!
//! Not handled here: which bin a bit has (see `coef_context`).
#![tactic(auto)]

mod bins;
mod coder;
mod get;
mod put;
mod put_local;
mod reciprocals;
mod shares;

pub use bins::{Bin, Bins};
pub use coder::{Coder, Holds};
pub use get::{Get, Never};
pub use put::Put;
pub use put_local::PutLocal;
