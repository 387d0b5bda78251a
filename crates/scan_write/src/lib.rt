//! A scan written MCU by MCU: from blocks to stuffed bytes, with pad bits and restart markers (ITU-T T.81, B.1.1.5,
//! B.2.1, E.1.4, F.1.2).
//!
//!     block pads RST0     block pads
//!     3f         ff d0    3f
//!     --- mcu ----------  --- mcu --
//!
//! What each call writes is stated by the definitions of `scan_spec`. It allocates nothing: bytes go to a piece with
//! room for `mcu_room()` more of them, and a byte begun waits for the next MCU. Not handled here: reading (see
//! `scan_decode`).
#![tactic(auto)]

mod acs;
mod block;
mod blocks;
mod dc;
mod pads;
mod values;
mod writer;

pub use writer::{Writer, mcu_room};
