//! Segments of a container decoded by workers and an emitter that share a board (this project's own).
//!
//!     worker   claim --> FileDecoder::begin, step --> piece --put--> ring of the segment
//!     emitter  take  <-- ring of the segment that is emitted                 --write_all--> sink
//!              claim_own, where nobody has claimed it --> begin, step --> piece --write_all--> sink
//!     alone    for each segment in order:                 begin, step --> piece --write_all--> sink
//!
//! A *stretch* is some of a container's segments: `count` of them, from number `first` on. A board is for a stretch and
//! counts its segments from 0, so its segment i is the container's segment first + i; faults and calls of the gate name
//! a segment by its number in the container. All of a container's segments are the stretch from 0 on.
//!
//! What a call of the board does is `output_board`'s, and what a segment's stream gives `segment_code`'s. Who runs in
//! which thread is not handled here (see `segment_crew`): `work` and `emit` are right with any number of workers, in
//! any order of their calls. Of each piece what a window lets through is written (see `byte_window`), and all that came
//! is counted. `emit_alone` writes what `emit` does with no board, on one thread. Nothing in it waits, so it
//! returns if the sink's calls return.
#![tactic(auto)]

mod alone;
mod boards;
mod content;
mod emitted;
mod emitter;
mod emitter_own;
mod emitter_part;
mod lengths;
mod shared;
mod worker;
mod worker_puts;
mod worker_segment;

pub use alone::emit_alone;
pub use boards::prepare_board;
pub use content::Told;
pub use emitted::{EmitStop, Emitted};
pub use emitter::emit;
pub use worker::work;
