//! A portion of a container, written while its segments are decoded (this project's own).
//!
//!     bytes --read_container--> view --prepare--> if there is a segment: a crew for all of them
//!
//!     play    the part of the header --write_all--> sink
//!             of the segments what the window lets through --Crew::emit--> sink
//!             the part of the trailer, if no byte of a chunk is missing --write_all--> sink
//!
//!     run     the portion of all, or the chunk's, of the container that is ready --play--> sink
//!
//! `prepare` takes the memory; `run` is given no allocator, so memory can't run out once bytes are
//! written. `prepare_alone`, `run_alone` and `play_alone` do the same on the calling thread, with no board: nothing in
//! them waits, so they are proved to return. Ranges are portions too, and are made in `range_read`. What a container
//! stands for is `container_spec`'s; what a crew does is `segment_crew`'s.
#![tactic(auto)]

mod alone;
mod around;
mod error;
mod playing;
mod portion;
mod ready;

pub use alone::{ReadyAlone, prepare_alone, run_alone};
pub use error::DecodeError;
pub use playing::{Lone, play, play_alone, play_bare};
pub use portion::Portion;
pub use ready::{Ready, ample_ring, crew_for, prepare, run};
pub use segment_crew::Workers;
