//! A stretch of a container's segments decoded by a crew of its own: an emitter, and workers in threads of their own
//! (this project's own).
//!
//!     prepare  view, first, count --> board of the stretch, seats, decoders, pieces
//!
//!     emit     workers in threads of their own   --rings of the board-->  the emitter on this thread,
//!              and of that what the window lets through --write_all--> sink
//!
//! `prepare` takes the memory; `emit` is given no allocator. So a container's parts that are asked for one after
//! another have a crew each. What a stretch is, and what workers and the emitter do, is `segment_worker`'s; what a
//! container's file has beside its segments is `lepton_decode`'s.
#![tactic(auto)]

mod crew;
mod team;
mod threads;
mod worth;

pub use crew::Crew;
pub use worth::{Workers, workers_of};
