//! A board of some of a container's segments under a lock, and the calls by which workers and the emitter share it.
//!
//!                    claim            put              finish
//!     worker          |                | bytes           | outcome      leave
//!                     v                v                 v
//!     segment      next -> owned    | ring | | |       done
//!                                      |                 |
//!                                      v bytes           v outcome
//!     emitter                        take              take             stop
//!       of its own  claim_own        pass              finish_own
//!
//! Each of these calls is one hold of the lock. Its clauses say what that hold found of the board (`Seen`) and what it
//! changed. The call rings the bell if it changes what another seat may wait for; `pause_worker` and `pause_emitter`
//! wait for the bell, and hold nothing. A seat's view is what the seat knows whatever others do: the segment that is
//! its own, and how far it is. A `Content` has the bytes and the outcome of each segment, which the clauses name. Not
//! handled here: the events of a board (see `board_core`), what a lock keeps (see `seat_lock`), and coding a segment
//! and writing it (see `segment_worker`).
#![tactic(auto)]

mod answers;
mod board;
mod content;
mod emitter;
mod laws;
mod rule;
mod seat;
mod seen;
mod view;
mod workers;

pub use answers::{Claim, Finish, Own, Put, Take};
pub use board::Board;
pub use content::Content;
pub use laws::{a_late_claim_finds_nothing, no_two_seats_own_one_segment, seats_go_to_threads};
pub use rule::BoardRule;
pub use seat::{EmitterSeat, WorkerSeat};
pub use seen::Seen;
pub use view::{EmitterView, Role, View, WorkerView};
