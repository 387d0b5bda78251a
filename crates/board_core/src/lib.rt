//! The board on which workers and an emitter share some of a container's segments, numbered from 0 here
//! (docs/THREADS.md, The board). It knows no threads.
//!
//!     segment      0          1          2          3          4
//!               emitted    emitted    claimed    claimed   unclaimed
//!                                     ^ cur                ^ next
//!
//!     Claim     an actor owns segment `next`, and `next` is one more
//!     Put       a worker's bytes go to the end of its segment's ring
//!     Take      the first bytes of the ring of segment `cur` go to the output
//!     Pass      bytes of the emitter's own segment go to the output, past its ring
//!     Finish    a segment has an outcome, and nobody owns it
//!     Advance   `cur` is one more, if its segment is good and its ring empty
//!     Stop      nothing but Leave happens from then on
//!     Leave     a worker left, and owns nothing
//!
//! Nothing else happens, and each event only if its condition holds. The laws in `laws.rt` say what holds after every
//! list of lawful events. Not handled here: the lock (see `seat_lock`), seats and the bell (see `output_board`), which
//! of the container's segments these are (see `segment_crew`), and their bytes (see `segment_worker`).
#![tactic(auto)]

mod actor;
mod board;
mod conditions;
mod event;
mod laws;
mod readers;
mod ring;
mod segment;

pub use actor::Actor;
pub use board::Core;
pub use event::{Event, Took};
pub use laws::{
    advance_frame, bytes_come_in_order, claim_frame, enabled_events_happen, events_are_few,
    events_have_one_step, events_keep_the_board, events_leave_others, finish_frame,
    lawful_events_fit, leave_frame, no_board_is_stuck, pass_frame, put_frame, stop_frame,
    take_frame, the_board_is_kept, workers_leave_the_emitted,
};
