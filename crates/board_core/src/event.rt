// What may happen on the board.
use crate::actor::Actor;
use handover::Outcome;

/// An event. `BoardStep` has its condition and what it changes.
#[derive(Clone, Copy)]
pub enum Event<'a> {
    /// The actor claims the next segment; the emitter only the one that is emitted.
    Claim(Actor),
    /// The worker puts these bytes, one at least, into the ring of its segment, which has room for all of them.
    Put(u8, &'a [u8]),
    /// The emitter passes n bytes of its own segment, 1 at least, to the output.
    Pass(u64),
    /// The actor's segment ends with this outcome, and nobody owns it.
    Finish(Actor, Outcome),
    /// The emitter takes the first n bytes, 1 at least, of the ring of the segment that is emitted.
    Take(u64),
    /// The emitter proceeds to the next segment, after a good one of which no byte waits.
    Advance,
    /// The board stops: from then on workers only leave.
    Stop,
    /// The worker leaves: after Stop, or once every segment is claimed and it owns none.
    Leave(u8),
}

/// What an event answers.
#[derive(Clone, Copy)]
pub enum Took {
    Nothing,
    /// The number of the segment claimed, from 0.
    Segment(u8),
    /// How many bytes the ring lost.
    Gone(u64),
}
