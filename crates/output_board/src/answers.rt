// What the calls return.
use handover::Outcome;

/// What `claim` returns.
#[derive(Clone, Copy)]
pub enum Claim {
    /// The worker owns this segment from now on. Segments are numbered from 0.
    Segment(u8),
    /// All segments are claimed.
    NoneLeft,
    /// The emitter stopped the board.
    Stopped,
}

/// What `put` returns.
#[derive(Clone, Copy)]
pub enum Put {
    /// The first n bytes are in the segment's ring: all of them, or as many as it had room for, 0 if it was full.
    Took(usize),
    /// The emitter stopped the board, and no byte was put.
    Stopped,
}

/// What `finish` returns.
#[derive(Clone, Copy)]
pub enum Finish {
    /// The segment has its outcome, and the worker owns nothing.
    Kept,
    /// The emitter stopped the board, and the segment has no outcome.
    Stopped,
}

/// What `take` returns: what the emitter finds of the segment that is emitted.
#[derive(Clone, Copy)]
pub enum Take {
    /// The next n bytes of the segment, 1 at least, are in the buffer, and no longer in the ring.
    Bytes(usize),
    /// The emitter has all bytes, and the segment has this outcome. After a good one the next segment is emitted.
    Ended(Outcome),
    /// Nobody has claimed the segment.
    Unclaimed,
    /// A worker owns the segment, and no byte of it waits.
    NotYet,
    /// All segments are emitted.
    Over,
}

/// What `claim_own` returns.
#[derive(Clone, Copy)]
pub enum Own {
    /// The segment that is emitted is the emitter's own from now on.
    Mine(u8),
    /// It is claimed already, or all segments are emitted.
    Other,
}
