// What a hold finds of the board.
ghost use Rattle.output_board.specs.Releases.{IsSeenBy};

use board_core::{Actor, Core};

/// What a hold finds of the board.
#[derive(Clone, Copy)]
pub struct Seen {
    /// Whether the board was stopped.
    pub stopped: bool,
    /// The first segment that nobody has claimed; the number of segments, once all are claimed.
    pub next: u8,
    /// The segment that is emitted; the number of segments, once all are emitted.
    pub cur: u8,
    /// How many bytes of the segment that is emitted wait in its ring; 0 without one.
    pub length: usize,
    /// How many more bytes the ring of the seat's own segment has room for; 0 without one.
    pub free: usize,
    /// Whether the segment that is emitted has its outcome.
    pub done: bool,
}

// What an actor sees of the board.
pub(crate) fn look(core: &Core, actor: Actor) -> Seen
    ensures { IsSeenBy actor result core.now }
{
    let cur = core.cur();
    let (length, done) = if cur < core.count() {
        (core.waiting(cur), core.done(cur).is_some())
    } else {
        (0, false)
    };
    let free = match core.segment_of(actor) {
        Some(i) => core.free(i),
        None => 0,
    };
    Seen {
        stopped: core.stopped(),
        next: core.next(),
        cur,
        length,
        free,
        done,
    }
}
