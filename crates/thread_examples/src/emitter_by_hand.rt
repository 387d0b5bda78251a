// The calls of the emitter, each with the answer that is expected.
ghost use Rattle.std.specs.Prelude.{◌≡◌, ◌+◌, ◌≤◌, Some, false, length, slice_get};
ghost use Rattle.board_core.specs.BoardInvariants.{bytes_at};
ghost use Rattle.thread_examples.specs.ThreeSegments.{three_bytes, three_outcomes, IsEmitting};

use crate::boards::Three;
use handover::Outcome;
use output_board::{Board, EmitterSeat, Own, Take};
use std::process::Abort;
use std::sync::Wait;

// The emitter takes these bytes of a segment from an index on.
pub(crate) fn takes<R: Wait + Abort>(
    rt: &R,
    board: &Board<Three>,
    seat: &mut EmitterSeat<Three>,
    cur: u8,
    from: u64,
    bytes: &[u8],
)
    requires { IsEmitting board.now seat.old.content cur from false seat.old }
    ensures { IsEmitting board.now seat.old.content cur (from + length bytes.now) false seat.new }
{
    let mut buf = [9; 2];
    match board.take(rt, seat, &mut buf) {
        Take::Bytes(n) => {
            assert!(rt; n == bytes.len() && n <= 2);
            assert!(rt; &buf[..n] == bytes);
        }
        _ => panic!(rt; "no bytes"),
    }
}

// The emitter finds the end of a good segment.
pub(crate) fn ends<R: Wait + Abort>(
    rt: &R,
    board: &Board<Three>,
    seat: &mut EmitterSeat<Three>,
    cur: u8,
)
    requires { IsEmitting board.now seat.old.content cur
        (length (bytes_at three_bytes cur)) false seat.old }
    ensures { IsEmitting board.now seat.old.content (cur + 1) 0 false seat.new }
{
    let mut buf = [9; 2];
    match board.take(rt, seat, &mut buf) {
        Take::Ended(Outcome::Good { pads: _ }) => {}
        _ => panic!(rt; "no end"),
    }
}

// The emitter finds the end of a bad segment, and stops the board.
pub(crate) fn stops_at_fault<R: Wait + Abort>(
    rt: &R,
    board: &Board<Three>,
    seat: &mut EmitterSeat<Three>,
    cur: u8,
    taken: u64,
)
    requires { IsEmitting board.now seat.old.content cur taken false seat.old }
{
    let mut buf = [9; 2];
    match board.take(rt, seat, &mut buf) {
        Take::Ended(Outcome::Bad(fault)) => assert!(rt; fault.segment == cur),
        _ => panic!(rt; "no fault"),
    }
    board.stop(rt, seat);
}

// The emitter finds that all segments are emitted, and that it can claim none.
pub(crate) fn is_over<R: Wait + Abort>(rt: &R, board: &Board<Three>, seat: &mut EmitterSeat<Three>)
    requires { IsEmitting board.now seat.old.content 3 0 false seat.old }
{
    let mut buf = [9; 2];
    assert!(rt; matches!(board.take(rt, seat, &mut buf), Take::Over));
    assert!(rt; matches!(board.claim_own(rt, seat), Own::Other));
}

// The emitter finds that the segment is another's.
pub(crate) fn owns_other<R: Wait + Abort>(
    rt: &R,
    board: &Board<Three>,
    seat: &mut EmitterSeat<Three>,
    cur: u8,
)
    requires { IsEmitting board.now seat.old.content cur 0 false seat.old }
    ensures { IsEmitting board.now seat.old.content cur 0 false seat.new }
{
    match board.claim_own(rt, seat) {
        Own::Other => {}
        Own::Mine(_) => panic!(rt; "its own"),
    }
}

// The emitter claims a segment, passes its bytes in two parts, and ends it.
pub(crate) fn emits_own<R: Wait + Abort>(
    rt: &R,
    board: &Board<Three>,
    seat: &mut EmitterSeat<Three>,
    cur: u8,
    parts: (u64, u64),
    outcome: Outcome,
)
    requires at { IsEmitting board.now seat.old.content cur 0 false seat.old }
    requires some { (1 ≤ parts.0) × (1 ≤ parts.1) }
    requires all { parts.0 + parts.1 ≡ length (bytes_at three_bytes cur) }
    requires outcome { slice_get (three_outcomes seat.old.content.first) cur ≡ Some outcome }
    ensures { IsEmitting board.now seat.old.content cur
        (length (bytes_at three_bytes cur)) false seat.new }
{
    match board.claim_own(rt, seat) {
        Own::Mine(i) => assert!(rt; i == cur),
        Own::Other => panic!(rt; "another's"),
    }
    board.pass(rt, seat, parts.0);
    board.pass(rt, seat, parts.1);
    board.finish_own(rt, seat, outcome);
}

// The emitter finds no byte of a segment that isn't done, and whether somebody has claimed it.
pub(crate) fn waits<R: Wait + Abort>(
    rt: &R,
    board: &Board<Three>,
    seat: &mut EmitterSeat<Three>,
    cur: u8,
    taken: u64,
    claimed: bool,
)
    requires { IsEmitting board.now seat.old.content cur taken false seat.old }
    ensures { IsEmitting board.now seat.old.content cur taken false seat.new }
{
    let mut buf = [9; 2];
    let took = board.take(rt, seat, &mut buf);
    assert!(rt; buf[0] == 9 && buf[1] == 9);
    match took {
        Take::NotYet => assert!(rt; claimed),
        Take::Unclaimed => assert!(rt; !claimed),
        _ => panic!(rt; "something to take"),
    }
}
