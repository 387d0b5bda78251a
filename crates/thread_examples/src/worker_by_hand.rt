// The calls of a worker, each with the answer that is expected.
ghost use Rattle.std.specs.Prelude.{◌≡◌, ◌+◌, ◌≤◌, Some, length, take, drop, slice_get};
ghost use Rattle.board_core.specs.BoardInvariants.{bytes_at};
ghost use Rattle.thread_examples.specs.ThreeSegments.{three_bytes, three_outcomes, IsIdle, IsPutting};

use crate::boards::Three;
use handover::Outcome;
use output_board::{Board, Claim, Finish, Put, WorkerSeat};
use std::process::Abort;
use std::sync::Wait;

// The worker claims this segment.
pub(crate) fn claims<R: Wait + Abort>(
    rt: &R,
    board: &Board<Three>,
    seat: &mut WorkerSeat<Three>,
    i: u8,
)
    requires { IsIdle board.now seat.old.content seat.old }
    ensures { IsPutting board.now seat.old.content i 0 seat.new }
{
    match board.claim(rt, seat) {
        Claim::Segment(next) => assert!(rt; next == i),
        Claim::NoneLeft => panic!(rt; "none left"),
        Claim::Stopped => panic!(rt; "stopped"),
    }
}

// The worker puts these bytes at an index of its segment, and the ring accepts n of them.
pub(crate) fn puts<R: Wait + Abort>(
    rt: &R,
    board: &Board<Three>,
    seat: &mut WorkerSeat<Three>,
    i: u8,
    from: u64,
    bytes: &[u8],
    n: usize,
)
    requires at { IsPutting board.now seat.old.content i from seat.old }
    requires some { 1 ≤ length bytes.now }
    requires next { take (length bytes.now) (drop from (bytes_at three_bytes i)) ≡ bytes.now }
    ensures { IsPutting board.now seat.old.content i (from + n) seat.new }
{
    match board.put(rt, seat, bytes) {
        Put::Took(count) => assert!(rt; count == n),
        Put::Stopped => panic!(rt; "stopped"),
    }
}

// The worker ends its segment.
pub(crate) fn finishes<R: Wait + Abort>(
    rt: &R,
    board: &Board<Three>,
    seat: &mut WorkerSeat<Three>,
    i: u8,
    outcome: Outcome,
)
    requires at { IsPutting board.now seat.old.content i
        (length (bytes_at three_bytes i)) seat.old }
    requires outcome { slice_get (three_outcomes seat.old.content.first) i ≡ Some outcome }
    ensures { IsIdle board.now seat.old.content seat.new }
{
    match board.finish(rt, seat, outcome) {
        Finish::Kept => {}
        Finish::Stopped => panic!(rt; "stopped"),
    }
}

// The worker finds that no segment is left, and leaves.
pub(crate) fn finds_none<R: Wait + Abort>(
    rt: &R,
    board: &Board<Three>,
    seat: &mut WorkerSeat<Three>,
)
    requires { IsIdle board.now seat.old.content seat.old }
{
    match board.claim(rt, seat) {
        Claim::NoneLeft => {}
        _ => panic!(rt; "a segment, or stopped"),
    }
    board.leave(rt, seat);
}

// The worker finds with a claim that the board is stopped, and leaves.
pub(crate) fn finds_claim_stopped<R: Wait + Abort>(
    rt: &R,
    board: &Board<Three>,
    seat: &mut WorkerSeat<Three>,
)
    requires { IsIdle board.now seat.old.content seat.old }
{
    match board.claim(rt, seat) {
        Claim::Stopped => {}
        _ => panic!(rt; "not stopped"),
    }
    board.leave(rt, seat);
}

// The same with a put of the bytes of its segment.
pub(crate) fn finds_put_stopped<R: Wait + Abort>(
    rt: &R,
    board: &Board<Three>,
    seat: &mut WorkerSeat<Three>,
    i: u8,
    bytes: &[u8],
)
    requires at { IsPutting board.now seat.old.content i 0 seat.old }
    requires some { 1 ≤ length bytes.now }
    requires all { bytes_at three_bytes i ≡ bytes.now }
{
    match board.put(rt, seat, bytes) {
        Put::Stopped => {}
        Put::Took(_) => panic!(rt; "not stopped"),
    }
    board.leave(rt, seat);
}

// The same with the end of its segment.
pub(crate) fn finds_finish_stopped<R: Wait + Abort>(
    rt: &R,
    board: &Board<Three>,
    seat: &mut WorkerSeat<Three>,
    i: u8,
    outcome: Outcome,
)
    requires at { IsPutting board.now seat.old.content i
        (length (bytes_at three_bytes i)) seat.old }
    requires outcome { slice_get (three_outcomes seat.old.content.first) i ≡ Some outcome }
{
    match board.finish(rt, seat, outcome) {
        Finish::Stopped => {}
        Finish::Kept => panic!(rt; "not stopped"),
    }
    board.leave(rt, seat);
}
