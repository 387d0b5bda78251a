// Boards of three segments by hand, on one thread.
ghost use Rattle.std.specs.Prelude.{◌≡◌, false};
ghost use Rattle.handover.specs.PadSums.{no_pads};
ghost use Rattle.handover.specs.declared.outcome.Outcome.TheVariants.{Good};
ghost use Rattle.thread_examples.specs.ThreeSegments.{IsIdle, IsPutting, IsEmitting};

use crate::emitter_by_hand::{emits_own, ends, is_over, owns_other, stops_at_fault, takes, waits};
use crate::worker_by_hand::{
    claims, finds_claim_stopped, finds_finish_stopped, finds_none, finds_put_stopped, finishes,
    puts,
};
use handover::{Outcome, PadSum, StreamCause, StreamFault};
use output_board::{Board, Content, EmitterSeat, WorkerSeat};
use std::process::Abort;
use std::sync::Wait;

const NONE: PadSum = PadSum {
    zero: false,
    one: false,
    vain: false,
};

const ONES: PadSum = PadSum {
    zero: false,
    one: true,
    vain: false,
};

const GOOD: Outcome = Outcome::Good { pads: NONE };

const PADDED: Outcome = Outcome::Good { pads: ONES };

const BAD: Outcome = Outcome::Bad(StreamFault {
    segment: 0,
    cause: StreamCause::NoCode,
});

// Three segments, the first of which has the given outcome.
#[derive(Drop)]
pub(crate) struct Three {
    pub(crate) first: Outcome,
}

impl Content for Three {
    ghost use Rattle.thread_examples.specs.ThreeSegments.{three_bytes, three_outcomes};

    ghost bytes = { λ _. three_bytes };

    ghost outcomes = { λ content. three_outcomes content.first };
}

#[test]
fn three_segments(rt: HostRuntime) {
    let content = Three { first: GOOD };
    let (board, mut emitter, mut seats) = Board::prepare(rt.alloc(), &content, 3, 2, 2).expect(
        &rt, "memory",
    );
    let mut two = seats.pop().expect(&rt, "a seat");
    let mut one = seats.pop().expect(&rt, "a seat");
    emit_three(&rt, &board, &mut emitter, &mut one, &mut two);
}

fn emit_three<R: Wait + Abort>(
    rt: &R,
    board: &Board<Three>,
    emitter: &mut EmitterSeat<Three>,
    one: &mut WorkerSeat<Three>,
    two: &mut WorkerSeat<Three>,
)
    requires emits { IsEmitting board.now emitter.old.content 0 0 false emitter.old }
    requires one { IsIdle board.now one.old.content one.old }
    requires two { IsIdle board.now two.old.content two.old }
    requires good { two.old.content.first ≡ Good no_pads }
{
    waits(rt, board, emitter, 0, 0, false);
    put_the_first(rt, board, emitter, two);
    finish_the_first(rt, board, emitter, two);
    emits_own(rt, board, emitter, 1, (1, 1), PADDED);
    ends(rt, board, emitter, 1);
    claims(rt, board, one, 2);
    finds_none(rt, board, two);
    put_the_third(rt, board, emitter, one);
}

// A worker puts two of the first segment's three bytes, which fill the ring, and the emitter takes them.
fn put_the_first<R: Wait + Abort>(
    rt: &R,
    board: &Board<Three>,
    emitter: &mut EmitterSeat<Three>,
    worker: &mut WorkerSeat<Three>,
)
    requires emits { IsEmitting board.now emitter.old.content 0 0 false emitter.old }
    requires idle { IsIdle board.now worker.old.content worker.old }
    ensures emits { IsEmitting board.now emitter.old.content 0 2 false emitter.new }
    ensures puts { IsPutting board.now worker.old.content 0 2 worker.new }
{
    claims(rt, board, worker, 0);
    waits(rt, board, emitter, 0, 0, true);
    owns_other(rt, board, emitter, 0);
    puts(rt, board, worker, 0, 0, &[0x3f, 0xff, 0xd0], 2);
    puts(rt, board, worker, 0, 2, &[0xd0], 0);
    // Nobody sleeps here: another seat rang the bell after this seat's last hold.
    board.pause_emitter(rt, emitter);
    takes(rt, board, emitter, 0, 0, &[0x3f, 0xff]);
    board.pause_worker(rt, worker);
}

// The third byte, and the end.
fn finish_the_first<R: Wait + Abort>(
    rt: &R,
    board: &Board<Three>,
    emitter: &mut EmitterSeat<Three>,
    worker: &mut WorkerSeat<Three>,
)
    requires emits { IsEmitting board.now emitter.old.content 0 2 false emitter.old }
    requires puts { IsPutting board.now worker.old.content 0 2 worker.old }
    requires good { worker.old.content.first ≡ Good no_pads }
    ensures emits { IsEmitting board.now emitter.old.content 1 0 false emitter.new }
    ensures idle { IsIdle board.now worker.old.content worker.new }
{
    puts(rt, board, worker, 0, 2, &[0xd0], 1);
    finishes(rt, board, worker, 0, GOOD);
    takes(rt, board, emitter, 0, 2, &[0xd0]);
    ends(rt, board, emitter, 0);
}

// The last segment, after which all is over.
fn put_the_third<R: Wait + Abort>(
    rt: &R,
    board: &Board<Three>,
    emitter: &mut EmitterSeat<Three>,
    worker: &mut WorkerSeat<Three>,
)
    requires emits { IsEmitting board.now emitter.old.content 2 0 false emitter.old }
    requires puts { IsPutting board.now worker.old.content 2 0 worker.old }
{
    puts(rt, board, worker, 2, 0, &[0x3f], 1);
    finishes(rt, board, worker, 2, GOOD);
    takes(rt, board, emitter, 2, 0, &[0x3f]);
    ends(rt, board, emitter, 2);
    is_over(rt, board, emitter);
    finds_none(rt, board, worker);
}

#[test]
fn fault_stops_the_board(rt: HostRuntime) {
    let content = Three { first: BAD };
    let (board, mut emitter, mut seats) = Board::prepare(rt.alloc(), &content, 3, 4, 3).expect(
        &rt, "memory",
    );
    let mut three = seats.pop().expect(&rt, "a seat");
    let mut two = seats.pop().expect(&rt, "a seat");
    let mut one = seats.pop().expect(&rt, "a seat");
    put_two(&rt, &board, &mut one, &mut two);
    find_the_fault(&rt, &board, &mut emitter, &mut one, BAD);
    find_stopped(&rt, &board, &mut one, &mut two, &mut three);
}

// The first segment ends with a fault, and its worker claims the third before the emitter finds that.
fn find_the_fault<R: Wait + Abort>(
    rt: &R,
    board: &Board<Three>,
    emitter: &mut EmitterSeat<Three>,
    worker: &mut WorkerSeat<Three>,
    outcome: Outcome,
)
    requires emits { IsEmitting board.now emitter.old.content 0 0 false emitter.old }
    requires puts { IsPutting board.now worker.old.content 0 3 worker.old }
    requires bad { worker.old.content.first ≡ outcome }
    ensures puts { IsPutting board.now worker.old.content 2 0 worker.new }
{
    finishes(rt, board, worker, 0, outcome);
    take_the_first(rt, board, emitter);
    claims(rt, board, worker, 2);
    stops_at_fault(rt, board, emitter, 0, 3);
}

// Two workers put all bytes of the first two segments.
fn put_two<R: Wait + Abort>(
    rt: &R,
    board: &Board<Three>,
    one: &mut WorkerSeat<Three>,
    two: &mut WorkerSeat<Three>,
)
    requires one { IsIdle board.now one.old.content one.old }
    requires two { IsIdle board.now two.old.content two.old }
    ensures one { IsPutting board.now one.old.content 0 3 one.new }
    ensures two { IsPutting board.now two.old.content 1 2 two.new }
{
    claims(rt, board, one, 0);
    claims(rt, board, two, 1);
    puts(rt, board, one, 0, 0, &[0x3f, 0xff, 0xd0], 3);
    puts(rt, board, two, 1, 0, &[1, 2], 2);
}

// The emitter takes the three bytes of the first segment in two parts.
fn take_the_first<R: Wait + Abort>(rt: &R, board: &Board<Three>, emitter: &mut EmitterSeat<Three>)
    requires { IsEmitting board.now emitter.old.content 0 0 false emitter.old }
    ensures { IsEmitting board.now emitter.old.content 0 3 false emitter.new }
{
    takes(rt, board, emitter, 0, 0, &[0x3f, 0xff]);
    takes(rt, board, emitter, 0, 2, &[0xd0]);
}

// A worker at the third segment's start, one at the second's end and an idle one find the board stopped.
fn find_stopped<R: Wait + Abort>(
    rt: &R,
    board: &Board<Three>,
    one: &mut WorkerSeat<Three>,
    two: &mut WorkerSeat<Three>,
    three: &mut WorkerSeat<Three>,
)
    requires one { IsPutting board.now one.old.content 2 0 one.old }
    requires two { IsPutting board.now two.old.content 1 2 two.old }
    requires three { IsIdle board.now three.old.content three.old }
{
    board.pause_worker(rt, one);
    finds_put_stopped(rt, board, one, 2, &[0x3f]);
    finds_finish_stopped(rt, board, two, 1, PADDED);
    finds_claim_stopped(rt, board, three);
}
