// A worker's bytes, put into the ring of its segment.
ghost use Rattle.std.specs.Prelude.{◌≡◌, ◌+◌, true, false, None, length};
ghost use Rattle.output_board.specs.Answers.{HasNext, IsAtEnd};
ghost use Rattle.segment_worker.specs.Contents.{segments_bytes, segments_outcomes};
ghost use Rattle.segment_worker.specs.OwnSegments.{IsSameSeat};

use crate::content::Told;
use crate::shared::Shared;
use handover::Outcome;
use output_board::{Board, Finish, Put, WorkerSeat};
use outside_core::Gate;
use std::sync::Wait;

// Puts the next bytes of the worker's segment, as its ring has room, and returns whether all were put before the board
// was stopped. The gate is called before and after each put, with the segment's number in the container.
pub(crate) fn put_bytes<'s, 'a, R: Wait, G: Gate>(
    rt: &R,
    seat: &mut WorkerSeat<Told<'a>>,
    shared: &Shared<'s, 'a, G>,
    bytes: &[u8],
    number: u8,
) -> bool
    requires own { seat.old.table ≡ shared.now.board.now }
    requires next { HasNext (segments_bytes seat.old.content) seat.old.view bytes.now }
    requires going { seat.old.view.over ≡ false }
    ensures same { IsSameSeat seat.old seat.new }
    ensures put { result ≡ true → seat.new.view
        ≡ record seat.old.view { put = seat.old.view.put + length bytes.now } }
    ensures over { result ≡ false → seat.new.view.over ≡ true }
    ensures here { seat.new.view.left ≡ seat.old.view.left }
{
    let mut put = 0;
    for _ in rt.forever() {
        let (_, rest) = bytes.split_at(put);
        if rest.is_empty() {
            return true;
        }
        shared.gate.before_put(number);
        let answer = shared.board.put(rt, seat, rest);
        shared.gate.after_put(number);
        match answer {
            Put::Took(0) => shared.board.pause_worker(rt, seat),
            Put::Took(count) => put += count,
            Put::Stopped => return false,
        }
    }
    unreachable!()
}

// Ends the worker's segment, and returns whether the board wasn't stopped before.
pub(crate) fn end<'a, R: Wait>(
    rt: &R,
    seat: &mut WorkerSeat<Told<'a>>,
    board: &Board<Told<'a>>,
    outcome: Outcome,
) -> bool
    requires own { seat.old.table ≡ board.now }
    requires end { IsAtEnd (segments_bytes seat.old.content) (segments_outcomes seat.old.content)
        seat.old.view outcome }
    requires going { seat.old.view.over ≡ false }
    ensures still { result ≡ true → seat.new.view.over ≡ false }
    ensures same { IsSameSeat seat.old seat.new }
    ensures free { result ≡ true → seat.new.view.segment ≡ None }
    ensures over { result ≡ false → seat.new.view.over ≡ true }
    ensures here { seat.new.view.left ≡ seat.old.view.left }
{
    match board.finish(rt, seat, outcome) {
        Finish::Kept => true,
        Finish::Stopped => false,
    }
}
