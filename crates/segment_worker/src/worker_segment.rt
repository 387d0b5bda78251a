// A segment that a worker claimed, decoded into its ring.
ghost use Rattle.std.specs.Prelude.{◌≡◌, ◌+◌, ◌<◌, Some, None, true, false};
ghost use Rattle.segment_worker.specs.OwnSegments.{IsSameSeat, OwesRest};

use crate::content::Told;
use crate::shared::Shared;
use crate::worker_puts::{end, put_bytes};
use bit_list::Piece;
use handover::Outcome;
use output_board::WorkerSeat;
use outside_core::Gate;
use segment_code::{FileDecoder, Step};
use std::sync::Wait;

// Decodes the rest of the worker's segment into its ring, piece by piece, and ends it. Returns whether the board wasn't
// stopped before.
pub(crate) fn put_segment<'s, 'a, R: Wait, G: Gate>(
    rt: &R,
    decoder: &mut FileDecoder<'a>,
    piece: &mut Piece,
    seat: &mut WorkerSeat<Told<'a>>,
    shared: &Shared<'s, 'a, G>,
    segment: u8,
) -> bool
    requires own { seat.old.table ≡ shared.now.board.now }
    requires segment { seat.old.view.segment ≡ Some segment }
    requires number { shared.now.first + segment < 256 }
    requires going { seat.old.view.over ≡ false }
    requires running { decoder.old.running ≡ true }
    requires owes { OwesRest seat.old.content segment seat.old.view.put decoder.old }
    ensures same { IsSameSeat seat.old seat.new }
    ensures free { result ≡ true → seat.new.view.segment ≡ None }
    ensures over { result ≡ false → seat.new.view.over ≡ true }
    ensures going { result ≡ true → seat.new.view.over ≡ false }
    ensures here { seat.new.view.left ≡ seat.old.view.left }
    ensures begun { decoder.new.begun ≡ decoder.old.begun }
    ensures plans { decoder.new.plans ≡ decoder.old.plans }
{
    let number = shared.first + segment;
    loop {
        let step = decoder.step(piece);
        if !put_bytes(rt, seat, shared, piece.bytes(), number) {
            return false;
        }
        match step {
            Step::More => {}
            Step::Done { pads } => return end(rt, seat, shared.board, Outcome::Good { pads }),
            Step::Fault(fault) => return end(rt, seat, shared.board, Outcome::Bad(fault)),
        }
    }
}
