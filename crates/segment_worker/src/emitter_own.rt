// The emitter's own segment, decoded into the sink.
ghost use Rattle.std.specs.Prelude.{◌≡◌, ◌+◌, ◌<◌, ◌≤◌, true, false, length};
ghost use Rattle.outside_core.specs.Takes.{TakesNext};
ghost use Rattle.byte_window.specs.Windows.{window as passed};
ghost use Rattle.board_core.specs.BoardInvariants.{bytes_at};
ghost use Rattle.box_format.specs.Versions.{most_segments};
ghost use Rattle.box_format.specs.Containers.{all_plans, segment_count};
ghost use Rattle.segment_worker.specs.Contents.{AreShort, segments_bytes, stretch};
ghost use Rattle.segment_worker.specs.OwnSegments.{IsSameSeat, OwesRest, OwnEnds, own_rest};

use crate::content::Told;
use crate::emitter_part::write_part;
use crate::shared::Shared;
use bit_list::Piece;
use byte_window::Window;
use handover::Outcome;
use output_board::{Board, EmitterSeat, Own};
use outside_core::{Gate, Sink};
use segment_code::{FileDecoder, Step};
use std::sync::Wait;

// Claims the segment that is emitted, if nobody has, and writes what the window lets through of it, whatever its
// outcome. Returns how many bytes came, or how many were written before the sink failed. The segment is the board's
// with index `current`.
pub(crate) fn emit_unclaimed<'s, 'a, R: Wait, K: Sink, G: Gate>(
    rt: &R,
    decoder: &mut FileDecoder<'a>,
    piece: &mut Piece,
    seat: &mut EmitterSeat<Told<'a>>,
    shared: &Shared<'s, 'a, G>,
    window: Window,
    sink: &mut K,
    current: u8,
) -> Result<u64, u64>
    requires own { seat.old.table ≡ shared.now.board.now }
    requires content { seat.old.content
        ≡ stretch shared.now.view.now shared.now.first shared.now.count }
    requires fits { shared.now.first + shared.now.count ≤ segment_count shared.now.view.now }
    requires few { segment_count shared.now.view.now ≤ most_segments }
    requires number { shared.now.first + current < 256 }
    requires free { seat.old.view.owns ≡ false }
    requires going { seat.old.view.stopped ≡ false }
    requires within { seat.old.view.taken
        ≤ length (bytes_at (segments_bytes seat.old.content) seat.old.view.cur) }
    requires plans { decoder.old.plans ≡ all_plans shared.now.view.now }
    requires begun { decoder.old.begun ≡ seat.old.claims }
    requires short { AreShort seat.old.content }
    requires takes { TakesNext K.takes sink.old (passed window (own_rest seat.old)) }
    ensures ends { OwnEnds K.held K.takes K.faults K.full window seat.old seat.new sink.old sink.new
        result }
    ensures own { seat.new.table ≡ seat.old.table }
    ensures content { seat.new.content ≡ seat.old.content }
    ensures begun { decoder.new.begun ≡ seat.new.claims }
    ensures plans { decoder.new.plans ≡ decoder.old.plans }
    ensures lasting { K.faults sink.old ≤ K.faults sink.new }
{
    shared.gate.before_own(shared.first + current);
    match shared.board.claim_own(rt, seat) {
        Own::Mine(segment) => {
            decoder.begin(shared.view, shared.first + segment);
            emit_own(rt, decoder, piece, seat, shared.board, window, sink)
        }
        Own::Other => Ok(0),
    }
}

// Writes what the window lets through of the rest of the emitter's own segment, piece by piece, and ends it.
fn emit_own<'a, R: Wait, K: Sink>(
    rt: &R,
    decoder: &mut FileDecoder<'a>,
    piece: &mut Piece,
    seat: &mut EmitterSeat<Told<'a>>,
    board: &Board<Told<'a>>,
    window: Window,
    sink: &mut K,
) -> Result<u64, u64>
    requires own { seat.old.table ≡ board.now }
    requires owns { seat.old.view.owns ≡ true }
    requires going { seat.old.view.stopped ≡ false }
    requires running { decoder.old.running ≡ true }
    requires owes { OwesRest seat.old.content seat.old.view.cur seat.old.view.taken decoder.old }
    requires short { AreShort seat.old.content }
    requires takes { TakesNext K.takes sink.old (passed window (own_rest seat.old)) }
    ensures ends { OwnEnds K.held K.takes K.faults K.full window seat.old seat.new sink.old sink.new
        result }
    ensures same { IsSameSeat seat.old seat.new }
    ensures begun { decoder.new.begun ≡ decoder.old.begun }
    ensures plans { decoder.new.plans ≡ decoder.old.plans }
    ensures lasting { K.faults sink.old ≤ K.faults sink.new }
{
    let mut came = 0;
    loop {
        let step = decoder.step(piece);
        if let Err(more) = write_part(sink, window, came, piece.bytes()) {
            return Err(window.through(came) + more);
        }
        pass(rt, seat, board, piece);
        came += piece.len() as u64;
        match step {
            Step::More => {}
            Step::Done { pads } => {
                board.finish_own(rt, seat, Outcome::Good { pads });
                return Ok(came);
            }
            Step::Fault(fault) => {
                board.finish_own(rt, seat, Outcome::Bad(fault));
                return Ok(came);
            }
        }
    }
}

// Counts a piece of the emitter's own segment as written.
fn pass<'a, R: Wait>(
    rt: &R,
    seat: &mut EmitterSeat<Told<'a>>,
    board: &Board<Told<'a>>,
    piece: &Piece,
)
    requires own { seat.old.table ≡ board.now }
    requires owns { seat.old.view.owns ≡ true }
    requires going { seat.old.view.stopped ≡ false }
    requires within { seat.old.view.taken + length piece.now
        ≤ length (bytes_at (segments_bytes seat.old.content) seat.old.view.cur) }
    ensures same { IsSameSeat seat.old seat.new }
    ensures view { seat.new.view
        ≡ record seat.old.view { taken = seat.old.view.taken + length piece.now } }
{
    let count = piece.len();
    if count > 0 {
        board.pass(rt, seat, count as u64);
    }
}
