// A worker.
ghost use Rattle.std.specs.Prelude.{◌+◌, ◌≤◌};
ghost use Rattle.box_format.specs.Containers.{segment_count};
ghost use Rattle.segment_worker.specs.Contents.{stretch};
ghost use Rattle.segment_worker.specs.Working.{HasLeft, IsIdle};

use crate::content::Told;
use crate::lengths::segments_are_short;
use crate::shared::Shared;
use crate::worker_segment::put_segment;
use bit_list::Piece;
use box_format::FileView;
use output_board::{Board, Claim, WorkerSeat};
use outside_core::Gate;
use segment_code::FileDecoder;
use std::sync::Wait;

/// Claims segments of the board of `count` segments, from the container's number `first` on, and decodes them into
/// their rings, one after another, until none is left or the board is stopped. Then it leaves.
///
/// The gate is called before and after each put.
pub fn work<'a, R: Wait, G: Gate>(
    rt: &R,
    decoder: &mut FileDecoder<'a>,
    piece: &mut Piece,
    seat: &mut WorkerSeat<Told<'a>>,
    board: &Board<Told<'a>>,
    view: &FileView<'a>,
    gate: &G,
    first: u8,
    count: u8,
)
    requires within { first + count ≤ segment_count view.now }
    requires idle { IsIdle board.now (stretch view.now first count) seat.old decoder.old }
    ensures { HasLeft board.now (stretch view.now first count) seat.new decoder.new }
{
    segments_are_short(view);
    let shared = Shared {
        board,
        view,
        first,
        count,
        gate,
    };
    for _ in rt.forever() {
        match board.claim(rt, seat) {
            Claim::Segment(segment) => {
                decoder.begin(view, first + segment);
                if !put_segment(rt, decoder, piece, seat, &shared, segment) {
                    return board.leave(rt, seat);
                }
            }
            Claim::NoneLeft => return board.leave(rt, seat),
            Claim::Stopped => return board.leave(rt, seat),
        }
    }
    unreachable!()
}
