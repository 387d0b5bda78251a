// What the seat rule says of the views of all seats.
ghost use Rattle.output_board.specs.SeatLaws.{LateClaimsFindNothing, SegmentsHaveOneOwner};

use crate::board::Board;
use crate::content::Content;
use crate::seat::{EmitterSeat, WorkerSeat};

/// If the board fits views of which the emitter's says that all segments are emitted, or that it stopped the board, the
/// board is stopped or each segment is claimed: a claim returns `NoneLeft` or `Stopped`.
pub fn a_late_claim_finds_nothing<C: Content>()
    ensures { LateClaimsFindNothing C.bytes C.outcomes }
{}

/// No two of the views that a board fits name one segment as their seat's own, the emitter's included.
pub fn no_two_seats_own_one_segment<C: Content>()
    ensures { SegmentsHaveOneOwner C.bytes C.outcomes }
{}

/// If a content may be sent to threads and shared by them, its seats may be sent and its board shared.
pub fn seats_go_to_threads<C: Content + Send + Sync>() {
    is_send::<WorkerSeat<C>>();
    is_send::<EmitterSeat<C>>();
    is_sync::<Board<C>>();
}

fn is_send<T: Send>() {}

fn is_sync<T: Sync>() {}
