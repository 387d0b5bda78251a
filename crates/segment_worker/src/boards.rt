// The board of a stretch.
ghost use Rattle.std.specs.Prelude.{◌≡◌, ◌+◌, ◌≤◌, IfOk};
ghost use Rattle.output_board.specs.Seats.{new_emitter_seat, new_worker_seats};
ghost use Rattle.box_format.specs.Containers.{segment_count};
ghost use Rattle.segment_worker.specs.Contents.{stretch};

use crate::content::Told;
use crate::lengths::segments_are_short;
use allocation::NoMemory;
use box_format::FileView;
use output_board::{Board, EmitterSeat, WorkerSeat};
use std::alloc::Global;

/// The board of `count` of a container's segments, from number `first` on, before the first call, the emitter's seat,
/// and the seats of `workers` workers. Each segment's ring holds at most `ring` bytes. The one error is out of memory.
pub fn prepare_board<'a>(
    alloc: Global,
    view: &FileView<'a>,
    ring: u32,
    workers: u8,
    first: u8,
    count: u8,
) -> Result<
    (
        Board<Told<'a>>,
        EmitterSeat<Told<'a>>,
        Vec<WorkerSeat<Told<'a>>>,
    ),
    NoMemory,
>
    requires ring { 1 ≤ ring }
    requires within { first + count ≤ segment_count view.now }
    ensures emitter { IfOk result (λ made.
        made.1 ≡ new_emitter_seat made.0 (stretch view.now first count) workers ring) }
    ensures workers { IfOk result (λ made.
        made.2.items ≡ new_worker_seats made.0 (stretch view.now first count) workers) }
{
    segments_are_short(view);
    let content = Told::new(view, first, count);
    Board::prepare(alloc, &content, count, ring, workers)
}
