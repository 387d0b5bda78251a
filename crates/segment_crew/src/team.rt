// The emitter and the workers of a crew, each with what it needs.
ghost use Rattle.std.specs.Prelude.{◌≡◌, ◌+◌, ◌≤◌, All, IfOk, length};
ghost use Rattle.atomic_table.specs.Seated.{TableId};
ghost use Rattle.box_format.specs.Containers.{all_plans, segment_count};
ghost use Rattle.segment_worker.specs.Contents.{Stretch};
ghost use Rattle.segment_crew.specs.Teams.{IsIdleWorker, AreNewSeats};

use crate::threads::{Lead, Task};
use allocation::{NoMemory, push};
use bit_list::Piece;
use box_format::FileView;
use byte_window::Window;
use output_board::{Board, EmitterSeat, WorkerSeat};
use outside_core::{Gate, Sink};
use segment_code::FileDecoder;
use segment_worker::{EmitStop, Emitted, Told, emit, work};
use std::alloc::Global;
use std::sync::Wait;

// A worker's seat, and the decoder and the piece that it needs.
#[derive(Drop)]
pub(crate) struct Worker<'a> {
    pub(crate) seat: WorkerSeat<Told<'a>>,
    pub(crate) decoder: FileDecoder<'a>,
    pub(crate) piece: Piece,
}

// The emitter's.
#[derive(Drop)]
pub(crate) struct Emitter<'a> {
    pub(crate) seat: EmitterSeat<Told<'a>>,
    pub(crate) decoder: FileDecoder<'a>,
    pub(crate) piece: Piece,
}

// What all of a crew share. `patience` is how often in all the emitter looks again before it decodes a segment that
// nobody has claimed.
#[derive(Drop)]
pub(crate) struct Shared<'s, 'a, G> {
    pub(crate) board: &'s Board<Told<'a>>,
    pub(crate) view: &'s FileView<'a>,
    pub(crate) first: u8,
    pub(crate) count: u8,
    pub(crate) window: Window,
    pub(crate) gate: &'s G,
    pub(crate) patience: u32,
}

impl<'s, 'a, G: Gate> Task<Shared<'s, 'a, G>> for Worker<'a> {
    ghost use Rattle.segment_worker.specs.Contents.{stretch};
    ghost use Rattle.segment_crew.specs.Teams.{IsIdleWorker, IsLeftWorker};

    ghost ready = { λ worker shared.
        IsIdleWorker shared.board.now (stretch shared.view.now shared.first shared.count) worker };

    ghost done = { λ worker shared.
        IsLeftWorker shared.board.now (stretch shared.view.now shared.first shared.count) worker };

    fn perform<R: Wait>(&mut self, rt: &R, shared: &Shared<'s, 'a, G>) {
        work(
            rt,
            &mut self.decoder,
            &mut self.piece,
            &mut self.seat,
            shared.board,
            shared.view,
            shared.gate,
            shared.first,
            shared.count,
        );
    }
}

impl<'s, 'a, G: Gate, K: Sink> Lead<Shared<'s, 'a, G>, K> for Emitter<'a> {
    ghost use Rattle.outside_core.specs.Takes.{TakesNext};
    ghost use Rattle.segment_worker.specs.Contents.{stretch};
    ghost use Rattle.segment_worker.specs.Emitting.{joined_in, seen_through};
    ghost use Rattle.segment_crew.specs.Teams.{IsNewLead, LeadEnds};

    type Answer = Result<Emitted, EmitStop>;

    ghost begins = { λ emitter shared.
        IsNewLead shared.board.now (stretch shared.view.now shared.first shared.count) emitter };

    ghost takes = { λ shared sink.
        TakesNext K.takes sink (seen_through shared.window
        (joined_in (stretch shared.view.now shared.first shared.count))).bytes };

    ghost ends = { λ old new shared from to answer.
        LeadEnds K.held K.takes K.faults K.full shared.board.now shared.window
        (stretch shared.view.now shared.first shared.count) new from to answer };

    fn lead<R: Wait>(
        &mut self,
        rt: &R,
        shared: &Shared<'s, 'a, G>,
        sink: &mut K,
    ) -> Result<Emitted, EmitStop> {
        emit(
            rt,
            &mut self.decoder,
            &mut self.piece,
            &mut self.seat,
            shared.board,
            shared.view,
            shared.window,
            sink,
            shared.gate,
            shared.first,
            shared.count,
            shared.patience,
        )
    }
}

// A worker for each seat, with all the memory that it needs.
pub(crate) fn team_of<'a>(
    alloc: Global,
    view: &FileView<'a>,
    seats: Vec<WorkerSeat<Told<'a>>>,
) -> Result<Vec<Worker<'a>>, NoMemory>
    ensures idle { (table : TableId) (v : Stretch) → v.container ≡ view.now
        → v.first + v.count ≤ segment_count v.container → AreNewSeats table v seats.entry.items
        → IfOk result (λ team. All (IsIdleWorker table v) team.items) }
    ensures count { IfOk result (λ team. length team.items ≡ length seats.entry.items) }
{
    let mut team = Vec::new(alloc);
    for seat in seats {
        let worker = worker_of(alloc, view, seat)?;
        push(&mut team, worker)?;
    }
    Ok(team)
}

// A worker for a seat.
fn worker_of<'a>(
    alloc: Global,
    view: &FileView<'a>,
    seat: WorkerSeat<Told<'a>>,
) -> Result<Worker<'a>, NoMemory>
    ensures seat { IfOk result (λ worker. worker.seat ≡ seat.entry) }
    ensures plans { IfOk result (λ worker. worker.decoder.plans ≡ all_plans view.now) }
    ensures begun { IfOk result (λ worker. worker.decoder.begun ≡ 0) }
{
    let decoder = FileDecoder::prepare(alloc, view.plans())?;
    let piece = Piece::new(alloc)?;
    Ok(Worker {
        seat,
        decoder,
        piece,
    })
}
