// The seats through which a board is called.
use crate::content::Content;
use crate::rule::BoardRule;
use seat_lock::Pass;
use std::marker::Model;

/// The emitter's seat. Clauses see a `SeatValue` with an `EmitterView`.
#[derive(Drop)]
pub struct EmitterSeat<C: Content> {
    pub(crate) pass: Pass<BoardRule<C>>,
}

impl<C: Content> Model for EmitterSeat<C> {
    ghost use Rattle.output_board.specs.declared.view.EmitterView.{EmitterView};
    ghost use Rattle.output_board.specs.Seats.{SeatValue};
    ghost use Rattle.output_board.specs.SeatPasses.{emitter_value, IsEmitterPass};

    ghost Value = { SeatValue C EmitterView };

    ghost view = { λ s. emitter_value s.pass };

    ghost invariant = { λ s. IsEmitterPass s.pass };
}

/// A worker's seat. Clauses see a `SeatValue` with a `WorkerView`.
#[derive(Drop)]
pub struct WorkerSeat<C: Content> {
    pub(crate) pass: Pass<BoardRule<C>>,
    pub(crate) number: u8,
}

impl<C: Content> Model for WorkerSeat<C> {
    ghost use Rattle.output_board.specs.declared.view.WorkerView.{WorkerView};
    ghost use Rattle.output_board.specs.Seats.{SeatValue};
    ghost use Rattle.output_board.specs.SeatPasses.{worker_value, IsWorkerPass};

    ghost Value = { SeatValue C WorkerView };

    ghost view = { λ s. worker_value s.pass };

    ghost invariant = { λ s. IsWorkerPass s.number s.pass };
}
