// Making a board, with its seats.
ghost use Rattle.std.specs.Prelude.{◌≡◌, ◌<◌, ◌≤◌, ℕ, IfOk, length};
ghost use Rattle.board_core.specs.BoardSteps.{count_limit};
ghost use Rattle.board_core.specs.BoardInvariants.{bytes_at};
ghost use Rattle.output_board.specs.Seats.{new_emitter_seat, new_worker_seats};

use crate::content::Content;
use crate::rule::BoardRule;
use crate::seat::{EmitterSeat, WorkerSeat};
use crate::view::{EmitterView, Role, View};
use allocation::{NoMemory, push};
use board_core::Core;
use seat_lock::Lock;
use std::alloc::Global;
use std::marker::Model;
use std::snapshot::Snapshot;

/// A board of segments. Clauses see which board it is.
#[derive(Drop)]
pub struct Board<C: Content> {
    pub(crate) lock: Lock<BoardRule<C>>,
}

impl<C: Content> Model for Board<C> {
    ghost use Rattle.atomic_table.specs.Seated.{TableId};
    ghost use Rattle.seat_lock.specs.Passes.{lock_id};

    ghost Value = { TableId };

    ghost view = { λ b. lock_id b.lock };

    ghost invariant = { λ b. Unit {0} };
}

impl<C: Content> Board<C> {
    /// Makes the board of a content of `k` segments before the first event, the emitter's seat, and the seats of
    /// `workers` workers in the order of their numbers. Each segment's ring holds at most `capacity` bytes.
    pub fn prepare(
        alloc: Global,
        content: &C,
        k: u8,
        capacity: u32,
        workers: u8,
    ) -> Result<(Board<C>, EmitterSeat<C>, Vec<WorkerSeat<C>>), NoMemory>
        requires bytes { length (C.bytes content.now) ≡ k }
        requires outcomes { length (C.outcomes content.now) ≡ k }
        requires short { (i : ℕ) → length (bytes_at (C.bytes content.now) i) < count_limit }
        requires room { 1 ≤ capacity }
        ensures emitter { IfOk result (λ made.
            made.1 ≡ new_emitter_seat made.0 content.now workers capacity) }
        ensures workers { IfOk result (λ made.
            made.2.items ≡ new_worker_seats made.0 content.now workers) }
    {
        let core = Core::new(alloc, k, capacity, workers)?;
        let view = View {
            content: Snapshot::of(content),
            claims: 0,
            role: Role::Emits(EmitterView {
                made: 0,
                workers: u64::from(workers),
                capacity: capacity as u64,
                cur: 0,
                taken: 0,
                owns: false,
                stopped: false,
            }),
        };
        let (lock, mut first) = Lock::new(alloc, core, view, u32::from(workers) + 1)?;
        let mut seats = Vec::new(alloc);
        for number in 0..workers {
            let pass = lock.split(&mut first);
            push(&mut seats, WorkerSeat { pass, number })?;
        }
        Ok((Board { lock }, EmitterSeat { pass: first }, seats))
    }
}
