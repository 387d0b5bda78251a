// The board of a stretch, with the emitter and the workers at it.
ghost use Rattle.std.specs.Prelude.{◌≡◌, ◌+◌, ◌*◌, ◌≤◌, All, IfOk, OnErr, OnOk, false, length, min, true};
ghost use Rattle.outside_core.specs.Takes.{TakesNext};
ghost use Rattle.box_format.specs.Versions.{most_segments};
ghost use Rattle.box_format.specs.Containers.{segment_count};
ghost use Rattle.segment_worker.specs.Contents.{segment_room, stretch};
ghost use Rattle.segment_worker.specs.Emitting.{Emits, IsThrough, joined_in, seen_through};
ghost use Rattle.segment_crew.specs.Crews.{HasBegunItsClaims};
ghost use Rattle.segment_crew.specs.Teams.{IsIdleWorker, IsNewLead, emitter_member, members_of};

use crate::team::{Emitter, Shared, Worker, team_of};
use crate::threads::lead_beside;
use crate::worth::patience_of;
use allocation::NoMemory;
use bit_list::Piece;
use box_format::FileView;
use byte_window::Window;
use output_board::Board;
use outside_core::{Gate, Sink};
use segment_code::FileDecoder;
use segment_worker::{EmitStop, Emitted, Told, prepare_board};
use std::alloc::Global;
use std::marker::Model;
use std::sync::Wait;
use std::thread::Threads;

/// The board of some of a container's segments, the emitter and the workers at it, and all the memory that decoding
/// these segments needs. It is used once.
///
/// Clauses see its segments, and of the emitter and of each worker what its seat last saw, how many segments it claimed
/// and how many its decoder began.
#[derive(Drop)]
pub struct Crew<'a> {
    board: Board<Told<'a>>,
    emitter: Emitter<'a>,
    team: Vec<Worker<'a>>,
    first: u8,
    count: u8,
    used: bool,
}

impl<'a> Model for Crew<'a> {
    ghost use Rattle.segment_crew.specs.Crews.{CrewSeen};
    ghost use Rattle.segment_crew.specs.CrewInside.{crew_of, IsCrew};

    ghost Value = { CrewSeen };

    ghost view = { crew_of };

    ghost invariant = { IsCrew };
}

impl<'a> Crew<'a> {
    /// The crew of `count` segments, from the container's number `first` on, before it is used: `workers` workers, but
    /// no more than segments, and for each segment a ring of `ring` bytes. With 0 workers the emitter decodes all. The
    /// one error is out of memory.
    pub fn prepare(
        alloc: Global,
        view: &FileView<'a>,
        first: u8,
        count: u8,
        workers: u8,
        ring: u32,
    ) -> Result<Crew<'a>, NoMemory>
        requires ring { 1 ≤ ring }
        requires within { first + count ≤ segment_count view.now }
        ensures segments { IfOk result (λ crew. crew.segments ≡ stretch view.now first count) }
        ensures team { IfOk result (λ crew. length crew.team ≡ min workers count) }
        ensures rings { IfOk result (λ crew. crew.emitter.view.capacity ≡ ring) }
        ensures fresh { IfOk result (λ crew. crew.used ≡ false) }
    {
        let workers = workers.min(count);
        let decoder = FileDecoder::prepare(alloc, view.plans())?;
        let piece = Piece::new(alloc)?;
        let (board, seat, seats) = prepare_board(alloc, view, ring, workers, first, count)?;
        let team = team_of(alloc, view, seats)?;
        Ok(Crew {
            board,
            emitter: Emitter {
                seat,
                decoder,
                piece,
            },
            team,
            first,
            count,
            used: false,
        })
    }

    /// Whether it was used. At any time each of the crew began as many segments as it claimed.
    pub fn used(&self) -> bool
        ensures used { result ≡ self.now.used }
        ensures emitter { HasBegunItsClaims self.now.emitter }
        ensures team { All HasBegunItsClaims self.now.team }
    {
        self.used
    }

    /// Writes what the window lets through of the segments in order, each decoded by a worker in a thread of its own,
    /// or here. It returns after the last one, or after the first with a fault, or if the sink fails, once each worker
    /// has left, whatever the number of workers and the order of their calls. It asks no allocator for memory. If a
    /// thread can't be had, it does without.
    ///
    /// At each moment, also while the call is under way, what was written is a prefix of what goes through of the
    /// joined segments, since the sink need take nothing else.
    ///
    /// The gate is called before each segment that the emitter asks for, and before and after each put of a worker,
    /// with the segment's number in the container.
    pub fn emit<R: Threads + Wait + Sync, K: Sink + Send, G: Gate + Sync>(
        &mut self,
        rt: &R,
        view: &FileView<'a>,
        window: Window,
        sink: &mut K,
        gate: &G,
    ) -> Result<Emitted, EmitStop>
        requires fresh { self.old.used ≡ false }
        requires container { self.old.segments.container ≡ view.now }
        requires takes { TakesNext K.takes sink.old
            (seen_through window (joined_in self.old.segments)).bytes }
        ensures ends { Emits K.held K.takes K.faults K.full sink.old sink.new
            (seen_through window (joined_in self.old.segments)) result }
        ensures came { IfOk result (λ emitted.
            emitted.came ≡ length (joined_in self.old.segments).bytes) }
        ensures few { length (joined_in self.old.segments).bytes ≤ segment_room * most_segments }
        ensures through { OnOk result (IsThrough self.old.segments.count self.new.emitter.view) }
        ensures stopped { OnErr result (self.new.emitter.view.stopped ≡ true) }
        ensures left { All (λ member. member.view.left ≡ true) self.new.team }
        ensures emitter { HasBegunItsClaims self.new.emitter }
        ensures team { All HasBegunItsClaims self.new.team }
        ensures count { length self.new.team ≡ length self.old.team }
        ensures segments { self.new.segments ≡ self.old.segments }
        ensures used { self.new.used ≡ true }
        ensures lasting { K.faults sink.old ≤ K.faults sink.new }
    {
        self.used = true;
        let shared = Shared {
            board: &self.board,
            view,
            first: self.first,
            count: self.count,
            window,
            gate,
            patience: patience_of(self.count, self.team.len()),
        };
        emit_beside(rt, &shared, &mut self.emitter, &mut self.team, sink)
    }
}

// The same, for the parts of a crew.
fn emit_beside<'s, 'a, R: Threads + Wait + Sync, K: Sink + Send, G: Gate + Sync>(
    rt: &R,
    shared: &Shared<'s, 'a, G>,
    emitter: &mut Emitter<'a>,
    team: &mut Vec<Worker<'a>>,
    sink: &mut K,
) -> Result<Emitted, EmitStop>
    requires content { emitter.old.seat.content
        ≡ stretch shared.now.view.now shared.now.first shared.now.count }
    requires new { IsNewLead shared.now.board.now emitter.old.seat.content emitter.old }
    requires team { All (IsIdleWorker shared.now.board.now emitter.old.seat.content)
        team.old.items }
    requires takes { TakesNext K.takes sink.old
        (seen_through shared.now.window (joined_in emitter.old.seat.content)).bytes }
    ensures ends { Emits K.held K.takes K.faults K.full sink.old sink.new
        (seen_through shared.now.window (joined_in emitter.old.seat.content)) result }
    ensures came { IfOk result (λ emitted.
        emitted.came ≡ length (joined_in emitter.old.seat.content).bytes) }
    ensures few { length (joined_in emitter.old.seat.content).bytes
        ≤ segment_room * most_segments }
    ensures through { OnOk result (IsThrough emitter.old.seat.content.count emitter.new.seat.view) }
    ensures stopped { OnErr result (emitter.new.seat.view.stopped ≡ true) }
    ensures left { All (λ member. member.view.left ≡ true) (members_of team.new.items) }
    ensures emitter { HasBegunItsClaims (emitter_member emitter.new) }
    ensures team { All HasBegunItsClaims (members_of team.new.items) }
    ensures count { length team.new.items ≡ length team.old.items }
    ensures content { emitter.new.seat.content ≡ emitter.old.seat.content }
    ensures lasting { K.faults sink.old ≤ K.faults sink.new }
{
    lead_beside(rt, emitter, team.as_mut_slice(), shared, sink)
}
