// The board, and its events.
ghost use Rattle.std.specs.Prelude.{◌≡◌, ◌≤◌, IfOk};
ghost use Rattle.board_core.specs.BoardStates.{opening_board};
ghost use Rattle.board_core.specs.BoardSteps.{BoardStep, IsEnabled, CountsFit, Claim, Put, Pass, Finish, Take, Advance, Stop, Leave};
ghost use Rattle.board_core.specs.EventValues.{board_event, answer};

use crate::actor::Actor;
use crate::event::{Event, Took};
use crate::ring::Ring;
use crate::segment::{Segment, index_of};
use allocation::{NoMemory, from_elem, push};
use handover::Outcome;
use std::alloc::Global;
use std::marker::Model;

/// The segments of a file, who owns each of them, and which of its bytes wait. Clauses see a `BoardState`.
///
/// `new` allocates all its memory.
#[derive(Drop)]
pub struct Core {
    pub(crate) capacity: usize,
    pub(crate) next: u8,
    pub(crate) cur: u8,
    pub(crate) segments: Vec<Segment>,
    pub(crate) stopped: bool,
    pub(crate) left: Vec<bool>,
}

impl Model for Core {
    ghost use Rattle.board_core.specs.BoardStates.{BoardState};
    ghost use Rattle.board_core.specs.CoreInside.{states_of, IsCore};

    ghost Value = { BoardState };

    ghost view = { λ b. record {
      capacity = b.capacity;
      next = b.next;
      cur = b.cur;
      segments = states_of b.segments.items;
      stopped = b.stopped;
      left = b.left.items;
    } };

    ghost invariant = { λ b. IsCore b.capacity b.segments.items };
}

impl Core {
    /// The board of `k` segments and `workers` workers before the first event. Each ring holds at most `capacity`
    /// bytes.
    pub fn new(alloc: Global, k: u8, capacity: u32, workers: u8) -> Result<Core, NoMemory>
        requires { 1 ≤ capacity }
        ensures { IfOk result (λ b. b ≡ opening_board k capacity workers) }
    {
        let mut segments = Vec::new(alloc);
        for _ in 0..k {
            let segment = Segment {
                owner: None,
                put: 0,
                taken: 0,
                ring: Ring::new(alloc, capacity)?,
                done: None,
            };
            push(&mut segments, segment)?;
        }
        let left = from_elem(alloc, false, workers as usize)?;
        Ok(Core {
            capacity: capacity as usize,
            next: 0,
            cur: 0,
            segments,
            stopped: false,
            left,
        })
    }

    /// Applies an event, which must be enabled.
    pub fn step(&mut self, event: &Event) -> Took
        requires can { IsEnabled self.old (board_event event.now) }
        requires small { CountsFit self.old (board_event event.now) }
        ensures step { BoardStep self.old (board_event event.now) self.new }
        ensures took { result ≡ answer self.old event.now }
    {
        match *event {
            Event::Claim(actor) => {
                let next = self.next;
                self.claim(actor);
                Took::Segment(next)
            }
            Event::Put(worker, bytes) => {
                self.put(worker, bytes);
                Took::Nothing
            }
            Event::Pass(count) => {
                self.pass(count);
                Took::Nothing
            }
            Event::Finish(actor, outcome) => {
                self.finish(actor, outcome);
                Took::Nothing
            }
            Event::Take(count) => {
                self.take(count);
                Took::Gone(count)
            }
            Event::Advance => {
                self.advance();
                Took::Nothing
            }
            Event::Stop => {
                self.stop();
                Took::Nothing
            }
            Event::Leave(worker) => {
                self.leave(worker);
                Took::Nothing
            }
        }
    }

    fn claim(&mut self, actor: Actor)
        requires { IsEnabled self.old (Claim actor) }
        ensures { BoardStep self.old (Claim actor) self.new }
    {
        self.segments[self.next as usize].owner = Some(actor);
        self.next += 1;
    }

    fn put(&mut self, worker: u8, bytes: &[u8])
        requires can { IsEnabled self.old (Put worker bytes.now) }
        requires small { CountsFit self.old (Put worker bytes.now) }
        ensures { BoardStep self.old (Put worker bytes.now) self.new }
    {
        let Some(index) = index_of(&self.segments, Actor::Worker(worker)) else {
            unreachable!()
        };
        let segment = &mut self.segments[index];
        segment.put += bytes.len() as u64;
        segment.ring.append(bytes);
    }

    fn pass(&mut self, count: u64)
        requires can { IsEnabled self.old (Pass count) }
        requires small { CountsFit self.old (Pass count) }
        ensures { BoardStep self.old (Pass count) self.new }
    {
        let segment = &mut self.segments[self.cur as usize];
        segment.put += count;
        segment.taken += count;
    }

    fn finish(&mut self, actor: Actor, outcome: Outcome)
        requires { IsEnabled self.old (Finish actor outcome) }
        ensures { BoardStep self.old (Finish actor outcome) self.new }
    {
        let Some(index) = index_of(&self.segments, actor) else {
            unreachable!()
        };
        let segment = &mut self.segments[index];
        segment.owner = None;
        segment.done = Some(outcome);
    }

    fn take(&mut self, count: u64)
        requires { IsEnabled self.old (Take count) }
        ensures { BoardStep self.old (Take count) self.new }
    {
        let segment = &mut self.segments[self.cur as usize];
        // The sum can't wrap: no more is taken than was put.
        let _put = segment.put;
        segment.taken += count;
        segment.ring.remove_front(count as usize);
    }

    fn advance(&mut self)
        requires { IsEnabled self.old Advance }
        ensures { BoardStep self.old Advance self.new }
    {
        self.cur += 1;
    }

    fn stop(&mut self)
        requires { IsEnabled self.old Stop }
        ensures { BoardStep self.old Stop self.new }
    {
        self.stopped = true;
    }

    fn leave(&mut self, worker: u8)
        requires { IsEnabled self.old (Leave worker) }
        ensures { BoardStep self.old (Leave worker) self.new }
    {
        match index_of(&self.segments, Actor::Worker(worker)) {
            Some(index) => self.segments[index].owner = None,
            None => {}
        }
        self.left[worker as usize] = true;
    }
}
