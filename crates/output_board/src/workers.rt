// The calls of a worker.
ghost use Rattle.std.specs.Prelude.{◌≡◌, ◌≤◌, None, false, true, length};
ghost use Rattle.output_board.specs.Seats.{HasHeldOnce, HasNotRung};
ghost use Rattle.output_board.specs.Answers.{HasNext, IsAtEnd, ClaimGives, ClaimRings, PutGives, PutRings, FinishGives, FinishRings, LeaveGives};

use crate::answers::{Claim, Finish, Put};
use crate::board::Board;
use crate::content::Content;
use crate::rule::{CLAIM, FINISH, LEAVE, NOTHING, OVER, PUT};
use crate::seat::WorkerSeat;
use crate::seen::look;
use board_core::{Actor, Event};
use handover::Outcome;
use std::sync::Wait;

impl<C: Content> Board<C> {
    /// Claims the next segment for a worker that owns none.
    pub fn claim<R: Wait>(&self, rt: &R, seat: &mut WorkerSeat<C>) -> Claim
        requires own { seat.old.table ≡ self.now }
        requires free { seat.old.view.segment ≡ None }
        requires here { seat.old.view.left ≡ false }
        requires going { seat.old.view.over ≡ false }
        ensures hold { HasHeldOnce seat.old seat.new }
        ensures answer { ClaimGives (length (C.bytes seat.old.content))
            seat.old seat.new result }
        ensures rung { ClaimRings seat.old seat.new result }
    {
        let mut held = self.lock.hold(rt, &mut seat.pass);
        let core = held.value();
        let seen = look(core, Actor::Worker(seat.number));
        if seen.stopped {
            held.release(&self.lock, OVER, 0, seen);
            return Claim::Stopped;
        }
        if seen.next == core.count() {
            held.release(&self.lock, OVER, 0, seen);
            return Claim::NoneLeft;
        }
        core.step(&Event::Claim(Actor::Worker(seat.number)));
        held.release(&self.lock, CLAIM, 0, seen);
        self.lock.ring_bell(&mut seat.pass);
        Claim::Segment(seen.next)
    }

    /// Puts the next bytes of the worker's segment, 1 at least, into its ring, as many as it has room for. The others
    /// need another call.
    pub fn put<R: Wait>(&self, rt: &R, seat: &mut WorkerSeat<C>, bytes: &[u8]) -> Put
        requires own { seat.old.table ≡ self.now }
        requires some { 1 ≤ length bytes.now }
        requires next { HasNext (C.bytes seat.old.content) seat.old.view bytes.now }
        requires going { seat.old.view.over ≡ false }
        ensures hold { HasHeldOnce seat.old seat.new }
        ensures answer { PutGives (length bytes.now) seat.old seat.new result }
        ensures rung { PutRings seat.old seat.new result }
    {
        let mut held = self.lock.hold(rt, &mut seat.pass);
        let core = held.value();
        let seen = look(core, Actor::Worker(seat.number));
        if seen.stopped {
            held.release(&self.lock, OVER, 0, seen);
            return Put::Stopped;
        }
        let n = bytes.len().min(seen.free);
        if n == 0 {
            held.release(&self.lock, NOTHING, 0, seen);
            return Put::Took(0);
        }
        core.step(&Event::Put(seat.number, &bytes[..n]));
        held.release(&self.lock, PUT, n as u64, seen);
        self.lock.ring_bell(&mut seat.pass);
        Put::Took(n)
    }

    /// Ends the worker's segment, all of whose bytes are put, with its outcome.
    pub fn finish<R: Wait>(&self, rt: &R, seat: &mut WorkerSeat<C>, outcome: Outcome) -> Finish
        requires own { seat.old.table ≡ self.now }
        requires end { IsAtEnd (C.bytes seat.old.content) (C.outcomes seat.old.content)
            seat.old.view outcome }
        requires going { seat.old.view.over ≡ false }
        ensures hold { HasHeldOnce seat.old seat.new }
        ensures answer { FinishGives seat.old seat.new result }
        ensures rung { FinishRings seat.old seat.new result }
    {
        let mut held = self.lock.hold(rt, &mut seat.pass);
        let core = held.value();
        let seen = look(core, Actor::Worker(seat.number));
        if seen.stopped {
            held.release(&self.lock, OVER, 0, seen);
            return Finish::Stopped;
        }
        core.step(&Event::Finish(Actor::Worker(seat.number), outcome));
        held.release(&self.lock, FINISH, 0, seen);
        self.lock.ring_bell(&mut seat.pass);
        Finish::Kept
    }

    /// Lets a worker for which all is over leave. If the board is stopped, nobody owns its segment afterwards.
    pub fn leave<R: Wait>(&self, rt: &R, seat: &mut WorkerSeat<C>)
        requires own { seat.old.table ≡ self.now }
        requires over { seat.old.view.over ≡ true }
        requires here { seat.old.view.left ≡ false }
        ensures hold { HasHeldOnce seat.old seat.new }
        ensures told { LeaveGives seat.old seat.new }
        ensures rung { HasNotRung seat.old seat.new }
    {
        let mut held = self.lock.hold(rt, &mut seat.pass);
        let core = held.value();
        let seen = look(core, Actor::Worker(seat.number));
        core.step(&Event::Leave(seat.number));
        held.release(&self.lock, LEAVE, 0, seen);
    }

    /// Waits until the bell has rung since the worker's last hold. It may also return for no reason.
    pub fn pause_worker<R: Wait>(&self, rt: &R, seat: &mut WorkerSeat<C>)
        requires own { seat.old.table ≡ self.now }
        ensures same { seat.new ≡ seat.old }
    {
        self.lock.wait(rt, &mut seat.pass);
    }
}
