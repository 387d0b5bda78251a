// The calls of the emitter.
ghost use Rattle.std.specs.Prelude.{◌≡◌, ◌+◌, ◌≤◌, Some, false, true, length, slice_get};
ghost use Rattle.board_core.specs.BoardInvariants.{bytes_at};
ghost use Rattle.output_board.specs.Seats.{HasHeldOnce, HasRung, HasNotRung};
ghost use Rattle.output_board.specs.Answers.{TakeGives, TakeRings, OwnGives, OwnRings, PassGives, OwnFinishGives, StopGives};

use crate::answers::{Own, Take};
use crate::board::Board;
use crate::content::Content;
use crate::rule::{ADVANCE, CLAIM, FINISH, NOTHING, PASS, STOP, TAKE};
use crate::seat::EmitterSeat;
use crate::seen::look;
use board_core::{Actor, Event};
use handover::Outcome;
use std::sync::Wait;

impl<C: Content> Board<C> {
    /// Moves the next bytes of the segment that is emitted, as many as wait and `buf` has room for, to the start of
    /// `buf`. After the end of a good segment the next one is emitted.
    pub fn take<R: Wait>(&self, rt: &R, seat: &mut EmitterSeat<C>, buf: &mut [u8]) -> Take
        requires own { seat.old.table ≡ self.now }
        requires free { seat.old.view.owns ≡ false }
        requires going { seat.old.view.stopped ≡ false }
        requires some { 1 ≤ length buf.old }
        ensures hold { HasHeldOnce seat.old seat.new }
        ensures answer { TakeGives (C.bytes seat.old.content) (C.outcomes seat.old.content)
            seat.old seat.new buf.old buf.new result }
        ensures rung { TakeRings seat.old seat.new result }
    {
        let mut held = self.lock.hold(rt, &mut seat.pass);
        let core = held.value();
        let seen = look(core, Actor::Emitter);
        if seen.cur == core.count() {
            held.release(&self.lock, NOTHING, 0, seen);
            return Take::Over;
        }
        if seen.next == seen.cur {
            held.release(&self.lock, NOTHING, 0, seen);
            return Take::Unclaimed;
        }
        if seen.length > 0 {
            let n = core.front(buf);
            core.step(&Event::Take(n as u64));
            held.release(&self.lock, TAKE, n as u64, seen);
            self.lock.ring_bell(&mut seat.pass);
            return Take::Bytes(n);
        }
        match core.done(seen.cur) {
            Some(Outcome::Good { pads }) => {
                core.step(&Event::Advance);
                held.release(&self.lock, ADVANCE, 0, seen);
                self.lock.ring_bell(&mut seat.pass);
                Take::Ended(Outcome::Good { pads })
            }
            Some(Outcome::Bad(fault)) => {
                held.release(&self.lock, NOTHING, 0, seen);
                Take::Ended(Outcome::Bad(fault))
            }
            None => {
                held.release(&self.lock, NOTHING, 0, seen);
                Take::NotYet
            }
        }
    }

    /// Claims the segment that is emitted for the emitter, if nobody has.
    pub fn claim_own<R: Wait>(&self, rt: &R, seat: &mut EmitterSeat<C>) -> Own
        requires own { seat.old.table ≡ self.now }
        requires free { seat.old.view.owns ≡ false }
        requires going { seat.old.view.stopped ≡ false }
        ensures hold { HasHeldOnce seat.old seat.new }
        ensures answer { OwnGives (length (C.bytes seat.old.content)) seat.old seat.new result }
        ensures rung { OwnRings seat.old seat.new result }
    {
        let mut held = self.lock.hold(rt, &mut seat.pass);
        let core = held.value();
        let seen = look(core, Actor::Emitter);
        if seen.next != seen.cur {
            held.release(&self.lock, NOTHING, 0, seen);
            return Own::Other;
        }
        if seen.cur == core.count() {
            held.release(&self.lock, NOTHING, 0, seen);
            return Own::Other;
        }
        core.step(&Event::Claim(Actor::Emitter));
        held.release(&self.lock, CLAIM, 0, seen);
        self.lock.ring_bell(&mut seat.pass);
        Own::Mine(seen.cur)
    }

    /// Records that the next n bytes of the emitter's own segment, 1 at least, go to the output, not through the ring.
    pub fn pass<R: Wait>(&self, rt: &R, seat: &mut EmitterSeat<C>, n: u64)
        requires own { seat.old.table ≡ self.now }
        requires owns { seat.old.view.owns ≡ true }
        requires going { seat.old.view.stopped ≡ false }
        requires some { 1 ≤ n }
        requires within { seat.old.view.taken + n
            ≤ length (bytes_at (C.bytes seat.old.content) seat.old.view.cur) }
        ensures hold { HasHeldOnce seat.old seat.new }
        ensures told { PassGives n seat.old seat.new }
        ensures rung { HasNotRung seat.old seat.new }
    {
        let mut held = self.lock.hold(rt, &mut seat.pass);
        let core = held.value();
        let seen = look(core, Actor::Emitter);
        core.step(&Event::Pass(n));
        held.release(&self.lock, PASS, n, seen);
    }

    /// Ends the emitter's own segment, all of whose bytes are passed, with its outcome.
    pub fn finish_own<R: Wait>(&self, rt: &R, seat: &mut EmitterSeat<C>, outcome: Outcome)
        requires own { seat.old.table ≡ self.now }
        requires owns { seat.old.view.owns ≡ true }
        requires going { seat.old.view.stopped ≡ false }
        requires all { seat.old.view.taken
            ≡ length (bytes_at (C.bytes seat.old.content) seat.old.view.cur) }
        requires outcome { slice_get (C.outcomes seat.old.content) seat.old.view.cur
            ≡ Some outcome }
        ensures hold { HasHeldOnce seat.old seat.new }
        ensures told { OwnFinishGives seat.old seat.new }
        ensures rung { HasRung seat.old seat.new }
    {
        let mut held = self.lock.hold(rt, &mut seat.pass);
        let core = held.value();
        let seen = look(core, Actor::Emitter);
        core.step(&Event::Finish(Actor::Emitter, outcome));
        held.release(&self.lock, FINISH, 0, seen);
        self.lock.ring_bell(&mut seat.pass);
    }

    /// Stops the board: workers find it stopped from then on, and the emitter makes no other call.
    pub fn stop<R: Wait>(&self, rt: &R, seat: &mut EmitterSeat<C>)
        requires own { seat.old.table ≡ self.now }
        requires going { seat.old.view.stopped ≡ false }
        ensures hold { HasHeldOnce seat.old seat.new }
        ensures told { StopGives seat.old seat.new }
        ensures rung { HasRung seat.old seat.new }
    {
        let mut held = self.lock.hold(rt, &mut seat.pass);
        let core = held.value();
        let seen = look(core, Actor::Emitter);
        core.step(&Event::Stop);
        held.release(&self.lock, STOP, 0, seen);
        self.lock.ring_bell(&mut seat.pass);
    }

    /// Waits until the bell has rung since the emitter's last hold. It may also return for no reason.
    pub fn pause_emitter<R: Wait>(&self, rt: &R, seat: &mut EmitterSeat<C>)
        requires own { seat.old.table ≡ self.now }
        ensures same { seat.new ≡ seat.old }
    {
        self.lock.wait(rt, &mut seat.pass);
    }
}
