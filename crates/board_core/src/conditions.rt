// Whether an event may happen.
ghost use Rattle.std.specs.Prelude.{ℕ, ◌+◌, ◌<◌, ◌↔◌, IsTrue};
ghost use Rattle.board_core.specs.declared.actor.Actor.TheVariants.{Worker};
ghost use Rattle.board_core.specs.BoardStates.{segment_at, Owns, OwnsNothing, IsPresent};
ghost use Rattle.board_core.specs.BoardSteps.{IsEnabled, count_limit, CountsFit, CanClaim, CanPut, CanPass, CanFinish, CanTake, CanAdvance, CanLeave};
ghost use Rattle.board_core.specs.EventValues.{board_event};

use crate::actor::Actor;
use crate::board::Core;
use crate::event::Event;
use crate::segment::{index_of, is_good, is_owned};

impl Core {
    /// Whether an event may happen. It may name a worker that the board doesn't have, or any number of bytes.
    pub fn enabled(&self, event: &Event) -> bool
        ensures { IsTrue result ↔ IsEnabled self.now (board_event event.now) }
    {
        match *event {
            Event::Claim(actor) => self.can_claim(actor),
            Event::Put(worker, bytes) => self.can_put(worker, bytes.len()),
            Event::Pass(count) => self.can_pass(count),
            Event::Finish(actor, _) => self.can_finish(actor),
            Event::Take(count) => self.can_take(count),
            Event::Advance => self.can_advance(),
            Event::Stop => !self.stopped,
            Event::Leave(worker) => self.can_leave(worker),
        }
    }

    /// Whether the number of bytes put of a segment stays below 2^64 with an event.
    pub fn fits(&self, event: &Event) -> bool
        ensures { IsTrue result ↔ CountsFit self.now (board_event event.now) }
    {
        match *event {
            Event::Put(worker, bytes) => self.fits_put(worker, bytes.len()),
            Event::Pass(count) => self.fits_pass(count),
            _ => true,
        }
    }

    fn can_claim(&self, actor: Actor) -> bool
        ensures { IsTrue result ↔ CanClaim self.now actor }
    {
        if self.stopped || self.next as usize >= self.segments.len() {
            return false;
        }
        if actor == Actor::Emitter && self.next != self.cur {
            return false;
        }
        self.is_present(actor) && self.owns_nothing(actor)
    }

    fn can_put(&self, worker: u8, count: usize) -> bool
        ensures { IsTrue result ↔ ((i : ℕ) × CanPut self.now worker count i) }
    {
        if self.stopped || count == 0 {
            return false;
        }
        match index_of(&self.segments, Actor::Worker(worker)) {
            Some(index) => count <= self.capacity - self.segments[index].ring.len(),
            None => false,
        }
    }

    fn can_pass(&self, count: u64) -> bool
        ensures { IsTrue result ↔ CanPass self.now count }
    {
        if self.stopped || self.cur as usize >= self.segments.len() || count == 0 {
            return false;
        }
        is_owned(&self.segments[self.cur as usize], Actor::Emitter)
    }

    fn can_finish(&self, actor: Actor) -> bool
        ensures { IsTrue result ↔ ((i : ℕ) × CanFinish self.now actor i) }
    {
        if self.stopped {
            return false;
        }
        match index_of(&self.segments, actor) {
            Some(_) => true,
            None => false,
        }
    }

    fn can_take(&self, count: u64) -> bool
        ensures { IsTrue result ↔ CanTake self.now count }
    {
        if self.stopped || self.cur as usize >= self.segments.len() {
            return false;
        }
        count >= 1 && count <= self.segments[self.cur as usize].ring.len() as u64
    }

    fn can_advance(&self) -> bool
        ensures { IsTrue result ↔ CanAdvance self.now }
    {
        if self.stopped || self.cur as usize >= self.segments.len() {
            return false;
        }
        let segment = &self.segments[self.cur as usize];
        is_good(segment.done) && segment.ring.len() == 0
    }

    fn can_leave(&self, worker: u8) -> bool
        ensures { IsTrue result ↔ CanLeave self.now worker }
    {
        if !self.is_present(Actor::Worker(worker)) {
            return false;
        }
        self.stopped
            || self.next as usize == self.segments.len() && self.owns_nothing(Actor::Worker(worker))
    }

    fn is_present(&self, actor: Actor) -> bool
        ensures { IsTrue result ↔ IsPresent self.now actor }
    {
        match actor {
            Actor::Emitter => true,
            Actor::Worker(worker) => match self.left.get(worker as usize) {
                Some(left) => !*left,
                None => false,
            },
        }
    }

    fn owns_nothing(&self, actor: Actor) -> bool
        ensures { IsTrue result ↔ OwnsNothing self.now actor }
    {
        match index_of(&self.segments, actor) {
            Some(_) => false,
            None => true,
        }
    }

    fn fits_put(&self, worker: u8, count: usize) -> bool
        ensures { IsTrue result ↔ ((i : ℕ) → Owns self.now (Worker worker) i
            → (segment_at self.now i).put + count < count_limit) }
    {
        match index_of(&self.segments, Actor::Worker(worker)) {
            Some(index) => count as u64 <= u64::MAX - self.segments[index].put,
            None => true,
        }
    }

    fn fits_pass(&self, count: u64) -> bool
        ensures { IsTrue result ↔ ((segment_at self.now self.now.cur).put + count < count_limit) }
    {
        if self.cur as usize >= self.segments.len() {
            return true;
        }
        count <= u64::MAX - self.segments[self.cur as usize].put
    }
}
