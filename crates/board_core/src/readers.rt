// What is read of a board.
ghost use Rattle.std.specs.Prelude.{◌≡◌, ◌≢◌, ◌++◌, ℕ, ◌+◌, ◌<◌, ◌↔◌, IsTrue, MatchOption, Some, false, length, min, take, drop, slice_get};
ghost use Rattle.board_core.specs.BoardStates.{segment_at, IsEnded, OwnsNothing, Owns};

use crate::actor::Actor;
use crate::board::Core;
use crate::segment::index_of;
use handover::Outcome;

impl Core {
    /// Whether all workers left, and all segments are emitted or the board was stopped.
    pub fn ended(&self) -> bool
        ensures { IsTrue result ↔ IsEnded self.now }
    {
        if !all_left(&self.left) {
            return false;
        }
        self.stopped || self.cur as usize == self.segments.len()
    }

    /// The first segment that nobody has claimed; the number of segments, once all are claimed.
    pub fn next(&self) -> u8
        ensures { result ≡ self.now.next }
    {
        self.next
    }

    /// The segment that is emitted; the number of segments, once all are emitted.
    pub fn cur(&self) -> u8
        ensures { result ≡ self.now.cur }
    {
        self.cur
    }

    /// How many segments there are.
    pub fn count(&self) -> u8
        ensures { result ≡ length self.now.segments }
    {
        self.segments.len() as u8
    }

    /// How many workers there are.
    pub fn workers(&self) -> usize
        ensures { result ≡ length self.now.left }
    {
        self.left.len()
    }

    /// Whether the board was stopped.
    pub fn stopped(&self) -> bool
        ensures { result ≡ self.now.stopped }
    {
        self.stopped
    }

    /// Whether a worker left.
    pub fn left(&self, worker: u8) -> bool
        requires { worker < length self.now.left }
        ensures { slice_get self.now.left worker ≡ Some result }
    {
        self.left[worker as usize]
    }

    /// The segment that an actor owns.
    pub fn segment_of(&self, actor: Actor) -> Option<u8>
        ensures { MatchOption result
            (OwnsNothing self.now actor)
            (λ i. (i < length self.now.segments) × Owns self.now actor i) }
    {
        match index_of(&self.segments, actor) {
            Some(index) => Some(index as u8),
            None => None,
        }
    }

    /// Who owns a segment.
    pub fn owner(&self, i: u8) -> Option<Actor>
        requires { i < length self.now.segments }
        ensures { result ≡ (segment_at self.now i).owner }
    {
        self.segments[i as usize].owner
    }

    /// How many bytes of a segment were put or passed.
    pub fn put_of(&self, i: u8) -> u64
        requires { i < length self.now.segments }
        ensures { result ≡ (segment_at self.now i).put }
    {
        self.segments[i as usize].put
    }

    /// How many bytes of a segment the emitter took or passed.
    pub fn taken_of(&self, i: u8) -> u64
        requires { i < length self.now.segments }
        ensures { result ≡ (segment_at self.now i).taken }
    {
        self.segments[i as usize].taken
    }

    /// How many bytes of a segment wait in its ring.
    pub fn waiting(&self, i: u8) -> usize
        requires { i < length self.now.segments }
        ensures { result ≡ length (segment_at self.now i).ring }
    {
        self.segments[i as usize].ring.len()
    }

    /// How many more bytes a segment's ring has room for.
    pub fn free(&self, i: u8) -> usize
        requires { i < length self.now.segments }
        ensures { result + length (segment_at self.now i).ring ≡ self.now.capacity }
    {
        self.capacity - self.segments[i as usize].ring.len()
    }

    /// How many bytes a segment's ring has room for when it is empty.
    pub fn ring_capacity(&self, i: u8) -> usize
        requires { i < length self.now.segments }
        ensures { result ≡ self.now.capacity }
    {
        self.segments[i as usize].ring.capacity()
    }

    /// How a segment ended, if it did.
    pub fn done(&self, i: u8) -> Option<Outcome>
        requires { i < length self.now.segments }
        ensures { result ≡ (segment_at self.now i).done }
    {
        self.segments[i as usize].done
    }

    /// Copies the first bytes of the ring of the segment that is emitted, as many as `buf` has room for, and returns
    /// how many they are.
    pub fn front(&self, buf: &mut [u8]) -> usize
        requires { self.now.cur < length self.now.segments }
        ensures count { result ≡ min (length buf.old)
            (length (segment_at self.now self.now.cur).ring) }
        ensures copied { buf.new ≡ take result (segment_at self.now self.now.cur).ring
            ++ drop result buf.old }
    {
        self.segments[self.cur as usize].ring.copy_front(buf)
    }
}

fn all_left(flags: &[bool]) -> bool
    ensures { IsTrue result ↔ ((w : ℕ) → slice_get flags.now w ≢ Some false) }
{
    for flag in flags {
        if !*flag {
            return false;
        }
    }
    true
}
