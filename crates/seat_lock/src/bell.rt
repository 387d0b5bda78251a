// The bell of a lock.
ghost use Rattle.std.specs.Prelude.{◌≡◌, ◌+◌};
ghost use Rattle.seat_lock.specs.Passes.{IsFor, IsReady, IsSamePass, KnowsSame, rings_of};

use crate::lock::{BELL, Lock};
use crate::pass::Pass;
use crate::rule::Rule;
use crate::steps::Ring;
use std::sync::Wait;
use std::sync::atomic::Ordering::SeqCst;

// The low bits of the bell, by which a change is seen.
const LOW_BITS: u64 = 0xffff_ffff;

impl<L: Rule> Lock<L> {
    /// Waits until the bell has rung since the pass's last `hold`. It may also return for no reason.
    pub fn wait<R: Wait>(&self, rt: &R, pass: &mut Pass<L>)
        requires own { IsFor self.now pass.old }
        ensures same { pass.new ≡ pass.old }
    {
        self.bell_waiters.fetch_add(1, SeqCst);
        self.table
            .shared
            .park(rt, BELL, (pass.bell & LOW_BITS) as u32);
        self.bell_waiters.fetch_sub(1, SeqCst);
    }

    /// Raises the bell by one, and wakes as many threads that wait for it as there are seats.
    pub fn ring_bell(&self, pass: &mut Pass<L>)
        requires own { IsFor self.now pass.old }
        ensures pass { IsSamePass pass.old pass.new }
        ensures ready { IsReady pass.old → IsReady pass.new }
        ensures knows { KnowsSame pass.old pass.new }
        ensures rings { rings_of pass.new ≡ rings_of pass.old + 1 }
    {
        self.raise(pass);
        self.wake_seats();
    }

    // Raises the bell by one.
    fn raise(&self, pass: &mut Pass<L>)
        requires own { IsFor self.now pass.old }
        ensures pass { IsSamePass pass.old pass.new }
        ensures ready { IsReady pass.old → IsReady pass.new }
        ensures knows { KnowsSame pass.old pass.new }
        ensures rings { rings_of pass.new ≡ rings_of pass.old + 1 }
    {
        self.table.shared.fetch_add::<Ring>(&mut pass.seat, BELL, 1);
    }

    // Wakes a thread for each seat, if any waits for the bell.
    fn wake_seats(&self) {
        if self.bell_waiters.load(SeqCst) > 0 {
            for _ in 0..self.seats {
                self.table.shared.wake_one(BELL);
            }
        }
    }
}
