// Making a lock, splitting off its passes, and closing it.
ghost use Rattle.std.specs.Prelude.{◌≡◌, ◌<◌, ◌+◌, IfOk, [], ◌∷◌};
ghost use Rattle.seat_lock.specs.Passes.{IsFor, IsReady, IsFirst, IsSamePass, HasSameHolds, IsNewPass, view_of, splits_of, rings_of};

use crate::known::Slot;
use crate::lock::{FREE, Lock, VALUE};
use crate::pass::Pass;
use crate::rule::Rule;
use crate::steps::Part;
use allocation::{NoMemory, new_table, push};
use std::alloc::Global;
use std::sync::atomic::AtomicU64;

impl<L: Rule> Lock<L> {
    /// A lock over a value, and its first pass, with a view that the value fits. `seats` is how many passes there will
    /// be, and how many threads the bell wakes.
    pub fn new(
        alloc: Global,
        value: L::Value,
        view: L::View,
        seats: u32,
    ) -> Result<(Lock<L>, Pass<L>), NoMemory>
        requires seats { 0 < seats }
        requires fits { L.fits value (view ∷ []) }
        ensures first { IfOk result (λ made. IsNewPass made.0 made.1 0 view) }
    {
        let mut slots = Vec::new(alloc);
        push(&mut slots, Slot::Home(value))?;
        let (table, seat) = new_table(alloc, &[FREE, 0], slots, &view)?;
        let lock = Lock {
            table,
            seats,
            turn_waiters: AtomicU64::new(0),
            bell_waiters: AtomicU64::new(0),
        };
        Ok((lock, Pass { seat, bell: 0 }))
    }

    /// Splits a pass off from the first one.
    pub fn split(&self, pass: &mut Pass<L>) -> Pass<L>
        requires own { IsFor self.now pass.old }
        requires first { IsFirst pass.old }
        requires ready { IsReady pass.old }
        requires allowed { L.may_split (view_of pass.old) }
        ensures pass { IsSamePass pass.old pass.new }
        ensures ready { IsReady pass.new }
        ensures view { view_of pass.new ≡ L.left (view_of pass.old) }
        ensures counted { splits_of pass.new ≡ splits_of pass.old + 1 }
        ensures holds { HasSameHolds pass.old pass.new }
        ensures rings { rings_of pass.new ≡ rings_of pass.old }
        ensures given { IsNewPass self.now result (splits_of pass.new)
            (L.right (view_of pass.old)) }
    {
        let seat = self.table.shared.split_seat::<Part<L>>(&mut pass.seat);
        Pass {
            seat,
            bell: pass.bell,
        }
    }

    /// Gives the value back, by the first pass, if no other was split off.
    pub fn close(self, pass: Pass<L>) -> L::Value
        requires own { IsFor self pass }
        requires first { IsFirst pass }
        requires alone { splits_of pass ≡ 0 }
        requires ready { IsReady pass }
        ensures fits { L.fits result (view_of pass ∷ []) }
    {
        let Lock { table, .. } = self;
        let Pass { seat, bell: _ } = pass;
        let mut closed = table.close_with(seat);
        let slot = closed.take(VALUE);
        closed.free();
        let Slot::Home(value) = slot else {
            unreachable!()
        };
        value
    }
}
