// The turn of a lock.
ghost use Rattle.std.specs.Prelude.{◌≡◌};
ghost use Rattle.seat_lock.specs.TurnRule.{FitsAmong};
ghost use Rattle.seat_lock.specs.Passes.{IsFor, IsReady, IsSamePass, KnowsSame, view_of, number_of, rings_of};
ghost use Rattle.seat_lock.specs.Holding.{Borrows, IsHolding, pass_of, found_of, value_of};

use crate::held::Held;
use crate::known::Slot;
use crate::lock::{BELL, FREE, Lock, TAKEN, TURN, VALUE};
use crate::pass::Pass;
use crate::rule::Rule;
use crate::steps::Try;
use std::hint::spin_loop;
use std::snapshot::Snapshot;
use std::sync::Wait;
use std::sync::atomic::Ordering::SeqCst;

// How often a thread looks at the turn before it sleeps.
const LOOKS: u32 = 100;

impl<L: Rule> Lock<L> {
    /// Waits for the turn and takes it. The bell's number is noted before each try.
    pub fn hold<'a, R: Wait>(&self, rt: &R, pass: &'a mut Pass<L>) -> Held<'a, L>
        requires own { IsFor self.now pass.old }
        requires ready { IsReady pass.old }
        ensures borrows { Borrows result pass.entry }
        ensures pass { IsSamePass pass.old (pass_of result) }
        ensures knows { KnowsSame pass.old (pass_of result) }
        ensures rings { rings_of (pass_of result) ≡ rings_of pass.old }
        ensures holds { IsHolding result }
        ensures found { value_of result ≡ found_of result }
        ensures fits { FitsAmong L.fits (found_of result) (number_of pass.old) (view_of pass.old) }
    {
        let shared = &self.table.shared;
        for _ in rt.forever() {
            pass.bell = shared.peek(BELL);
            let turn = shared.compare_exchange::<Try<L>>(&mut pass.seat, TURN, FREE, TAKEN);
            if turn == FREE {
                let slot = shared.exchange(&mut pass.seat, VALUE, Slot::Out);
                let Slot::Home(value) = slot else {
                    unreachable!()
                };
                let found = Snapshot::of(&value);
                return Held { pass, found, value };
            }
            self.await_turn(rt);
        }
        unreachable!()
    }

    // Looks at the turn for a while, and then sleeps until a wake if it is still held.
    fn await_turn<R: Wait>(&self, rt: &R) {
        for _ in 0..LOOKS {
            if self.table.shared.peek(TURN) == FREE {
                return;
            }
            spin_loop();
        }
        self.turn_waiters.fetch_add(1, SeqCst);
        self.table.shared.park(rt, TURN, TAKEN as u32);
        self.turn_waiters.fetch_sub(1, SeqCst);
    }
}
