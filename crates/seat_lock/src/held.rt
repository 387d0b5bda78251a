// A hold of a lock, up to its release.
ghost use Rattle.std.specs.Prelude.{◌≡◌, ◌+◌, Some, []};
ghost use Rattle.std.specs.Borrow.{sem, Lends};
ghost use Rattle.seat_lock.specs.Passes.{IsFor, IsReady, IsSamePass, view_of, holds_of, last_of, splits_of, rings_of};
ghost use Rattle.seat_lock.specs.Holding.{IsHolding, Refits, pass_of, found_of, value_of, view_after};

use crate::known::Slot;
use crate::lock::{FREE, Lock, TAKEN, TURN, VALUE};
use crate::pass::Pass;
use crate::rule::Rule;
use crate::steps::{Give, Tell};
use std::snapshot::Snapshot;
use std::sync::atomic::Ordering::SeqCst;

/// A hold of a lock, which has the value. It can't be dropped: only `release` ends it.
pub struct Held<'a, L: Rule> {
    pub(crate) pass: &'a mut Pass<L>,
    pub(crate) found: Snapshot<L::Value>,
    pub(crate) value: L::Value,
}

impl<'a, L: Rule> Held<'a, L> {
    ghost use Rattle.seat_lock.specs.contracts.held.Held.{the_row};
    ghost use mir.Syntax.{named};
    ghost use Rattle.seat_lock.specs.Holding.{with_value};

    /// The value, to be read and changed. The hold has what was written to it.
    pub fn value(&mut self) -> &mut L::Value
        ensures* writes_back { sem 𝓛 (Lends (the_row (record { mir = named 1; lft = [] })
            L.row L.View.row L.Value.row L.Entry.row)
            L.Value.row self.entry result (with_value self.old)) }
        ensures value { result.now ≡ value_of self.old }
    {
        &mut self.value
    }

    /// Changes the pass's view by kind, amount, entry and the value found, gives the value and the turn back, and wakes
    /// a thread that waits for the turn. Drops the entry after all that. `lock` is the lock that is held.
    pub fn release(self, lock: &Lock<L>, kind: u64, amount: u64, entry: L::Entry)
        requires own { IsFor lock.now (pass_of self) }
        requires holds { IsHolding self }
        requires tells { L.tells (view_of (pass_of self)) kind amount entry
            (found_of self) (value_of self) }
        requires keeps { Refits L.fits self (view_after L.after self kind amount entry) }
        ensures pass { IsSamePass (pass_of self.entry) self.exit.0.now }
        ensures ready { IsReady self.exit.0.now }
        ensures view { view_of self.exit.0.now
            ≡ view_after L.after self.entry kind amount entry }
        ensures holds { holds_of self.exit.0.now ≡ holds_of (pass_of self.entry) + 1 }
        ensures last { last_of self.exit.0.now ≡ Some (kind, amount, entry) }
        ensures splits { splits_of self.exit.0.now ≡ splits_of (pass_of self.entry) }
        ensures rings { rings_of self.exit.0.now ≡ rings_of (pass_of self.entry) }
    {
        let Held {
            pass,
            found: _,
            value,
        } = self;
        let shared = &lock.table.shared;
        let note = Slot::Note(kind, amount, entry);
        let slot = shared.exchange(&mut pass.seat, VALUE, note);
        let Slot::Out = slot else { unreachable!() };
        shared.store::<Tell<L>>(&mut pass.seat, TURN, TAKEN);
        let slot = shared.exchange(&mut pass.seat, VALUE, Slot::Home(value));
        let Slot::Note(_, _, told) = slot else {
            unreachable!()
        };
        shared.store::<Give>(&mut pass.seat, TURN, FREE);
        if lock.turn_waiters.load(SeqCst) > 0 {
            shared.wake_one(TURN);
        }
        drop(told);
    }
}
