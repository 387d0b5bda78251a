// The lock itself.
ghost use Rattle.std.specs.Prelude.{◌≡◌};

use crate::known::{Known, Slot};
use crate::rule::Rule;
use crate::steps::TurnLaw;
use atomic_table::Table;
use std::alloc::Global;
use std::sync::atomic::AtomicU64;

// The words of the table, and its slot.
pub(crate) const TURN: usize = 0;

pub(crate) const BELL: usize = 1;

pub(crate) const VALUE: usize = 0;

// The turn's numbers.
pub(crate) const FREE: u64 = 0;

pub(crate) const TAKEN: u64 = 1;

/// A lock. Whenever its turn is free, its value fits the views of all its passes (`specs/TurnRule.antt`).
#[derive(Drop)]
pub struct Lock<L: Rule> {
    pub(crate) table: Table<
        Slot<L::Value, L::Entry>,
        Known<L::View, L::Value, L::Entry>,
        L::View,
        TurnLaw<L>,
        Global,
    >,
    pub(crate) seats: u32,
    // How many threads are about to sleep until the turn is given, or until the bell rings. A thread counts itself and
    // then looks at the word; one that changes the word then looks at the count. So one of the two sees the other, and
    // a wake, which is a system call, is left out if nobody sleeps.
    pub(crate) turn_waiters: AtomicU64,
    pub(crate) bell_waiters: AtomicU64,
    ghost words: { table.shared.table_id.words ≡ 2 },
    ghost slots: { table.shared.table_id.slots ≡ 1 },
}
