// What a thread holds a lock with.
use crate::known::{Known, Slot};
use crate::rule::Rule;
use atomic_table::Seat;

/// What a thread holds a lock with. Clauses see of which lock it is, its number, its view, how often it was released,
/// with which kind, amount and entry last, how many passes were split off from it, and how often it raised the bell
/// (`specs/Passes.antt`).
#[derive(Drop)]
pub struct Pass<L: Rule> {
    pub(crate) seat: Seat<Slot<L::Value, L::Entry>, Known<L::View, L::Value, L::Entry>>,
    // The bell's number that was noted last.
    pub(crate) bell: u64,
}
