// What a release records.
use crate::record::{Key, Reply, Stop};

/// What a call asks: its key, and a put's blob.
#[derive(Drop)]
pub enum Ask {
    Put(Key, Vec<u8>),
    Find(Key),
    Remove(Key),
}

/// What a hold counts of a store.
#[derive(Clone, Copy)]
pub struct Counts {
    /// How many entries the journal has.
    pub entries: u64,
    /// How often the keeper has failed.
    pub faults: u64,
}

/// A call, its answer, and the counts that it found and left.
#[derive(Drop)]
pub struct Note {
    /// The caller's number.
    pub caller: u32,
    pub ask: Ask,
    pub answer: Result<Reply, Stop>,
    pub found: Counts,
    pub left: Counts,
}
