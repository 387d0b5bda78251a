// What seats know. Only the first seat's is ever made as a value.
use std::snapshot::Snapshot;

/// What the emitter's seat knows.
#[derive(Drop)]
pub struct EmitterView {
    /// How many workers' seats were made so far, and how many there will be.
    pub made: u64,
    pub workers: u64,
    /// How many bytes each ring has room for.
    pub capacity: u64,
    /// The segment that is emitted, and how many of its bytes the emitter took or passed.
    pub cur: u64,
    pub taken: u64,
    /// Whether the segment that is emitted is the emitter's own.
    pub owns: bool,
    /// Whether the emitter stopped the board.
    pub stopped: bool,
}

/// What a worker's seat knows.
#[derive(Drop)]
pub struct WorkerView {
    /// The worker's number, from 0.
    pub number: u64,
    /// The segment that is its own, and how many of its bytes were put.
    pub segment: Option<u64>,
    pub put: u64,
    /// Whether nothing is left to claim, or the board is stopped, as far as the worker knows.
    pub over: bool,
    /// Whether the worker left.
    pub left: bool,
}

/// Whose seat it is, and what it knows.
#[derive(Drop)]
pub enum Role {
    Emits(EmitterView),
    Works(WorkerView),
}

/// The view of a seat: the content, how many segments the seat has claimed, and what its role knows.
#[derive(Drop)]
pub struct View<C> {
    pub content: Snapshot<C>,
    pub claims: u64,
    pub role: Role,
}
