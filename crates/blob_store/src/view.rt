// What callers know.
use crate::record::Record;
use std::collections::LinkedList;

/// What a caller knows. The program makes one value of it, for the first caller; the others are data of the proof.
#[derive(Drop)]
pub struct View {
    /// The journal, up to its last call.
    pub seen: LinkedList<Record>,
    /// The entries of its own calls.
    pub mine: LinkedList<Record>,
    /// The keeper's blobs, up to its last call.
    pub blobs: LinkedList<LinkedList<u8>>,
    /// How often the keeper had failed at its last call.
    pub faults: u64,
    /// How many entries the journal may have.
    pub limit: u32,
}
