// Calls, their replies, and a journal's entries.
use allocation::NoMemory;

/// What a blob is stored under.
pub type Key = [u8; 32];

/// The calls that a journal has entries of.
#[derive(Clone, Copy, Debug, PartialEq, Eq)]
pub enum Call {
    Put,
    Find,
    Remove,
}

/// The reply to a call. Each blob has a number, from 0 in the order in which they were stored.
#[derive(Clone, Copy, Debug, PartialEq, Eq)]
pub enum Reply {
    /// To a put: the key had no blob, and now has the one with this number, which is new.
    Stored(u32),
    /// To a put: the key has this very blob, with this number.
    Held(u32),
    /// To a find: the key has the blob with this number.
    Found(u32),
    /// To a find or a removal: the key has no blob.
    Missing,
    /// To a removal: the key had a blob, and now has none.
    Removed,
}

/// An entry of the journal: a call that got its reply.
#[derive(Clone, Copy)]
pub struct Record {
    /// The caller's number.
    pub caller: u32,
    pub call: Call,
    pub key: Key,
    pub reply: Reply,
}

/// Why a call got no reply. Journal, map and blobs are then as before.
#[derive(Clone, Copy, Debug, PartialEq, Eq)]
pub enum Stop {
    /// The journal has as many entries as it may.
    Full,
    /// Of a put: the key has another blob.
    Clash,
    /// The keeper failed, and counted it if its count wasn't at 2^64 - 1.
    KeeperFault,
    /// Out of memory.
    NoMemory(NoMemory),
}

/// The answer to a find: the key's blob with its number, or nothing if the key has no blob.
pub type Sought = Result<Option<(u32, Vec<u8>)>, Stop>;
