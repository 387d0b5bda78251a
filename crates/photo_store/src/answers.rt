// What the calls answer. Each number is the journal's length after the call.
use crate::ticket::Ticket;
use blob_store::Key;

/// What a put answers: the file's key, and the journal's length after the call.
#[derive(Clone, Copy, Debug, PartialEq, Eq)]
pub enum Put {
    /// The key had no file, and has this one from now on.
    Stored(Key, u64),
    /// The key had this very file.
    Held(Key, u64),
}

/// What a removal answers: the journal's length after the call.
#[derive(Clone, Copy, Debug, PartialEq, Eq)]
pub enum Remove {
    /// The key had a file, and has none from now on.
    Removed(u64),
    /// The key had no file.
    Missing(u64),
}

/// What a find answers: a ticket for the key's file, and the journal's length after the call.
#[derive(Drop)]
pub enum Find {
    /// The key has a file.
    Found(Ticket, u64),
    /// The key has no file.
    Missing(u64),
}
