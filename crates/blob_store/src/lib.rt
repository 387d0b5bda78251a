//! A store of blobs under keys of 32 bytes, which callers share, each in a thread of its own.
//!
//!     caller --put, find, remove--> one hold of the store's lock
//!                                     |  full: nothing changes
//!                                   map: key -> number of its blob, if it has one
//!                                     |
//!                                   keeper: blobs by number, appended and read
//!                                     |  a fault, out of memory, a clash: nothing changes
//!                                   journal: one entry more, with the reply
//!
//! The journal orders the calls of all callers: each reply is that of a store of one thread that had made the replies
//! before it. A caller knows the journal and the blobs up to its last call, and all entries of its own. The lock is
//! `seat_lock`'s. Not handled here: what a blob is, and which blob suits which key (see `Form`).
#![tactic(auto)]

mod caller;
mod holds;
mod keeper;
mod keepers;
mod laws;
mod note;
mod record;
mod rule;
mod shelf;
mod view;

pub use caller::{BlobCaller, BlobStore};
pub use keeper::{Keep, Keeper};
pub use keepers::{FakeKeeper, VecKeeper};
pub use laws::{callers_share_one_journal, what_a_key_has_was_stored_last};
pub use note::{Ask, Counts, Note};
pub use record::{Call, Key, Record, Reply, Sought, Stop};
pub use rule::{Form, StoreRule};
pub use shelf::Shelf;
pub use view::View;
