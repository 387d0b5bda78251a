//! A store of photos under the SHA-256 of their bytes, which callers share, each in a thread of its own
//! (docs/STORE.md).
//!
//!     put     file --encode--> blob, file --sha2--> key     | one hold of the lock: the key's blob, the call's entry
//!     find    one hold of the lock: the key's blob          | ticket --show--> file
//!
//! Encoding and showing hold no lock. What is under it, and what a caller knows after a call, is `blob_store`'s; what a
//! blob is, `photo_blob`'s.
#![tactic(auto)]

mod answers;
mod laws;
mod make;
mod store;
mod ticket;

pub use answers::{Find, Put, Remove};
pub use laws::a_journal_is_a_run_of_files;
pub use make::key_of;
pub use store::{Caller, PhotoForm, Store};
pub use ticket::{Ticket, show};
