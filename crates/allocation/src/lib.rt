//! What allocates memory, with an error that nothing else can make.
//!
//!     a call of std or of a library --no memory--> its error --> NoMemory, made here alone
//!
//! `NoMemory` has a private field, so it comes only from a call of this crate that got no memory. Each call is that of
//! std, of `circular_buffer`, of `atomic_table` or of `clap` whose name it has, with the clauses of it that callers
//! need. A value that such a call gives back with its error is dropped. No call runs code of its caller whose
//! `AllocError` it could hand on.
//!
//! A call that takes a length requires that it asks for at most 256 GiB by it (`most_at_once`), so that no body has the
//! error by asking for what no machine has. The others ask for memory in proportion to what they are given: a list that
//! is there, an item, a text or words. Items of no size are refused (`sized`): no list holds 2^63 of them, and fewer
//! take no memory.
//!
//! Not handled here: what allocates without this crate, and so can't answer `NoMemory`.
#![tactic(auto)]

mod lists;
mod maps;
mod no_memory;
mod ring;
mod table;
mod threads;
mod words;

pub use lists::{
    extend_from_slice, from_elem, from_slice, insert, push, resize, string_from_str,
    string_from_utf8_lossy, with_capacity,
};
pub use maps::map_insert;
pub use no_memory::NoMemory;
pub use ring::ring_with_capacity;
pub use table::new_table;
pub use threads::map_indices;
pub use words::{arg, subcommand, try_get_matches_from};
