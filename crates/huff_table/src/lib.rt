//! The code words of Huffman tables (ITU-T T.81, Annex C, F.1.2 and F.2.2.3), to be written and to be read.
//!
//!     counts 1 1 2, values e a t s        the table, as `jpeg_marker` reads it
//!
//!     e      a      t       s             values by rising length
//!     0      10     110     111           their code words: the next of a length is one more, and a longer one has
//!                                         zeros appended
//!     |-------------|------|---|---|      what begins with each of them, among all words of one length
//!
//! `Codes` gives a value's code word, and reads the value of the next word of a scan's bits: a word of at most nine
//! bits by a table, a longer one by where the words of each size end, or bit by bit if fewer than sixteen bits follow.
//! Only `PlanCodes`, the words of all components, has memory of its own.
//! Not handled here: what values mean (see `scan_spec`).
#![tactic(auto)]

mod codes;
mod fault;
mod laws;
mod long_words;
mod plan_codes;
mod short_words;
mod word;

pub use codes::Codes;
pub use fault::CodeFault;
pub use laws::{
    a_fault_is_no_word, a_word_is_read, no_word_begins_another, words_are_values,
    words_of_a_standard_table,
};
pub use plan_codes::{ComponentCodes, PlanCodes};
