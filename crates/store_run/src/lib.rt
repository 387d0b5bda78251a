//! A store of photos that answers the records of an input (docs/STORE.md, Records).
//!
//!     source --next_call--> call --answer--> reply --> sink, before the next record is read
//!
//! The store is `photo_store`'s, with one caller. Not handled here: the program's streams (see `lepton_store`).
#![tactic(auto)]

mod answers;
mod calls;
mod ending;
mod laws;
mod reading;
mod run;

pub use ending::Ending;
pub use laws::{a_run_ends_as_its_input_says, an_input_has_one_reading};
pub use run::{MOST_RECORDS, run_store};
