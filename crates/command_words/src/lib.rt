//! The program's arguments: which command they mean, by clap.
//!
//!     lepton encode [--segments N]    N from 1 to 64; default 8
//!     lepton decode [--workers N]     N from 0 to 16; default 4
//!     lepton migrate
//!     lepton chunk [--index N] [--size N] [--segments N]
//!                                     the index from 0 to 4294967295, default 0; the size from 1 to 67108864,
//!                                     default 4194304; segments from 1 to 64, default 8
//!     lepton index
//!     lepton range --from N --to N [--workers N]
//!                                     both places from 0 to 1099511627775, required; workers from 0 to 16, default 4
//!     lepton sample --seed N --columns N --rows N
//!                                     the seed from 0 to 4294967295, columns and rows from 1 to 256; all required
//!
//!     arguments --clap--> matches --> Command::Encode { segments }
//!                                     Command::Decode { workers }
//!                                     Command::Migrate
//!                                     Command::Chunk { index, size, segments }
//!                                     Command::Index
//!                                     Command::Range { from, to, workers }
//!                                     Command::Sample { seed, columns, rows }
//!
//! `Means` in `specs/` defines what arguments mean, in clap's own terms. The first argument is the program's name, and
//! isn't read. `command_of` refuses whatever clap refuses, a call for help too, unless memory is the cause.
#![tactic(auto)]

mod command;
mod laws;
mod words;

pub use command::{Command, WordsError, command_of};
pub use laws::{numbers_are_in_range, one_command, rows_of_words};
