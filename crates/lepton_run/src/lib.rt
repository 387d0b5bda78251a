//! The top call: arguments, a source, a sink and stderr, and an ending with its status.
//!
//!     arguments --> command --> encode:  source --> bytes --> container --> sink
//!                               decode:  source --> bytes --> file, segment by segment --> sink
//!                               migrate: source --> bytes --> container of version 2 --> sink
//!                               chunk:   source --> bytes --> container of a chunk --> sink
//!                               index:   source --> bytes --> container with places --> sink
//!                               range:   source --> bytes --> a part of the file --> sink
//!                               sample:  number --> file --> container --> file again --> five lines --> sink
//!                                                                            ending --> stderr, status
//!
//! `run` carries the theorem as clauses of its own. The arguments, the container of a file, that of a chunk, the file
//! of a container and the file of a number are crates below. Here are the order of the answers, the statuses and the
//! lines.
#![tactic(auto)]

mod commands;
mod ending;
mod input;
mod laws;
mod line;
mod refusal;
mod refusal_names;
mod sample_command;
mod top;
mod writing;

pub use command_words::Command;
pub use ending::Ending;
pub use laws::{
    chunks_are_decoded_alone, decode_undoes_encode, each_accepted_file_has_a_container,
    migrated_stands_for_the_same, one_answer, one_spelling_a_file, ranges_are_read_alone,
    rows_of_files,
};
pub use refusal::Refusal;
pub use top::{no_memory_for_words, run};
