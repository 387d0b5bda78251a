//! The container of a file: its fields, and its parts (this project's own; docs/FORMAT.md has it by offset).
//!
//!     LPSG | version | front | each scan's fields | each scan's pad list and header | trailer | all streams
//!
//! | version | front | a scan's fields |
//! |---|---|---|
//! | 1 | | pad, K, lengths of header and trailer, K records |
//! | 2 | | these, and the length of the pad list before the records |
//! | 3 | | as 2, and the chunk before the records |
//! | 4 | n, the trailer's length | pad, K, lengths of header and pad list, K records |
//! | 5 | | as 2, and the place of the scan's end before the records, which have places |
//!
//! A container of version 4 has n scans, 2 to 4, the others one. A record has what a segment starts from and the length
//! of its stream. `Version::layout` has the table. A file may have a container in each of versions 1, 2 and 5; in one
//! version and with one number of segments it has one spelling: what can be said in one way only is checked. Every
//! check that fails has a refusal of its own. Not handled here: what a stream stands for (see `container_spec`).
#![tactic(auto)]

mod checks;
mod chunk;
mod converting;
mod error;
mod fields;
mod files;
mod headers;
mod laws;
mod migrating;
mod pad_lists;
mod parts;
mod reading;
mod records;
mod refusal;
mod slices;
mod starts;
mod version;
mod view;
mod writing;

pub use chunk::{Chunk, rows_of};
pub use converting::write_placed;
pub use error::ReadError;
pub use files::FileView;
pub use laws::{
    containers_have_one_scan_or_several, containers_have_one_spelling, rows_of_containers,
    rows_of_scans_containers,
};
pub use migrating::migrate;
pub use parts::Parts;
pub use reading::{read_box, read_container, read_container_of, segments_named};
pub use refusal::{BoxRefusal, Migrate};
pub use version::{Layout, Version};
pub use view::BoxView;
pub use writing::{write_box, write_container, write_front};
