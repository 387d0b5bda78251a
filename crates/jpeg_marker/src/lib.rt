//! The header of a baseline JPEG file (ITU-T T.81, Annex B), up to the coded bytes of its scan.
//!
//!     FF D8 | FF E0 ..      | FF C0 ..  | FF C4 ..            | FF DD ..  | FF DA .. | coded bytes
//!     start | passed unread | the frame | tables, any segment | restarts  | the scan | not looked at
//!
//! `read_header` gives the plan, or the first check that fails and where. It allocates nothing. Not handled
//! here: what the coded bytes mean (see `scan_decode`), and the code words of a table (see `huff_table`).
//!
//! A file may have its components in several scans, each with a header before it:
//!
//!     start | segments, the first scan's | coded bytes | segments, the next scan's | coded bytes | ..
//!
//! `read_first` reads the first header of such a file, and `read_next` each further one. A further header has the
//! frame, the tables and the restart interval of those before it if it has none, and its scan has components that no
//! scan before it had. No scan follows a plan that is the last (`Plan::is_last`).
#![tactic(auto)]

mod component;
mod definitions;
mod frame;
mod grid;
mod header;
mod number;
mod parameters;
mod plan;
mod refusal;
mod scan;
mod scans;
mod segment;
mod table;
mod tables;

pub use component::Component;
pub use header::{
    an_accepted_header_has_a_plan, header_has_one_plan, one_scan_is_the_last, read_first,
    read_header, read_next,
};
pub use plan::Plan;
pub use refusal::HeaderRefusal;
pub use table::RawTable;
