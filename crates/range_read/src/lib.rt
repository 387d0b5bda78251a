//! Containers that keep the places of their segments, and ranges of a file that are read from them (this project's
//! own; docs/FORMAT.md, docs/RANGES.md).
//!
//!     index   container --segments decoded, in at most 16 lanes--> lengths --> places --> container of version 5
//!
//!     range   from .. to --places--> the segments with a place in it, a window on their bytes, and the parts of header
//!             and trailer: a portion --play, with a crew for these segments alone--> sink
//!
//!     alone   both on the calling thread, segment after segment: nothing waits
//!
//! Which segments a range needs, and what of them goes into it, is found by `byte_window`. How a portion is written:
//! `lepton_decode`. What a crew does: `segment_crew`.
#![tactic(auto)]

mod alone;
mod bounds;
mod error;
mod indexing;
mod lanes;
mod measure;
mod one_scan;
mod portion;
mod reading;
mod ready;
mod tasks;

pub use alone::{ReadyRangeAlone, prepare_range_alone, run_range_alone};
pub use error::{IndexError, RangeError};
pub use indexing::{index, index_alone};
pub use reading::{Ranged, run_range};
pub use ready::{ReadyRange, prepare_range};
