//! Which bytes of a text that comes in pieces go through a window, and which parts of a file have a place in a slice of
//! it (this project's own).
//!
//!     pieces   ..........|.....|............|....
//!     window         [ skip | most           )      what of each piece goes through, whatever the pieces are
//!
//!     file     header ......|part 0 ..|...|part f ..|...|part l ..|...| trailer
//!     places               P 0           P f           P l           P count
//!     slice                                     [ from       to )
//!     window   on parts f to l:             [skip| most        )
//!
//! A window is two numbers. The one on what comes after n bytes is computed from the first, so that no state is kept.
//! Parts f and l are the first and the last with a place in the slice. If each part has one byte for each of its
//! places, a slice is its part of the header, the window on the bytes of parts f to l, and its part of the trailer.
//! Not handled here: which bytes a part has (see `container_spec`).
#![tactic(auto)]

mod laws;
mod parts;
mod window;

pub use laws::{
    parts_are_first_to_last, rows_of_parts, rows_of_windows, slices_are_windows, slices_of_files,
    windows_come_in_pieces,
};
pub use parts::{Places, parts_within, window_within};
pub use window::Window;
