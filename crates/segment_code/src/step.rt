// What a step of a decoder comes to.
use handover::{PadSum, StreamFault};

/// What a step came to.
#[derive(Clone, Copy)]
pub enum Step {
    /// MCUs of the segment are left.
    More,
    /// The segment is complete, and what its intervals were padded with.
    Done { pads: PadSum },
    /// The segment's first fault.
    Fault(StreamFault),
}
