// How the stream of a segment ends.
use crate::handover::Handover;
use crate::pads::PadSum;

/// Why a segment's stream is refused, by the numbers of the refusals.
#[derive(Clone, Copy, Debug, PartialEq, Eq)]
pub enum StreamCause {
    /// 40: the count of a block's inner coefficients is above 49.
    BlockCount,
    /// 41: a predicted DC and its residue add up to a DC beyond +-32767.
    DcRange,
    /// 42: a DC differs from the one before by more than 2047.
    DiffRange,
    /// 43: a symbol has no code word.
    NoCode,
    /// 44: the handover `found` at the segment's end differs from the one `kept` for the next segment.
    Seam { found: Handover, kept: Handover },
    /// 45: the stream isn't the one of the bits that were read from it.
    StreamBad,
    /// 48: the segment has `found` bytes, where the container has `kept` places for them.
    PlaceBad { found: u64, kept: u64 },
}

/// A segment whose stream is refused, by its number from 0, and why.
#[derive(Clone, Copy, Debug, PartialEq, Eq)]
pub struct StreamFault {
    pub segment: u8,
    pub cause: StreamCause,
}

/// How a segment ends: complete, and what its intervals were padded with, or refused.
#[derive(Clone, Copy, Debug, PartialEq, Eq)]
pub enum Outcome {
    Good { pads: PadSum },
    Bad(StreamFault),
}
