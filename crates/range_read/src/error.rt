// Why a container isn't indexed, and why a range of it can't be read.
use allocation::NoMemory;
use box_format::BoxRefusal;
use handover::StreamFault;
use thiserror::Error;

/// Why there is no container with places.
#[derive(Clone, Copy, Debug, PartialEq, Eq, Error)]
pub enum IndexError {
    /// 30 to 38, 53: the bytes are no container of version 1, 2 or 5.
    #[error("Box")]
    Box(BoxRefusal),
    /// 40 to 45, 48: the first fault in the order of the segments.
    #[error("Fault")]
    Fault(StreamFault),
    /// 46: the pad bits are spelled in another way than a file's.
    #[error("PadSpelling")]
    PadSpelling,
    #[error("NoMemory")]
    NoMemory(NoMemory),
}

impl From<NoMemory> for IndexError {
    ghost use Rattle.std.specs.Prelude.{◌≡◌};
    ghost use Rattle.range_read.specs.declared.error.IndexError.TheVariants.{NoMemory};

    ghost from_gives = { λ short error. error ≡ NoMemory short };

    fn from(short: NoMemory) -> Self {
        IndexError::NoMemory(short)
    }
}

/// Why a range can't be read.
#[derive(Clone, Copy, Debug, PartialEq, Eq, Error)]
pub enum RangeError {
    /// 30 to 38, 53: the bytes are no container of version 5.
    #[error("Box")]
    Box(BoxRefusal),
    /// 54: the range ends before it begins, or after the file's end.
    #[error("RangeBad")]
    RangeBad,
    #[error("NoMemory")]
    NoMemory(NoMemory),
}

impl From<NoMemory> for RangeError {
    ghost use Rattle.std.specs.Prelude.{◌≡◌};
    ghost use Rattle.range_read.specs.declared.error.RangeError.TheVariants.{NoMemory};

    ghost from_gives = { λ short error. error ≡ NoMemory short };

    fn from(short: NoMemory) -> Self {
        RangeError::NoMemory(short)
    }
}
