// The error of a reader of containers.
use crate::refusal::BoxRefusal;
use allocation::NoMemory;
use thiserror::Error;

/// Why a container wasn't read.
#[derive(Clone, Copy, Debug, PartialEq, Eq, Error)]
pub enum ReadError {
    /// 30 to 39, 53: the bytes are no container.
    #[error("Box")]
    Box(BoxRefusal),
    /// Out of memory for the plans.
    #[error("NoMemory")]
    NoMemory(NoMemory),
}

impl From<NoMemory> for ReadError {
    ghost use Rattle.std.specs.Prelude.{◌≡◌};
    ghost use Rattle.box_format.specs.declared.error.ReadError.TheVariants.{NoMemory};

    ghost from_gives = { λ short error. error ≡ NoMemory short };

    fn from(short: NoMemory) -> Self {
        ReadError::NoMemory(short)
    }
}
