// The error.
use std::alloc::AllocError;

/// An allocation failed. Only the calls of this crate make one.
#[derive(Clone, Copy, Debug, PartialEq, Eq)]
pub struct NoMemory(());

/// std's error, which any code can make. There is no way back.
impl From<NoMemory> for AllocError {
    fn from(_: NoMemory) -> Self {
        AllocError
    }
}

impl NoMemory {
    pub(crate) fn new() -> NoMemory {
        NoMemory(())
    }
}
