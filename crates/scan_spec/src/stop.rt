// Why a block has no bits.

/// Why a block has no bits: the cause that comes first in writing order.
#[derive(Clone, Copy, Debug, PartialEq, Eq)]
pub enum WriteStop {
    /// A table has no code word for a symbol that is due.
    NoCode,
    /// A DC differs from the one before by more than 2047 (ITU-T T.81, Table F.1).
    DiffRange,
}
