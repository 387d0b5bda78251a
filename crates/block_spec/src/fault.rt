/// Why no block was read.
#[derive(Clone, Copy, Debug, PartialEq, Eq)]
pub enum BlockFault {
    /// The inner count is above 49.
    BlockCount,
    /// The prediction and the residue that was read make no DC.
    DcRange,
}
