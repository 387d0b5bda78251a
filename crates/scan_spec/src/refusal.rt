// Why a scan is refused.

/// Why a scan is refused: the item that is due isn't there, or the last one can't be there. Places are offsets of
/// bytes from 0.
#[derive(Clone, Copy, Debug, PartialEq, Eq)]
pub enum ScanRefusal {
    /// The bytes end where a bit or a marker is due.
    ScanCut { place: usize },
    /// Sixteen bits that are no code word.
    CodeBad { place: usize },
    /// A symbol that no baseline block has.
    SymbolBad { place: usize },
    /// Coefficients past the last one of a block.
    RunPast { place: usize },
    /// Sixteen zeros before the end of a block.
    LooseZeros { place: usize },
    /// A DC beyond 32767.
    DcRange { place: usize },
    /// A marker where a bit is due.
    MarkerInScan { place: usize },
    /// Another byte or marker than the restart marker that is due.
    RestartBad { place: usize },
    /// Pad bits of one interval that differ.
    MixedPad { place: usize },
}
