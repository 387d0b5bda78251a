// The faults of stuffed bytes.

/// Why no bit can be read.
#[derive(Clone, Copy, Debug, PartialEq, Eq)]
pub enum BitFault {
    /// The bytes end, at `place`, before a unit or within it.
    Cut { place: usize },
    /// At `place` is 0xff, and after it a byte that isn't zero (ITU-T T.81, B.1.1.2).
    MarkerInScan { place: usize },
}
