// What an emitter returns.
use handover::{ScanPads, StreamFault};

/// All segments were written, as far as they go through the window, none with a fault.
#[derive(Clone, Copy, Debug, PartialEq, Eq)]
pub struct Emitted {
    /// How many of their bytes went through the window.
    pub bytes: u64,
    /// How many bytes they have, whatever goes through.
    pub came: u64,
    /// What their intervals were padded with, scan by scan.
    pub pads: ScanPads,
}

/// Why not all segments were written. The board is stopped then.
#[derive(Clone, Copy, Debug, PartialEq, Eq)]
pub enum EmitStop {
    /// The sink failed after `written` of the bytes that go through the window.
    WriteFault { written: u64 },
    /// The first fault in the order of the segments; what goes through of the bytes before it is written.
    Fault(StreamFault),
}
