// Why a decode fails.
use handover::StreamFault;
use thiserror::Error;

/// Why a decode failed.
#[derive(Clone, Copy, Debug, PartialEq, Eq, Error)]
pub enum DecodeError {
    /// The sink failed after `written` bytes.
    #[error("WriteFault")]
    WriteFault { written: u64 },
    /// 40 to 45, 48: the first fault in the order of the segments; the bytes before it are written.
    #[error("Fault")]
    Fault(StreamFault),
    /// 46: the pad bits are spelled in another way than a file's: as 0 if no bit of 0 is padded, by a list if the
    /// padded bits are all the same, or with 0 for an interval that pads none. All bytes are written.
    #[error("PadSpelling")]
    PadSpelling,
    /// 47: a chunk's segments have fewer bytes than it says. Its part of the header is written, and its bytes of
    /// theirs; nothing of the trailer.
    #[error("ChunkShort")]
    ChunkShort,
}
