// What a call comes to.
use box_format::BoxRefusal;
use handover::StreamFault;
use jpeg_marker::HeaderRefusal;
use scan_spec::ScanRefusal;

/// What a call comes to, with how many bytes it wrote if it wrote some.
#[derive(Clone, Copy)]
pub enum Answer {
    /// The whole answer is written.
    Done { length: u64 },
    /// Nothing is written: the answer is how many bytes there are.
    Counted { wanted: u64 },
    /// 1 to 15: a header is due that isn't accepted.
    Header(HeaderRefusal),
    /// 16 to 24: after a header there is no scan that is accepted.
    Scan(ScanRefusal),
    /// 30 to 39, 53: the bytes are no container.
    Box(BoxRefusal),
    /// 40 to 45, 48: a segment has a fault; these bytes came before it.
    Fault { fault: StreamFault, length: u64 },
    /// 46: the pad bits are spelled in another way than a file's.
    PadSpelling { length: u64 },
    /// 47: a chunk's segments have fewer bytes than it says.
    ChunkShort { length: u64 },
    /// 50: there are more bytes than the limit.
    TooLong,
    /// 51: the file of one scan ends before the chunk.
    NoChunk,
    /// 52: the file has several scans, and chunks are of files of one scan.
    ManyScans,
    /// 54: the range ends before it begins, or after the file's end.
    RangeBad,
    /// A number of segments other than 1 to 64, or a size of 0.
    BadCall,
    /// There is more than the memory has room for: these first bytes are written.
    NoRoom { length: u64 },
    /// There is more than the memory has room for, and nothing is written.
    Larger { wanted: u64 },
    NoMemory,
}
