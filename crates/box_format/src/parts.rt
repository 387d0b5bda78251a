// What a container is written from.
use crate::chunk::Chunk;
use crate::version::Version;
use handover::Handover;
use scan_spec::Pads;

/// What a scan of a container is written from. Clauses see `BoxParts`.
#[derive(Clone, Copy)]
pub struct Parts<'a> {
    /// The version of the container.
    pub version: Version,
    /// The chunk, if it has a chunk of a file.
    pub chunk: Option<Chunk>,
    /// The places in the file, if they are kept: of each segment's first byte, and after them of the scan's end. A
    /// chunk has none.
    pub places: Option<&'a [u64]>,
    /// The bits that fill up the last byte of each restart interval.
    pub pad: Pads<'a>,
    /// The header: the file's bytes from its first one, or from the end of the scan before, up to the scan.
    pub header: &'a [u8],
    /// The file's bytes after its last scan, or the chunk's part of them; of a scan before the last one, none.
    pub trailer: &'a [u8],
    /// What each segment starts from.
    pub handovers: &'a [Handover],
    /// The stream of each segment.
    pub streams: &'a [Vec<u8>],
}
