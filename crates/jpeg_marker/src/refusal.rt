// Why a header is refused.
ghost use Rattle.std.specs.Prelude.{◌≡◌};

/// Why a header is refused: the first check that fails. Places are offsets of bytes from 0.
#[derive(Clone, Copy, Debug, PartialEq, Eq)]
pub enum HeaderRefusal {
    /// The first two bytes aren't the start of an image.
    NotJpeg,
    /// The bytes end before the scan's segment does.
    HeaderCut,
    /// No marker of a header is at the place where one is due.
    MarkerBad { place: usize },
    /// A marker of another process than baseline.
    NotBaseline { code: u8 },
    /// The length at the place isn't one that the segment can have.
    LengthBad { place: usize },
    /// A second frame.
    FrameTwice,
    /// Samples of other than 8 bits.
    PrecisionBad,
    /// No lines, or no samples in a line.
    SizeZero,
    /// No components or too many, two with one identifier, or a sampling factor out of its range.
    ComponentsBad,
    /// The bytes at the place are no table.
    TableBad { place: usize },
    /// A scan before the frame.
    NoFrame,
    /// The scan of a file of one scan leaves components out, or a scan has a component that a scan before had.
    MultiScan,
    /// The scan's parameters aren't those of a sequential scan of some of the frame's components, in its order.
    ScanParams,
    /// A table that the scan names isn't there.
    NoTable,
    /// More than 16,777,216 blocks, those of the scans before among them.
    TooManyBlocks,
}

impl HeaderRefusal {
    ghost use Rattle.jpeg_marker.specs.HeaderRefusals.{number_of};

    /// The number that stands for the refusal, from 1 to 15.
    pub fn number(&self) -> u8
        ensures { result ≡ number_of self.now }
    {
        match self {
            HeaderRefusal::NotJpeg => 1,
            HeaderRefusal::HeaderCut => 2,
            HeaderRefusal::MarkerBad { .. } => 3,
            HeaderRefusal::NotBaseline { .. } => 4,
            HeaderRefusal::LengthBad { .. } => 5,
            HeaderRefusal::FrameTwice => 6,
            HeaderRefusal::PrecisionBad => 7,
            HeaderRefusal::SizeZero => 8,
            HeaderRefusal::ComponentsBad => 9,
            HeaderRefusal::TableBad { .. } => 10,
            HeaderRefusal::NoFrame => 11,
            HeaderRefusal::MultiScan => 12,
            HeaderRefusal::ScanParams => 13,
            HeaderRefusal::NoTable => 14,
            HeaderRefusal::TooManyBlocks => 15,
        }
    }
}
