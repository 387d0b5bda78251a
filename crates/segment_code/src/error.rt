// Why a scan is not read as segments.
use allocation::NoMemory;
use scan_spec::ScanRefusal;

/// Why a scan gives no starts, or no stream of a segment.
#[derive(Clone, Copy, Debug, PartialEq, Eq)]
pub enum ScanError {
    /// 16 to 24: the bytes after the header begin with no scan that is accepted.
    Scan(ScanRefusal),
    NoMemory(NoMemory),
}

impl From<NoMemory> for ScanError {
    ghost use Rattle.std.specs.Prelude.{◌≡◌};
    ghost use Rattle.segment_code.specs.declared.error.ScanError.TheVariants.{NoMemory};

    ghost from_gives = { λ short error. error ≡ NoMemory short };

    fn from(short: NoMemory) -> Self {
        ScanError::NoMemory(short)
    }
}

impl From<ScanRefusal> for ScanError {
    ghost use Rattle.std.specs.Prelude.{◌≡◌};
    ghost use Rattle.segment_code.specs.declared.error.ScanError.TheVariants.{Scan};

    ghost from_gives = { λ refusal error. error ≡ Scan refusal };

    fn from(refusal: ScanRefusal) -> Self {
        ScanError::Scan(refusal)
    }
}
