// Why a chunk isn't cut.
use allocation::NoMemory;
use jpeg_marker::HeaderRefusal;
use lepton_encode::OneScanError;
use scan_spec::ScanRefusal;
use segment_code::ScanError;
use thiserror::Error;

/// Why a chunk isn't cut.
#[derive(Clone, Copy, Debug, PartialEq, Eq, Error)]
pub enum CutError {
    /// 1 to 15: a header is due that isn't accepted.
    #[error("Header")]
    Header(HeaderRefusal),
    /// 16 to 24: after a header there is no scan that is accepted.
    #[error("Scan")]
    Scan(ScanRefusal),
    /// 52: the file has several scans, and all are accepted.
    #[error("ManyScans")]
    ManyScans,
    /// 51: the file of one scan ends before the chunk.
    #[error("NoChunk")]
    NoChunk,
    #[error("NoMemory")]
    NoMemory(NoMemory),
}

impl From<NoMemory> for CutError {
    ghost use Rattle.std.specs.Prelude.{◌≡◌};
    ghost use Rattle.chunk_cut.specs.declared.error.CutError.TheVariants.{NoMemory};

    ghost from_gives = { λ short error. error ≡ NoMemory short };

    fn from(short: NoMemory) -> Self {
        CutError::NoMemory(short)
    }
}

impl From<OneScanError> for CutError {
    ghost use Rattle.chunk_cut.specs.Errors.{as_cut_error};
    ghost use Rattle.std.specs.Prelude.{◌≡◌};

    ghost from_gives = { λ found error. error ≡ as_cut_error found };

    fn from(found: OneScanError) -> Self {
        match found {
            OneScanError::Header(refusal) => CutError::Header(refusal),
            OneScanError::Scan(refusal) => CutError::Scan(refusal),
            OneScanError::ManyScans => CutError::ManyScans,
            OneScanError::NoMemory(short) => CutError::NoMemory(short),
        }
    }
}

impl From<ScanError> for CutError {
    ghost use Rattle.chunk_cut.specs.Errors.{error_of};
    ghost use Rattle.std.specs.Prelude.{◌≡◌};

    ghost from_gives = { λ found error. error ≡ error_of found };

    fn from(found: ScanError) -> Self {
        match found {
            ScanError::Scan(refusal) => CutError::Scan(refusal),
            ScanError::NoMemory(short) => CutError::NoMemory(short),
        }
    }
}
