// Why a file isn't encoded.
use allocation::NoMemory;
use jpeg_marker::HeaderRefusal;
use scan_spec::ScanRefusal;
use segment_code::ScanError;
use thiserror::Error;

/// Why a file isn't encoded.
#[derive(Clone, Copy, Debug, PartialEq, Eq, Error)]
pub enum EncodeError {
    /// 1 to 15: a header is due that isn't accepted.
    #[error("Header")]
    Header(HeaderRefusal),
    /// 16 to 24: after a header there is no scan that is accepted.
    #[error("Scan")]
    Scan(ScanRefusal),
    #[error("NoMemory")]
    NoMemory(NoMemory),
}

impl From<NoMemory> for EncodeError {
    ghost use Rattle.std.specs.Prelude.{◌≡◌};
    ghost use Rattle.lepton_encode.specs.declared.error.EncodeError.TheVariants.{NoMemory};

    ghost from_gives = { λ short error. error ≡ NoMemory short };

    fn from(short: NoMemory) -> Self {
        EncodeError::NoMemory(short)
    }
}

impl From<HeaderRefusal> for EncodeError {
    ghost use Rattle.std.specs.Prelude.{◌≡◌};
    ghost use Rattle.lepton_encode.specs.declared.error.EncodeError.TheVariants.{Header};

    ghost from_gives = { λ refusal error. error ≡ Header refusal };

    fn from(refusal: HeaderRefusal) -> Self {
        EncodeError::Header(refusal)
    }
}

impl From<ScanError> for EncodeError {
    ghost use Rattle.lepton_encode.specs.Errors.{error_of};
    ghost use Rattle.std.specs.Prelude.{◌≡◌};

    ghost from_gives = { λ found error. error ≡ error_of found };

    fn from(found: ScanError) -> Self {
        match found {
            ScanError::Scan(refusal) => EncodeError::Scan(refusal),
            ScanError::NoMemory(short) => EncodeError::NoMemory(short),
        }
    }
}

/// Why a file isn't one of one scan that is accepted.
#[derive(Clone, Copy, Debug, PartialEq, Eq, Error)]
pub enum OneScanError {
    /// 1 to 15: a header is due that isn't accepted.
    #[error("Header")]
    Header(HeaderRefusal),
    /// 16 to 24: after a header there is no scan that is accepted.
    #[error("Scan")]
    Scan(ScanRefusal),
    /// 52: the file has several scans, and all are accepted.
    #[error("ManyScans")]
    ManyScans,
    #[error("NoMemory")]
    NoMemory(NoMemory),
}

impl From<NoMemory> for OneScanError {
    ghost use Rattle.std.specs.Prelude.{◌≡◌};
    ghost use Rattle.lepton_encode.specs.declared.error.OneScanError.TheVariants.{NoMemory};

    ghost from_gives = { λ short error. error ≡ NoMemory short };

    fn from(short: NoMemory) -> Self {
        OneScanError::NoMemory(short)
    }
}

impl From<HeaderRefusal> for OneScanError {
    ghost use Rattle.std.specs.Prelude.{◌≡◌};
    ghost use Rattle.lepton_encode.specs.declared.error.OneScanError.TheVariants.{Header};

    ghost from_gives = { λ refusal error. error ≡ Header refusal };

    fn from(refusal: HeaderRefusal) -> Self {
        OneScanError::Header(refusal)
    }
}

impl From<ScanError> for OneScanError {
    ghost use Rattle.lepton_encode.specs.Errors.{one_scan_error_of};
    ghost use Rattle.std.specs.Prelude.{◌≡◌};

    ghost from_gives = { λ found error. error ≡ one_scan_error_of found };

    fn from(found: ScanError) -> Self {
        match found {
            ScanError::Scan(refusal) => OneScanError::Scan(refusal),
            ScanError::NoMemory(short) => OneScanError::NoMemory(short),
        }
    }
}

impl From<EncodeError> for OneScanError {
    ghost use Rattle.lepton_encode.specs.Errors.{as_one_scan_error};
    ghost use Rattle.std.specs.Prelude.{◌≡◌};

    ghost from_gives = { λ found error. error ≡ as_one_scan_error found };

    fn from(found: EncodeError) -> Self {
        match found {
            EncodeError::Header(cause) => OneScanError::Header(cause),
            EncodeError::Scan(cause) => OneScanError::Scan(cause),
            EncodeError::NoMemory(short) => OneScanError::NoMemory(short),
        }
    }
}
