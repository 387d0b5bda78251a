// Why bytes are no container.
use allocation::NoMemory;
use jpeg_marker::HeaderRefusal;

/// Why bytes are no container, by the numbers of the refusals. The checks are made in this order.
#[derive(Clone, Copy, Debug, PartialEq, Eq)]
pub enum BoxRefusal {
    /// 30: the bytes don't begin with `LPSG`.
    BoxMagic,
    /// 31: the version is none that is read: `decode` reads versions 1 to 5, `migrate` versions 1 and 2.
    BoxVersion,
    /// 32: the bytes end within the fields, or before the end that these name.
    BoxCut,
    /// 33: a header's bytes are refused as the header of a file's scan after those before it.
    BoxHeader(HeaderRefusal),
    /// 38: a header ends before its length, at this place in it.
    HeaderLong { place: usize },
    /// 34: the version can't have this number of scans; or their headers aren't those of all scans of a file; or a scan
    /// has no segment for its MCU rows, or more than the rows; or there are more than the version can have.
    BoxSegments,
    /// 39: the chunk's rows are in the wrong order or none of the header's; or its length has no room for its parts of
    /// header and trailer; or it has other bytes and no row.
    BoxChunk,
    /// 35: the version has no such pad byte, or the pad list isn't the one that the byte asks for: of another length,
    /// or with a bit that isn't 0 after the last interval's.
    BoxPad,
    /// 36: this segment can't start from what its record has.
    HandoverBad { segment: u8 },
    /// 53: the first place isn't the header's length, or a place is below the one before.
    BoxPlaces,
    /// 37: bytes follow the last stream.
    BoxLong,
}

/// Why there is no container of version 2.
#[derive(Clone, Copy, Debug, PartialEq, Eq)]
pub enum Migrate {
    /// 30 to 38: the bytes are no container of version 1 or 2.
    Box(BoxRefusal),
    NoMemory(NoMemory),
}

impl From<NoMemory> for Migrate {
    ghost use Rattle.std.specs.Prelude.{◌≡◌};
    ghost use Rattle.box_format.specs.declared.refusal.Migrate.TheVariants.{NoMemory};

    ghost from_gives = { λ short error. error ≡ NoMemory short };

    fn from(short: NoMemory) -> Self {
        Migrate::NoMemory(short)
    }
}
