// How large a picture is.
ghost use Rattle.std.specs.Prelude.{◌≡◌};
ghost use Rattle.sample_jpeg.specs.SampleHeader.{extent_of};

/// Whether a picture has restart intervals, of one row of MCUs each, and how many blocks each of its components has
/// across and down, which are its MCUs.
#[derive(Clone, Copy)]
pub(crate) struct Extent {
    pub(crate) restarts: bool,
    pub(crate) columns: u16,
    pub(crate) rows: u16,
}

impl Extent {
    /// Pictures of odd seeds have restarts.
    pub(crate) fn of(seed: u32, columns: u16, rows: u16) -> Extent
        ensures { result ≡ extent_of seed columns rows }
    {
        Extent {
            restarts: seed % 2 == 1,
            columns,
            rows,
        }
    }
}
