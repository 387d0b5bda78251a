// From zigzag indexes to natural positions.
ghost use Rattle.std.specs.Prelude.{◌≡◌, ◌<◌, IsTrue, IsPermutation, slice_index};
ghost use Rattle.std.specs.List.{range_with_len};
ghost use Rattle.coef_block.specs.Zigzag.{zigzag, is_zigzag};

/// The natural position, from 0 to 63, at each zigzag index (ITU-T T.81, Figure A.6). A proof
/// takes it from `natural_positions`.
pub const ZIGZAG: [u8; 64] = [
    0, 1, 8, 16, 9, 2, 3, 10, 17, 24, 32, 25, 18, 11, 4, 5, 12, 19, 26, 33, 40, 48, 41, 34, 27, 20,
    13, 6, 7, 14, 21, 28, 35, 42, 49, 56, 57, 50, 43, 36, 29, 22, 15, 23, 30, 37, 44, 51, 58, 59,
    52, 45, 38, 31, 39, 46, 53, 60, 61, 54, 47, 55, 62, 63,
];

/// The table `ZIGZAG`: the natural position at each zigzag index (ITU-T T.81, Figure A.6).
pub fn natural_positions() -> [u8; 64]
    ensures { result ≡ zigzag }
{
    ZIGZAG
}

/// The natural position, from 0 to 63, at a zigzag index (ITU-T T.81, Figure A.6).
#[inline(always)]
pub fn natural_position(index: usize) -> usize
    requires { index < 64 }
    ensures position { result ≡ slice_index zigzag index }
    ensures within { result < 64 }
    ensures later { 0 < index → 0 < result }
{
    usize::from(ZIGZAG[index])
}

// The zigzag index, from 0 to 63, at each natural position.
const INDEXES: [u8; 64] = [
    0, 1, 5, 6, 14, 15, 27, 28, 2, 4, 7, 13, 16, 26, 29, 42, 3, 8, 12, 17, 25, 30, 41, 43, 9, 11,
    18, 24, 31, 40, 44, 53, 10, 19, 23, 32, 39, 45, 52, 54, 20, 22, 33, 38, 46, 51, 55, 60, 21, 34,
    37, 47, 50, 56, 59, 61, 35, 36, 48, 49, 57, 58, 62, 63,
];

/// The zigzag index, from 0 to 63, of a natural position (ITU-T T.81, Figure A.6).
#[inline(always)]
pub(crate) fn zigzag_index(position: usize) -> usize
    requires { position < 64 }
    ensures within { result < 64 }
    ensures position { slice_index zigzag result ≡ position }
{
    usize::from(INDEXES[position])
}

/// The table goes over the walk of Figure A.6, from the upper left to the lower right.
pub fn zigzag_is_the_figures()
    ensures { IsTrue (is_zigzag zigzag) }
{}

/// The table has each natural position once.
pub fn zigzag_is_a_permutation()
    ensures { IsPermutation zigzag (range_with_len 0 64) }
{}
