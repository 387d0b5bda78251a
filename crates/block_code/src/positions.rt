// Which coefficients of a block a band has.
ghost use Rattle.std.specs.Prelude.{◌≡◌, ◌<◌, slice_index};
ghost use Rattle.coef_block.specs.Zigzag.{zigzag};
ghost use Rattle.coef_context.specs.Runs.{edge_values, inner_values};
ghost use Rattle.block_spec.specs.Around.{inner_positions};
ghost use Rattle.block_spec.specs.BlockEvents.{edge_positions};
ghost use Rattle.block_code.specs.BandPositions.{positions_of};

use coef_context::{EDGE_VALUES, INNER_VALUES};

/// The natural positions of the inner coefficients, in zigzag order.
pub(crate) const INNER: [u8; INNER_VALUES] = [
    9, 10, 17, 25, 18, 11, 12, 19, 26, 33, 41, 34, 27, 20, 13, 14, 21, 28, 35, 42, 49, 57, 50, 43,
    36, 29, 22, 15, 23, 30, 37, 44, 51, 58, 59, 52, 45, 38, 31, 39, 46, 53, 60, 61, 54, 47, 55, 62,
    63,
];

// The zigzag indexes of the same.
const INNER_AT: [u8; INNER_VALUES] = [
    4, 7, 8, 11, 12, 13, 16, 17, 18, 19, 22, 23, 24, 25, 26, 29, 30, 31, 32, 33, 34, 36, 37, 38,
    39, 40, 41, 42, 43, 44, 45, 46, 47, 48, 49, 50, 51, 52, 53, 54, 55, 56, 57, 58, 59, 60, 61, 62,
    63,
];

// Those of the row edge from left to right, and of the column edge from top to bottom.
const ROW_AT: [u8; EDGE_VALUES] = [1, 5, 6, 14, 15, 27, 28];

const COLUMN_AT: [u8; EDGE_VALUES] = [2, 3, 9, 10, 20, 21, 35];

/// The zigzag index of an inner coefficient, by its place.
#[inline(always)]
pub(crate) fn inner_index(place: usize) -> usize
    requires { place < inner_values }
    ensures position { slice_index zigzag result ≡ slice_index inner_positions place }
    ensures within { result < 64 }
{
    usize::from(INNER_AT[place])
}

/// The zigzag index of an edge's coefficient, by its place.
#[inline(always)]
pub(crate) fn edge_index(column: bool, place: usize) -> usize
    requires { place < edge_values }
    ensures position { slice_index zigzag result ≡ slice_index (edge_positions column) place }
    ensures within { result < 64 }
{
    if column {
        usize::from(COLUMN_AT[place])
    } else {
        usize::from(ROW_AT[place])
    }
}

// Bit k, from the lowest, is 1 exactly if the coefficient at zigzag index k is an inner one.
const INNER_INDEXES: u64 = 0xffff_fff7_e7cf_3990;

// The same for those of the row edge, and of the column edge.
const ROW_INDEXES: u64 = 0x1800_c062;

const COLUMN_INDEXES: u64 = 0x8_0030_060c;

/// The zigzag indexes of the inner coefficients, each as a bit, from the lowest.
#[inline(always)]
pub(crate) fn inner_indexes() -> u64
    ensures { positions_of result ≡ inner_positions }
{
    INNER_INDEXES
}

/// The zigzag indexes of an edge's coefficients, each as a bit, from the lowest.
#[inline(always)]
pub(crate) fn edge_indexes(column: bool) -> u64
    ensures { positions_of result ≡ edge_positions column }
{
    if column { COLUMN_INDEXES } else { ROW_INDEXES }
}
