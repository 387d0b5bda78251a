// The blocks around one, and what they say of it.
ghost use Rattle.std.specs.Prelude.{◌≡◌, ◌<◌, ◌≤◌, ◌+◌, ◌/◌, ◌^◌, option_map, IfSome};
ghost use Rattle.coef_block.specs.Block.{IsDc};
ghost use Rattle.coef_block.specs.Categories.{category};
ghost use Rattle.coef_context.specs.Runs.{inner_values, spreads};
ghost use Rattle.block_spec.specs.Around.{inner_count, guess, prediction, dc_spread, dc};
ghost use Rattle.block_code.specs.NeighbourBlocks.{around_of, HasCorner};

use crate::coefficients::inner_count;
use coef_block::Block;
use coef_context::INNER_VALUES;
use dc_predict::predict;

// How many bits each count has.
const COUNT_BITS: [u8; INNER_VALUES + 1] = [
    0, 1, 2, 2, 3, 3, 3, 3, 4, 4, 4, 4, 4, 4, 4, 4, 5, 5, 5, 5, 5, 5, 5, 5, 5, 5, 5, 5, 5, 5, 5, 5,
    6, 6, 6, 6, 6, 6, 6, 6, 6, 6, 6, 6, 6, 6, 6, 6, 6, 6,
];

/// The blocks above, to the left and diagonally (above and left) of one, of the same component and segment. The
/// diagonal one is there if both others are.
#[derive(Clone, Copy)]
pub struct Neighbours<'a> {
    pub above: Option<&'a Block>,
    pub left: Option<&'a Block>,
    pub diagonal: Option<&'a Block>,
}

/// How many bits a number has: its category.
#[inline(always)]
pub(crate) fn bits_of(n: u32) -> u8
    requires { n < 2 ^ 31 }
    ensures { result ≡ category n }
{
    (32 - n.leading_zeros()) as u8
}

/// The bits of a count of coefficients. The load takes fewer instructions than `bits_of`.
#[inline(always)]
pub(crate) fn bits_of_count(count: u8) -> u8
    requires { count ≤ inner_values }
    ensures { result ≡ category count }
{
    COUNT_BITS[usize::from(count)]
}

/// The guess at the inner count, from 0 to 49: the mean of those above and left, rounded up; the one that is there; 0.
#[inline(always)]
pub(crate) fn guess(neighbours: Neighbours) -> u8
    ensures value { result ≡ guess (around_of neighbours.entry) }
    ensures few { result ≤ inner_values }
{
    match (neighbours.above, neighbours.left) {
        (Some(above), Some(left)) => (inner_count(above) + inner_count(left) + 1) / 2,
        (Some(above), None) => inner_count(above),
        (None, Some(left)) => inner_count(left),
        (None, None) => 0,
    }
}

/// The predicted DC.
#[inline(always)]
pub(crate) fn prediction(neighbours: Neighbours) -> i32
    requires { HasCorner (around_of neighbours) }
    ensures value { result ≡ prediction (around_of neighbours.entry) }
    ensures within { IsDc result }
{
    predict(
        dc_of(neighbours.above),
        dc_of(neighbours.left),
        dc_of(neighbours.diagonal),
    )
}

/// How far the DCs above and left differ, from 0 to 16 bits.
#[inline(always)]
pub(crate) fn spread(neighbours: Neighbours) -> u8
    ensures value { result ≡ dc_spread (around_of neighbours.entry) }
    ensures few { result < spreads }
{
    dc_predict::spread(dc_of(neighbours.above), dc_of(neighbours.left))
}

// The DC of a block that may be there.
#[inline(always)]
fn dc_of(block: Option<&Block>) -> Option<i16>
    ensures value { result ≡ dc (option_map (λ b. b.now) block.entry) }
    ensures within { IfSome result IsDc }
{
    match block {
        Some(block) => Some(block.get(0)),
        None => None,
    }
}
