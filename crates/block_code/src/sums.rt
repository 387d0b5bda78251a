// The sums of magnitudes around a block, from which the weights of its coefficients are worked out.
ghost use Rattle.std.specs.Prelude.{◌≡◌, ℕ, ◌<◌, ◌≤◌, ◌+◌, ◌*◌, pos, option_map, replicate, slice_index, unsigned_abs};
ghost use Rattle.coef_context.specs.Runs.{weights};
ghost use Rattle.block_spec.specs.Around.{edge_weight, inner_weight, magnitude, value_at};
ghost use Rattle.block_code.specs.BandPositions.{IsAcPosition};
ghost use Rattle.block_code.specs.NeighbourBlocks.{around_of};
ghost use Rattle.block_code.specs.SumsAround.{AreSums, inner_sum};

use crate::neighbours::{Neighbours, bits_of};
use coef_block::Block;

/// The sums by natural position, around an inner coefficient and around one of an edge. All are worked out at once, as
/// vector code does it.
#[derive(Clone, Copy)]
pub(crate) struct Sums {
    inner: [u16; 64],
    edge: [u16; 64],
}

/// The weight of an inner coefficient, by its natural position, from 0 to 10: how many bits the mean of the magnitudes
/// around has, of which those above and left count 13 parts of 32 each, and the diagonal one 6.
#[inline(always)]
#[tactic(auto, using(crate::proofs::Weights::few_bits))]
pub(crate) fn inner_weight(neighbours: Neighbours, sums: &Sums, position: usize) -> u8
    requires sums { AreSums sums.now (around_of neighbours) }
    requires position { IsAcPosition position }
    ensures value { result ≡ inner_weight (around_of neighbours.entry) position }
    ensures small { result < weights }
{
    let _ = neighbours;
    bits_of(u32::from(sums.inner[position]) / 32)
}

/// The weight of an edge's coefficient, by its natural position, from 0 to 10: how many bits the mean of the magnitudes
/// above and left has.
#[inline(always)]
#[tactic(auto, using(crate::proofs::Weights::few_bits))]
pub(crate) fn edge_weight(neighbours: Neighbours, sums: &Sums, position: usize) -> u8
    requires sums { AreSums sums.now (around_of neighbours) }
    requires position { IsAcPosition position }
    ensures value { result ≡ edge_weight (around_of neighbours.entry) position }
    ensures small { result < weights }
{
    let _ = neighbours;
    bits_of(u32::from(sums.edge[position]) / 2)
}

/// The sums around a block.
#[inline(always)]
pub(crate) fn sums_of(neighbours: Neighbours) -> Sums
    ensures { AreSums result (around_of neighbours.entry) }
{
    let zero = Block::zero();
    sums_in(
        or_zero(neighbours.above, &zero),
        or_zero(neighbours.left, &zero),
        or_zero(neighbours.diagonal, &zero),
    )
}

// Zeros for a block that isn't there.
#[inline(always)]
fn or_zero<'a>(block: Option<&'a Block>, zero: &'a Block) -> &'a Block
    requires { zero.now ≡ replicate 64 (pos 0) }
    ensures { (position : ℕ) → position < 64 → unsigned_abs (value_at result.now position)
        ≡ magnitude (option_map (λ b. b.now) block.entry) position }
{
    match block {
        Some(block) => block,
        None => zero,
    }
}

// The sums around a block that has all three.
#[inline(always)]
fn sums_in(above: &Block, left: &Block, diagonal: &Block) -> Sums
    ensures inner { (position : ℕ) → IsAcPosition position → slice_index result.inner position
        ≡ inner_sum (unsigned_abs (value_at above.now position))
        (unsigned_abs (value_at left.now position))
        (unsigned_abs (value_at diagonal.now position)) }
    ensures edge { (position : ℕ) → IsAcPosition position → slice_index result.edge position
        ≡ unsigned_abs (value_at above.now position) + unsigned_abs (value_at left.now position) }
    ensures small_inner { (position : ℕ) → IsAcPosition position
        → slice_index result.inner position ≤ 32 * 1023 }
    ensures small_edge { (position : ℕ) → IsAcPosition position
        → slice_index result.edge position ≤ 2 * 1023 }
{
    let mut inner = [0; 64];
    let mut edge = [0; 64];
    for position in 0..64 {
        let (around, both) = sums_at(above, left, diagonal, position);
        inner[position] = around;
        edge[position] = both;
    }
    Sums { inner, edge }
}

// The sums at a natural position. That of the DC, which nothing reads, may wrap.
#[inline(always)]
fn sums_at(above: &Block, left: &Block, diagonal: &Block, position: usize) -> (u16, u16)
    requires { position < 64 }
    ensures inner { 0 < position → result.0
        ≡ inner_sum (unsigned_abs (value_at above.now position))
        (unsigned_abs (value_at left.now position))
        (unsigned_abs (value_at diagonal.now position)) }
    ensures edge { 0 < position → result.1
        ≡ unsigned_abs (value_at above.now position) + unsigned_abs (value_at left.now position) }
    ensures small_inner { 0 < position → result.0 ≤ 32 * 1023 }
    ensures small_edge { 0 < position → result.1 ≤ 2 * 1023 }
{
    let both = magnitude_at(above, position).wrapping_add(magnitude_at(left, position));
    let around = both
        .wrapping_mul(13)
        .wrapping_add(magnitude_at(diagonal, position).wrapping_mul(6));
    (around, both)
}

// The magnitude of a coefficient.
#[inline(always)]
fn magnitude_at(block: &Block, position: usize) -> u16
    requires { position < 64 }
    ensures value { result ≡ unsigned_abs (value_at block.now position) }
    ensures small { 0 < position → result ≤ 1023 }
{
    block.get(position).unsigned_abs()
}
