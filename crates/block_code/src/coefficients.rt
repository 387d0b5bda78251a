// Coefficients of a block, by natural position.
ghost use Rattle.std.specs.Prelude.{◌≡◌, ◌<◌, ◌≤◌, ◌+ℤ◌, ◌-ℤ◌, pos, set, slice_index, OnOk, IfErr};
ghost use Rattle.coef_block.specs.Block.{IsBlock, IsDc};
ghost use Rattle.coef_block.specs.Zigzag.{zigzag};
ghost use Rattle.coef_context.specs.Runs.{inner_values, edge_values};
ghost use Rattle.block_spec.specs.Around.{inner_count, value_at, values_in};
ghost use Rattle.block_spec.specs.BlockEvents.{edge_positions};
ghost use Rattle.block_spec.specs.Values.{nonzeros};
ghost use Rattle.block_spec.specs.declared.fault.BlockFault.TheVariants.{DcRange};
ghost use Rattle.block_code.specs.BandPositions.{IsAcPosition};
ghost use Rattle.block_code.specs.ValueRanges.{IsAc, IsResidue};

use crate::positions::{edge_indexes, inner_indexes};
use block_spec::BlockFault;
use coef_block::{Block, MOST_DC};

/// The AC coefficient at a natural position.
#[inline(always)]
pub(crate) fn coefficient(block: &Block, position: usize) -> i32
    requires { IsAcPosition position }
    ensures value { result ≡ value_at block.now position }
    ensures ac { IsAc result }
{
    i32::from(block.get(position))
}

/// Puts an AC coefficient at a zigzag index where a 0 is.
#[inline(always)]
pub(crate) fn put_coefficient(block: &mut Block, index: usize, value: i32)
    requires index { index < 64 }
    requires position { IsAcPosition (slice_index zigzag index) }
    requires zero { value_at block.old (slice_index zigzag index) ≡ pos 0 }
    requires ac { IsAc value }
    ensures { block.new ≡ set block.old (slice_index zigzag index) value }
{
    if value != 0 {
        block.put_in_zigzag(index, value as i16);
    }
}

/// How many inner coefficients are not 0.
#[inline(always)]
pub(crate) fn inner_count(block: &Block) -> u8
    ensures value { result ≡ inner_count block.now }
    ensures few { result ≤ inner_values }
{
    block.nonzeros_among(inner_indexes())
}

/// How many coefficients of an edge are not 0.
#[inline(always)]
pub(crate) fn edge_count(block: &Block, column: bool) -> u8
    ensures value { result ≡ nonzeros (values_in (edge_positions column) block.now) }
    ensures few { result ≤ edge_values }
{
    block.nonzeros_among(edge_indexes(column))
}

/// The DC less its prediction.
#[inline(always)]
pub(crate) fn residue_of(block: &Block, prediction: i32) -> i32
    requires { IsDc prediction }
    ensures value { result ≡ value_at block.now 0 -ℤ prediction }
    ensures small { IsResidue result }
    ensures block { IsBlock block.now }
{
    i32::from(block.get(0)) - prediction
}

/// Gives a block the DC of a prediction and a residue, or fails with `DcRange` if they make no DC.
#[inline(always)]
pub(crate) fn with_dc(block: &mut Block, prediction: i32, residue: i32) -> Result<(), BlockFault>
    requires block { IsBlock block.old }
    requires prediction { IsDc prediction }
    requires residue { IsResidue residue }
    ensures dc { OnOk result (block.new ≡ set block.old 0 (prediction +ℤ residue)) }
    ensures block { OnOk result (IsBlock block.new) }
    ensures fault { IfErr result (λ fault. (fault ≡ DcRange)
        × (IsDc (prediction +ℤ residue) → ⊥)) }
{
    let dc = prediction + residue;
    if dc.unsigned_abs() > MOST_DC {
        return Err(BlockFault::DcRange);
    }
    block.set(0, dc as i16);
    Ok(())
}
