// A block as events in a stream, there and back.
ghost use Rattle.std.specs.Prelude.{◌≡◌, ℕ, ◌<◌, ◌≤◌, OnOk, OnErr, IfSome, IfNone, None, Ok, Err, Result, length};
ghost use Rattle.coef_block.specs.Block.{IsBlock, IsDc};
ghost use Rattle.coef_block.specs.BlockRows.{width, height};
ghost use Rattle.adapt_bins.specs.PutEvents.{PutsEvents};
ghost use Rattle.adapt_bins.specs.GotEvents.{GetsEvents};
ghost use Rattle.adapt_bins.specs.declared.get.Get.{Get};
ghost use Rattle.block_spec.specs.declared.fault.BlockFault.{BlockFault};
ghost use Rattle.block_spec.specs.Around.{Around, prediction};
ghost use Rattle.block_spec.specs.BlockEvents.{block_events};
ghost use Rattle.block_spec.specs.HeldRows.{kept_around};
ghost use Rattle.block_spec.specs.ReadBlocks.{IsBlockCount, IsRead, residue_events};
ghost use Rattle.coef_context.specs.Runs.{bin_count};
ghost use Rattle.block_code.specs.NeighbourBlocks.{around_of, HasCorner};
ghost use Rattle.block_code.specs.ReadInPlace.{read_as};
ghost use Rattle.block_code.specs.ValueRanges.{IsResidue};

use crate::coefficients::{residue_of, with_dc};
use crate::neighbours::{Neighbours, prediction};
use crate::parts_code::code_parts;
use adapt_bins::{Get, Put};
use allocation::NoMemory;
use block_spec::BlockFault;
use coef_block::{Block, Rows};

// The blocks around one, as the rows hold them.
#[inline(always)]
fn neighbours_in(rows: &Rows, component: usize, row: u32, column: u32) -> Neighbours
    requires component { component < 4 }
    requires row { row < height rows.now.extents component }
    requires column { column < width rows.now.extents component }
    ensures around { around_of result ≡ kept_around rows.now component row column }
    ensures corner { HasCorner (around_of result) }
{
    Neighbours {
        above: rows.above(component, row, column),
        left: rows.left(component, row, column),
        diagonal: rows.diagonal(component, row, column),
    }
}

/// Puts the events of a block into a stream. `row` counts the component's block rows within the MCU row, and `column`
/// its block columns; the rows hold the blocks around. The class is 0 for the frame's first component and 1 for the
/// others. The one error is out of memory, and the encoder is then spent. `rows` stays as it is: the caller stores the
/// block.
pub fn put_block(
    coder: &mut Put,
    class: u8,
    rows: &Rows,
    component: usize,
    row: u32,
    column: u32,
    block: &Block,
) -> Result<(), NoMemory>
    requires class { class < 2 }
    requires component { component < 4 }
    requires row { row < height rows.now.extents component }
    requires column { column < width rows.now.extents component }
    requires room { bin_count ≤ length coder.old.bins.now }
    ensures stopped { OnErr result (coder.new.encoder.now ≡ None) }
    ensures block { OnOk result (IsBlock block.now) }
    ensures coded { OnOk result (PutsEvents coder.old
        (block_events class (kept_around rows.now component row column) block.now) coder.new) }
{
    let neighbours = neighbours_in(rows, component, row, column);
    let residue = residue_of(block, prediction(neighbours));
    let mut same = Block::zero();
    let _ = code_parts(coder, class, neighbours, residue, block, &mut same)?;
    Ok(())
}

/// Reads the events of a block from a stream, with the same places and class as `put_block`. It fails with `BlockCount`
/// if the six bits of the inner count are above 49, and then reads nothing after them; and with `DcRange` if all events
/// of a block were read, and its prediction and residue make no DC, which is within 32767 of 0. Past the stream's end
/// all bits are zeros.
pub fn get_block(
    coder: &mut Get,
    class: u8,
    rows: &Rows,
    component: usize,
    row: u32,
    column: u32,
) -> Result<Block, BlockFault>
    requires class { class < 2 }
    requires component { component < 4 }
    requires row { row < height rows.now.extents component }
    requires column { column < width rows.now.extents component }
    requires room { bin_count ≤ length coder.old.bins }
    ensures read { IsRead (λ es. GetsEvents coder.old es coder.new) class
        (kept_around rows.now component row column) result }
    ensures room { length coder.new.bins ≡ length coder.old.bins }
{
    let mut block = Block::zero();
    match get_in_place(coder, class, rows, component, row, column, &mut block) {
        Ok(()) => Ok(block),
        Err(fault) => Err(fault),
    }
}

/// `get_block`, with the block put where it is wanted, so that it isn't copied. After a fault it holds what was read of
/// it.
pub(crate) fn get_in_place(
    coder: &mut Get,
    class: u8,
    rows: &Rows,
    component: usize,
    row: u32,
    column: u32,
    block: &mut Block,
) -> Result<(), BlockFault>
    requires class { class < 2 }
    requires component { component < 4 }
    requires row { row < height rows.now.extents component }
    requires column { column < width rows.now.extents component }
    requires room { bin_count ≤ length coder.old.bins }
    ensures read { IsRead (λ es. GetsEvents coder.old es coder.new) class
        (kept_around rows.now component row column) (read_as result block.new) }
    ensures room { length coder.new.bins ≡ length coder.old.bins }
{
    let neighbours = neighbours_in(rows, component, row, column);
    // A coder that gets the bits ignores what is wanted.
    let wanted = Block::zero();
    *block = Block::zero();
    match code_parts(coder, class, neighbours, 0, &wanted, block) {
        Ok(counted) => block_read(counted, block, prediction(neighbours)),
        Err(never) => match never {},
    }
}

// Gives the block with these AC coefficients its DC, if a residue was coded after them; or why there is none.
#[inline(always)]
fn block_read(counted: Option<i32>, block: &mut Block, predicted: i32) -> Result<(), BlockFault>
    requires prediction { IsDc predicted }
    requires residue { IfSome counted IsResidue }
    requires block { IfSome counted (λ _. IsBlock block.old) }
    ensures { (from to : Get) (class : ℕ) (around : Around) → predicted ≡ prediction around
        → IfSome counted (λ residue.
        GetsEvents from (residue_events class around block.old residue) to)
        → IfNone counted (IsBlockCount (λ events. GetsEvents from events to) class around)
        → IsRead (λ events. GetsEvents from events to) class around
        (read_as result block.new) }
{
    match counted {
        Some(residue) => with_dc(block, predicted, residue),
        None => Err(BlockFault::BlockCount),
    }
}
