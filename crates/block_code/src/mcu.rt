// The blocks of an MCU, coded in their order and kept for the blocks after them.
ghost use Rattle.std.specs.Prelude.{◌≡◌, ℕ, ◌<◌, ◌≤◌, ◌+◌, ◌*◌, ◌++◌, OnOk, OnErr, IfOk, IfErr, [], None, List, ℤ, length};
ghost use Rattle.std.specs.List.{AllByRecursion};
ghost use Rattle.coef_block.specs.Block.{IsBlock};
ghost use Rattle.coef_block.specs.BlockRows.{block_count};
ghost use Rattle.block_spec.specs.Grid.{IsGrid};
ghost use Rattle.block_spec.specs.SegmentEvents.{class_of};
ghost use Rattle.block_spec.specs.HeldRows.{HoldBlocks, FitsGrid};
ghost use Rattle.coef_context.specs.Runs.{bin_count};
ghost use Rattle.block_code.specs.SegmentUnderWay.{GetsFault, GetsMore, HoldsUpTo, PutsMore};

use crate::block::{get_in_place, put_block};
use crate::mcu_grid::McuGrid;
use adapt_bins::{Get, Put};
use allocation::NoMemory;
use block_spec::BlockFault;
use coef_block::{Block, Rows};
use std::alloc::Global;
use std::marker::Model;

/// A segment under way, between two MCUs: its grid, the blocks that the next ones have as neighbours, and how many MCUs
/// of this MCU row came before.
#[derive(Drop)]
pub struct SegmentRows {
    grid: McuGrid,
    rows: Rows,
    before: u32,
}

impl Model for SegmentRows {
    ghost use Rattle.block_code.specs.SegmentUnderWay.{UnderWay};
    ghost use Rattle.block_code.specs.SegmentInside.{IsSegmentInside};

    ghost Value = { UnderWay };

    ghost view = { λ s. record { grid = s.grid; rows = s.rows; before = s.before } };

    ghost invariant = { IsSegmentInside };
}

impl SegmentRows {
    /// Before the first MCU of a segment. Memory is allocated here alone, for an MCU row of blocks; the one error is
    /// out of memory.
    pub fn new(alloc: Global, grid: McuGrid) -> Result<SegmentRows, NoMemory>
        requires { IsGrid grid }
        ensures grid { IfOk result (λ segment. segment.grid ≡ grid) }
        ensures held { IfOk result (λ segment. HoldsUpTo segment []) }
    {
        let widths = grid.row_widths();
        let heights = grid.heights();
        let rows = Rows::new(alloc, &widths, &heights)?;
        Ok(SegmentRows {
            grid,
            rows,
            before: 0,
        })
    }

    /// Before the first MCU of another segment of the grid. It allocates no memory.
    pub fn restart(&mut self)
        ensures grid { self.new.grid ≡ self.old.grid }
        ensures held { HoldsUpTo self.new [] }
    {
        self.rows.clear();
        self.before = 0;
    }

    // The MCU has ended, and with the last one of an MCU row the row.
    fn advance(&mut self)
        ensures grid { self.new.grid ≡ self.old.grid }
        ensures next { (done : List (List ℤ)) (row : ℕ)
            → length done
            ≡ (row * self.old.grid.across + (self.old.before + 1)) * block_count self.old.grid.mcu
            → HoldBlocks self.old.rows self.old.grid done row → HoldsUpTo self.new done }
    {
        let across = self.grid.across();
        self.before += 1;
        if self.before == across {
            self.before = 0;
            self.rows.next_row();
        }
    }
}

/// Puts the events of the next MCU's blocks into a stream, in their order (ITU-T T.81, A.2.3): component after
/// component, each row after row. The rows keep the blocks. The one error is out of memory, and the encoder is then
/// spent.
pub fn put_mcu(coder: &mut Put, segment: &mut SegmentRows, blocks: &[Block]) -> Result<(), NoMemory>
    requires room { bin_count ≤ length coder.old.bins.now }
    requires blocks { length blocks.now ≡ block_count segment.old.grid.mcu }
    ensures stopped { OnErr result (coder.new.encoder.now ≡ None) }
    ensures blocks { OnOk result (AllByRecursion IsBlock blocks.now) }
    ensures grid { segment.new.grid ≡ segment.old.grid }
    ensures put { (done : List (List ℤ)) → HoldsUpTo segment.old done
        → OnOk result (PutsMore coder.old segment.old.grid done coder.new blocks.now) }
    ensures held { (done : List (List ℤ)) → HoldsUpTo segment.old done
        → OnOk result (HoldsUpTo segment.new (done ++ blocks.now)) }
{
    put_blocks(
        coder,
        &segment.grid,
        &mut segment.rows,
        segment.before,
        blocks,
    )?;
    segment.advance();
    Ok(())
}

/// Reads the events of the next MCU's blocks from a stream, in their order, and writes the blocks to `out`. The rows
/// keep them. It stops at the first block with a fault, whose causes are those of `get_block`; the segment can't
/// continue then.
pub fn get_mcu(
    coder: &mut Get,
    segment: &mut SegmentRows,
    out: &mut [Block],
) -> Result<(), BlockFault>
    requires room { bin_count ≤ length coder.old.bins }
    requires blocks { length out.old ≡ block_count segment.old.grid.mcu }
    ensures room { length coder.new.bins ≡ length coder.old.bins }
    ensures grid { segment.new.grid ≡ segment.old.grid }
    ensures length { length out.new ≡ length out.old }
    ensures got { (done : List (List ℤ)) → HoldsUpTo segment.old done
        → OnOk result (GetsMore coder.old segment.old.grid done coder.new out.new) }
    ensures held { (done : List (List ℤ)) → HoldsUpTo segment.old done
        → OnOk result (HoldsUpTo segment.new (done ++ out.new)) }
    ensures fault { (done : List (List ℤ)) → HoldsUpTo segment.old done
        → IfErr result (GetsFault coder.old segment.old.grid done coder.new) }
{
    get_blocks(coder, &segment.grid, &mut segment.rows, segment.before, out)?;
    segment.advance();
    Ok(())
}

// The blocks of the MCU after `before` others of its MCU row.
fn put_blocks(
    coder: &mut Put,
    grid: &McuGrid,
    rows: &mut Rows,
    before: u32,
    blocks: &[Block],
) -> Result<(), NoMemory>
    requires room { bin_count ≤ length coder.old.bins.now }
    requires grid { IsGrid grid.now }
    requires fits { FitsGrid rows.old.extents grid.now }
    requires before { before < grid.now.across }
    requires blocks { length blocks.now ≡ block_count grid.now.mcu }
    ensures stopped { OnErr result (coder.new.encoder.now ≡ None) }
    ensures blocks { OnOk result (AllByRecursion IsBlock blocks.now) }
    ensures extents { rows.new.extents ≡ rows.old.extents }
    ensures put { (done : List (List ℤ)) (row : ℕ)
        → length done ≡ (row * grid.now.across + before) * block_count grid.now.mcu
        → HoldBlocks rows.old grid.now done row
        → OnOk result (PutsMore coder.old grid.now done coder.new blocks.now) }
    ensures held { (done : List (List ℤ)) (row : ℕ)
        → length done ≡ (row * grid.now.across + before) * block_count grid.now.mcu
        → HoldBlocks rows.old grid.now done row
        → OnOk result (HoldBlocks rows.new grid.now (done ++ blocks.now) row) }
{
    for index in 0..blocks.len() {
        let (component, row, column) = grid.cell(before, index);
        let block = &blocks[index];
        put_block(
            coder,
            class_of(component),
            rows,
            component,
            row,
            column,
            block,
        )?;
        rows.store(component, row, column, block);
    }
    Ok(())
}

// The blocks of the MCU after `before` others of its MCU row.
fn get_blocks(
    coder: &mut Get,
    grid: &McuGrid,
    rows: &mut Rows,
    before: u32,
    out: &mut [Block],
) -> Result<(), BlockFault>
    requires room { bin_count ≤ length coder.old.bins }
    requires grid { IsGrid grid.now }
    requires fits { FitsGrid rows.old.extents grid.now }
    requires before { before < grid.now.across }
    requires blocks { length out.old ≡ block_count grid.now.mcu }
    ensures room { length coder.new.bins ≡ length coder.old.bins }
    ensures extents { rows.new.extents ≡ rows.old.extents }
    ensures length { length out.new ≡ length out.old }
    ensures got { (done : List (List ℤ)) (row : ℕ)
        → length done ≡ (row * grid.now.across + before) * block_count grid.now.mcu
        → HoldBlocks rows.old grid.now done row
        → OnOk result (GetsMore coder.old grid.now done coder.new out.new) }
    ensures held { (done : List (List ℤ)) (row : ℕ)
        → length done ≡ (row * grid.now.across + before) * block_count grid.now.mcu
        → HoldBlocks rows.old grid.now done row
        → OnOk result (HoldBlocks rows.new grid.now (done ++ out.new) row) }
    ensures fault { (done : List (List ℤ)) (row : ℕ)
        → length done ≡ (row * grid.now.across + before) * block_count grid.now.mcu
        → HoldBlocks rows.old grid.now done row
        → IfErr result (GetsFault coder.old grid.now done coder.new) }
{
    for index in 0..out.len() {
        let (component, row, column) = grid.cell(before, index);
        let block = &mut out[index];
        get_in_place(
            coder,
            class_of(component),
            rows,
            component,
            row,
            column,
            block,
        )?;
        rows.store(component, row, column, block);
    }
    Ok(())
}

// The class of a component: the frame's first has one of its own.
#[inline]
fn class_of(component: usize) -> u8
    ensures value { result ≡ class_of component }
    ensures two { result < 2 }
{
    u8::from(component != 0)
}
