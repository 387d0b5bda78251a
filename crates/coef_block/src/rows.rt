// The blocks of an MCU row.
ghost use Rattle.std.specs.Prelude.{◌≡◌, ◌<◌, ◌*◌, ◌+◌, ◌-◌, ◌≤◌, ◌^◌, ℕ, IfOk, option_map, true, length, slice_index};
ghost use Rattle.coef_block.specs.BlockRows.{AreCleared, width, height, offset, block_count, index_in, above_in, left_in, diagonal_in, stored, next_row, four_of, extents_of};

use crate::block::Block;
use allocation::{NoMemory, from_elem};
use std::alloc::Global;
use std::marker::Model;

/// The blocks of an MCU row, as the neighbours of the block that comes next are looked up: component after component,
/// each by block row within the MCU row and by block column. In each place the block that came last there is kept, of
/// this MCU row or of the one before. Memory is allocated once.
///
/// Clauses see the `BlockRows`.
#[derive(Drop)]
pub struct Rows {
    // By component, 0 after the last.
    widths: [u32; 4],
    heights: [u32; 4],
    // How many blocks the components before have.
    offsets: [usize; 4],
    started: bool,
    blocks: Vec<Block>,
    // By component, the block above the one that came last in its first block row.
    corners: [Block; 4],
}

impl Model for Rows {
    ghost use Rattle.coef_block.specs.BlockRows.{BlockRows};
    ghost use Rattle.coef_block.specs.RowsInside.{AreRows, rows_in};

    ghost Value = { BlockRows };

    ghost view = { rows_in };

    ghost invariant = { AreRows };
}

impl Rows {
    /// Before the first MCU row, by how many blocks an MCU row is wide and high in each component.
    pub fn new(alloc: Global, widths: &[u32], heights: &[u32]) -> Result<Rows, NoMemory>
        requires components { length widths.now ≤ 4 }
        requires same { length heights.now ≡ length widths.now }
        requires few { block_count (extents_of widths.now heights.now) ≤ 10 * 2 ^ 25 }
        ensures extents { IfOk result (λ rows. rows.extents ≡ extents_of widths.now heights.now) }
        ensures cleared { IfOk result AreCleared }
    {
        let widths = four_of(widths);
        let heights = four_of(heights);
        let (offsets, count) = offsets_of(&widths, &heights);
        let blocks = from_elem(alloc, Block::zero(), count)?;
        Ok(Rows {
            widths,
            heights,
            offsets,
            started: false,
            blocks,
            corners: [Block::zero(); 4],
        })
    }

    /// How many blocks are kept: those of an MCU row.
    pub fn room(&self) -> u64
        ensures { result ≡ block_count self.now.extents }
    {
        self.blocks.len() as u64
    }

    /// The next MCU row begins. The lowest blocks of this one are then above it.
    pub fn next_row(&mut self)
        ensures { self.new ≡ next_row self.old }
    {
        self.started = true;
    }

    /// A segment begins: no MCU row was before.
    pub fn clear(&mut self)
        ensures extents { self.new.extents ≡ self.old.extents }
        ensures cleared { AreCleared self.new }
    {
        self.started = false;
    }

    /// The block above this place, where the next block belongs; `None` in the segment's first block row.
    #[inline]
    pub fn above(&self, component: usize, row: u32, column: u32) -> Option<&Block>
        requires component { component < 4 }
        requires row { row < height self.now.extents component }
        requires column { column < width self.now.extents component }
        ensures { option_map (λ block. block.now) result ≡ above_in self.now component row column }
    {
        if row > 0 {
            return Some(&self.blocks[self.index(component, row - 1, column)]);
        }
        if self.started {
            return Some(&self.blocks[self.lowest(component, column)]);
        }
        None
    }

    /// The block left of this place, where the next block belongs; `None` in the first block column.
    #[inline]
    pub fn left(&self, component: usize, row: u32, column: u32) -> Option<&Block>
        requires component { component < 4 }
        requires row { row < height self.now.extents component }
        requires column { column < width self.now.extents component }
        ensures { option_map (λ block. block.now) result ≡ left_in self.now component row column }
    {
        if column == 0 {
            return None;
        }
        Some(&self.blocks[self.index(component, row, column - 1)])
    }

    /// The block above the one left of this place, where the next block belongs; `None` if one of the two isn't there.
    #[inline]
    pub fn diagonal(&self, component: usize, row: u32, column: u32) -> Option<&Block>
        requires component { component < 4 }
        requires row { row < height self.now.extents component }
        requires column { column < width self.now.extents component }
        ensures { option_map (λ block. block.now) result
            ≡ diagonal_in self.now component row column }
    {
        if column == 0 {
            return None;
        }
        if row > 0 {
            return Some(&self.blocks[self.index(component, row - 1, column - 1)]);
        }
        if self.started {
            return Some(&self.corners[component]);
        }
        None
    }

    /// Keeps a block of this MCU row, in place of the one of the row before.
    #[inline]
    pub fn store(&mut self, component: usize, row: u32, column: u32, block: &Block)
        requires component { component < 4 }
        requires row { row < height self.old.extents component }
        requires column { column < width self.old.extents component }
        ensures { self.new ≡ stored self.old component row column block.now }
    {
        if row == 0 {
            let lowest = self.lowest(component, column);
            self.corners[component] = self.blocks[lowest].copied();
        }
        let index = self.index(component, row, column);
        self.blocks[index] = block.copied();
    }

    // The index of a component's lowest block of a block column.
    #[inline]
    fn lowest(&self, component: usize, column: u32) -> usize
        requires component { component < 4 }
        requires row { 0 < height self.now.extents component }
        requires column { column < width self.now.extents component }
        ensures index { result
            ≡ index_in self.now.extents component (height self.now.extents component - 1) column }
        ensures kept { result < length self.now.blocks }
    {
        self.index(component, self.heights[component] - 1, column)
    }

    // The index of a block of an MCU row.
    #[inline]
    fn index(&self, component: usize, row: u32, column: u32) -> usize
        requires component { component < 4 }
        requires row { row < height self.now.extents component }
        requires column { column < width self.now.extents component }
        ensures index { result ≡ index_in self.now.extents component row column }
        ensures kept { result < length self.now.blocks }
    {
        self.offsets[component] + (row as usize * self.widths[component] as usize + column as usize)
    }
}

// Numbers by component, 0 after the last.
fn four_of(numbers: &[u32]) -> [u32; 4]
    requires { length numbers.now ≤ 4 }
    ensures { result ≡ four_of numbers.now }
{
    let mut four = [0; 4];
    for (component, number) in numbers.iter().enumerate() {
        four[component] = *number;
    }
    four
}

// How many blocks there are before each component's, and how many there are in all.
fn offsets_of(widths: &[u32; 4], heights: &[u32; 4]) -> ([usize; 4], usize)
    requires { block_count (record { widths = widths.now; heights = heights.now }) < 2 ^ 32 }
    ensures offsets { (component : ℕ) → component < 4 → slice_index result.0 component
        ≡ offset (record { widths = widths.now; heights = heights.now }) component }
    ensures count { result.1 ≡ block_count (record { widths = widths.now; heights = heights.now }) }
{
    let mut offsets = [0; 4];
    let mut count = 0;
    for component in 0..4 {
        offsets[component] = count;
        count += widths[component] as usize * heights[component] as usize;
    }
    (offsets, count)
}
