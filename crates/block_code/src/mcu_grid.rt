// Where the blocks of an MCU are.
ghost use Rattle.std.specs.Prelude.{ℕ, ◌≡◌, ◌<◌, ◌≤◌, ◌*◌, ◌^◌, slice_index};
ghost use Rattle.coef_block.specs.BlockRows.{block_count, width};
ghost use Rattle.block_spec.specs.Grid.{component_of, cell_in};

use std::marker::Model;

/// The grid of a scan's blocks (ITU-T T.81, A.2): how many MCUs a row has, and how many blocks of each component an MCU
/// is wide and high.
///
///     MCU 0       | MCU 1       | ..       4:2:0: the first component is two blocks wide and two high, the others one
///     0 1 / 4 / 5 | 0 1 / 4 / 5 |          and one; six blocks, numbered in their order
///     2 3         | 2 3         |
///
/// Clauses see the `Grid`.
#[derive(Drop)]
pub struct McuGrid {
    // By component, 0 after the last.
    widths: [u32; 4],
    heights: [u32; 4],
    // How many blocks of an MCU the components before have; all of them after the last.
    offsets: [usize; 4],
    blocks: usize,
    across: u32,
}

impl Model for McuGrid {
    ghost use Rattle.block_spec.specs.Grid.{Grid};
    ghost use Rattle.block_code.specs.GridInside.{grid_in, IsGridInside};

    ghost Value = { Grid };

    ghost view = { grid_in };

    ghost invariant = { IsGridInside };
}

impl McuGrid {
    /// The grid with `across` MCUs in a row, from 1 to 2^25 - 1. `widths` and `heights` are those of an MCU in blocks,
    /// by component, 0 after the last: at most four by four of a component, and from one to ten blocks in all
    /// (T.81 B.2.3).
    pub fn new(across: u32, widths: [u32; 4], heights: [u32; 4]) -> McuGrid
        requires across { 1 ≤ across }
        requires narrow { across < 2 ^ 25 }
        requires wide { (c : ℕ) → c < 4 → slice_index widths c ≤ 4 }
        requires high { (c : ℕ) → c < 4 → slice_index heights c ≤ 4 }
        requires some { 1 ≤ block_count (record { widths = widths; heights = heights }) }
        requires few { block_count (record { widths = widths; heights = heights }) ≤ 10 }
        ensures { result
            ≡ record { across = across; mcu = record { widths = widths; heights = heights } } }
    {
        let first = (widths[0] * heights[0]) as usize;
        let second = first + (widths[1] * heights[1]) as usize;
        let third = second + (widths[2] * heights[2]) as usize;
        let blocks = third + (widths[3] * heights[3]) as usize;
        McuGrid {
            widths,
            heights,
            offsets: [0, first, second, third],
            blocks,
            across,
        }
    }

    /// How many blocks of each component an MCU row is wide.
    pub(crate) fn row_widths(&self) -> [u32; 4]
        ensures widths { (c : ℕ) → c < 4
            → slice_index result c ≡ self.now.across * width self.now.mcu c }
    {
        [
            self.across * self.widths[0],
            self.across * self.widths[1],
            self.across * self.widths[2],
            self.across * self.widths[3],
        ]
    }

    /// How many blocks of each component an MCU, and so an MCU row, is high.
    pub(crate) fn heights(&self) -> [u32; 4]
        ensures heights { result ≡ self.now.mcu.heights }
        ensures few { block_count self.now.mcu ≤ 10 }
        ensures narrow { self.now.across < 2 ^ 25 }
    {
        self.heights
    }

    /// How many blocks an MCU has.
    #[inline]
    pub fn blocks(&self) -> usize
        ensures { result ≡ block_count self.now.mcu }
    {
        self.blocks
    }

    /// How many MCUs there are across.
    #[inline]
    pub fn across(&self) -> u32
        ensures value { result ≡ self.now.across }
        ensures narrow { result < 2 ^ 25 }
    {
        self.across
    }

    /// The component, the block row within the MCU row and the block column of a block, by its index in its MCU, which
    /// has `before` others before it in its MCU row.
    #[inline]
    pub(crate) fn cell(&self, before: u32, index: usize) -> (usize, u32, u32)
        requires before { before < self.now.across }
        requires index { index < block_count self.now.mcu }
        ensures component { result.0 ≡ (cell_in self.now 0 before index).component }
        ensures row { result.1 ≡ (cell_in self.now 0 before index).row }
        ensures column { result.2 ≡ (cell_in self.now 0 before index).column }
    {
        let component = self.component(index);
        let rest = (index - self.offsets[component]) as u32;
        let width = self.widths[component];
        (component, rest / width, before * width + rest % width)
    }

    // The component of a block, by its index in its MCU.
    #[inline]
    fn component(&self, index: usize) -> usize
        requires { index < block_count self.now.mcu }
        ensures { result ≡ component_of self.now.mcu index }
    {
        if index < self.offsets[1] {
            0
        } else if index < self.offsets[2] {
            1
        } else if index < self.offsets[3] {
            2
        } else {
            3
        }
    }
}
