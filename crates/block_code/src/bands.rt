// The inner band and the edges.
ghost use Rattle.std.specs.Prelude.{◌≡◌, ◌<◌, ◌≤◌, ◌+◌, ◌-◌, OnOk, OnErr, IsTrue, slice_index};
ghost use Rattle.coef_block.specs.Block.{IsBlock};
ghost use Rattle.coef_context.specs.Runs.{edge_values, inner_values, bin_count};
ghost use Rattle.block_spec.specs.Around.{inner_count, inner_positions, values_in};
ghost use Rattle.block_spec.specs.BlockEvents.{inner_bins, edge_bins, edge_positions, edge_events};
ghost use Rattle.block_spec.specs.Values.{values_events, nonzeros};
ghost use Rattle.block_code.specs.BandPositions.{AreSameElsewhere, IsAcPosition};
ghost use Rattle.block_code.specs.NeighbourBlocks.{around_of};
ghost use Rattle.block_code.specs.SumsAround.{AreSums};

use crate::coefficients::edge_count;
use crate::counts::code_three_bits;
use crate::neighbours::{Neighbours, bits_of, bits_of_count};
use crate::positions::{INNER, edge_index, inner_index};
use crate::sums::{Sums, edge_weight, inner_weight};
use crate::values::{Band, code_values};
use adapt_bins::Coder;
use coef_block::Block;
use coef_context::{BinBases, EDGE_VALUES, INNER_VALUES, edge_bases, edge_count_base, inner_bases};

// The inner coefficients of a block, in zigzag order.
#[derive(Clone, Copy)]
struct InnerBand<'a> {
    class: u8,
    neighbours: Neighbours<'a>,
    sums: &'a Sums,
}

// The natural position of an inner coefficient.
#[inline(always)]
fn inner_position(place: usize) -> usize
    requires { place < inner_values }
    ensures value { result ≡ slice_index inner_positions place }
    ensures ac { IsAcPosition result }
{
    usize::from(INNER[place])
}

impl Band for InnerBand<'_> {
    ghost use Rattle.std.specs.Prelude.{◌<◌};
    ghost use Rattle.coef_context.specs.Runs.{inner_values};
    ghost use Rattle.block_spec.specs.Around.{inner_positions};
    ghost use Rattle.block_spec.specs.BlockEvents.{inner_bins};
    ghost use Rattle.block_code.specs.NeighbourBlocks.{around_of};
    ghost use Rattle.block_code.specs.SumsAround.{AreSums};

    ghost positions = { λ band. inner_positions };

    ghost bins = { λ band place remain.
        inner_bins band.class (around_of band.neighbours) place remain };

    ghost count = { λ band. inner_values };

    ghost holds = { λ band. (band.class < 2)
        × AreSums band.sums.now (around_of band.neighbours) };

    #[inline(always)]
    fn count(&self) -> usize {
        INNER_VALUES
    }

    #[inline(always)]
    fn position(&self, place: usize) -> usize {
        inner_position(place)
    }

    #[inline(always)]
    fn index(&self, place: usize) -> usize {
        inner_index(place)
    }

    #[inline(always)]
    fn bases(&self, place: usize, remain: u8) -> BinBases {
        let weight = inner_weight(self.neighbours, self.sums, inner_position(place));
        inner_bases(self.class, place, weight, bits_of_count(remain))
    }
}

/// Codes the inner coefficients, of which `count` are not 0.
#[inline(always)]
pub(crate) fn code_inner<C: Coder>(
    coder: &mut C,
    class: u8,
    neighbours: Neighbours,
    sums: &Sums,
    count: u8,
    wanted: &Block,
    out: &mut Block,
) -> Result<(), C::Stop>
    requires class { class < 2 }
    requires sums { AreSums sums.now (around_of neighbours) }
    requires room { bin_count ≤ C.room coder.old }
    requires count { count ≤ inner_values }
    requires wanted { IsTrue C.given → inner_count wanted.now ≡ count }
    requires block { IsBlock out.old }
    requires zeros { inner_count out.old ≡ 0 }
    ensures stopped { OnErr result (C.stopped coder.new) }
    ensures coded { OnOk result (C.codes coder.old (values_events
        (inner_bins class (around_of neighbours.entry)) 0 (values_in inner_positions out.new))
        coder.new) }
    ensures count { OnOk result (inner_count out.new ≡ count) }
    ensures block { OnOk result (IsBlock out.new) }
    ensures others { OnOk result (AreSameElsewhere inner_positions out.old out.new) }
    ensures same { IsTrue C.given → OnOk result
        (values_in inner_positions out.new ≡ values_in inner_positions wanted.now) }
{
    let band = InnerBand {
        class,
        neighbours,
        sums,
    };
    code_values(coder, &band, count, wanted, out)
}

// The coefficients of the row edge from left to right, or of the column edge from top to bottom.
#[derive(Clone, Copy)]
struct EdgeBand<'a> {
    class: u8,
    column: bool,
    neighbours: Neighbours<'a>,
    sums: &'a Sums,
}

// The natural position of an edge's coefficient.
#[inline(always)]
fn edge_position(column: bool, place: usize) -> usize
    requires { place < edge_values }
    ensures value { result ≡ slice_index (edge_positions column) place }
    ensures ac { IsAcPosition result }
{
    if column { 8 * (place + 1) } else { place + 1 }
}

impl Band for EdgeBand<'_> {
    ghost use Rattle.std.specs.Prelude.{◌<◌};
    ghost use Rattle.coef_context.specs.Runs.{edge_values};
    ghost use Rattle.block_spec.specs.BlockEvents.{edge_bins, edge_positions};
    ghost use Rattle.block_code.specs.NeighbourBlocks.{around_of};
    ghost use Rattle.block_code.specs.SumsAround.{AreSums};

    ghost positions = { λ band. edge_positions band.column };

    ghost bins = { λ band place remain.
        edge_bins band.class band.column (around_of band.neighbours) place remain };

    ghost count = { λ band. edge_values };

    ghost holds = { λ band. (band.class < 2)
        × AreSums band.sums.now (around_of band.neighbours) };

    #[inline(always)]
    fn count(&self) -> usize {
        EDGE_VALUES
    }

    #[inline(always)]
    fn position(&self, place: usize) -> usize {
        edge_position(self.column, place)
    }

    #[inline(always)]
    fn index(&self, place: usize) -> usize {
        edge_index(self.column, place)
    }

    #[inline(always)]
    fn bases(&self, place: usize, remain: u8) -> BinBases {
        let weight = edge_weight(
            self.neighbours,
            self.sums,
            edge_position(self.column, place),
        );
        edge_bases(
            self.class,
            self.column,
            place,
            weight,
            bits_of_count(remain),
        )
    }
}

/// Codes an edge, the row's or the column's: how many of its coefficients are not 0, in three bits, and then these.
/// `inner` is the block's inner count.
#[inline(always)]
pub(crate) fn code_edge<C: Coder>(
    coder: &mut C,
    class: u8,
    column: bool,
    neighbours: Neighbours,
    sums: &Sums,
    inner: u8,
    wanted: &Block,
    out: &mut Block,
) -> Result<(), C::Stop>
    requires class { class < 2 }
    requires sums { AreSums sums.now (around_of neighbours) }
    requires inner { inner ≤ inner_values }
    requires room { bin_count ≤ C.room coder.old }
    requires block { IsBlock out.old }
    requires zeros { nonzeros (values_in (edge_positions column) out.old) ≡ 0 }
    ensures stopped { OnErr result (C.stopped coder.new) }
    ensures coded { OnOk result (C.codes coder.old (edge_events class column
        (around_of neighbours.entry) inner (values_in (edge_positions column) out.new))
        coder.new) }
    ensures block { OnOk result (IsBlock out.new) }
    ensures others { OnOk result (AreSameElsewhere (edge_positions column) out.old out.new) }
    ensures same { IsTrue C.given → OnOk result (values_in (edge_positions column) out.new
        ≡ values_in (edge_positions column) wanted.now) }
{
    let base = edge_count_base(class, column, bits_of(u32::from(inner)));
    let count = code_three_bits(coder, base, Some(edge_count(wanted, column)))?;
    let band = EdgeBand {
        class,
        column,
        neighbours,
        sums,
    };
    code_values(coder, &band, count, wanted, out)?;
    Ok(())
}
