// The parts of a block in the order of their events, put or got by one body.
ghost use Rattle.std.specs.Prelude.{◌≡◌, ◌<◌, ◌≤◌, ◌-◌, IfOk, OnOk, OnErr, IfSome, IfNone, IsTrue, Some, pos, replicate};
ghost use Rattle.coef_block.specs.Block.{IsBlock};
ghost use Rattle.coef_context.specs.Runs.{bin_count, inner_values, spreads};
ghost use Rattle.block_spec.specs.Around.{Around, column_positions, dc_spread, inner_count, row_positions, values_in};
ghost use Rattle.block_spec.specs.BlockEvents.{inner_count_events, dc_events};
ghost use Rattle.block_spec.specs.ReadBlocks.{IsBlockCount, residue_events};
ghost use Rattle.block_spec.specs.Values.{nonzeros};
ghost use Rattle.block_code.specs.BandPositions.{HaveSameAcs};
ghost use Rattle.block_code.specs.Edges.{EdgesCoded};
ghost use Rattle.block_code.specs.NeighbourBlocks.{around_of};
ghost use Rattle.block_code.specs.SumsAround.{AreSums};
ghost use Rattle.block_code.specs.ValueRanges.{IsResidue, IsSixBits};

use crate::bands::{code_edge, code_inner};
use crate::coefficients::inner_count;
use crate::counts::code_six_bits;
use crate::neighbours::{Neighbours, bits_of, guess, spread};
use crate::sums::{Sums, sums_of};
use crate::value::code_value;
use adapt_bins::{Coder, Holds};
use coef_block::Block;
use coef_context::{DC_SIZES, INNER_VALUES, dc_bases, inner_count_base};

/// The largest inner count.
const MOST_INNER: u8 = INNER_VALUES as u8;

/// How many steps the size of a residue has.
const DC_STEPS: u8 = DC_SIZES as u8;

/// Codes the parts of a block, from the inner count on, puts its AC coefficients into `out` and returns its residue.
/// A coder that is given the bits codes `wanted` and `residue`; one that gets them ignores both. Returns `None` if
/// the six bits of the count are above 49, and then codes nothing after them.
#[inline(never)]
pub(crate) fn code_parts<L: Coder, H: Holds<L>>(
    held: &mut H,
    class: u8,
    neighbours: Neighbours,
    residue: i32,
    wanted: &Block,
    out: &mut Block,
) -> Result<Option<i32>, L::Stop>
    requires class { class < 2 }
    requires room { bin_count ≤ H.room held.old }
    requires residue { IsTrue L.given → IsResidue residue }
    requires zeros { out.old ≡ replicate 64 (pos 0) }
    ensures stopped { OnErr result (H.stopped held.new) }
    ensures coded { IfOk result (λ counted. IfSome counted (λ residue. H.codes held.old
        (residue_events class (around_of neighbours.entry) out.new residue) held.new)) }
    ensures small { IfOk result (λ counted. IfSome counted IsResidue) }
    ensures block { IfOk result (λ counted. IfSome counted (λ _. IsBlock out.new)) }
    ensures many { IfOk result (λ counted. IfNone counted (IsBlockCount
        (λ events. H.codes held.old events held.new) class (around_of neighbours.entry))) }
    ensures same { IsTrue L.given → IfOk result
        (λ counted. (counted ≡ Some residue) × HaveSameAcs out.new wanted.now) }
{
    let (guess, wanted_count) = (guess(neighbours), inner_count(wanted));
    let mut coder = held.moved();
    let count = match code_inner_count(&mut coder, class, guess, wanted_count) {
        Ok(count) => count,
        Err(stop) => {
            held.back(coder);
            return Err(stop);
        }
    };
    if count > MOST_INNER {
        held.back(coder);
        return Ok(None);
    }
    let sums = sums_of(neighbours);
    let inner = code_inner(&mut coder, class, neighbours, &sums, count, wanted, out);
    match inner {
        Ok(()) => {}
        Err(stop) => {
            held.back(coder);
            return Err(stop);
        }
    }
    let edges = code_edges(&mut coder, class, neighbours, &sums, count, wanted, out);
    match edges {
        Ok(()) => {}
        Err(stop) => {
            held.back(coder);
            return Err(stop);
        }
    }
    let dc = code_dc(&mut coder, class, spread(neighbours), residue);
    held.back(coder);
    let residue = dc?;
    Ok(Some(residue))
}

// The inner count in six bits, by the guess at it.
#[inline(always)]
fn code_inner_count<C: Coder>(coder: &mut C, class: u8, guess: u8, count: u8) -> Result<u8, C::Stop>
    requires class { class < 2 }
    requires guess { guess ≤ inner_values }
    requires room { bin_count ≤ C.room coder.old }
    requires count { IsTrue C.given → IsSixBits count }
    ensures stopped { OnErr result (C.stopped coder.new) }
    ensures coded { IfOk result
        (λ n. C.codes coder.old (inner_count_events class guess n) coder.new) }
    ensures same { IsTrue C.given → IfOk result (λ n. n ≡ count) }
    ensures below { IfOk result IsSixBits }
{
    let base = inner_count_base(class, bits_of(u32::from(guess)));
    let n = code_six_bits(coder, base, Some(count))?;
    Ok(n)
}

// The row edge, and then the column edge. By one body: with two copies the compiler wouldn't inline the values
// (`tests/inlined`).
#[inline(always)]
fn code_edges<C: Coder>(
    coder: &mut C,
    class: u8,
    neighbours: Neighbours,
    sums: &Sums,
    inner: u8,
    wanted: &Block,
    out: &mut Block,
) -> Result<(), C::Stop>
    requires class { class < 2 }
    requires sums { AreSums sums.now (around_of neighbours) }
    requires inner { inner ≤ inner_values }
    requires room { bin_count ≤ C.room coder.old }
    requires block { IsBlock out.old }
    requires row { nonzeros (values_in row_positions out.old) ≡ 0 }
    requires column { nonzeros (values_in column_positions out.old) ≡ 0 }
    ensures stopped { OnErr result (C.stopped coder.new) }
    ensures coded { OnOk result (EdgesCoded (λ events. C.codes coder.old events coder.new)
        (IsTrue C.given) class (around_of neighbours.entry) inner out.old wanted.now out.new) }
    ensures block { OnOk result (IsBlock out.new) }
{
    for edge in 0..2u8 {
        code_edge(
            coder,
            class,
            edge == 1,
            neighbours,
            sums,
            inner,
            wanted,
            out,
        )?;
    }
    Ok(())
}

// The residue, by the spread of the DCs around.
#[inline(always)]
fn code_dc<C: Coder>(coder: &mut C, class: u8, spread: u8, residue: i32) -> Result<i32, C::Stop>
    requires class { class < 2 }
    requires spread { spread < spreads }
    requires room { bin_count ≤ C.room coder.old }
    requires residue { IsTrue C.given → IsResidue residue }
    ensures stopped { OnErr result (C.stopped coder.new) }
    ensures coded { IfOk result (λ x. (around : Around) → dc_spread around ≡ spread
        → C.codes coder.old (dc_events class around x) coder.new) }
    ensures same { IsTrue C.given → IfOk result (λ x. x ≡ residue) }
    ensures small { IfOk result IsResidue }
{
    let x = code_value(coder, dc_bases(class, spread), 0, DC_STEPS, Some(residue))?;
    Ok(x)
}
