// The values of a band, place after place, while some that are not 0 remain.
ghost use Rattle.std.specs.Prelude.{◌≡◌, ℕ, List, ◌+◌, ◌-◌, ◌<◌, ◌≤◌, ◌==◌, IfOk, IfSome, OnErr, OnOk, IsTrue, unsigned_abs, slice_index, if◌then◌else◌};
ghost use Rattle.coef_block.specs.Block.{IsBlock};
ghost use Rattle.coef_block.specs.Zigzag.{zigzag};
ghost use Rattle.coef_context.specs.Runs.{inner_values, bin_count};
ghost use Rattle.coef_context.specs.ValueBins.{ValueBins};
ghost use Rattle.block_spec.specs.Around.{values_in};
ghost use Rattle.block_spec.specs.Values.{category_of, is_zero, nonzeros, one_events, value_events, values_events};
ghost use Rattle.coef_context.specs.BinBases.{AreBases, bins_at};
ghost use Rattle.block_code.specs.BandPositions.{AreSameElsewhere, IsAcPosition, IsBand};
ghost use Rattle.block_code.specs.ValueRanges.{IsAc};

use crate::bits::is_above;
use crate::coefficients::{coefficient, put_coefficient};
use crate::value::{code_nonzero, code_rest, code_sign, code_value, size_of};
use adapt_bins::Coder;
use coef_block::Block;
use coef_context::{AC_SIZES, BinBases};

/// How many steps the size of an AC coefficient has.
const AC_STEPS: u8 = AC_SIZES as u8;

/// A band of coefficients: the inner ones, the row edge, or the column edge. It says where each is in the block and
/// where it has its bins, by its place in the band from 0 on and by how many values that are not 0 remain.
pub(crate) trait Band {
    /// The natural positions.
    ghost positions: { Self → List ℕ };

    /// The bins of a value, by its place and by how many remain.
    ghost bins: { Self → ℕ → ℕ → ValueBins };

    /// How many places there are.
    ghost count: { Self → ℕ };

    /// The band is of one of the two classes.
    ghost holds: { Self → Type 0 };

    /// How many places there are.
    fn count(&self) -> usize
        ensures value { result ≡ count self.now }
        ensures few { result ≤ inner_values };

    /// The natural position at a place.
    fn position(&self, place: usize) -> usize
        requires { place < count self.now }
        ensures value { result ≡ slice_index (positions self.now) place }
        ensures ac { IsAcPosition result };

    /// The zigzag index at a place.
    fn index(&self, place: usize) -> usize
        requires { place < count self.now }
        ensures position { slice_index zigzag result ≡ slice_index (positions self.now) place }
        ensures within { result < 64 };

    /// Where the bins of a value begin.
    fn bases(&self, place: usize, remain: u8) -> BinBases
        requires holds { holds self.now }
        requires some { 1 ≤ remain }
        requires place { place + remain ≤ count self.now }
        ensures bins { bins_at result ≡ bins self.now place remain }
        ensures bases { AreBases result };
}

// Codes a value of a band, of `first`, 0 or 1, to ten bits. One of up to three bits returns before the loop over the
// size: a processor predicts that better than a loop's end. Each band has a copy of its own, which has one call: a
// large function with more calls isn't inlined (`tests/inlined`).
#[inline(always)]
fn code_small<C: Coder, B: Band>(
    coder: &mut C,
    band: &B,
    place: usize,
    remain: u8,
    first: u8,
    value: Option<i32>,
) -> Result<i32, C::Stop>
    requires band { B.holds band.now }
    requires some { 1 ≤ remain }
    requires place { place + remain ≤ B.count band.now }
    requires room { bin_count ≤ C.room coder.old }
    requires first { first ≤ 1 }
    requires value { IsTrue C.given
        → IfSome value (λ x. (first ≤ category_of x) × (category_of x ≤ 10)) }
    ensures stopped { OnErr result (C.stopped coder.new) }
    ensures coded { IfOk result (λ x. C.codes coder.old
        (value_events (B.bins band.now place remain) first 10 x) coder.new) }
    ensures same { IsTrue C.given → IfSome value (λ x. IfOk result (λ y. y ≡ x)) }
    ensures within { IfOk result (λ x. (first ≤ category_of x) × (category_of x ≤ 10)) }
{
    let bases = band.bases(place, remain);
    let size = size_of(value);
    let some = code_nonzero(coder, bases, first, size)?;
    if !some {
        return Ok(0);
    }
    let above_one = coder.code_branching(bases.step(1), is_above(size, 1))?;
    if !above_one {
        let one = code_sign(coder, bases, value)?;
        return Ok(one);
    }
    let above_two = coder.code_branching(bases.step(2), is_above(size, 2))?;
    if !above_two {
        let two = code_rest(coder, bases, 2, value)?;
        return Ok(two);
    }
    let above_three = coder.code_branching(bases.step(3), is_above(size, 3))?;
    if !above_three {
        let three = code_rest(coder, bases, 3, value)?;
        return Ok(three);
    }
    let x = code_value(coder, bases, 4, AC_STEPS, value)?;
    Ok(x)
}

// The value at a place, while some that are not 0 remain: the step 0 is left out if all that are left are not 0.
#[inline(always)]
fn code_one<C: Coder, B: Band>(
    coder: &mut C,
    band: &B,
    place: usize,
    remain: u8,
    value: i32,
) -> Result<i32, C::Stop>
    requires band { B.holds band.now }
    requires some { 1 ≤ remain }
    requires place { place + remain ≤ B.count band.now }
    requires room { bin_count ≤ C.room coder.old }
    requires value { IsTrue C.given
        → IsAc value × (remain ≡ B.count band.now - place → 1 ≤ category_of value) }
    ensures stopped { OnErr result (C.stopped coder.new) }
    ensures coded { IfOk result (λ x. C.codes coder.old
        (one_events (B.bins band.now place remain) remain (B.count band.now - place) x)
        coder.new) }
    ensures same { IsTrue C.given → IfOk result (λ x. x ≡ value) }
    ensures full { IfOk result (λ x. remain ≡ B.count band.now - place → 1 ≤ category_of x) }
    ensures within { IfOk result IsAc }
{
    let full = remain as usize == band.count() - place;
    let x = code_small(coder, band, place, remain, u8::from(full), Some(value))?;
    Ok(x)
}

// How many remain after a value.
#[inline(always)]
fn remain_after(remain: u8, x: i32) -> u8
    requires { 1 ≤ remain }
    ensures { result ≡ (if is_zero x then remain else remain - 1) }
{
    if x.unsigned_abs() == 0 {
        remain
    } else {
        remain - 1
    }
}

/// Codes the values of a band, of which `count` are not 0, up to the last of these. A coder that is given the bits
/// codes those of `wanted`; one that gets them ignores it. The values are put into `out`, where all of them are 0
/// before.
#[inline(always)]
pub(crate) fn code_values<C: Coder, B: Band>(
    coder: &mut C,
    band: &B,
    count: u8,
    wanted: &Block,
    out: &mut Block,
) -> Result<(), C::Stop>
    requires room { bin_count ≤ C.room coder.old }
    requires band { B.holds band.now }
    requires positions { IsBand (B.positions band.now) (B.count band.now) }
    requires few { B.count band.now ≤ inner_values }
    requires count { count ≤ B.count band.now }
    requires wanted { IsTrue C.given
        → nonzeros (values_in (B.positions band.now) wanted.now) ≡ count }
    requires block { IsBlock out.old }
    requires zeros { nonzeros (values_in (B.positions band.now) out.old) ≡ 0 }
    ensures stopped { OnErr result (C.stopped coder.new) }
    ensures coded { OnOk result (C.codes coder.old
        (values_events (B.bins band.now) 0 (values_in (B.positions band.now) out.new)) coder.new) }
    ensures count { OnOk result (nonzeros (values_in (B.positions band.now) out.new) ≡ count) }
    ensures block { OnOk result (IsBlock out.new) }
    ensures others { OnOk result (AreSameElsewhere (B.positions band.now) out.old out.new) }
    ensures same { IsTrue C.given → OnOk result
        (values_in (B.positions band.now) out.new ≡ values_in (B.positions band.now) wanted.now) }
{
    let mut remain = count;
    let mut place = 0;
    while remain > 0 {
        let position = band.position(place);
        let x = code_one(coder, band, place, remain, coefficient(wanted, position))?;
        put_coefficient(out, band.index(place), x);
        remain = remain_after(remain, x);
        place += 1;
    }
    Ok(())
}
