// The AC coefficients of a block.
ghost use Rattle.std.specs.Prelude.{◌≡◌, ◌≢◌, ◌+◌, ◌-◌, ◌*◌, ◌^◌, ◌<◌, ◌≤◌, ℕ, true, [], IfOk, IfErr, slice_index, unsigned_abs};
ghost use Rattle.std.specs.Int.{bit_at};
ghost use Rattle.coef_block.specs.Block.{IsAc};
ghost use Rattle.coef_block.specs.Categories.{category};
ghost use Rattle.coef_block.specs.Nonzeros.{is_nonzero};
ghost use Rattle.coef_block.specs.Zigzag.{zigzag};
ghost use Rattle.scan_spec.specs.BlockBits.{zeros_text, coefficient_at, coefficient_text, ac_text, ac_values};
ghost use Rattle.scan_write.specs.Outputs.{output_with, HasRoom};
ghost use Rattle.scan_spec.specs.TextBounds.{quarters, word_bits, coefficient_bits, ac_bits};
ghost use Rattle.scan_write.specs.Appending.{IsWritten, HasAppended, IsStopped};

use crate::values::{value, word};
use bit_list::{BitBuffer, Piece};
use coef_block::{Block, natural_position};
use huff_table::Codes;
use scan_spec::WriteStop;

// The symbols of sixteen zeros and of the end of a block (ITU-T T.81, F.1.2.2.1).
const SIXTEEN_ZEROS: u8 = 0xf0;

const END_OF_BLOCK: u8 = 0x00;

/// The AC coefficients of a block (ITU-T T.81, F.1.2.2).
#[inline(always)]
pub(crate) fn acs(
    codes: &Codes,
    block: &Block,
    output: &mut BitBuffer,
    out: &mut Piece,
) -> Result<(), WriteStop>
    requires room { HasRoom ac_bits output.old out.old }
    ensures is { IsWritten result (output_with output.old out.old) (output_with output.new out.new)
        (ac_text codes.now 0 (ac_values block.now)) }
    ensures spent { quarters output.new out.new ≤ ac_bits + quarters output.old out.old }
{
    let last = coefficients(codes, block, output, out)?;
    if last == 63 {
        return Ok(());
    }
    word(codes, END_OF_BLOCK, output, out)
}

// The AC coefficients that aren't 0, each with the zeros before it. Answers the zigzag index of the last one, or 0.
#[inline(always)]
fn coefficients(
    codes: &Codes,
    block: &Block,
    output: &mut BitBuffer,
    out: &mut Piece,
) -> Result<usize, WriteStop>
    requires room { HasRoom ac_bits output.old out.old }
    ensures ok { IfOk result
        (λ last. HasAppended (ac_text codes.now 0 (ac_values block.now))
        (output_with output.old out.old) (output_with output.new out.new)
        (ac_text codes.now (63 - last) [])) }
    ensures err { IfErr result
        (λ stop. IsStopped stop (output_with output.old out.old) (output_with output.new out.new)
        (ac_text codes.now 0 (ac_values block.now))) }
    ensures few { IfOk result (λ last. last < 64) }
    ensures spent { quarters output.new out.new ≤ ac_bits + quarters output.old out.old }
    ensures spent_so_far { IfOk result (λ last. quarters output.new out.new
        ≤ coefficient_bits * last + quarters output.old out.old) }
{
    let mut left = without(block.nonzeros(), 0);
    let mut last = 0;
    while left != 0 {
        let index = lowest(left);
        after(codes, block, last, index, output, out)?;
        left = without_lowest(left);
        last = index;
    }
    Ok(last)
}

// The index of the lowest bit that is 1.
#[inline(always)]
fn lowest(mask: u64) -> usize
    requires { 0 < mask }
    ensures within { result < 64 }
    ensures here { bit_at mask result ≡ 1 }
    ensures below { (index : ℕ) → index < result → bit_at mask index ≡ 0 }
{
    mask.trailing_zeros() as usize
}

// A mask with a bit cleared.
#[inline(always)]
fn without(mask: u64, index: usize) -> u64
    requires { index < 64 }
    ensures here { bit_at result index ≡ 0 }
    ensures others { (other : ℕ) → other < 64 → other ≢ index
        → bit_at result other ≡ bit_at mask other }
{
    mask & !(1 << index)
}

// A mask with the lowest of its bits that are 1 cleared.
#[inline(always)]
fn without_lowest(mask: u64) -> u64
    requires { 0 < mask }
    ensures { (index : ℕ) → bit_at mask index ≡ 1
        → ((lower : ℕ) → lower < index → bit_at mask lower ≡ 0)
        → (bit_at result index ≡ 0)
        × ((other : ℕ) → other ≢ index → bit_at result other ≡ bit_at mask other) }
{
    mask & (mask - 1)
}

// The coefficient at a zigzag index after another one, which isn't 0, and the zeros between both.
#[inline(always)]
fn after(
    codes: &Codes,
    block: &Block,
    last: usize,
    index: usize,
    output: &mut BitBuffer,
    out: &mut Piece,
) -> Result<(), WriteStop>
    requires after { last < index }
    requires within { index < 64 }
    requires some { is_nonzero block.now index ≡ true }
    requires room { HasRoom (coefficient_bits * (index - last)) output.old out.old }
    ensures is { IsWritten result (output_with output.old out.old) (output_with output.new out.new)
        (coefficient_text codes.now (index - last - 1)
        (coefficient_at block.now (slice_index zigzag index))) }
    ensures spent { quarters output.new out.new
        ≤ coefficient_bits * (index - last) + quarters output.old out.old }
{
    let value = block.get(natural_position(index));
    let zeros = index - last - 1;
    coefficient(codes, zeros as u8, i32::from(value), output, out)
}

// A coefficient that isn't 0, and the zeros before it.
#[inline(always)]
fn coefficient(
    codes: &Codes,
    zeros: u8,
    number: i32,
    output: &mut BitBuffer,
    out: &mut Piece,
) -> Result<(), WriteStop>
    requires value { IsAc number }
    requires some { 0 < unsigned_abs number }
    requires zeros { zeros < 63 }
    requires room { HasRoom (coefficient_bits * (zeros + 1)) output.old out.old }
    ensures is { IsWritten result (output_with output.old out.old) (output_with output.new out.new)
        (coefficient_text codes.now zeros number) }
    ensures spent { quarters output.new out.new
        ≤ coefficient_bits * (zeros + 1) + quarters output.old out.old }
{
    sixteens(codes, zeros / 16, output, out)?;
    let size = size(number);
    value(codes, 16 * (zeros % 16) + size, number, size, output, out)
}

// The category of a number that isn't 0 (ITU-T T.81, Table F.2). Its lowest bit makes no difference, so it is set: then
// the machine counts the zeros with no test for 0.
#[inline(always)]
fn size(number: i32) -> u8
    requires some { 0 < unsigned_abs number }
    ensures category { result ≡ category (unsigned_abs number) }
    ensures no_more { (bits : ℕ) → unsigned_abs number < 2 ^ bits → result ≤ bits }
{
    (32 - (number.unsigned_abs() | 1).leading_zeros()) as u8
}

// The code word of sixteen zeros, `count` times.
#[inline(always)]
fn sixteens(
    codes: &Codes,
    count: u8,
    output: &mut BitBuffer,
    out: &mut Piece,
) -> Result<(), WriteStop>
    requires room { HasRoom (word_bits * count) output.old out.old }
    ensures is { IsWritten result (output_with output.old out.old) (output_with output.new out.new)
        (zeros_text codes.now count) }
    ensures spent { quarters output.new out.new
        ≤ word_bits * count + quarters output.old out.old }
{
    for _ in 0..count {
        word(codes, SIXTEEN_ZEROS, output, out)?;
    }
    Ok(())
}
