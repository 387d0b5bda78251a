// Code words, and values by their category.
ghost use Rattle.std.specs.Prelude.{◌≡◌, ◌+◌, ◌^◌, ◌<◌, ◌≤◌, ◌++◌, unsigned_abs};
ghost use Rattle.bit_list.specs.Bits.{low_bits};
ghost use Rattle.coef_block.specs.Block.{most_difference};
ghost use Rattle.coef_block.specs.Categories.{category};
ghost use Rattle.scan_spec.specs.BlockBits.{word_text, value_text};
ghost use Rattle.scan_write.specs.Outputs.{output_with, appended, HasRoom};
ghost use Rattle.scan_spec.specs.TextBounds.{quarters, word_bits};
ghost use Rattle.scan_write.specs.Appending.{IsWritten};

use bit_list::{BitBuffer, Piece};
use huff_table::Codes;
use scan_spec::{WriteStop, value_bits};

/// The code word of a symbol.
#[inline(always)]
pub(crate) fn word(
    codes: &Codes,
    symbol: u8,
    output: &mut BitBuffer,
    out: &mut Piece,
) -> Result<(), WriteStop>
    requires room { HasRoom word_bits output.old out.old }
    ensures is { IsWritten result (output_with output.old out.old) (output_with output.new out.new)
        (word_text codes.now symbol) }
    ensures spent { quarters output.new out.new ≤ word_bits + quarters output.old out.old }
{
    let Some((code, size)) = codes.word(symbol) else {
        return Err(WriteStop::NoCode);
    };
    put(u32::from(code), u32::from(size), output, out);
    Ok(())
}

/// The code word of a symbol with the category of a value, and the value's bits. `size` is that category.
#[inline(always)]
pub(crate) fn value(
    codes: &Codes,
    symbol: u8,
    value: i32,
    size: u8,
    output: &mut BitBuffer,
    out: &mut Piece,
) -> Result<(), WriteStop>
    requires small { unsigned_abs value ≤ most_difference }
    requires size { size ≡ category (unsigned_abs value) }
    requires room { HasRoom (word_bits + size) output.old out.old }
    ensures is { IsWritten result (output_with output.old out.old) (output_with output.new out.new)
        (value_text codes.now symbol value) }
    ensures spent { quarters output.new out.new ≤ word_bits + size + quarters output.old out.old }
{
    let Some((code, count)) = codes.word(symbol) else {
        return Err(WriteStop::NoCode);
    };
    put_both(code, count, value_bits(value, size), size, output, out);
    Ok(())
}

// Two codes, one after the other, as one.
#[inline(always)]
fn put_both(code: u16, count: u8, next: u16, size: u8, output: &mut BitBuffer, out: &mut Piece)
    requires count { count ≤ 16 }
    requires code { code < 2 ^ count }
    requires size { size ≤ 11 }
    requires next { next < 2 ^ size }
    requires room { HasRoom (count + size) output.old out.old }
    ensures is { output_with output.new out.new
        ≡ appended (output_with output.old out.old) (low_bits count code ++ low_bits size next) }
    ensures spent { quarters output.new out.new ≤ count + size + quarters output.old out.old }
{
    let joined = (u32::from(code) << size) + u32::from(next);
    put(joined, u32::from(count + size), output, out);
}

// The low `count` bits of a code, which has no others.
#[inline(always)]
fn put(code: u32, count: u32, output: &mut BitBuffer, out: &mut Piece)
    requires count { count ≤ 27 }
    requires code { code < 2 ^ count }
    requires room { HasRoom count output.old out.old }
    ensures is { output_with output.new out.new
        ≡ appended (output_with output.old out.old) (low_bits count code) }
    ensures spent { quarters output.new out.new ≤ count + quarters output.old out.old }
{
    output.put(code, count, out);
}
