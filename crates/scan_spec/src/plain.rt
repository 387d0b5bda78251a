// The plain program: a block's bits, one after another, into a list.
ghost use Rattle.std.specs.Prelude.{◌≡◌, ◌+◌, ◌*◌, ◌<◌, ◌≤◌, ◌++◌, ℤ, Bool, List, length, unsigned_abs, ◌∷◌, Ok, Err, IfOk, IfErr, OnOk, IsErrOf};
ghost use Rattle.std.specs.List.{All};
ghost use Rattle.bit_list.specs.Bits.{low_bits};
ghost use Rattle.coef_block.specs.Block.{IsDc, IsAc, most_difference};
ghost use Rattle.scan_spec.specs.BlockBits.{Text, word_text, value_text, zeros_text, coefficient_text, ac_text, dc_text, block_text, ac_values};
ghost use Rattle.scan_spec.specs.Blocks.{blocks_text};
ghost use Rattle.scan_spec.specs.PlainWriting.{HasPutPrefix, IsWritten};
ghost use Rattle.scan_spec.specs.declared.plain.PlainError.TheVariants.{NoMemory};

use crate::additional_bits::value_bits;
use crate::slot::Slot;
use crate::stop::WriteStop;
use coef_block::{Block, MOST_DIFFERENCE, natural_position, size};
use huff_table::{Codes, ComponentCodes};
use std::alloc::{AllocError, Global};

/// Why the plain program gives no bits.
#[derive(Clone, Copy, Debug, PartialEq, Eq)]
pub enum PlainError {
    Stop(WriteStop),
    NoMemory,
}

impl From<AllocError> for PlainError {
    ghost from_gives = { λ _ error. error ≡ NoMemory };

    fn from(_: AllocError) -> Self {
        PlainError::NoMemory
    }
}

/// The bits of a block, `before` being the DC of its component's block before: the definition as a program.
pub fn plain_block(
    alloc: Global,
    codes: &ComponentCodes,
    before: i16,
    block: &Block,
) -> Result<Vec<bool>, PlainError>
    requires { IsDc before }
    ensures bits { IfOk result (λ bits. block_text codes.now before block.now ≡ Ok bits.items) }
    ensures stop { (stop : WriteStop) → IsErrOf result (PlainError.Stop stop)
        → block_text codes.now before block.now ≡ Err stop }
{
    let mut bits = Vec::new(alloc);
    put_block(codes, before, block, &mut bits)?;
    Ok(bits)
}

/// The bits of blocks, each coded by the last DC of its component. `before` has the DC of each component's last one
/// before them.
pub fn plain_blocks(
    alloc: Global,
    slots: &[Slot],
    before: [i16; 4],
    blocks: &[Block],
) -> Result<Vec<bool>, PlainError>
    requires long { length slots.now ≡ length blocks.now }
    requires slots { All (λ slot. slot.component < 4) slots.now }
    requires before { All IsDc before }
    ensures bits { IfOk result (λ bits. blocks_text slots.now before blocks.now ≡ Ok bits.items) }
    ensures stop { (stop : WriteStop) → IsErrOf result (PlainError.Stop stop)
        → blocks_text slots.now before blocks.now ≡ Err stop }
{
    let mut bits = Vec::new(alloc);
    let mut last = before;
    for i in 0..slots.len() {
        let slot = &slots[i];
        let block = &blocks[i];
        put_block(&slot.codes, last[slot.component], block, &mut bits)?;
        last[slot.component] = block.get(0);
    }
    Ok(bits)
}

fn put_block(
    codes: &ComponentCodes,
    before: i16,
    block: &Block,
    bits: &mut Vec<bool>,
) -> Result<(), PlainError>
    requires { IsDc before }
    ensures { IsWritten result bits.old.items bits.new.items
        (block_text codes.now before block.now) }
{
    put_dc(&codes.dc, i32::from(before), i32::from(block.get(0)), bits)?;
    put_acs(&codes.ac, block, bits)
}

fn put_dc(codes: &Codes, before: i32, dc: i32, bits: &mut Vec<bool>) -> Result<(), PlainError>
    requires before { IsDc before }
    requires dc { IsDc dc }
    ensures { IsWritten result bits.old.items bits.new.items (dc_text codes.now before dc) }
{
    let difference = dc - before;
    if difference.unsigned_abs() > MOST_DIFFERENCE {
        return Err(PlainError::Stop(WriteStop::DiffRange));
    }
    put_value(codes, size(difference), difference, bits)
}

fn put_acs(codes: &Codes, block: &Block, bits: &mut Vec<bool>) -> Result<(), PlainError>
    ensures { IsWritten result bits.old.items bits.new.items
        (ac_text codes.now 0 (ac_values block.now)) }
{
    let mut zeros = 0;
    for index in 1..64 {
        let value = block.get(natural_position(index));
        zeros = put_next(codes, zeros, i32::from(value), bits)?;
    }
    if zeros == 0 {
        return Ok(());
    }
    put_word(codes, 0x00, bits)
}

// A coefficient and the zeros before it; answers how many zeros there are before the next one.
fn put_next(codes: &Codes, zeros: u8, value: i32, bits: &mut Vec<bool>) -> Result<u8, PlainError>
    requires value { IsAc value }
    requires zeros { zeros ≤ 63 }
    ensures ok { IfOk result (λ next. (whole : Text) (old : List Bool) (values : List ℤ)
        → HasPutPrefix whole old bits.old.items (ac_text codes.now zeros (value ∷ values))
        → HasPutPrefix whole old bits.new.items (ac_text codes.now next values)) }
    ensures few { IfOk result (λ next. next ≤ zeros + 1) }
    ensures err { IfErr result (λ error. (whole : Text) (old : List Bool) (values : List ℤ)
        → HasPutPrefix whole old bits.old.items (ac_text codes.now zeros (value ∷ values))
        → IsWritten (Err error) old bits.new.items whole) }
{
    if value == 0 {
        return Ok(zeros + 1);
    }
    put_coefficient(codes, zeros, value, bits)?;
    Ok(0)
}

fn put_coefficient(
    codes: &Codes,
    zeros: u8,
    value: i32,
    bits: &mut Vec<bool>,
) -> Result<(), PlainError>
    requires { IsAc value }
    ensures { IsWritten result bits.old.items bits.new.items
        (coefficient_text codes.now zeros value) }
{
    put_zeros(codes, zeros / 16, bits)?;
    put_value(codes, 16 * (zeros % 16) + size(value), value, bits)
}

fn put_zeros(codes: &Codes, sixteens: u8, bits: &mut Vec<bool>) -> Result<(), PlainError>
    ensures { IsWritten result bits.old.items bits.new.items (zeros_text codes.now sixteens) }
{
    for _ in 0..sixteens {
        put_word(codes, 0xf0, bits)?;
    }
    Ok(())
}

fn put_value(codes: &Codes, symbol: u8, value: i32, bits: &mut Vec<bool>) -> Result<(), PlainError>
    requires { unsigned_abs value ≤ most_difference }
    ensures { IsWritten result bits.old.items bits.new.items (value_text codes.now symbol value) }
{
    put_word(codes, symbol, bits)?;
    let size = size(value);
    put_bits(bits, u32::from(value_bits(value, size)), size)?;
    Ok(())
}

fn put_word(codes: &Codes, symbol: u8, bits: &mut Vec<bool>) -> Result<(), PlainError>
    ensures { IsWritten result bits.old.items bits.new.items (word_text codes.now symbol) }
{
    let Some((code, size)) = codes.word(symbol) else {
        return Err(PlainError::Stop(WriteStop::NoCode));
    };
    put_bits(bits, u32::from(code), size)?;
    Ok(())
}

// The lowest bits of a number, the highest of them first.
fn put_bits(bits: &mut Vec<bool>, number: u32, count: u8) -> Result<(), AllocError>
    requires { count ≤ 16 }
    ensures { OnOk result (bits.new.items ≡ bits.old.items ++ low_bits count number) }
{
    let mut left = count;
    while left > 0 {
        left -= 1;
        bits.push((number >> left) & 1 == 1)?;
    }
    Ok(())
}
