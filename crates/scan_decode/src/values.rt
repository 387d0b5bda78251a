// Symbols, and values by their category.
ghost use Rattle.std.specs.Prelude.{◌≡◌, ◌^◌, ◌<◌, ◌≤◌, IfOk, unsigned_abs};
ghost use Rattle.scan_spec.specs.ScanReading.{symbol_at, extended_at};
ghost use Rattle.scan_decode.specs.ReadResults.{at_cursor};

use crate::refusals::{of_bits, of_code};
use bit_list::BitIn;
use huff_table::Codes;
use scan_spec::{ScanRefusal, extend};

/// The symbol of the next code word.
#[inline(always)]
pub(crate) fn symbol(codes: &Codes, input: &mut BitIn) -> Result<u8, ScanRefusal>
    ensures is { at_cursor result input.new.cursor
        ≡ symbol_at codes.now input.old.bytes input.old.cursor }
    ensures bytes { input.new.bytes ≡ input.old.bytes }
{
    match codes.next(input) {
        Ok(value) => Ok(value),
        Err(fault) => Err(of_code(fault)),
    }
}

/// The value that the next bits spell in a category.
#[inline(always)]
pub(crate) fn extended(size: u8, input: &mut BitIn) -> Result<i32, ScanRefusal>
    requires { size ≤ 11 }
    ensures is { at_cursor result input.new.cursor
        ≡ extended_at size input.old.bytes input.old.cursor }
    ensures small { IfOk result (λ value. unsigned_abs value < 2 ^ size) }
    ensures bytes { input.new.bytes ≡ input.old.bytes }
{
    match input.take(size) {
        Ok(bits) => Ok(extend(bits, size)),
        Err(fault) => Err(of_bits(fault)),
    }
}
