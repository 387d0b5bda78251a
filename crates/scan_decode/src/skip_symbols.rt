// Symbols of a skipped block, one by one.
ghost use Rattle.std.specs.Prelude.{◌≡◌, ◌≤◌, ◌<◌, IfOk, IfErr};
ghost use Rattle.scan_decode.specs.SkipWords.{GoesOn, IsRefused};

use crate::acs::{At, go_on};
use crate::target::Nothing;
use bit_list::BitIn;
use huff_table::Codes;
use scan_spec::ScanRefusal;

/// The zigzag index after the next symbols, up to the first that isn't sixteen zeros. A function of its own: the room
/// for the answer of the call below is cleared only if this is called, and not for each word of the table.
#[inline(always)]
pub(crate) fn by_symbols_apart(
    codes: &Codes,
    input: &mut BitIn,
    index: usize,
) -> Result<usize, ScanRefusal>
    requires some { 0 < index }
    requires left { index < 64 }
    ensures ok { IfOk result
        (λ next. GoesOn codes.now input.old.bytes index input.old.cursor next input.new.cursor) }
    ensures some { IfOk result (λ next. (index < next) × (next ≤ 64)) }
    ensures err { IfErr result
        (λ refusal. IsRefused codes.now input.old.bytes index input.old.cursor refusal) }
    ensures bytes { input.new.bytes ≡ input.old.bytes }
{
    let (result, left) = by_symbols_of(codes, input.copied(), index);
    *input = left.copied();
    result
}

// The same for an input by value, so that no address of a local one is passed on.
#[cold]
#[inline(never)]
fn by_symbols_of<'a>(
    codes: &Codes,
    input: BitIn<'a>,
    index: usize,
) -> (Result<usize, ScanRefusal>, BitIn<'a>)
    requires some { 0 < index }
    requires left { index < 64 }
    ensures ok { IfOk result.0
        (λ next. GoesOn codes.now input.entry.bytes index input.entry.cursor next result.1.cursor) }
    ensures some { IfOk result.0 (λ next. (index < next) × (next ≤ 64)) }
    ensures err { IfErr result.0
        (λ refusal. IsRefused codes.now input.entry.bytes index input.entry.cursor refusal) }
    ensures bytes { result.1.bytes ≡ input.entry.bytes }
{
    let mut left = input;
    let result = by_symbols(codes, &mut left, index);
    (result, left)
}

// The same for an input behind a reference.
#[inline(always)]
fn by_symbols(codes: &Codes, input: &mut BitIn, index: usize) -> Result<usize, ScanRefusal>
    requires some { 0 < index }
    requires left { index < 64 }
    ensures ok { IfOk result
        (λ next. GoesOn codes.now input.old.bytes index input.old.cursor next input.new.cursor) }
    ensures some { IfOk result (λ next. (index < next) × (next ≤ 64)) }
    ensures err { IfErr result
        (λ refusal. IsRefused codes.now input.old.bytes index input.old.cursor refusal) }
    ensures bytes { input.new.bytes ≡ input.old.bytes }
{
    let begin = At {
        index,
        loose: false,
    };
    let mut at = go_on(codes, input, &mut Nothing {}, begin)?;
    while at.loose && at.index < 64 {
        at = go_on(codes, input, &mut Nothing {}, at)?;
    }
    Ok(at.index)
}
