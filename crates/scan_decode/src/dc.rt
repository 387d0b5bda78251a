// The DC of a block.
ghost use Rattle.std.specs.Prelude.{◌≡◌, IfOk, unsigned_abs};
ghost use Rattle.coef_block.specs.Block.{IsDc};
ghost use Rattle.scan_spec.specs.ScanReading.{dc_at};
ghost use Rattle.scan_decode.specs.ReadResults.{at_cursor};

use crate::values::{extended, symbol};
use bit_list::BitIn;
use coef_block::MOST_DC;
use huff_table::Codes;
use scan_spec::ScanRefusal;

/// The DC after the one before (ITU-T T.81, F.2.2.1).
#[inline(always)]
pub(crate) fn dc(codes: &Codes, before: i16, input: &mut BitIn) -> Result<i16, ScanRefusal>
    requires { IsDc before }
    ensures is { at_cursor result input.new.cursor
        ≡ dc_at codes.now before input.old.bytes input.old.cursor }
    ensures small { IfOk result IsDc }
    ensures bytes { input.new.bytes ≡ input.old.bytes }
{
    let size = symbol(codes, input)?;
    if size > 11 {
        return Err(ScanRefusal::SymbolBad {
            place: input.place(),
        });
    }
    let difference = extended(size, input)?;
    let dc = i32::from(before) + difference;
    if dc.unsigned_abs() > MOST_DC {
        return Err(ScanRefusal::DcRange {
            place: input.place(),
        });
    }
    Ok(dc as i16)
}
