// The DC of a block.
ghost use Rattle.std.specs.Prelude.{◌+◌, ◌≤◌};
ghost use Rattle.coef_block.specs.Block.{IsDc};
ghost use Rattle.scan_spec.specs.BlockBits.{dc_text};
ghost use Rattle.scan_write.specs.Outputs.{output_with, HasRoom};
ghost use Rattle.scan_spec.specs.TextBounds.{quarters, dc_bits};
ghost use Rattle.scan_write.specs.Appending.{IsWritten};

use crate::values::value;
use bit_list::{BitBuffer, Piece};
use coef_block::{MOST_DIFFERENCE, size};
use huff_table::Codes;
use scan_spec::WriteStop;

/// The DC after the one before (ITU-T T.81, F.1.2.1).
#[inline(always)]
pub(crate) fn dc(
    codes: &Codes,
    before: i16,
    dc: i16,
    output: &mut BitBuffer,
    out: &mut Piece,
) -> Result<(), WriteStop>
    requires before { IsDc before }
    requires dc { IsDc dc }
    requires room { HasRoom dc_bits output.old out.old }
    ensures is { IsWritten result (output_with output.old out.old) (output_with output.new out.new)
        (dc_text codes.now before dc) }
    ensures spent { quarters output.new out.new ≤ dc_bits + quarters output.old out.old }
{
    let difference = i32::from(dc) - i32::from(before);
    if difference.unsigned_abs() > MOST_DIFFERENCE {
        return Err(WriteStop::DiffRange);
    }
    let size = size(difference);
    value(codes, size, difference, size, output, out)
}
