// A block.
ghost use Rattle.std.specs.Prelude.{◌≡◌, ◌+◌, ◌≤◌, IfOk};
ghost use Rattle.coef_block.specs.Block.{IsDc};
ghost use Rattle.scan_spec.specs.BlockBits.{coefficient_at, block_text};
ghost use Rattle.scan_write.specs.Outputs.{output_with, HasRoom};
ghost use Rattle.scan_spec.specs.TextBounds.{quarters, block_bits};
ghost use Rattle.scan_write.specs.Appending.{IsWritten};

use crate::acs::acs;
use crate::dc::dc;
use bit_list::{BitBuffer, Piece};
use coef_block::Block;
use huff_table::ComponentCodes;
use scan_spec::WriteStop;

/// A block after one with the DC before. Answers its DC.
#[inline(always)]
pub(crate) fn block(
    codes: &ComponentCodes,
    before: i16,
    block: &Block,
    output: &mut BitBuffer,
    out: &mut Piece,
) -> Result<i16, WriteStop>
    requires before { IsDc before }
    requires room { HasRoom block_bits output.old out.old }
    ensures is { IsWritten result (output_with output.old out.old) (output_with output.new out.new)
        (block_text codes.now before block.now) }
    ensures dc { IfOk result (λ dc. dc ≡ coefficient_at block.now 0) }
    ensures small { IfOk result IsDc }
    ensures spent { quarters output.new out.new ≤ block_bits + quarters output.old out.old }
{
    let value = block.get(0);
    dc(&codes.dc, before, value, output, out)?;
    acs(&codes.ac, block, output, out)?;
    Ok(value)
}
