// The blocks of an MCU.
ghost use Rattle.std.specs.Prelude.{◌≡◌, ◌+◌, ◌*◌, ◌<◌, ◌≤◌, length, map, OnOk};
ghost use Rattle.std.specs.List.{All};
ghost use Rattle.coef_block.specs.Block.{IsDc};
ghost use Rattle.scan_spec.specs.Blocks.{blocks_text, dcs_after};
ghost use Rattle.scan_spec.specs.ShapeInside.{slot_in};
ghost use Rattle.scan_write.specs.Outputs.{output_with, HasRoom};
ghost use Rattle.scan_spec.specs.TextBounds.{quarters, block_bits};
ghost use Rattle.scan_write.specs.Appending.{IsWritten};

use crate::block::block;
use bit_list::{BitBuffer, Piece};
use coef_block::Block;
use huff_table::ComponentCodes;
use scan_spec::WriteStop;

/// The blocks of an MCU, each of the component that its slot names, after the last DC of each component.
#[inline(always)]
pub(crate) fn blocks(
    codes: &[ComponentCodes],
    slots: &[u8],
    before: &mut [i16; 4],
    mcu: &[Block],
    output: &mut BitBuffer,
    out: &mut Piece,
) -> Result<(), WriteStop>
    requires long { length mcu.now ≡ length slots.now }
    requires few { length codes.now ≤ 4 }
    requires slots { All (λ slot. slot < length codes.now) slots.now }
    requires before { All IsDc before.old }
    requires room { HasRoom (block_bits * length slots.now) output.old out.old }
    ensures is { IsWritten result (output_with output.old out.old) (output_with output.new out.new)
        (blocks_text (map (slot_in codes.now) slots.now) before.old mcu.now) }
    ensures dcs { OnOk result
        (before.new ≡ dcs_after (map (slot_in codes.now) slots.now) before.old mcu.now) }
    ensures small { All IsDc before.new }
    ensures spent { quarters output.new out.new
        ≤ block_bits * length slots.now + quarters output.old out.old }
{
    for (i, slot) in slots.iter().enumerate() {
        let component = usize::from(*slot);
        before[component] = block(&codes[component], before[component], &mcu[i], output, out)?;
    }
    Ok(())
}
