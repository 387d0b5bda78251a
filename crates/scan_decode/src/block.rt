// A block.
ghost use Rattle.std.specs.Prelude.{◌≡◌, IfOk};
ghost use Rattle.coef_block.specs.Block.{IsDc};
ghost use Rattle.scan_spec.specs.BlockBits.{coefficient_at, in_zigzag};
ghost use Rattle.scan_decode.specs.ReadWords.{AreReads};
ghost use Rattle.scan_decode.specs.ReadResults.{values_at_cursor, coded_at};

use crate::acs::acs;
use crate::dc::dc;
use crate::read_word::ReadWord;
use bit_list::BitIn;
use coef_block::Block;
use huff_table::ComponentCodes;
use scan_spec::ScanRefusal;

/// Replaces `out` by a block after one with the DC before. Answers its DC.
#[inline(always)]
pub(crate) fn block(
    words: &[ReadWord],
    codes: &ComponentCodes,
    before: i16,
    input: &mut BitIn,
    out: &mut Block,
) -> Result<i16, ScanRefusal>
    requires words { AreReads codes.now.ac words.now }
    requires before { IsDc before }
    ensures is { values_at_cursor result (in_zigzag out.new) input.new.cursor
        ≡ coded_at codes.now before input.old.bytes input.old.cursor }
    ensures dc { IfOk result (λ dc. dc ≡ coefficient_at out.new 0) }
    ensures small { IfOk result IsDc }
    ensures bytes { input.new.bytes ≡ input.old.bytes }
{
    let value = dc(&codes.dc, before, input)?;
    *out = Block::zero();
    out.set(0, value);
    acs(words, &codes.ac, input, out)?;
    Ok(value)
}
