// What holds of all values and of all blocks, and the definition computed on rows.
ghost use Rattle.std.specs.Prelude.{◌≡◌, ◌++◌, ℤ, Bool, List, length, unsigned_abs};
ghost use Rattle.coef_block.specs.Categories.{category as size};
ghost use Rattle.scan_spec.specs.ValueBits.{mag, extend};
ghost use Rattle.scan_spec.specs.BlockBits.{then_text};
ghost use Rattle.scan_spec.specs.Blocks.{blocks_text, dcs_after};
ghost use Rattle.scan_spec.specs.BlockRows.{rows};
ghost use Rattle.scan_spec.specs.PadRows.{listed, summed, spelled};
ghost use Rattle.scan_spec.specs.ScanRows.{written, put, done, read, sampled, stuck};
ghost use Rattle.scan_spec.specs.ScanLaws.{IsPutInParts, IsBlockSpelled, IsBlockReadAgain, AreBlocksSpelled, AreBlocksReadAgain, IsMcuSpelled, IsMcuReadAgain, IsSpelled, IsReadAgain, IsSummed, OneScan, IsRefusalOfItems, IsEndOfItems, OneOutcome, IsLongest, IsPutWhole, IsDoneWhole, IsDoneInParts, IsDoneInOrder, ZigzagDetermines, IsSetInZigzag, TextsAreShort};
ghost use Rattle.scan_spec.specs.FileLaws.{BegunIsShape, OneScanOf, OneFile, OneIsAll};
ghost use Rattle.scan_spec.specs.declared.slot.Slot.{Slot};

/// EXTEND turns additional bits back into their value, and a value's bits are those that it is read from (Figure F.12).
pub fn values_are_bits()
    ensures value { (value : ℤ) → extend (mag value) ≡ value }
    ensures bits { (bits : List Bool) → mag (extend bits) ≡ bits }
    ensures size { (value : ℤ) → length (mag value) ≡ size (unsigned_abs value) }
{}

/// The bits of blocks are those of the first ones and then those of the others: of an MCU, and then of the next.
pub fn blocks_in_parts()
    ensures text { (slots more : List Slot) (before : List ℤ) (blocks others : List (List ℤ))
        → length slots ≡ length blocks
        → blocks_text (slots ++ more) before (blocks ++ others)
        ≡ then_text (blocks_text slots before blocks)
        (blocks_text more (dcs_after slots before blocks) others) }
    ensures last { (slots more : List Slot) (before : List ℤ) (blocks others : List (List ℤ))
        → length slots ≡ length blocks
        → dcs_after (slots ++ more) before (blocks ++ others)
        ≡ dcs_after more (dcs_after slots before blocks) others }
{}

/// The definition computed on worked blocks.
pub fn rows_of_the_definition()
    ensures { rows }
{}

/// The definitions computed on worked scans.
pub fn rows_of_scans()
    ensures written { written }
    ensures put { put }
    ensures done { done }
    ensures read { read }
    ensures sampled { sampled }
    ensures stuck { stuck }
    ensures parts { IsPutInParts }
    ensures whole { IsPutWhole }
{}

/// The definitions computed on worked pad bits.
pub fn rows_of_pads()
    ensures listed { listed }
    ensures summed { summed }
    ensures spelled { spelled }
{}

/// The first MCUs of a scan complete its first bytes, the others complete the rest from the spot after them, and all of
/// them the whole scan.
pub fn first_mcus_are_first_bytes()
    ensures whole { IsDoneWhole }
    ensures parts { IsDoneInParts }
    ensures order { IsDoneInOrder }
{}

/// A refusal is that of the item due after the longest list of items, and a scan that is read goes over all of them.
pub fn items_are_read()
    ensures refused { IsRefusalOfItems }
    ensures ended { IsEndOfItems }
    ensures once { OneOutcome }
    ensures longest { IsLongest }
{}

/// The coefficients in zigzag order determine a block, and setting one there sets it among them.
pub fn zigzag_determines_blocks()
    ensures determined { ZigzagDetermines }
    ensures set { IsSetInZigzag }
{}

/// Blocks that are read have the bits that are there; blocks whose bits are there are read, whatever follows. A block
/// has at most 1,665 bits.
pub fn blocks_are_text()
    ensures block { IsBlockSpelled }
    ensures block_again { IsBlockReadAgain }
    ensures blocks { AreBlocksSpelled }
    ensures blocks_again { AreBlocksReadAgain }
    ensures short { TextsAreShort }
{}

/// A scan that is read has the bytes that are there, a scan whose bytes are there is read, and so bytes determine the
/// MCUs, the pad bit of each interval, what these come to, and the trailer.
pub fn scans_are_text()
    ensures mcu { IsMcuSpelled }
    ensures mcu_again { IsMcuReadAgain }
    ensures spelled { IsSpelled }
    ensures again { IsReadAgain }
    ensures summed { IsSummed }
    ensures one { OneScan }
{}

/// A file determines its scans: of each its header's plan, its MCUs and the pad bit of each of its intervals; and what
/// follows them. An accepted header gives the shape of a scan. A file of one scan is one of a list of one.
pub fn a_file_has_one_reading()
    ensures shape { BegunIsShape }
    ensures scan { OneScanOf }
    ensures one { OneFile }
    ensures all { OneIsAll }
{}
