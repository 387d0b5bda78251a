// The blocks of an MCU.
ghost use Rattle.std.specs.Prelude.{◌≡◌, ◌≤◌, ◌<◌, [], length, map};
ghost use Rattle.std.specs.List.{All};
ghost use Rattle.coef_block.specs.Block.{IsDc};
ghost use Rattle.scan_spec.specs.ScanReading.{blocks_at};
ghost use Rattle.scan_spec.specs.BlockBits.{in_zigzag};
ghost use Rattle.scan_spec.specs.ShapeInside.{slot_in};
ghost use Rattle.scan_decode.specs.ReadWords.{AreReadSlots};
ghost use Rattle.scan_decode.specs.McuBlocks.{blocks_read};

use crate::block::block;
use crate::read_word::{ReadWord, read_words};
use crate::word_lists::words_of;
use allocation::push;
use bit_list::BitIn;
use coef_block::Block;
use huff_table::ComponentCodes;
use scan_spec::ScanRefusal;

/// The blocks of an MCU, each of the component that its slot names, after the last DC of each component: by words that
/// are made with the first one and kept, a list for each component. If a list is out of memory, the symbols of that
/// component and of those after it are read one by one.
#[inline]
pub(crate) fn blocks(
    reads: &mut Vec<Vec<ReadWord>>,
    codes: &[ComponentCodes],
    slots: &[u8],
    before: &mut [i16; 4],
    input: &mut BitIn,
    out: &mut [Block],
) -> Result<(), ScanRefusal>
    requires reads { AreReadSlots (map (slot_in codes.now) slots.now) (map (λ v. v.items) reads.old.items) }
    requires long { length out.old ≡ length slots.now }
    requires few { length codes.now ≤ 4 }
    requires slots { All (λ slot. slot < length codes.now) slots.now }
    requires before { All IsDc before.old }
    ensures reads { AreReadSlots (map (slot_in codes.now) slots.now) (map (λ v. v.items) reads.new.items) }
    ensures is { blocks_read result (map in_zigzag out.new) before.new input.new.cursor
        ≡ blocks_at (map
        (slot_in codes.now) slots.now) before.old input.old.bytes input.old.cursor }
    ensures small { All IsDc before.new }
    ensures bytes { input.new.bytes ≡ input.old.bytes }
{
    if reads.is_empty() {
        make_reads(reads, codes, slots);
    }
    blocks_by(reads.as_slice(), codes, slots, before, input, out)
}

// Makes the words of the components, up to one that is out of memory.
#[cold]
#[inline(never)]
fn make_reads(reads: &mut Vec<Vec<ReadWord>>, codes: &[ComponentCodes], slots: &[u8])
    requires none { reads.old.items ≡ [] }
    requires slots { All (λ slot. slot < length codes.now) slots.now }
    ensures { AreReadSlots (map (slot_in codes.now) slots.now) (map (λ v. v.items) reads.new.items) }
{
    let _ = slots;
    let alloc = *reads.allocator();
    for i in 0..codes.len() {
        let words = match read_words(alloc, &codes[i].ac) {
            Ok(words) => words,
            Err(_) => return,
        };
        match push(reads, words) {
            Ok(()) => {}
            Err(_) => return,
        }
    }
}

// The blocks of an MCU, by words.
#[inline]
fn blocks_by(
    reads: &[Vec<ReadWord>],
    codes: &[ComponentCodes],
    slots: &[u8],
    before: &mut [i16; 4],
    input: &mut BitIn,
    out: &mut [Block],
) -> Result<(), ScanRefusal>
    requires reads { AreReadSlots (map (slot_in codes.now) slots.now) (map (λ v. v.items) reads.now) }
    requires long { length out.old ≡ length slots.now }
    requires few { length codes.now ≤ 4 }
    requires slots { All (λ slot. slot < length codes.now) slots.now }
    requires before { All IsDc before.old }
    ensures is { blocks_read result (map in_zigzag out.new) before.new input.new.cursor
        ≡ blocks_at (map
        (slot_in codes.now) slots.now) before.old input.old.bytes input.old.cursor }
    ensures small { All IsDc before.new }
    ensures bytes { input.new.bytes ≡ input.old.bytes }
{
    let mut local = input.copied();
    let result = blocks_of(reads, codes, slots, before, &mut local, out);
    *input = local;
    result
}

// The same for an input in a local value, whose state stays in registers.
#[inline(always)]
fn blocks_of(
    reads: &[Vec<ReadWord>],
    codes: &[ComponentCodes],
    slots: &[u8],
    before: &mut [i16; 4],
    input: &mut BitIn,
    out: &mut [Block],
) -> Result<(), ScanRefusal>
    requires reads { AreReadSlots (map (slot_in codes.now) slots.now) (map (λ v. v.items) reads.now) }
    requires long { length out.old ≡ length slots.now }
    requires few { length codes.now ≤ 4 }
    requires slots { All (λ slot. slot < length codes.now) slots.now }
    requires before { All IsDc before.old }
    ensures is { blocks_read result (map in_zigzag out.new) before.new input.new.cursor
        ≡ blocks_at (map
        (slot_in codes.now) slots.now) before.old input.old.bytes input.old.cursor }
    ensures small { All IsDc before.new }
    ensures bytes { input.new.bytes ≡ input.old.bytes }
{
    for (i, slot) in slots.iter().enumerate() {
        let component = usize::from(*slot);
        before[component] = block(
            words_of(reads, component),
            &codes[component],
            before[component],
            input,
            &mut out[i],
        )?;
    }
    Ok(())
}
