// Blocks that are skipped: nobody keeps their coefficients.
ghost use Rattle.std.specs.Prelude.{◌≡◌, ◌≤◌, ◌<◌, List, ℤ, ◌∷◌, [], false, get_or, length, map, Result, Err, IfSome, IfNone, IfOk, IfErr};
ghost use Rattle.std.specs.List.{All};
ghost use Rattle.coef_block.specs.Block.{IsDc};
ghost use Rattle.scan_spec.specs.BlockBits.{coefficient_at, in_zigzag};
ghost use Rattle.scan_spec.specs.ScanReading.{acs_at, blocks_at, prefixed_values};
ghost use Rattle.scan_spec.specs.ShapeInside.{slot_in};
ghost use Rattle.scan_decode.specs.McuBlocks.{blocks_read};
ghost use Rattle.scan_decode.specs.SkipWords.{AreSkips, AreSkipSlots, GoesOn, IsRefused};
ghost use Rattle.scan_decode.specs.ReadResults.{coded_at, values_at_cursor};

use crate::dc::dc;
use crate::skip_symbols::by_symbols_apart;
use crate::skip_word::{BITS, SkipWord, skip_words};
use crate::word_lists::words_of;
use allocation::push;
use bit_list::BitIn;
use huff_table::{Codes, ComponentCodes};
use scan_spec::ScanRefusal;

/// The blocks of an MCU, by words that are made with the first one and kept: a list for each component. If a list is
/// out of memory, the symbols of that component and of those after it are read one by one.
#[inline]
pub(crate) fn skip_blocks(
    skips: &mut Vec<Vec<SkipWord>>,
    codes: &[ComponentCodes],
    slots: &[u8],
    before: &mut [i16; 4],
    input: &mut BitIn,
) -> Result<(), ScanRefusal>
    requires skips { AreSkipSlots (map (slot_in codes.now) slots.now) (map (λ v. v.items) skips.old.items) }
    requires few { length codes.now ≤ 4 }
    requires slots { All (λ slot. slot < length codes.now) slots.now }
    requires before { All IsDc before.old }
    ensures skips { AreSkipSlots (map (slot_in codes.now) slots.now) (map (λ v. v.items) skips.new.items) }
    ensures is { (read : List (List ℤ))
        × (blocks_read result (map in_zigzag read) before.new input.new.cursor
        ≡ blocks_at (map
        (slot_in codes.now) slots.now) before.old input.old.bytes input.old.cursor) }
    ensures small { All IsDc before.new }
    ensures bytes { input.new.bytes ≡ input.old.bytes }
{
    if skips.is_empty() {
        make_skips(skips, codes, slots);
    }
    skip_blocks_by(skips.as_slice(), codes, slots, before, input)
}

/// Makes the words of the components, up to one that is out of memory.
#[cold]
#[inline(never)]
pub(crate) fn make_skips(skips: &mut Vec<Vec<SkipWord>>, codes: &[ComponentCodes], slots: &[u8])
    requires none { skips.old.items ≡ [] }
    requires slots { All (λ slot. slot < length codes.now) slots.now }
    ensures { AreSkipSlots (map (slot_in codes.now) slots.now) (map (λ v. v.items) skips.new.items) }
{
    let _ = slots;
    let alloc = *skips.allocator();
    for i in 0..codes.len() {
        let words = match skip_words(alloc, &codes[i].ac) {
            Ok(words) => words,
            Err(_) => return,
        };
        match push(skips, words) {
            Ok(()) => {}
            Err(_) => return,
        }
    }
}

/// The blocks of an MCU, each of the component that its slot names, after the last DC of each component.
#[inline]
pub(crate) fn skip_blocks_by(
    skips: &[Vec<SkipWord>],
    codes: &[ComponentCodes],
    slots: &[u8],
    before: &mut [i16; 4],
    input: &mut BitIn,
) -> Result<(), ScanRefusal>
    requires skips { AreSkipSlots (map (slot_in codes.now) slots.now) (map (λ v. v.items) skips.now) }
    requires few { length codes.now ≤ 4 }
    requires slots { All (λ slot. slot < length codes.now) slots.now }
    requires before { All IsDc before.old }
    ensures is { (read : List (List ℤ))
        × (blocks_read result (map in_zigzag read) before.new input.new.cursor
        ≡ blocks_at (map
        (slot_in codes.now) slots.now) before.old input.old.bytes input.old.cursor) }
    ensures small { All IsDc before.new }
    ensures bytes { input.new.bytes ≡ input.old.bytes }
{
    let mut local = input.copied();
    let result = skip_blocks_of(skips, codes, slots, before, &mut local);
    *input = local;
    result
}

// The same for an input in a local value, whose state stays in registers.
#[inline(always)]
fn skip_blocks_of(
    skips: &[Vec<SkipWord>],
    codes: &[ComponentCodes],
    slots: &[u8],
    before: &mut [i16; 4],
    input: &mut BitIn,
) -> Result<(), ScanRefusal>
    requires skips { AreSkipSlots (map (slot_in codes.now) slots.now) (map (λ v. v.items) skips.now) }
    requires few { length codes.now ≤ 4 }
    requires slots { All (λ slot. slot < length codes.now) slots.now }
    requires before { All IsDc before.old }
    ensures is { (read : List (List ℤ))
        × (blocks_read result (map in_zigzag read) before.new input.new.cursor
        ≡ blocks_at (map
        (slot_in codes.now) slots.now) before.old input.old.bytes input.old.cursor) }
    ensures small { All IsDc before.new }
    ensures bytes { input.new.bytes ≡ input.old.bytes }
{
    for i in 0..slots.len() {
        let component = usize::from(slots[i]);
        before[component] = skip_block(
            words_of(skips, component),
            &codes[component],
            before[component],
            input,
        )?;
    }
    Ok(())
}

// A block after one with the DC before. Answers its DC.
#[inline(always)]
fn skip_block(
    words: &[SkipWord],
    codes: &ComponentCodes,
    before: i16,
    input: &mut BitIn,
) -> Result<i16, ScanRefusal>
    requires words { AreSkips codes.now.ac words.now }
    requires before { IsDc before }
    ensures is { (block : List ℤ)
        × (values_at_cursor result (in_zigzag block) input.new.cursor
        ≡ coded_at codes.now before input.old.bytes input.old.cursor)
        × IfOk result (λ dc. dc ≡ coefficient_at block 0) }
    ensures small { IfOk result IsDc }
    ensures bytes { input.new.bytes ≡ input.old.bytes }
{
    let value = dc(&codes.dc, before, input)?;
    skip_acs(words, &codes.ac, input)?;
    Ok(value)
}

// The AC coefficients of a block (ITU-T T.81, F.2.2.2).
#[inline(always)]
fn skip_acs(words: &[SkipWord], codes: &Codes, input: &mut BitIn) -> Result<(), ScanRefusal>
    requires { AreSkips codes.now words.now }
    ensures is { (dc : ℤ) → (block : List ℤ)
        × (values_at_cursor result (in_zigzag block) input.new.cursor
        ≡ prefixed_values (dc ∷ []) (acs_at 63 codes.now 63 false input.old.bytes input.old.cursor)) }
    ensures bytes { input.new.bytes ≡ input.old.bytes }
{
    let mut index = 1;
    while index < 64 {
        index = skip_symbols(words, codes, input, index)?;
    }
    Ok(())
}

// The zigzag index after the next symbols: those that twelve bits begin with, or else a value whose code word
// sixteen bits begin with, or else up to the first symbol that isn't sixteen zeros.
#[inline(always)]
fn skip_symbols(
    words: &[SkipWord],
    codes: &Codes,
    input: &mut BitIn,
    index: usize,
) -> Result<usize, ScanRefusal>
    requires words { AreSkips codes.now words.now }
    requires some { 0 < index }
    requires left { index < 64 }
    ensures ok { IfOk result
        (λ next. GoesOn codes.now input.old.bytes index input.old.cursor next input.new.cursor) }
    ensures some { IfOk result (λ next. (index < next) × (next ≤ 64)) }
    ensures err { IfErr result
        (λ refusal. IsRefused codes.now input.old.bytes index input.old.cursor refusal) }
    ensures bytes { input.new.bytes ≡ input.old.bytes }
{
    if let Some(next) = by_twelve_bits(words, codes, input, index) {
        return Ok(next);
    }
    if let Some(next) = by_sixteen_bits(codes, input, index) {
        return Ok(next);
    }
    by_symbols_apart(codes, input, index)
}

// The zigzag index after the symbols that the next twelve bits begin with, if a word has them and its bits are there.
#[inline(always)]
fn by_twelve_bits(
    words: &[SkipWord],
    codes: &Codes,
    input: &mut BitIn,
    index: usize,
) -> Option<usize>
    requires words { AreSkips codes.now words.now }
    requires left { index < 64 }
    ensures is { IfSome result
        (λ next. GoesOn codes.now input.old.bytes index input.old.cursor next input.new.cursor) }
    ensures some { IfSome result (λ next. (index < next) × (next ≤ 64)) }
    ensures none { IfNone result (input.new ≡ input.old) }
    ensures bytes { input.new.bytes ≡ input.old.bytes }
{
    input.ready();
    let seen = usize::from(input.look(BITS)?);
    if seen >= words.len() {
        return None;
    }
    let word = words[seen];
    let next = index + usize::from(word.coefficients);
    if next > 64 {
        return None;
    }
    if !input.advance(word.bits) {
        return None;
    }
    Some(if word.ends { 64 } else { next })
}

// The zigzag index after the next value, if its code word is found by sixteen bits and its bits are there.
#[inline(always)]
fn by_sixteen_bits(codes: &Codes, input: &mut BitIn, index: usize) -> Option<usize>
    requires { index < 64 }
    ensures is { IfSome result
        (λ next. GoesOn codes.now input.old.bytes index input.old.cursor next input.new.cursor) }
    ensures some { IfSome result (λ next. (index < next) × (next ≤ 64)) }
    ensures none { IfNone result (input.new ≡ input.old) }
    ensures bytes { input.new.bytes ≡ input.old.bytes }
{
    let mut left = input.copied();
    let symbol = codes.by_sixteen_bits(&mut left)?;
    let more = symbol % 16;
    let next = index + usize::from(symbol / 16 + 1);
    if more == 0 || more > 10 || next > 64 {
        return None;
    }
    left.ready();
    if !left.advance(more) {
        return None;
    }
    *input = left;
    Some(next)
}
