// What twelve bits of a block skip.
ghost use Rattle.std.specs.Prelude.{◌≡◌, ◌-◌, ◌*◌, ◌%◌, ◌^◌, ◌<◌, ◌≤◌, ℕ, List, Bool, Some, IfOk, length, take};
ghost use Rattle.bit_list.specs.Bits.{low_bits};
ghost use Rattle.jpeg_marker.specs.HuffmanTables.{IsTable, TableFields};
ghost use Rattle.huff_table.specs.CodeWords.{word_of};
ghost use Rattle.scan_decode.specs.SkipWords.{AreSkips, Skips};

use allocation::{NoMemory, from_elem};
use huff_table::Codes;
use std::alloc::Global;

/// How many bits are looked at.
pub(crate) const BITS: u8 = 12;

// How many numbers they may be.
const SIZE: usize = 4_096;

/// One to three code words that twelve bits begin with: how many bits they have with those of their values, at most 16,
/// and how many coefficients they give; the end of a block counts as one.
#[derive(Clone, Copy)]
pub(crate) struct SkipWord {
    pub(crate) bits: u8,
    pub(crate) coefficients: u8,
    pub(crate) ends: bool,
}

// No such code word: more coefficients than a block has.
const NO_SKIP: SkipWord = SkipWord {
    bits: 0,
    coefficients: 65,
    ends: false,
};

/// What each twelve bits, as a number, skip. The one error is out of memory.
pub(crate) fn skip_words(alloc: Global, codes: &Codes) -> Result<Vec<SkipWord>, NoMemory>
    ensures { IfOk result (λ words. AreSkips codes.now words.items) }
{
    let singles = single_words(alloc, codes)?;
    let mut words = from_elem(alloc, NO_SKIP, SIZE)?;
    for index in 0..SIZE {
        words[index] = longest(codes, singles.as_slice(), index);
    }
    Ok(words)
}

// The same with one code word each.
fn single_words(alloc: Global, codes: &Codes) -> Result<Vec<SkipWord>, NoMemory>
    ensures size { IfOk result (λ words. length words.items ≡ 4096) }
    ensures skips { IfOk result (λ words. AreSkips codes.now words.items) }
{
    let mut words = from_elem(alloc, NO_SKIP, SIZE)?;
    for symbol in 0..256u16 {
        place(words.as_mut_slice(), codes, symbol as u8);
    }
    Ok(words)
}

// Puts a symbol's word where twelve bits begin with its code word.
fn place(words: &mut [SkipWord], codes: &Codes, symbol: u8)
    requires size { length words.old ≡ 4096 }
    requires skips { AreSkips codes.now words.old }
    ensures size { length words.new ≡ 4096 }
    ensures skips { AreSkips codes.now words.new }
{
    let (code, size) = match codes.word(symbol) {
        Some(word) => word,
        None => return,
    };
    if size > BITS {
        return;
    }
    let word = one_symbol(symbol, size);
    let count = numbers_after(size);
    let first = usize::from(code) * count;
    for index in first..first + count {
        words[index] = word;
    }
}

// How many numbers twelve bits may be that begin with `size` given ones.
fn numbers_after(size: u8) -> usize
    requires { size ≤ 12 }
    ensures { result ≡ 2 ^ (12 - size) }
{
    1 << (BITS - size)
}

// The word of up to three code words that twelve bits begin with.
fn longest(codes: &Codes, singles: &[SkipWord], index: usize) -> SkipWord
    requires size { length singles.now ≡ 4096 }
    requires skips { AreSkips codes.now singles.now }
    requires index { index < 4096 }
    ensures { Skips codes.now (low_bits 12 index) result }
{
    let pair = longer(codes, singles[index], singles, index);
    longer(codes, pair, singles, index)
}

// A word, and the single one after it if twelve bits hold both.
fn longer(codes: &Codes, word: SkipWord, singles: &[SkipWord], index: usize) -> SkipWord
    requires size { length singles.now ≡ 4096 }
    requires skips { AreSkips codes.now singles.now }
    requires index { index < 4096 }
    requires word { Skips codes.now (low_bits 12 index) word }
    ensures { Skips codes.now (low_bits 12 index) result }
{
    let _ = codes;
    if word.ends || word.bits == 0 || word.bits >= BITS {
        return word;
    }
    let more = singles[rest_of(index, word.bits)];
    let bits = word.bits + more.bits;
    let coefficients = word.coefficients + more.coefficients;
    if more.bits == 0 || bits > BITS || coefficients > 64 {
        return word;
    }
    SkipWord {
        bits,
        coefficients,
        ends: more.ends,
    }
}

// The rest of twelve bits after some of them, with zeros after it.
fn rest_of(index: usize, bits: u8) -> usize
    requires index { index < 4096 }
    requires bits { bits ≤ 12 }
    ensures value { result ≡ index * 2 ^ bits % 4096 }
    ensures below { result < 4096 }
{
    (index << bits) % SIZE
}

// The word of one symbol: a value, or the end of the block. Its code word has `size` bits.
fn one_symbol(symbol: u8, size: u8) -> SkipWord
    requires { size ≤ 12 }
    ensures { (table : TableFields) (twelve : List Bool) → IsTable table
        → word_of table symbol ≡ Some (take size twelve) → Skips table twelve result }
{
    if symbol == 0 {
        return SkipWord {
            bits: size,
            coefficients: 1,
            ends: true,
        };
    }
    let zeros = symbol / 16;
    let more = symbol % 16;
    if more == 0 || more > 10 || size + more > 16 {
        return NO_SKIP;
    }
    SkipWord {
        bits: size + more,
        coefficients: zeros + 1,
        ends: false,
    }
}
