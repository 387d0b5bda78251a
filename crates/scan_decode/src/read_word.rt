// What ten bits of a block read.
ghost use Rattle.std.specs.Prelude.{◌≡◌, ◌<◌, IfOk};
ghost use Rattle.bit_list.specs.Bits.{low_bits};
ghost use Rattle.jpeg_marker.specs.HuffmanTables.{IsTable};
ghost use Rattle.scan_decode.specs.ReadWords.{AreReads, Reads};

use allocation::{NoMemory, from_elem};
use huff_table::Codes;
use scan_spec::extend;
use std::alloc::Global;

/// How many bits are looked at.
pub(crate) const BITS: u8 = 10;

// How many numbers they may be.
const SIZE: usize = 1_024;

/// The zeros of a word that ends its block: more than a block has room for.
pub(crate) const END: u8 = 64;

/// A code word with the bits of its value, if ten bits begin with both: how many bits they have, how many zeros are
/// before the value, and the value, which isn't 0. The end of a block has `END` zeros, and no word has more.
#[derive(Clone, Copy)]
pub(crate) struct ReadWord {
    pub(crate) bits: u8,
    pub(crate) zeros: u8,
    pub(crate) value: i16,
}

// No such word.
const NO_READ: ReadWord = ReadWord {
    bits: 0,
    zeros: END + 1,
    value: 0,
};

/// What each ten bits, as a number, read. The one error is out of memory.
pub(crate) fn read_words(alloc: Global, codes: &Codes) -> Result<Vec<ReadWord>, NoMemory>
    ensures { IfOk result (λ words. AreReads codes.now words.items) }
{
    // Whoever has a word has those of a table.
    let _word = codes.word(0);
    let mut words = from_elem(alloc, NO_READ, SIZE)?;
    for index in 0..SIZE {
        words[index] = read_word(codes, index as u16);
    }
    Ok(words)
}

// What ten bits read.
fn read_word(codes: &Codes, index: u16) -> ReadWord
    requires table { IsTable codes.now }
    requires index { index < 1024 }
    ensures { Reads codes.now (low_bits 10 index) result }
{
    let (symbol, size) = match codes.quick(index / 2) {
        Some(found) => found,
        None => return NO_READ,
    };
    if symbol == 0 {
        return ReadWord {
            bits: size,
            zeros: END,
            value: 0,
        };
    }
    let zeros = symbol / 16;
    let more = symbol % 16;
    if more == 0 || size + more > BITS {
        return NO_READ;
    }
    let number = (index >> (BITS - size - more)) & ((1 << more) - 1);
    ReadWord {
        bits: size + more,
        zeros,
        value: extend(number, more) as i16,
    }
}
