// The values of short code words, by the next nine bits.
ghost use Rattle.std.specs.Prelude.{◌≡◌, ◌<◌};
ghost use Rattle.bit_list.specs.Bits.{low_bits};
ghost use Rattle.huff_table.specs.ShortWords.{by_bits, short_from};

use crate::codes::value_among;
use crate::word::{NO_SHORT, ShortWord};
use jpeg_marker::RawTable;

/// What each nine bits, as a number, begin with.
pub(crate) fn short_words(table: &RawTable) -> [ShortWord; 512]
    ensures { result ≡ by_bits table.now }
{
    let mut words = [NO_SHORT; 512];
    for index in 0..512u16 {
        words[usize::from(index)] = short_word(table, index);
    }
    words
}

// What nine bits begin with, size by size.
fn short_word(table: &RawTable, index: u16) -> ShortWord
    requires { index < 512 }
    ensures { result ≡ short_from table.now (low_bits 9 index) 1 9 }
{
    let counts = table.counts();
    let mut values = table.values();
    let mut first = 0;
    for i in 0..9u8 {
        let count = counts[usize::from(i)];
        let (these, longer) = values.split_at(usize::from(count));
        if let Some(value) = value_among(these, first, u32::from(index >> (8 - i))) {
            return ShortWord { value, size: i + 1 };
        }
        first = 2 * (first + u32::from(count));
        values = longer;
    }
    NO_SHORT
}
