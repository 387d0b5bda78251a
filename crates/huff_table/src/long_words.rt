// Where the code words and the values of each size end (own; T.81, Figure F.15 keeps the last words and the first
// values).
ghost use Rattle.std.specs.Prelude.{◌≡◌, ◌*◌, ◌^◌, ◌≤◌};
ghost use Rattle.huff_table.specs.LongWords.{word_ends, value_ends};

use jpeg_marker::RawTable;

/// The number after the words of each size, in sixteen bits.
pub(crate) fn word_ends(table: &RawTable) -> [u32; 16]
    ensures { result ≡ word_ends 15 0 table.now.counts }
{
    let mut ends = [0; 16];
    let mut first = 0;
    for (i, count) in table.counts().iter().enumerate() {
        let end = first + u32::from(*count);
        ends[i] = in_sixteen(end, 15 - i as u32);
        first = 2 * end;
    }
    ends
}

// A number with zeros after it.
fn in_sixteen(number: u32, zeros: u32) -> u32
    requires few { zeros ≤ 15 }
    requires most { number * 2 ^ zeros ≤ 65536 }
    ensures { result ≡ number * 2 ^ zeros }
{
    number << zeros
}

/// The index after the values of each size.
pub(crate) fn value_ends(table: &RawTable) -> [u32; 16]
    ensures { result ≡ value_ends 0 table.now.counts }
{
    let mut ends = [0; 16];
    let mut end = 0;
    for (i, count) in table.counts().iter().enumerate() {
        end += u32::from(*count);
        ends[i] = end;
    }
    ends
}
