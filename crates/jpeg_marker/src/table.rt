// Huffman tables as a header has them (ITU-T T.81, B.2.4.2).
use std::marker::Model;

/// A Huffman table: how many code words there are of each length from 1 to 16, and the values that
/// they stand for, by rising length. The values are distinct, and the code words fit.
#[derive(Clone, Copy)]
pub struct RawTable {
    counts: [u8; 16],
    // Zeros after the last.
    values: [u8; 256],
    length: usize,
}

impl Model for RawTable {
    ghost use Rattle.jpeg_marker.specs.HuffmanTables.{TableFields};

    ghost Value = { TableFields };

    ghost use Rattle.jpeg_marker.specs.TableInside.{fields_of, AreFields, inside_of};
    ghost use Rattle.std.specs.Prelude.{refl};

    ghost view = { fields_of };

    ghost invariant = { AreFields };

    ghost inverse = { inside_of };

    ghost inverse_ok = { λ a h. let e = h.long in Prim.rw (e, ← h.blank) refl };
}

impl RawTable {
    ghost use Rattle.std.specs.Prelude.{◌≡◌, IsSome, IfSome, ◌↔◌, IsTrue, sum, length, ◌≤◌};
    ghost use Rattle.jpeg_marker.specs.HuffmanTables.{TableFields, IsTable};
    ghost use Rattle.jpeg_marker.specs.HuffmanTables.{no_table};
    ghost use Rattle.jpeg_marker.specs.TableFaults.{is_table};
    ghost use Rattle.jpeg_marker.specs.KnownBefore.{AreBytes};

    /// How many code words there are of each length.
    pub fn counts(&self) -> &[u8; 16]
        ensures value { result.now ≡ self.now.counts }
        ensures kept { IsTable self.now }
    {
        &self.counts
    }

    /// The values that the code words stand for, in their order.
    pub fn values(&self) -> &[u8]
        ensures value { result.now ≡ self.now.values }
        ensures kept { IsTable self.now }
        ensures bytes { AreBytes self.now.values }
    {
        first_values(&self.values, self.length)
    }

    /// A table without a code word.
    pub fn empty() -> RawTable
        ensures { result ≡ no_table }
    {
        RawTable {
            counts: [0; 16],
            values: [0; 256],
            length: 0,
        }
    }

    /// The table with these counts and values, if it is one.
    pub(crate) fn new(counts: &[u8; 16], values: &[u8]) -> Option<RawTable>
        requires { length values.now ≡ sum counts.now }
        ensures some { IsSome result
            ↔ IsTrue (is_table (record { counts = counts.now; values = values.now })) }
        ensures value { IfSome result
            (λ t. t ≡ record { counts = counts.now; values = values.now }) }
    {
        if !distinct(values) || code_space(counts) > 1 << 16 {
            return None;
        }
        Some(RawTable {
            counts: *counts,
            values: with_zeros(values),
            length: values.len(),
        })
    }
}

ghost use Rattle.std.specs.Prelude.{◌≡◌, ◌≤◌, ◌<◌, ◌++◌, ◌-◌, replicate, length, take, IsTrue};
ghost use Rattle.jpeg_marker.specs.HuffmanTables.{distinct, code_space};
ghost use Rattle.jpeg_marker.specs.KnownBefore.{AreBytes};

// The first values, which are bytes.
fn first_values(values: &[u8], count: usize) -> &[u8]
    requires { count ≤ length values.now }
    ensures value { result.now ≡ take count values.now }
    ensures bytes { AreBytes result.now }
{
    &values[..count]
}

/// Whether no value occurs twice.
pub(crate) fn distinct(values: &[u8]) -> bool
    ensures value { result ≡ distinct values.now }
    ensures few { IsTrue result → length values.now ≤ 256 }
{
    let mut seen = [false; 256];
    for value in values {
        let value = usize::from(*value);
        if seen[value] {
            return false;
        }
        seen[value] = true;
    }
    true
}

// The values, and zeros up to 256.
fn with_zeros(values: &[u8]) -> [u8; 256]
    requires { length values.now ≤ 256 }
    ensures { result ≡ values.now ++ replicate (256 - length values.now) 0 }
{
    let mut all = [0; 256];
    all[..values.len()].copy_from_slice(values);
    all
}

// How many words of 16 bits begin with a code word.
fn code_space(counts: &[u8; 16]) -> u32
    ensures { result ≡ code_space counts.now }
{
    let mut space = 0;
    for (i, count) in counts.iter().enumerate() {
        space += u32::from(*count) << (15 - i);
    }
    space
}
