// The code words of one table.
ghost use Rattle.std.specs.Prelude.{◌≡◌, ℕ, ◌+◌, ◌*◌, ◌-◌, ◌^◌, ◌<◌, ◌≤◌, ◌↔◌, Bool, List, ◌++◌, length, take, Ok, Err, Some, None, IsSome, IfSome, IfNone, IfOk, IfErr, OnErr, Contains};
ghost use Rattle.bit_list.specs.Bits.{low_bits};
ghost use Rattle.bit_list.specs.Units.{bits_at};
ghost use Rattle.jpeg_marker.specs.HuffmanTables.{IsTable, no_table};
ghost use Rattle.jpeg_marker.specs.KnownBefore.{AreBytes};
ghost use Rattle.huff_table.specs.CodeWords.{word_of};
ghost use Rattle.huff_table.specs.Decoding.{value_at};
ghost use Rattle.huff_table.specs.CodesInside.{placed};
ghost use Rattle.huff_table.specs.Levels.{level, value_among};

use crate::fault::CodeFault;
use crate::long_words::{value_ends, word_ends};
use crate::short_words::short_words;
use crate::word::{NO_SHORT, NONE, ShortWord, Word};
use bit_list::BitIn;
use jpeg_marker::RawTable;
use std::marker::Model;

/// The code words of a Huffman table (ITU-T T.81, Annex C). Clauses see the table.
#[derive(Clone, Copy)]
pub struct Codes {
    table: RawTable,
    // By value.
    words: [Word; 256],
    // By the next nine bits.
    short: [ShortWord; 512],
    // By how many bits a word has, less one.
    word_ends: [u32; 16],
    value_ends: [u32; 16],
}

impl Model for Codes {
    ghost use Rattle.jpeg_marker.specs.HuffmanTables.{TableFields};

    ghost Value = { TableFields };

    ghost use Rattle.huff_table.specs.CodesInside.{IsKept, inside_of};
    ghost use Rattle.std.specs.Prelude.{refl};

    ghost view = { λ c. c.table };

    ghost invariant = { IsKept };

    ghost inverse = { inside_of };

    ghost inverse_ok = { λ a h. let e = h.words in let f = h.short in let g = h.word_ends in let i = h.value_ends in Prim.rw e (Prim.rw f (Prim.rw g (Prim.rw i refl))) };
}

impl Codes {
    /// The code words of a table.
    pub fn build(table: &RawTable) -> Codes
        ensures value { result ≡ table.now }
        ensures kept { IsTable result }
        ensures bytes { AreBytes result.values }
    {
        let mut words = [NONE; 256];
        let counts = table.counts();
        let mut values = table.values();
        let mut first = 0;
        for (i, count) in counts.iter().enumerate() {
            let (these, longer) = values.split_at(usize::from(*count));
            place_level(&mut words, these, first, i as u8 + 1);
            first = 2 * (first + u32::from(*count));
            values = longer;
        }
        Codes {
            table: *table,
            words,
            short: short_words(table),
            word_ends: word_ends(table),
            value_ends: value_ends(table),
        }
    }

    /// No code word.
    pub(crate) fn none() -> Codes
        ensures value { result ≡ no_table }
        ensures kept { IsTable result }
        ensures bytes { AreBytes result.values }
    {
        Codes {
            table: RawTable::empty(),
            words: [NONE; 256],
            short: [NO_SHORT; 512],
            word_ends: [0; 16],
            value_ends: [0; 16],
        }
    }

    /// The code word of a value as a number, and how many bits it has, from 1 to 16.
    #[inline]
    pub fn word(&self, symbol: u8) -> Option<(u16, u8)>
        ensures some { IfSome result
            (λ word. word_of self.now symbol ≡ Some (low_bits word.1 word.0)) }
        ensures below { IfSome result (λ word. word.0 < 2 ^ word.1) }
        ensures size { IfSome result (λ word. (1 ≤ word.1) × (word.1 ≤ 16)) }
        ensures none { IfNone result (word_of self.now symbol ≡ None) }
        ensures there { IsSome result ↔ Contains self.now.values symbol }
        ensures kept { IsTable self.now }
    {
        let word = self.words[usize::from(symbol)];
        if word.size == 0 {
            return None;
        }
        Some((word.code, word.size))
    }

    /// The value whose code word nine bits begin with, as a number, and how many bits that word has: none if they
    /// begin with no word of at most nine bits.
    #[inline]
    pub fn quick(&self, index: u16) -> Option<(u8, u8)>
        requires { index < 512 }
        ensures some { IfSome result
            (λ found. (1 ≤ found.1) × (found.1 ≤ 9)
            × (word_of self.now found.0 ≡ Some (take found.1 (low_bits 9 index)))) }
        ensures none { IfNone result ((value : ℕ) (word more : List Bool)
            → word_of self.now value ≡ Some word → length word ≤ 9
            → low_bits 9 index ≡ word ++ more → ⊥) }
    {
        let found = self.short[usize::from(index)];
        if found.size == 0 {
            return None;
        }
        Some((found.value, found.size))
    }

    /// Reads the next code word, and answers its value. A fault leaves the input after the bits that were read, 16 at
    /// most.
    #[inline(always)]
    pub fn next(&self, input: &mut BitIn) -> Result<u8, CodeFault>
        ensures ok { IfOk result
            (λ value. value_at self.now input.old.bytes input.old.cursor
            ≡ Ok (value, input.new.cursor)) }
        ensures err { IfErr result
            (λ fault. value_at self.now input.old.bytes input.old.cursor ≡ Err fault) }
        ensures stopped { OnErr result ((bits : List Bool) × (length bits ≤ 16)
            × (bits_at (length bits) input.old.bytes input.old.cursor
            ≡ Ok (bits, input.new.cursor))) }
        ensures bytes { input.new.bytes ≡ input.old.bytes }
        ensures kept { IsTable self.now }
    {
        // By using the table, what it keeps is known here.
        let _ = &self.table;
        input.ready();
        if let Some((value, size)) = self.quick(input.peek9()) {
            if input.take(size).is_ok() {
                return Ok(value);
            }
        }
        if let Some(value) = self.by_sixteen_bits(input) {
            return Ok(value);
        }
        self.by_bits_apart(input)
    }

    /// Reads the next code word by the next sixteen bits, and answers its value. Where it answers none, nothing is
    /// read: that is so if fewer were fetched (`BitIn::ready` fetches them), and may be so if they begin with a word.
    #[inline(always)]
    pub fn by_sixteen_bits(&self, input: &mut BitIn) -> Option<u8>
        ensures some { IfSome result
            (λ value. value_at self.now input.old.bytes input.old.cursor
            ≡ Ok (value, input.new.cursor)) }
        ensures none { IfNone result (input.new ≡ input.old) }
        ensures bytes { input.new.bytes ≡ input.old.bytes }
        ensures kept { IsTable self.now }
    {
        // By using the table, what it keeps is known here.
        let _ = &self.table;
        let (value, size) = self.word_before(input.look(16)?)?;
        if !input.advance(size) {
            return None;
        }
        Some(value)
    }

    // The value whose code word sixteen bits begin with, as a number, and how many bits that word has.
    #[inline(always)]
    fn word_before(&self, number: u16) -> Option<(u8, u8)>
        ensures { IfSome result
            (λ found. (1 ≤ found.1) × (found.1 ≤ 16)
            × (word_of self.now found.0 ≡ Some (take found.1 (low_bits 16 number)))) }
    {
        let value = self.likely(number)?;
        let (code, size) = self.word(value)?;
        if number >> (16 - size) != code {
            return None;
        }
        Some((value, size))
    }

    // The value whose code word sixteen bits should begin with, by where the words of each size end, without a branch for
    // each. That it's the right one isn't proved: `word_before` looks at the word.
    #[inline(always)]
    fn likely(&self, number: u16) -> Option<u8> {
        let mut shorter = 0u32;
        for end in &self.word_ends {
            shorter += u32::from(*end <= u32::from(number));
        }
        if shorter >= 16 {
            return None;
        }
        let more = 15 - shorter;
        let end = self.word_ends[shorter as usize] >> more;
        let after = end.checked_sub(u32::from(number >> more))?;
        let place = self.value_ends[shorter as usize].checked_sub(after)?;
        self.table.values().get(place as usize).copied()
    }

    // `by_bits_of`, so placed that the room for its answer is cleared only if it is called, and not for each word.
    #[inline(always)]
    fn by_bits_apart(&self, input: &mut BitIn) -> Result<u8, CodeFault>
        ensures ok { IfOk result
            (λ value. value_at self.now input.old.bytes input.old.cursor
            ≡ Ok (value, input.new.cursor)) }
        ensures err { IfErr result
            (λ fault. value_at self.now input.old.bytes input.old.cursor ≡ Err fault) }
        ensures stopped { OnErr result ((bits : List Bool) × (length bits ≤ 16)
            × (bits_at (length bits) input.old.bytes input.old.cursor
            ≡ Ok (bits, input.new.cursor))) }
        ensures bytes { input.new.bytes ≡ input.old.bytes }
        ensures kept { IsTable self.now }
    {
        let (result, left) = self.by_bits_of(input.copied());
        *input = left.copied();
        result
    }

    // `by_bits` for an input by value, so that no address of a local one is passed on.
    #[cold]
    #[inline(never)]
    fn by_bits_of<'a>(&self, input: BitIn<'a>) -> (Result<u8, CodeFault>, BitIn<'a>)
        ensures ok { IfOk result.0
            (λ value. value_at self.now input.entry.bytes input.entry.cursor
            ≡ Ok (value, result.1.cursor)) }
        ensures err { IfErr result.0
            (λ fault. value_at self.now input.entry.bytes input.entry.cursor ≡ Err fault) }
        ensures stopped { OnErr result.0 ((bits : List Bool) × (length bits ≤ 16)
            × (bits_at (length bits) input.entry.bytes input.entry.cursor
            ≡ Ok (bits, result.1.cursor))) }
        ensures bytes { result.1.bytes ≡ input.entry.bytes }
        ensures kept { IsTable self.now }
    {
        let mut left = input;
        let result = self.by_bits(&mut left);
        (result, left)
    }

    // Reads the next code word bit by bit (Figure F.16).
    #[inline(always)]
    fn by_bits(&self, input: &mut BitIn) -> Result<u8, CodeFault>
        ensures ok { IfOk result
            (λ value. value_at self.now input.old.bytes input.old.cursor
            ≡ Ok (value, input.new.cursor)) }
        ensures err { IfErr result
            (λ fault. value_at self.now input.old.bytes input.old.cursor ≡ Err fault) }
        ensures stopped { OnErr result ((bits : List Bool) × (length bits ≤ 16)
            × (bits_at (length bits) input.old.bytes input.old.cursor
            ≡ Ok (bits, input.new.cursor))) }
        ensures bytes { input.new.bytes ≡ input.old.bytes }
        ensures kept { IsTable self.now }
    {
        let counts = self.table.counts();
        let mut values = self.table.values();
        let mut first = 0;
        let mut code = 0;
        for count in counts {
            code = 2 * code + u32::from(input.bit()?);
            let (these, longer) = values.split_at(usize::from(*count));
            if let Some(found) = value_among(these, first, code) {
                return Ok(found);
            }
            first = 2 * (first + u32::from(*count));
            values = longer;
        }
        Err(CodeFault::NoWord {
            place: input.place(),
        })
    }
}

// Gives values the code words of a size, from a first one on.
fn place_level(words: &mut [Word; 256], values: &[u8], first: u32, size: u8)
    requires { first + length values.now ≤ 65536 }
    ensures { words.new ≡ placed words.old (level size first values.now) }
{
    let mut code = first;
    for value in values {
        words[usize::from(*value)] = Word {
            code: code as u16,
            size,
        };
        code += 1;
    }
}

// The value of a code word, among those of one size from a first word on.
#[inline(always)]
pub(crate) fn value_among(values: &[u8], first: u32, code: u32) -> Option<u8>
    ensures { result ≡ value_among values.now first code }
{
    let place = code.checked_sub(first)?;
    values.get(place as usize).copied()
}
