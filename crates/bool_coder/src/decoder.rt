//! From a stream back to bools (RFC 6386, section 7.3).
//!
//!     the bytes:    8 + shifts bits, looked at  |  next bits  |  not yet fetched
//!                   less the bottom: offset     |             |
//!                  [------------------- value ---------------]
//!
//! A bool is a one if the offset is at least the split, and a one takes the split off. The word has the offset and
//! the next bits as one number, so that nothing is shifted but the split: a bool that doubles the range moves the
//! border. Six bytes are fetched if fewer next bits are left than a bool may need. Past the end of the bytes all bits
//! are zeros.
ghost use Rattle.std.specs.Prelude.{◌≡◌, ◌↔◌, ◌⊎◌, ℕ, Bool, ◌+◌, ◌-◌, ◌*◌, ◌/◌, ◌%◌, ◌^◌, ◌<◌, ◌≤◌, List, [], ◌∷◌, ◌++◌, length, nat_le, slice_index, IsSome, IsNone, IfSome, IfNone, IsTrue};
ghost use Rattle.std.specs.List.{AllByRecursion};
ghost use Rattle.bool_coder.specs.BoolStream.{IsBool, chosen, coded, split, stream};
ghost use Rattle.bool_coder.specs.BoolReading.{first_bits, next_bit, Starts};
ghost use Rattle.bool_coder.specs.DecoderSeen.{Reads, seen_bit, seen_after};
ghost use Rattle.bool_coder.specs.DecoderInside.{seen_in, IsWindow};

use crate::doublings::doublings;
use crate::encoder::split_of;
use std::marker::Model;

/// The most that one bool shifts: if fewer bits are left, six bytes are fetched.
const MOST: u32 = 7;

/// A stream on its way back to bools. Clauses see the bytes and the decoder's place in them.
#[derive(Drop)]
pub struct Decoder<'a> {
    bytes: &'a [u8],
    // How many bytes were fetched, zero bytes past the end too. It no longer grows some bytes past the end.
    fetched: usize,
    // The offset, and after it the next bits.
    value: u64,
    // How many next bits there are: at most 54, which are six and the bits of six bytes.
    bits: u32,
    // The range less one, from which a split is worked out.
    less: u32,
}

impl<'a> Model for Decoder<'a> {
    ghost use Rattle.bool_coder.specs.DecoderSeen.{Seen};

    ghost Value = { Seen };

    ghost use Rattle.bool_coder.specs.DecoderInside.{seen_of, IsDecoder};

    ghost view = { seen_of };

    ghost invariant = { IsDecoder };
}

impl<'a> Decoder<'a> {
    /// Before the first bool (RFC 6386, 7.3). `None` if no list of bools has this stream, by its first byte alone:
    /// there is none, or it is 255.
    pub fn start(bytes: &'a [u8]) -> Option<Self>
        ensures some { IsSome result ↔ Starts bytes.now }
        ensures none { IsNone result ↔ ((bytes.now ≡ []) ⊎ (slice_index bytes.now 0 ≡ 255)) }
        ensures no_stream { IfNone result ((bools : List (ℕ × Bool)) → AllByRecursion IsBool bools
            → ¬ (bytes.now ≡ stream (coded bools))) }
        ensures opened { IfSome result (λ d. (d.bytes ≡ bytes.now) × Reads [] d) }
    {
        if bytes.is_empty() || bytes[0] == 255 {
            None
        } else {
            Some(Decoder {
                bytes,
                fetched: 1,
                value: u64::from(bytes[0]),
                bits: 0,
                less: 254,
            })
        }
    }

    /// The same decoder once more: the same bytes, at the same bit.
    #[inline(always)]
    pub fn again(&self) -> Decoder<'a>
        ensures { result ≡ self.now }
    {
        Decoder {
            bytes: self.bytes,
            fetched: self.fetched,
            value: self.value,
            bits: self.bits,
            less: self.less,
        }
    }

    /// The next bool, whose probability of a zero is `prob` in 256, from 1 to 255 (RFC 6386, 7.3). Past the end of
    /// the bytes it reads zero bits. `next` and `taken` are for a decoder that has read a list of bools, `bit` and
    /// `step` for any.
    #[inline(always)]
    pub fn take(&mut self, prob: u8) -> bool
        requires { 0 < prob }
        ensures bytes { self.new.bytes ≡ self.old.bytes }
        ensures next { (bools : List (ℕ × Bool)) → Reads bools self.old
            → result ≡ next_bit self.old.bytes (coded bools) prob }
        ensures taken { (bools : List (ℕ × Bool)) → Reads bools self.old
            → Reads (bools ++ (prob, result) ∷ []) self.new }
        ensures in_turn { (bools rest : List (ℕ × Bool)) (bit : Bool) → Reads bools self.old
            → AllByRecursion IsBool (bools ++ (prob, bit) ∷ rest)
            → self.old.bytes ≡ stream (coded (bools ++ (prob, bit) ∷ rest)) → result ≡ bit }
        ensures bit { result ≡ seen_bit self.old prob }
        ensures step { self.new ≡ seen_after self.old prob }
    {
        let (fetched, value, bits) = fill(self.bytes, self.fetched, self.value, self.bits);
        let (bit, value, bits, less) = step(value, bits, self.less + 1, prob);
        self.fetched = fetched;
        self.value = value;
        self.bits = bits;
        self.less = less;
        bit
    }

    /// `take`, with a branch on the bool: quicker if the caller branches on it too, and slower if it doesn't. `bit` and
    /// `step` are those of `take`.
    #[inline(always)]
    pub fn take_branching(&mut self, prob: u8) -> bool
        requires { 0 < prob }
        ensures bytes { self.new.bytes ≡ self.old.bytes }
        ensures taken { (bools : List (ℕ × Bool)) → Reads bools self.old
            → Reads (bools ++ (prob, result) ∷ []) self.new }
        ensures bit { result ≡ seen_bit self.old prob }
        ensures step { self.new ≡ seen_after self.old prob }
    {
        let (fetched, value, bits) = fill(self.bytes, self.fetched, self.value, self.bits);
        let range = self.less + 1;
        self.fetched = fetched;
        if is_one(value, bits, range, prob) {
            (self.value, self.bits, self.less) = step_known(value, bits, range, prob, true);
            true
        } else {
            (self.value, self.bits, self.less) = step_known(value, bits, range, prob, false);
            false
        }
    }

    /// Whether the bytes are the stream of the bools that were read, no byte and no bit more or less: the offset and
    /// all next bits are zero, and the byte with the last bit that was looked at is the last byte.
    pub fn exact(&self) -> bool
        ensures { (bools : List (ℕ × Bool)) → Reads bools self.now
            → (IsTrue result ↔ (self.now.bytes ≡ stream (coded bools))) }
    {
        self.value == 0 && self.fetched - (self.bits / 8) as usize == self.bytes.len()
    }
}

// Fetches six bytes if a bool may need more bits than there are.
#[inline(always)]
fn fill(bytes: &[u8], fetched: usize, value: u64, bits: u32) -> (usize, u64, u32)
    requires within { fetched ≤ length bytes.now + 13 }
    requires small { bits < 7 → value < 2 ^ 15 }
    ensures enough { 7 ≤ result.2 }
    ensures window { (range : ℕ) → IsWindow bytes.now fetched value bits range
        → IsWindow bytes.now result.0 result.1 result.2 range }
    ensures same { (range : ℕ) → IsWindow bytes.now fetched value bits range
        → seen_in bytes.now result.0 result.1 result.2 range
        ≡ seen_in bytes.now fetched value bits range }
{
    if bits < MOST {
        let six = next_six(bytes, fetched);
        let fetched = six_on(fetched, bytes.len());
        (fetched, (value << 48) + six, bits + 48)
    } else {
        (fetched, value, bits)
    }
}

// The next six bytes as a number, with zero bytes past the end. Eight are read at once, and the last two dropped.
#[cold]
#[inline(never)]
fn next_six(bytes: &[u8], fetched: usize) -> u64
    requires within { fetched ≤ length bytes.now + 13 }
    ensures { result ≡ first_bits bytes.now (8 * fetched + 48) % 2 ^ 48 }
{
    if fetched + 8 <= bytes.len() {
        let eight = &bytes[fetched..fetched + 8];
        u64::from_be_bytes([
            eight[0], eight[1], eight[2], eight[3], eight[4], eight[5], eight[6], eight[7],
        ]) >> 16
    } else {
        last_six(bytes, fetched)
    }
}

// The next six bytes one by one, near the end and past it.
#[cold]
#[inline(never)]
fn last_six(bytes: &[u8], fetched: usize) -> u64
    requires within { fetched ≤ length bytes.now + 13 }
    ensures { result ≡ first_bits bytes.now (8 * fetched + 48) % 2 ^ 48 }
{
    u64::from_be_bytes([
        0,
        0,
        byte_or_zero(bytes, fetched),
        byte_or_zero(bytes, fetched + 1),
        byte_or_zero(bytes, fetched + 2),
        byte_or_zero(bytes, fetched + 3),
        byte_or_zero(bytes, fetched + 4),
        byte_or_zero(bytes, fetched + 5),
    ])
}

// A zero byte past the end.
fn byte_or_zero(bytes: &[u8], place: usize) -> u8
    ensures { result ≡ slice_index bytes.now place }
{
    if place < bytes.len() { bytes[place] } else { 0 }
}

// Six bytes more, up to some bytes past the end.
#[inline(always)]
fn six_on(fetched: usize, len: usize) -> usize
    requires len { len < 2 ^ 63 }
    ensures moved { fetched < len + 8 → result ≡ fetched + 6 }
    ensures still { len + 8 ≤ fetched → result ≡ fetched }
{
    if fetched < len + 8 {
        fetched + 6
    } else {
        fetched
    }
}

// A bool read from the word, and the word, its next bits and the range less one after it.
#[inline(always)]
fn step(value: u64, bits: u32, range: u32, prob: u8) -> (bool, u64, u32, u32)
    requires wide { 128 ≤ range }
    requires byte { range ≤ 255 }
    requires enough { 7 ≤ bits }
    requires short { bits < 55 }
    requires prob { 0 < prob }
    ensures bit { result.0 ≡ nat_le (split range prob) (value / 2 ^ bits) }
    ensures window { (bytes : List ℕ) (fetched : ℕ) → IsWindow bytes fetched value bits range
        → IsWindow bytes fetched result.1 result.2 (result.3 + 1) }
    ensures step { (bytes : List ℕ) (fetched : ℕ) → IsWindow bytes fetched value bits range
        → seen_in bytes fetched result.1 result.2 (result.3 + 1)
        ≡ seen_after (seen_in bytes fetched value bits range) prob }
{
    let (bit, value, range) = choose(value, bits, range, prob);
    let (shift, less) = doublings(range);
    (bit, value, bits - shift, less)
}

// The part of the range that the word lies in, and the word less where that begins. It is the upper part, that of a
// one, if the difference isn't below 0.
#[inline(always)]
fn choose(value: u64, bits: u32, range: u32, prob: u8) -> (bool, u64, u32)
    requires wide { 128 ≤ range }
    requires byte { range ≤ 255 }
    requires short { bits < 55 }
    requires prob { 0 < prob }
    ensures bit { result.0 ≡ nat_le (split range prob) (value / 2 ^ bits) }
    ensures value { result.1
        + (chosen (record {
          bottom = 0;
          range = range;
          shifts = 0;
        }) prob result.0).bottom * 2 ^ bits ≡ value }
    ensures some { 0 < result.2 }
    ensures part { result.2 < range }
    ensures range { result.2
        ≡ (chosen (record { bottom = 0; range = range; shifts = 0 }) prob result.0).range }
{
    let split = split_of(range, prob);
    let start = u64::from(split) << bits;
    let (rest, is_below) = value.overflowing_sub(start);
    if is_below {
        (false, value, split)
    } else {
        (true, rest, range - split)
    }
}

// Whether the word lies in the upper part of the range, that of a one.
#[inline(always)]
fn is_one(value: u64, bits: u32, range: u32, prob: u8) -> bool
    requires wide { 128 ≤ range }
    requires byte { range ≤ 255 }
    requires short { bits < 55 }
    requires prob { 0 < prob }
    ensures { result ≡ nat_le (split range prob) (value / 2 ^ bits) }
{
    value >= u64::from(split_of(range, prob)) << bits
}

// `step`, given the bool.
#[inline(always)]
fn step_known(value: u64, bits: u32, range: u32, prob: u8, bit: bool) -> (u64, u32, u32)
    requires wide { 128 ≤ range }
    requires byte { range ≤ 255 }
    requires enough { 7 ≤ bits }
    requires short { bits < 55 }
    requires prob { 0 < prob }
    requires bit { bit ≡ nat_le (split range prob) (value / 2 ^ bits) }
    ensures window { (bytes : List ℕ) (fetched : ℕ) → IsWindow bytes fetched value bits range
        → IsWindow bytes fetched result.0 result.1 (result.2 + 1) }
    ensures step { (bytes : List ℕ) (fetched : ℕ) → IsWindow bytes fetched value bits range
        → seen_in bytes fetched result.0 result.1 (result.2 + 1)
        ≡ seen_after (seen_in bytes fetched value bits range) prob }
{
    let (value, range) = choose_known(value, bits, range, prob, bit);
    let (shift, less) = doublings(range);
    (value, bits - shift, less)
}

// `choose`, given the bool.
#[inline(always)]
fn choose_known(value: u64, bits: u32, range: u32, prob: u8, bit: bool) -> (u64, u32)
    requires wide { 128 ≤ range }
    requires byte { range ≤ 255 }
    requires short { bits < 55 }
    requires prob { 0 < prob }
    requires bit { bit ≡ nat_le (split range prob) (value / 2 ^ bits) }
    ensures value { result.0
        + (chosen (record {
          bottom = 0;
          range = range;
          shifts = 0;
        }) prob bit).bottom * 2 ^ bits ≡ value }
    ensures some { 0 < result.1 }
    ensures part { result.1 < range }
    ensures range { result.1
        ≡ (chosen (record { bottom = 0; range = range; shifts = 0 }) prob bit).range }
{
    let split = split_of(range, prob);
    if bit {
        (value - (u64::from(split) << bits), range - split)
    } else {
        (value, split)
    }
}
