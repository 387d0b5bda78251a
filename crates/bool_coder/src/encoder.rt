// From bools to the stream, with carries.
ghost use Rattle.std.specs.Prelude.{[], ◌≡◌, ℕ, ◌+◌, ◌-◌, ◌*◌, ◌^◌, ◌<◌, ◌≤◌, Some, None, List, length, take, drop, IsSome, IfSome, IfOk, OnOk, OnErr, option_map};
ghost use Rattle.std.specs.Int.Digits.{number_from_digits, AllBelowBase};
ghost use Rattle.bool_coder.specs.BoolStream.{opening, after, split, chosen, stream};
ghost use Rattle.bool_coder.specs.EncoderInside.{IsLonger, IsSameKept, bits_of, kept, low_of};

use crate::doublings::widening;
use allocation::{NoMemory, extend_from_slice};
use std::alloc::Global;
use std::marker::Model;
use std::mem::replace;

/// The least word of 40 bits, whose first four bytes are written. A bool adds seven bits at most, so a word has 46 bits
/// at most, the carry, and the one above it.
const FULL: u64 = 1 << 41;

/// The word of a new encoder: eight bits and the carry, all zeros, and the one above them.
const FIRST: u64 = 1 << 9;

/// What a list of bools leaves of the line, on the way to its stream.
///
/// Clauses see the interval, or nothing once it was out of memory: the encoder is then spent.
#[derive(Drop)]
pub struct Encoder {
    // The bytes of the bottom that are whole, but for a carry.
    written: Vec<u8>,
    // The bits of the bottom after them, above those the carry, and above that a one, which shows how many bits they
    // are.
    low: u64,
    // The range less one, from which a split is worked out.
    less: u32,
    // Why it is spent, if it is.
    spent: Option<NoMemory>,
}

impl Model for Encoder {
    ghost use Rattle.std.specs.Prelude.{Option};
    ghost use Rattle.bool_coder.specs.BoolStream.{Interval};

    ghost Value = { Option Interval };

    ghost use Rattle.bool_coder.specs.EncoderInside.{interval_of, IsSound};

    ghost view = { interval_of };

    ghost invariant = { IsSound };
}

impl Encoder {
    /// Before the first bool: the line of 255 parts (RFC 6386, 7.3).
    pub fn new(alloc: Global) -> Self
        ensures { result ≡ Some opening }
    {
        Encoder::over(Vec::new(alloc))
    }

    /// Before the first bool, with an empty list for the stream's bytes. Memory is asked for only if the list's room
    /// isn't enough.
    #[inline(always)]
    pub fn over(list: Vec<u8>) -> Self
        requires { list.items ≡ [] }
        ensures { result ≡ Some opening }
    {
        Encoder {
            written: list,
            low: FIRST,
            less: 254,
            spent: None,
        }
    }

    /// Moves the encoder out, and leaves a new one. A local encoder's state stays in registers; behind a reference it
    /// is loaded and stored for each bool.
    #[inline(always)]
    pub fn moved(&mut self) -> Encoder
        ensures value { result ≡ self.old }
        ensures left { self.new ≡ Some opening }
    {
        let alloc = *self.written.allocator();
        replace(self, Encoder::new(alloc))
    }

    /// Codes a bool whose probability of a zero is `prob` in 256, from 1 to 255 (RFC 6386, 7.3). The one error is
    /// out of memory. The encoder is then spent, and returns that error from then on.
    #[inline(always)]
    pub fn put(&mut self, prob: u8, bit: bool) -> Result<(), NoMemory>
        requires { 0 < prob }
        ensures coded { OnOk result (self.new ≡ option_map (λ i. after i (prob, bit)) self.old) }
        ensures lasting { OnOk result (IsSome self.old) }
        ensures spent { OnErr result (self.new ≡ None) }
    {
        if let Some(short) = self.spent {
            return Err(short);
        }
        let (low, less) = step(self.low, self.less, prob, bit);
        if low < FULL {
            self.low = low;
            self.less = less;
            return Ok(());
        }
        match flush_into(&mut self.written, low) {
            Ok(rest) => {
                self.low = rest;
                self.less = less;
                Ok(())
            }
            // The bytes are gone: what is left is a new encoder's word.
            Err(short) => {
                self.low = FIRST;
                self.less = 254;
                self.spent = Some(short);
                Err(short)
            }
        }
    }

    /// The stream of the bools that were coded: the bottom in eight bits and one more for each shift, the highest
    /// first, and zero bits up to a whole byte. The flush of RFC 6386 isn't used. The one error is out of memory,
    /// here or at a `put`.
    pub fn finish(self) -> Result<Vec<u8>, NoMemory>
        ensures stream { IfOk result (λ bytes. IfSome self (λ i. bytes.items ≡ stream i)) }
        ensures spent { OnOk result (IsSome self) }
    {
        let Encoder {
            written,
            low,
            less: _,
            spent,
        } = self;
        if let Some(short) = spent {
            return Err(short);
        }
        let (low, bits) = parts_of(low);
        let count = bits.div_ceil(8);
        let mut stream = written;
        append(&mut stream, low << (8 * count - bits), count as usize)?;
        Ok(stream)
    }
}

// The bits of a word with the carry, and how many they are without it.
#[inline(always)]
fn parts_of(word: u64) -> (u64, u32)
    requires some { 2 ≤ word }
    ensures low { result.0 ≡ low_of word }
    ensures bits { result.1 ≡ bits_of word }
    ensures few { result.1 ≤ 62 }
    ensures short { word < 2 ^ 41 → result.1 < 40 }
    ensures full { 2 ^ 41 ≤ word → 40 ≤ result.1 }
{
    let bits = 62 - word.leading_zeros();
    (word - (2 << bits), bits)
}

// What a bool makes of the word, and of the range less one. It adds seven bits at most.
#[inline(always)]
fn step(low: u64, less: u32, prob: u8, bit: bool) -> (u64, u32)
    requires wide { 127 ≤ less }
    requires byte { less < 255 }
    requires begun { 2 ^ 9 ≤ low }
    requires short { low < 2 ^ 41 }
    requires one_carry { low + (less + 1) ≤ 2 ^ (bits_of low + 2) }
    requires prob { 0 < prob }
    ensures coded { (written : List ℕ)
        → kept written result.0 (result.1 + 1)
        ≡ after (kept written low (less + 1)) (prob, bit) }
    ensures no_less { low ≤ result.0 }
    ensures few_more { result.0 < 2 ^ 48 }
    ensures one_carry { result.0 + (result.1 + 1) ≤ 2 ^ (bits_of result.0 + 2) }
{
    let (low, range) = choose(low, less, prob, bit);
    let (times, less) = widening(range);
    (low * times, less)
}

// The part of the word that a bool keeps, as an interval of its own.
#[inline(always)]
fn choose(low: u64, less: u32, prob: u8, bit: bool) -> (u64, u32)
    requires wide { 127 ≤ less }
    requires byte { less < 255 }
    requires prob { 0 < prob }
    requires room { low < 2 ^ 63 }
    ensures low { result.0 ≡ (chosen
        (record { bottom = low; range = less + 1; shifts = 0 }) prob bit).bottom }
    ensures range { result.1
        ≡ (chosen (record { bottom = low; range = less + 1; shifts = 0 }) prob bit).range }
{
    let part = part_of(less, prob);
    if bit {
        (low + u64::from(part) + 1, less - part)
    } else {
        (low, part + 1)
    }
}

// How much of a range stands for a zero, less one, from the range less one.
#[inline(always)]
fn part_of(less: u32, prob: u8) -> u32
    requires low { 127 ≤ less }
    requires high { less < 255 }
    requires prob { 0 < prob }
    ensures split { result + 1 ≡ split (less + 1) prob }
    ensures part { result < less }
{
    (less * u32::from(prob)) >> 8
}

// How much of a range stands for a zero.
#[inline(always)]
pub(crate) fn split_of(range: u32, prob: u8) -> u32
    requires low { 128 ≤ range }
    requires high { range ≤ 255 }
    requires prob { 0 < prob }
    ensures split { result ≡ split range prob }
    ensures some { 0 < result }
    ensures part { result < range }
{
    1 + part_of(range - 1, prob)
}

// `flush` behind a reference. What it has in memory is cleared only if it is called, and not for each bool.
#[inline(always)]
fn flush_into(written: &mut Vec<u8>, low: u64) -> Result<u64, NoMemory>
    requires full { 2 ^ 41 ≤ low }
    requires word { (range : ℕ) × IsLonger written.old.items low range }
    ensures kept { IfOk result (λ rest. (range : ℕ) → IsLonger written.old.items low range
        → IsSameKept written.old.items low written.new.items rest range) }
    ensures lost { OnErr result (written.new.items ≡ []) }
{
    let alloc = *written.allocator();
    match flush(replace(written, Vec::new(alloc)), low) {
        Ok((longer, rest)) => {
            *written = longer;
            Ok(rest)
        }
        Err(short) => Err(short),
    }
}

// Appends the first four bytes of a full word, and answers the word that is left.
#[cold]
#[inline(never)]
fn flush(written: Vec<u8>, low: u64) -> Result<(Vec<u8>, u64), NoMemory>
    requires full { 2 ^ 41 ≤ low }
    requires word { (range : ℕ) × IsLonger written.items low range }
    ensures { IfOk result (λ left. (range : ℕ) → IsLonger written.items low range
        → IsSameKept written.items low left.0.items left.1 range) }
{
    let (number, bits) = parts_of(low);
    let left = bits - 32;
    let mut longer = written;
    // With this count at hand the bytes are one store.
    append(&mut longer, number >> left, 4)?;
    Ok((longer, (number & ((1 << left) - 1)) + (2 << left)))
}

// Appends the last `count` bytes of a number, and adds the carry above them to what was written.
#[inline(always)]
fn append(written: &mut Vec<u8>, number: u64, count: usize) -> Result<(), NoMemory>
    requires count { count ≤ 7 }
    requires carry { number < 2 * 256 ^ count }
    requires room { number_from_digits 256 written.old.items * 256 ^ count + number
        < 256 ^ (length written.old.items + count) }
    ensures number { OnOk result (number_from_digits 256 written.new.items
        ≡ number_from_digits 256 written.old.items * 256 ^ count + number) }
    ensures longer { OnOk result (length written.new.items ≡ length written.old.items + count) }
    ensures bytes { OnOk result (AllBelowBase 256 written.new.items) }
{
    let whole = written.len();
    extend_from_slice(written, &number.to_be_bytes()[8 - count..])?;
    if number >> (8 * count) != 0 {
        carry(written, whole);
    }
    Ok(())
}

// Adds one to the number of the first `end` bytes. It goes back through bytes of 0xff, each of which it makes 0, so
// that it reaches a byte no more often than the byte was written as 0xff.
fn carry(written: &mut Vec<u8>, end: usize)
    requires end { end ≤ length written.old.items }
    requires room { number_from_digits 256 (take end written.old.items) + 1 < 256 ^ end }
    ensures number { number_from_digits 256 (take end written.new.items)
        ≡ number_from_digits 256 (take end written.old.items) + 1 }
    ensures rest { drop end written.new.items ≡ drop end written.old.items }
    ensures len { length written.new.items ≡ length written.old.items }
{
    let mut place = end - 1;
    while written[place] == 0xff {
        written[place] = 0;
        place -= 1;
    }
    written[place] += 1;
}
