// From bits to bytes, four of them at once.
ghost use Rattle.std.specs.Int.{bytes_high_first};
ghost use Rattle.std.specs.List.{AllByRecursion};
ghost use Rattle.std.specs.Prelude.{◌≡◌, ◌≢◌, ◌+◌, ◌*◌, ◌/◌, ◌^◌, ◌<◌, ◌≤◌, [], ◌++◌, false, length};
ghost use Rattle.bit_list.specs.Bits.{low_bits, bytes_after, begun_after, stuffed};
ghost use Rattle.bit_list.specs.Pieces.{piece_room};

use crate::bit_out::{BitOut, put_byte};
use crate::piece::Piece;
use std::marker::Model;

// The lowest bit of each of eight bytes, and the highest.
const LOWEST: u64 = 0x0101_0101_0101_0101;

const HIGHEST: u64 = 0x8080_8080_8080_8080;

/// Bits on their way to a piece, fewer than 32: so whole bytes may wait here, and four are put at once.
///
/// Clauses see the list of the bits, the first one first.
#[derive(Clone, Copy)]
pub struct BitBuffer {
    // The bits as a number.
    number: u64,
    // How many they are.
    count: u32,
}

impl Model for BitBuffer {
    ghost use Rattle.std.specs.Prelude.{ℕ, List, Bool, length};
    ghost use Rattle.bit_list.specs.Bits.{low_bits, number_of};
    ghost use Rattle.bit_list.specs.BitsInside.{IsKept};
    ghost use Rattle.bit_list.specs.NumbersOfBits.{kept_again};

    ghost Value = { List Bool };

    ghost view = { λ b. low_bits b.count b.number };

    ghost invariant = { λ b. IsKept 31 b.number b.count };

    ghost inverse = { λ bits. record { number = number_of bits; count = length bits } };

    ghost inverse_ok = { λ b h. kept_again (λ (n c : ℕ). record {
      number = n;
      count = c;
    }) b.number b.count h.below };
}

impl BitBuffer {
    /// The bits of a byte begun.
    #[inline(always)]
    pub fn of(begun: BitOut) -> Self
        ensures bits { result ≡ begun }
        ensures few { length result < 8 }
    {
        BitBuffer {
            number: u64::from(begun.number),
            count: begun.count,
        }
    }

    /// Appends the low `count` bits of a code, the highest first, and puts the first four bytes if there are as many.
    /// The bits are 27 at most, as many as a code word and the bits of a value after it have.
    #[inline(always)]
    pub fn put(&mut self, code: u32, count: u32, out: &mut Piece)
        requires count { count ≤ 27 }
        requires code { code < 2 ^ count }
        requires room { length out.old + (length self.old + count) / 4 ≤ piece_room }
        ensures bytes { out.new ++ stuffed (bytes_after [] self.new)
            ≡ out.old ++ stuffed (bytes_after [] (self.old ++ low_bits count code)) }
        ensures begun { begun_after [] self.new ≡ begun_after [] (self.old ++ low_bits count code) }
        ensures few { 4 * length out.new + length self.new
            ≤ 4 * length out.old + (length self.old + count) }
        ensures short { length self.new < 32 }
    {
        let number = (self.number << count) + u64::from(code);
        let total = self.count + count;
        if total < 32 {
            self.number = number;
            self.count = total;
        } else {
            let left = total - 32;
            put_whole(number >> left, 32, out);
            self.number = number & ((1 << left) - 1);
            self.count = left;
        }
    }

    /// Puts all whole bytes, and answers the byte begun.
    #[inline(always)]
    pub fn begun(self, out: &mut Piece) -> BitOut
        requires room { length out.old + length self / 4 ≤ piece_room }
        ensures bytes { out.new ≡ out.old ++ stuffed (bytes_after [] self) }
        ensures begun { result ≡ begun_after [] self }
        ensures few { 4 * length out.new + length result ≤ 4 * length out.old + length self }
    {
        put_whole(self.number, self.count, out);
        let left = self.count % 8;
        BitOut {
            number: (self.number & ((1 << left) - 1)) as u32,
            count: left,
        }
    }
}

// Puts the whole bytes of a number of up to 32 bits: by one store, if none of them is 0xff. The byte begun after them
// isn't 0xff, since its free bits are 0.
#[inline(always)]
fn put_whole(number: u64, count: u32, out: &mut Piece)
    requires few { count ≤ 32 }
    requires below { number < 2 ^ count }
    requires room { length out.old + 2 * (count / 8) ≤ piece_room }
    ensures bytes { out.new ≡ out.old ++ stuffed (bytes_after [] (low_bits count number)) }
    ensures few { length out.new ≤ length out.old + 2 * (count / 8) }
{
    // No bits, a number of 0, are shifted by 0 in place of 64.
    let bits = number.wrapping_shl(64 - count);
    if may_have_full_byte(bits) {
        put_one_by_one(number, count, out);
        return;
    }
    out.push_first(bits, (count / 8) as usize);
}

/// Whether a byte of a number of eight may be 0xff: if not, none is. A byte of 0xff is a zero of the complement, and the
/// lowest zero becomes 0xff if one is subtracted from each byte, since nothing is borrowed below it.
#[inline(always)]
pub(crate) fn may_have_full_byte(eight: u64) -> bool
    ensures { result ≡ false → AllByRecursion (λ byte. byte ≢ 255) (bytes_high_first 8 eight) }
{
    (!eight).wrapping_sub(LOWEST) & eight & HIGHEST != 0
}

// The same byte by byte, each with a zero after it if it is 0xff.
#[cold]
#[inline(never)]
fn put_one_by_one(number: u64, count: u32, out: &mut Piece)
    requires few { count ≤ 32 }
    requires room { length out.old + 2 * (count / 8) ≤ piece_room }
    ensures bytes { out.new ≡ out.old ++ stuffed (bytes_after [] (low_bits count number)) }
    ensures few { length out.new ≤ length out.old + 2 * (count / 8) }
{
    let mut left = count;
    while left >= 8 {
        left -= 8;
        put_byte(((number >> left) & 0xff) as u8, out);
    }
}
