// From bits to stuffed bytes.
ghost use Rattle.std.specs.Prelude.{◌≡◌, ◌+◌, ◌-◌, ◌%◌, ◌^◌, ◌<◌, ◌≤◌, ◌↔◌, [], ◌∷◌, ◌++◌, false, length, take, replicate, IsTrue};
ghost use Rattle.bit_list.specs.Bits.{low_bits, bytes_after, padding, stuffed};
ghost use Rattle.bit_list.specs.Pieces.{piece_room};

use crate::piece::Piece;
use std::marker::Model;

/// The bits of a byte begun, fewer than eight (ITU-T T.81, C.3).
///
/// Clauses see the list of the bits, the highest first.
#[derive(Clone, Copy)]
pub struct BitOut {
    // The bits as a number.
    pub(crate) number: u32,
    // How many they are.
    pub(crate) count: u32,
}

impl Model for BitOut {
    ghost use Rattle.std.specs.Prelude.{ℕ, List, Bool, length};
    ghost use Rattle.bit_list.specs.Bits.{low_bits, number_of};
    ghost use Rattle.bit_list.specs.BitsInside.{IsKept};
    ghost use Rattle.bit_list.specs.NumbersOfBits.{kept_again};

    ghost Value = { List Bool };

    ghost view = { λ b. low_bits b.count b.number };

    ghost invariant = { λ b. IsKept 7 b.number b.count };

    ghost inverse = { λ bits. record { number = number_of bits; count = length bits } };

    ghost inverse_ok = { λ b h. kept_again (λ (n c : ℕ). record {
      number = n;
      count = c;
    }) b.number b.count h.below };
}

impl BitOut {
    /// The first `bits` bits of a byte.
    pub fn at(partial: u8, bits: u8) -> Self
        requires bits { bits ≤ 7 }
        requires clear { partial % 2 ^ (8 - bits) ≡ 0 }
        ensures { result ≡ take bits (low_bits 8 partial) }
    {
        BitOut {
            number: u32::from(partial) >> (8 - bits),
            count: u32::from(bits),
        }
    }

    /// Puts the same bit up to the end of the byte, and answers whether there was a byte begun.
    pub fn pad(&mut self, bit: bool, out: &mut Piece) -> bool
        requires { length out.old + 2 ≤ piece_room }
        ensures bytes { out.new ≡ out.old ++ stuffed (bytes_after self.old (padding self.old bit)) }
        ensures none { self.new ≡ [] }
        ensures few { length out.new ≤ length out.old + 2 }
        ensures begun { IsTrue result ↔ 0 < length self.old }
    {
        if self.count == 0 {
            return false;
        }
        let free = 8 - self.count;
        put_byte(((self.number << free) + repeated(bit, free)) as u8, out);
        self.number = 0;
        self.count = 0;
        true
    }

    /// Puts a marker (ITU-T T.81, B.1.1.2), if no byte is begun.
    pub fn mark(&mut self, code: u8, out: &mut Piece)
        requires whole { self.old ≡ [] }
        requires room { length out.old + 2 ≤ piece_room }
        ensures bytes { out.new ≡ out.old ++ 255 ∷ code ∷ [] }
        ensures none { self.new ≡ [] }
    {
        out.push(0xff);
        out.push(code);
    }

    /// The bits as the first ones of a byte, and how many they are.
    pub fn partial(&self) -> (u8, u8)
        ensures count { result.1 ≡ length self.now }
        ensures few { result.1 ≤ 7 }
        ensures bits { take result.1 (low_bits 8 result.0) ≡ self.now }
        ensures clear { result.0 % 2 ^ (8 - result.1) ≡ 0 }
    {
        ((self.number << (8 - self.count)) as u8, self.count as u8)
    }
}

// One bit again and again, as a number.
#[inline(always)]
fn repeated(bit: bool, count: u32) -> u32
    requires { count ≤ 8 }
    ensures below { result < 2 ^ count }
    ensures bits { low_bits count result ≡ replicate count bit }
{
    if bit { (1 << count) - 1 } else { 0 }
}

// Puts a coded byte, and a zero after 0xff.
#[inline(always)]
pub(crate) fn put_byte(byte: u8, out: &mut Piece)
    requires { length out.old + 2 ≤ piece_room }
    ensures bytes { out.new ≡ out.old ++ stuffed (byte ∷ []) }
    ensures few { length out.new ≤ length out.old + 2 }
{
    out.push(byte);
    if byte == 0xff {
        out.push(0);
    }
}
