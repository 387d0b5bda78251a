// From stuffed bytes to bits.
ghost use Rattle.std.specs.Prelude.{◌≡◌, ◌^◌, ◌<◌, ◌≤◌, ℕ, Ok, Err, [], false, true, length, IfSome, IfOk, IfErr, OnErr};
ghost use Rattle.bit_list.specs.Bits.{low_bits, number_of};
ghost use Rattle.bit_list.specs.Units.{Cursor, starting, bit_at, bits_at};
ghost use Rattle.bit_list.specs.Peeked.{peeked};

use crate::fault::BitFault;
use crate::fetched::{Fetched, begun, by_fields, peek_by_units, refill, take_apart, top_bits};
use std::marker::Model;

/// The bits of stuffed bytes, from any bit on (ITU-T T.81, B.1.1.5 and C.3).
///
/// Clauses see the bytes and a cursor.
#[derive(Drop)]
pub struct BitIn<'a> {
    bytes: &'a [u8],
    at: Fetched,
}

impl<'a> Model for BitIn<'a> {
    ghost use Rattle.bit_list.specs.Units.{Reading};

    ghost Value = { Reading };

    ghost use Rattle.bit_list.specs.BitsInside.{cursor_of_fetched, IsFetched};

    ghost view = { λ b. record { bytes = b.bytes.now; cursor = cursor_of_fetched b.at } };

    ghost invariant = { λ b. IsFetched b.bytes.now b.at };
}

impl<'a> BitIn<'a> {
    /// From the unit at a place on, without its first `bits` bits.
    pub fn at(bytes: &'a [u8], place: usize, bits: u8) -> Self
        requires { bits ≤ 7 }
        ensures { result ≡ record { bytes = bytes.now; cursor = starting place bits } }
    {
        BitIn {
            bytes,
            at: Fetched {
                word: 0,
                count: 0,
                skip: bits,
                stuffed: 0,
                last: place,
                first: place,
                end: place,
            },
        }
    }

    /// A copy. In a local value the reader's state stays in registers; behind a reference it is loaded and stored for
    /// each symbol.
    #[inline(always)]
    pub fn copied(&self) -> BitIn<'a>
        ensures { result ≡ self.now }
    {
        BitIn {
            bytes: self.bytes,
            at: by_fields(&self.at),
        }
    }

    /// Reads `n` bits, the highest first. A fault changes nothing.
    #[inline(always)]
    pub fn take(&mut self, n: u8) -> Result<u16, BitFault>
        requires { n ≤ 16 }
        ensures ok { IfOk result (λ v. (v < 2 ^ n)
            × (bits_at n self.old.bytes self.old.cursor ≡ Ok (low_bits n v, self.new.cursor))) }
        ensures err { IfErr result (λ e. bits_at n self.old.bytes self.old.cursor ≡ Err e) }
        ensures stays { OnErr result (self.new ≡ self.old) }
        ensures bytes { self.new.bytes ≡ self.old.bytes }
    {
        if n <= self.at.count {
            let number = top_bits(self.bytes, &self.at, n);
            self.at.count -= n;
            return Ok(number);
        }
        let (number, at) = take_apart(self.bytes, &self.at, n)?;
        self.at = at;
        Ok(number)
    }

    /// The next `n` bits as a number, the highest first, if they were fetched. None says nothing of what follows: then
    /// `take` reads the bits, or gives the fault.
    #[inline(always)]
    pub fn look(&self, n: u8) -> Option<u16>
        requires { n ≤ 16 }
        ensures below { IfSome result (λ v. v < 2 ^ n) }
        ensures bits { IfSome result
            (λ v. (next : Cursor) × (bits_at n self.now.bytes self.now.cursor
            ≡ Ok (low_bits n v, next))) }
    {
        if n > self.at.count {
            return None;
        }
        Some(top_bits(self.bytes, &self.at, n))
    }

    /// Passes over the next `n` bits if they were fetched, and answers whether they were. If not, nothing changes.
    #[inline(always)]
    pub fn advance(&mut self, n: u8) -> bool
        requires { n ≤ 16 }
        ensures bits { result ≡ true → (v : ℕ)
            × (bits_at n self.old.bytes self.old.cursor ≡ Ok (low_bits n v, self.new.cursor)) }
        ensures stays { result ≡ false → self.new ≡ self.old }
        ensures bytes { self.new.bytes ≡ self.old.bytes }
    {
        if n > self.at.count {
            return false;
        }
        let _ = top_bits(self.bytes, &self.at, n);
        self.at.count -= n;
        true
    }

    /// Reads one bit. A fault changes nothing.
    #[inline]
    pub fn bit(&mut self) -> Result<bool, BitFault>
        ensures ok { IfOk result
            (λ bit. bit_at self.old.bytes self.old.cursor ≡ Ok (bit, self.new.cursor)) }
        ensures err { IfErr result (λ e. bit_at self.old.bytes self.old.cursor ≡ Err e) }
        ensures stays { OnErr result (self.new ≡ self.old) }
        ensures bytes { self.new.bytes ≡ self.old.bytes }
    {
        let number = self.take(1)?;
        Ok(number == 1)
    }

    /// Fetches bits ahead, so that looking at them is quick. Nothing that clauses see changes.
    #[inline(always)]
    pub fn ready(&mut self)
        ensures { self.new ≡ self.old }
    {
        if self.at.count < 16 {
            refill(self.bytes, &mut self.at);
        }
    }

    /// The next nine bits as a number, zeros for those that no unit gives.
    #[inline(always)]
    pub fn peek9(&self) -> u16
        ensures number { result ≡ number_of (peeked 9 self.now.bytes self.now.cursor) }
        ensures below { result < 512 }
    {
        if self.at.count >= 9 {
            return top_bits(self.bytes, &self.at, 9);
        }
        peek_by_units(self.bytes, self.at)
    }

    /// Reads the bits that are left of a unit begun, and answers their number and how many they are.
    pub fn rest_of_byte(&mut self) -> (u8, u8)
        ensures count { result.1 ≡ length self.old.cursor.left }
        ensures number { result.0 ≡ number_of self.old.cursor.left }
        ensures few { result.1 ≤ 8 }
        ensures below { result.0 < 2 ^ result.1 }
        ensures cursor { self.new.cursor ≡ record self.old.cursor { left = [] } }
        ensures bytes { self.new.bytes ≡ self.old.bytes }
    {
        let window = begun(self.bytes, self.at);
        let rest = (window.number, window.count);
        self.at = Fetched {
            count: self.at.count / 8 * 8,
            ..self.at
        };
        rest
    }

    /// The place of the next unit, which follows the bits that are left of this one.
    #[inline]
    pub fn next_place(&self) -> usize
        ensures { result ≡ self.now.cursor.next }
    {
        begun(self.bytes, self.at).next
    }

    /// The bits that are left of a unit begun, at most 8: as a number, and their count.
    #[inline]
    pub fn left(&self) -> (u8, u8)
        ensures count { result.1 ≡ length self.now.cursor.left }
        ensures number { result.0 ≡ number_of self.now.cursor.left }
        ensures few { result.1 ≤ 8 }
        ensures below { result.0 < 2 ^ result.1 }
    {
        let window = begun(self.bytes, self.at);
        (window.number, window.count)
    }

    /// Whether another input is at the same bit, with the same places before and after. Both read on alike then, if
    /// their bytes are alike.
    pub fn is_at(&self, other: &BitIn) -> bool
        ensures same { result ≡ true → self.now.cursor ≡ other.now.cursor }
        ensures apart { result ≡ false → self.now.cursor ≡ other.now.cursor → ⊥ }
    {
        begun(self.bytes, self.at) == begun(other.bytes, other.at)
    }

    /// The place of the unit of the last bit that was read; before the first bit, the place at which reading began.
    #[inline(always)]
    pub fn place(&self) -> usize
        ensures { result ≡ self.now.cursor.last }
    {
        begun(self.bytes, self.at).last
    }
}
