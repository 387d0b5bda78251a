// Coefficients that are all within their limits.
ghost use Rattle.std.specs.Prelude.{◌≡◌, ◌≢◌, ◌<◌, ◌==◌, ℕ, pos, Some, not, if◌then◌else◌, replicate, slice_get, slice_index, slice_set, unsigned_abs};
ghost use Rattle.std.specs.Int.{bit_at};
ghost use Rattle.coef_block.specs.Block.{IsCoefficient, IsBlock};
ghost use Rattle.coef_block.specs.Nonzeros.{IsMask, nonzeros_among};
ghost use Rattle.coef_block.specs.Zigzag.{zigzag};

use crate::zigzag::{natural_position, zigzag_index};
use std::marker::Model;

/// The largest magnitude of a DC coefficient: `most_dc` in clauses.
pub const MOST_DC: u32 = 32_767;

/// The largest magnitude of a DC difference (ITU-T T.81, Table F.1): `most_difference` in clauses.
pub const MOST_DIFFERENCE: u32 = 2_047;

/// 64 quantized DCT coefficients, by natural position: 8 times the row plus the column (ITU-T T.81, A.3.4). The first,
/// the DC coefficient, is within `MOST_DC` of 0, and each other, an AC coefficient, within 1023.
///
/// Clauses see the list of the coefficients.
#[derive(Clone, Copy, Debug, PartialEq, Eq)]
pub struct Block {
    values: [i16; 64],
    // Which of them aren't 0: bit k, from the lowest, is that of zigzag index k.
    mask: u64,
}

impl Model for Block {
    ghost use Rattle.std.specs.Prelude.{List, ℤ, refl};
    ghost use Rattle.coef_block.specs.BlockInside.{IsMasked, inside_of, values_of};

    ghost Value = { List ℤ };

    ghost view = { values_of };

    ghost invariant = { IsMasked };

    ghost inverse = { inside_of };

    ghost inverse_ok = { λ b h. let e = h.mask in Prim.rw e refl };
}

impl Block {
    /// 64 zeros.
    #[tactic(auto, using(crate::proofs::Zeros::zeros_are_a_block))]
    pub fn zero() -> Self
        ensures { result ≡ replicate 64 (pos 0) }
    {
        Block {
            values: [0; 64],
            mask: 0,
        }
    }

    /// A copy by fields: that of the whole would be a call.
    #[inline(always)]
    pub(crate) fn copied(&self) -> Self
        ensures { result ≡ self.now }
    {
        Block {
            values: self.values,
            mask: self.mask,
        }
    }

    /// The coefficient at a natural position, from 0 to 63.
    #[inline(always)]
    pub fn get(&self, position: usize) -> i16
        requires { position < 64 }
        ensures value { slice_get self.now position ≡ Some result }
        ensures coefficient { IsCoefficient position result }
        ensures block { IsBlock self.now }
    {
        self.values[position]
    }

    /// Which coefficients aren't 0: bit k, from the lowest, is 1 exactly if the one at zigzag index k isn't.
    #[inline(always)]
    pub fn nonzeros(&self) -> u64
        ensures { IsMask result self.now }
    {
        self.mask
    }

    /// How many coefficients aren't 0 of those whose zigzag index has a 1 in `indexes`.
    #[inline(always)]
    pub fn nonzeros_among(&self, indexes: u64) -> u8
        ensures { result ≡ nonzeros_among indexes self.now }
    {
        (self.mask & indexes).count_ones() as u8
    }

    /// Puts a coefficient at a natural position, from 0 to 63.
    #[inline(always)]
    pub fn set(&mut self, position: usize, value: i16)
        requires position { position < 64 }
        requires coefficient { IsCoefficient position value }
        ensures { self.new ≡ slice_set self.old position value }
    {
        self.put(zigzag_index(position), position, value);
    }

    /// Puts a coefficient at a zigzag index, from 0 to 63.
    #[inline(always)]
    pub fn set_in_zigzag(&mut self, index: usize, value: i16)
        requires index { index < 64 }
        requires coefficient { IsCoefficient (slice_index zigzag index) value }
        ensures { self.new ≡ slice_set self.old (slice_index zigzag index) value }
    {
        self.put(index, natural_position(index), value);
    }

    /// Puts a coefficient that isn't 0 at a zigzag index, from 0 to 63: cheaper than `set_in_zigzag`.
    #[inline(always)]
    pub fn put_in_zigzag(&mut self, index: usize, value: i16)
        requires index { index < 64 }
        requires coefficient { IsCoefficient (slice_index zigzag index) value }
        requires some { 0 < unsigned_abs value }
        ensures { self.new ≡ slice_set self.old (slice_index zigzag index) value }
    {
        self.values[natural_position(index)] = value;
        self.mask = marked(self.mask, index);
    }

    // Puts a coefficient at a zigzag index and its natural position.
    #[inline(always)]
    fn put(&mut self, index: usize, position: usize, value: i16)
        requires index { index < 64 }
        requires position { position ≡ slice_index zigzag index }
        requires within { position < 64 }
        requires coefficient { IsCoefficient position value }
        ensures { self.new ≡ slice_set self.old position value }
    {
        self.values[position] = value;
        self.mask = masked(self.mask, index, value);
    }
}

// A mask with the bit of a value.
#[inline(always)]
fn masked(mask: u64, index: usize, value: i16) -> u64
    requires { index < 64 }
    ensures here { bit_at result index
        ≡ (if not (unsigned_abs value == 0) then 1 else 0) }
    ensures others { (other : ℕ) → other < 64 → other ≢ index
        → bit_at result other ≡ bit_at mask other }
{
    (mask & !(1 << index)) | (u64::from(value.unsigned_abs() != 0) << index)
}

// A mask with a bit set.
#[inline(always)]
fn marked(mask: u64, index: usize) -> u64
    requires { index < 64 }
    ensures here { bit_at result index ≡ 1 }
    ensures others { (other : ℕ) → other < 64 → other ≢ index
        → bit_at result other ≡ bit_at mask other }
{
    mask | (1 << index)
}
