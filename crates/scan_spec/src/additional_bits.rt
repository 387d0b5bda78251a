// The additional bits of differences and coefficients, as numbers (ITU-T T.81, F.1.2.1, F.2.2.1).
ghost use Rattle.std.specs.Prelude.{◌≡◌, ◌-◌, ◌^◌, ◌<◌, ◌≤◌, unsigned_abs};
ghost use Rattle.bit_list.specs.Bits.{low_bits};
ghost use Rattle.coef_block.specs.Block.{most_difference};
ghost use Rattle.coef_block.specs.Categories.{category};
ghost use Rattle.scan_spec.specs.ValueBits.{mag, extend};

/// The number that the additional bits of a value spell: the value itself, or if it is negative all ones less its
/// magnitude (F.1.2.1). `size` is the value's category, 11 at most.
#[inline(always)]
pub fn value_bits(value: i32, size: u8) -> u16
    requires small { unsigned_abs value ≤ most_difference }
    requires size { size ≡ category (unsigned_abs value) }
    ensures bits { mag value ≡ low_bits size result }
    ensures below { result < 2 ^ size }
    ensures few { size ≤ 11 }
{
    if value >= 0 {
        value.unsigned_abs() as u16
    } else {
        ((1 << size) - 1 - value.unsigned_abs()) as u16
    }
}

/// The value of a category's additional bits: EXTEND (Figure F.12).
#[inline(always)]
pub fn extend(bits: u16, size: u8) -> i32
    requires few { size ≤ 11 }
    requires below { bits < 2 ^ size }
    ensures value { result ≡ extend (low_bits size bits) }
    ensures small { unsigned_abs result < 2 ^ size }
{
    if size == 0 {
        return 0;
    }
    i32::from(bits) - i32::from(less(bits, size))
}

// How much less than its bits spell a value is: all ones where the first bit is a zero, and else nothing. It takes no
// branch, since that bit can't be predicted.
#[inline(always)]
fn less(bits: u16, size: u8) -> u16
    requires some { 0 < size }
    requires few { size ≤ 11 }
    requires below { bits < 2 ^ size }
    ensures low { bits < 2 ^ (size - 1) → result ≡ 2 ^ size - 1 }
    ensures high { 2 ^ (size - 1) ≤ bits → result ≡ 0 }
{
    (1 - (bits >> (size - 1))) * ((1 << size) - 1)
}
