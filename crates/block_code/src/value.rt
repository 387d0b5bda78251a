// A value: its size in steps, its sign, and its bits below the highest.
ghost use Rattle.std.specs.Prelude.{false, nat_lt, ◌+◌, ◌-◌, ◌^◌, ◌<◌, ◌≤◌, IfOk, None, ◌≡◌, OnErr, IfSome, IsTrue, unsigned_abs, int_lt, pos};
ghost use Rattle.std.specs.Option.{option_map};
ghost use Rattle.coef_context.specs.Runs.{dc_sizes, bin_count};
ghost use Rattle.block_spec.specs.Values.{category_of, rest_events, value_events};
ghost use Rattle.coef_context.specs.BinBases.{AreBases, bins_at};
ghost use Rattle.block_code.specs.ValueSteps.{nonzero_events};

use crate::bits::{BitBins, code_bits, code_size, is_above};
use adapt_bins::Coder;
use coef_block::size;
use coef_context::BinBases;

// The bins of a value's bits below the highest, one a bit.
#[derive(Clone, Copy)]
struct LowBins {
    base: usize,
    count: u8,
}

impl BitBins for LowBins {
    ghost use Rattle.std.specs.Prelude.{◌<◌, ◌≤◌, ◌+◌};
    ghost use Rattle.coef_context.specs.Runs.{bin_count};

    ghost at = { λ bins bit above. bins.base + bit };

    ghost holds = { λ bins bit above. (bins.base + bins.count ≤ bin_count) × (bit < bins.count) };

    #[inline(always)]
    fn bin(&self, bit: u32, _above: u32) -> usize {
        self.base + bit as usize
    }
}

// Whether a value that may be given is below 0.
#[inline(always)]
fn sign_of(value: Option<i32>) -> Option<bool>
    ensures { result ≡ option_map (λ x. int_lt x (pos 0)) value }
{
    match value {
        Some(x) => Some(x < 0),
        None => None,
    }
}

// The magnitude of a value that may be given.
#[inline(always)]
fn magnitude_of(value: Option<i32>) -> Option<u32>
    ensures { result ≡ option_map unsigned_abs value }
{
    match value {
        Some(x) => Some(x.unsigned_abs()),
        None => None,
    }
}

/// How many bits a value that may be given has.
#[inline(always)]
pub(crate) fn size_of(value: Option<i32>) -> Option<u8>
    ensures { result ≡ option_map category_of value }
{
    match value {
        Some(x) => Some(size(x)),
        None => None,
    }
}

// The value with this magnitude, negative or not.
#[inline(always)]
fn signed(negative: bool, magnitude: u32) -> i32
    requires some { 1 ≤ magnitude }
    requires small { magnitude < 2 ^ 31 }
    ensures magnitude { unsigned_abs result ≡ magnitude }
    ensures negative { int_lt result (pos 0) ≡ negative }
{
    let x = magnitude as i32;
    if negative { -x } else { x }
}

/// What the size, from 1 to 16 bits, leaves open of a value: the sign, and the bits below the highest.
#[inline(always)]
pub(crate) fn code_rest<C: Coder>(
    coder: &mut C,
    bases: BinBases,
    size: u8,
    value: Option<i32>,
) -> Result<i32, C::Stop>
    requires bases { AreBases bases }
    requires room { bin_count ≤ C.room coder.old }
    requires some { 1 ≤ size }
    requires small { size ≤ dc_sizes }
    requires value { IsTrue C.given → IfSome value (λ x. (category_of x ≡ size)) }
    ensures stopped { OnErr result (C.stopped coder.new) }
    ensures coded { IfOk result
        (λ x. C.codes coder.old (rest_events (bins_at bases) size x) coder.new) }
    ensures same { IsTrue C.given → IfSome value (λ x. IfOk result (λ y. y ≡ x)) }
    ensures size { IfOk result (λ x. category_of x ≡ size) }
{
    let negative = coder.code(bases.sign(size), sign_of(value))?;
    let bins = LowBins {
        base: bases.low(size),
        count: size - 1,
    };
    let magnitude = code_bits(coder, &bins, u32::from(size) - 1, magnitude_of(value))?;
    Ok(signed(negative, magnitude))
}

/// What is left open of a value of one bit: the sign.
#[inline(always)]
pub(crate) fn code_sign<C: Coder>(
    coder: &mut C,
    bases: BinBases,
    value: Option<i32>,
) -> Result<i32, C::Stop>
    requires bases { AreBases bases }
    requires room { bin_count ≤ C.room coder.old }
    requires value { IsTrue C.given → IfSome value (λ x. (category_of x ≡ 1)) }
    ensures stopped { OnErr result (C.stopped coder.new) }
    ensures coded { IfOk result
        (λ x. C.codes coder.old (rest_events (bins_at bases) 1 x) coder.new) }
    ensures same { IsTrue C.given → IfSome value (λ x. IfOk result (λ y. y ≡ x)) }
    ensures size { IfOk result (λ x. category_of x ≡ 1) }
{
    let negative = coder.code(bases.sign(1), sign_of(value))?;
    Ok(signed(negative, 1))
}

/// Codes whether a value isn't 0, where `first` is 0; where it is 1, that is known.
#[inline(always)]
pub(crate) fn code_nonzero<C: Coder>(
    coder: &mut C,
    bases: BinBases,
    first: u8,
    size: Option<u8>,
) -> Result<bool, C::Stop>
    requires bases { AreBases bases }
    requires room { bin_count ≤ C.room coder.old }
    requires first { first ≤ 1 }
    requires size { IsTrue C.given → IfSome size (λ s. first ≤ s) }
    ensures stopped { OnErr result (C.stopped coder.new) }
    ensures coded { IfOk result
        (λ some. C.codes coder.old (nonzero_events (bins_at bases) first some) coder.new) }
    ensures zero { IfOk result (λ some. some ≡ false → first ≡ 0) }
    ensures same { IsTrue C.given → IfSome size (λ s. IfOk result (λ some. some ≡ nat_lt 0 s)) }
{
    if first != 0 {
        return Ok(true);
    }
    let some = coder.code_branching(bases.step(0), is_above(size, 0))?;
    Ok(some)
}

/// Codes a value of `first` to `steps` bits.
#[inline(always)]
pub(crate) fn code_value<C: Coder>(
    coder: &mut C,
    bases: BinBases,
    first: u8,
    steps: u8,
    value: Option<i32>,
) -> Result<i32, C::Stop>
    requires bases { AreBases bases }
    requires room { bin_count ≤ C.room coder.old }
    requires first { first ≤ steps }
    requires steps { steps ≤ dc_sizes }
    requires value { IsTrue C.given
        → IfSome value (λ x. (first ≤ category_of x) × (category_of x ≤ steps)) }
    ensures stopped { OnErr result (C.stopped coder.new) }
    ensures coded { IfOk result
        (λ x. C.codes coder.old (value_events (bins_at bases) first steps x) coder.new) }
    ensures same { IsTrue C.given → IfSome value (λ x. IfOk result (λ y. y ≡ x)) }
    ensures within { IfOk result (λ x. (first ≤ category_of x) × (category_of x ≤ steps)) }
{
    let size = code_size(coder, bases, first, steps, size_of(value))?;
    if size == 0 {
        return Ok(0);
    }
    let x = code_rest(coder, bases, size, value)?;
    Ok(x)
}
