// Counts, highest bit first.
ghost use Rattle.std.specs.Prelude.{◌≡◌, ◌==◌, ◌%◌, ◌/◌, [], ◌∷◌, ◌+◌, ◌-◌, ◌*◌, ◌^◌, ◌<◌, ◌≤◌, IfOk, OnErr, IfSome, IsTrue};
ghost use Rattle.std.specs.Option.{option_map};
ghost use Rattle.block_spec.specs.BitEvents.{bits_events};
ghost use Rattle.block_spec.specs.Values.{count_events};
ghost use Rattle.coef_context.specs.Runs.{bin_count};

use crate::bits::bit_of;
use adapt_bins::Coder;

// 2 to six bits, and to three.
const SIX_BITS: u32 = 64;

const THREE_BITS: u32 = 8;

// A count that may be given, with a one above its bits.
#[inline(always)]
fn with_top(count: Option<u8>, top: u32) -> Option<u32>
    requires { top ≤ 64 }
    ensures { result ≡ option_map (λ n. top + n) count }
{
    match count {
        Some(count) => Some(top + u32::from(count)),
        None => None,
    }
}

/// Codes a count in six bits with the bins from `base` on.
#[inline(always)]
pub(crate) fn code_six_bits<C: Coder>(
    coder: &mut C,
    base: usize,
    count: Option<u8>,
) -> Result<u8, C::Stop>
    requires base { base + 64 ≤ bin_count }
    requires room { bin_count ≤ C.room coder.old }
    requires count { IsTrue C.given → IfSome count (λ n. n < 64) }
    ensures stopped { OnErr result (C.stopped coder.new) }
    ensures coded { IfOk result
        (λ n. C.codes coder.old (count_events (λ node. base + (node - 1)) 6 n) coder.new) }
    ensures same { IsTrue C.given → IfSome count (λ n. IfOk result (λ r. r ≡ n)) }
    ensures below { IfOk result (λ n. n < 64) }
{
    let wanted = with_top(count, SIX_BITS);
    let high = code_three_more(coder, base, 3, 1, wanted)?;
    let number = code_three_more(coder, base, 0, high, wanted)?;
    Ok((number - SIX_BITS) as u8)
}

/// Codes a count in three bits with the bins from `base` on.
#[inline(always)]
pub(crate) fn code_three_bits<C: Coder>(
    coder: &mut C,
    base: usize,
    count: Option<u8>,
) -> Result<u8, C::Stop>
    requires base { base + 8 ≤ bin_count }
    requires room { bin_count ≤ C.room coder.old }
    requires count { IsTrue C.given → IfSome count (λ n. n < 8) }
    ensures stopped { OnErr result (C.stopped coder.new) }
    ensures coded { IfOk result
        (λ n. C.codes coder.old (count_events (λ node. base + (node - 1)) 3 n) coder.new) }
    ensures same { IsTrue C.given → IfSome count (λ n. IfOk result (λ r. r ≡ n)) }
    ensures below { IfOk result (λ n. n < 8) }
{
    let wanted = with_top(count, THREE_BITS);
    let number = code_three_more(coder, base, 0, 1, wanted)?;
    Ok((number - THREE_BITS) as u8)
}

// Codes the next three bits of a count, of which `bit` is the last, and answers the number that they make with those
// above, as `code_next`.
#[inline(always)]
fn code_three_more<C: Coder>(
    coder: &mut C,
    base: usize,
    bit: u32,
    above: u32,
    wanted: Option<u32>,
) -> Result<u32, C::Stop>
    requires bit { bit ≤ 3 }
    requires some { 1 ≤ above }
    requires base { base + 4 * (above + 1) ≤ bin_count }
    requires room { bin_count ≤ C.room coder.old }
    requires wanted { IsTrue C.given → IfSome wanted (λ n. n / 2 ^ (bit + 3) ≡ above) }
    ensures stopped { OnErr result (C.stopped coder.new) }
    ensures coded { IfOk result (λ n. C.codes coder.old
        (bits_events (λ bit node. base + (node - 1)) 0 3 n) coder.new) }
    ensures above { IfOk result (λ n. n / 8 ≡ above) }
    ensures same { IsTrue C.given → IfSome wanted (λ n. IfOk result (λ r. n / 2 ^ bit ≡ r)) }
{
    let first = code_next(coder, base, bit + 2, above, wanted)?;
    let second = code_next(coder, base, bit + 1, first, wanted)?;
    let third = code_next(coder, base, bit, second, wanted)?;
    Ok(third)
}

// Codes the next bit of a count, and answers the number that it makes with those above. A bit's bin is that of its
// node: the number that a one and the bits above it make, from 1 on.
#[inline(always)]
fn code_next<C: Coder>(
    coder: &mut C,
    base: usize,
    bit: u32,
    above: u32,
    wanted: Option<u32>,
) -> Result<u32, C::Stop>
    requires bit { bit < 31 }
    requires some { 1 ≤ above }
    requires base { base + above ≤ bin_count }
    requires room { bin_count ≤ C.room coder.old }
    requires wanted { IsTrue C.given → IfSome wanted (λ n. n / 2 ^ (bit + 1) ≡ above) }
    ensures stopped { OnErr result (C.stopped coder.new) }
    ensures coded { IfOk result
        (λ n. C.codes coder.old ((base + (above - 1), n % 2 == 1) ∷ []) coder.new) }
    ensures above { IfOk result (λ n. n / 2 ≡ above) }
    ensures same { IsTrue C.given → IfSome wanted (λ n. IfOk result (λ r. n / 2 ^ bit ≡ r)) }
{
    let one = coder.code(base + (above as usize - 1), bit_of(wanted, bit))?;
    Ok(2 * above + u32::from(one))
}
