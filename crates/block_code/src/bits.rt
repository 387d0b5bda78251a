// The bits of a number, and the steps of a size, one after another.
ghost use Rattle.std.specs.Prelude.{◌≡◌, ◌%◌, ◌==◌, nat_lt, ℕ, ◌-◌, ◌/◌, ◌+◌, ◌*◌, ◌^◌, ◌<◌, ◌≤◌, IfOk, OnErr, IfSome, IsTrue};
ghost use Rattle.std.specs.Option.{option_map};
ghost use Rattle.coef_context.specs.Runs.{dc_sizes, bin_count};
ghost use Rattle.block_spec.specs.Values.{step_events};
ghost use Rattle.block_spec.specs.BitEvents.{bits_events};
ghost use Rattle.coef_context.specs.BinBases.{AreBases, bins_at};

use adapt_bins::Coder;
use coef_context::BinBases;

/// The bin of each bit of a number, by the bit's index, 0 for the lowest, and by the number that the bits above make.
pub(crate) trait BitBins {
    /// The bin of a bit.
    ghost at: { Self → ℕ → ℕ → ℕ };

    /// The bit has a bin.
    ghost holds: { Self → ℕ → ℕ → Type 0 };

    /// The bin of a bit.
    fn bin(&self, bit: u32, above: u32) -> usize
        requires { holds self.now bit above }
        ensures value { result ≡ at self.now bit above }
        ensures below { result < bin_count };
}

/// The bit with this index of a number that may be given.
#[inline(always)]
pub(crate) fn bit_of(number: Option<u32>, bit: u32) -> Option<bool>
    requires { bit < 32 }
    ensures { result ≡ option_map (λ n. n / 2 ^ bit % 2 == 1) number }
{
    match number {
        Some(number) => Some((number >> bit) % 2 == 1),
        None => None,
    }
}

/// Whether a size that may be given is above a step.
#[inline(always)]
pub(crate) fn is_above(size: Option<u8>, step: u8) -> Option<bool>
    ensures { result ≡ option_map (λ s. nat_lt step s) size }
{
    match size {
        Some(size) => Some(step < size),
        None => None,
    }
}

/// Codes the `bits` low bits of a number, highest first; the bit above them is its highest, and is not coded.
#[inline(always)]
pub(crate) fn code_bits<C: Coder, B: BitBins>(
    coder: &mut C,
    bins: &B,
    bits: u32,
    number: Option<u32>,
) -> Result<u32, C::Stop>
    requires bins { (bit above : ℕ) → bit < bits → 1 ≤ above → above < 2 ^ (bits - bit)
        → B.holds bins.now bit above }
    requires room { bin_count ≤ C.room coder.old }
    requires bits { bits < 31 }
    requires number { IsTrue C.given → IfSome number (λ n. n / 2 ^ bits ≡ 1) }
    ensures stopped { OnErr result (C.stopped coder.new) }
    ensures coded { IfOk result
        (λ n. C.codes coder.old (bits_events (B.at bins.now) 0 bits n) coder.new) }
    ensures same { IsTrue C.given → IfSome number (λ n. IfOk result (λ r. r ≡ n)) }
    ensures within { IfOk result (λ n. (2 ^ bits ≤ n) × (n < 2 ^ (bits + 1))) }
{
    let mut above: u32 = 1;
    for bit in (0..bits).rev() {
        let one = coder.code(bins.bin(bit, above), bit_of(number, bit))?;
        above = 2 * above + u32::from(one);
    }
    Ok(above)
}

/// Codes how many bits a value has, from `first` to `steps`: a one for each step below it, and a zero at its own.
#[inline(always)]
pub(crate) fn code_size<C: Coder>(
    coder: &mut C,
    bases: BinBases,
    first: u8,
    steps: u8,
    size: Option<u8>,
) -> Result<u8, C::Stop>
    requires bases { AreBases bases }
    requires room { bin_count ≤ C.room coder.old }
    requires first { first ≤ steps }
    requires steps { steps ≤ dc_sizes }
    requires size { IsTrue C.given → IfSome size (λ s. (first ≤ s) × (s ≤ steps)) }
    ensures stopped { OnErr result (C.stopped coder.new) }
    ensures coded { IfOk result
        (λ s. C.codes coder.old (step_events (bins_at bases).step first steps s) coder.new) }
    ensures same { IsTrue C.given → IfSome size (λ n. IfOk result (λ r. r ≡ n)) }
    ensures within { IfOk result (λ s. (first ≤ s) × (s ≤ steps)) }
{
    let mut step = first;
    while step < steps {
        if !coder.code_branching(bases.step(step), is_above(size, step))? {
            return Ok(step);
        }
        step += 1;
    }
    Ok(step)
}
