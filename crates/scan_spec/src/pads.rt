// What the intervals of a scan are padded with.
ghost use Rattle.std.specs.Prelude.{◌≡◌, ◌*◌, ◌<◌, length, get_or, true};
ghost use Rattle.bit_list.specs.Bits.{bits_of};
ghost use Rattle.scan_spec.specs.Pads.{pads_given, bit_for, HasBit, interval_sum, told_by, is_spelled, is_listed};

use handover::PadSum;

/// The bits that fill up the last byte of each restart interval (ITU-T T.81, F.1.2.3, where they are ones). Clauses see
/// `PadBits`, by `pads_given`.
#[derive(Clone, Copy, Debug)]
pub enum Pads<'a> {
    /// One bit for all intervals.
    All(bool),
    /// The pad list: a bit for each interval, the highest bit of a byte first.
    Each(&'a [u8]),
}

impl<'a> Pads<'a> {
    /// The bit of an interval, by its number from 0.
    pub fn bit(&self, interval: u32) -> bool
        requires { HasBit (pads_given self.now) interval }
        ensures { result ≡ bit_for (pads_given self.now) interval }
    {
        match *self {
            Pads::All(bit) => bit,
            Pads::Each(list) => bit_in(list, interval),
        }
    }

    /// What this interval adds to the `PadSum`: its pad bit, or, if it has no pad bits (`none`), whether its bit is a
    /// needless 0.
    pub fn sum(&self, interval: u32, none: bool) -> PadSum
        requires { HasBit (pads_given self.now) interval }
        ensures { result ≡ interval_sum (pads_given self.now) interval none }
    {
        let bit = self.bit(interval);
        if none {
            return PadSum {
                zero: false,
                one: false,
                vain: self.is_listed() && !bit,
            };
        }
        PadSum {
            zero: !bit,
            one: bit,
            vain: false,
        }
    }

    /// How a container says the pad bits of a file whose intervals come to `sum`, given the list of them.
    pub fn told(list: &'a [u8], sum: &PadSum) -> Pads<'a>
        ensures { pads_given result ≡ told_by list.now sum.now }
    {
        if sum.zero && sum.one {
            Pads::Each(list)
        } else {
            Pads::All(!sum.zero)
        }
    }

    /// Whether these say the pad bits of a file whose intervals come to `sum` as `encode` does.
    pub fn is_spelled(&self, sum: &PadSum) -> bool
        ensures { result ≡ is_spelled (pads_given self.now) sum.now }
    {
        match *self {
            Pads::All(true) => true,
            Pads::All(false) => sum.zero,
            Pads::Each(_) => sum.zero && sum.one && !sum.vain,
        }
    }

    // Whether each interval has a bit of its own.
    fn is_listed(&self) -> bool
        ensures { result ≡ is_listed (pads_given self.now) }
    {
        match *self {
            Pads::All(_) => false,
            Pads::Each(_) => true,
        }
    }
}

// The bit of bytes with a number, the highest bit of a byte first.
fn bit_in(bytes: &[u8], number: u32) -> bool
    requires { number < 8 * length bytes.now }
    ensures { result ≡ get_or (bits_of bytes.now) number true }
{
    let byte = bytes[(number / 8) as usize];
    (byte >> (7 - number % 8)) & 1 == 1
}
