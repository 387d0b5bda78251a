// What restart intervals were padded with.
ghost use Rattle.std.specs.Prelude.{◌≡◌};
ghost use Rattle.handover.specs.PadSums.{no_pads, pads_with};

/// What some restart intervals were padded with: whether a bit of 0, whether a bit of 1, and whether an interval that
/// pads no bit had a 0 in the list of pad bits, which is in vain.
#[derive(Clone, Copy, Debug, PartialEq, Eq)]
pub struct PadSum {
    pub zero: bool,
    pub one: bool,
    pub vain: bool,
}

impl PadSum {
    /// Of no interval.
    pub fn none() -> PadSum
        ensures { result ≡ no_pads }
    {
        PadSum {
            zero: false,
            one: false,
            vain: false,
        }
    }

    /// Of these intervals and others.
    pub fn with(&self, other: &PadSum) -> PadSum
        ensures { result ≡ pads_with self.now other.now }
    {
        PadSum {
            zero: self.zero || other.zero,
            one: self.one || other.one,
            vain: self.vain || other.vain,
        }
    }
}
