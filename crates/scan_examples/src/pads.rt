// Pad bits, and what was padded.
ghost use Rattle.std.specs.Prelude.{◌≡◌, ◌+◌, ◌^◌, ◌<◌};
ghost use Rattle.scan_spec.specs.Pads.{interval_count, is_long_for, pads_given};
ghost use Rattle.scan_spec.specs.Slots.{shape_of};

use handover::PadSum;
use jpeg_marker::Plan;
use scan_spec::Pads;

// No bit was padded, bits of 0, bits of 1, or both; and an interval that pads none has a 0 in the list.
pub(crate) const NO_BIT: PadSum = PadSum {
    zero: false,
    one: false,
    vain: false,
};

pub(crate) const ZERO: PadSum = PadSum {
    zero: true,
    one: false,
    vain: false,
};

pub(crate) const ONE: PadSum = PadSum {
    zero: false,
    one: true,
    vain: false,
};

pub(crate) const BOTH: PadSum = PadSum {
    zero: true,
    one: true,
    vain: false,
};

pub(crate) const IN_VAIN: PadSum = PadSum {
    zero: false,
    one: false,
    vain: true,
};

pub(crate) const ZERO_IN_VAIN: PadSum = PadSum {
    zero: true,
    one: false,
    vain: true,
};

// Whether a scan can be padded with these: a list has a bit for each interval.
pub(crate) fn are_for(plan: &Plan, pads: &Pads) -> bool
    ensures { result ≡ is_long_for (shape_of plan.now) (pads_given pads.now) }
{
    match *pads {
        Pads::All(_) => true,
        Pads::Each(list) => list.len() == (interval_count(plan) + 7) / 8,
    }
}

// How many restart intervals there are.
fn interval_count(plan: &Plan) -> usize
    ensures value { result ≡ interval_count (shape_of plan.now) }
    ensures few { result < 2 ^ 32 + 1 }
{
    let last = plan.mcus() - 1;
    let interval = u32::from(plan.interval());
    if interval == 0 {
        1
    } else {
        (last / interval) as usize + 1
    }
}
