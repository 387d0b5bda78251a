// Whether a version can say a pad byte and a pad list.
ghost use Rattle.std.specs.Prelude.{◌≡◌, ◌+◌, ◌*◌, ◌^◌, ◌≤◌, ◌<◌, ◌&&◌, ◌==◌, true, drop, get_or, length, not};
ghost use Rattle.std.specs.List.{list_all};
ghost use Rattle.bit_list.specs.Bits.{bits_of};
ghost use Rattle.scan_spec.specs.Pads.{interval_count};
ghost use Rattle.scan_spec.specs.Slots.{shape_of};
ghost use Rattle.box_format.specs.Checks.{is_bad_pad};
ghost use Rattle.box_format.specs.Parts.{is_list};

use jpeg_marker::Plan;

/// Whether a version that has lists, or none, can't say a pad byte with this list.
pub(crate) fn is_bad_pad(listed: bool, plan: &Plan, pad: u8, list: &[u8]) -> bool
    ensures { result ≡ is_bad_pad listed (shape_of plan.now) pad list.now }
{
    if listed && pad == 2 {
        !is_list(plan, list)
    } else {
        pad > 1 || !list.is_empty()
    }
}

// Whether a list has a bit for each restart interval, and bits of 0 after them.
fn is_list(plan: &Plan, list: &[u8]) -> bool
    ensures { result ≡ is_list (shape_of plan.now) list.now }
{
    let count = interval_count(plan);
    list.len() == (count + 7) / 8 && ends_clean(list, count)
}

// How many restart intervals there are.
fn interval_count(plan: &Plan) -> usize
    ensures value { result ≡ interval_count (shape_of plan.now) }
    ensures few { result < 2 ^ 32 + 1 }
{
    let last = plan.mcus() - 1;
    let interval = u32::from(plan.interval());
    if interval == 0 {
        1
    } else {
        (last / interval) as usize + 1
    }
}

// Whether the bits of a list after the first `count` are 0.
fn ends_clean(list: &[u8], count: usize) -> bool
    requires few { length list.now < 2 ^ 32 }
    requires within { count ≤ 8 * length list.now }
    ensures { result ≡ list_all (λ bit. not bit) (drop count (bits_of list.now)) }
{
    for i in count..8 * list.len() {
        if bit_in(list, i) {
            return false;
        }
    }
    true
}

// The bit of bytes with a number, the highest bit of a byte first.
fn bit_in(bytes: &[u8], number: usize) -> bool
    requires { number < 8 * length bytes.now }
    ensures { result ≡ get_or (bits_of bytes.now) number true }
{
    (bytes[number / 8] >> (7 - number % 8)) & 1 == 1
}
