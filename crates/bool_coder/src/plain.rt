// The definition as a plain program: the bottom is one number of 128 bits.
ghost use Rattle.std.specs.Prelude.{◌≡◌, ◌<◌, ◌≤◌, IfOk};
ghost use Rattle.std.specs.List.{AllByRecursion};
ghost use Rattle.bool_coder.specs.BoolStream.{IsBool, IsOnLine, after, coded, stream, widened};
ghost use Rattle.bool_coder.specs.PlainLine.{IsKept, interval};

use std::alloc::{AllocError, Global};

/// The stream of a list of bools, each with its prob from 1 to 255, made slowly: for tests to compare with. The list
/// is short, so that it shifts no more than 112 times. The one error is out of memory.
pub fn plain_stream(alloc: Global, bools: &[(u8, bool)]) -> Result<Vec<u8>, AllocError>
    requires probs { AllByRecursion IsBool bools.now }
    requires short { (coded bools.now).shifts ≤ 112 }
    ensures { IfOk result (λ bytes. bytes.items ≡ stream (coded bools.now)) }
{
    let mut line = Line {
        bottom: 0,
        range: 255,
        shifts: 0,
    };
    for (prob, bit) in bools {
        line = one_more(line, *prob, *bit);
    }
    bytes_of(alloc, line)
}

// What is left of the line.
#[derive(Clone, Copy)]
struct Line {
    bottom: u128,
    range: u32,
    shifts: u32,
}

// What one bool leaves.
fn one_more(line: Line, prob: u8, bit: bool) -> Line
    requires kept { IsKept (interval line) }
    requires short { line.shifts ≤ 112 }
    ensures { interval result ≡ after (interval line) (prob, bit) }
{
    let split = 1 + (line.range - 1) * u32::from(prob) / 256;
    if bit {
        widen(
            line.bottom + u128::from(split),
            line.range - split,
            line.shifts,
        )
    } else {
        widen(line.bottom, split, line.shifts)
    }
}

// Doubled until the range is at least 128.
fn widen(mut bottom: u128, mut range: u32, mut shifts: u32) -> Line
    requires some { 0 < range }
    requires byte { range ≤ 255 }
    requires short { shifts ≤ 112 }
    requires on_line { IsOnLine (record { bottom = bottom; range = range; shifts = shifts }) }
    ensures { interval result
        ≡ widened 7 (record { bottom = bottom; range = range; shifts = shifts }) }
{
    while range < 128 {
        bottom *= 2;
        range *= 2;
        shifts += 1;
    }
    Line {
        bottom,
        range,
        shifts,
    }
}

// The bottom in whole bytes.
fn bytes_of(alloc: Global, line: Line) -> Result<Vec<u8>, AllocError>
    requires kept { IsKept (interval line) }
    requires short { line.shifts ≤ 112 }
    ensures { IfOk result (λ bytes. bytes.items ≡ stream (interval line)) }
{
    let count = 1 + line.shifts.div_ceil(8);
    let number = line.bottom << (8 * count - (8 + line.shifts));
    Vec::from_slice(alloc, &number.to_be_bytes()[16 - count as usize..])
}
