// The bin of a context as a plain program: the rows of the table in docs/FORMAT.md, Bins, with the numbers that it has.
ghost use Rattle.std.specs.Prelude.{◌≡◌, ◌+◌, ◌<◌};
ghost use Rattle.coef_context.specs.BinNumbers.{AreDigits, IsContext, bin_number, low_radices, low_start, sign_radices, sign_start, value_digits, written};
ghost use Rattle.coef_context.specs.Runs.{bin_count};

use coef_context::{Context, Kind, low_bit};

/// The bin of a context. The class is 0 for the frame's first component and 1 for the others.
pub(crate) fn bin(class: u8, context: Context) -> usize
    requires class { class < 2 }
    requires context { IsContext context }
    ensures number { result ≡ bin_number class context }
    ensures below { result < bin_count }
{
    let class = usize::from(class);
    match context {
        Context::InnerCount { size, node } => {
            (class * 7 + usize::from(size)) * 63 + (usize::from(node) - 1)
        }
        Context::InnerStep {
            place,
            weight,
            left,
            step,
        } => {
            let value = (class * 49 + usize::from(place)) * 11 + usize::from(weight);
            882 + (value * 6 + (usize::from(left) - 1)) * 10 + usize::from(step)
        }
        Context::EdgeCount { column, size, node } => {
            let count = (class * 2 + usize::from(column)) * 7 + usize::from(size);
            65_562 + count * 7 + (usize::from(node) - 1)
        }
        Context::EdgeStep {
            column,
            place,
            weight,
            left,
            step,
        } => {
            let edge = (class * 2 + usize::from(column)) * 7 + usize::from(place);
            let value = edge * 11 + usize::from(weight);
            65_758 + (value * 3 + (usize::from(left) - 1)) * 10 + usize::from(step)
        }
        Context::DcStep { spread, step } => {
            74_998 + (class * 17 + usize::from(spread)) * 16 + usize::from(step)
        }
        Context::Sign { kind, place, size } => {
            sign(class, kind, usize::from(place), usize::from(size) - 1)
        }
        Context::Low {
            kind,
            place,
            size,
            bit,
        } => {
            let index = low_bit(usize::from(size), usize::from(bit));
            low(class, kind, usize::from(place), index)
        }
    }
}

// The bin of a sign; `last` is the size less one.
fn sign(class: usize, kind: Kind, place: usize, last: usize) -> usize
    requires class { class < 2 }
    requires digits { AreDigits (sign_radices kind) (value_digits kind place last) }
    ensures number { result
        ≡ sign_start kind + written class (sign_radices kind) (value_digits kind place last) }
    ensures below { result < bin_count }
{
    match kind {
        Kind::Inner => 75_542 + (class * 49 + place) * 10 + last,
        Kind::Row => 80_932 + (class * 2 * 7 + place) * 10 + last,
        Kind::Column => 80_932 + ((class * 2 + 1) * 7 + place) * 10 + last,
        Kind::Dc => 82_472 + class * 16 + last,
    }
}

// The bin of a lower bit; `last` is its index among those of all sizes.
fn low(class: usize, kind: Kind, place: usize, last: usize) -> usize
    requires class { class < 2 }
    requires digits { AreDigits (low_radices kind) (value_digits kind place last) }
    ensures number { result
        ≡ low_start kind + written class (low_radices kind) (value_digits kind place last) }
    ensures below { result < bin_count }
{
    match kind {
        Kind::Inner => 76_522 + (class * 49 + place) * 45 + last,
        Kind::Row => 81_212 + (class * 2 * 7 + place) * 45 + last,
        Kind::Column => 81_212 + ((class * 2 + 1) * 7 + place) * 45 + last,
        Kind::Dc => 82_504 + class * 120 + last,
    }
}
