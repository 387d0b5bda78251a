// The predicted DC of a block.
ghost use Rattle.std.specs.Prelude.{◌≡◌, ◌↔◌, ◌<◌, ◌≤◌, ◌^◌, ◌+ℤ◌, ◌-ℤ◌, ◌≤ℤ◌, IfSome, IsSome, unsigned_abs};
ghost use Rattle.std.specs.Int.{int_max, int_min};
ghost use Rattle.coef_block.specs.Block.{IsDc};
ghost use Rattle.dc_predict.specs.DcPrediction.{gradient, greatest, least, predicted, spread_of};

use coef_block::size;

/// The predicted DC of a block, from the DCs of its neighbours above, left and diagonal (above and left), each within
/// 32767 of 0. The diagonal one is there exactly if both others are. The result is within 32767 of 0, and 0 with no
/// neighbour.
#[inline]
pub fn predict(above: Option<i16>, left: Option<i16>, diagonal: Option<i16>) -> i32
    requires above { IfSome above IsDc }
    requires left { IfSome left IsDc }
    requires diagonal { IfSome diagonal IsDc }
    requires corner { IsSome diagonal ↔ (IsSome above × IsSome left) }
    ensures value { result ≡ predicted above left diagonal }
    ensures within { IsDc result }
{
    match (above, left, diagonal) {
        (Some(above), Some(left), Some(diagonal)) => {
            gradient(i32::from(above), i32::from(left), i32::from(diagonal))
        }
        (Some(above), None, _) => i32::from(above),
        (None, Some(left), _) => i32::from(left),
        _ => 0,
    }
}

/// How far the DCs above and left differ: the category of their difference, from 0 to 16, and 0 if one of them isn't
/// there. Both are within 32767 of 0.
#[inline]
pub fn spread(above: Option<i16>, left: Option<i16>) -> u8
    requires above { IfSome above IsDc }
    requires left { IfSome left IsDc }
    ensures value { result ≡ spread_of above left }
    ensures few { result ≤ 16 }
{
    match (above, left) {
        (Some(above), Some(left)) => size(difference(above, left)),
        _ => 0,
    }
}

// The predicted DC if all three are there.
#[inline]
fn gradient(above: i32, left: i32, diagonal: i32) -> i32
    requires above { IsDc above }
    requires left { IsDc left }
    requires diagonal { IsDc diagonal }
    ensures value { result ≡ gradient above left diagonal }
    ensures within { IsDc result }
{
    let (least, greatest) = in_order(above, left);
    clamped(plane(above, left, diagonal), least, greatest)
}

// The number between two bounds that is nearest to another.
#[inline]
fn clamped(x: i32, least: i32, greatest: i32) -> i32
    ensures value { result ≡ int_min (int_max least x) greatest }
    ensures within { IsDc least → IsDc greatest → least ≤ℤ greatest → IsDc result }
{
    let high = if x < least { least } else { x };
    if high > greatest { greatest } else { high }
}

// The lesser and the greater of two.
#[inline]
fn in_order(a: i32, b: i32) -> (i32, i32)
    ensures least { result.0 ≡ least a b }
    ensures greatest { result.1 ≡ greatest a b }
    ensures order { result.0 ≤ℤ result.1 }
    ensures within { IsDc a → IsDc b → IsDc result.0 × IsDc result.1 }
{
    if a <= b { (a, b) } else { (b, a) }
}

// The plane through the three.
#[inline]
fn plane(above: i32, left: i32, diagonal: i32) -> i32
    requires above { IsDc above }
    requires left { IsDc left }
    requires diagonal { IsDc diagonal }
    ensures value { result ≡ above +ℤ left -ℤ diagonal }
{
    above + left - diagonal
}

// The difference of the DCs above and left.
#[inline]
fn difference(above: i16, left: i16) -> i32
    requires above { IsDc above }
    requires left { IsDc left }
    ensures value { result ≡ above -ℤ left }
    ensures small { unsigned_abs result < 2 ^ 16 }
{
    i32::from(above) - i32::from(left)
}
