// How many MCUs and blocks a scan has (ITU-T T.81, A.1.1, A.2).
ghost use Rattle.std.specs.Prelude.{◌≡◌, ◌≤◌, ◌*◌, length};
ghost use Rattle.std.specs.List.{AllByRecursion};
ghost use Rattle.jpeg_marker.specs.Frames.{IsFrame};
ghost use Rattle.jpeg_marker.specs.Plans.{IsWithin, largest, sampled, cover, across_of, down_of, blocks_in_mcu};

use crate::frame::{Frame, blocks_in};
use crate::parameters::FrameComponent;

/// MCUs in a row of a scan of these components.
pub(crate) fn across(frame: &Frame, scan: &[FrameComponent]) -> u32
    requires frame { IsFrame frame.now }
    requires within { AllByRecursion (IsWithin frame.now.parts) scan.now }
    ensures value { result ≡ across_of frame.now scan.now }
    ensures few { result ≤ 8192 }
    ensures some { 1 ≤ result }
{
    let most = largest_h(frame.parts());
    if scan.len() == 1 {
        cover(sampled(frame.width(), scan[0].h, most), 1)
    } else {
        cover(frame.width(), most)
    }
}

/// Rows of MCUs of a scan of these components.
pub(crate) fn down(frame: &Frame, scan: &[FrameComponent]) -> u32
    requires frame { IsFrame frame.now }
    requires within { AllByRecursion (IsWithin frame.now.parts) scan.now }
    ensures value { result ≡ down_of frame.now scan.now }
    ensures few { result ≤ 8192 }
    ensures some { 1 ≤ result }
{
    let most = largest_v(frame.parts());
    if scan.len() == 1 {
        cover(sampled(frame.height(), scan[0].v, most), 1)
    } else {
        cover(frame.height(), most)
    }
}

/// Blocks in an MCU of these components.
pub(crate) fn blocks_in_mcu(scan: &[FrameComponent]) -> u32
    requires few { length scan.now ≤ 4 }
    requires fit { blocks_in_mcu scan.now ≤ 10 }
    ensures value { result ≡ blocks_in_mcu scan.now }
    ensures few { result ≤ 10 }
{
    if scan.len() == 1 { 1 } else { blocks_in(scan) }
}

// Samples of a component in a line or column of this many samples of the picture, if its sampling factor is `factor`
// and the largest one is `most`.
fn sampled(samples: u16, factor: u8, most: u8) -> u16
    requires some { 1 ≤ samples }
    requires factor { 1 ≤ factor }
    requires most { factor ≤ most }
    ensures value { result ≡ sampled samples factor most }
    ensures some { 1 ≤ result }
{
    let most = u32::from(most);
    ((u32::from(samples) * u32::from(factor) + (most - 1)) / most) as u16
}

// MCUs that cover these samples, each as wide, or as high, as that many blocks of eight samples.
fn cover(samples: u16, blocks: u8) -> u32
    requires blocks { 1 ≤ blocks }
    requires samples { 1 ≤ samples }
    ensures value { result ≡ cover samples blocks }
    ensures few { result ≤ 8192 }
    ensures some { 1 ≤ result }
{
    let size = 8 * u32::from(blocks);
    (u32::from(samples) + (size - 1)) / size
}

// The largest horizontal sampling factor.
fn largest_h(parts: &[FrameComponent]) -> u8
    ensures value { result ≡ largest (λ p. p.h) parts.now }
    ensures positive { 1 ≤ result }
{
    let mut most = 1;
    for part in parts {
        most = most.max(part.h);
    }
    most
}

// The largest vertical sampling factor.
fn largest_v(parts: &[FrameComponent]) -> u8
    ensures value { result ≡ largest (λ p. p.v) parts.now }
    ensures positive { 1 ≤ result }
{
    let mut most = 1;
    for part in parts {
        most = most.max(part.v);
    }
    most
}
