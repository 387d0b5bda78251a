// Bits unit by unit.
ghost use Rattle.std.specs.Prelude.{◌≡◌, ◌+◌, ◌^◌, ◌<◌, ◌≤◌, Ok, Err, ◌++◌, IfOk, IfErr};
ghost use Rattle.bit_list.specs.Bits.{low_bits};
ghost use Rattle.bit_list.specs.Units.{unit_at, filled, bits_at};
ghost use Rattle.bit_list.specs.BitsInside.{cursor_of, IsWindow};

use crate::fault::BitFault;

/// The bits that are left of a unit, and the places of the units.
#[derive(Clone, Copy, PartialEq)]
pub(crate) struct Window {
    // The bits as a number.
    pub(crate) number: u8,
    // How many they are.
    pub(crate) count: u8,
    // How many bits of the next unit are left out.
    pub(crate) skip: u8,
    // The place of the unit of the last bit.
    pub(crate) last: usize,
    // The place of the next unit.
    pub(crate) next: usize,
}

/// The unit at a place, and the place after it.
#[inline(always)]
pub(crate) fn unit(bytes: &[u8], place: usize) -> Result<(u8, usize), BitFault>
    ensures { result ≡ unit_at bytes.now place }
{
    if place >= bytes.len() {
        return Err(BitFault::Cut { place: bytes.len() });
    }
    let byte = bytes[place];
    if byte != 0xff {
        return Ok((byte, place + 1));
    }
    if place + 1 == bytes.len() {
        return Err(BitFault::Cut { place: bytes.len() });
    }
    if bytes[place + 1] != 0 {
        return Err(BitFault::MarkerInScan { place });
    }
    Ok((0xff, place + 2))
}

/// A window with bits left.
#[inline(always)]
pub(crate) fn fill(bytes: &[u8], at: Window) -> Result<Window, BitFault>
    requires { IsWindow at }
    ensures ok { IfOk result (λ w. filled bytes.now (cursor_of at) ≡ Ok (cursor_of w)) }
    ensures kept { IfOk result (λ w. IsWindow w) }
    ensures some { IfOk result (λ w. 0 < w.count) }
    ensures err { IfErr result (λ e. filled bytes.now (cursor_of at) ≡ Err e) }
{
    if at.count > 0 {
        return Ok(at);
    }
    let (number, next) = unit(bytes, at.next)?;
    let count = 8 - at.skip;
    Ok(Window {
        number: (u16::from(number) & ((1 << count) - 1)) as u8,
        count,
        skip: 0,
        last: at.next,
        next,
    })
}

/// The next bits as a number, and the window after them.
pub(crate) fn first_bits(bytes: &[u8], begin: Window, n: u8) -> Result<(u16, Window), BitFault>
    requires window { IsWindow begin }
    requires few { n ≤ 16 }
    requires short { begin.count ≤ 7 }
    ensures below { IfOk result (λ r. r.0 < 2 ^ n) }
    ensures short { IfOk result (λ r. r.1.count ≤ 7) }
    ensures bits { IfOk result
        (λ r. bits_at n bytes.now (cursor_of begin) ≡ Ok (low_bits n r.0, cursor_of r.1)) }
    ensures kept { IfOk result (λ r. IsWindow r.1) }
    ensures err { IfErr result (λ e. bits_at n bytes.now (cursor_of begin) ≡ Err e) }
{
    let mut at = begin;
    let mut number = 0u32;
    let mut wanted = n;
    while wanted > 0 {
        let filled = fill(bytes, at)?;
        let count = wanted.min(filled.count);
        let (first, rest) = split(filled, count);
        number = (number << count) + u32::from(first);
        at = rest;
        wanted -= count;
    }
    Ok((number as u16, at))
}

/// The first bits of a window as a number, and the window after them.
#[inline(always)]
pub(crate) fn split(at: Window, count: u8) -> (u8, Window)
    requires window { IsWindow at }
    requires some { 0 < count }
    requires within { count ≤ at.count }
    ensures below { result.0 < 2 ^ count }
    ensures bits { low_bits at.count at.number
        ≡ low_bits count result.0 ++ low_bits result.1.count result.1.number }
    ensures rest { cursor_of result.1
        ≡ record (cursor_of at) { left = low_bits result.1.count result.1.number } }
    ensures fewer { result.1.count + count ≡ at.count }
    ensures kept { IsWindow result.1 }
{
    let left = at.count - count;
    let prefix = at.number >> left;
    let rest = Window {
        number: at.number & ((1 << left) - 1),
        count: left,
        ..at
    };
    (prefix, rest)
}
