// What follows the MCUs of an interval.
ghost use Rattle.std.specs.Prelude.{◌≡◌, ◌≤◌, Some, None};
ghost use Rattle.bit_list.specs.Bits.{low_bits};
ghost use Rattle.scan_spec.specs.ScanSymbols.{pad_of, restart_at, pad_with};

use scan_spec::ScanRefusal;

/// The pad bit of bits that are all equal, if there are any.
pub(crate) fn pads(number: u8, count: u8) -> Option<Option<bool>>
    requires { count ≤ 8 }
    ensures { result ≡ pad_of (Some None) (low_bits count number) }
{
    let mut left = count;
    let mut known = None;
    while left > 0 {
        left -= 1;
        known = matched(known, (number >> left) & 1 == 1)?;
    }
    Some(known)
}

fn matched(pad: Option<bool>, bit: bool) -> Option<Option<bool>>
    ensures { result ≡ pad_with pad bit }
{
    match pad {
        None => Some(Some(bit)),
        Some(known) => { if known == bit { Some(Some(bit)) } else { None } }
    }
}

/// The place after the marker of an interval (ITU-T T.81, E.1.4).
pub(crate) fn restart(bytes: &[u8], number: u32, place: usize) -> Result<usize, ScanRefusal>
    ensures { result ≡ restart_at bytes.now number place }
{
    if place >= bytes.len() {
        return Err(ScanRefusal::ScanCut { place: bytes.len() });
    }
    let first = bytes[place];
    if place + 1 == bytes.len() {
        if first == 0xff {
            return Err(ScanRefusal::ScanCut { place: bytes.len() });
        }
        return Err(ScanRefusal::RestartBad { place });
    }
    if first == 0xff && bytes[place + 1] == 0xd0 + (number % 8) as u8 {
        return Ok(place + 2);
    }
    Err(ScanRefusal::RestartBad { place })
}
