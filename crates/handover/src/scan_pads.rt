// What the restart intervals of each scan were padded with.
ghost use Rattle.std.specs.Prelude.{◌≡◌, ◌<◌};
ghost use Rattle.handover.specs.ScanSums.{no_sums, sum_in, sums_of, sums_with};

use crate::pads::PadSum;

/// What some restart intervals were padded with, scan by scan; the first scan has number 0. A file has four scans at
/// most.
pub type ScanPads = [PadSum; 4];

/// Of no interval.
pub fn no_sums() -> ScanPads
    ensures { result ≡ no_sums }
{
    [PadSum::none(); 4]
}

/// Of these intervals and of others of one scan.
pub fn add_sum(pads: &mut ScanPads, scan: u8, others: &PadSum)
    requires { scan < 4 }
    ensures { pads.new ≡ sums_with pads.old (sums_of scan others.now) }
{
    let scan = usize::from(scan);
    pads[scan] = pads[scan].with(others);
}

/// Those of one scan.
pub fn sum_in(pads: &ScanPads, scan: u8) -> PadSum
    requires { scan < 4 }
    ensures { result ≡ sum_in pads.now scan }
{
    pads[usize::from(scan)]
}
