// The share of the zeros for each pair of counts.
ghost use Rattle.std.specs.Prelude.{◌≡◌, ◌<◌, ◌+◌, ◌*◌, ◌/◌, ◌%◌, ℕ, IfOk, get_or};
ghost use Rattle.adapt_bins.specs.Shares.{AreShares, share_at};

use crate::reciprocals::parts;
use allocation::{NoMemory, extend_from_slice, with_capacity};
use std::alloc::Global;

/// How many counts there are, from 0 to 255.
const COUNTS: usize = 256;

/// A table of the shares. The one error is out of memory.
#[inline(never)]
pub(crate) fn all_shares(alloc: Global) -> Result<Vec<u8>, NoMemory>
    ensures { IfOk result (λ shares. AreShares shares.items) }
{
    let mut shares = with_capacity(alloc, COUNTS * COUNTS)?;
    for ones in 0..COUNTS {
        extend_from_slice(&mut shares, &shares_beside(ones))?;
    }
    Ok(shares)
}

// The shares beside one count of ones, worked out by vector code.
#[inline(always)]
fn shares_beside(ones: usize) -> [u8; COUNTS]
    requires { ones < 256 }
    ensures { (zeros : ℕ) → zeros < 256 → get_or result zeros 0 ≡ share_at (256 * ones + zeros) }
{
    let mut row = [0; COUNTS];
    for zeros in 0..COUNTS {
        row[zeros] = share_of(zeros, ones);
    }
    row
}

// The share of the zeros in both counts, and 0 if one of them is 0.
#[inline(always)]
fn share_of(zeros: usize, ones: usize) -> u8
    requires zeros { zeros < 256 }
    requires ones { ones < 256 }
    ensures { result ≡ 256 * zeros / (zeros + ones) % 256 }
{
    let parts = parts(zeros as u8, ones as u8);
    (parts % 256) as u8
}
