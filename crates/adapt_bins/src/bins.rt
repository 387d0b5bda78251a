// A bin's two counts, and tables of bins.
ghost use Rattle.std.specs.Prelude.{◌≡◌, [], ◌+◌, ◌*◌, ◌/◌, ◌%◌, ◌^◌, ◌<◌, ◌≤◌, if◌then◌else◌, IfOk, length, slice_set, replicate, get_or};
ghost use Rattle.adapt_bins.specs.Counts.{unseen, counts, seen, most_count, halved, with_room, raised, counted, prob_of};
ghost use Rattle.adapt_bins.specs.Shares.{AreShares};

use crate::reciprocals::share;
use crate::shares::all_shares;
use allocation::{NoMemory, extend_from_slice, with_capacity};
use std::alloc::Global;
use std::marker::Model;
use std::mem::replace;

/// The largest count. If the count of a bit is as large, both are halved before it rises.
const MOST_COUNT: u8 = 255;

/// How many bins are stored one by one, before they are copied over the others: a bin has three bytes, for which a copy
/// is quicker.
const AT_ONCE: usize = 512;

/// How often each bit occurred in one context, as two counts from 1 to 255. Both begin at 1. If the count of the next
/// bit is 255, both are halved first, so that later bits weigh more.
#[derive(Clone, Copy)]
pub struct Bin {
    zeros: u8,
    ones: u8,
    // The probability of a zero, kept so that it is at hand for the next bit.
    prob: u8,
}

impl Model for Bin {
    ghost use Rattle.std.specs.Prelude.{refl};
    ghost use Rattle.adapt_bins.specs.Counts.{Counts};
    ghost use Rattle.adapt_bins.specs.BinInside.{IsBin, counts_of, inside_of};

    ghost Value = { Counts };

    ghost view = { counts_of };

    ghost invariant = { IsBin };

    ghost inverse = { inside_of };

    ghost inverse_ok = { λ b h. let e = h.prob in Prim.rw e refl };
}

impl Bin {
    /// Before the first bit: both counts are 1.
    pub fn new() -> Bin
        ensures { result ≡ unseen }
    {
        Bin {
            zeros: 1,
            ones: 1,
            prob: 128,
        }
    }

    /// The probability of a zero, from 1 to 255 parts of 256: the share of the zeros in both counts, rounded down.
    #[inline(always)]
    pub fn prob(&self) -> u8
        ensures value { result ≡ prob_of self.now }
        ensures some { 1 ≤ result }
    {
        self.prob
    }

    /// Counts a bit.
    #[cold]
    #[inline(never)]
    pub fn count(&mut self, bit: bool)
        ensures { self.new ≡ counted self.old bit }
    {
        let (zeros, ones) = room_for(self.zeros, self.ones, bit);
        let (zeros, ones) = raised(zeros, ones, bit);
        let prob = share(zeros, ones);
        *self = Bin { zeros, ones, prob };
    }

    // `count`, by the shares of all counts. A share of 0 says that a count would be above 255, which is seldom; so
    // nothing but one sum depends on the bit.
    #[inline(always)]
    fn count_by(&mut self, shares: &[u8], bit: bool)
        requires { AreShares shares.now }
        ensures { self.new ≡ counted self.old bit }
    {
        let both = one_more(self.zeros, self.ones, bit);
        let prob = shares[usize::from(both)];
        if prob == 0 {
            self.count(bit);
        } else {
            let (zeros, ones) = parted(both);
            *self = Bin { zeros, ones, prob };
        }
    }
}

// Both counts after one more of a bit, in one number: that of the zeros, and 256 times that of the ones. A count that
// would be 256 is 0, and if that is the zeros' the other isn't right.
#[inline(always)]
fn one_more(zeros: u8, ones: u8, bit: bool) -> u16
    ensures { result ≡ (zeros + 256 * ones + (if bit then 256 else 1)) % 65536 }
{
    let both = u16::from(zeros) + 256 * u16::from(ones);
    let one = if bit { 256 } else { 1 };
    both.wrapping_add(one)
}

// The count of zeros in this number, and that of ones.
#[inline(always)]
fn parted(both: u16) -> (u8, u8)
    ensures zeros { result.0 ≡ both % 256 }
    ensures ones { result.1 ≡ both / 256 }
{
    ((both % 256) as u8, (both / 256) as u8)
}

// Both counts, halved if that of the bit can't rise.
#[inline(always)]
fn room_for(zeros: u8, ones: u8, bit: bool) -> (u8, u8)
    requires zeros { 1 ≤ zeros }
    requires ones { 1 ≤ ones }
    ensures zeros { result.0 ≡ (with_room (counts zeros ones) bit).zeros }
    ensures ones { result.1 ≡ (with_room (counts zeros ones) bit).ones }
    ensures some_zeros { 1 ≤ result.0 }
    ensures some_ones { 1 ≤ result.1 }
    ensures room { seen (counts result.0 result.1) bit < most_count }
{
    let seen = if bit { ones } else { zeros };
    if seen == MOST_COUNT {
        halved(zeros, ones)
    } else {
        (zeros, ones)
    }
}

// Both counts halved, which is seldom.
#[cold]
#[inline(never)]
fn halved(zeros: u8, ones: u8) -> (u8, u8)
    requires zeros { 1 ≤ zeros }
    requires ones { 1 ≤ ones }
    ensures zeros { result.0 ≡ (halved (counts zeros ones)).zeros }
    ensures ones { result.1 ≡ (halved (counts zeros ones)).ones }
    ensures some_zeros { 1 ≤ result.0 }
    ensures some_ones { 1 ≤ result.1 }
    ensures less_zeros { result.0 < most_count }
    ensures less_ones { result.1 < most_count }
{
    (half(zeros), half(ones))
}

// One more of a bit.
#[inline(always)]
fn raised(zeros: u8, ones: u8, bit: bool) -> (u8, u8)
    requires zeros { 1 ≤ zeros }
    requires ones { 1 ≤ ones }
    requires room { seen (counts zeros ones) bit < most_count }
    ensures zeros { result.0 ≡ (raised (counts zeros ones) bit).zeros }
    ensures ones { result.1 ≡ (raised (counts zeros ones) bit).ones }
    ensures some_zeros { 1 ≤ result.0 }
    ensures some_ones { 1 ≤ result.1 }
{
    if bit {
        (zeros, ones + 1)
    } else {
        (zeros + 1, ones)
    }
}

// Half of a count, rounded up.
#[inline(always)]
fn half(count: u8) -> u8
    requires { 1 ≤ count }
    ensures value { result ≡ (count + 1) / 2 }
    ensures some { 1 ≤ result }
    ensures less { result < 255 }
{
    count / 2 + count % 2
}

// Makes each bin what it is before its first bit.
fn make_fresh(table: &mut [Bin])
    ensures { table.new ≡ replicate (length table.old) unseen }
{
    let fresh = [Bin::new(); AT_ONCE];
    let mut done = 0;
    while done < table.len() {
        let more = (table.len() - done).min(AT_ONCE);
        table[done..done + more].copy_from_slice(&fresh[..more]);
        done += more;
    }
}

/// A table of bins, numbered from 0. Clauses see the list of their counts.
#[derive(Drop)]
pub struct Bins {
    table: Vec<Bin>,
    // The shares of all counts; none if there are no bins.
    shares: Vec<u8>,
}

impl Model for Bins {
    ghost use Rattle.std.specs.Prelude.{List};
    ghost use Rattle.adapt_bins.specs.Counts.{Counts};
    ghost use Rattle.adapt_bins.specs.BinsInside.{HasShares};

    ghost Value = { List Counts };

    ghost view = { λ b. b.table.items };

    ghost invariant = { HasShares };
}

impl Bins {
    /// `n` bins, before the first bit of each. The one error is out of memory.
    pub fn new(alloc: Global, n: usize) -> Result<Bins, NoMemory>
        requires few { n ≤ 2 ^ 20 }
        ensures { IfOk result (λ b. b ≡ replicate n unseen) }
    {
        let fresh = [Bin::new(); AT_ONCE];
        let mut table = with_capacity(alloc, n)?;
        while table.len() < n {
            let more = (n - table.len()).min(AT_ONCE);
            extend_from_slice(&mut table, &fresh[..more])?;
        }
        let shares = all_shares(alloc)?;
        Ok(Bins { table, shares })
    }

    /// Moves the table out, and leaves one with no bins.
    #[inline(always)]
    pub(crate) fn moved(&mut self) -> Bins
        ensures value { result ≡ self.old }
        ensures left { self.new ≡ [] }
    {
        let alloc = *self.table.allocator();
        Bins {
            table: replace(&mut self.table, Vec::new(alloc)),
            shares: replace(&mut self.shares, Vec::new(alloc)),
        }
    }

    /// Begins again: the same number of bins, before the first bit of each.
    pub fn fresh(&mut self)
        ensures { self.new ≡ replicate (length self.old) unseen }
    {
        make_fresh(&mut self.table);
    }

    /// The probability of a zero in a bin, from 1 to 255 parts of 256.
    #[inline(always)]
    pub fn prob(&self, bin: usize) -> u8
        requires { bin < length self.now }
        ensures value { result ≡ prob_of (get_or self.now bin unseen) }
        ensures some { 1 ≤ result }
    {
        self.table[bin].prob()
    }

    /// Counts a bit in a bin, and leaves the others as they are.
    #[inline(always)]
    pub fn count(&mut self, bin: usize, bit: bool)
        requires { bin < length self.old }
        ensures { self.new
            ≡ slice_set self.old bin (counted (get_or self.old bin unseen) bit) }
    {
        self.table[bin].count_by(&self.shares, bit);
    }
}
