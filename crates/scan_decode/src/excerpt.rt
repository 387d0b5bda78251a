// MCUs of a scan that are read before anyone knows how many are before them.
ghost use Rattle.std.specs.Prelude.{◌≡◌, ◌≤◌, ◌↔◌, true, length, unsigned_abs};
ghost use Rattle.std.specs.List.{All};
ghost use Rattle.scan_spec.specs.ScanCalls.{resume_place};
ghost use Rattle.scan_decode.specs.Excerpts.{added, IsChange, IsNear};

use bit_list::BitIn;
use std::marker::Model;

/// MCUs of a scan without restarts, one after another, wherever in it they are: the bits that they have, and how much
/// they change the last DC of each component (own). `Reader::skip_excerpt` goes past them.
///
/// Clauses see `ExcerptFields`.
#[derive(Drop)]
pub struct Excerpt<'a> {
    pub(crate) from: BitIn<'a>,
    pub(crate) to: BitIn<'a>,
    pub(crate) change: [i16; 4],
    pub(crate) mcus: u32,
}

impl<'a> Model for Excerpt<'a> {
    ghost use Rattle.scan_decode.specs.Excerpts.{ExcerptFields};
    ghost use Rattle.scan_decode.specs.ExcerptInside.{excerpt_in};

    ghost Value = { ExcerptFields };

    ghost view = { excerpt_in };

    ghost invariant = { λ s. Unit {0} };
}

impl<'a> Excerpt<'a> {
    /// The place from which bytes are needed to read them: of a reader that meets the excerpt, its `place`.
    pub fn place(&self) -> usize
        ensures { result ≡ resume_place self.now.from.cursor }
    {
        needed_from(&self.from)
    }

    /// How many MCUs they are.
    pub fn mcus(&self) -> u32
        ensures { result ≡ self.now.mcus }
    {
        self.mcus
    }
}

/// The place from which bytes are needed to read on: that of the unit whose bits were read in part, or else of the next
/// one.
pub(crate) fn needed_from(input: &BitIn) -> usize
    ensures { result ≡ resume_place input.now.cursor }
{
    let (_, left) = input.left();
    if left == 0 {
        input.next_place()
    } else {
        input.place()
    }
}

// How far the last DCs may be from 0 before an excerpt, and how much it may change them.
const NEAR: u16 = 4_096;

const MOST_CHANGE: u16 = 8_192;

/// Whether an excerpt may follow these last DCs.
pub(crate) fn are_near(dcs: &[i16; 4]) -> bool
    ensures { result ≡ true ↔ All IsNear dcs.now }
{
    are_within(dcs, NEAR)
}

/// Whether an excerpt may change the last DCs by as much.
pub(crate) fn are_changes(change: &[i16; 4]) -> bool
    ensures { result ≡ true ↔ All IsChange change.now }
{
    are_within(change, MOST_CHANGE)
}

// Whether none of these numbers is more than `most` from 0.
fn are_within(numbers: &[i16; 4], most: u16) -> bool
    ensures { result ≡ true ↔ All (λ number. unsigned_abs number ≤ most) numbers.now }
{
    for i in 0..4 {
        if numbers[i].unsigned_abs() > most {
            return false;
        }
    }
    true
}

/// DCs after a change.
pub(crate) fn sums(dcs: &[i16; 4], change: &[i16; 4]) -> [i16; 4]
    requires near { All IsNear dcs.now }
    requires change { All IsChange change.now }
    ensures { result ≡ added dcs.now change.now }
{
    [
        dcs[0] + change[0],
        dcs[1] + change[1],
        dcs[2] + change[2],
        dcs[3] + change[3],
    ]
}
