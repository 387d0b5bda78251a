// A range of a container's file that is ready to be read.
ghost use Rattle.std.specs.Prelude.{◌≡◌, ◌≤◌, IfOk, IfSome, IsErrOf, false, is_some, length, min, nat_lt, true};
ghost use Rattle.jpeg_marker.specs.Plans.{PlanFields};
ghost use Rattle.box_format.specs.Checks.{IsRefusedBy};
ghost use Rattle.box_format.specs.Parts.{BoxParts};
ghost use Rattle.box_format.specs.Single.{IsBoxOf};
ghost use Rattle.box_format.specs.Versions.{IsRead, ranged};
ghost use Rattle.box_format.specs.declared.refusal.BoxRefusal.{BoxRefusal};
ghost use Rattle.container_spec.specs.RangeMeanings.{is_bad_range};
ghost use Rattle.lepton_decode.specs.Ends.{team_in};
ghost use Rattle.range_read.specs.RangeEnds.{stretch_in, workers_in};

use crate::bounds::{is_bad_range, segments_within};
use crate::error::RangeError;
use crate::one_scan::OneScan;
use box_format::{ReadError, Version};
use lepton_decode::crew_for;
use segment_crew::{Crew, Workers};
use std::alloc::Global;
use std::marker::Model;

// The versions whose ranges are read.
const RANGED: [Version; 1] = [Version::Fifth];

/// A range of a container's file that is ready to be read, once: the container's parts, and if a segment has a place in
/// the range, the board of the segments that have, with the seats, and all the memory that decoding these needs.
///
/// Clauses see the header's plan, the parts, from where to before where the range is, what is seen of the crew, if
/// there is one, and whether the range was read.
#[derive(Drop)]
pub struct ReadyRange<'a> {
    pub(crate) scan: OneScan<'a>,
    pub(crate) from: u64,
    pub(crate) to: u64,
    pub(crate) crew: Option<Crew<'a>>,
    pub(crate) used: bool,
}

impl<'a> Model for ReadyRange<'a> {
    ghost use Rattle.range_read.specs.RangeEnds.{RangeSeen};
    ghost use Rattle.range_read.specs.RangeInside.{range_of, IsReadyRange};

    ghost Value = { RangeSeen };

    ghost view = { range_of };

    ghost invariant = { IsReadyRange };
}

impl<'a> ReadyRange<'a> {
    /// Whether it was read.
    pub fn used(&self) -> bool
        ensures { result ≡ self.now.used }
    {
        self.used
    }
}

/// Reads a container's parts, and allocates all the memory that reading the file's bytes from place `from` to before
/// place `to` needs: for the emitter and each of these workers the bins, an MCU row of blocks and a piece of bytes,
/// and for each segment with a place in the range a ring of `ring` bytes. No more workers are made than such segments.
/// With 0 workers the emitter decodes all. If no segment has a place there, there is no board.
#[inline(never)]
pub fn prepare_range(
    alloc: Global,
    bytes: &[u8],
    from: u64,
    to: u64,
    workers: Workers,
    ring: u32,
) -> Result<ReadyRange<'_>, RangeError>
    requires { 1 ≤ ring }
    ensures ready { IfOk result (λ ready. IsBoxOf ready.plan ready.parts bytes.now) }
    ensures version { IfOk result (λ ready. IsRead ranged ready.parts.version) }
    ensures from { IfOk result (λ ready. ready.from ≡ from) }
    ensures to { IfOk result (λ ready. ready.to ≡ to) }
    ensures good { IfOk result (λ ready. is_bad_range ready.parts from to ≡ false) }
    ensures fresh { IfOk result (λ ready. ready.used ≡ false) }
    ensures crew { IfOk result (λ ready. is_some ready.crew ≡ nat_lt 0 (stretch_in ready).count) }
    ensures segments { IfOk result (λ ready.
        IfSome ready.crew (λ crew. crew.segments ≡ stretch_in ready)) }
    ensures team { IfOk result (λ ready. length (team_in ready.crew)
        ≡ min (workers_in ready workers) (stretch_in ready).count) }
    ensures rings { IfOk result (λ ready.
        IfSome ready.crew (λ crew. crew.emitter.view.capacity ≡ ring)) }
    ensures refused { (refusal : BoxRefusal) → IsErrOf result (RangeError.Box refusal)
        → IsRefusedBy ranged bytes.now refusal }
    ensures bad { IsErrOf result RangeError.RangeBad → (plan : PlanFields) × (b : BoxParts)
        × IsBoxOf plan b bytes.now × IsRead ranged b.version × (is_bad_range b from to ≡ true) }
{
    let scan = match read_ranged(alloc, bytes, from, to) {
        Ok(scan) => scan,
        Err(error) => return Err(error),
    };
    let (first, past) = segments_within(scan.view(), from, to);
    let crew = crew_for(alloc, scan.file(), first, past - first, workers, ring)?;
    Ok(ReadyRange {
        scan,
        from,
        to,
        crew,
        used: false,
    })
}

/// The parts of a container with ranges, if the range from one place to before another is one of its file.
#[inline(never)]
pub(crate) fn read_ranged(
    alloc: Global,
    bytes: &[u8],
    from: u64,
    to: u64,
) -> Result<OneScan<'_>, RangeError>
    ensures parts { IfOk result (λ scan. IsBoxOf scan.plan scan.parts bytes.now) }
    ensures version { IfOk result (λ scan. IsRead ranged scan.parts.version) }
    ensures good { IfOk result (λ scan. is_bad_range scan.parts from to ≡ false) }
    ensures refused { (refusal : BoxRefusal) → IsErrOf result (RangeError.Box refusal)
        → IsRefusedBy ranged bytes.now refusal }
    ensures bad { IsErrOf result RangeError.RangeBad → (plan : PlanFields) × (b : BoxParts)
        × IsBoxOf plan b bytes.now × IsRead ranged b.version × (is_bad_range b from to ≡ true) }
{
    let scan = match OneScan::read(alloc, bytes, &RANGED) {
        Ok(scan) => scan,
        Err(ReadError::Box(refusal)) => return Err(RangeError::Box(refusal)),
        Err(ReadError::NoMemory(short)) => return Err(RangeError::NoMemory(short)),
    };
    if is_bad_range(scan.view(), from, to) {
        return Err(RangeError::RangeBad);
    }
    Ok(scan)
}
