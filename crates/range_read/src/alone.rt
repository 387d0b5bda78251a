// A range of a container's file, read on one thread.
ghost use Rattle.std.specs.Prelude.{[], ◌∷◌, ◌≡◌, ◌≤◌, IfOk, IfSome, IsErrOf, false, is_some, nat_lt, true};
ghost use Rattle.jpeg_marker.specs.Plans.{PlanFields};
ghost use Rattle.box_format.specs.Checks.{IsRefusedBy};
ghost use Rattle.box_format.specs.Parts.{BoxParts};
ghost use Rattle.box_format.specs.Single.{IsBoxOf};
ghost use Rattle.box_format.specs.Versions.{IsRead, ranged};
ghost use Rattle.box_format.specs.declared.refusal.BoxRefusal.{BoxRefusal};
ghost use Rattle.outside_core.specs.Takes.{TakesNext};
ghost use Rattle.container_spec.specs.RangeMeanings.{is_bad_range};
ghost use Rattle.range_read.specs.RangeEnds.{RangeEnds, lone_range_in, lone_stretch_in};

use crate::bounds::segments_within;
use crate::error::RangeError;
use crate::one_scan::OneScan;
use crate::portion::range_portion;
use crate::reading::{Ranged, as_range};
use crate::ready::read_ranged;
use allocation::NoMemory;
use container_spec::Kind;
use lepton_decode::{Lone, play_alone, play_bare};
use outside_core::{Gate, Sink};
use segment_worker::EmitStop;
use std::alloc::Global;
use std::marker::Model;

/// A range of a container's file that is ready to be read on one thread, once: the container's parts, and if a segment
/// has a place in the range, all the memory that decoding needs.
///
/// Clauses see the header's plan, the parts, from where to before where the range is, how many segments its decoder
/// began, if it has one, and whether it was read.
#[derive(Drop)]
pub struct ReadyRangeAlone<'a> {
    pub(crate) scan: OneScan<'a>,
    pub(crate) from: u64,
    pub(crate) to: u64,
    pub(crate) lone: Option<Lone<'a>>,
    pub(crate) used: bool,
}

impl<'a> Model for ReadyRangeAlone<'a> {
    ghost use Rattle.range_read.specs.RangeEnds.{LoneRangeSeen};
    ghost use Rattle.range_read.specs.AloneInside.{lone_range_of, IsReadyRangeAlone};

    ghost Value = { LoneRangeSeen };

    ghost view = { lone_range_of };

    ghost invariant = { IsReadyRangeAlone };
}

impl<'a> ReadyRangeAlone<'a> {
    /// Whether it was read.
    pub fn used(&self) -> bool
        ensures { result ≡ self.now.used }
    {
        self.used
    }
}

/// Reads a container's parts, and allocates all the memory that reading the file's bytes from place `from` to before
/// place `to` on one thread needs: the bins, an MCU row of blocks and a piece of bytes. If no segment has a place
/// there, it allocates only the plans.
#[inline(never)]
pub fn prepare_range_alone(
    alloc: Global,
    bytes: &[u8],
    from: u64,
    to: u64,
) -> Result<ReadyRangeAlone<'_>, RangeError>
    ensures ready { IfOk result (λ ready. IsBoxOf ready.plan ready.parts bytes.now) }
    ensures version { IfOk result (λ ready. IsRead ranged ready.parts.version) }
    ensures from { IfOk result (λ ready. ready.from ≡ from) }
    ensures to { IfOk result (λ ready. ready.to ≡ to) }
    ensures good { IfOk result (λ ready. is_bad_range ready.parts from to ≡ false) }
    ensures fresh { IfOk result (λ ready. ready.used ≡ false) }
    ensures decoder { IfOk result (λ ready.
        is_some ready.begun ≡ nat_lt 0 (lone_stretch_in ready).count) }
    ensures begun { IfOk result (λ ready. IfSome ready.begun (λ begun. begun ≡ 0)) }
    ensures refused { (refusal : BoxRefusal) → IsErrOf result (RangeError.Box refusal)
        → IsRefusedBy ranged bytes.now refusal }
    ensures bad { IsErrOf result RangeError.RangeBad → (plan : PlanFields) × (b : BoxParts)
        × IsBoxOf plan b bytes.now × IsRead ranged b.version × (is_bad_range b from to ≡ true) }
{
    let scan = match read_ranged(alloc, bytes, from, to) {
        Ok(scan) => scan,
        Err(error) => return Err(error),
    };
    let (first, past) = segments_within(scan.view(), from, to);
    let lone = lone_for(alloc, &scan, past - first)?;
    Ok(ReadyRangeAlone {
        scan,
        from,
        to,
        lone,
        used: false,
    })
}

// What decodes `count` of a container's segments, if there is one.
#[inline(never)]
fn lone_for<'a>(alloc: Global, scan: &OneScan<'a>, count: u8) -> Result<Option<Lone<'a>>, NoMemory>
    ensures some { IfOk result (λ lone. is_some lone ≡ nat_lt 0 count) }
    ensures plans { IfOk result (λ lone.
        IfSome lone (λ made. made.decoder.plans ≡ scan.now.plan ∷ [])) }
    ensures fresh { IfOk result (λ lone. IfSome lone (λ made. made.decoder.begun ≡ 0)) }
{
    if count == 0 {
        return Ok(None);
    }
    let lone = Lone::prepare(alloc, scan.file())?;
    Ok(Some(lone))
}

/// Writes what `run_range` writes, and answers what it answers, on the calling thread. Nothing in it waits, so it
/// returns, on any container, if the calls of the sink and of the gate return. It allocates nothing.
///
/// At each moment, also while the call is under way, what was written is a prefix of the range, since the sink need
/// take nothing else.
///
/// The gate is called before each segment, with the segment's number in the container.
#[inline(never)]
pub fn run_range_alone<K: Sink, G: Gate>(
    ready: &mut ReadyRangeAlone,
    sink: &mut K,
    gate: &G,
) -> Result<Ranged, EmitStop>
    requires fresh { ready.old.used ≡ false }
    requires takes { TakesNext K.takes sink.old (lone_range_in ready.old).bytes }
    ensures ends { RangeEnds K.held K.takes K.faults K.full sink.old sink.new
        (lone_range_in ready.old) result }
    // The decoder began as many segments as there are from the first to the last with a place in the range.
    ensures begun { IfOk result (λ ranged. IfSome ready.new.begun (λ begun. begun ≡ ranged.begun)) }
    // However it ends, the decoder began no more segments than these.
    ensures most { IfSome ready.new.begun (λ begun. begun ≤ (lone_stretch_in ready.old).count) }
    ensures decoder { is_some ready.new.begun ≡ is_some ready.old.begun }
    ensures used { ready.new.used ≡ true }
    ensures lasting { K.faults sink.old ≤ K.faults sink.new }
{
    ready.used = true;
    let portion = range_portion(&ready.scan, ready.from, ready.to);
    let view = ready.scan.file();
    match &mut ready.lone {
        Some(lone) => {
            let ended = play_alone(view, Kind::Range, &portion, lone, sink, gate);
            as_range(ended, portion.count)
        }
        None => as_range(play_bare(view, Kind::Range, &portion, sink), portion.count),
    }
}
