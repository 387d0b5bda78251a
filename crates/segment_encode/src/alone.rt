// The streams of segments, coded one after another on the calling thread.
ghost use Rattle.jpeg_marker.specs.AcceptedPlans.{CanScan};
ghost use Rattle.std.specs.Prelude.{◌≡◌, ◌<◌, ◌≤◌, ◌+◌, ◌-◌, ℕ, Bool, List, map, IfOk, IsErrOf};
ghost use Rattle.std.specs.List.{range_with_len};
ghost use Rattle.scan_spec.specs.Items.{Refuses};
ghost use Rattle.scan_spec.specs.Scans.{Mcu};
ghost use Rattle.scan_spec.specs.Slots.{shape_of};
ghost use Rattle.scan_spec.specs.declared.refusal.ScanRefusal.{ScanRefusal};
ghost use Rattle.box_format.specs.Parts.{box_cut, box_rows};
ghost use Rattle.cut_spec.specs.Cuts.{first_mcu};
ghost use Rattle.cut_spec.specs.RowHandovers.{mcus_between};
ghost use Rattle.container_spec.specs.Files.{plan_cut, segment_mcus};
ghost use Rattle.container_spec.specs.ScanStream.{stream_of};
ghost use Rattle.segment_code.specs.FileStarts.{starts_of};
ghost use Rattle.segment_code.specs.Starting.{AreStarts, IsFileAt};

use crate::streams::{code_rest, lane_of};
use crate::tasks::{Coding, Task};
use allocation::NoMemory;
use box_format::Chunk;
use huff_table::PlanCodes;
use jpeg_marker::Plan;
use segment_code::{ScanError, ScanPass, Starts};
use std::alloc::Global;

/// What `encode_scan` gives, on the calling thread: the pass codes each segment when it comes to it.
pub fn encode_scan_alone(
    alloc: Global,
    plan: &Plan,
    bytes: &[u8],
    segments: u8,
) -> Result<(Starts, Vec<Vec<u8>>), ScanError>
    requires plan { CanScan bytes.now plan.now }
    requires some { 0 < segments }
    ensures starts { IfOk result (λ made. AreStarts plan.now bytes.now segments made.0) }
    ensures streams { (mcus : List Mcu) (pads : List Bool) (trailer : ℕ)
        → IsFileAt bytes.now plan.now mcus pads trailer
        → IfOk result (λ made. map (λ v. v.items) made.1.items
        ≡ map (λ i. stream_of plan.now (segment_mcus plan.now mcus segments i))
        (range_with_len 0 (plan_cut plan.now segments).segments)) }
    ensures refused { (refusal : ScanRefusal) → IsErrOf result (ScanError.Scan refusal)
        → Refuses (shape_of plan.now) bytes.now plan.now.header_length refusal }
{
    let codes = PlanCodes::build(alloc, plan)?;
    let mut pass = ScanPass::start(alloc, plan, &codes, bytes, segments as u32)?;
    let streams = code_rest(&mut pass, alloc)?;
    let starts = pass.end()?;
    Ok((starts, streams))
}

/// What `encode_all` gives, on the calling thread, with the memory for one segment at a time. The one error is out of
/// memory.
pub fn encode_all_alone(
    alloc: Global,
    plan: &Plan,
    bytes: &[u8],
    starts: &Starts,
    chunk: Option<Chunk>,
    count: u32,
) -> Result<Vec<Vec<u8>>, NoMemory>
    requires starts { AreStarts plan.now bytes.now plan.now.down starts.now }
    requires order { (box_rows plan.now chunk).from ≤ (box_rows plan.now chunk).to }
    requires grid { (box_rows plan.now chunk).to ≤ plan.now.down }
    requires rows { count ≤ (box_rows plan.now chunk).to - (box_rows plan.now chunk).from }
    ensures { (mcus : List Mcu) (pads : List Bool)
        → IsFileAt bytes.now plan.now mcus pads starts.now.trailer
        → starts.now ≡ starts_of plan.now mcus pads starts.now.trailer plan.now.down
        → IfOk result (λ streams. map (λ v. v.items) streams.items
        ≡ map (λ i. stream_of plan.now (mcus_between mcus (first_mcu (box_cut plan.now chunk count) i)
        (first_mcu (box_cut plan.now chunk count) (i + 1)))) (range_with_len 0 count)) }
{
    let codes = PlanCodes::build(alloc, plan)?;
    let mut lane = lane_of(alloc, plan, &codes, bytes, starts, chunk, count, 0..count)?;
    lane.perform();
    match lane.streams() {
        Ok(streams) => Ok(streams),
        Err(ScanError::NoMemory(short)) => Err(short),
        // A scan that was read once is read again.
        Err(ScanError::Scan(_)) => unreachable!(),
    }
}
