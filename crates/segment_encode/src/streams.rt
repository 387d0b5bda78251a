// The streams of the segments of a file, or of a chunk's rows of it, side by side.
ghost use Rattle.jpeg_marker.specs.AcceptedPlans.{CanScan};
ghost use Rattle.std.specs.Prelude.{◌≡◌, ◌<◌, ◌≤◌, ◌+◌, ◌-◌, ℕ, Bool, List, All, map, flat_map, length, IfOk, OnOk, IsErrOf};
ghost use Rattle.std.specs.List.{range_with_len};
ghost use Rattle.huff_table.specs.ComponentTables.{codes_of};
ghost use Rattle.scan_spec.specs.Items.{Refuses};
ghost use Rattle.scan_spec.specs.Scans.{Mcu};
ghost use Rattle.scan_spec.specs.Slots.{shape_of};
ghost use Rattle.scan_spec.specs.declared.refusal.ScanRefusal.{ScanRefusal};
ghost use Rattle.box_format.specs.Parts.{box_cut, box_rows};
ghost use Rattle.cut_spec.specs.Cuts.{first_mcu};
ghost use Rattle.cut_spec.specs.RowHandovers.{mcus_between};
ghost use Rattle.container_spec.specs.Files.{plan_cut, segment_mcus};
ghost use Rattle.segment_code.specs.FileStarts.{starts_of};
ghost use Rattle.container_spec.specs.ScanStream.{stream_of};
ghost use Rattle.segment_code.specs.ScanPasses.{IsPass, segments_left};
ghost use Rattle.segment_code.specs.Starting.{AreStarts, IsFileAt};
ghost use Rattle.segment_code.specs.declared.error.ScanError.TheVariants.{Scan};
ghost use Rattle.segment_encode.specs.Lanes.{AreCoded, AreMade, AreOfAFile, GiveEach, IsNewLane, most_lanes, parts_in};
ghost use Rattle.segment_encode.specs.StreamsFound.{ArePassed, AreStreams, HasPassedOn, PassRefuses};

use crate::lanes::{Lane, MOST_LANES, in_a_lane};
use crate::relay::{Pass, joined, make_all};
use crate::scouts::scouted;
use crate::tasks::{Coding, perform_all};
use allocation::{NoMemory, push, with_capacity};
use box_format::Chunk;
use huff_table::PlanCodes;
use jpeg_marker::Plan;
use segment_code::{ScanError, ScanPass, SegmentEncoder, Starts, ready_segment};
use std::alloc::Global;
use std::ops::Range;
use std::thread::Threads;

/// Where the segments of the scan of a plan start, which follows the bytes that the plan has as its header, and the
/// stream of each, in order: at most `segments`, and at most as many as rows of MCUs. One pass over the scan finds the
/// starts. The segments are coded in lanes, one after another in each: at most 16, and one alone of a small scan. Once
/// the pass is through a lane, that is coded in a thread of its own, if one can be had; its memory is allocated before.
/// The pass codes the last lane.
pub fn encode_scan<R: Threads + Sync>(
    rt: &R,
    alloc: Global,
    plan: &Plan,
    bytes: &[u8],
    segments: u8,
) -> Result<(Starts, Vec<Vec<u8>>), ScanError>
    requires plan { CanScan bytes.now plan.now }
    requires some { 0 < segments }
    ensures starts { IfOk result (λ made. AreStarts plan.now bytes.now segments made.0) }
    ensures streams { (mcus : List Mcu) (pads : List Bool) (trailer : ℕ)
        → IsFileAt bytes.now plan.now mcus pads trailer
        → IfOk result (λ made. map (λ v. v.items) made.1.items
        ≡ map (λ i. stream_of plan.now (segment_mcus plan.now mcus segments i))
        (range_with_len 0 (plan_cut plan.now segments).segments)) }
    ensures refused { (refusal : ScanRefusal) → IsErrOf result (ScanError.Scan refusal)
        → Refuses (shape_of plan.now) bytes.now plan.now.header_length refusal }
{
    let codes = PlanCodes::build(alloc, plan)?;
    let mut pass = ScanPass::start(alloc, plan, &codes, bytes, segments as u32)?;
    let each = in_a_lane(pass.left(), plan.blocks());
    read_ahead(rt, alloc, &mut pass, &codes, bytes, each);
    let streams = make_all(rt, alloc, &mut pass, each)?;
    let starts = pass.end()?;
    Ok((starts, streams))
}

// Gives the pass excerpts of its scan, if it leaves lanes of `each` segments to other threads.
fn read_ahead<'a, R: Threads + Sync>(
    rt: &R,
    alloc: Global,
    pass: &mut ScanPass<'a>,
    codes: &PlanCodes,
    bytes: &'a [u8],
    each: u32,
)
    requires pass { IsPass pass.old }
    requires bytes { pass.old.bytes ≡ bytes.now }
    requires codes { codes.now ≡ codes_of pass.old.plan.components }
    requires each { 0 < each }
    ensures { pass.new ≡ pass.old }
{
    let left = pass.left();
    if left > each {
        let room = pass.room(each);
        let plan = pass.plan();
        let excerpts = scouted(rt, alloc, plan, codes, bytes, left - each, left, room);
        pass.use_excerpts(excerpts);
    }
}

impl<'a> Pass<Lane<'a>> for ScanPass<'a> {
    ghost use Rattle.segment_code.specs.ScanPasses.{IsPass, segments_left};
    ghost use Rattle.segment_encode.specs.StreamsFound.{AreStreams, PassRefuses};

    ghost holds = { λ pass. IsPass pass };

    ghost left = { λ pass. segments_left pass };

    ghost gives_all = { λ old new streams. AreStreams old new streams };

    ghost refuses = { λ pass refusal. PassRefuses pass refusal };

    fn left(&self) -> u32 {
        ScanPass::left(self)
    }

    fn room(&self, each: u32) -> usize {
        ScanPass::room(self, each)
    }

    fn lane(&mut self, alloc: Global, count: u32) -> Result<Lane<'a>, ScanError> {
        next_lane(self, alloc, count)
    }

    fn rest(&mut self, alloc: Global) -> Result<Vec<Vec<u8>>, ScanError> {
        code_rest(self, alloc)
    }
}

// The lane of the next segments, which are passed over.
#[inline(never)]
fn next_lane<'a>(pass: &mut ScanPass<'a>, alloc: Global, count: u32) -> Result<Lane<'a>, ScanError>
    requires pass { IsPass pass.old }
    requires fewer { count < segments_left pass.old }
    ensures passed { OnOk result (HasPassedOn count pass.old pass.new) }
    ensures new { IfOk result IsNewLane }
    ensures count { IfOk result (λ lane. length (parts_in lane) ≡ count) }
    ensures parts { IfOk result (λ lane. ArePassed pass.old (parts_in lane)) }
    ensures refused { (refusal : ScanRefusal) → IsErrOf result (Scan refusal)
        → PassRefuses pass.old refusal }
{
    let mut parts = Vec::new(alloc);
    for _ in 0..count {
        let part = pass.pass_over(alloc)?;
        push(&mut parts, part)?;
    }
    Ok(Lane::prepare(alloc, pass.plan(), parts)?)
}

// The streams of the segments that are left, which the pass codes itself.
#[inline(never)]
pub(crate) fn code_rest(pass: &mut ScanPass, alloc: Global) -> Result<Vec<Vec<u8>>, ScanError>
    requires pass { IsPass pass.old }
    ensures made { IfOk result (λ streams.
        AreStreams pass.old pass.new (map (λ v. v.items) streams.items)) }
    ensures refused { (refusal : ScanRefusal) → IsErrOf result (Scan refusal)
        → PassRefuses pass.old refusal }
{
    let count = pass.left();
    let mut encoder = SegmentEncoder::prepare(alloc, pass.plan())?;
    let mut streams = with_capacity(alloc, count as usize)?;
    for _ in 0..count {
        let stream = pass.encode(alloc, &mut encoder)?;
        push(&mut streams, stream)?;
    }
    Ok(streams)
}

/// The stream of each of `count` segments of a file, or of a chunk's rows of it, in order, by the starts of all the
/// file's rows. They are coded in lanes, at most 16, and one alone of a small scan: one after another in each, and each
/// lane in a thread of its own if one can be had. The memory of all lanes is allocated before the first thread starts.
/// The one error is out of memory.
pub fn encode_all<R: Threads + Sync>(
    rt: &R,
    alloc: Global,
    plan: &Plan,
    bytes: &[u8],
    starts: &Starts,
    chunk: Option<Chunk>,
    count: u32,
) -> Result<Vec<Vec<u8>>, NoMemory>
    requires starts { AreStarts plan.now bytes.now plan.now.down starts.now }
    requires order { (box_rows plan.now chunk).from ≤ (box_rows plan.now chunk).to }
    requires grid { (box_rows plan.now chunk).to ≤ plan.now.down }
    requires rows { count ≤ (box_rows plan.now chunk).to - (box_rows plan.now chunk).from }
    ensures { (mcus : List Mcu) (pads : List Bool)
        → IsFileAt bytes.now plan.now mcus pads starts.now.trailer
        → starts.now ≡ starts_of plan.now mcus pads starts.now.trailer plan.now.down
        → IfOk result (λ streams. map (λ v. v.items) streams.items
        ≡ map (λ i. stream_of plan.now (mcus_between mcus (first_mcu (box_cut plan.now chunk count) i)
        (first_mcu (box_cut plan.now chunk count) (i + 1)))) (range_with_len 0 count)) }
{
    let codes = PlanCodes::build(alloc, plan)?;
    let mut lanes = lanes_of(alloc, plan, &codes, bytes, starts, chunk, count)?;
    perform_all(rt, lanes.as_mut_slice());
    match all_made(alloc, lanes) {
        Ok(streams) => Ok(streams),
        Err(ScanError::NoMemory(short)) => Err(short),
        // A scan that was read once is read again.
        Err(ScanError::Scan(_)) => unreachable!(),
    }
}

// All segments in lanes.
#[inline(never)]
fn lanes_of<'a>(
    alloc: Global,
    plan: &'a Plan,
    codes: &'a PlanCodes,
    bytes: &'a [u8],
    starts: &Starts,
    chunk: Option<Chunk>,
    count: u32,
) -> Result<Vec<Lane<'a>>, NoMemory>
    requires codes { codes.now ≡ codes_of plan.now.components }
    requires starts { AreStarts plan.now bytes.now plan.now.down starts.now }
    requires order { (box_rows plan.now chunk).from ≤ (box_rows plan.now chunk).to }
    requires grid { (box_rows plan.now chunk).to ≤ plan.now.down }
    requires rows { count ≤ (box_rows plan.now chunk).to - (box_rows plan.now chunk).from }
    ensures new { IfOk result (λ lanes. All IsNewLane lanes.items) }
    ensures file { IfOk result (λ lanes. All (λ lane. AreOfAFile (parts_in lane)) lanes.items) }
    ensures most { IfOk result (λ lanes. length lanes.items ≤ most_lanes) }
    ensures count { IfOk result (λ lanes. length (flat_map parts_in lanes.items) ≡ count) }
    ensures streams { (mcus : List Mcu) (pads : List Bool)
        → IsFileAt bytes.now plan.now mcus pads starts.now.trailer
        → starts.now ≡ starts_of plan.now mcus pads starts.now.trailer plan.now.down
        → IfOk result (λ lanes. GiveEach (λ i. stream_of plan.now
        (mcus_between mcus (first_mcu (box_cut plan.now chunk count) i)
        (first_mcu (box_cut plan.now chunk count) (i + 1)))) 0 (flat_map parts_in lanes.items)) }
{
    let each = in_a_lane(count, plan.blocks());
    let mut lanes = with_capacity(alloc, MOST_LANES as usize)?;
    let mut first = 0;
    while first < count {
        let some = each.min(count - first);
        let lane = lane_of(
            alloc,
            plan,
            codes,
            bytes,
            starts,
            chunk,
            count,
            first..first + some,
        )?;
        push(&mut lanes, lane)?;
        first += some;
    }
    Ok(lanes)
}

// The lane of the segments with these numbers.
#[inline(never)]
pub(crate) fn lane_of<'a>(
    alloc: Global,
    plan: &'a Plan,
    codes: &'a PlanCodes,
    bytes: &'a [u8],
    starts: &Starts,
    chunk: Option<Chunk>,
    count: u32,
    segments: Range<u32>,
) -> Result<Lane<'a>, NoMemory>
    requires codes { codes.now ≡ codes_of plan.now.components }
    requires starts { AreStarts plan.now bytes.now plan.now.down starts.now }
    requires order { (box_rows plan.now chunk).from ≤ (box_rows plan.now chunk).to }
    requires grid { (box_rows plan.now chunk).to ≤ plan.now.down }
    requires rows { count ≤ (box_rows plan.now chunk).to - (box_rows plan.now chunk).from }
    requires rising { segments.start ≤ segments.end }
    requires within { segments.end ≤ count }
    ensures new { IfOk result IsNewLane }
    ensures file { IfOk result (λ lane. AreOfAFile (parts_in lane)) }
    ensures count { IfOk result (λ lane. length (parts_in lane) ≡ segments.end - segments.start) }
    ensures streams { (mcus : List Mcu) (pads : List Bool)
        → IsFileAt bytes.now plan.now mcus pads starts.now.trailer
        → starts.now ≡ starts_of plan.now mcus pads starts.now.trailer plan.now.down
        → IfOk result (λ lane. GiveEach (λ i. stream_of plan.now
        (mcus_between mcus (first_mcu (box_cut plan.now chunk count) i)
        (first_mcu (box_cut plan.now chunk count) (i + 1)))) segments.start (parts_in lane)) }
{
    let mut parts = Vec::new(alloc);
    for segment in segments.start..segments.end {
        let part = ready_segment(alloc, plan, codes, bytes, starts, chunk, count, segment)?;
        push(&mut parts, part)?;
    }
    Lane::prepare(alloc, plan, parts)
}

// The streams of all lanes, in order, or the first error.
#[inline(never)]
fn all_made(alloc: Global, lanes: Vec<Lane>) -> Result<Vec<Vec<u8>>, ScanError>
    ensures made { (olds : List Lane) → AreCoded olds lanes.entry.items → IfOk result (λ streams.
        AreMade (flat_map parts_in olds) (map (λ v. v.items) streams.items)) }
    ensures refused { (olds : List Lane) (refusal : ScanRefusal) → AreCoded olds lanes.entry.items
        → All (λ lane. AreOfAFile (parts_in lane)) olds → IsErrOf result (Scan refusal) → ⊥ }
{
    let mut streams = Vec::new(alloc);
    for lane in lanes {
        streams = joined(streams, lane.streams()?)?;
    }
    Ok(streams)
}
