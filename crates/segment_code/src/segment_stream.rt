// The stream of one segment of a file, or of a chunk's rows of it.
ghost use Rattle.std.specs.Prelude.{◌≡◌, ◌<◌, ◌≤◌, ◌+◌, ◌-◌, ℕ, Bool, List, [], length, replicate, None, Err, IfOk, OnOk, IsErrOf};
ghost use Rattle.std.specs.List.{AllByRecursion};
ghost use Rattle.coef_block.specs.Block.{IsBlock};
ghost use Rattle.coef_block.specs.BlockRows.{block_count};
ghost use Rattle.adapt_bins.specs.Counts.{unseen};
ghost use Rattle.coef_context.specs.Runs.{bin_count};
ghost use Rattle.huff_table.specs.ComponentTables.{codes_of};
ghost use Rattle.block_code.specs.SegmentUnderWay.{HoldsUpTo};
ghost use Rattle.scan_spec.specs.ScanLaws.{zigzag_of};
ghost use Rattle.scan_spec.specs.Scans.{Mcu};
ghost use Rattle.scan_spec.specs.Slots.{shape_of};
ghost use Rattle.scan_spec.specs.declared.refusal.ScanRefusal.{ScanRefusal};
ghost use Rattle.cut_spec.specs.Cuts.{first_mcu};
ghost use Rattle.cut_spec.specs.RowHandovers.{mcus_between};
ghost use Rattle.box_format.specs.Parts.{box_cut, box_rows};
ghost use Rattle.segment_code.specs.FileStarts.{starts_of};
ghost use Rattle.container_spec.specs.ScanStream.{grid_of, stream_of};
ghost use Rattle.segment_code.specs.CodedMcus.{AreCoded, AreReadOn, next_of};
ghost use Rattle.segment_code.specs.FoundPads.{pads_through};
ghost use Rattle.segment_code.specs.ReadyParts.{IsReady};
ghost use Rattle.segment_code.specs.ScanPasses.{IsNoPart, IsPart, IsPartStream};
ghost use Rattle.segment_code.specs.Starting.{AreStarts, IsFileAt};

use crate::cuts::{mcus_in, row_of};
use crate::error::ScanError;
use crate::find::keep_pad;
use crate::pads::PadsFound;
use crate::part::SegmentPart;
use crate::ready::ReadyPart;
use crate::starts::Starts;
use adapt_bins::{Bins, Put};
use allocation::NoMemory;
use block_code::{SegmentRows, put_mcu};
use bool_coder::Encoder;
use box_format::Chunk;
use coef_block::Block;
use huff_table::PlanCodes;
use jpeg_marker::Plan;
use scan_decode::Reader;
use scan_spec::MOST_SLOTS;
use std::alloc::Global;

/// The stream of one of `count` segments of a file, or of a chunk's rows of it, by the starts of all the file's rows;
/// the first one has number 0. Each MCU is read, coded and forgotten: beside the stream, memory is for an MCU row of
/// blocks and the bins. The one error is out of memory.
pub fn encode_segment(
    alloc: Global,
    plan: &Plan,
    bytes: &[u8],
    starts: &Starts,
    chunk: Option<Chunk>,
    count: u32,
    segment: u32,
) -> Result<Vec<u8>, NoMemory>
    requires starts { AreStarts plan.now bytes.now plan.now.down starts.now }
    requires order { (box_rows plan.now chunk).from ≤ (box_rows plan.now chunk).to }
    requires grid { (box_rows plan.now chunk).to ≤ plan.now.down }
    requires rows { count ≤ (box_rows plan.now chunk).to - (box_rows plan.now chunk).from }
    requires segment { segment < count }
    ensures { (mcus : List Mcu) (pads : List Bool)
        → IsFileAt bytes.now plan.now mcus pads starts.now.trailer
        → starts.now ≡ starts_of plan.now mcus pads starts.now.trailer plan.now.down
        → IfOk result (λ stream. stream.items ≡ stream_of plan.now
        (mcus_between mcus (first_mcu (box_cut plan.now chunk count) segment)
        (first_mcu (box_cut plan.now chunk count) (segment + 1)))) }
{
    let codes = PlanCodes::build(alloc, plan)?;
    let part = segment_part(plan, &codes, bytes, starts, chunk, count, segment);
    match part.encode(alloc) {
        Ok(stream) => Ok(stream),
        Err(ScanError::NoMemory(short)) => Err(short),
        // A scan that was read once is read again.
        Err(ScanError::Scan(_)) => unreachable!(),
    }
}

/// One of `count` segments of a file, or of a chunk's rows of it, by the starts of all the file's rows, with the memory
/// that coding it needs beside a `SegmentEncoder`. If it is encoded, its stream is that of `encode_segment`. The one
/// error is out of memory.
pub fn ready_segment<'a>(
    alloc: Global,
    plan: &'a Plan,
    codes: &'a PlanCodes,
    bytes: &'a [u8],
    starts: &Starts,
    chunk: Option<Chunk>,
    count: u32,
    segment: u32,
) -> Result<ReadyPart<'a>, NoMemory>
    requires codes { codes.now ≡ codes_of plan.now.components }
    requires starts { AreStarts plan.now bytes.now plan.now.down starts.now }
    requires order { (box_rows plan.now chunk).from ≤ (box_rows plan.now chunk).to }
    requires grid { (box_rows plan.now chunk).to ≤ plan.now.down }
    requires rows { count ≤ (box_rows plan.now chunk).to - (box_rows plan.now chunk).from }
    requires segment { segment < count }
    ensures ready { IfOk result IsReady }
    ensures plan { IfOk result (λ ready. ready.part.plan ≡ plan.now) }
    ensures stream { (mcus : List Mcu) (pads : List Bool) (stream : List ℕ)
        → IsFileAt bytes.now plan.now mcus pads starts.now.trailer
        → starts.now ≡ starts_of plan.now mcus pads starts.now.trailer plan.now.down
        → IfOk result (λ ready. IsPartStream ready.part stream → stream ≡ stream_of plan.now
        (mcus_between mcus (first_mcu (box_cut plan.now chunk count) segment)
        (first_mcu (box_cut plan.now chunk count) (segment + 1)))) }
    ensures refused { IfOk result (λ ready. IsNoPart ready.part → ⊥) }
{
    let part = segment_part(plan, codes, bytes, starts, chunk, count, segment);
    let next = row_of(plan, chunk, count, segment + 1);
    let end = if next < starts.segments() {
        starts.place(next)
    } else {
        starts.trailer()
    };
    let length = end.saturating_sub(part.place);
    ReadyPart::prepare(alloc, part, length)
}

// One of `count` segments of a file, or of a chunk's rows of it.
fn segment_part<'a>(
    plan: &'a Plan,
    codes: &'a PlanCodes,
    bytes: &'a [u8],
    starts: &Starts,
    chunk: Option<Chunk>,
    count: u32,
    segment: u32,
) -> SegmentPart<'a>
    requires codes { codes.now ≡ codes_of plan.now.components }
    requires starts { AreStarts plan.now bytes.now plan.now.down starts.now }
    requires order { (box_rows plan.now chunk).from ≤ (box_rows plan.now chunk).to }
    requires grid { (box_rows plan.now chunk).to ≤ plan.now.down }
    requires rows { count ≤ (box_rows plan.now chunk).to - (box_rows plan.now chunk).from }
    requires segment { segment < count }
    ensures part { IsPart result }
    ensures plan { result.plan ≡ plan.now }
    ensures stream { (mcus : List Mcu) (pads : List Bool) (stream : List ℕ)
        → IsFileAt bytes.now plan.now mcus pads starts.now.trailer
        → starts.now ≡ starts_of plan.now mcus pads starts.now.trailer plan.now.down
        → IsPartStream result stream → stream ≡ stream_of plan.now
        (mcus_between mcus (first_mcu (box_cut plan.now chunk count) segment)
        (first_mcu (box_cut plan.now chunk count) (segment + 1))) }
    ensures refused { IsNoPart result → ⊥ }
{
    let row = row_of(plan, chunk, count, segment);
    SegmentPart {
        plan,
        codes,
        bytes,
        row,
        place: starts.place(row),
        handover: starts.handover(row),
        mcus: mcus_in(plan, chunk, count, segment),
    }
}

/// The stream of the reader's next `mcus` MCUs, as one segment of its plan's scan, with rows and bins before the first
/// MCU, and an empty list for the stream. The pad bit of each interval that ends is kept.
pub(crate) fn code_over(
    segment: &mut SegmentRows,
    bins: &mut Bins,
    plan: &Plan,
    reader: &mut Reader,
    pads: &mut PadsFound,
    mcus: u32,
    list: Vec<u8>,
) -> Result<Vec<u8>, ScanError>
    requires start { reader.old.stop ≡ None }
    requires shape { reader.old.shape ≡ shape_of plan.now }
    requires count { reader.old.at.count + mcus ≤ reader.old.shape.mcus }
    requires empty { list.items ≡ [] }
    requires grid { segment.old.grid ≡ grid_of plan.now }
    requires slots { length (shape_of plan.now).slots ≡ block_count segment.old.grid.mcu }
    requires held { HoldsUpTo segment.old [] }
    requires room { bin_count ≤ length bins.old }
    requires fresh { bins.old ≡ replicate (length bins.old) unseen }
    ensures coded { IfOk result (λ stream. (all : List Mcu)
        × AllByRecursion (AllByRecursion IsBlock) all
        × AreReadOn mcus reader.old reader.new (zigzag_of all)
        × (stream.items ≡ stream_of plan.now all)) }
    ensures pads { OnOk result (pads.new ≡ pads_through mcus reader.old pads.old) }
    ensures refused { (refusal : ScanRefusal) → IsErrOf result (ScanError.Scan refusal)
        → next_of mcus reader.old ≡ Err refusal }
    ensures grid { OnOk result (segment.new.grid ≡ segment.old.grid) }
    ensures room { OnOk result (length bins.new ≡ length bins.old) }
{
    let mut encoder = Encoder::over(list);
    code_mcus(
        reader,
        segment,
        &mut Put::new(bins, &mut encoder),
        pads,
        mcus,
    )?;
    Ok(encoder.finish()?)
}

// Reads and codes the next `mcus` MCUs.
fn code_mcus(
    reader: &mut Reader,
    segment: &mut SegmentRows,
    coder: &mut Put,
    pads: &mut PadsFound,
    mcus: u32,
) -> Result<(), ScanError>
    requires start { reader.old.stop ≡ None }
    requires count { reader.old.at.count + mcus ≤ reader.old.shape.mcus }
    requires slots { length reader.old.shape.slots ≡ block_count segment.old.grid.mcu }
    requires room { bin_count ≤ length coder.old.bins.now }
    requires held { HoldsUpTo segment.old [] }
    ensures coded { OnOk result ((all : List Mcu)
        × AreCoded mcus reader.old reader.new segment.old.grid segment.new coder.old coder.new all) }
    ensures grid { OnOk result (segment.new.grid ≡ segment.old.grid) }
    ensures pads { OnOk result (pads.new ≡ pads_through mcus reader.old pads.old) }
    ensures refused { (refusal : ScanRefusal) → IsErrOf result (ScanError.Scan refusal)
        → next_of mcus reader.old ≡ Err refusal }
{
    let mut mcu = [Block::zero(); MOST_SLOTS];
    let count = reader.mcu_blocks();
    let blocks = &mut mcu[..count];
    for _ in 0..mcus {
        reader.next_mcu(blocks)?;
        put_mcu(coder, segment, blocks)?;
        keep_pad(reader, pads)?;
    }
    Ok(())
}
