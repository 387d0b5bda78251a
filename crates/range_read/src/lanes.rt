// Segments of a container that are measured at the same time, each with memory of its own.
ghost use Rattle.std.specs.Prelude.{◌≡◌, ◌+◌, ◌<◌, ℕ, [], ◌∷◌, All, IfOk, length, min, slice_index_or, true, false};
ghost use Rattle.container_spec.specs.Meanings.{segment_in};
ghost use Rattle.container_spec.specs.Segments.{segment_output};
ghost use Rattle.range_read.specs.Lanes.{AreAllMeasured, AreMeasuredUpTo, IsLane, IsMeasuredAt, most_at_once};
ghost use Rattle.range_read.specs.Measures.{IsMeasure};

use crate::measure::{Measure, measure_begun};
use crate::one_scan::OneScan;
use crate::tasks::Task;
use allocation::{NoMemory, push, with_capacity};
use bit_list::Piece;
use handover::{Outcome, PadSum};
use segment_code::FileDecoder;
use std::alloc::Global;

/// How many segments are decoded at the same time at most: a decoder may need 12 MiB, and a container of 64 segments
/// needs no more than 2 KB to ask for one each.
pub(crate) const MOST_AT_ONCE: u8 = 16;

// The memory that measuring a segment needs, and the measure of the last one.
#[derive(Drop)]
pub(crate) struct Lane<'a> {
    pub(crate) decoder: FileDecoder<'a>,
    pub(crate) piece: Piece,
    pub(crate) measure: Measure,
}

// The segments that are measured at the same time: from number `first` on, one for each lane.
#[derive(Drop)]
pub(crate) struct Wave<'a, 'b> {
    pub(crate) scan: &'b OneScan<'a>,
    pub(crate) first: u8,
}

impl<'a, 'b> Task<Wave<'a, 'b>> for Lane<'a> {
    ghost use Rattle.range_read.specs.Lanes.{HasMeasured, IsLane};

    ghost ready = { λ lane wave. IsLane wave.scan.now wave.first lane };

    ghost done = { λ lane after wave index. HasMeasured wave.scan.now wave.first index lane after };

    fn perform(&mut self, wave: &Wave<'a, 'b>, index: usize) {
        let segment = usize::from(wave.first).saturating_add(index);
        if segment < usize::from(wave.scan.view().segments()) {
            self.measure = measure_one(
                &mut self.decoder,
                &mut self.piece,
                wave.scan,
                segment as u8,
            );
        }
    }
}

/// A lane for each segment, at most `MOST_AT_ONCE`, with all the memory that measuring needs.
pub(crate) fn lanes_of<'a>(alloc: Global, scan: &OneScan<'a>) -> Result<Vec<Lane<'a>>, NoMemory>
    ensures new { IfOk result (λ lanes. All (IsLane scan.now 0) lanes.items) }
    ensures count { IfOk result (λ lanes. length lanes.items
        ≡ min most_at_once (length scan.now.parts.handovers)) }
{
    let count = usize::from(scan.view().segments().min(MOST_AT_ONCE));
    let mut lanes = with_capacity(alloc, count)?;
    while lanes.len() < count {
        push(&mut lanes, lane_of(alloc, scan)?)?;
    }
    Ok(lanes)
}

// A lane that has measured nothing.
fn lane_of<'a>(alloc: Global, scan: &OneScan<'a>) -> Result<Lane<'a>, NoMemory>
    ensures { IfOk result (IsLane scan.now 0) }
{
    Ok(Lane {
        decoder: FileDecoder::prepare(alloc, scan.file().plans())?,
        piece: Piece::new(alloc)?,
        measure: Measure {
            length: 0,
            outcome: Outcome::Good {
                pads: PadSum::none(),
            },
        },
    })
}

/// The measure of one segment.
pub(crate) fn measure_one<'a>(
    decoder: &mut FileDecoder<'a>,
    piece: &mut Piece,
    scan: &OneScan<'a>,
    segment: u8,
) -> Measure
    requires within { segment < length scan.now.parts.handovers }
    requires plans { decoder.old.plans ≡ scan.now.plan ∷ [] }
    requires few { decoder.old.begun < 256 }
    ensures measured { IsMeasure
        (segment_output (segment_in scan.now.plan scan.now.parts segment)) result }
    ensures begun { decoder.new.begun ≡ decoder.old.begun + 1 }
    ensures plans { decoder.new.plans ≡ decoder.old.plans }
{
    decoder.begin(scan.file(), segment);
    measure_begun(decoder, piece)
}

/// Appends the measures of a wave, up to the first that ends badly, and returns whether none does.
pub(crate) fn put_wave(
    measures: &mut Vec<Measure>,
    lanes: &[Lane],
    wave: &Wave,
) -> Result<bool, NoMemory>
    requires before { AreMeasuredUpTo wave.now.scan.now wave.now.first measures.old.items }
    requires measured { (i : ℕ) (lane : Lane) → i < length lanes.now
        → IsMeasuredAt wave.now.scan.now (wave.now.first + i) (slice_index_or lanes.now i lane) }
    requires first { wave.now.first < length wave.now.scan.now.parts.handovers }
    ensures good { IfOk result (λ good. good ≡ true → AreMeasuredUpTo wave.now.scan.now
        (min (wave.now.first + length lanes.now) (length wave.now.scan.now.parts.handovers))
        measures.new.items) }
    ensures bad { IfOk result (λ good. good ≡ false
        → AreAllMeasured wave.now.scan.now measures.new.items) }
{
    let left = usize::from(wave.scan.view().segments() - wave.first);
    for i in 0..lanes.len().min(left) {
        let lane = &lanes[i];
        let outcome = lane.measure.outcome;
        push(measures, lane.measure)?;
        match outcome {
            Outcome::Good { .. } => {}
            Outcome::Bad(_) => return Ok(false),
        }
    }
    Ok(true)
}
