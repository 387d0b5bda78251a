// How many bytes each segment of a container has, and how it ends.
ghost use Rattle.std.specs.Prelude.{◌≡◌, ◌<◌, ◌^◌, ◌∷◌, ◌++◌, [], IfOk, OnOk, true};
ghost use Rattle.std.specs.Mem.{type_size};
ghost use Rattle.container_spec.specs.Indexed.{outputs_of};
ghost use Rattle.container_spec.specs.Segments.{Output};
ghost use Rattle.segment_code.specs.FileDecoding.{FileOwes, steps_left};
ghost use Rattle.range_read.specs.Measures.{AreMeasures, IsMeasure};

use crate::lanes::{MOST_AT_ONCE, Wave, lanes_of, measure_one, put_wave};
use crate::one_scan::OneScan;
use crate::tasks::perform_all;
use allocation::{NoMemory, push, with_capacity};
use bit_list::Piece;
use handover::Outcome;
use segment_code::{FileDecoder, Step};
use std::alloc::Global;
use std::thread::Threads;

/// How many bytes a segment has, which is of no matter if it ends badly, and how it ends.
#[derive(Clone, Copy)]
pub(crate) struct Measure {
    pub(crate) length: u64,
    pub(crate) outcome: Outcome,
}

/// The measure of each segment of a container, in order, up to the first that ends badly. At most `MOST_AT_ONCE`
/// segments are decoded at the same time, in threads if these can be had, and none is begun after those among which one
/// ends badly. All memory is allocated before a thread starts. The one error is out of memory.
pub(crate) fn measure_all<R: Threads + Sync>(
    rt: &R,
    alloc: Global,
    scan: &OneScan,
) -> Result<Vec<Measure>, NoMemory>
    ensures { IfOk result (λ measures.
        AreMeasures (outputs_of scan.now.plan scan.now.parts) measures.items) }
{
    let segments = scan.view().segments();
    let mut measures = with_capacity(alloc, usize::from(segments))?;
    let mut lanes = lanes_of(alloc, scan)?;
    let mut first = 0;
    while first < segments {
        let wave = Wave { scan, first };
        perform_all(rt, lanes.as_mut_slice(), &wave);
        if !put_wave(&mut measures, lanes.as_slice(), &wave)? {
            return Ok(measures);
        }
        first = first.saturating_add(MOST_AT_ONCE);
    }
    Ok(measures)
}

/// What `measure_all` gives, on the calling thread, with the memory for one segment: the first segment that ends badly
/// is the last one that is decoded.
pub(crate) fn measure_in_turn(alloc: Global, scan: &OneScan) -> Result<Vec<Measure>, NoMemory>
    ensures { IfOk result (λ measures.
        AreMeasures (outputs_of scan.now.plan scan.now.parts) measures.items) }
{
    let segments = scan.view().segments();
    let mut measures = with_capacity(alloc, usize::from(segments))?;
    let mut decoder = FileDecoder::prepare(alloc, scan.file().plans())?;
    let mut piece = Piece::new(alloc)?;
    for segment in 0..segments {
        let measure = measure_one(&mut decoder, &mut piece, scan, segment);
        let outcome = measure.outcome;
        keep(&mut measures, &measure)?;
        match outcome {
            Outcome::Good { .. } => {}
            Outcome::Bad(_) => return Ok(measures),
        }
    }
    Ok(measures)
}

// Appends a copy of an item.
fn keep<T: Copy + Drop>(list: &mut Vec<T>, item: &T) -> Result<(), NoMemory>
    requires { 0 < type_size T.row }
    ensures items { OnOk result (list.new.items ≡ list.old.items ++ item.now ∷ []) }
{
    push(list, *item)
}

// The measure of the segment that was begun: it is decoded, and its bytes are counted.
pub(crate) fn measure_begun(decoder: &mut FileDecoder, piece: &mut Piece) -> Measure
    requires running { decoder.old.running ≡ true }
    requires owes { (output : Output) × FileOwes decoder.old output.0 output.1 }
    requires few { steps_left decoder.old < 2 ^ 33 }
    ensures measured { (output : Output) → FileOwes decoder.old output.0 output.1
        → IsMeasure output result }
    ensures begun { decoder.new.begun ≡ decoder.old.begun }
    ensures plans { decoder.new.plans ≡ decoder.old.plans }
{
    let mut length = 0;
    loop {
        let step = decoder.step(piece);
        length += piece.len() as u64;
        match step {
            Step::More => {}
            Step::Done { pads } => {
                return Measure {
                    length,
                    outcome: Outcome::Good { pads },
                };
            }
            Step::Fault(fault) => {
                return Measure {
                    length,
                    outcome: Outcome::Bad(fault),
                };
            }
        }
    }
}
