// Segments in lanes, each of which one thread codes.
ghost use Rattle.std.specs.Prelude.{◌≡◌, ◌+◌, ◌*◌, ◌^◌, ◌<◌, ◌≤◌, ◌++◌, ◌∷◌, [], All, IfOk, OnOk, IsErrOf, Some, None, length, map, vec_capacity, vec_len};
ghost use Rattle.std.specs.Mem.{type_size};
ghost use Rattle.scan_spec.specs.declared.refusal.ScanRefusal.{ScanRefusal};
ghost use Rattle.segment_code.specs.declared.error.ScanError.TheVariants.{Scan};
ghost use Rattle.segment_code.specs.ReadyParts.{IsReady, ReadyFields};
ghost use Rattle.segment_encode.specs.Lanes.{AreMade, AreOfAFile, CanCode, IsNewLane, in_a_lane, most_lanes};

use crate::tasks::{Coding, Task};
use allocation::{NoMemory, push, with_capacity};
use jpeg_marker::Plan;
use segment_code::{ReadyPart, ScanError, SegmentEncoder};
use std::alloc::Global;

/// How many segments are coded at the same time at most: coding one may need 12 MiB beside its stream.
pub(crate) const MOST_LANES: u32 = 16;

// How many blocks are worth a thread: a photograph of 64 KiB has about as many.
const WORTH_A_THREAD: u32 = 8_192;

/// How many of these segments of a scan of `blocks` blocks a lane has, if there is a lane for each `WORTH_A_THREAD`
/// blocks, but one at least and `MOST_LANES` at most.
pub(crate) fn in_a_lane(segments: u32, blocks: u32) -> u32
    ensures value { result ≡ in_a_lane segments blocks }
    ensures some { 0 < segments → 0 < result }
    ensures most { segments ≤ most_lanes * result }
{
    let lanes = (blocks / WORTH_A_THREAD).max(1).min(MOST_LANES);
    segments.div_ceil(lanes)
}

/// Segments that are coded one after another, with all the memory that this needs, and their streams so far. It stops
/// at the first error, which it keeps.
#[derive(Drop)]
pub(crate) struct Lane<'a> {
    parts: Vec<ReadyPart<'a>>,
    encoder: SegmentEncoder,
    streams: Vec<Vec<u8>>,
    error: Option<ScanError>,
}

impl<'a> Task for Lane<'a> {
    ghost use Rattle.segment_encode.specs.Lanes.{HasCoded, IsNewLane};

    ghost ready = { λ lane. IsNewLane lane };

    ghost done = { λ lane after. HasCoded lane after };

    fn perform(&mut self) {
        if let Err(error) = code_parts(&mut self.parts, &mut self.encoder, &mut self.streams) {
            self.error = Some(error);
        }
    }
}

impl<'a> Coding for Lane<'a> {
    ghost use Rattle.segment_encode.specs.Lanes.{LaneMakes, LaneRefused};

    ghost makes = { λ lane streams. LaneMakes lane streams };

    ghost refused = { λ lane. LaneRefused lane };

    fn streams(self) -> Result<Vec<Vec<u8>>, ScanError> {
        let Lane {
            parts: _,
            encoder: _,
            streams,
            error,
        } = self;
        match error {
            Some(error) => Err(error),
            None => Ok(streams),
        }
    }
}

impl<'a> Lane<'a> {
    /// The lane of segments of a plan that are ready. The one error is out of memory.
    #[inline(never)]
    pub(crate) fn prepare(
        alloc: Global,
        plan: &Plan,
        parts: Vec<ReadyPart<'a>>,
    ) -> Result<Lane<'a>, NoMemory>
        requires ready { All IsReady parts.items }
        requires plan { All (λ (r : ReadyFields). r.part.plan ≡ plan.now) parts.items }
        requires few { length parts.items < 2 ^ 32 }
        ensures new { IfOk result IsNewLane }
        ensures parts { IfOk result (λ lane. lane.parts.items ≡ parts.entry.items) }
    {
        let encoder = SegmentEncoder::prepare(alloc, plan)?;
        let streams = with_capacity(alloc, parts.len())?;
        Ok(Lane {
            parts,
            encoder,
            streams,
            error: None,
        })
    }
}

// Codes segments in order, up to the first error, with one encoder.
fn code_parts<'a>(
    parts: &mut Vec<ReadyPart<'a>>,
    encoder: &mut SegmentEncoder,
    streams: &mut Vec<Vec<u8>>,
) -> Result<(), ScanError>
    requires ready { All (CanCode encoder.old) parts.old.items }
    requires none { streams.old.items ≡ [] }
    requires room { length parts.old.items ≤ vec_capacity streams.old }
    ensures made { OnOk result (AreMade parts.old.items (map (λ v. v.items) streams.new.items)) }
    ensures refused { (refusal : ScanRefusal) → IsErrOf result (Scan refusal)
        → AreOfAFile parts.old.items → ⊥ }
{
    for segment in 0..parts.len() {
        let stream = parts[segment].encode(encoder)?;
        keep(streams, stream)?;
    }
    Ok(())
}

// Appends an item. There is room for it, so no memory is asked for.
fn keep<T: Drop>(list: &mut Vec<T>, item: T) -> Result<(), NoMemory>
    requires sized { 0 < type_size T.row }
    requires room { vec_len list.old < vec_capacity list.old }
    ensures items { list.new.items ≡ list.old.items ++ item ∷ [] }
    ensures len { vec_len list.new ≡ vec_len list.old + 1 }
    ensures capacity { vec_capacity list.old ≤ vec_capacity list.new }
{
    push(list, item)
}
