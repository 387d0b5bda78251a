// A file whose chunks are cut, each into a container of its own.
ghost use Rattle.std.specs.Prelude.{◌≡◌, ◌-◌, ◌*◌, ◌++◌, ◌<◌, ◌≤◌, ◌^◌, drop, length, IfNone, IfOk, IfSome, IsErrOf};
ghost use Rattle.byte_window.specs.Slices.{chunk_from, chunk_to, slice};
ghost use Rattle.jpeg_marker.specs.Plans.{PlanFields};
ghost use Rattle.jpeg_marker.specs.declared.refusal.HeaderRefusal.{HeaderRefusal};
ghost use Rattle.scan_spec.specs.declared.refusal.ScanRefusal.{ScanRefusal};
ghost use Rattle.box_format.specs.Containers.{scan_streams};
ghost use Rattle.box_format.specs.Given.{parts_given};
ghost use Rattle.box_format.specs.Single.{IsBox, box_bytes};
ghost use Rattle.box_format.specs.Versions.{layout_of};
ghost use Rattle.box_format.specs.declared.version.Version.TheVariants.{Third};
ghost use Rattle.container_spec.specs.Chunks.{IsChunkOf, IsOneScanFile};
ghost use Rattle.container_spec.specs.ScansFiles.{FileIsRefused, HasSeveralScans, Header, Scan};

use crate::error::CutError;
use crate::rows::{chunk_between, handovers_of};
use allocation::NoMemory;
use box_format::{Parts, Version, write_front};
use jpeg_marker::Plan;
use lepton_encode::{Alone, InThreads, ScanCoder, joined_after, read_one_scan};
use segment_code::{Starts, find_rows};
use std::alloc::Global;
use std::marker::Model;
use std::slice;
use std::thread::Threads;

/// A file whose chunks are cut, one after another or in any order: its header's plan, and where each row of MCUs of its
/// scan starts. The scan is read once, for all chunks; a chunk's rows are read again as its segments are coded.
///
/// Clauses see the file's bytes.
#[derive(Drop)]
pub struct ChunkCutter<'a> {
    plan: Plan,
    bytes: &'a [u8],
    starts: Starts,
}

impl<'a> Model for ChunkCutter<'a> {
    ghost use Rattle.std.specs.Prelude.{List, ℕ};
    ghost use Rattle.container_spec.specs.ScansFiles.{FileIsRefused, HasSeveralScans, Header, Scan};
    ghost use Rattle.chunk_cut.specs.Found.{IsCutter};

    ghost Value = { List ℕ };

    ghost view = { λ c. c.bytes.now };

    ghost invariant = { IsCutter };
}

impl<'a> ChunkCutter<'a> {
    /// Reads the header and the scan of a file of one scan. A refusal is the first one from left to right, or else that
    /// the file has several scans; `NoChunk` isn't among them.
    #[inline(never)]
    pub fn prepare(alloc: Global, bytes: &'a [u8]) -> Result<ChunkCutter<'a>, CutError>
        requires length { length bytes.now < 2 ^ 32 }
        ensures bytes { IfOk result (λ cutter. cutter ≡ bytes.entry.now) }
        ensures file { IfOk result (λ cutter. IsOneScanFile bytes.entry.now) }
        ensures header { (refusal : HeaderRefusal) → IsErrOf result (CutError.Header refusal)
            → FileIsRefused bytes.entry.now (Header refusal) }
        ensures scan { (refusal : ScanRefusal) → IsErrOf result (CutError.Scan refusal)
            → FileIsRefused bytes.entry.now (Scan refusal) }
        ensures many { IsErrOf result CutError.ManyScans → HasSeveralScans bytes.entry.now }
        ensures chunk { ¬ IsErrOf result CutError.NoChunk }
    {
        let plan = read_one_scan(alloc, bytes)?;
        let starts = find_rows(alloc, &plan, bytes)?;
        Ok(ChunkCutter {
            plan,
            bytes,
            starts,
        })
    }

    /// The container, of version 3, of one of the file's chunks of `size` bytes, the one with number `index`, of which
    /// the first is 0; none if the file ends before it. It has at most `segments` segments, and at most as many as the
    /// chunk has rows. The coder is `InThreads`, for at most 16 of them at the same time, or `Alone`, for one after
    /// another on the calling thread.
    #[inline(never)]
    pub fn cut<C: ScanCoder>(
        &self,
        coder: &C,
        alloc: Global,
        segments: u8,
        size: u64,
        index: u64,
    ) -> Result<Option<Vec<u8>>, NoMemory>
        requires coder { C.ready coder.now }
        requires some { 0 < segments }
        requires few { segments ≤ (layout_of Third).most }
        requires size { 0 < size }
        ensures made { IfOk result (λ cut. IfSome cut
            (λ made. IsChunkOf segments size index made.items self.now)) }
        ensures none { IfOk result (λ cut. IfNone cut (length self.now ≤ index * size)) }
    {
        let Some((from, to)) = span_of(self.bytes.len(), size, index) else {
            return Ok(None);
        };
        let chunk = chunk_between(&self.starts, from, to);
        let count = u32::from(segments).min(chunk.to - chunk.from);
        let handovers = handovers_of(alloc, &self.plan, &self.starts, chunk, count)?;
        let streams = coder.code_rows(
            alloc,
            &self.plan,
            self.bytes,
            &self.starts,
            Some(chunk),
            count,
        )?;
        let (header, _) = self.bytes.split_at(self.plan.header_length());
        let trailer = trailer_between(self.bytes, self.starts.trailer(), from, to);
        let front = front_of(
            alloc,
            &Parts {
                version: Version::Third,
                chunk: Some(chunk),
                places: None,
                pad: self.starts.pad(),
                header,
                trailer,
                handovers: handovers.as_slice(),
                streams: streams.as_slice(),
            },
        )?;
        let made = joined_after(alloc, front, streams)?;
        Ok(Some(made))
    }

    /// How many chunks of `size` bytes the file has; the last one may have fewer bytes.
    pub fn chunks(&self, size: u64) -> u64
        requires { 0 < size }
        ensures all { length self.now ≤ result * size }
        ensures last { 0 < result → (result - 1) * size < length self.now }
    {
        let length = self.bytes.len() as u64;
        let whole = length / size;
        if whole * size < length {
            whole + 1
        } else {
            whole
        }
    }
}

/// The container, of version 3, of one of a file's chunks of `size` bytes, as `ChunkCutter::cut` gives it. A refusal is
/// the first one from left to right, or else that the file has several scans, or else that it ends before the chunk.
#[inline(never)]
pub fn cut_chunk<R: Threads + Sync>(
    rt: &R,
    alloc: Global,
    bytes: &[u8],
    segments: u8,
    size: u64,
    index: u64,
) -> Result<Vec<u8>, CutError>
    requires length { length bytes.now < 2 ^ 32 }
    requires some { 0 < segments }
    requires few { segments ≤ (layout_of Third).most }
    requires size { 0 < size }
    ensures made { IfOk result (λ made. IsChunkOf segments size index made.items bytes.now) }
    ensures header { (refusal : HeaderRefusal) → IsErrOf result (CutError.Header refusal)
        → FileIsRefused bytes.now (Header refusal) }
    ensures scan { (refusal : ScanRefusal) → IsErrOf result (CutError.Scan refusal)
        → FileIsRefused bytes.now (Scan refusal) }
    ensures many { IsErrOf result CutError.ManyScans → HasSeveralScans bytes.now }
    ensures none { IsErrOf result CutError.NoChunk
        → IsOneScanFile bytes.now × (length bytes.now ≤ index * size) }
{
    let cutter = match ChunkCutter::prepare(alloc, bytes) {
        Ok(cutter) => cutter,
        Err(error) => return Err(error),
    };
    match cutter.cut(&InThreads { rt }, alloc, segments, size, index)? {
        Some(made) => Ok(made),
        None => Err(CutError::NoChunk),
    }
}

/// What `cut_chunk` gives, on the calling thread.
#[inline(never)]
pub fn cut_chunk_alone(
    alloc: Global,
    bytes: &[u8],
    segments: u8,
    size: u64,
    index: u64,
) -> Result<Vec<u8>, CutError>
    requires length { length bytes.now < 2 ^ 32 }
    requires some { 0 < segments }
    requires few { segments ≤ (layout_of Third).most }
    requires size { 0 < size }
    ensures made { IfOk result (λ made. IsChunkOf segments size index made.items bytes.now) }
    ensures header { (refusal : HeaderRefusal) → IsErrOf result (CutError.Header refusal)
        → FileIsRefused bytes.now (Header refusal) }
    ensures scan { (refusal : ScanRefusal) → IsErrOf result (CutError.Scan refusal)
        → FileIsRefused bytes.now (Scan refusal) }
    ensures many { IsErrOf result CutError.ManyScans → HasSeveralScans bytes.now }
    ensures none { IsErrOf result CutError.NoChunk
        → IsOneScanFile bytes.now × (length bytes.now ≤ index * size) }
{
    let cutter = match ChunkCutter::prepare(alloc, bytes) {
        Ok(cutter) => cutter,
        Err(error) => return Err(error),
    };
    match cutter.cut(&Alone, alloc, segments, size, index)? {
        Some(made) => Ok(made),
        None => Err(CutError::NoChunk),
    }
}

// All of a chunk's container but the streams.
fn front_of(alloc: Global, parts: &Parts) -> Result<Vec<u8>, NoMemory>
    requires { (plan : PlanFields) × IsBox plan (parts_given parts.now)
        × ((parts_given parts.now).version ≡ Third) }
    ensures { IfOk result (λ front. front.items ++ scan_streams (parts_given parts.now)
        ≡ box_bytes (parts_given parts.now)) }
{
    let parts = slice::from_ref(parts);
    let front = write_front(alloc, Version::Third, parts)?;
    Ok(front)
}

// From which place to before which one chunk `index` of `size` bytes is, in a file of this length.
fn span_of(length: usize, size: u64, index: u64) -> Option<(usize, usize)>
    ensures from { IfSome result (λ span. span.0 ≡ chunk_from size index) }
    ensures to { IfSome result (λ span. span.1 ≡ chunk_to length size index) }
    ensures some { IfSome result (λ span. span.0 < length) }
    ensures none { IfNone result (length ≤ index * size) }
{
    let length = length as u64;
    let from = index.checked_mul(size)?;
    if from >= length {
        return None;
    }
    let to = from.saturating_add(size).min(length);
    Some((from as usize, to as usize))
}

// What of a file's trailer lies from place `from` to before place `to`.
fn trailer_between(bytes: &[u8], trailer: usize, from: usize, to: usize) -> &[u8]
    requires trailer { trailer ≤ length bytes.now }
    requires order { from ≤ to }
    requires within { to ≤ length bytes.now }
    ensures { result.now ≡ slice (from - trailer) (to - trailer) (drop trailer bytes.now) }
{
    let (_, after) = bytes.split_at(trailer);
    let (upto, _) = after.split_at(to.saturating_sub(trailer));
    let (_, part) = upto.split_at(from.saturating_sub(trailer));
    part
}
