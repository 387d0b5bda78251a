// The container of a file of one scan or of several.
ghost use Rattle.std.specs.Prelude.{◌≡◌, ◌<◌, ◌≤◌, ◌^◌, [], ◌∷◌, length, replicate, IfOk, IsErrOf};
ghost use Rattle.jpeg_marker.specs.FirstWalks.{opening_walk};
ghost use Rattle.jpeg_marker.specs.declared.refusal.HeaderRefusal.{HeaderRefusal};
ghost use Rattle.scan_spec.specs.declared.refusal.ScanRefusal.{ScanRefusal};
ghost use Rattle.box_format.specs.Versions.{layout_of, most_segments};
ghost use Rattle.box_format.specs.declared.version.Version.TheVariants.{Fifth};
ghost use Rattle.container_spec.specs.ScansFiles.{FileIsRefused, HasSeveralScans, Header, IsContainerOf, IsContainerOfFile, Scan, share_of, version_for};
ghost use Rattle.lepton_encode.specs.FileHeads.{AreHeads};
ghost use Rattle.lepton_encode.specs.ScansMade.{AreCoded, CanHold, places_made};

use crate::coders::{Alone, InThreads, ScanCoder};
use crate::container::{CodedScan, write_coded};
use crate::error::{EncodeError, OneScanError};
use crate::heads::{Head, find_heads};
use crate::one_scan::read_one_scan;
use allocation::{NoMemory, push, with_capacity};
use box_format::Version;
use segment_code::Starts;
use std::alloc::Global;
use std::slice;
use std::thread::Threads;

/// The container of a file of one scan or of several, in at most `segments` segments in all, but at least one for each
/// scan: of version 2 for one scan, else that of several scans, each with an equal share. A refusal is the first one
/// from left to right: a header's, or that of the scan after it. At most 16 segments are coded at the same time, in
/// threads if these can be had.
#[inline(never)]
pub fn encode<R: Threads + Sync>(
    rt: &R,
    alloc: Global,
    bytes: &[u8],
    segments: u8,
) -> Result<Vec<u8>, EncodeError>
    requires length { length bytes.now < 2 ^ 32 }
    requires some { 0 < segments }
    requires few { segments ≤ most_segments }
    ensures made { IfOk result (λ made. IsContainerOfFile segments made.items bytes.now) }
    ensures header { (refusal : HeaderRefusal) → IsErrOf result (EncodeError.Header refusal)
        → FileIsRefused bytes.now (Header refusal) }
    ensures scan { (refusal : ScanRefusal) → IsErrOf result (EncodeError.Scan refusal)
        → FileIsRefused bytes.now (Scan refusal) }
{
    encode_by(&InThreads { rt }, alloc, bytes, segments)
}

/// What `encode` gives, on the calling thread: the segments are coded one after another.
#[inline(never)]
pub fn encode_alone(alloc: Global, bytes: &[u8], segments: u8) -> Result<Vec<u8>, EncodeError>
    requires length { length bytes.now < 2 ^ 32 }
    requires some { 0 < segments }
    requires few { segments ≤ most_segments }
    ensures made { IfOk result (λ made. IsContainerOfFile segments made.items bytes.now) }
    ensures header { (refusal : HeaderRefusal) → IsErrOf result (EncodeError.Header refusal)
        → FileIsRefused bytes.now (Header refusal) }
    ensures scan { (refusal : ScanRefusal) → IsErrOf result (EncodeError.Scan refusal)
        → FileIsRefused bytes.now (Scan refusal) }
{
    encode_by(&Alone, alloc, bytes, segments)
}

/// The container, of version 5, of a file of one scan, in at most `segments` segments: it keeps the place in the file
/// of each segment's first byte, so that a range of the file can be read from it. It has at most as many segments as
/// rows of MCUs. A refusal is the first one from left to right, or else that the file has several scans. At most 16
/// segments are coded at the same time, in threads if these can be had.
#[inline(never)]
pub fn encode_placed<R: Threads + Sync>(
    rt: &R,
    alloc: Global,
    bytes: &[u8],
    segments: u8,
) -> Result<Vec<u8>, OneScanError>
    requires length { length bytes.now < 2 ^ 32 }
    requires some { 0 < segments }
    requires few { segments ≤ (layout_of Fifth).most }
    ensures made { IfOk result (λ made. IsContainerOf Fifth (segments ∷ []) made.items bytes.now) }
    ensures header { (refusal : HeaderRefusal) → IsErrOf result (OneScanError.Header refusal)
        → FileIsRefused bytes.now (Header refusal) }
    ensures scan { (refusal : ScanRefusal) → IsErrOf result (OneScanError.Scan refusal)
        → FileIsRefused bytes.now (Scan refusal) }
    ensures many { IsErrOf result OneScanError.ManyScans → HasSeveralScans bytes.now }
{
    let plan = read_one_scan(alloc, bytes)?;
    let head = Head { place: 0, plan };
    let heads = slice::from_ref(&head);
    let coder = InThreads { rt };
    let made = encode_heads(&coder, alloc, Version::Fifth, bytes, heads, segments)?;
    Ok(made)
}

// The container of a file, whose scans are coded so.
#[inline(never)]
fn encode_by<C: ScanCoder>(
    coder: &C,
    alloc: Global,
    bytes: &[u8],
    segments: u8,
) -> Result<Vec<u8>, EncodeError>
    requires coder { C.ready coder.now }
    requires length { length bytes.now < 2 ^ 32 }
    requires some { 0 < segments }
    requires few { segments ≤ most_segments }
    ensures made { IfOk result (λ made. IsContainerOfFile segments made.items bytes.now) }
    ensures header { (refusal : HeaderRefusal) → IsErrOf result (EncodeError.Header refusal)
        → FileIsRefused bytes.now (Header refusal) }
    ensures scan { (refusal : ScanRefusal) → IsErrOf result (EncodeError.Scan refusal)
        → FileIsRefused bytes.now (Scan refusal) }
{
    let heads = find_heads(alloc, bytes)?;
    let heads = heads.as_slice();
    let count = heads.len();
    let version = version_for(count);
    let share = share_of(segments, count);
    let made = encode_heads(coder, alloc, version, bytes, heads, share)?;
    Ok(made)
}

// The version for this many scans.
fn version_for(scans: usize) -> Version
    ensures { result ≡ version_for scans }
{
    if scans == 1 {
        Version::Second
    } else {
        Version::Fourth
    }
}

// How many segments each of these scans may have.
fn share_of(segments: u8, scans: usize) -> u8
    requires { 0 < scans }
    ensures { result ≡ share_of segments scans }
{
    let share = segments as usize / scans;
    share.max(1) as u8
}

// The container in a version of the file with these headers, with at most `share` segments for each scan. The one
// refusal is a scan's.
#[inline(never)]
fn encode_heads<C: ScanCoder>(
    coder: &C,
    alloc: Global,
    version: Version,
    bytes: &[u8],
    heads: &[Head],
    share: u8,
) -> Result<Vec<u8>, EncodeError>
    requires coder { C.ready coder.now }
    requires heads { AreHeads opening_walk bytes.now heads.now }
    requires version { CanHold version (length heads.now) share }
    requires length { length bytes.now < 2 ^ 32 }
    requires some { 0 < share }
    ensures made { IfOk result (λ made.
        IsContainerOf version (replicate (length heads.now) share) made.items bytes.now) }
    ensures header { (refusal : HeaderRefusal) → IsErrOf result (EncodeError.Header refusal) → ⊥ }
    ensures scan { (refusal : ScanRefusal) → IsErrOf result (EncodeError.Scan refusal)
        → FileIsRefused bytes.now (Scan refusal) }
{
    let coded = code_scans(coder, alloc, bytes, heads, share)?;
    let made = write_coded(alloc, version, bytes, heads, coded)?;
    Ok(made)
}

// The scans of these headers, coded with at most `share` segments each. The one refusal is a scan's, after scans that
// are accepted.
#[inline(never)]
fn code_scans<C: ScanCoder>(
    coder: &C,
    alloc: Global,
    bytes: &[u8],
    heads: &[Head],
    share: u8,
) -> Result<Vec<CodedScan>, EncodeError>
    requires coder { C.ready coder.now }
    requires heads { AreHeads opening_walk bytes.now heads.now }
    requires some { 0 < share }
    ensures coded { IfOk result (λ coded. AreCoded share bytes.now heads.now coded.items) }
    ensures header { (refusal : HeaderRefusal) → IsErrOf result (EncodeError.Header refusal) → ⊥ }
    ensures scan { (refusal : ScanRefusal) → IsErrOf result (EncodeError.Scan refusal)
        → FileIsRefused bytes.now (Scan refusal) }
{
    let mut coded = Vec::new(alloc);
    for head in heads {
        let (starts, streams) = coder.code_scan(alloc, &head.plan, bytes, share)?;
        let places = places_of(alloc, &starts)?;
        push(
            &mut coded,
            CodedScan {
                starts,
                places,
                streams,
            },
        )?;
    }
    Ok(coded)
}

// The place in the file of each segment's first byte, and after them that of the scan's end.
fn places_of(alloc: Global, starts: &Starts) -> Result<Vec<u64>, NoMemory>
    requires { length starts.now.rows < 2 ^ 32 }
    ensures { IfOk result (λ places. places.items ≡ places_made starts.now) }
{
    let segments = starts.segments();
    let mut places = with_capacity(alloc, segments as usize + 1)?;
    for segment in 0..segments {
        push(&mut places, starts.place(segment) as u64)?;
    }
    push(&mut places, starts.trailer() as u64)?;
    Ok(places)
}
