// From a container to the same one with the places of its segments.
ghost use Rattle.std.specs.Prelude.{ℕ, ◌≡◌, IfOk, IsErrOf, List, None};
ghost use Rattle.handover.specs.declared.outcome.StreamFault.{StreamFault};
ghost use Rattle.box_format.specs.Checks.{IsRefusedBy};
ghost use Rattle.box_format.specs.Single.{IsBoxOf};
ghost use Rattle.box_format.specs.Versions.{IsRead, indexable};
ghost use Rattle.box_format.specs.declared.refusal.BoxRefusal.{BoxRefusal};
ghost use Rattle.container_spec.specs.Indexed.{outputs_of, places_found};
ghost use Rattle.container_spec.specs.Meanings.{Faulty, PadSpelled, Restored};
ghost use Rattle.container_spec.specs.Portions.{meaning_of};
ghost use Rattle.range_read.specs.IndexEnds.{IndexEnds, IsIndexOf};
ghost use Rattle.range_read.specs.Measures.{AreMeasures};

use crate::error::IndexError;
use crate::measure::{Measure, measure_all, measure_in_turn};
use crate::one_scan::OneScan;
use allocation::{push, with_capacity};
use box_format::{BoxView, ReadError, Version, write_placed};
use handover::{Outcome, PadSum};
use std::alloc::Global;
use std::thread::Threads;

// The versions that are indexed.
const INDEXABLE: [Version; 3] = [Version::First, Version::Second, Version::Fifth];

/// The same container in version 5, which keeps the place in the file of each segment's first byte: of a container of
/// version 1, 2 or 5 that stands for a file. The segments are decoded in threads, if these can be had, at most 16 at
/// the same time. The memory for that is allocated before the first thread starts. A refusal is that of the container,
/// or else its first fault, or else that its pad bits are spelled in another way than a file's.
#[inline(never)]
pub fn index<R: Threads + Sync>(rt: &R, alloc: Global, bytes: &[u8]) -> Result<Vec<u8>, IndexError>
    ensures made { IfOk result (λ made. IsIndexOf made.items bytes.now) }
    ensures refused { (refusal : BoxRefusal) → IsErrOf result (IndexError.Box refusal)
        → IsRefusedBy indexable bytes.now refusal }
    ensures fault { (fault : StreamFault) → IsErrOf result (IndexError.Fault fault)
        → IndexEnds bytes.now (Faulty fault) }
    ensures spelling { IsErrOf result IndexError.PadSpelling → IndexEnds bytes.now PadSpelled }
{
    let scan = match OneScan::read(alloc, bytes, &INDEXABLE) {
        Ok(scan) => scan,
        Err(ReadError::Box(refusal)) => return Err(IndexError::Box(refusal)),
        Err(ReadError::NoMemory(short)) => return Err(IndexError::NoMemory(short)),
    };
    let measures = measure_all(rt, alloc, &scan)?;
    index_by(alloc, &scan, measures)
}

/// What `index` gives, on the calling thread: the segments are decoded one after another, with the memory for one.
#[inline(never)]
pub fn index_alone(alloc: Global, bytes: &[u8]) -> Result<Vec<u8>, IndexError>
    ensures made { IfOk result (λ made. IsIndexOf made.items bytes.now) }
    ensures refused { (refusal : BoxRefusal) → IsErrOf result (IndexError.Box refusal)
        → IsRefusedBy indexable bytes.now refusal }
    ensures fault { (fault : StreamFault) → IsErrOf result (IndexError.Fault fault)
        → IndexEnds bytes.now (Faulty fault) }
    ensures spelling { IsErrOf result IndexError.PadSpelling → IndexEnds bytes.now PadSpelled }
{
    let scan = match OneScan::read(alloc, bytes, &INDEXABLE) {
        Ok(scan) => scan,
        Err(ReadError::Box(refusal)) => return Err(IndexError::Box(refusal)),
        Err(ReadError::NoMemory(short)) => return Err(IndexError::NoMemory(short)),
    };
    let measures = measure_in_turn(alloc, &scan)?;
    index_by(alloc, &scan, measures)
}

// What `index` gives of a container that was read, by the measures of its segments.
#[inline(never)]
fn index_by(alloc: Global, scan: &OneScan, measures: Vec<Measure>) -> Result<Vec<u8>, IndexError>
    requires whole { scan.now.parts.chunk ≡ None }
    requires measures { AreMeasures (outputs_of scan.now.plan scan.now.parts) measures.items }
    ensures made { (bytes : List ℕ) → IsBoxOf scan.now.plan scan.now.parts bytes
        → IsRead indexable scan.now.parts.version
        → IfOk result (λ made. IsIndexOf made.items bytes) }
    ensures fault { (bytes : List ℕ) (fault : StreamFault)
        → IsBoxOf scan.now.plan scan.now.parts bytes → IsRead indexable scan.now.parts.version
        → IsErrOf result (IndexError.Fault fault) → IndexEnds bytes (Faulty fault) }
    ensures spelling { (bytes : List ℕ) → IsBoxOf scan.now.plan scan.now.parts bytes
        → IsRead indexable scan.now.parts.version
        → IsErrOf result IndexError.PadSpelling → IndexEnds bytes PadSpelled }
    ensures checked { (refusal : BoxRefusal) → ¬ IsErrOf result (IndexError.Box refusal) }
{
    let places = places_by(alloc, scan.view(), measures)?;
    let made = write_placed(alloc, scan.view(), places.as_slice())?;
    Ok(made)
}

// The places of a container's segments and of its scan's end, by the measures of the segments.
#[inline(never)]
fn places_by(alloc: Global, view: &BoxView, measures: Vec<Measure>) -> Result<Vec<u64>, IndexError>
    requires whole { view.now.parts.chunk ≡ None }
    requires measures { AreMeasures (outputs_of view.now.plan view.now.parts) measures.items }
    ensures places { IfOk result (λ places.
        places.items ≡ places_found view.now.plan view.now.parts) }
    ensures restored { IfOk result (λ _.
        (meaning_of view.now.plan view.now.parts).verdict ≡ Restored) }
    ensures fault { (fault : StreamFault) → IsErrOf result (IndexError.Fault fault)
        → (meaning_of view.now.plan view.now.parts).verdict ≡ Faulty fault }
    ensures spelling { IsErrOf result IndexError.PadSpelling
        → (meaning_of view.now.plan view.now.parts).verdict ≡ PadSpelled }
    ensures checked { (refusal : BoxRefusal) → ¬ IsErrOf result (IndexError.Box refusal) }
{
    let mut places = with_capacity(alloc, usize::from(view.segments()) + 1)?;
    let mut place = view.header().len() as u64;
    let mut pads = PadSum::none();
    for measure in measures {
        push(&mut places, place)?;
        match measure.outcome {
            Outcome::Good { pads: more } => {
                place += measure.length;
                pads = pads.with(&more);
            }
            Outcome::Bad(fault) => return Err(IndexError::Fault(fault)),
        }
    }
    push(&mut places, place)?;
    if view.pad().is_spelled(&pads) {
        Ok(places)
    } else {
        Err(IndexError::PadSpelling)
    }
}
