// Where the segments of a file start, in one pass over its scan.
ghost use Rattle.std.specs.Prelude.{◌≡◌, ◌+◌, ◌<◌, ◌≤◌, ℤ, List, true, false, None, Ok, Err, IfOk, OnOk, IsErrOf};
ghost use Rattle.std.specs.List.{All, range_with_len};
ghost use Rattle.jpeg_marker.specs.AcceptedPlans.{CanScan};
ghost use Rattle.scan_spec.specs.Items.{Refuses};
ghost use Rattle.scan_spec.specs.ScanCalls.{ScanReader};
ghost use Rattle.scan_spec.specs.ScanReading.{mcu_at};
ghost use Rattle.scan_spec.specs.Slots.{shape_of};
ghost use Rattle.scan_spec.specs.declared.refusal.ScanRefusal.{ScanRefusal};
ghost use Rattle.scan_decode.specs.Excerpts.{IsExcerpt};
ghost use Rattle.segment_code.specs.CodedMcus.{AreReadOn, next_of};
ghost use Rattle.segment_code.specs.FoundPads.{FoundPads, pads_through};
ghost use Rattle.segment_code.specs.Starting.{AreStarts};

use crate::error::ScanError;
use crate::pads::PadsFound;
use crate::pass::ScanPass;
use crate::starts::Starts;
use allocation::NoMemory;
use huff_table::PlanCodes;
use jpeg_marker::Plan;
use scan_decode::{Excerpt, Reader};
use std::alloc::Global;

/// Where the segments of the scan of a plan start, which follows the bytes that the plan has as its header: at most
/// `segments`, and at most as many as rows of MCUs. One pass over the scan; memory is for the starts alone.
pub fn find_starts(
    alloc: Global,
    plan: &Plan,
    bytes: &[u8],
    segments: u32,
) -> Result<Starts, ScanError>
    requires plan { CanScan bytes.now plan.now }
    requires some { 0 < segments }
    ensures starts { IfOk result (λ starts. AreStarts plan.now bytes.now segments starts) }
    ensures refused { (refusal : ScanRefusal) → IsErrOf result (ScanError.Scan refusal)
        → Refuses (shape_of plan.now) bytes.now plan.now.header_length refusal }
{
    let codes = PlanCodes::build(alloc, plan)?;
    let mut pass = ScanPass::start(alloc, plan, &codes, bytes, segments)?;
    for _ in 0..pass.left() {
        pass.skip()?;
    }
    Ok(pass.end()?)
}

/// Where each row of MCUs of a file starts, if it is a segment of its own. A cut at any rows needs no other starts.
pub fn find_rows(alloc: Global, plan: &Plan, bytes: &[u8]) -> Result<Starts, ScanError>
    requires plan { CanScan bytes.now plan.now }
    ensures starts { IfOk result (λ starts. AreStarts plan.now bytes.now plan.now.down starts) }
    ensures rows { IfOk result (λ starts. starts.rows ≡ range_with_len 0 plan.now.down) }
    ensures refused { (refusal : ScanRefusal) → IsErrOf result (ScanError.Scan refusal)
        → Refuses (shape_of plan.now) bytes.now plan.now.header_length refusal }
{
    find_starts(alloc, plan, bytes, plan.down())
}

/// Reads the next `mcus` MCUs, and keeps the pad bit of each interval that ends. It goes past the excerpts that the
/// reader meets; they are in the order of their places.
pub(crate) fn read_mcus<'a>(
    reader: &mut Reader<'a>,
    pads: &mut PadsFound,
    excerpts: &[Excerpt<'a>],
    mcus: u32,
) -> Result<(), ScanError>
    requires start { reader.old.stop ≡ None }
    requires excerpts { All (IsExcerpt reader.old.shape reader.old.bytes) excerpts.now }
    requires count { reader.old.at.count + mcus ≤ reader.old.shape.mcus }
    ensures read { OnOk result ((read : List (List (List ℤ)))
        × AreReadOn mcus reader.old reader.new read) }
    ensures pads { OnOk result (pads.new ≡ pads_through mcus reader.old pads.old) }
    ensures refused { (refusal : ScanRefusal) → IsErrOf result (ScanError.Scan refusal)
        → next_of mcus reader.old ≡ Err refusal }
{
    let mut left = mcus;
    let mut next = 0;
    while left > 0 {
        while next < excerpts.len() && excerpts[next].place() < reader.place() {
            next += 1;
        }
        if next < excerpts.len() && skip_excerpt(reader, &excerpts[next], left) {
            left -= excerpts[next].mcus();
            next += 1;
        } else {
            reader.skip_mcu()?;
            keep_pad(reader, pads)?;
            left -= 1;
        }
    }
    Ok(())
}

// Goes past an excerpt if the reader meets it and it has no more MCUs than are wanted, and answers whether it did.
fn skip_excerpt<'a>(reader: &mut Reader<'a>, excerpt: &Excerpt<'a>, left: u32) -> bool
    requires is { IsExcerpt reader.old.shape reader.old.bytes excerpt.now }
    ensures few { result ≡ true → excerpt.now.mcus ≤ left }
    ensures read { result ≡ true → (mcus : List (List (List ℤ)))
        × AreReadOn excerpt.now.mcus reader.old reader.new mcus }
    ensures pads { result ≡ true → (pads : FoundPads)
        → pads ≡ pads_through excerpt.now.mcus reader.old pads }
    ensures stays { result ≡ false → reader.new ≡ reader.old }
{
    excerpt.mcus() <= left && reader.skip_excerpt(excerpt)
}

/// Keeps the pad bit of the interval that a reader's last MCU ended, if it ended one. The one error is out of memory.
pub(crate) fn keep_pad(reader: &Reader, pads: &mut PadsFound) -> Result<(), NoMemory>
    ensures { OnOk result ((before : ScanReader) (mcu : List (List ℤ))
        → mcu_at before.shape before.bytes before.at ≡ Ok (mcu, reader.now.at)
        → reader.now ≡ record before { at = reader.now.at }
        → pads.new ≡ pads_through 1 before pads.old) }
{
    if reader.ends_interval() {
        pads.push(reader.pad())?;
    }
    Ok(())
}
