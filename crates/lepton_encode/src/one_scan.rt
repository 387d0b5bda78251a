// Files of one scan.
ghost use Rattle.std.specs.Prelude.{◌<◌, ◌^◌, length, IfOk, IsErrOf};
ghost use Rattle.jpeg_marker.specs.HeaderPlan.{Accepts};
ghost use Rattle.jpeg_marker.specs.declared.refusal.HeaderRefusal.{HeaderRefusal};
ghost use Rattle.scan_spec.specs.declared.refusal.ScanRefusal.{ScanRefusal};
ghost use Rattle.container_spec.specs.ScansFiles.{FileIsRefused, HasSeveralScans, Header, Scan};

use crate::error::OneScanError;
use crate::heads::find_heads;
use jpeg_marker::Plan;
use segment_code::find_starts;
use std::alloc::Global;

/// What the header of a file of one scan says. If the file has several scans, all are read, and the answer is the first
/// refusal from left to right, or else `ManyScans`.
#[inline(never)]
pub fn read_one_scan(alloc: Global, bytes: &[u8]) -> Result<Plan, OneScanError>
    requires length { length bytes.now < 2 ^ 32 }
    ensures accepted { IfOk result (λ plan. Accepts bytes.now plan) }
    ensures header { (refusal : HeaderRefusal) → IsErrOf result (OneScanError.Header refusal)
        → FileIsRefused bytes.now (Header refusal) }
    ensures scan { (refusal : ScanRefusal) → IsErrOf result (OneScanError.Scan refusal)
        → FileIsRefused bytes.now (Scan refusal) }
    ensures many { IsErrOf result OneScanError.ManyScans → HasSeveralScans bytes.now }
{
    let heads = find_heads(alloc, bytes)?;
    let count = heads.len();
    let last = &heads[count - 1];
    if count == 1 {
        return Ok(last.plan);
    }
    find_starts(alloc, &last.plan, bytes, 1)?;
    Err(OneScanError::ManyScans)
}
