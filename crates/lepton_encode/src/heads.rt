// The headers of a file of one scan or of several.
ghost use Rattle.std.specs.Prelude.{◌≡◌, ◌≤◌, ◌<◌, ◌^◌, length, [], ◌∷◌, ◌++◌, IfOk, OnOk, IsErrOf, ℕ};
ghost use Rattle.jpeg_marker.specs.FirstWalks.{opening_walk};
ghost use Rattle.jpeg_marker.specs.HeaderPlan.{RefusesNext};
ghost use Rattle.jpeg_marker.specs.Walks.{Walk};
ghost use Rattle.jpeg_marker.specs.declared.refusal.HeaderRefusal.{HeaderRefusal};
ghost use Rattle.scan_spec.specs.Items.{Refuses as ScanRefuses};
ghost use Rattle.scan_spec.specs.Slots.{shape_of};
ghost use Rattle.scan_spec.specs.declared.refusal.ScanRefusal.{ScanRefusal};
ghost use Rattle.container_spec.specs.ScansFiles.{FileIsRefused, Header, Scan};
ghost use Rattle.lepton_encode.specs.FileHeads.{AreHeads, EndsAt, Follows, IsHead};

use crate::error::EncodeError;
use allocation::{NoMemory, push, with_capacity};
use jpeg_marker::{Plan, read_first, read_next};
use segment_code::find_starts;
use std::alloc::Global;

/// A header of a file: its place, and its plan with all bytes before its scan as its header.
#[derive(Clone, Copy)]
pub(crate) struct Head {
    pub(crate) place: usize,
    pub(crate) plan: Plan,
}

/// The headers of a file, one or several. All scans are read but the last one. A refusal is the first one from left to
/// right: a header's, or that of a scan but the last.
#[inline(never)]
pub(crate) fn find_heads(alloc: Global, bytes: &[u8]) -> Result<Vec<Head>, EncodeError>
    requires length { length bytes.now < 2 ^ 32 }
    ensures heads { IfOk result (λ heads. AreHeads opening_walk bytes.now heads.items) }
    ensures few { IfOk result (λ heads. length heads.items ≤ 4) }
    ensures header { (refusal : HeaderRefusal) → IsErrOf result (EncodeError.Header refusal)
        → FileIsRefused bytes.now (Header refusal) }
    ensures scan { (refusal : ScanRefusal) → IsErrOf result (EncodeError.Scan refusal)
        → FileIsRefused bytes.now (Scan refusal) }
{
    let mut head = match read_first(bytes) {
        Ok(plan) => Head { place: 0, plan },
        Err(refusal) => return Err(EncodeError::Header(refusal)),
    };
    let mut heads = with_capacity(alloc, 4)?;
    'headers: while !head.plan.is_last() {
        keep(&mut heads, &head)?;
        go_on(alloc, bytes, &mut head)?;
    }
    keep(&mut heads, &head)?;
    Ok(heads)
}

// Appends a header.
#[inline(never)]
fn keep(heads: &mut Vec<Head>, head: &Head) -> Result<(), NoMemory>
    ensures { OnOk result (heads.new.items ≡ heads.old.items ++ head.now ∷ []) }
{
    push(heads, *head)
}

// From a header to the one after its scan.
#[inline(never)]
fn go_on(alloc: Global, bytes: &[u8], head: &mut Head) -> Result<(), EncodeError>
    requires head { (w : Walk) × IsHead w bytes.now head.old }
    requires length { length bytes.now < 2 ^ 32 }
    ensures next { OnOk result (Follows bytes.now head.old head.new) }
    ensures header { (refusal : HeaderRefusal) → IsErrOf result (EncodeError.Header refusal)
        → (after : ℕ) × EndsAt bytes.now head.old after
        × RefusesNext head.old.plan bytes.now after refusal }
    ensures scan { (refusal : ScanRefusal) → IsErrOf result (EncodeError.Scan refusal)
        → ScanRefuses (shape_of head.old.plan) bytes.now head.old.plan.header_length refusal }
{
    let starts = find_starts(alloc, &head.plan, bytes, 1)?;
    let place = starts.trailer();
    match read_next(&head.plan, bytes, place) {
        Ok(plan) => {
            head.place = place;
            head.plan = plan.at(place);
            Ok(())
        }
        Err(refusal) => Err(EncodeError::Header(refusal)),
    }
}
