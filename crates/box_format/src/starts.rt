// Whether a segment can start from what its record has.
ghost use Rattle.std.specs.Prelude.{◌≡◌, ◌+◌, ◌<◌, ◌≤◌, ◌==◌, length, true, unsigned_abs, IfSome};
ghost use Rattle.std.specs.List.{list_all};
ghost use Rattle.handover.specs.HandoverBytes.{is_handover};
ghost use Rattle.scan_spec.specs.Slots.{shape_of};
ghost use Rattle.cut_spec.specs.Cuts.{first_mcu};
ghost use Rattle.cut_spec.specs.RowHandovers.{markers_before};
ghost use Rattle.box_format.specs.Parts.{bad_start, box_cut, can_start, is_start};
ghost use Rattle.box_format.specs.Raws.{handover_from};
ghost use Rattle.box_format.specs.Slices.{handovers_in, place_among};
ghost use Rattle.box_format.specs.Whole.{are_unused_zeros};

use crate::chunk::{Chunk, rows_of};
use crate::records::{place_among, record_at};
use crate::version::Version;
use handover::Handover;
use jpeg_marker::Plan;

/// The first segment of a scan that can't start from its record, by the records of its segments.
pub(crate) fn first_bad_segment(
    plan: &Plan,
    chunk: Option<Chunk>,
    version: Version,
    segments: u8,
    records: &[u8],
) -> Option<u8>
    requires { place_among version segments ≤ length records.now }
    ensures value { result ≡ bad_start (shape_of plan.now) (box_cut plan.now chunk segments) 0
        (handovers_in version segments records.now) }
    ensures within { IfSome result (λ segment. segment < segments) }
{
    for i in 0..segments {
        let count = first_mcu(plan, chunk, i, segments);
        if !can_start_at(plan, count, records, place_among(version, i)) {
            return Some(i);
        }
    }
    None
}

// Whether a segment after `count` MCUs can start from the record at a place.
fn can_start_at(plan: &Plan, count: u64, records: &[u8], place: usize) -> bool
    requires { place + 14 ≤ length records.now }
    ensures { result ≡ can_start (shape_of plan.now) count (handover_from records.now place) }
{
    match Handover::from_bytes(&record_at(records, place)) {
        Some(handover) => can_start(plan, count, &handover),
        None => false,
    }
}

// How many MCUs come before a segment, where the rows are cut into `segments`.
fn first_mcu(plan: &Plan, chunk: Option<Chunk>, segment: u8, segments: u8) -> u64
    requires { segment < segments }
    ensures { result ≡ first_mcu (box_cut plan.now chunk segments) segment }
{
    let (from, to) = rows_of(plan, chunk);
    let rows = u64::from(to.saturating_sub(from));
    let row = u64::from(from) + u64::from(segment) * rows / u64::from(segments);
    u64::from(plan.across()) * row
}

// Whether a segment after `count` MCUs can start from a handover.
fn can_start(plan: &Plan, count: u64, handover: &Handover) -> bool
    ensures { result ≡ can_start (shape_of plan.now) count handover.now }
{
    let is_start = is_start(handover);
    are_unused_zeros(plan, handover)
        && u64::from(handover.restarts()) == markers_before(plan, count)
        && (count != 0 || is_start)
}

// Whether the last DC of each component that the scan doesn't have is 0.
fn are_unused_zeros(plan: &Plan, handover: &Handover) -> bool
    ensures { result ≡ are_unused_zeros (shape_of plan.now) handover.now }
{
    let components = plan.components();
    let mut unused = handover.preds();
    for component in components {
        unused[usize::from(component.index())] = 0;
    }
    are_zeros(&unused)
}

// Whether each is 0.
fn are_zeros(dcs: &[i16]) -> bool
    ensures { result ≡ list_all (λ dc. unsigned_abs dc == 0) dcs.now }
{
    dcs.iter().all(|dc| dc.unsigned_abs() == 0)
}

// How many restart markers the first `count` MCUs put.
fn markers_before(plan: &Plan, count: u64) -> u64
    ensures { result ≡ markers_before (shape_of plan.now) count }
{
    let interval = u64::from(plan.interval());
    if interval == 0 {
        0
    } else {
        count.min(u64::from(plan.mcus()) - 1) / interval
    }
}

// Whether a handover has nothing but zeros.
fn is_start(handover: &Handover) -> bool
    ensures value { result ≡ is_start handover.now }
    ensures sound { is_handover handover.now ≡ true }
{
    let partial = handover.partial();
    let bits = handover.bits();
    let preds = handover.preds();
    partial == 0 && bits == 0 && handover.restarts() == 0 && are_zeros(&preds)
}
