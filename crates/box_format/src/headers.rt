// The headers of a container's scans, one after another.
ghost use Rattle.std.specs.Prelude.{◌≡◌, ◌≤◌, nat_lt, if◌then◌else◌, length, slice_set, IfOk, IfErr, IsErrOf};
ghost use Rattle.jpeg_marker.specs.KnownBefore.{AreKnown};
ghost use Rattle.jpeg_marker.specs.FirstWalks.{opening_walk};
ghost use Rattle.jpeg_marker.specs.Walks.{next_walk};
ghost use Rattle.box_format.specs.Versions.{layout_of};
ghost use Rattle.box_format.specs.Fields.{scans_in, raws_as};
ghost use Rattle.box_format.specs.Checks.{HeadersFail};
ghost use Rattle.box_format.specs.Whole.{IsUncut, IsWholeHeader, IsNoHeader, HavePlans};
ghost use Rattle.box_format.specs.declared.refusal.BoxRefusal.{BoxRefusal};

use crate::error::ReadError;
use crate::fields::scans_in;
use crate::refusal::BoxRefusal;
use crate::slices::header_at;
use crate::version::Version;
use allocation::from_elem;
use jpeg_marker::{Plan, read_first, read_next};
use std::alloc::Global;

/// The plans of the first four headers if all headers pass, else the refusal of the first one that fails. If there are
/// fewer than four, copies of the first plan follow.
#[inline(never)]
pub(crate) fn read_plans(
    alloc: Global,
    version: Version,
    bytes: &[u8],
) -> Result<Vec<Plan>, ReadError>
    requires whole { IsUncut (layout_of version) bytes.now }
    requires some { 1 ≤ scans_in (layout_of version) bytes.now }
    ensures four { IfOk result (λ plans. length plans.items ≡ 4) }
    ensures passed { IfOk result (λ plans. HavePlans version bytes.now plans.items) }
    ensures failed { (refusal : BoxRefusal) → IsErrOf result (ReadError.Box refusal)
        → HeadersFail opening_walk (raws_as version bytes.now) refusal }
{
    let mut plan = match first_plan(header_at(version, bytes, 0)) {
        Ok(plan) => plan,
        Err(refusal) => return Err(ReadError::Box(refusal)),
    };
    let mut plans = from_elem(alloc, plan, 4)?;
    for scan in 1..scans_in(version, bytes) {
        plan = match next_plan(&plan, header_at(version, bytes, scan)) {
            Ok(plan) => plan,
            Err(refusal) => return Err(ReadError::Box(refusal)),
        };
        put_plan(&mut plans, scan, &plan);
    }
    Ok(plans)
}

// The plan of the first header, whose bytes these are.
#[inline(never)]
fn first_plan(header: &[u8]) -> Result<Plan, BoxRefusal>
    ensures passed { IfOk result (λ plan. IsWholeHeader opening_walk header.now plan) }
    ensures failed { IfErr result (λ refusal. IsNoHeader opening_walk header.now refusal) }
{
    let plan = match read_first(header) {
        Ok(plan) => plan,
        Err(refusal) => return Err(BoxRefusal::BoxHeader(refusal)),
    };
    let place = plan.header_length();
    if place < header.len() {
        return Err(BoxRefusal::HeaderLong { place });
    }
    Ok(plan)
}

// The plan of a further header, after the scan of `before`.
#[inline(never)]
fn next_plan(before: &Plan, header: &[u8]) -> Result<Plan, BoxRefusal>
    requires { AreKnown before.now.known }
    ensures passed { IfOk result (λ plan. IsWholeHeader (next_walk before.now.known 0) header.now plan) }
    ensures failed { IfErr result
        (λ refusal. IsNoHeader (next_walk before.now.known 0) header.now refusal) }
{
    let plan = match read_next(before, header, 0) {
        Ok(plan) => plan,
        Err(refusal) => return Err(BoxRefusal::BoxHeader(refusal)),
    };
    let place = plan.header_length();
    if place < header.len() {
        return Err(BoxRefusal::HeaderLong { place });
    }
    Ok(plan)
}

// Keeps the plan of one scan more, unless it is the fifth one or a later one.
fn put_plan(plans: &mut Vec<Plan>, scan: u8, plan: &Plan)
    requires { length plans.old.items ≡ 4 }
    ensures { plans.new.items
        ≡ (if nat_lt scan 4 then slice_set plans.old.items scan plan.now else plans.old.items) }
{
    if scan < 4 {
        plans[usize::from(scan)] = *plan;
    }
}
