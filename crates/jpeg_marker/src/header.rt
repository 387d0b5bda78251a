// The headers of a file (ITU-T T.81, B.2.1).
ghost use Rattle.std.specs.Prelude.{◌≤◌, ◌<◌, ◌+◌, ◌^◌, length, take, IfOk, IfErr};
ghost use Rattle.jpeg_marker.specs.AcceptedPlans.{BegunHasPlan, AcceptedHasPlan, NextHasPlan, OneIsLast, OneIsSeveral, SeveralIsOne};
ghost use Rattle.jpeg_marker.specs.HeaderPlan.{Begins, Stops, Opens, OpensNot, Accepts, Refuses, AcceptsNext, RefusesNext};
ghost use Rattle.jpeg_marker.specs.OneHeader.{OneList, OnePlan, OneRefusal, NeverBoth, OneNextPlan, OneNextRefusal, NeverBothNext};
ghost use Rattle.jpeg_marker.specs.Walks.{walk_from};
ghost use Rattle.jpeg_marker.specs.declared.scans.Scans.TheVariants.{Several};

use crate::definitions::Definitions;
use crate::plan::Plan;
use crate::refusal::HeaderRefusal;
use crate::scan::read_scan;
use crate::scans::Scans;
use crate::segment::segment_at;

/// Reads the header of a file of one scan, which the bytes begin with, whatever follows it. A refusal is that of the
/// first check that fails.
#[inline(never)]
pub fn read_header(bytes: &[u8]) -> Result<Plan, HeaderRefusal>
    ensures accepted { IfOk result (λ plan. Accepts bytes.now plan) }
    ensures refused { IfErr result (λ refusal. Refuses bytes.now refusal) }
{
    open(bytes, Scans::One)
}

/// Reads the first header of a file that may have its components in several scans, which the bytes begin with, whatever
/// follows it. A refusal is that of the first check that fails. Further headers: `read_next`.
#[inline(never)]
pub fn read_first(bytes: &[u8]) -> Result<Plan, HeaderRefusal>
    ensures accepted { IfOk result (λ plan. Opens Several bytes.now plan) }
    ensures refused { IfErr result (λ refusal. OpensNot Several bytes.now refusal) }
{
    open(bytes, Scans::Several)
}

// Reads the first header of a file of one scan or of several.
fn open(bytes: &[u8], scans: Scans) -> Result<Plan, HeaderRefusal>
    ensures accepted { IfOk result (λ plan. Opens scans bytes.now plan) }
    ensures refused { IfErr result (λ refusal. OpensNot scans bytes.now refusal) }
{
    let [0xff, 0xd8, ..] = bytes else {
        return Err(HeaderRefusal::NotJpeg);
    };
    walk(&Definitions::new(), scans, bytes, 0, 2)
}

/// Reads the header of a further scan, which is at `place`, after the scan of `plan`, whatever follows it. A refusal is
/// that of the first check that fails. The plan may be of other bytes.
#[inline(never)]
pub fn read_next(plan: &Plan, bytes: &[u8], place: usize) -> Result<Plan, HeaderRefusal>
    requires { place ≤ length bytes.now }
    ensures accepted { IfOk result (λ next. AcceptsNext plan.now bytes.now place next) }
    ensures refused { IfErr result (λ refusal. RefusesNext plan.now bytes.now place refusal) }
{
    walk(plan.known(), Scans::Several, &bytes[place..], place, 0)
}

// Walks over the segments of a header, up to its scan's. `bytes` begin with the header, which is at `place` of the file
// and has `start` bytes before its first segment.
#[inline(never)]
fn walk(
    known: &Definitions,
    scans: Scans,
    bytes: &[u8],
    place: usize,
    start: usize,
) -> Result<Plan, HeaderRefusal>
    requires room { place + length bytes.now < 2 ^ 64 }
    requires start { start ≤ length bytes.now }
    ensures accepted { IfOk result
        (λ plan. Begins (walk_from known.now scans place (take start bytes.now)) bytes.now plan) }
    ensures refused { IfErr result (λ refusal. Stops
        (walk_from known.now scans place (take start bytes.now)) bytes.now refusal) }
{
    let mut found = known.again();
    let mut here = place + start;
    let mut rest = &bytes[start..];
    'segments: loop {
        let whole = segment_at(rest, here)?;
        let end = bytes.len() - whole.rest.len();
        if whole.code == 0xda {
            return read_scan(&found, scans, whole.body, whole.at, end);
        }
        found.take(whole.code, whole.body, whole.at)?;
        here = place + end;
        rest = whole.rest;
    }
}

/// Bytes that begin with a header determine its segments and so its plan, others determine the first check that
/// fails, and no bytes do both. The same holds of the header of a further scan at a place, after a plan.
pub fn header_has_one_plan()
    ensures segments { OneList }
    ensures plan { OnePlan }
    ensures refusal { OneRefusal }
    ensures apart { NeverBoth }
    ensures next_plan { OneNextPlan }
    ensures next_refusal { OneNextRefusal }
    ensures next_apart { NeverBothNext }
{}

/// The plan of every accepted header is one that `Plan` keeps. Its components have tables, the header is no longer
/// than the bytes, and the header alone determines the plan, whatever follows it. In a further header the frame stays,
/// and the scan has no component that a scan before had.
pub fn an_accepted_header_has_a_plan()
    ensures any { BegunHasPlan }
    ensures first { AcceptedHasPlan }
    ensures next { NextHasPlan }
{}

/// The header of a file of one scan is a first header of a file that may have several, and says the same. Its scan is
/// the last; and a first header whose scan is the last is that of a file of one scan.
pub fn one_scan_is_the_last()
    ensures last { OneIsLast }
    ensures several { OneIsSeveral }
    ensures back { SeveralIsOne }
{}
