// Excerpts of a scan, read by several threads at the same time, before a pass goes over it.
ghost use Rattle.std.specs.Prelude.{◌≡◌, ◌<◌, ◌≤◌, IfOk};
ghost use Rattle.std.specs.List.{All};
ghost use Rattle.jpeg_marker.specs.Plans.{PlanFields};
ghost use Rattle.huff_table.specs.ComponentTables.{codes_of};
ghost use Rattle.scan_spec.specs.Slots.{Shape, shape_of};
ghost use Rattle.scan_decode.specs.Excerpts.{IsExcerpt};
ghost use Rattle.allocation.specs.Bounds.{most_at_once};
ghost use Rattle.segment_encode.specs.Scouting.{new_scout};

use crate::relay::{LEAST_RESERVE, append};
use crate::tasks::{Task, perform_all};
use allocation::{NoMemory, push, with_capacity};
use huff_table::PlanCodes;
use jpeg_marker::{Component, Plan, RawTable};
use scan_decode::{Excerpt, Scout, SkipTables};
use std::alloc::Global;
use std::thread::Threads;

// How many bytes are worth a thread: a scout reads them in 1.5 to 3 ms. A thread may take 4 ms to begin, or wait as long
// for a processor; the less each scout reads, the sooner those that run are through with all.
const WORTH_A_SCOUT: usize = 256 << 10;

// The most scouts: as many threads as `encode` has lanes by default.
const MOST_SCOUTS: usize = 8;

// How many excerpts a scan has, about, and how many MCUs one has at least.
const EXCERPTS: u16 = 1_024;

const LEAST_MCUS: u32 = 16;

impl<'t, 'a> Task for Scout<'t, 'a> {
    ghost use Rattle.segment_encode.specs.Scouting.{HasScouted};

    ghost ready = { λ scout. Unit {0} };

    ghost done = { λ scout after. HasScouted scout after };

    fn perform(&mut self) {
        self.run()
    }
}

/// Excerpts of the scan of a plan, for a pass over about `part` of `whole` of the bytes after the header. None if the
/// scan has restarts, if it has several blocks an MCU and one pair of tables for all, or if it or memory is short.
/// Threads start while as much memory as `room` is kept as a reserve, so that their stacks take no addresses that are
/// needed later. No byte of the reserve is touched.
#[inline(never)]
pub(crate) fn scouted<'a, R: Threads + Sync>(
    rt: &R,
    alloc: Global,
    plan: &Plan,
    codes: &PlanCodes,
    bytes: &'a [u8],
    part: u32,
    whole: u32,
    room: usize,
) -> Vec<Excerpt<'a>>
    requires codes { codes.now ≡ codes_of plan.now.components }
    requires some { 0 < whole }
    requires part { part ≤ whole }
    requires room { room ≤ most_at_once }
    ensures { All (IsExcerpt (shape_of plan.now) bytes.now) result.items }
{
    let span = bytes.len().saturating_sub(plan.header_length()) / whole as usize;
    let span = span.saturating_mul(part as usize);
    let count = (span / WORTH_A_SCOUT).min(MOST_SCOUTS);
    if plan.interval() != 0 || count < 2 || !differ(plan.components()) {
        return Vec::new(alloc);
    }
    let reserve: Result<Vec<u8>, NoMemory> = with_capacity(alloc, room.max(LEAST_RESERVE));
    if reserve.is_err() {
        return Vec::new(alloc);
    }
    let tables = match codes.copied(alloc) {
        Ok(copy) => SkipTables::of(alloc, plan, copy),
        Err(_) => return Vec::new(alloc),
    };
    let mcus = (plan.mcus() / u32::from(EXCERPTS)).max(LEAST_MCUS);
    match excerpts_by(
        rt,
        alloc,
        &tables,
        bytes,
        plan.header_length(),
        span / count,
        count,
        mcus,
    ) {
        Ok(excerpts) => excerpts,
        Err(_) => Vec::new(alloc),
    }
}

// Whether reading that begins within an MCU comes to the start of one: only by blocks of different tables, or if there
// is one block.
fn differ(components: &[Component]) -> bool {
    if components.len() < 2 {
        return true;
    }
    for component in components {
        if !are_same(component.dc(), components[0].dc())
            || !are_same(component.ac(), components[0].ac())
        {
            return true;
        }
    }
    false
}

fn are_same(table: &RawTable, other: &RawTable) -> bool {
    table.counts() == other.counts() && table.values() == other.values()
}

// What so many scouts read, each from a place of its own, and each in a thread of its own if one can be had. The one
// error is out of memory.
fn excerpts_by<'a, R: Threads + Sync>(
    rt: &R,
    alloc: Global,
    tables: &SkipTables,
    bytes: &'a [u8],
    first: usize,
    span: usize,
    count: usize,
    mcus: u32,
) -> Result<Vec<Excerpt<'a>>, NoMemory>
    requires whole { tables.now.interval ≡ 0 }
    requires few { count ≤ 8 }
    ensures { IfOk result (λ excerpts. All (IsExcerpt tables.now bytes.now) excerpts.items) }
{
    let mut scouts = scouts_of(alloc, tables, bytes, first, span, count, mcus)?;
    perform_all(rt, scouts.as_mut_slice());
    let mut excerpts = with_capacity(alloc, 2 * usize::from(EXCERPTS))?;
    for scout in scouts {
        append(&mut excerpts, scout.into_excerpts())?;
    }
    Ok(excerpts)
}

// So many scouts, `span` bytes apart from the place `first` on.
fn scouts_of<'t, 'a>(
    alloc: Global,
    tables: &'t SkipTables,
    bytes: &'a [u8],
    first: usize,
    span: usize,
    count: usize,
    mcus: u32,
) -> Result<Vec<Scout<'t, 'a>>, NoMemory>
    requires whole { tables.now.interval ≡ 0 }
    requires few { count ≤ 8 }
    ensures { IfOk result (λ scouts.
        All (λ scout. scout ≡ new_scout tables.now bytes.now) scouts.items) }
{
    let mut scouts = with_capacity(alloc, count)?;
    let mut from = first;
    for _ in 0..count {
        let to = from.saturating_add(span);
        let scout = Scout::prepare(alloc, tables, bytes, from..to, mcus, EXCERPTS)?;
        push(&mut scouts, scout)?;
        from = to;
    }
    Ok(scouts)
}
