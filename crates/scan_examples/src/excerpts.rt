// Excerpts that a scout reads from the middle of a scan on, and a reader that goes past them.
ghost use Rattle.std.specs.Prelude.{◌≡◌};
ghost use Rattle.std.specs.List.{All};
ghost use Rattle.scan_decode.specs.Excerpts.{IsExcerpt};

use crate::headers::planned;
use huff_table::PlanCodes;
use jpeg_marker::Plan;
use sample_jpeg::sample;
use scan_decode::{Excerpt, Reader, Scout, SkipTables};
use std::alloc::Global;
use std::process::Abort;

// How many MCUs a sample has in a row, and in a column.
const SIDE: u16 = 40;

// By their seeds: samples without restarts.
const SEEDS: [u32; 3] = [0, 2, 4];

// How many MCUs an excerpt has, and how many excerpts are tried.
const EACH: u32 = 4;

const MOST: u16 = 400;

// From how many places in the middle a scout begins, and how many bytes are between two.
const PLACES: usize = 16;

const APART: usize = 127;

// A scout that begins in the middle soon reads the blocks that are there. A sample's components have one pair of tables,
// so only a third of the places leads to the start of an MCU: from the best of some places a reader goes past most of
// the scan's second half, and from each it comes to what one that reads each MCU comes to.
#[test]
fn second_half_is_gone_past(rt: HostRuntime) {
    for seed in SEEDS {
        let file = sample(rt.alloc(), seed, SIDE, SIDE).expect(&rt, "memory");
        let plan = planned(&rt, &file);
        let scan = file.len().saturating_sub(plan.header_length());
        let middle = plan.header_length().saturating_add(scan / 2);
        let mut most = 0u32;
        for i in 0..PLACES {
            let place = middle.saturating_add(i * APART);
            most = most.max(gone_from(&rt, rt.alloc(), &plan, &file, place));
        }
        assert!(rt; most >= 150, "{seed}: {most}");
    }
}

// From the scan's start on a reader meets the first excerpt at once.
#[test]
fn whole_scan_is_gone_past(rt: HostRuntime) {
    for seed in SEEDS {
        let file = sample(rt.alloc(), seed, SIDE, SIDE).expect(&rt, "memory");
        let plan = planned(&rt, &file);
        let gone = gone_from(&rt, rt.alloc(), &plan, &file, plan.header_length());
        // The last excerpt has the last MCU, after which the scan isn't open any more.
        assert!(rt; gone == 399, "{seed}: {gone}");
    }
}

// How many excerpts a reader of the scan goes past that a scout read from a place on. It comes to the scan's end with
// what a reader of each MCU hands over there.
fn gone_from(rt: &impl Abort, alloc: Global, plan: &Plan, bytes: &[u8], place: usize) -> u32 {
    assert!(rt; plan.interval() == 0);
    let codes = PlanCodes::build(alloc, plan).expect(rt, "memory");
    let same = codes.copied(alloc).expect(rt, "memory");
    let others = codes.copied(alloc).expect(rt, "memory");
    let tables = SkipTables::of(alloc, plan, others);
    let places = place..bytes.len();
    let mut scout = Scout::prepare(alloc, &tables, bytes, places, EACH, MOST).expect(rt, "memory");
    scout.run();
    let excerpts = scout.into_excerpts();
    let mut past = Reader::start(alloc, plan, codes, bytes, plan.header_length());
    let mut each = Reader::start(alloc, plan, same, bytes, plan.header_length());
    let gone = go_past(&mut past, &excerpts).expect(rt, "MCUs");
    assert!(rt; go_past(&mut each, &[]) == Some(0));
    assert!(rt; past.at_end() && each.at_end());
    assert!(rt; past.end() == each.end());
    assert!(rt; past.pad() == each.pad());
    assert!(rt; past.handover() == each.handover());
    gone
}

// Reads to the end of the scan, and answers how many excerpts the reader went past; none if an MCU is refused.
fn go_past<'a>(reader: &mut Reader<'a>, excerpts: &[Excerpt<'a>]) -> Option<u32>
    requires { All (IsExcerpt reader.old.shape reader.old.bytes) excerpts.now }
{
    let mut gone = 0u32;
    let mut next = 0;
    for _ in 0..10_000 {
        if reader.at_end() {
            return Some(gone);
        }
        if next < excerpts.len() && excerpts[next].place() < reader.place() {
            next += 1;
        } else if next < excerpts.len() && reader.skip_excerpt(&excerpts[next]) {
            next += 1;
            gone = gone.saturating_add(1);
        } else if !is_skipped(reader) {
            return None;
        }
    }
    None
}

// Skips an MCU, and answers whether there was one.
fn is_skipped(reader: &mut Reader) -> bool
    ensures shape { reader.new.shape ≡ reader.old.shape }
    ensures bytes { reader.new.bytes ≡ reader.old.bytes }
{
    !reader.at_end() && reader.skip_mcu().is_ok()
}
