// Headers of files of several scans: what they say, and why further ones are refused.
use crate::marker_segments::{AC, DC, OWN, START, joined};
use jpeg_marker::HeaderRefusal::{
    FrameTwice, HeaderCut, MarkerBad, MultiScan, NoTable, ScanParams, TooManyBlocks,
};
use jpeg_marker::{HeaderRefusal, Plan, one_scan_is_the_last, read_first, read_next};
use std::alloc::Global;
use std::process::Abort;

// Two components, 8 by 8 samples.
const TWO: &[u8] = b"\xff\xc0\0\x0e\x08\0\x08\0\x08\x02\x01\x11\0\x02\x11\0";

// Three components, the first sampled two by two, 17 by 9 samples.
const SAMPLED: &[u8] = b"\xff\xc0\0\x11\x08\0\x09\0\x11\x03\x01\x22\0\x02\x11\0\x03\x11\0";

// Four components, 8 by 8 samples.
const FOUR: &[u8] = b"\xff\xc0\0\x14\x08\0\x08\0\x08\x04\x01\x11\0\x02\x11\0\x03\x11\0\x04\x11\0";

// Two components, 32,768 by 32,768 samples.
const LARGE: &[u8] = b"\xff\xc0\0\x0e\x08\x80\0\x80\0\x02\x01\x11\0\x02\x11\0";

// In place of a frame: a further header of the same file.
const FURTHER: &[u8] = b"";

// Scans of components by their identifiers.
const FIRST: &[u8] = b"\xff\xda\0\x08\x01\x01\0\0\x3f\0";

const SECOND: &[u8] = b"\xff\xda\0\x08\x01\x02\0\0\x3f\0";

const THIRD: &[u8] = b"\xff\xda\0\x08\x01\x03\0\0\x3f\0";

const FOURTH: &[u8] = b"\xff\xda\0\x08\x01\x04\0\0\x3f\0";

const FIRST_TWO: &[u8] = b"\xff\xda\0\x0a\x02\x01\0\x02\0\0\x3f\0";

const LAST_TWO: &[u8] = b"\xff\xda\0\x0a\x02\x02\0\x03\0\0\x3f\0";

const OUTER_TWO: &[u8] = b"\xff\xda\0\x0a\x02\x01\0\x03\0\0\x3f\0";

const TURNED: &[u8] = b"\xff\xda\0\x0a\x02\x03\0\x02\0\0\x3f\0";

// The frame of a first header, or FURTHER; what follows the frame and the tables, or the further header; and what it
// says: bytes of the header, MCUs across and down, blocks, restart interval, index of the first component, components,
// and 1 if its scan is the last.
const ACCEPTED: &[(&[u8], &[u8], [usize; 8])] = &[
    // All components in one scan.
    (TWO, FIRST_TWO, [74, 1, 1, 2, 0, 0, 2, 1]),
    // One after the other.
    (TWO, FIRST, [72, 1, 1, 1, 0, 0, 1, 0]),
    (FURTHER, SECOND, [10, 1, 1, 1, 0, 1, 1, 1]),
    // The second component first.
    (TWO, SECOND, [72, 1, 1, 1, 0, 1, 1, 0]),
    (FURTHER, FIRST, [10, 1, 1, 1, 0, 0, 1, 1]),
    // Each alone has a grid of its own.
    (SAMPLED, FIRST, [75, 3, 2, 6, 0, 0, 1, 0]),
    (FURTHER, SECOND, [10, 2, 1, 2, 0, 1, 1, 0]),
    (FURTHER, THIRD, [10, 2, 1, 2, 0, 2, 1, 1]),
    // Several have the frame's.
    (SAMPLED, FIRST, [75, 3, 2, 6, 0, 0, 1, 0]),
    (FURTHER, LAST_TWO, [12, 2, 1, 4, 0, 1, 2, 1]),
    // The outer two first, then an interval and a segment without a table.
    (SAMPLED, OUTER_TWO, [77, 2, 1, 10, 0, 0, 2, 0]),
    (
        FURTHER,
        b"\xff\xdd\0\x04\0\x02\xff\xc4\0\x02\xff\xff\xda\0\x08\x01\x02\0\0\x3f\0",
        [21, 2, 1, 2, 2, 1, 1, 1],
    ),
    // Four components in three scans, and an interval that is kept.
    (
        FOUR,
        b"\xff\xdd\0\x04\0\x01\xff\xda\0\x08\x01\x02\0\0\x3f\0",
        [84, 1, 1, 1, 1, 1, 1, 0],
    ),
    (FURTHER, OUTER_TWO, [12, 1, 1, 2, 1, 0, 2, 0]),
    (FURTHER, FOURTH, [10, 1, 1, 1, 1, 3, 1, 1]),
    // The most blocks.
    (LARGE, FIRST, [72, 4096, 4096, 16777216, 0, 0, 1, 0]),
];

#[test]
fn headers_of_several_scans_say_their_plans(rt: HostRuntime) {
    one_scan_is_the_last();
    let mut plan = first_plan(&rt, rt.alloc(), TWO, FIRST);
    for (frame, header, said) in ACCEPTED {
        plan = if frame.is_empty() {
            next_plan(&rt, rt.alloc(), &plan, header)
        } else {
            first_plan(&rt, rt.alloc(), frame, header)
        };
        assert!(rt; says(&plan, *said), "{header:?}");
    }
}

// The plan of a file's first header.
fn first_plan(rt: &impl Abort, alloc: Global, frame: &[u8], scan: &[u8]) -> Plan {
    match read_first(&first_header(rt, alloc, frame, scan)) {
        Ok(plan) => plan,
        Err(_) => panic!(rt; "no header"),
    }
}

fn first_header(rt: &impl Abort, alloc: Global, frame: &[u8], scan: &[u8]) -> Vec<u8> {
    let mut bytes = joined(rt, alloc, &[START, OWN, DC, AC], frame);
    bytes.extend_from_slice(scan).expect(rt, "memory");
    bytes
}

// The plan of a further header, which is after a byte and before another one.
fn next_plan(rt: &impl Abort, alloc: Global, plan: &Plan, header: &[u8]) -> Plan {
    let bytes = with_header(rt, alloc, b"\x3f", header);
    assert!(rt; !bytes.is_empty());
    match read_next(plan, &bytes, 1) {
        Ok(next) => next,
        Err(_) => panic!(rt; "no further header"),
    }
}

fn with_header(rt: &impl Abort, alloc: Global, before: &[u8], header: &[u8]) -> Vec<u8> {
    let mut bytes = Vec::new(alloc);
    bytes.extend_from_slice(before).expect(rt, "memory");
    bytes.extend_from_slice(header).expect(rt, "memory");
    bytes.push(0x3f).expect(rt, "memory");
    bytes
}

fn says(plan: &Plan, said: [usize; 8]) -> bool {
    has_grid(plan, said)
        && usize::from(plan.interval()) == said[4]
        && first_index(plan) == said[5]
        && plan.components().len() == said[6]
        && usize::from(plan.is_last()) == said[7]
}

fn has_grid(plan: &Plan, said: [usize; 8]) -> bool {
    plan.header_length() == said[0]
        && plan.across() as usize == said[1]
        && plan.down() as usize == said[2]
        && plan.blocks() as usize == said[3]
}

// The index of the first component, and 4 if there is none.
fn first_index(plan: &Plan) -> usize {
    match plan.components() {
        [first, ..] => usize::from(first.index()),
        [] => 4,
    }
}

// A frame, what is at place 73 or 76, after a scan of the first component, and the refusal.
const REFUSED: &[(&[u8], &[u8], HeaderRefusal)] = &[
    (TWO, b"\xff\xd9", MarkerBad { place: 74 }),
    (TWO, b"", MarkerBad { place: 73 }),
    (TWO, b"\xff\xda\0\x08\x01\x02\0\0", HeaderCut),
    (TWO, TWO, FrameTwice),
    (TWO, FIRST, MultiScan),
    // Both components, one of them once more.
    (TWO, FIRST_TWO, MultiScan),
    // A component that the frame doesn't have, after one that was coded.
    (TWO, b"\xff\xda\0\x0a\x02\x01\0\x04\0\0\x3f\0", ScanParams),
    // None.
    (TWO, b"\xff\xda\0\x06\0\0\x3f\0", ScanParams),
    // Three of two.
    (
        TWO,
        b"\xff\xda\0\x0c\x03\x01\0\x02\0\x03\0\0\x3f\0",
        ScanParams,
    ),
    // Another order than the frame's.
    (SAMPLED, TURNED, ScanParams),
    // One that was coded, with a table that there can't be.
    (TWO, b"\xff\xda\0\x08\x01\x01\x44\0\x3f\0", MultiScan),
    (TWO, b"\xff\xda\0\x08\x01\x02\x11\0\x3f\0", NoTable),
    (TWO, b"\xff\xda\0\x08\x01\x02\0\x01\x3f\0", ScanParams),
    // As many blocks again as there may be.
    (LARGE, SECOND, TooManyBlocks),
];

#[test]
fn a_further_header_is_refused_for_the_first_check_that_fails(rt: HostRuntime) {
    for (frame, header, refusal) in REFUSED {
        assert!(rt;
            is_refused(&rt, rt.alloc(), frame, header, *refusal),
            "{header:?}"
        );
    }
}

fn is_refused(
    rt: &impl Abort,
    alloc: Global,
    frame: &[u8],
    header: &[u8],
    wanted: HeaderRefusal,
) -> bool {
    let before = with_header(rt, alloc, b"", &first_header(rt, alloc, frame, FIRST));
    let bytes = with_header(rt, alloc, &before, header);
    let plan = first_plan(rt, alloc, frame, FIRST);
    assert!(rt; before.len() <= bytes.len());
    match read_next(&plan, &bytes, before.len()) {
        Ok(_) => false,
        Err(refusal) => refusal == wanted,
    }
}
