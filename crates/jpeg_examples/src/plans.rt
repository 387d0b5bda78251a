// Headers that are accepted, and what they say.
use crate::marker_segments::{
    AC, ALL_AC, BOTH, COLOURS, DC, FILL, FRAME, K3, K4, K5, K6, ONES, ONES_AND_END, OWN, RESTARTS,
    SCAN, START, THREE, TWELVE, TWO_PAIRS, TWO_SCAN_ONE_PAIR, joined, planned, segment,
};
use jpeg_marker::{Component, Plan, RawTable, header_has_one_plan, read_header};
use std::process::Abort;

// Bytes of the header, MCUs across and down, blocks, restart interval, components.
type Said = (usize, u32, u32, u32, u16, usize);

// Segments, what the header has of its own, and what it says.
const ACCEPTED: &[(&[usize], &[u8], Said)] = &[
    // One block.
    (&[START, FRAME, DC, AC, SCAN], b"", (69, 1, 1, 1, 0, 1)),
    // Four rows, two categories.
    (
        &[START, OWN, ONES, ONES_AND_END, SCAN],
        b"\xff\xc0\0\x0b\x08\0\x20\0\x08\x01\x01\x11\0",
        (71, 1, 4, 4, 0, 1),
    ),
    // Restarts.
    (
        &[START, OWN, DC, AC, RESTARTS, SCAN],
        b"\xff\xc0\0\x0b\x08\0\x10\0\x08\x01\x01\x11\0",
        (75, 1, 2, 2, 1, 1),
    ),
    // An AC table of F0 and 00.
    (&[START, FRAME, DC, BOTH, SCAN], b"", (70, 1, 1, 1, 0, 1)),
    // A DC table of 0 and 1.
    (
        &[START, FRAME, OWN, AC, SCAN],
        b"\xff\xc4\0\x15\0\x02\0\0\0\0\0\0\0\0\0\0\0\0\0\0\0\0\x01",
        (70, 1, 1, 1, 0, 1),
    ),
    // Three components.
    (&[START, THREE, DC, AC, COLOURS], b"", (79, 1, 1, 6, 0, 3)),
    // Full tables.
    (
        &[START, OWN, TWELVE, ALL_AC, COLOURS],
        b"\xff\xc0\0\x11\x08\0\x18\0\x28\x03\x01\x11\0\x02\x11\0\x03\x11\0",
        (251, 5, 3, 45, 0, 3),
    ),
    // What follows is not looked at.
    (
        &[START, FRAME, DC, AC, SCAN, OWN],
        b"\xff\xd8\xff\xc1\0",
        (69, 1, 1, 1, 0, 1),
    ),
    // Fill before markers.
    (
        &[START, FILL, FILL, FRAME, FILL, DC, AC, FILL, SCAN],
        b"",
        (73, 1, 1, 1, 0, 1),
    ),
    // Segments that are passed.
    (
        &[START, OWN, FRAME, DC, AC, SCAN],
        b"\xff\xe0\0\x02\xff\xe1\0\x03\x01\xff\xe2\0\x04\0\xff\xff\xef\0\x02\xff\xfe\0\x04\0\xff\xff\xdb\0\x03\xff",
        (99, 1, 1, 1, 0, 1),
    ),
    // Two tables in a segment.
    (
        &[START, FRAME, OWN, SCAN],
        b"\xff\xc4\0\x26\0\x01\0\0\0\0\0\0\0\0\0\0\0\0\0\0\0\0\x10\x01\0\0\0\0\0\0\0\0\0\0\0\0\0\0\0\0",
        (65, 1, 1, 1, 0, 1),
    ),
    // A segment without a table.
    (
        &[START, FRAME, OWN, DC, AC, SCAN],
        b"\xff\xc4\0\x02",
        (73, 1, 1, 1, 0, 1),
    ),
    // A table without a value.
    (
        &[START, FRAME, OWN, AC, SCAN],
        b"\xff\xc4\0\x13\0\0\0\0\0\0\0\0\0\0\0\0\0\0\0\0\0",
        (68, 1, 1, 1, 0, 1),
    ),
    // The last interval counts.
    (
        &[START, OWN, FRAME, DC, AC, SCAN],
        b"\xff\xdd\0\x04\x12\x34\xff\xdd\0\x04\0\0",
        (81, 1, 1, 1, 0, 1),
    ),
    // One component with factors, 17 by 9.
    (
        &[START, OWN, DC, AC, SCAN],
        b"\xff\xc0\0\x0b\x08\0\x09\0\x11\x01\x01\x43\0",
        (69, 3, 2, 6, 0, 1),
    ),
    // Factors of 3 and 2, 49 by 33.
    (
        &[START, OWN, DC, AC, TWO_SCAN_ONE_PAIR],
        b"\xff\xc0\0\x0e\x08\0\x21\0\x31\x02\x01\x32\0\x02\x11\0",
        (74, 3, 3, 63, 0, 2),
    ),
    // The most blocks.
    (
        &[START, OWN, DC, AC, SCAN],
        b"\xff\xc0\0\x0b\x08\x80\0\x80\0\x01\x01\x11\0",
        (69, 4096, 4096, 16777216, 0, 1),
    ),
    // The standard's tables.
    (
        &[START, THREE, K3, K5, K4, K6, TWO_PAIRS],
        b"",
        (467, 1, 1, 6, 0, 3),
    ),
];

#[test]
fn a_header_says_its_plan(rt: HostRuntime) {
    header_has_one_plan();
    for (segments, own, said) in ACCEPTED {
        let bytes = joined(&rt, rt.alloc(), segments, own);
        assert!(rt; is_accepted(&bytes, said), "{bytes:?}");
    }
}

fn is_accepted(bytes: &[u8], said: &Said) -> bool {
    match read_header(bytes) {
        Ok(plan) => says(&plan, said),
        Err(_) => false,
    }
}

fn says(plan: &Plan, said: &Said) -> bool {
    let (length, across, down, blocks, interval, components) = *said;
    plan.header_length() == length
        && plan.across() == across
        && plan.down() == down
        && plan.blocks() == blocks
        && plan.interval() == interval
        && plan.components().len() == components
}

// The index of a component, its identifier, its sampling factors across and down, and its segments for DC and AC.
const COMPONENTS: &[[usize; 6]] = &[
    [0, 1, 2, 2, K3, K5],
    [1, 2, 1, 1, K4, K6],
    [2, 3, 1, 1, K4, K6],
];

// A later table replaces an earlier one of its class and number.
#[test]
fn each_component_has_its_tables(rt: HostRuntime) {
    let segments = [START, THREE, K3, K4, AC, K6, K5, TWO_PAIRS];
    let plan = planned(&rt, rt.alloc(), &segments);
    for row in COMPONENTS {
        assert!(rt; is_there(&rt, &plan, *row), "{row:?}");
    }
}

fn is_there(rt: &impl Abort, plan: &Plan, row: [usize; 6]) -> bool {
    let [index, id, h, v, dc, ac] = row;
    assert!(rt; index < plan.components().len());
    let component = &plan.components()[index];
    has_numbers(component, [id, h, v])
        && is_table(component.dc(), segment(rt, dc))
        && is_table(component.ac(), segment(rt, ac))
}

fn has_numbers(component: &Component, numbers: [usize; 3]) -> bool {
    usize::from(component.id()) == numbers[0]
        && usize::from(component.h()) == numbers[1]
        && usize::from(component.v()) == numbers[2]
}

// Whether the table is the one that this segment defines.
fn is_table(table: &RawTable, segment: &[u8]) -> bool {
    if segment.len() < 21 {
        return false;
    }
    let (counts, values) = segment[5..].split_at(16);
    table.counts().as_slice() == counts && table.values() == values
}
