// Where the segments of small files start, and their streams.
ghost use Rattle.std.specs.Prelude.{◌≡◌, ◌<◌, IfOk, length};
ghost use Rattle.jpeg_marker.specs.AcceptedPlans.{CanScan};

use crate::pads::are_told;
use box_format::Chunk;
use handover::Handover;
use jpeg_marker::{HeaderRefusal, Plan, read_header};
use scan_spec::ScanRefusal;
use segment_code::{ScanError, Starts, encode_segment, find_rows, find_starts, row_of};
use segment_encode::{encode_all, encode_scan};
use std::alloc::{AllocError, Global};
use std::test::Fail;
use std::thread::Threads;

// A segment's row of MCUs, its place, and of its handover the byte begun, the bits of it, and the restart markers; each
// DC is 0.
type Start = (u32, usize, u8, u8, u32);

// The parts of a header, the bytes after it, how many segments are asked for; their starts, the trailer's place, and
// the byte of pad bits with the list's only one, which is 0 where there is no list.
type Row<'a> = (&'a [&'a [u8]], &'a [u8], u8, &'a [Start], usize, (u8, u8));

// What each header here begins and ends with.
const START: &[u8] = b"\xff\xd8";

const GREY_SCAN: &[u8] = b"\xff\xda\0\x08\x01\x01\0\0\x3f\0";

// Grey, 8 samples wide, and 16, 32, 40, 512 or 2400 high.
const TWO_HIGH: &[u8] = b"\xff\xc0\0\x0b\x08\0\x10\0\x08\x01\x01\x11\0";

const FOUR_HIGH: &[u8] = b"\xff\xc0\0\x0b\x08\0\x20\0\x08\x01\x01\x11\0";

const FIVE_HIGH: &[u8] = b"\xff\xc0\0\x0b\x08\0\x28\0\x08\x01\x01\x11\0";

const SIXTY_FOUR_HIGH: &[u8] = b"\xff\xc0\0\x0b\x08\x02\0\0\x08\x01\x01\x11\0";

const THREE_HUNDRED_HIGH: &[u8] = b"\xff\xc0\0\x0b\x08\x09\x60\0\x08\x01\x01\x11\0";

// A restart after each MCU, or after four.
const RESTARTS: &[u8] = b"\xff\xdd\0\x04\0\x01";

const RESTARTS_OF_FOUR: &[u8] = b"\xff\xdd\0\x04\0\x04";

// `0` for DC category 0, and `0` for the end of a block: a block of zeros is `00`.
const LEVEL: &[u8] = b"\xff\xc4\0\x14\0\x01\0\0\0\0\0\0\0\0\0\0\0\0\0\0\0\0";

const END: &[u8] = b"\xff\xc4\0\x14\x10\x01\0\0\0\0\0\0\0\0\0\0\0\0\0\0\0\0";

// `0` for DC category 0, and `10` for category 1: a block whose DC rises is `1010`, and one whose DC falls `1000`.
const STEPS: &[u8] = b"\xff\xc4\0\x15\0\x01\x01\0\0\0\0\0\0\0\0\0\0\0\0\0\0\0\x01";

// Sixty-four such blocks, whose DC is 1, 2, 3, 2, 3, 3, 3, 4, and 5 from then on.
const UP_AND_DOWN: &[u8] = b"\xaa\xa8\xa0\xaa\0\0\0\0\0\0\0\0\0\0\0\0\0\x03";

// `1` for DC category 0, and `1` for the end of a block: a block of zeros is `11`.
const ONES: &[u8] = b"\xff\xc4\0\x15\0\x02\0\0\0\0\0\0\0\0\0\0\0\0\0\0\0\x01\0";

const ONES_AND_END: &[u8] = b"\xff\xc4\0\x15\x10\x02\0\0\0\0\0\0\0\0\0\0\0\0\0\0\0\x01\0";

// The stream of a segment that is one block of zeros.
const BLANK: &[u8] = &[0, 0, 0];

const FILES: &[Row<'static>] = &[
    // A segment without a byte of its own.
    (
        &[START, TWO_HIGH, LEVEL, END, GREY_SCAN],
        b"\x0f\xff\xd9",
        2,
        &[(0, 69, 0, 0, 0), (1, 69, 0, 2, 0)],
        70,
        (1, 0),
    ),
    // One byte across four segments, and the zero that is stuffed after it.
    (
        &[START, FOUR_HIGH, ONES, ONES_AND_END, GREY_SCAN],
        b"\xff\0\xff\xd9",
        4,
        &[
            (0, 71, 0, 0, 0),
            (1, 71, 0xc0, 2, 0),
            (2, 71, 0xf0, 4, 0),
            (3, 71, 0xfc, 6, 0),
        ],
        73,
        (1, 0),
    ),
    // A restart marker on the seam.
    (
        &[START, TWO_HIGH, LEVEL, END, RESTARTS, GREY_SCAN],
        b"\x3f\xff\xd0\x3f\xff\xd9",
        2,
        &[(0, 75, 0, 0, 0), (1, 78, 0, 0, 1)],
        79,
        (1, 0),
    ),
    // No more segments than rows.
    (
        &[START, TWO_HIGH, LEVEL, END, GREY_SCAN],
        b"\x0f\xff\xd9",
        16,
        &[(0, 69, 0, 0, 0), (1, 69, 0, 2, 0)],
        70,
        (1, 0),
    ),
    // Both pad bits, and zeros alone.
    (
        &[START, TWO_HIGH, LEVEL, END, RESTARTS, GREY_SCAN],
        b"\x3f\xff\xd0\0\xff\xd9",
        2,
        &[(0, 75, 0, 0, 0), (1, 78, 0, 0, 1)],
        79,
        (2, 0x80),
    ),
    (
        &[START, TWO_HIGH, LEVEL, END, RESTARTS, GREY_SCAN],
        b"\0\xff\xd0\x3f\xff\xd9",
        2,
        &[(0, 75, 0, 0, 0), (1, 78, 0, 0, 1)],
        79,
        (2, 0x40),
    ),
    (
        &[START, TWO_HIGH, LEVEL, END, RESTARTS, GREY_SCAN],
        b"\0\xff\xd0\0\xff\xd9",
        2,
        &[(0, 75, 0, 0, 0), (1, 78, 0, 0, 1)],
        79,
        (0, 0),
    ),
    // The first interval pads no bit, and the second zeros.
    (
        &[
            START,
            FIVE_HIGH,
            ONES,
            ONES_AND_END,
            RESTARTS_OF_FOUR,
            GREY_SCAN,
        ],
        b"\xff\0\xff\xd0\xc0\xff\xd9",
        5,
        &[
            (0, 77, 0, 0, 0),
            (1, 77, 0xc0, 2, 0),
            (2, 77, 0xf0, 4, 0),
            (3, 77, 0xfc, 6, 0),
            (4, 81, 0, 0, 1),
        ],
        82,
        (0, 0),
    ),
];

#[test]
fn segments_start(rt: HostRuntime) -> Result<(), Fail> {
    for (header, scan, segments, starts, trailer, pads) in FILES {
        let bytes = joined(rt.alloc(), header, scan)?;
        assert!(rt;
            are_found(
                rt.alloc(),
                &bytes,
                u32::from(*segments),
                starts,
                *trailer,
                *pads
            )?,
            "{bytes:?}"
        );
    }
    Ok(())
}

fn joined(alloc: Global, header: &[&[u8]], scan: &[u8]) -> Result<Vec<u8>, AllocError> {
    let mut bytes = Vec::new(alloc);
    for part in header {
        bytes.extend_from_slice(part)?;
    }
    bytes.extend_from_slice(scan)?;
    Ok(bytes)
}

// Whether the segments of a file start there, and their streams are those of blocks of zeros.
fn are_found(
    alloc: Global,
    bytes: &[u8],
    segments: u32,
    wanted: &[Start],
    trailer: usize,
    pads: (u8, u8),
) -> Result<bool, AllocError> {
    let Ok(plan) = plan_of(bytes) else {
        return Ok(false);
    };
    if segments == 0 {
        return Ok(false);
    }
    let Ok(starts) = find_starts(alloc, &plan, bytes, segments) else {
        return Ok(false);
    };
    if !(are_starts(&starts, wanted) && starts.trailer() == trailer) {
        return Ok(false);
    }
    if !are_told(&starts.pad(), pads) {
        return Ok(false);
    }
    let Ok(rows) = find_rows(alloc, &plan, bytes) else {
        return Ok(false);
    };
    let count = segments.min(plan.down());
    for segment in 0..count {
        let stream = encode_segment(alloc, &plan, bytes, &rows, None, count, segment)?;
        if stream.as_slice() != BLANK {
            return Ok(false);
        }
    }
    Ok(true)
}

fn are_starts(starts: &Starts, wanted: &[Start]) -> bool {
    let segments = starts.segments();
    if segments as usize != wanted.len() || starts.handovers().len() != wanted.len() {
        return false;
    }
    for segment in 0..segments {
        if !is_start(starts, segment, wanted[segment as usize]) {
            return false;
        }
    }
    true
}

fn is_start(starts: &Starts, segment: u32, wanted: Start) -> bool
    requires { segment < length starts.now.rows }
{
    let (row, place, partial, bits, restarts) = wanted;
    starts.row(segment) == row
        && starts.place(segment) == place
        && has_fields(&starts.handover(segment), partial, bits, restarts)
}

fn has_fields(handover: &Handover, partial: u8, bits: u8, restarts: u32) -> bool {
    handover.partial() == partial
        && handover.bits() == bits
        && handover.preds() == [0; 4]
        && handover.restarts() == restarts
}

// Sixty-four rows in sixty-four segments, four of which share a byte.
#[test]
fn sixty_four_segments_start(rt: HostRuntime) {
    let header = [START, SIXTY_FOUR_HIGH, LEVEL, END, GREY_SCAN];
    let bytes = joined(rt.alloc(), &header, &[0; 16]).expect(&rt, "memory");
    assert!(rt; are_sixty_four(rt.alloc(), &bytes, 64));
    assert!(rt; are_sixty_four(rt.alloc(), &bytes, u32::MAX));
}

// What a file's header says; its scan can follow it.
fn plan_of(bytes: &[u8]) -> Result<Plan, HeaderRefusal>
    ensures { IfOk result (λ plan. CanScan bytes.now plan) }
{
    read_header(bytes)
}

fn are_sixty_four(alloc: Global, bytes: &[u8], segments: u32) -> bool
    requires { 0 < segments }
{
    let Ok(plan) = plan_of(bytes) else {
        return false;
    };
    let Ok(starts) = find_starts(alloc, &plan, bytes, segments) else {
        return false;
    };
    are_rows(&starts, 64)
}

// Whether each row is a segment, four of which share a byte.
fn are_rows(starts: &Starts, rows: u32) -> bool {
    if starts.segments() != rows {
        return false;
    }
    for row in 0..starts.segments() {
        let (places, bits) = (row as usize / 4, (row % 4 * 2) as u8);
        if !is_start(starts, row, (row, 69 + places, 0, bits, 0)) {
            return false;
        }
    }
    true
}

// Three hundred rows, each a segment: more than a container has.
#[test]
fn three_hundred_rows_start(rt: HostRuntime) {
    let header = [START, THREE_HUNDRED_HIGH, LEVEL, END, GREY_SCAN];
    let bytes = joined(rt.alloc(), &header, &[0; 75]).expect(&rt, "memory");
    assert!(rt; rows_start(rt.alloc(), &bytes, 300));
}

fn rows_start(alloc: Global, bytes: &[u8], rows: u32) -> bool {
    let Ok(plan) = plan_of(bytes) else {
        return false;
    };
    match find_rows(alloc, &plan, bytes) {
        Ok(starts) => are_rows(&starts, rows),
        Err(_) => false,
    }
}

// Segments that are coded beside the pass over a scan are those that are coded after it, by the starts of its rows.
#[test]
fn segments_beside_the_pass_are_those_after_it(rt: HostRuntime) {
    let header = [START, SIXTY_FOUR_HIGH, LEVEL, END, GREY_SCAN];
    let bytes = joined(rt.alloc(), &header, &[0; 16]).expect(&rt, "memory");
    for segments in [1, 2, 3, 64] {
        assert!(rt; are_alike(&rt, rt.alloc(), &bytes, segments).expect(&rt, "memory"));
    }
}

fn are_alike<R: Threads + Sync>(
    rt: &R,
    alloc: Global,
    bytes: &[u8],
    segments: u8,
) -> Result<bool, AllocError>
    requires { 0 < segments }
{
    let Ok(plan) = plan_of(bytes) else {
        return Ok(false);
    };
    let Ok((starts, streams)) = encode_scan(rt, alloc, &plan, bytes, segments) else {
        return Ok(false);
    };
    let Ok(rows) = find_rows(alloc, &plan, bytes) else {
        return Ok(false);
    };
    let count = u32::from(segments).min(plan.down());
    let after = encode_all(rt, alloc, &plan, bytes, &rows, None, count)?;
    Ok(
        starts.segments() == count
            && starts.trailer() == rows.trailer()
            && are_same(&streams, &after),
    )
}

fn are_same(streams: &[Vec<u8>], others: &[Vec<u8>]) -> bool {
    if streams.len() != others.len() {
        return false;
    }
    for i in 0..streams.len() {
        if streams[i].as_slice() != others[i].as_slice() {
            return false;
        }
    }
    true
}

// A chunk's rows in two segments, each of which is a chunk of its own in one.
#[test]
fn rows_of_a_chunk_are_coded(rt: HostRuntime) {
    let header = [START, SIXTY_FOUR_HIGH, STEPS, END, GREY_SCAN];
    let bytes = joined(rt.alloc(), &header, UP_AND_DOWN).expect(&rt, "memory");
    assert!(rt; are_coded_apart(&rt, rt.alloc(), &bytes).expect(&rt, "memory"));
}

fn are_coded_apart<R: Threads + Sync>(
    rt: &R,
    alloc: Global,
    bytes: &[u8],
) -> Result<bool, AllocError> {
    let Ok(plan) = plan_of(bytes) else {
        return Ok(false);
    };
    let Ok(starts) = find_rows(alloc, &plan, bytes) else {
        return Ok(false);
    };
    if plan.down() < 7 {
        return Ok(false);
    }
    let chunk = Some(rows_between(3, 7));
    let both = encode_all(rt, alloc, &plan, bytes, &starts, chunk, 2)?;
    let first = Some(rows_between(3, 5));
    let first = encode_segment(alloc, &plan, bytes, &starts, first, 1, 0)?;
    let second = Some(rows_between(5, 7));
    let second = encode_segment(alloc, &plan, bytes, &starts, second, 1, 0)?;
    if both.len() != 2 {
        return Ok(false);
    }
    Ok(
        row_of(&plan, chunk, 2, 1) == 5
            && both[0].as_slice() == first.as_slice()
            && both[1].as_slice() == second.as_slice()
            && first.as_slice() != second.as_slice(),
    )
}

// A chunk of rows, of whose bytes nobody asks.
fn rows_between(from: u32, to: u32) -> Chunk
    ensures from { result.from ≡ from }
    ensures to { result.to ≡ to }
{
    Chunk {
        place: 0,
        length: 0,
        skip: 0,
        from,
        to,
    }
}

// A scan without its last MCU, whose refusal the threads beside the pass don't hide.
#[test]
fn a_cut_scan_is_refused_beside_threads(rt: HostRuntime) {
    let header = [START, FIVE_HIGH, LEVEL, END, GREY_SCAN];
    let bytes = joined(rt.alloc(), &header, b"\0").expect(&rt, "memory");
    assert!(rt; refused_beside(&rt, rt.alloc(), &bytes, 1));
    assert!(rt; refused_beside(&rt, rt.alloc(), &bytes, 5));
}

fn refused_beside<R: Threads + Sync>(rt: &R, alloc: Global, bytes: &[u8], segments: u8) -> bool
    requires { 0 < segments }
{
    let Ok(plan) = plan_of(bytes) else {
        return false;
    };
    match encode_scan(rt, alloc, &plan, bytes, segments) {
        Err(ScanError::Scan(refusal)) => refusal == ScanRefusal::ScanCut { place: 70 },
        Err(ScanError::NoMemory(_)) | Ok(_) => false,
    }
}

// A scan without its last MCU.
#[test]
fn a_scan_is_cut(rt: HostRuntime) -> Result<(), Fail> {
    let header = [START, FIVE_HIGH, LEVEL, END, GREY_SCAN];
    let bytes = joined(rt.alloc(), &header, b"\0")?;
    assert!(rt; refusal(rt.alloc(), &bytes, 2) == Some(ScanRefusal::ScanCut { place: 70 }));
    Ok(())
}

fn refusal(alloc: Global, bytes: &[u8], segments: u32) -> Option<ScanRefusal> {
    let Ok(plan) = plan_of(bytes) else {
        return None;
    };
    if segments == 0 {
        return None;
    }
    match find_starts(alloc, &plan, bytes, segments) {
        Err(ScanError::Scan(refusal)) => Some(refusal),
        Err(ScanError::NoMemory(_)) | Ok(_) => None,
    }
}
