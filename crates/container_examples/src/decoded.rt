// Containers of a few bytes, decoded into memory (docs/FORMAT.md), by no worker, by one, and by more than there are
// segments.
ghost use Rattle.std.specs.Prelude.{◌≤◌};

use crate::parts::{
    AT_69, AT_70, AT_71, AT_75, AT_78, AT_81, AT_82, FIVE_ZEROS, FOUR_BITS, HEADER, HIGHER,
    HIGHEST, ONE_MARKER, SIX_BITS, SIXTY_FOUR_HIGH, START, START_OF_EIGHT, START_OF_FIVE,
    THREE_BITS, THREE_INTERVALS, TRAILER, TWO_BITS, TWO_INTERVALS, TWO_MARKERS, WITH_RESTARTS,
    ZEROS,
};
use handover::StreamCause;
use lepton_decode::{DecodeError, Workers, prepare, run};
use outside_core::{MemSink, OpenGate};
use std::alloc::{AllocError, Global};
use std::process::Abort;
use std::sync::Wait;
use std::test::Fail;
use std::thread::Threads;

// The numbers of workers, and of the bytes of a ring, that each container is decoded with.
const WORKERS: &[u8] = &[0, 1, 3, 16];

const RINGS: &[u32] = &[1, 2, 65_536];

// The fields of a container with one record, two or three: a pad bit, a header of 69 bytes or of 75, and a trailer of
// 2.
const FRONT: &[u8] = b"LPSG\x01\x01\x01\0\0\0\x45\0\0\0\x02";

const FRONT_PADDED_WITH_ZEROS: &[u8] = b"LPSG\x01\0\x01\0\0\0\x45\0\0\0\x02";

const FRONT_OF_TWO: &[u8] = b"LPSG\x01\x01\x02\0\0\0\x45\0\0\0\x02";

const FRONT_OF_THREE: &[u8] = b"LPSG\x01\x01\x03\0\0\0\x4b\0\0\0\x02";

// The same in version 2: a list of pad bits of one byte, with a header of 75 bytes and two segments, or with one of 76
// and one segment; and one pad bit, with a header of 69 bytes and sixty-four segments.
const FRONT_OF_TWO_PADS: &[u8] = b"LPSG\x02\x02\x02\0\0\0\x4b\0\0\0\x02\0\0\0\x01";

const FRONT_OF_LISTED: &[u8] = b"LPSG\x02\x02\x01\0\0\0\x4c\0\0\0\x02\0\0\0\x01";

const FRONT_OF_SIXTY_FOUR: &[u8] = b"LPSG\x02\x01\x40\0\0\0\x45\0\0\0\x02\0\0\0\0";

// The same in version 5, without the scan's end: with a header of 69 bytes and two segments, and with one of 75 bytes
// and three segments.
const FRONT_OF_TWO_PLACES: &[u8] = b"LPSG\x05\x01\x02\0\0\0\x45\0\0\0\x02\0\0\0\0";

const FRONT_OF_THREE_PLACES: &[u8] = b"LPSG\x05\x01\x03\0\0\0\x4b\0\0\0\x02\0\0\0\0";

const SIXTEEN_ZEROS: &[u8] = b"\0\0\0\0\0\0\0\0\0\0\0\0\0\0\0\0";

// The stream of the three intervals, and their bytes.
const STREAM_OF_STEPS: &[u8] = b"\0\0\0\0\x43\x80\0\0";

const ONES_AND_ZEROS: &[u8] = b"\0\xff\xd0\xc0\x7f\xff\xd1\xc0\0";

// A stream that is not the one of the bits that are read from it.
const OTHER_END: &[u8] = b"\0\0\x01";

// A container of three segments, and its file, of 84 bytes.
const THREE: &[&[u8]] = &[
    FRONT_OF_THREE,
    START,
    ONE_MARKER,
    TWO_MARKERS,
    WITH_RESTARTS,
    TRAILER,
    ZEROS,
    ZEROS,
    ZEROS,
];

const FILE_OF_THREE: &[&[u8]] = &[WITH_RESTARTS, b"\x3f\xff\xd0\x3f\xff\xd1\x3f", TRAILER];

// How a decode ends: with so many bytes, with a fault of the sink after so many, with a fault of a segment's stream,
// with pad bits that have to be told otherwise, or before it begins.
#[derive(Clone, Copy, PartialEq)]
enum End {
    Whole(u64),
    WriteFault(u64),
    Seam { segment: u8 },
    StreamBad { segment: u8 },
    PlaceBad { segment: u8, found: u64, kept: u64 },
    OtherFault,
    NotBegun,
    PadSpelling,
    ChunkShort,
}

// The parts of a container, the room of a sink and the calls of it that fail, how the decode ends, and the parts that
// the sink holds then.
type Row<'a> = (&'a [&'a [u8]], usize, &'a [u64], End, &'a [&'a [u8]]);

const FILES: &[Row] = &[
    (
        &[FRONT, START, HEADER, TRAILER, ZEROS],
        100,
        &[],
        End::Whole(72),
        &[HEADER, b"\x3f", TRAILER],
    ),
    // A segment without a byte of its own.
    (
        &[FRONT_OF_TWO, START, TWO_BITS, HIGHER, TRAILER, ZEROS, ZEROS],
        100,
        &[],
        End::Whole(72),
        &[HIGHER, b"\x0f", TRAILER],
    ),
    (THREE, 84, &[], End::Whole(84), FILE_OF_THREE),
    // Intervals that pad ones and zeros, in both orders, and one that pads no bit before them.
    (
        &[
            FRONT_OF_TWO_PADS,
            START,
            ONE_MARKER,
            b"\x80",
            TWO_INTERVALS,
            TRAILER,
            ZEROS,
            ZEROS,
        ],
        100,
        &[],
        End::Whole(81),
        &[TWO_INTERVALS, b"\x3f\xff\xd0\0", TRAILER],
    ),
    (
        &[
            FRONT_OF_TWO_PADS,
            START,
            ONE_MARKER,
            b"\x40",
            TWO_INTERVALS,
            TRAILER,
            ZEROS,
            ZEROS,
        ],
        100,
        &[],
        End::Whole(81),
        &[TWO_INTERVALS, b"\0\xff\xd0\x3f", TRAILER],
    ),
    (
        &[
            FRONT_OF_LISTED,
            START_OF_EIGHT,
            b"\xc0",
            THREE_INTERVALS,
            TRAILER,
            STREAM_OF_STEPS,
        ],
        100,
        &[],
        End::Whole(87),
        &[THREE_INTERVALS, ONES_AND_ZEROS, TRAILER],
    ),
];

const FAULTS: &[Row] = &[
    (
        &[FRONT, START, HEADER, TRAILER, OTHER_END],
        100,
        &[],
        End::StreamBad { segment: 0 },
        &[HEADER, b"\x3f"],
    ),
    // A handover that isn't the one that is reached.
    (
        &[
            FRONT_OF_TWO,
            START,
            THREE_BITS,
            HIGHER,
            TRAILER,
            ZEROS,
            ZEROS,
        ],
        100,
        &[],
        End::Seam { segment: 0 },
        &[HIGHER],
    ),
    // The first fault of two, and nothing of the segment after it.
    (
        &[
            FRONT_OF_THREE,
            START,
            ONE_MARKER,
            TWO_MARKERS,
            WITH_RESTARTS,
            TRAILER,
            ZEROS,
            OTHER_END,
            OTHER_END,
        ],
        100,
        &[],
        End::StreamBad { segment: 1 },
        &[WITH_RESTARTS, b"\x3f\xff\xd0\x3f\xff\xd1"],
    ),
];

const PADS: &[Row] = &[
    // A pad bit of 0 where no bit is padded.
    (
        &[
            FRONT_PADDED_WITH_ZEROS,
            START_OF_FIVE,
            HIGHEST,
            TRAILER,
            FIVE_ZEROS,
        ],
        100,
        &[],
        End::PadSpelling,
        &[HIGHEST, b"\0", TRAILER],
    ),
    // A list of ones alone, and of zeros alone.
    (
        &[
            FRONT_OF_TWO_PADS,
            START,
            ONE_MARKER,
            b"\xc0",
            TWO_INTERVALS,
            TRAILER,
            ZEROS,
            ZEROS,
        ],
        100,
        &[],
        End::PadSpelling,
        &[TWO_INTERVALS, b"\x3f\xff\xd0\x3f", TRAILER],
    ),
    (
        &[
            FRONT_OF_TWO_PADS,
            START,
            ONE_MARKER,
            b"\0",
            TWO_INTERVALS,
            TRAILER,
            ZEROS,
            ZEROS,
        ],
        100,
        &[],
        End::PadSpelling,
        &[TWO_INTERVALS, b"\0\xff\xd0\0", TRAILER],
    ),
    // A 0 in the list for the interval that pads no bit.
    (
        &[
            FRONT_OF_LISTED,
            START_OF_EIGHT,
            b"\x40",
            THREE_INTERVALS,
            TRAILER,
            STREAM_OF_STEPS,
        ],
        100,
        &[],
        End::PadSpelling,
        &[THREE_INTERVALS, ONES_AND_ZEROS, TRAILER],
    ),
];

// Two segments with their places, of which the first has no byte; and three segments with theirs.
const PLACES: &[Row] = &[
    (
        &[
            FRONT_OF_TWO_PLACES,
            AT_70,
            START,
            AT_69,
            TWO_BITS,
            AT_69,
            HIGHER,
            TRAILER,
            ZEROS,
            ZEROS,
        ],
        100,
        &[],
        End::Whole(72),
        &[HIGHER, b"\x0f", TRAILER],
    ),
    (
        &[
            FRONT_OF_THREE_PLACES,
            AT_82,
            START,
            AT_75,
            ONE_MARKER,
            AT_78,
            TWO_MARKERS,
            AT_81,
            WITH_RESTARTS,
            TRAILER,
            ZEROS,
            ZEROS,
            ZEROS,
        ],
        100,
        &[],
        End::Whole(84),
        FILE_OF_THREE,
    ),
];

const BAD_PLACES: &[Row] = &[
    // Segment 0 has no byte, and the places keep one for it.
    (
        &[
            FRONT_OF_TWO_PLACES,
            AT_70,
            START,
            AT_69,
            TWO_BITS,
            AT_70,
            HIGHER,
            TRAILER,
            ZEROS,
            ZEROS,
        ],
        100,
        &[],
        End::PlaceBad {
            segment: 0,
            found: 0,
            kept: 1,
        },
        &[HIGHER],
    ),
    // Segment 1 has one byte, and the places keep two for it, or none.
    (
        &[
            FRONT_OF_TWO_PLACES,
            AT_71,
            START,
            AT_69,
            TWO_BITS,
            AT_69,
            HIGHER,
            TRAILER,
            ZEROS,
            ZEROS,
        ],
        100,
        &[],
        End::PlaceBad {
            segment: 1,
            found: 1,
            kept: 2,
        },
        &[HIGHER, b"\x0f"],
    ),
    (
        &[
            FRONT_OF_TWO_PLACES,
            AT_69,
            START,
            AT_69,
            TWO_BITS,
            AT_69,
            HIGHER,
            TRAILER,
            ZEROS,
            ZEROS,
        ],
        100,
        &[],
        End::PlaceBad {
            segment: 1,
            found: 1,
            kept: 0,
        },
        &[HIGHER, b"\x0f"],
    ),
    // A fault beside a wrong place is first: a handover that isn't the one that is reached, and a stream that isn't the
    // one of the bits that are read from it.
    (
        &[
            FRONT_OF_TWO_PLACES,
            AT_70,
            START,
            AT_69,
            THREE_BITS,
            AT_70,
            HIGHER,
            TRAILER,
            ZEROS,
            ZEROS,
        ],
        100,
        &[],
        End::Seam { segment: 0 },
        &[HIGHER],
    ),
    (
        &[
            FRONT_OF_TWO_PLACES,
            AT_70,
            START,
            AT_69,
            TWO_BITS,
            AT_70,
            HIGHER,
            TRAILER,
            OTHER_END,
            ZEROS,
        ],
        100,
        &[],
        End::StreamBad { segment: 0 },
        &[HIGHER],
    ),
];

// The header is the first call of the sink, the segment's byte the second, and the trailer the third.
const FAILED_WRITES: &[Row] = &[
    (
        &[FRONT, START, HEADER, TRAILER, ZEROS],
        100,
        &[1],
        End::WriteFault(0),
        &[],
    ),
    (
        &[FRONT, START, HEADER, TRAILER, ZEROS],
        100,
        &[2],
        End::WriteFault(69),
        &[HEADER],
    ),
    (
        &[FRONT, START, HEADER, TRAILER, ZEROS],
        100,
        &[3],
        End::WriteFault(70),
        &[HEADER, b"\x3f"],
    ),
    // Room for all but four bytes.
    (
        THREE,
        80,
        &[],
        End::WriteFault(80),
        &[WITH_RESTARTS, b"\x3f\xff\xd0\x3f\xff"],
    ),
];

// The bytes of these parts, one after another.
fn joined(alloc: Global, parts: &[&[u8]]) -> Result<Vec<u8>, AllocError> {
    let mut all = Vec::new(alloc);
    for part in parts {
        all.extend_from_slice(part)?;
    }
    Ok(all)
}

// Each container ends as its row says, whoever decodes it.
fn come_out<R: Threads + Wait + Abort + Sync>(
    rt: &R,
    alloc: Global,
    rows: &[Row],
) -> Result<(), AllocError> {
    for (container, room, fails, end, parts) in rows {
        let container = joined(alloc, container)?;
        let held = joined(alloc, parts)?;
        comes_out(rt, alloc, &container, (*room, fails), (*end, &held))?;
    }
    Ok(())
}

fn comes_out<R: Threads + Wait + Abort + Sync>(
    rt: &R,
    alloc: Global,
    container: &[u8],
    sink: (usize, &[u64]),
    wanted: (End, &[u8]),
) -> Result<(), AllocError> {
    for workers in WORKERS {
        for ring in RINGS {
            assert!(rt;
                is_decoded(rt, alloc, container, (*workers, *ring), sink, wanted)?,
                "{workers} workers, rings of {ring}"
            );
        }
    }
    Ok(())
}

fn is_decoded<R: Threads + Wait + Abort + Sync>(
    rt: &R,
    alloc: Global,
    container: &[u8],
    by: (u8, u32),
    sink: (usize, &[u64]),
    wanted: (End, &[u8]),
) -> Result<bool, AllocError> {
    assert!(rt; by.1 > 0);
    let mut held = MemSink::new(alloc, sink.0, 100, sink.1)?;
    let end = decoded(rt, alloc, container, by.0, by.1, &mut held);
    Ok(end == wanted.0 && held.bytes() == wanted.1)
}

// How the decode of a container ends.
fn decoded<R: Threads + Wait + Sync>(
    rt: &R,
    alloc: Global,
    container: &[u8],
    workers: u8,
    ring: u32,
    sink: &mut MemSink,
) -> End
    requires { 1 ≤ ring }
{
    match prepare(alloc, container, Workers::Given(workers), ring) {
        Ok(mut ready) => end_of(run(&mut ready, rt, sink, &OpenGate)),
        Err(_) => End::NotBegun,
    }
}

fn end_of(ended: Result<u64, DecodeError>) -> End {
    match ended {
        Ok(count) => End::Whole(count),
        Err(error) => end_with(error),
    }
}

fn end_with(error: DecodeError) -> End {
    match error {
        DecodeError::WriteFault { written } => End::WriteFault(written),
        DecodeError::PadSpelling => End::PadSpelling,
        DecodeError::ChunkShort => End::ChunkShort,
        DecodeError::Fault(fault) => end_at(fault.segment, fault.cause),
    }
}

// The end at a fault.
fn end_at(segment: u8, cause: StreamCause) -> End {
    match cause {
        StreamCause::Seam { .. } => End::Seam { segment },
        StreamCause::StreamBad => End::StreamBad { segment },
        StreamCause::PlaceBad { found, kept } => End::PlaceBad {
            segment,
            found,
            kept,
        },
        _ => End::OtherFault,
    }
}

#[test]
fn files_come_back(rt: HostRuntime) -> Result<(), Fail> {
    come_out(&rt, rt.alloc(), FILES)?;
    Ok(())
}

#[test]
fn bytes_before_a_fault_are_written(rt: HostRuntime) -> Result<(), Fail> {
    come_out(&rt, rt.alloc(), FAULTS)?;
    Ok(())
}

#[test]
fn pad_bits_have_one_spelling(rt: HostRuntime) -> Result<(), Fail> {
    come_out(&rt, rt.alloc(), PADS)?;
    Ok(())
}

#[test]
fn files_with_places_come_back(rt: HostRuntime) -> Result<(), Fail> {
    come_out(&rt, rt.alloc(), PLACES)?;
    Ok(())
}

#[test]
fn places_are_held_to_the_bytes(rt: HostRuntime) -> Result<(), Fail> {
    come_out(&rt, rt.alloc(), BAD_PLACES)?;
    Ok(())
}

#[test]
fn a_failed_write_leaves_what_was_written(rt: HostRuntime) -> Result<(), Fail> {
    come_out(&rt, rt.alloc(), FAILED_WRITES)?;
    Ok(())
}

// Sixty-four rows, four of which share a byte.
#[test]
fn sixty_four_segments_come_back(rt: HostRuntime) {
    let container = sixty_four(&rt, rt.alloc());
    let parts = [SIXTY_FOUR_HIGH, SIXTEEN_ZEROS, TRAILER];
    let file = joined(rt.alloc(), &parts).expect(&rt, "memory");
    assert!(rt; container.len() == 1690 && file.len() == 87);
    comes_out(
        &rt,
        rt.alloc(),
        &container,
        (100, &[]),
        (End::Whole(87), &file),
    )
    .expect(&rt, "memory");
}

// The container.
fn sixty_four(rt: &impl Abort, alloc: Global) -> Vec<u8> {
    let mut all = Vec::from_slice(alloc, FRONT_OF_SIXTY_FOUR).expect(rt, "memory");
    for _ in 0..16 {
        for record in [START, TWO_BITS, FOUR_BITS, SIX_BITS] {
            all.extend_from_slice(record).expect(rt, "memory");
        }
    }
    all.extend_from_slice(SIXTY_FOUR_HIGH).expect(rt, "memory");
    all.extend_from_slice(TRAILER).expect(rt, "memory");
    for _ in 0..64 {
        all.extend_from_slice(ZEROS).expect(rt, "memory");
    }
    all
}

// One byte a call, and each of the 84 calls fails in turn.
#[test]
fn a_sink_may_fail_at_any_byte(rt: HostRuntime) -> Result<(), Fail> {
    let container = joined(rt.alloc(), THREE)?;
    let file = joined(rt.alloc(), FILE_OF_THREE)?;
    for written in 0..84 {
        assert!(rt;
            fails_after(&rt, rt.alloc(), &container, &file, written)?,
            "after {written} bytes"
        );
    }
    Ok(())
}

fn fails_after<R: Threads + Wait + Sync>(
    rt: &R,
    alloc: Global,
    container: &[u8],
    file: &[u8],
    written: u8,
) -> Result<bool, AllocError> {
    let fails = [u64::from(written) + 1];
    let mut sink = MemSink::new(alloc, 84, 1, &fails)?;
    let end = decoded(rt, alloc, container, 3, 1, &mut sink);
    Ok(
        end == End::WriteFault(u64::from(written))
            && Some(sink.bytes()) == file.get(..usize::from(written)),
    )
}
