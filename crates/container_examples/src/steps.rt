// Segments of worked containers (docs/FORMAT.md).
ghost use Rattle.std.specs.Prelude.{◌≡◌, ◌<◌, ◌≤◌, ◌+◌, true, ℕ, List};
ghost use Rattle.handover.specs.declared.outcome.Outcome.{Outcome};
ghost use Rattle.segment_code.specs.Decoding.{Owes};

use crate::pads::number_of;
use crate::parts::{
    AT_69, AT_70, FIVE_ZEROS, HEADER, HIGHER, ONE_MARKER, START, START_OF_FIVE, THREE_BITS,
    TWO_BITS, TWO_INTERVALS, ZEROS,
};
use bit_list::Piece;
use box_format::{BoxView, read_box};
use handover::StreamCause;
use segment_code::{SegmentDecoder, Step};
use std::alloc::{AllocError, Global};
use std::test::Fail;

// A segment's number, its bytes, and its end: the number of what was padded where it is complete, or the number of the
// refusal.
type Segment<'a> = (u8, &'a [u8], u8);

// A container by its parts, and two of its segments that are decoded one after the other.
type Row<'a> = (&'a str, &'a [&'a [u8]], Segment<'a>, Segment<'a>);

// More steps than any segment here takes.
const STEPS: u8 = 9;

// A header of 69 bytes and no trailer, in one segment and in two.
const FRONT: &[u8] = b"LPSG\x01\x01\x01\0\0\0\x45\0\0\0\0";

const FRONT_OF_TWO: &[u8] = b"LPSG\x01\x01\x02\0\0\0\x45\0\0\0\0";

// The same in version 2, with a header of 75 bytes, and with one of 71, with a list of one byte of pad bits.
const FRONT_WITH_LIST: &[u8] = b"LPSG\x02\x02\x02\0\0\0\x4b\0\0\0\0\0\0\0\x01";

const FRONT_OF_ONES: &[u8] = b"LPSG\x02\x02\x01\0\0\0\x47\0\0\0\0\0\0\0\x01";

// In version 5, with a header of 69 bytes, two segments, and a scan that ends at place 70.
const FRONT_WITH_PLACES: &[u8] = b"LPSG\x05\x01\x02\0\0\0\x45\0\0\0\0\0\0\0\0\0\0\0\0\0\0\0\x46";

// A header of 75 bytes.
const LONGER_FRONT: &[u8] = b"LPSG\x01\x01\x01\0\0\0\x4b\0\0\0\0";

// A record of which nothing is begun, with a stream of no byte, of one, of six or of seven.
const START_OF_NONE: &[u8] = b"\0\0\0\0\0\0\0\0\0\0\0\0\0\0\0\0\0\0\0\0\0\0";

const START_OF_ONE: &[u8] = b"\0\0\0\0\0\0\0\0\0\0\0\0\0\0\0\0\0\0\0\0\0\x01";

const START_OF_SIX: &[u8] = b"\0\0\0\0\0\0\0\0\0\0\0\0\0\0\0\0\0\0\0\0\0\x06";

const START_OF_SEVEN: &[u8] = b"\0\0\0\0\0\0\0\0\0\0\0\0\0\0\0\0\0\0\0\0\0\x07";

// A header of 56 by 16,000 samples, with a restart after each MCU; and one of 8 by 32 with two code words in each table:
// a block of zeros is `11`.
const TALL: &[u8] = b"\xff\xd8\xff\xc0\0\x0b\x08\x3e\x80\0\x38\x01\x01\x11\0\
    \xff\xc4\0\x14\0\x01\0\0\0\0\0\0\0\0\0\0\0\0\0\0\0\0\
    \xff\xc4\0\x14\x10\x01\0\0\0\0\0\0\0\0\0\0\0\0\0\0\0\0\
    \xff\xdd\0\x04\0\x01\xff\xda\0\x08\x01\x01\0\0\x3f\0";

const PAIRS: &[u8] = b"\xff\xd8\xff\xc0\0\x0b\x08\0\x20\0\x08\x01\x01\x11\0\
    \xff\xc4\0\x15\0\x02\0\0\0\0\0\0\0\0\0\0\0\0\0\0\0\x01\0\
    \xff\xc4\0\x15\x10\x02\0\0\0\0\0\0\0\0\0\0\0\0\0\0\0\x01\0\
    \xff\xda\0\x08\x01\x01\0\0\x3f\0";

// The stream of ones.
const ONES: &[u8] = b"\xfe\xff\xff";

const ROWS: &[Row] = &[
    (
        "a block of zeros",
        &[FRONT, START, HEADER, ZEROS],
        (0, b"\x3f", 1),
        (0, b"\x3f", 1),
    ),
    (
        "63 inner coefficients",
        &[FRONT, START, HEADER, ONES],
        (0, b"", 40),
        (0, b"", 40),
    ),
    (
        "a DC of 32,768",
        &[FRONT, START_OF_SEVEN, HEADER, b"\0\x0f\xff\xf0\0\0\0"],
        (0, b"", 41),
        (0, b"", 41),
    ),
    (
        "a DC of 2,048",
        &[FRONT, START_OF_SIX, HEADER, b"\0\x0f\xff\0\0\0"],
        (0, b"", 42),
        (0, b"", 42),
    ),
    (
        "a DC of 1, which has no code word",
        &[FRONT, START, HEADER, b"\0\x08\0"],
        (0, b"", 43),
        (0, b"", 43),
    ),
    (
        "bits after the last block",
        &[FRONT, START, HEADER, b"\0\0\x01"],
        (0, b"\x3f", 45),
        (0, b"\x3f", 45),
    ),
    (
        "no stream",
        &[FRONT, START_OF_NONE, HEADER],
        (0, b"", 45),
        (0, b"", 45),
    ),
    (
        "a byte in two segments",
        &[FRONT_OF_TWO, START, TWO_BITS, HIGHER, ZEROS, ZEROS],
        (0, b"", 0),
        (1, b"\x0f", 1),
    ),
    (
        "the second segment first",
        &[FRONT_OF_TWO, START, TWO_BITS, HIGHER, ZEROS, ZEROS],
        (1, b"\x0f", 1),
        (0, b"", 0),
    ),
    (
        "three bits where two were found",
        &[FRONT_OF_TWO, START, THREE_BITS, HIGHER, ZEROS, ZEROS],
        (0, b"", 44),
        (1, b"\x07", 1),
    ),
    (
        "a segment after a fault",
        &[FRONT_OF_TWO, START, TWO_BITS, HIGHER, ONES, ZEROS],
        (0, b"", 40),
        (1, b"\x0f", 1),
    ),
    (
        "places, and the second segment first",
        &[
            FRONT_WITH_PLACES,
            START,
            AT_69,
            TWO_BITS,
            AT_69,
            HIGHER,
            ZEROS,
            ZEROS,
        ],
        (1, b"\x0f", 1),
        (0, b"", 0),
    ),
    (
        "a second place that is a byte late",
        &[
            FRONT_WITH_PLACES,
            START,
            AT_69,
            TWO_BITS,
            AT_70,
            HIGHER,
            ZEROS,
            ZEROS,
        ],
        (0, b"", 48),
        (1, b"\x0f", 48),
    ),
    (
        "an interval of ones and one of zeros",
        &[
            FRONT_WITH_LIST,
            START,
            ONE_MARKER,
            b"\x80",
            TWO_INTERVALS,
            ZEROS,
            ZEROS,
        ],
        (0, b"\x3f\xff\xd0", 1),
        (1, b"\0", 2),
    ),
    (
        "an interval of zeros and one of ones",
        &[
            FRONT_WITH_LIST,
            START,
            ONE_MARKER,
            b"\x40",
            TWO_INTERVALS,
            ZEROS,
            ZEROS,
        ],
        (0, b"\0\xff\xd0", 2),
        (1, b"\x3f", 1),
    ),
    (
        "a 0 in the list for an interval that pads no bit",
        &[FRONT_OF_ONES, START_OF_FIVE, b"\0", PAIRS, FIVE_ZEROS],
        (0, b"\xff\0", 4),
        (0, b"\xff\0", 4),
    ),
    (
        "a 1 in the list for an interval that pads no bit",
        &[FRONT_OF_ONES, START_OF_FIVE, b"\x80", PAIRS, FIVE_ZEROS],
        (0, b"\xff\0", 0),
        (0, b"\xff\0", 0),
    ),
];

// The number of a cause.
fn number(cause: StreamCause) -> u8 {
    match cause {
        StreamCause::BlockCount => 40,
        StreamCause::DcRange => 41,
        StreamCause::DiffRange => 42,
        StreamCause::NoCode => 43,
        StreamCause::Seam { .. } => 44,
        StreamCause::StreamBad => 45,
        StreamCause::PlaceBad { .. } => 48,
    }
}

// All parts, one after another.
fn joined(alloc: Global, parts: &[&[u8]]) -> Result<Vec<u8>, AllocError> {
    let mut all = Vec::new(alloc);
    for part in parts {
        all.extend_from_slice(part)?;
    }
    Ok(all)
}

// A segment's bytes, its end, and how many steps it took.
fn decoded(decoder: &mut SegmentDecoder, alloc: Global) -> Result<(Vec<u8>, u8, u8), AllocError>
    requires running { decoder.old.running ≡ true }
    requires owes { (bytes : List ℕ) × (outcome : Outcome) × Owes decoder.old bytes outcome }
    ensures plan { decoder.new.plan ≡ decoder.old.plan }
    ensures begun { decoder.new.begun ≡ decoder.old.begun }
{
    let mut piece = Piece::new(alloc)?;
    let mut all = Vec::new(alloc);
    for taken in 0..STEPS {
        let step = decoder.step(&mut piece);
        all.extend_from_slice(piece.bytes())?;
        match step {
            Step::More => {}
            Step::Done { pads } => return Ok((all, number_of(&pads), taken + 1)),
            Step::Fault(fault) => return Ok((all, number(fault.cause), taken + 1)),
        }
    }
    Ok((all, 255, STEPS))
}

// Whether a segment is decoded in so many steps, with these bytes and this end.
fn is_decoded<'a>(
    decoder: &mut SegmentDecoder<'a>,
    alloc: Global,
    view: &BoxView<'a>,
    wanted: &Segment,
    steps: u8,
) -> Result<bool, AllocError>
    requires plan { view.now.plan ≡ decoder.old.plan }
    requires begun { decoder.old.begun < 2 }
    ensures plan { decoder.new.plan ≡ decoder.old.plan }
    ensures begun { decoder.new.begun ≤ decoder.old.begun + 1 }
{
    if wanted.0 >= view.segments() {
        return Ok(false);
    }
    decoder.begin(view, wanted.0);
    let (made, end, taken) = decoded(decoder, alloc)?;
    Ok(made.as_slice() == wanted.1 && (end, taken) == (wanted.2, steps))
}

// Whether two segments of a container are decoded so, one after the other.
fn are_decoded(
    alloc: Global,
    bytes: &[u8],
    first: &Segment,
    second: &Segment,
    steps: u8,
) -> Result<bool, AllocError> {
    let Ok(view) = read_box(alloc, bytes) else {
        return Ok(false);
    };
    let mut decoder = SegmentDecoder::prepare(alloc, view.plan())?;
    let is_first = is_decoded(&mut decoder, alloc, &view, first, steps)?;
    let is_second = is_decoded(&mut decoder, alloc, &view, second, steps)?;
    Ok(is_first && is_second)
}

#[test]
fn segments(rt: HostRuntime) -> Result<(), Fail> {
    for (name, parts, first, second) in ROWS {
        let bytes = joined(rt.alloc(), parts)?;
        assert!(rt;
            are_decoded(rt.alloc(), &bytes, first, second, 1)?,
            "{name}"
        );
    }
    Ok(())
}

const FOURTEEN_THOUSAND: &[&[u8]] = &[LONGER_FRONT, START_OF_ONE, TALL, b"\0"];

// A segment of more bytes than a piece has: fourteen thousand MCUs, a byte and a marker each.
#[test]
fn two_pieces(rt: HostRuntime) -> Result<(), Fail> {
    let bytes = joined(rt.alloc(), FOURTEEN_THOUSAND)?;
    let wanted = bytes_and_markers(rt.alloc())?;
    let segment = (0, wanted.as_slice(), 45);
    assert!(rt; are_decoded(rt.alloc(), &bytes, &segment, &segment, 2)?);
    Ok(())
}

fn bytes_and_markers(alloc: Global) -> Result<Vec<u8>, AllocError> {
    let mut bytes = Vec::new(alloc);
    for number in 0..14_000_u16 {
        bytes.extend_from_slice(&[0x3f, 0xff, 0xd0 + (number % 8) as u8])?;
    }
    bytes.truncate(41_998);
    Ok(bytes)
}
