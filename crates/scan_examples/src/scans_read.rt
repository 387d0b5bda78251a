// Worked scans that are read, and scans that are refused, with places.
use crate::headers::{
    COLOUR, ELEVEN, END, FIFTEEN_ZEROS, FIVE_HIGH, FOUR_HIGH, GREY, Header, LEVEL, MOST_BLOCKS,
    ONES, ONES_AND_END, RUN_OF_NOTHING, SEVENTEEN_HIGH, STEPS, TEN_HIGH, THREE_HIGH, THREE_ZEROS,
    TOO_LARGE, TWELVE, TWO_HIGH, ZEROS_AND_END, append, header_of, planned,
};
use crate::values::{Value, mcu_of};
use coef_block::Block;
use huff_table::PlanCodes;
use jpeg_marker::Plan;
use scan_decode::Reader;
use scan_spec::{MOST_SLOTS, ScanRefusal};
use std::alloc::Global;
use std::process::Abort;

// The coefficients that aren't 0, how many blocks there are, a byte for each MCU, and how many bytes the scan has. The
// byte is `.` if the MCU ends no interval, `-` if it ends one that pads no bit, and else the pad bit.
type Read<'a> = (&'a [Value], usize, &'a [u8], usize);

// The segments of a header, the bytes after it, and what is read.
const READ: &[(Header, &[u8], Read<'static>)] = &[
    // The least scan, and what follows it.
    ([GREY, LEVEL, END, 0], b"\x3f\xff\xd9", (&[], 1, b"1", 1)),
    ([GREY, LEVEL, END, 0], b"\x3f", (&[], 1, b"1", 1)),
    ([GREY, LEVEL, END, 0], b"\0\xff\xd9", (&[], 1, b"0", 1)),
    // Restart markers, their numbers round again after the eighth.
    (
        [TWO_HIGH, LEVEL, END, 1],
        b"\x3f\xff\xd0\x3f\xff\xd9",
        (&[], 2, b"11", 4),
    ),
    (
        [TEN_HIGH, LEVEL, END, 1],
        b"\x3f\xff\xd0\x3f\xff\xd1\x3f\xff\xd2\x3f\xff\xd3\x3f\xff\xd4\x3f\xff\xd5\x3f\xff\xd6\x3f\xff\xd7\x3f\xff\xd0\x3f",
        (&[], 10, b"1111111111", 28),
    ),
    // Each interval has a pad bit of its own, or pads none.
    (
        [TWO_HIGH, LEVEL, END, 1],
        b"\x3f\xff\xd0\0\xff\xd9",
        (&[], 2, b"10", 4),
    ),
    (
        [THREE_HIGH, LEVEL, END, 2],
        b"\0\xff\xd0\x3f",
        (&[], 3, b".01", 4),
    ),
    (
        [FIVE_HIGH, ONES, ONES_AND_END, 4],
        b"\xff\0\xff\xd0\xc0",
        (&[], 5, b"...-0", 5),
    ),
    (
        [TEN_HIGH, ONES, ONES_AND_END, 3],
        b"\xff\0\xff\xd0\xfc\xff\xd1\xff\0\xff\xd2\xc0",
        (&[], 10, b"..1..0..10", 12),
    ),
    (
        [TEN_HIGH, ONES, ONES_AND_END, 4],
        b"\xff\0\xff\xd0\xff\0\xff\xd1\xf0",
        (&[], 10, b"...-...-.0", 9),
    ),
    // The predictor begins at 0 again after a restart.
    (
        [TWO_HIGH, STEPS, END, 1],
        b"\xdf\xff\xd0\xdf",
        (&[(0, 0, 1), (1, 0, 1)], 2, b"11", 4),
    ),
    // No bit is padded; padding makes 0xff.
    (
        [FOUR_HIGH, ONES, ONES_AND_END, 0],
        b"\xff\0\xff\xd9",
        (&[], 4, b"...-", 2),
    ),
    (
        [GREY, ONES, ONES_AND_END, 0],
        b"\xff\0\xff\xd9",
        (&[], 1, b"1", 2),
    ),
    // Differences of the DC, and a coefficient of the inside.
    ([GREY, STEPS, END, 0], b"\xdf", (&[(0, 0, 1)], 1, b"1", 1)),
    (
        [TWO_HIGH, STEPS, END, 0],
        b"\xc7",
        (&[(0, 0, 1), (1, 0, 1)], 2, b".1", 1),
    ),
    (
        [GREY, LEVEL, THREE_ZEROS, 0],
        b"\x1f",
        (&[(0, 4, -1)], 1, b"1", 1),
    ),
    // Six blocks in an MCU.
    ([COLOUR, LEVEL, END, 0], b"\0\x0f", (&[], 6, b"1", 2)),
];

#[test]
fn scans_are_read(rt: HostRuntime) {
    for (header, scan, wanted) in READ {
        let mut bytes = header_of(&rt, rt.alloc(), *header);
        let place = bytes.len();
        append(&rt, &mut bytes, scan);
        let plan = planned(&rt, &bytes);
        assert!(rt;
            is_read(&rt, rt.alloc(), &plan, &bytes, place, *wanted),
            "{scan:?}"
        );
    }
}

fn is_read(
    rt: &impl Abort,
    alloc: Global,
    plan: &Plan,
    bytes: &[u8],
    place: usize,
    wanted: Read,
) -> bool {
    let codes = PlanCodes::build(alloc, plan).expect(rt, "memory");
    let mut reader = Reader::start(alloc, plan, codes, bytes, place);
    let (values, count, told, length) = wanted;
    if reader.place() != place {
        return false;
    }
    let mut seen = 0;
    for pad in told {
        seen = after_mcu(rt, &mut reader, seen, values);
        if !tells(&reader, *pad) {
            return false;
        }
    }
    reader.at_end() && seen == count && reader.end().checked_sub(place) == Some(length)
}

// Whether the reader says this after an MCU.
fn tells(reader: &Reader, pad: u8) -> bool {
    reader.ends_interval() == (pad != b'.') && reader.pad() == bit_of(pad)
}

fn bit_of(pad: u8) -> Option<bool> {
    match pad {
        b'0' => Some(false),
        b'1' => Some(true),
        _ => None,
    }
}

// Reads an MCU of these coefficients, `seen` blocks being read before; answers how many are read then.
fn after_mcu(rt: &impl Abort, reader: &mut Reader, seen: usize, values: &[Value]) -> usize {
    let count = reader.mcu_blocks();
    let wanted = mcu_of(rt, seen, count, values);
    let mut blocks = [Block::zero(); MOST_SLOTS];
    assert!(rt; !reader.at_end());
    assert!(rt;
        reader.next_mcu(&mut blocks[..count]) == Ok(()),
        "at {seen}"
    );
    assert!(rt; blocks[..count] == wanted[..count], "at {seen}");
    assert!(rt; seen < 1000);
    seen + count
}

// Each DC is 2,047 more than the one before: the seventeenth is beyond 32,767.
const CLIMB: &[u8] =
    b"\x7f\xf3\xff\x00\x9f\xfc\xff\x00\xe7\xff\x00\x3f\xf9\xff\x00\xcf\xfe\x7f\xf3\xff\x00\x9f\xfc\xff\x00\xe7\xff\x00\x3f\xf9\xff\x00\xcf\xfe\x7f\xf7";

// The segments of a header, the bytes after it, and the refusal. Its place counts from the header's end.
const REFUSED: &[(Header, &[u8], ScanRefusal)] = &[
    // Pad bits of one interval that differ: of the scan, of the first of two, and of the second.
    (
        [GREY, LEVEL, END, 0],
        b"\x2f",
        ScanRefusal::MixedPad { place: 0 },
    ),
    (
        [TWO_HIGH, LEVEL, END, 1],
        b"\x3e\xff\xd0\x3f",
        ScanRefusal::MixedPad { place: 0 },
    ),
    (
        [TWO_HIGH, LEVEL, END, 1],
        b"\0\xff\xd0\x1f\xff\xd9",
        ScanRefusal::MixedPad { place: 3 },
    ),
    // Markers that are due: another one, another byte, half of one, none.
    (
        [TWO_HIGH, LEVEL, END, 1],
        b"\x3f\xff\xd1\x3f",
        ScanRefusal::RestartBad { place: 1 },
    ),
    (
        [TWO_HIGH, LEVEL, END, 1],
        b"\x3f\xff\xff\xd0\x3f",
        ScanRefusal::RestartBad { place: 1 },
    ),
    (
        [TWO_HIGH, LEVEL, END, 1],
        b"\x3f\0",
        ScanRefusal::RestartBad { place: 1 },
    ),
    (
        [TWO_HIGH, LEVEL, END, 1],
        b"\x3f\xff",
        ScanRefusal::ScanCut { place: 2 },
    ),
    (
        [TWO_HIGH, LEVEL, END, 1],
        b"\x3f",
        ScanRefusal::ScanCut { place: 1 },
    ),
    // Padding makes 0xff, and the zero stuffed after it is missing.
    (
        [GREY, ONES, ONES_AND_END, 0],
        b"\xff\xff\xd9",
        ScanRefusal::MarkerInScan { place: 0 },
    ),
    // Sixteen zeros before the end of a block, and past its last coefficient.
    (
        [GREY, LEVEL, ZEROS_AND_END, 0],
        b"\x3f",
        ScanRefusal::LooseZeros { place: 0 },
    ),
    (
        [GREY, LEVEL, ZEROS_AND_END, 0],
        b"\0",
        ScanRefusal::RunPast { place: 0 },
    ),
    // Fifteen zeros and a value, the fourth time past the last coefficient.
    (
        [GREY, LEVEL, FIFTEEN_ZEROS, 0],
        b"\0\0",
        ScanRefusal::RunPast { place: 0 },
    ),
    // A cut, a marker, and nothing after the header of most blocks.
    (
        [FIVE_HIGH, LEVEL, END, 0],
        b"\0",
        ScanRefusal::ScanCut { place: 1 },
    ),
    (
        [FIVE_HIGH, LEVEL, END, 0],
        b"\0\xff",
        ScanRefusal::ScanCut { place: 2 },
    ),
    (
        [GREY, LEVEL, END, 0],
        b"\xff\xd9",
        ScanRefusal::MarkerInScan { place: 0 },
    ),
    (
        [MOST_BLOCKS, LEVEL, END, 0],
        b"",
        ScanRefusal::ScanCut { place: 0 },
    ),
    // Sixteen bits that are no word.
    (
        [GREY, LEVEL, END, 0],
        b"\x80\0\0",
        ScanRefusal::CodeBad { place: 1 },
    ),
    // Symbols that no block has: a DC of category 12, coefficients of category 11 and 0.
    (
        [GREY, TWELVE, END, 0],
        b"\0\0",
        ScanRefusal::SymbolBad { place: 0 },
    ),
    (
        [GREY, LEVEL, TOO_LARGE, 0],
        b"\0\0",
        ScanRefusal::SymbolBad { place: 0 },
    ),
    (
        [GREY, LEVEL, RUN_OF_NOTHING, 0],
        b"\0\0",
        ScanRefusal::SymbolBad { place: 0 },
    ),
    // A DC beyond 32,767.
    (
        [SEVENTEEN_HIGH, ELEVEN, END, 0],
        CLIMB,
        ScanRefusal::DcRange { place: 35 },
    ),
];

#[test]
fn scans_are_refused(rt: HostRuntime) {
    for (header, scan, refusal) in REFUSED {
        let mut bytes = header_of(&rt, rt.alloc(), *header);
        let place = bytes.len();
        append(&rt, &mut bytes, scan);
        let plan = planned(&rt, &bytes);
        assert!(rt;
            is_refused(&rt, rt.alloc(), &plan, &bytes, place, *refusal),
            "{scan:?}"
        );
    }
}

// Whether the refusal is answered, and answered again, also by a reader that skips MCUs.
fn is_refused(
    rt: &impl Abort,
    alloc: Global,
    plan: &Plan,
    bytes: &[u8],
    place: usize,
    wanted: ScanRefusal,
) -> bool {
    let codes = PlanCodes::build(alloc, plan).expect(rt, "memory");
    let same = codes.copied(alloc).expect(rt, "memory");
    let mut reader = Reader::start(alloc, plan, codes, bytes, place);
    let mut skipping = Reader::start(alloc, plan, same, bytes, place);
    for _ in 0..plan.mcus() {
        let answer = next_mcu(rt, &mut reader);
        if skip_mcu(rt, &mut skipping) != answer {
            return false;
        }
        if let Err(refusal) = answer {
            return from_header(refusal, place) == wanted
                && next_mcu(rt, &mut reader) == Err(refusal)
                && skip_mcu(rt, &mut skipping) == Err(refusal);
        }
    }
    false
}

fn skip_mcu(rt: &impl Abort, reader: &mut Reader) -> Result<(), ScanRefusal> {
    assert!(rt; !reader.at_end());
    reader.skip_mcu()
}

fn next_mcu(rt: &impl Abort, reader: &mut Reader) -> Result<(), ScanRefusal> {
    let mut blocks = [Block::zero(); MOST_SLOTS];
    assert!(rt; !reader.at_end());
    let out = &mut blocks[..reader.mcu_blocks()];
    reader.next_mcu(out)
}

// A refusal by its place from the header's end on.
fn from_header(refusal: ScanRefusal, end: usize) -> ScanRefusal {
    match refusal {
        ScanRefusal::ScanCut { place } => ScanRefusal::ScanCut {
            place: place.wrapping_sub(end),
        },
        ScanRefusal::CodeBad { place } => ScanRefusal::CodeBad {
            place: place.wrapping_sub(end),
        },
        ScanRefusal::SymbolBad { place } => ScanRefusal::SymbolBad {
            place: place.wrapping_sub(end),
        },
        ScanRefusal::RunPast { place } => ScanRefusal::RunPast {
            place: place.wrapping_sub(end),
        },
        ScanRefusal::LooseZeros { place } => ScanRefusal::LooseZeros {
            place: place.wrapping_sub(end),
        },
        ScanRefusal::DcRange { place } => ScanRefusal::DcRange {
            place: place.wrapping_sub(end),
        },
        ScanRefusal::MarkerInScan { place } => ScanRefusal::MarkerInScan {
            place: place.wrapping_sub(end),
        },
        ScanRefusal::RestartBad { place } => ScanRefusal::RestartBad {
            place: place.wrapping_sub(end),
        },
        ScanRefusal::MixedPad { place } => ScanRefusal::MixedPad {
            place: place.wrapping_sub(end),
        },
    }
}
