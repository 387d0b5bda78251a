// Headers that are refused: each cause once, and which of two comes first.
use crate::marker_segments::{AC, DC, FRAME, OWN, SCAN, START, THREE, joined};
use jpeg_marker::HeaderRefusal::{
    ComponentsBad, FrameTwice, HeaderCut, LengthBad, MarkerBad, MultiScan, NoFrame, NoTable,
    NotBaseline, NotJpeg, PrecisionBad, ScanParams, SizeZero, TableBad, TooManyBlocks,
};
use jpeg_marker::{HeaderRefusal, read_header};

// What follows the start, the refusal, and its number.
const AFTER_START: &[(&[u8], HeaderRefusal, u8)] = &[
    // Fill to the end.
    (b"\xff\xff", HeaderCut, 2),
    // No length.
    (b"\xff\xdb", HeaderCut, 2),
    // Half a length.
    (b"\xff\xdb\0", HeaderCut, 2),
    // A segment past the end.
    (b"\xff\xdb\0\x04\0", HeaderCut, 2),
    // No marker after the start.
    (b"\0", MarkerBad { place: 2 }, 3),
    // A stuffed byte.
    (b"\xff\0", MarkerBad { place: 3 }, 3),
    // A stuffed byte after fill.
    (b"\xff\xff\xff\0", MarkerBad { place: 5 }, 3),
    // A second start.
    (b"\xff\xd8", MarkerBad { place: 3 }, 3),
    // A restart marker.
    (b"\xff\xd0", MarkerBad { place: 3 }, 3),
    // A reserved marker.
    (b"\xff\xbf", MarkerBad { place: 3 }, 3),
    // Other processes.
    (b"\xff\xc1", NotBaseline { code: 0xc1 }, 4),
    (b"\xff\xc2", NotBaseline { code: 0xc2 }, 4),
    (b"\xff\xc8", NotBaseline { code: 0xc8 }, 4),
    (b"\xff\xcc", NotBaseline { code: 0xcc }, 4),
    (b"\xff\xcf", NotBaseline { code: 0xcf }, 4),
    (b"\xff\xdc", NotBaseline { code: 0xdc }, 4),
    (b"\xff\xde", NotBaseline { code: 0xde }, 4),
    (b"\xff\xdf", NotBaseline { code: 0xdf }, 4),
    // A length of 1.
    (b"\xff\xdb\0\x01", LengthBad { place: 4 }, 5),
    // A length of 1 after fill.
    (b"\xff\xff\xdb\0\x01", LengthBad { place: 5 }, 5),
    // An interval of three bytes.
    (b"\xff\xdd\0\x05\0\0\0", LengthBad { place: 4 }, 5),
    // A table without all counts.
    (
        b"\xff\xc4\0\x12\0\x01\0\0\0\0\0\0\0\0\0\0\0\0\0\0",
        LengthBad { place: 4 },
        5,
    ),
    // A table without its value.
    (
        b"\xff\xc4\0\x13\0\x01\0\0\0\0\0\0\0\0\0\0\0\0\0\0\0",
        LengthBad { place: 4 },
        5,
    ),
    // A second table cut.
    (
        b"\xff\xc4\0\x15\0\x01\0\0\0\0\0\0\0\0\0\0\0\0\0\0\0\0\x10",
        LengthBad { place: 4 },
        5,
    ),
    // A frame of five bytes.
    (b"\xff\xc0\0\x07\x08\0\x08\0\x08", LengthBad { place: 4 }, 5),
    // A frame of two components in the room of one.
    (
        b"\xff\xc0\0\x0b\x08\0\x08\0\x08\x02\x01\x11\0",
        LengthBad { place: 4 },
        5,
    ),
    // A short scan before the frame.
    (b"\xff\xda\0\x02", NoFrame, 11),
    // Twelve bits.
    (
        b"\xff\xc0\0\x0b\x0c\0\x08\0\x08\x01\x01\x11\0",
        PrecisionBad,
        7,
    ),
    // No lines.
    (b"\xff\xc0\0\x0b\x08\0\0\0\x08\x01\x01\x11\0", SizeZero, 8),
    // No samples in a line.
    (b"\xff\xc0\0\x0b\x08\0\x08\0\0\x01\x01\x11\0", SizeZero, 8),
    // Twelve bits and no lines.
    (
        b"\xff\xc0\0\x0b\x0c\0\0\0\x08\x01\x01\x11\0",
        PrecisionBad,
        7,
    ),
    // No component.
    (b"\xff\xc0\0\x08\x08\0\x08\0\x08\0", ComponentsBad, 9),
    // Five components.
    (
        b"\xff\xc0\0\x17\x08\0\x08\0\x08\x05\x01\x11\0\x02\x11\0\x03\x11\0\x04\x11\0\x05\x11\0",
        ComponentsBad,
        9,
    ),
    // An identifier twice.
    (
        b"\xff\xc0\0\x0e\x08\0\x08\0\x08\x02\x01\x11\0\x01\x11\0",
        ComponentsBad,
        9,
    ),
    // H of 0.
    (
        b"\xff\xc0\0\x0b\x08\0\x08\0\x08\x01\x01\x01\0",
        ComponentsBad,
        9,
    ),
    // H of 5.
    (
        b"\xff\xc0\0\x0b\x08\0\x08\0\x08\x01\x01\x51\0",
        ComponentsBad,
        9,
    ),
    // V of 0.
    (
        b"\xff\xc0\0\x0b\x08\0\x08\0\x08\x01\x01\x10\0",
        ComponentsBad,
        9,
    ),
    // V of 5.
    (
        b"\xff\xc0\0\x0b\x08\0\x08\0\x08\x01\x01\x15\0",
        ComponentsBad,
        9,
    ),
    // Eleven blocks in an MCU.
    (
        b"\xff\xc0\0\x11\x08\0\x08\0\x08\x03\x01\x24\0\x02\x12\0\x03\x11\0",
        ComponentsBad,
        9,
    ),
    // Class 2.
    (
        b"\xff\xc4\0\x14\x20\x01\0\0\0\0\0\0\0\0\0\0\0\0\0\0\0\0",
        TableBad { place: 6 },
        10,
    ),
    // Number 4.
    (
        b"\xff\xc4\0\x14\x04\x01\0\0\0\0\0\0\0\0\0\0\0\0\0\0\0\0",
        TableBad { place: 6 },
        10,
    ),
    // A value twice.
    (
        b"\xff\xc4\0\x15\0\x02\0\0\0\0\0\0\0\0\0\0\0\0\0\0\0\x07\x07",
        TableBad { place: 6 },
        10,
    ),
    // Three words of one bit.
    (
        b"\xff\xc4\0\x16\0\x03\0\0\0\0\0\0\0\0\0\0\0\0\0\0\0\0\x01\x02",
        TableBad { place: 6 },
        10,
    ),
    // A second table with a value twice.
    (
        b"\xff\xc4\0\x27\0\x01\0\0\0\0\0\0\0\0\0\0\0\0\0\0\0\0\x10\x02\0\0\0\0\0\0\0\0\0\0\0\0\0\0\0\x07\x07",
        TableBad { place: 24 },
        10,
    ),
    // Class 2 without its value.
    (
        b"\xff\xc4\0\x13\x20\x01\0\0\0\0\0\0\0\0\0\0\0\0\0\0\0",
        TableBad { place: 6 },
        10,
    ),
];

#[test]
fn what_follows_the_start_is_refused(rt: HostRuntime) {
    for (own, refusal, number) in AFTER_START {
        let bytes = joined(&rt, rt.alloc(), &[START, OWN], own);
        assert!(rt; is_refused(&bytes, *refusal, *number), "{own:?}");
    }
}

fn is_refused(bytes: &[u8], wanted: HeaderRefusal, number: u8) -> bool {
    match read_header(bytes) {
        Ok(_) => false,
        Err(refusal) => refusal == wanted && refusal.number() == number,
    }
}

// Segments, what the header has of its own, the refusal, and its number.
const REFUSED: &[(&[usize], &[u8], HeaderRefusal, u8)] = &[
    // No byte.
    (&[OWN], b"", NotJpeg, 1),
    // One byte of the start.
    (&[OWN], b"\xff", NotJpeg, 1),
    // Another marker than the start.
    (&[OWN], b"\xff\xd9", NotJpeg, 1),
    // No marker first.
    (&[OWN], b"\0\xff\xd8", NotJpeg, 1),
    // No segment.
    (&[START], b"", HeaderCut, 2),
    // No marker after a segment.
    (&[START, FRAME, OWN], b"\0", MarkerBad { place: 15 }, 3),
    // A scan without a count.
    (
        &[START, FRAME, OWN],
        b"\xff\xda\0\x02",
        LengthBad { place: 17 },
        5,
    ),
    // A scan too long.
    (
        &[START, FRAME, OWN],
        b"\xff\xda\0\x09\x01\x01\0\0\x3f\0\0",
        LengthBad { place: 17 },
        5,
    ),
    // A second frame.
    (&[START, FRAME, FRAME], b"", FrameTwice, 6),
    // A second frame too short.
    (&[START, FRAME, OWN], b"\xff\xc0\0\x02", FrameTwice, 6),
    // A scan of no component.
    (
        &[START, FRAME, OWN],
        b"\xff\xda\0\x06\0\0\x3f\0",
        ScanParams,
        13,
    ),
    // A scan of two of one.
    (
        &[START, FRAME, OWN],
        b"\xff\xda\0\x0a\x02\x01\0\x02\0\0\x3f\0",
        ScanParams,
        13,
    ),
    // Another component.
    (
        &[START, FRAME, OWN],
        b"\xff\xda\0\x08\x01\x02\0\0\x3f\0",
        ScanParams,
        13,
    ),
    // No scan.
    (&[START, FRAME, DC, AC, OWN], b"", HeaderCut, 2),
    // DC table 4.
    (
        &[START, FRAME, DC, AC, OWN],
        b"\xff\xda\0\x08\x01\x01\x40\0\x3f\0",
        ScanParams,
        13,
    ),
    // AC table 4.
    (
        &[START, FRAME, DC, AC, OWN],
        b"\xff\xda\0\x08\x01\x01\x04\0\x3f\0",
        ScanParams,
        13,
    ),
    // From 1.
    (
        &[START, FRAME, DC, AC, OWN],
        b"\xff\xda\0\x08\x01\x01\0\x01\x3f\0",
        ScanParams,
        13,
    ),
    // Up to 62.
    (
        &[START, FRAME, DC, AC, OWN],
        b"\xff\xda\0\x08\x01\x01\0\0\x3e\0",
        ScanParams,
        13,
    ),
    // Successive approximation.
    (
        &[START, FRAME, DC, AC, OWN],
        b"\xff\xda\0\x08\x01\x01\0\0\x3f\x01",
        ScanParams,
        13,
    ),
    // A table of another number.
    (
        &[START, FRAME, DC, AC, OWN],
        b"\xff\xda\0\x08\x01\x01\x10\0\x3f\0",
        NoTable,
        14,
    ),
    // A scan before the frame.
    (&[START, DC, AC, SCAN], b"", NoFrame, 11),
    // A scan of one of three.
    (&[START, THREE, DC, AC, SCAN], b"", MultiScan, 12),
    // Another order.
    (
        &[START, THREE, OWN],
        b"\xff\xda\0\x0c\x03\x02\0\x01\0\x03\0\0\x3f\0",
        ScanParams,
        13,
    ),
    // No DC table.
    (&[START, FRAME, AC, SCAN], b"", NoTable, 14),
    // No AC table.
    (&[START, FRAME, DC, SCAN], b"", NoTable, 14),
    // One block row too many.
    (
        &[START, OWN, DC, AC, SCAN],
        b"\xff\xc0\0\x0b\x08\x80\x01\x80\0\x01\x01\x11\0",
        TooManyBlocks,
        15,
    ),
    // Too many blocks and no table.
    (
        &[START, OWN, SCAN],
        b"\xff\xc0\0\x0b\x08\xff\xff\xff\xff\x01\x01\x11\0",
        NoTable,
        14,
    ),
];

#[test]
fn segments_in_their_order_are_refused(rt: HostRuntime) {
    for (segments, own, refusal, number) in REFUSED {
        let bytes = joined(&rt, rt.alloc(), segments, own);
        assert!(rt; is_refused(&bytes, *refusal, *number), "{bytes:?}");
    }
}
