// Headers, by the numbers of their frame and their tables.
use jpeg_marker::{Plan, read_header};
use std::alloc::Global;
use std::process::Abort;

// A frame, a DC table and an AC table, by their numbers, and how many MCUs a restart interval has, 0 if there is none.
pub(crate) type Header = [usize; 4];

// The bytes of a header.
pub(crate) fn header_of(rt: &impl Abort, alloc: Global, header: Header) -> Vec<u8> {
    let [frame, dc, ac, interval] = header;
    let mut bytes = Vec::new(alloc);
    append(rt, &mut bytes, frame_of(rt, frame));
    append(rt, &mut bytes, dc_table(rt, dc));
    append(rt, &mut bytes, ac_table(rt, ac));
    append(rt, &mut bytes, restarts(rt, interval));
    append(rt, &mut bytes, scan_of(frame));
    bytes
}

pub(crate) fn append(rt: &impl Abort, bytes: &mut Vec<u8>, more: &[u8]) {
    bytes.extend_from_slice(more).expect(rt, "memory");
}

// The plan of a header.
pub(crate) fn plan_of(rt: &impl Abort, alloc: Global, header: Header) -> Plan {
    let bytes = header_of(rt, alloc, header);
    planned(rt, &bytes)
}

// The plan of the header that the bytes begin with.
pub(crate) fn planned(rt: &impl Abort, bytes: &[u8]) -> Plan {
    match read_header(bytes) {
        Ok(plan) => plan,
        Err(_) => panic!(rt; "no header"),
    }
}

// The start of an image and a frame.
fn frame_of(rt: &impl Abort, frame: usize) -> &'static [u8] {
    assert!(rt; frame < FRAMES.len());
    FRAMES[frame]
}

fn dc_table(rt: &impl Abort, table: usize) -> &'static [u8] {
    assert!(rt; table < DC_TABLES.len());
    DC_TABLES[table]
}

fn ac_table(rt: &impl Abort, table: usize) -> &'static [u8] {
    assert!(rt; table < AC_TABLES.len());
    AC_TABLES[table]
}

// A restart after `interval` MCUs.
fn restarts(rt: &impl Abort, interval: usize) -> &'static [u8] {
    assert!(rt; interval < RESTARTS.len());
    RESTARTS[interval]
}

const RESTARTS: [&[u8]; 5] = [
    b"",
    b"\xff\xdd\0\x04\0\x01",
    b"\xff\xdd\0\x04\0\x02",
    b"\xff\xdd\0\x04\0\x03",
    b"\xff\xdd\0\x04\0\x04",
];

// The scan of all components.
fn scan_of(frame: usize) -> &'static [u8] {
    if frame == COLOUR || frame == TEN_BLOCKS {
        b"\xff\xda\0\x0c\x03\x01\0\x02\0\x03\0\0\x3f\0"
    } else {
        b"\xff\xda\0\x08\x01\x01\0\0\x3f\0"
    }
}

// Grey, 8 samples wide, and 8, 16, 24, 32, 40, 80 or 136 high; 16 wide and 8 high; 16,384 by 16,384 samples. Three
// components, the first sampled two by two, or two by four: one MCU of six blocks, or of ten.
pub(crate) const GREY: usize = 0;

pub(crate) const TWO_HIGH: usize = 1;

pub(crate) const THREE_HIGH: usize = 2;

pub(crate) const FOUR_HIGH: usize = 3;

pub(crate) const FIVE_HIGH: usize = 4;

pub(crate) const TEN_HIGH: usize = 5;

pub(crate) const SEVENTEEN_HIGH: usize = 6;

pub(crate) const TWO_WIDE: usize = 7;

pub(crate) const MOST_BLOCKS: usize = 8;

pub(crate) const COLOUR: usize = 9;

pub(crate) const TEN_BLOCKS: usize = 10;

const FRAMES: [&[u8]; 11] = [
    b"\xff\xd8\xff\xc0\0\x0b\x08\0\x08\0\x08\x01\x01\x11\0",
    b"\xff\xd8\xff\xc0\0\x0b\x08\0\x10\0\x08\x01\x01\x11\0",
    b"\xff\xd8\xff\xc0\0\x0b\x08\0\x18\0\x08\x01\x01\x11\0",
    b"\xff\xd8\xff\xc0\0\x0b\x08\0\x20\0\x08\x01\x01\x11\0",
    b"\xff\xd8\xff\xc0\0\x0b\x08\0\x28\0\x08\x01\x01\x11\0",
    b"\xff\xd8\xff\xc0\0\x0b\x08\0\x50\0\x08\x01\x01\x11\0",
    b"\xff\xd8\xff\xc0\0\x0b\x08\0\x88\0\x08\x01\x01\x11\0",
    b"\xff\xd8\xff\xc0\0\x0b\x08\0\x08\0\x10\x01\x01\x11\0",
    b"\xff\xd8\xff\xc0\0\x0b\x08\x40\0\x40\0\x01\x01\x11\0",
    b"\xff\xd8\xff\xc0\0\x11\x08\0\x10\0\x10\x03\x01\x22\0\x02\x11\0\x03\x11\0",
    b"\xff\xd8\xff\xc0\0\x11\x08\0\x20\0\x10\x03\x01\x24\0\x02\x11\0\x03\x11\0",
];

// DC tables: `0` for category 0; `0` for 0 and `1` for 1; `0` for 1 and `1` for 0; `0` for 11; `0` for 12; fifteen ones
// and `0` for 11; differences of luminance (ITU-T T.81, Table K.3).
pub(crate) const LEVEL: usize = 0;

pub(crate) const STEPS: usize = 1;

pub(crate) const ONES: usize = 2;

pub(crate) const ELEVEN: usize = 3;

pub(crate) const TWELVE: usize = 4;

pub(crate) const LONG_ELEVEN: usize = 5;

pub(crate) const TABLE_K3: usize = 6;

const DC_TABLES: [&[u8]; 7] = [
    b"\xff\xc4\0\x14\0\x01\0\0\0\0\0\0\0\0\0\0\0\0\0\0\0\0",
    b"\xff\xc4\0\x15\0\x02\0\0\0\0\0\0\0\0\0\0\0\0\0\0\0\0\x01",
    b"\xff\xc4\0\x15\0\x02\0\0\0\0\0\0\0\0\0\0\0\0\0\0\0\x01\0",
    b"\xff\xc4\0\x14\0\x01\0\0\0\0\0\0\0\0\0\0\0\0\0\0\0\x0b",
    b"\xff\xc4\0\x14\0\x01\0\0\0\0\0\0\0\0\0\0\0\0\0\0\0\x0c",
    &[
        0xff, 0xc4, 0x00, 0x23, 0x00, 0x01, 0x01, 0x01, 0x01, 0x01, 0x01, 0x01, 0x01, 0x01, 0x01,
        0x01, 0x01, 0x01, 0x01, 0x01, 0x01, 0x00, 0x01, 0x02, 0x03, 0x04, 0x05, 0x06, 0x07, 0x08,
        0x09, 0x0a, 0x0c, 0x0d, 0x0e, 0x0f, 0x0b,
    ],
    &[
        0xff, 0xc4, 0x00, 0x1f, 0x00, 0x00, 0x01, 0x05, 0x01, 0x01, 0x01, 0x01, 0x01, 0x01, 0x00,
        0x00, 0x00, 0x00, 0x00, 0x00, 0x00, 0x00, 0x01, 0x02, 0x03, 0x04, 0x05, 0x06, 0x07, 0x08,
        0x09, 0x0a, 0x0b,
    ],
];

// AC tables: `0` for the end of a block; `0` for 01 and `1` for the end; `0` for F0 and `1` for the end; `0` for 31 and
// `1` for the end; `0` for 0B; `0` for 10; `0` for F1 and `1` for 01; `0` for F0, `10` for 01, `110` for E1 and `111`
// for the end; fifteen ones and `0` for 0A; the words of Table K.5 of up to five bits.
pub(crate) const END: usize = 0;

pub(crate) const ONES_AND_END: usize = 1;

pub(crate) const ZEROS_AND_END: usize = 2;

pub(crate) const THREE_ZEROS: usize = 3;

pub(crate) const TOO_LARGE: usize = 4;

pub(crate) const RUN_OF_NOTHING: usize = 5;

pub(crate) const FIFTEEN_ZEROS: usize = 6;

pub(crate) const RUNS: usize = 7;

pub(crate) const LONG_TEN: usize = 8;

pub(crate) const SHORT_K5: usize = 9;

const AC_TABLES: [&[u8]; 10] = [
    b"\xff\xc4\0\x14\x10\x01\0\0\0\0\0\0\0\0\0\0\0\0\0\0\0\0",
    b"\xff\xc4\0\x15\x10\x02\0\0\0\0\0\0\0\0\0\0\0\0\0\0\0\x01\0",
    b"\xff\xc4\0\x15\x10\x02\0\0\0\0\0\0\0\0\0\0\0\0\0\0\0\xf0\0",
    b"\xff\xc4\0\x15\x10\x02\0\0\0\0\0\0\0\0\0\0\0\0\0\0\0\x31\0",
    b"\xff\xc4\0\x14\x10\x01\0\0\0\0\0\0\0\0\0\0\0\0\0\0\0\x0b",
    b"\xff\xc4\0\x14\x10\x01\0\0\0\0\0\0\0\0\0\0\0\0\0\0\0\x10",
    b"\xff\xc4\0\x15\x10\x02\0\0\0\0\0\0\0\0\0\0\0\0\0\0\0\xf1\x01",
    b"\xff\xc4\0\x17\x10\x01\x01\x02\0\0\0\0\0\0\0\0\0\0\0\0\0\xf0\x01\xe1\0",
    &[
        0xff, 0xc4, 0x00, 0x23, 0x10, 0x01, 0x01, 0x01, 0x01, 0x01, 0x01, 0x01, 0x01, 0x01, 0x01,
        0x01, 0x01, 0x01, 0x01, 0x01, 0x01, 0x01, 0x02, 0x03, 0x04, 0x05, 0x06, 0x07, 0x08, 0x09,
        0xf0, 0x00, 0x11, 0x12, 0x13, 0x14, 0x0a,
    ],
    &[
        0xff, 0xc4, 0x00, 0x1c, 0x10, 0x00, 0x02, 0x01, 0x03, 0x03, 0x00, 0x00, 0x00, 0x00, 0x00,
        0x00, 0x00, 0x00, 0x00, 0x00, 0x00, 0x01, 0x02, 0x03, 0x00, 0x04, 0x11, 0x05, 0x12, 0x21,
    ],
];
