// Worked scans that are written, and blocks that have no bits.
use crate::headers::{
    COLOUR, ELEVEN, END, FIVE_HIGH, FOUR_HIGH, GREY, Header, LEVEL, LONG_ELEVEN, LONG_TEN, ONES,
    ONES_AND_END, RUNS, SHORT_K5, STEPS, TABLE_K3, TEN_BLOCKS, TEN_HIGH, THREE_HIGH, THREE_ZEROS,
    TWO_HIGH, TWO_WIDE, plan_of,
};
use crate::pads::{BOTH, IN_VAIN, NO_BIT, ONE, ZERO, ZERO_IN_VAIN, are_for};
use crate::values::{Value, mcu_of, put};
use bit_list::{BitOut, Piece};
use coef_block::Block;
use handover::PadSum;
use huff_table::PlanCodes;
use jpeg_marker::Plan;
use scan_spec::{MOST_SLOTS, Pads, WriteStop};
use scan_write::{Writer, mcu_room};
use std::alloc::Global;
use std::process::Abort;

// A header, the pad bits, the bytes of zero blocks, and what was padded.
const ZEROS: &[(Header, Pads<'static>, &[u8], PadSum)] = &[
    // Zero block and ones.
    ([GREY, LEVEL, END, 0], Pads::All(true), b"\x3f", ONE),
    // Zero block and zeros.
    ([GREY, LEVEL, END, 0], Pads::All(false), b"\0", ZERO),
    // Two blocks in a byte.
    ([TWO_WIDE, LEVEL, END, 0], Pads::All(true), b"\x0f", ONE),
    // Full byte is not padded.
    (
        [FOUR_HIGH, ONES, ONES_AND_END, 0],
        Pads::All(true),
        b"\xff\0",
        NO_BIT,
    ),
    // Padding makes ff.
    (
        [GREY, ONES, ONES_AND_END, 0],
        Pads::All(true),
        b"\xff\0",
        ONE,
    ),
    // One restart.
    (
        [TWO_HIGH, LEVEL, END, 1],
        Pads::All(true),
        b"\x3f\xff\xd0\x3f",
        ONE,
    ),
    // Two restarts and zeros.
    (
        [THREE_HIGH, LEVEL, END, 1],
        Pads::All(false),
        b"\0\xff\xd0\0\xff\xd1\0",
        ZERO,
    ),
    // Two restarts.
    (
        [THREE_HIGH, LEVEL, END, 1],
        Pads::All(true),
        b"\x3f\xff\xd0\x3f\xff\xd1\x3f",
        ONE,
    ),
    // Marker numbers go round.
    (
        [TEN_HIGH, LEVEL, END, 1],
        Pads::All(true),
        &[
            0x3f, 0xff, 0xd0, 0x3f, 0xff, 0xd1, 0x3f, 0xff, 0xd2, 0x3f, 0xff, 0xd3, 0x3f, 0xff,
            0xd4, 0x3f, 0xff, 0xd5, 0x3f, 0xff, 0xd6, 0x3f, 0xff, 0xd7, 0x3f, 0xff, 0xd0, 0x3f,
        ],
        ONE,
    ),
    // Last interval is shorter.
    (
        [THREE_HIGH, LEVEL, END, 2],
        Pads::All(true),
        b"\x0f\xff\xd0\x3f",
        ONE,
    ),
    // No marker after a whole last interval.
    ([TWO_HIGH, LEVEL, END, 2], Pads::All(true), b"\x0f", ONE),
    // Six blocks.
    ([COLOUR, LEVEL, END, 0], Pads::All(true), b"\0\x0f", ONE),
    // A bit for each interval.
    (
        [TWO_HIGH, LEVEL, END, 1],
        Pads::Each(b"\x80"),
        b"\x3f\xff\xd0\0",
        BOTH,
    ),
    (
        [TWO_HIGH, LEVEL, END, 1],
        Pads::Each(b"\x40"),
        b"\0\xff\xd0\x3f",
        BOTH,
    ),
    (
        [TWO_HIGH, LEVEL, END, 1],
        Pads::Each(b"\xc0"),
        b"\x3f\xff\xd0\x3f",
        ONE,
    ),
    (
        [TWO_HIGH, LEVEL, END, 1],
        Pads::Each(b"\0"),
        b"\0\xff\xd0\0",
        ZERO,
    ),
    (
        [TEN_HIGH, LEVEL, END, 1],
        Pads::Each(b"\xaa\x40"),
        &[
            0x3f, 0xff, 0xd0, 0x00, 0xff, 0xd1, 0x3f, 0xff, 0xd2, 0x00, 0xff, 0xd3, 0x3f, 0xff,
            0xd4, 0x00, 0xff, 0xd5, 0x3f, 0xff, 0xd6, 0x00, 0xff, 0xd7, 0x00, 0xff, 0xd0, 0x3f,
        ],
        BOTH,
    ),
    // An interval that pads no bit.
    (
        [FIVE_HIGH, ONES, ONES_AND_END, 4],
        Pads::All(false),
        b"\xff\0\xff\xd0\xc0",
        ZERO,
    ),
    (
        [FIVE_HIGH, ONES, ONES_AND_END, 4],
        Pads::Each(b"\x80"),
        b"\xff\0\xff\xd0\xc0",
        ZERO,
    ),
    // Its bit of a list is 0, and in vain.
    (
        [FIVE_HIGH, ONES, ONES_AND_END, 4],
        Pads::Each(b"\0"),
        b"\xff\0\xff\xd0\xc0",
        ZERO_IN_VAIN,
    ),
    (
        [FOUR_HIGH, ONES, ONES_AND_END, 0],
        Pads::Each(b"\0"),
        b"\xff\0",
        IN_VAIN,
    ),
    (
        [FOUR_HIGH, ONES, ONES_AND_END, 0],
        Pads::All(false),
        b"\xff\0",
        NO_BIT,
    ),
];

#[test]
fn zero_blocks_are_written(rt: HostRuntime) {
    for (header, pads, bytes, padded) in ZEROS {
        let written = is_written(&rt, rt.alloc(), *header, *pads, &[], bytes, *padded);
        assert!(rt; written, "{bytes:?}");
    }
}

// A header, the coefficients that aren't 0, the bytes, and what was padded.
const VALUES: &[(Header, &[Value], &[u8], PadSum)] = &[
    // One step.
    ([GREY, STEPS, END, 0], &[(0, 0, 1)], b"\xdf", ONE),
    // Second difference is zero.
    (
        [TWO_HIGH, STEPS, END, 0],
        &[(0, 0, 1), (1, 0, 1)],
        b"\xc7",
        ONE,
    ),
    // Difference begins anew after a restart.
    (
        [TWO_HIGH, STEPS, END, 1],
        &[(0, 0, 1), (1, 0, 1)],
        b"\xdf\xff\xd0\xdf",
        ONE,
    ),
    // Largest difference.
    ([GREY, ELEVEN, END, 0], &[(0, 0, 2047)], b"\x7f\xf7", ONE),
    // Least difference.
    ([GREY, ELEVEN, END, 0], &[(0, 0, -2047)], b"\0\x07", ONE),
    // Each component has its own difference.
    (
        [COLOUR, STEPS, END, 0],
        &[(0, 0, 1), (1, 0, 1), (2, 0, 1), (3, 0, 1), (5, 0, -1)],
        b"\xc0\x13",
        ONE,
    ),
    // Three zeros and a value.
    ([GREY, LEVEL, THREE_ZEROS, 0], &[(0, 4, -1)], b"\x1f", ONE),
    // Twice sixteen zeros.
    ([GREY, LEVEL, RUNS, 0], &[(0, 33, 1)], b"\x17\xff\0", ONE),
    // No end after the last coefficient.
    ([GREY, LEVEL, RUNS, 0], &[(0, 63, -1)], b"\x0c", NO_BIT),
    // Differences 12 and 3, and the coefficients -2, -1, -1, -1 and, after two zeros, -1.
    (
        [TWO_WIDE, TABLE_K3, SHORT_K5, 0],
        &[
            (0, 0, 12),
            (1, 0, 15),
            (1, 2, -2),
            (1, 3, -1),
            (1, 4, -1),
            (1, 5, -1),
            (1, 8, -1),
        ],
        b"\xb9\x4f\xda\0\xe2\xbf",
        ONE,
    ),
];

#[test]
fn values_are_written(rt: HostRuntime) {
    for (header, values, bytes, padded) in VALUES {
        let written = is_written(
            &rt,
            rt.alloc(),
            *header,
            Pads::All(true),
            values,
            bytes,
            *padded,
        );
        assert!(rt; written, "{bytes:?}");
    }
}

// Whether these are the scan's bytes, and this was padded.
fn is_written(
    rt: &impl Abort,
    alloc: Global,
    header: Header,
    pads: Pads,
    values: &[Value],
    bytes: &[u8],
    padded: PadSum,
) -> bool {
    let plan = plan_of(rt, alloc, header);
    let mut out = Piece::new(alloc).expect(rt, "memory");
    assert!(rt; are_for(&plan, &pads));
    let codes = PlanCodes::build(alloc, &plan).expect(rt, "memory");
    let mut writer = Writer::start(&plan, codes, pads);
    put_mcus(rt, &mut writer, plan.mcus(), values, &mut out);
    writer.at_end() && writer.padded() == padded && out.bytes() == bytes
}

fn put_mcus(rt: &impl Abort, writer: &mut Writer, count: u32, values: &[Value], out: &mut Piece) {
    for number in 0..count {
        assert!(rt;
            put_mcu(rt, writer, number, values, out) == Ok(()),
            "MCU {number}"
        );
    }
}

// Writes MCU `number` of a scan with these coefficients.
fn put_mcu(
    rt: &impl Abort,
    writer: &mut Writer,
    number: u32,
    values: &[Value],
    out: &mut Piece,
) -> Result<(), WriteStop> {
    let count = writer.mcu_blocks();
    assert!(rt; number < 1000);
    let blocks = mcu_of(rt, number as usize * count, count, values);
    assert!(rt; !writer.at_end());
    assert!(rt; out.free() >= mcu_room());
    writer.mcu(&blocks[..count], out)
}

// A header, the coefficients that aren't 0, how many MCUs are written, their bytes, and the stop of the next one.
const STOPPED: &[(Header, &[Value], u32, &[u8], WriteStop)] = &[
    // No word for a category.
    (
        [GREY, LEVEL, END, 0],
        &[(0, 0, 1)],
        0,
        b"",
        WriteStop::NoCode,
    ),
    // No word for a coefficient.
    (
        [GREY, LEVEL, END, 0],
        &[(0, 63, 1)],
        0,
        b"",
        WriteStop::NoCode,
    ),
    // Difference of 2048.
    (
        [GREY, LEVEL, END, 0],
        &[(0, 0, 2048)],
        0,
        b"",
        WriteStop::DiffRange,
    ),
    // Difference of minus 2048.
    (
        [GREY, ELEVEN, END, 0],
        &[(0, 0, -2048)],
        0,
        b"",
        WriteStop::DiffRange,
    ),
    // Difference of the largest DCs.
    (
        [COLOUR, LONG_ELEVEN, END, 0],
        &[(0, 0, 2), (1, 0, 32767), (2, 0, -32767)],
        0,
        b"",
        WriteStop::DiffRange,
    ),
    // Sixth block of an MCU: the first five have bits.
    (
        [COLOUR, LEVEL, END, 0],
        &[(5, 1, 1)],
        0,
        b"",
        WriteStop::NoCode,
    ),
    // Second interval.
    (
        [TWO_HIGH, STEPS, END, 1],
        &[(0, 0, 1), (1, 0, 2)],
        1,
        b"\xdf\xff\xd0",
        WriteStop::NoCode,
    ),
];

#[test]
fn scans_are_stopped(rt: HostRuntime) {
    for (header, values, count, bytes, stop) in STOPPED {
        let plan = plan_of(&rt, rt.alloc(), *header);
        let mut out = Piece::new(rt.alloc()).expect(&rt, "memory");
        assert!(rt;
            stops(
                &rt,
                rt.alloc(),
                &plan,
                values,
                *count,
                bytes,
                *stop,
                &mut out
            ),
            "{values:?}"
        );
    }
}

// Whether the MCU after these is stopped, twice, and then one that has bits.
fn stops(
    rt: &impl Abort,
    alloc: Global,
    plan: &Plan,
    values: &[Value],
    count: u32,
    bytes: &[u8],
    stop: WriteStop,
    out: &mut Piece,
) -> bool {
    let codes = PlanCodes::build(alloc, plan).expect(rt, "memory");
    let mut writer = Writer::start(plan, codes, Pads::All(true));
    put_mcus(rt, &mut writer, count, values, out);
    is_stopped(rt, &mut writer, count, values, stop, out, bytes)
        && is_stopped(rt, &mut writer, count, values, stop, out, bytes)
        && is_stopped(rt, &mut writer, count, &[], stop, out, bytes)
}

// Whether an MCU is stopped, the bytes are these after it, and nothing is padded.
fn is_stopped(
    rt: &impl Abort,
    writer: &mut Writer,
    number: u32,
    values: &[Value],
    stop: WriteStop,
    out: &mut Piece,
    bytes: &[u8],
) -> bool {
    let padded = writer.padded();
    put_mcu(rt, writer, number, values, out) == Err(stop)
        && out.bytes() == bytes
        && !writer.at_end()
        && writer.padded() == padded
}

// DCs that differ by 2,047 from the one before of their component.
const DCS: [i16; MOST_SLOTS] = [
    2047, 4094, 6141, 8188, 10235, 12282, 14329, 16376, 2047, 2047,
];

// Ten blocks of the most bits, in the least room: 2,082 bytes, of which 1,442 are 0xff, after 16,348 markers.
#[test]
fn largest_mcu(rt: HostRuntime) {
    let plan = plan_of(&rt, rt.alloc(), [TEN_BLOCKS, LONG_ELEVEN, LONG_TEN, 0]);
    let mut out = markers(&rt, rt.alloc());
    assert!(rt; out.free() == mcu_room());
    assert!(rt; are_put(&rt, rt.alloc(), &plan, &mut out));
    assert!(rt; out.len() == 32_696 + 3524 && count_of_ff(out.bytes()) == 16_348 + 1442);
}

// A piece of 16,348 markers.
fn markers(rt: &impl Abort, alloc: Global) -> Piece {
    let mut out = Piece::new(alloc).expect(rt, "memory");
    for _ in 0..16_348 {
        let mut filler = BitOut::at(0, 0);
        assert!(rt; out.len() < 36_000);
        filler.mark(0xd0, &mut out);
    }
    out
}

// Whether the ten blocks are a whole scan, whose last byte is padded.
fn are_put(rt: &impl Abort, alloc: Global, plan: &Plan, out: &mut Piece) -> bool {
    let mut blocks = [Block::zero(); MOST_SLOTS];
    for i in 0..MOST_SLOTS {
        blocks[i] = full(rt, DCS[i]);
    }
    let codes = PlanCodes::build(alloc, plan).expect(rt, "memory");
    let mut writer = Writer::start(plan, codes, Pads::All(true));
    assert!(rt; !writer.at_end());
    assert!(rt; writer.mcu_blocks() == MOST_SLOTS);
    assert!(rt; out.free() >= mcu_room());
    writer.mcu(&blocks, out) == Ok(()) && writer.at_end() && writer.padded() == ONE
}

// A block of this DC and the largest AC coefficients.
fn full(rt: &impl Abort, dc: i16) -> Block {
    let mut block = Block::zero();
    put(rt, &mut block, 0, dc);
    for index in 1..64 {
        put(rt, &mut block, index, 1023);
    }
    block
}

fn count_of_ff(bytes: &[u8]) -> usize {
    bytes.iter().filter(|byte| **byte == 0xff).count()
}
