// Worked blocks, MCUs and scans through the plain program.
use crate::headers::{
    COLOUR, END, FOUR_HIGH, GREY, Header, LEVEL, ONES, ONES_AND_END, RUNS, SHORT_K5, TABLE_K3,
    THREE_HIGH, TWO_HIGH, TWO_WIDE, plan_of,
};
use crate::values::put;
use coef_block::Block;
use huff_table::{ComponentCodes, PlanCodes};
use jpeg_marker::Plan;
use scan_spec::{PlainError, ScanShape, Slot, WriteStop, plain_block, plain_blocks, plain_scan};
use std::alloc::Global;
use std::process::Abort;

// Zigzag indexes and the coefficients there.
type Coefficients<'a> = &'a [(usize, i16)];

// The AC table, the DC before, the coefficients that aren't 0, and the bits.
type Spelled<'a> = (usize, i16, Coefficients<'a>, &'a [u8]);

const SPELLED: &[Spelled<'static>] = &[
    (
        SHORT_K5,
        12,
        &[(0, 15), (2, -2), (3, -1), (4, -1), (5, -1), (8, -1)],
        b"0111111011010000000001110001010",
    ),
    (SHORT_K5, 0, &[], b"001010"),
    (SHORT_K5, 0, &[(0, -1)], b"01001010"),
    (SHORT_K5, -1024, &[(0, 1023)], b"111111110111111111111010"),
    (SHORT_K5, 1000, &[(0, -1047)], b"111111110000000000001010"),
    (SHORT_K5, 0, &[(1, 15)], b"00101111111010"),
    (SHORT_K5, 0, &[(1, -15)], b"00101100001010"),
    (RUNS, 0, &[(33, 1)], b"0000101111"),
    (RUNS, 0, &[(63, -1)], b"000001100"),
];

#[test]
fn blocks_are_spelled(rt: HostRuntime) {
    for (table, before, coefficients, text) in SPELLED {
        let codes = codes_of(&rt, rt.alloc(), *table);
        let bits = block_bits(&rt, rt.alloc(), &codes, *before, coefficients);
        assert!(rt; are_bits(bits, text), "{coefficients:?}");
    }
}

// The AC table, the DC before, the coefficients that aren't 0, and why there are no bits.
type Stopped<'a> = (usize, i16, Coefficients<'a>, WriteStop);

const STOPPED: &[Stopped<'static>] = &[
    (SHORT_K5, -1024, &[(0, 1024)], WriteStop::DiffRange),
    (SHORT_K5, 32767, &[(0, -32767)], WriteStop::DiffRange),
    (SHORT_K5, 0, &[(1, 32)], WriteStop::NoCode),
    (SHORT_K5, 0, &[(17, 1)], WriteStop::NoCode),
    (RUNS, 0, &[(1, 1), (2, -1), (63, 1)], WriteStop::NoCode),
];

#[test]
fn blocks_without_bits(rt: HostRuntime) {
    for (table, before, coefficients, stop) in STOPPED {
        let codes = codes_of(&rt, rt.alloc(), *table);
        let bits = block_bits(&rt, rt.alloc(), &codes, *before, coefficients);
        assert!(rt; is_stopped(bits, *stop), "{coefficients:?}");
    }
}

fn is_stopped(bits: Result<Vec<bool>, PlainError>, wanted: WriteStop) -> bool {
    match bits {
        Err(PlainError::Stop(stop)) => stop == wanted,
        _ => false,
    }
}

fn are_bits(bits: Result<Vec<bool>, PlainError>, text: &[u8]) -> bool {
    match bits {
        Ok(bits) => are_digits(&bits, text),
        Err(_) => false,
    }
}

fn are_digits(bits: &[bool], text: &[u8]) -> bool {
    for (bit, digit) in bits.iter().zip(text) {
        if *bit != (*digit == b'1') {
            return false;
        }
    }
    bits.len() == text.len()
}

// The code words of a grey image with Table K.3 and this AC table.
fn codes_of(rt: &impl Abort, alloc: Global, table: usize) -> PlanCodes {
    let plan = plan_of(rt, alloc, [GREY, TABLE_K3, table, 0]);
    PlanCodes::build(alloc, &plan).expect(rt, "memory")
}

fn block_bits(
    rt: &impl Abort,
    alloc: Global,
    codes: &PlanCodes,
    before: i16,
    coefficients: Coefficients,
) -> Result<Vec<bool>, PlainError> {
    let block = block_of(rt, coefficients);
    assert!(rt; codes.components().len() == 4);
    assert!(rt; before.unsigned_abs() <= 32767);
    plain_block(alloc, &codes.components()[0], before, &block)
}

fn block_of(rt: &impl Abort, coefficients: Coefficients) -> Block {
    let mut block = Block::zero();
    for (index, value) in coefficients {
        put(rt, &mut block, *index, *value);
    }
    block
}

// Two blocks of the first component and one of the second, twice, each by its component and its DC.
const TWO_MCUS: &[(usize, i16)] = &[(0, 4), (0, 5), (1, 5), (0, 5), (0, 4), (1, 5)];

// Each DC is coded by the last one of its component.
#[test]
fn mcus_are_spelled(rt: HostRuntime) {
    let codes = codes_of(&rt, rt.alloc(), SHORT_K5);
    assert!(rt; codes.components().len() == 4);
    let bits = mcus_bits(&rt, rt.alloc(), &codes.components()[0]);
    assert!(rt; are_bits(bits, b"0101101001011010100101101000101001001010001010"));
}

// The DC of the first component before is 3.
fn mcus_bits(
    rt: &impl Abort,
    alloc: Global,
    codes: &ComponentCodes,
) -> Result<Vec<bool>, PlainError> {
    let mut slots = Vec::new(alloc);
    let mut blocks = Vec::new(alloc);
    for (component, dc) in TWO_MCUS {
        slots.push(slot(*component, codes)).expect(rt, "memory");
        blocks.push(block_of(rt, &[(0, *dc)])).expect(rt, "memory");
    }
    bits_after_three(rt, alloc, &slots, &blocks)
}

fn bits_after_three(
    rt: &impl Abort,
    alloc: Global,
    slots: &[Slot],
    blocks: &[Block],
) -> Result<Vec<bool>, PlainError> {
    assert!(rt; slots.len() == blocks.len());
    assert!(rt; slots.iter().all(|slot| slot.component < 4));
    plain_blocks(alloc, slots, [3, 0, 0, 0], blocks)
}

fn slot(component: usize, codes: &ComponentCodes) -> Slot {
    Slot {
        component,
        codes: *codes,
    }
}

// A header, the pad bit, and the bytes of zero blocks. By the tables LEVEL and END a zero block has two bits of 0, and
// by ONES and ONES_AND_END two bits of 1.
type Scanned<'a> = (Header, bool, &'a [u8]);

const SCANNED: &[Scanned<'static>] = &[
    ([GREY, LEVEL, END, 0], true, b"\x3f"),
    ([GREY, LEVEL, END, 0], false, b"\0"),
    ([TWO_WIDE, LEVEL, END, 0], true, b"\x0f"),
    ([GREY, ONES, ONES_AND_END, 0], true, b"\xff\0"),
    ([GREY, ONES, ONES_AND_END, 0], false, b"\xc0"),
    ([FOUR_HIGH, ONES, ONES_AND_END, 0], true, b"\xff\0"),
    ([FOUR_HIGH, ONES, ONES_AND_END, 0], false, b"\xff\0"),
    ([TWO_HIGH, LEVEL, END, 1], true, b"\x3f\xff\xd0\x3f"),
    (
        [THREE_HIGH, LEVEL, END, 1],
        true,
        b"\x3f\xff\xd0\x3f\xff\xd1\x3f",
    ),
    ([THREE_HIGH, LEVEL, END, 2], true, b"\x0f\xff\xd0\x3f"),
    ([TWO_HIGH, LEVEL, END, 2], true, b"\x0f"),
    ([COLOUR, LEVEL, END, 0], true, b"\0\x0f"),
];

#[test]
fn scans_are_spelled(rt: HostRuntime) {
    for (header, pad, bytes) in SCANNED {
        let plan = plan_of(&rt, rt.alloc(), *header);
        assert!(rt; is_scan(&rt, rt.alloc(), &plan, *pad, bytes), "{bytes:?}");
    }
}

// Whether these are the bytes of zero blocks.
fn is_scan(rt: &impl Abort, alloc: Global, plan: &Plan, pad: bool, bytes: &[u8]) -> bool {
    let codes = PlanCodes::build(alloc, plan).expect(rt, "memory");
    let slots = slots_of(rt, alloc, &ScanShape::of(plan, codes));
    let count = plan.blocks() as usize;
    let blocks = Vec::from_elem(alloc, Block::zero(), count).expect(rt, "memory");
    match scan_bytes(rt, alloc, plan, &slots, &blocks, pad) {
        Ok(written) => written.as_slice() == bytes,
        Err(_) => false,
    }
}

fn scan_bytes(
    rt: &impl Abort,
    alloc: Global,
    plan: &Plan,
    slots: &[Slot],
    blocks: &[Block],
    pad: bool,
) -> Result<Vec<u8>, PlainError> {
    let (mcus, interval) = (plan.mcus(), u32::from(plan.interval()));
    assert!(rt; (mcus as usize).checked_mul(slots.len()) == Some(blocks.len()));
    assert!(rt; slots.iter().all(|slot| slot.component < 4));
    plain_scan(alloc, slots, mcus, interval, blocks, pad)
}

// The slots of an MCU, as the plain program is given them.
fn slots_of(rt: &impl Abort, alloc: Global, shape: &ScanShape) -> Vec<Slot> {
    let (components, indexes) = shape.slots();
    let mut slots = Vec::new(alloc);
    for index in indexes {
        let component = usize::from(*index);
        assert!(rt; component < components.len());
        slots
            .push(slot(component, &components[component]))
            .expect(rt, "memory");
    }
    slots
}
