// The standard's tables with its code words, and bits that are no word.
use crate::marker_segments::{
    BOTH, FRAME, K3, K4, K5, K6, ONE, SCAN, START, TWO, TWO_SCAN, planned,
};
use crate::standard_words::{K3_WORDS, K4_WORDS, K5_WORDS, K6_WORDS, Word};
use bit_list::{BitBuffer, BitFault, BitIn, BitOut, Piece};
use huff_table::{CodeFault, Codes, PlanCodes};
use std::alloc::Global;
use std::process::Abort;

// The code words of the standard's tables: of luminance first, and then of chrominance.
fn standard_codes(rt: &impl Abort, alloc: Global) -> PlanCodes {
    let plan = planned(rt, alloc, &[START, TWO, K3, K4, K5, K6, TWO_SCAN]);
    PlanCodes::build(alloc, &plan).expect(rt, "memory")
}

// A component, whether the words are those of AC coefficients, and the words.
const WORDS: &[(usize, bool, &[Word])] = &[
    (0, false, K3_WORDS),
    (0, true, K5_WORDS),
    (1, false, K4_WORDS),
    (1, true, K6_WORDS),
];

#[test]
fn words_of_the_standard(rt: HostRuntime) {
    let all = standard_codes(&rt, rt.alloc());
    assert!(rt; all.components().len() == 4);
    for (component, is_ac, words) in WORDS {
        let codes = codes_at(&rt, &all, *component, *is_ac);
        are_words(&rt, codes, words);
        let mut ones = BitIn::at(&[0xff, 0, 0xff, 0], 0, 0);
        ones.ready();
        assert!(rt; codes.by_sixteen_bits(&mut ones) == None);
        there_and_back(&rt, rt.alloc(), codes, words);
    }
}

fn codes_at<'a>(rt: &impl Abort, all: &'a PlanCodes, component: usize, is_ac: bool) -> &'a Codes {
    assert!(rt; component < all.components().len());
    if is_ac {
        all.ac(component)
    } else {
        all.dc(component)
    }
}

#[test]
fn values_without_a_word(rt: HostRuntime) {
    let codes = standard_codes(&rt, rt.alloc());
    assert!(rt; codes_at(&rt, &codes, 1, false).word(12) == None);
    assert!(rt; codes_at(&rt, &codes, 0, true).word(0x0b) == None);
    // The frame has two components.
    assert!(rt; codes_at(&rt, &codes, 2, false).word(0) == None);
    assert!(rt; codes_at(&rt, &codes, 3, true).word(0) == None);
}

// Each word is the one stated, and is found by the bits that begin with it.
fn are_words(rt: &impl Abort, codes: &Codes, words: &[Word]) {
    for (value, code, size) in words {
        assert!(rt; codes.word(*value) == Some((*code, *size)), "{value}");
        assert!(rt; is_quick(codes, *value, *code, *size), "{value}");
    }
}

// A word of at most nine bits is found by each nine bits that begin with it, and a longer one by none.
fn is_quick(codes: &Codes, value: u8, code: u16, size: u8) -> bool {
    if size > 16 {
        return false;
    }
    if size > 9 {
        return is_found(codes, code >> (size - 9), None);
    }
    let first = u32::from(code) << (9 - size);
    for index in first..first + (1 << (9 - size)) {
        if index >= 512 || !is_found(codes, index as u16, Some((value, size))) {
            return false;
        }
    }
    true
}

fn is_found(codes: &Codes, index: u16, found: Option<(u8, u8)>) -> bool {
    index < 512 && codes.quick(index) == found
}

// Words that are written one after the other are read as their values, also by sixteen bits.
fn there_and_back(rt: &impl Abort, alloc: Global, codes: &Codes, words: &[Word]) {
    let mut out = Piece::new(alloc).expect(rt, "memory");
    put_words(rt, words, &mut out);
    assert!(rt; out.len() < 1000);
    out.push(0);
    out.push(0);
    let mut input = BitIn::at(out.bytes(), 0, 0);
    let mut same = BitIn::at(out.bytes(), 0, 0);
    for (value, _, _) in words {
        assert!(rt; codes.next(&mut input) == Ok(*value), "{value}");
        same.ready();
        assert!(rt; codes.by_sixteen_bits(&mut same) == Some(*value), "{value}");
    }
}

fn put_words(rt: &impl Abort, words: &[Word], out: &mut Piece) {
    let mut begun = BitOut::at(0, 0);
    for (_, code, size) in words {
        assert!(rt; *size <= 16);
        assert!(rt; u32::from(*code) >> *size == 0);
        assert!(rt; out.len() < 1000);
        let mut buffer = BitBuffer::of(begun);
        buffer.put(u32::from(*code), u32::from(*size), out);
        begun = buffer.begun(out);
    }
    assert!(rt; out.len() < 1000);
    begun.pad(true, out);
}

// The code words of a DC table with `0` alone, and of an AC table with `0` and `1`.
fn short_codes(rt: &impl Abort, alloc: Global) -> PlanCodes {
    let plan = planned(rt, alloc, &[START, FRAME, ONE, BOTH, SCAN]);
    PlanCodes::build(alloc, &plan).expect(rt, "memory")
}

// Bits, and what is read of them by the table with the word `0` alone.
const BITS: &[(&[u8], Result<u8, CodeFault>)] = &[
    (&[0x7f], Ok(7)),
    (&[0x80, 0x00, 0x00], Err(CodeFault::NoWord { place: 1 })),
    (
        &[0xff, 0x00, 0xff, 0x00],
        Err(CodeFault::NoWord { place: 2 }),
    ),
    (&[0xfe, 0xff, 0x00], Err(CodeFault::NoWord { place: 1 })),
    (&[0x80], Err(CodeFault::Bits(BitFault::Cut { place: 1 }))),
    (
        &[0x80, 0xff],
        Err(CodeFault::Bits(BitFault::Cut { place: 2 })),
    ),
    (&[], Err(CodeFault::Bits(BitFault::Cut { place: 0 }))),
    (
        &[0xff, 0x00, 0xff, 0xd9],
        Err(CodeFault::Bits(BitFault::MarkerInScan { place: 2 })),
    ),
    (
        &[0xff, 0xd0],
        Err(CodeFault::Bits(BitFault::MarkerInScan { place: 0 })),
    ),
];

#[test]
fn bits_that_are_no_word(rt: HostRuntime) {
    let codes = short_codes(&rt, rt.alloc());
    assert!(rt; codes.components().len() == 4);
    for (bytes, value) in BITS {
        assert!(rt; is_read(codes.dc(0), bytes, *value), "{bytes:?}");
    }
    assert!(rt; are_both_read(codes.ac(0)));
}

fn is_read(codes: &Codes, bytes: &[u8], value: Result<u8, CodeFault>) -> bool {
    let mut input = BitIn::at(bytes, 0, 0);
    codes.next(&mut input) == value
}

// Whether `0` and then `1`, a word of all ones, are read.
fn are_both_read(codes: &Codes) -> bool {
    let mut input = BitIn::at(&[0x40], 0, 0);
    codes.next(&mut input) == Ok(0xf0)
        && codes.next(&mut input) == Ok(0)
        && codes.word(0) == Some((1, 1))
}

// Nine bits, and what is found by them: if there are two words, and if there is one.
const NINE_BITS: &[(u16, Option<(u8, u8)>, Option<(u8, u8)>)] = &[
    (0, Some((0xf0, 1)), Some((7, 1))),
    (255, Some((0xf0, 1)), Some((7, 1))),
    (256, Some((0, 1)), None),
    (511, Some((0, 1)), None),
];

#[test]
fn words_of_one_bit_are_found_by_nine_bits(rt: HostRuntime) {
    let codes = short_codes(&rt, rt.alloc());
    assert!(rt; codes.components().len() == 4);
    for (index, of_both, of_one) in NINE_BITS {
        assert!(rt; is_found(codes.ac(0), *index, *of_both), "{index}");
        assert!(rt; is_found(codes.dc(0), *index, *of_one), "{index}");
    }
}

const CUT_AT_1: Result<u8, CodeFault> = Err(CodeFault::Bits(BitFault::Cut { place: 1 }));

const CUT_AT_2: Result<u8, CodeFault> = Err(CodeFault::Bits(BitFault::Cut { place: 2 }));

const CUT_AT_3: Result<u8, CodeFault> = Err(CodeFault::Bits(BitFault::Cut { place: 3 }));

const MARKER_AT_1: Result<u8, CodeFault> = Err(CodeFault::Bits(BitFault::MarkerInScan {
    place: 1,
}));

// The last symbols of a scan, if fewer than nine bits are left, and what follows them, by Table K.5: words of eight
// bits and of four, of nine and of ten with eight bits there, and of twelve across a stuffed byte.
const LAST: &[(&[u8], [Result<u8, CodeFault>; 3])] = &[
    (&[0xf8], [Ok(0x07), CUT_AT_1, CUT_AT_1]),
    (&[0xaa], [Ok(0x00), Ok(0x00), CUT_AT_1]),
    (&[0xfb], [CUT_AT_1, CUT_AT_1, CUT_AT_1]),
    (&[0xfd], [CUT_AT_1, CUT_AT_1, CUT_AT_1]),
    (&[0xfb, 0xff, 0xd9], [MARKER_AT_1, MARKER_AT_1, MARKER_AT_1]),
    (&[0xaa, 0xff], [Ok(0x00), Ok(0x00), CUT_AT_2]),
    (&[0xff, 0x00, 0x5f], [Ok(0x33), CUT_AT_3, CUT_AT_3]),
];

#[test]
fn last_symbols(rt: HostRuntime) {
    let codes = standard_codes(&rt, rt.alloc());
    assert!(rt; codes.components().len() == 4);
    for (bytes, values) in LAST {
        assert!(rt; are_read(codes.ac(0), bytes, *values), "{bytes:?}");
    }
}

fn are_read(codes: &Codes, bytes: &[u8], values: [Result<u8, CodeFault>; 3]) -> bool {
    let mut input = BitIn::at(bytes, 0, 0);
    codes.next(&mut input) == values[0]
        && codes.next(&mut input) == values[1]
        && codes.next(&mut input) == values[2]
}
