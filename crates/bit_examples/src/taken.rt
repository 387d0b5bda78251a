// What is read.
ghost use Rattle.std.specs.Prelude.{◌<◌};

use bit_list::{BitFault, BitIn};
use std::process::Abort;

const CODED: &[u8] = &[0xbf, 0xff, 0x00, 0xd8, 0x3f, 0xff];

const MARKED: &[u8] = &[0x3c, 0xff, 0xd0];

const PLAIN: &[u8] = &[0x12, 0x34, 0x56, 0x78, 0x9a, 0xbc, 0xde, 0xf0];

// No number of sixteen bits: the bytes end, or a marker is there.
const CUT: u32 = 0x1_0000;

const MARKER: u32 = 0x2_0000;

// The bytes, the place and the bits left out there; how many bits are read, three times, and the answer to each; the
// place of the last bit.
type Takes<'a> = (&'a [u8], usize, [u8; 4], [u32; 3], usize);

const TAKES: &[Takes<'static>] = &[
    (CODED, 0, [0, 3, 13, 4], [5, 0x1fff, 13], 3),
    (CODED, 0, [0, 16, 16, 1], [0xbfff, 0xd83f, CUT], 4),
    (CODED, 1, [7, 2, 0, 7], [3, 0, 0x58], 3),
    (CODED, 4, [2, 7, 6, 16], [CUT, 0x3f, CUT], 4),
    (CODED, 4, [7, 16, 1, 0], [CUT, 1, 0], 4),
    (CODED, 5, [0, 1, 0, 16], [CUT, 0, CUT], 5),
    (CODED, 6, [3, 1, 0, 2], [CUT, 0, CUT], 6),
    (MARKED, 0, [4, 16, 4, 1], [MARKER, 12, MARKER], 0),
    (MARKED, 1, [0, 1, 0, 8], [MARKER, 0, MARKER], 1),
];

#[test]
fn takes(rt: HostRuntime) {
    for (bytes, place, counts, taken, last) in TAKES {
        assert!(rt;
            is_taken(&rt, bytes, *place, *counts, *taken, *last),
            "{counts:?}"
        );
    }
}

fn is_taken(
    rt: &impl Abort,
    bytes: &[u8],
    place: usize,
    counts: [u8; 4],
    taken: [u32; 3],
    last: usize,
) -> bool {
    let mut bit_in = begun_in(rt, bytes, place, counts[0]);
    take(rt, &mut bit_in, counts[1]) == taken[0]
        && take(rt, &mut bit_in, counts[2]) == taken[1]
        && take(rt, &mut bit_in, counts[3]) == taken[2]
        && bit_in.place() == last
}

fn begun_in<'a>(rt: &impl Abort, bytes: &'a [u8], place: usize, bits: u8) -> BitIn<'a> {
    assert!(rt; place <= bytes.len());
    assert!(rt; bits <= 7);
    BitIn::at(bytes, place, bits)
}

// The faults here are at the end of the coded bytes, or at the marker's FF.
fn take(rt: &impl Abort, bit_in: &mut BitIn, n: u8) -> u32 {
    assert!(rt; n <= 16);
    match bit_in.take(n) {
        Ok(number) => u32::from(number),
        Err(BitFault::Cut { place }) => {
            assert!(rt; place == 6);
            CUT
        }
        Err(BitFault::MarkerInScan { place }) => {
            assert!(rt; place == 1);
            MARKER
        }
    }
}

#[test]
fn bits_and_rests(rt: HostRuntime) {
    let bytes: &[u8] = &[0xff, 0x00, 0xa5];
    let mut bit_in = begun_in(&rt, bytes, 0, 6);
    assert!(rt; bit_in.rest_of_byte() == (0, 0));
    assert!(rt; bit_in.bit() == Ok(true));
    assert!(rt; bit_in.rest_of_byte() == (1, 1) && bit_in.place() == 0);
    assert!(rt; bit_in.bit() == Ok(true));
    assert!(rt; bit_in.bit() == Ok(false));
    assert!(rt; bit_in.rest_of_byte() == (0x25, 6) && bit_in.place() == 2);
    assert!(rt; bit_in.bit() == Err(BitFault::Cut { place: 3 }));
    assert!(rt; bit_in.place() == 2);
}

// The bytes, the place and the bits left out there, how many bits are read first, and the next nine bits then.
type Peek<'a> = (&'a [u8], usize, u8, u8, u16);

const PEEKS: &[Peek<'static>] = &[
    (CODED, 0, 0, 0, 0x17f),
    (CODED, 0, 0, 3, 0x1ff),
    (CODED, 0, 0, 16, 0x1b0),
    (CODED, 3, 5, 0, 0x00f),
    (CODED, 4, 0, 0, 0x07e),
    (CODED, 4, 7, 0, 0x100),
    (CODED, 5, 0, 0, 0),
    (CODED, 6, 3, 0, 0),
    (MARKED, 0, 0, 0, 0x078),
    (MARKED, 0, 4, 0, 0x180),
    (MARKED, 1, 0, 0, 0),
    (PLAIN, 0, 0, 16, 0x0ac),
    (PLAIN, 0, 3, 1, 0x046),
    (PLAIN, 7, 0, 0, 0x1e0),
];

#[test]
fn peeks(rt: HostRuntime) {
    for (bytes, place, bits, n, peeked) in PEEKS {
        let mut bit_in = begun_in(&rt, bytes, *place, *bits);
        assert!(rt; take(&rt, &mut bit_in, *n) < CUT);
        assert!(rt; is_peeked(&mut bit_in, *peeked), "{peeked}");
    }
}

// Whether these are the next nine bits, before units are fetched and after, and the reader is where it was.
fn is_peeked(bit_in: &mut BitIn, peeked: u16) -> bool {
    let (left, place, next) = (bit_in.left(), bit_in.place(), bit_in.next_place());
    if bit_in.peek9() != peeked {
        return false;
    }
    bit_in.ready();
    bit_in.peek9() == peeked
        && bit_in.left() == left
        && bit_in.place() == place
        && bit_in.next_place() == next
}

// Bits are looked at and passed over once they were fetched, and else nothing changes.
#[test]
fn looks(rt: HostRuntime) {
    let mut bit_in = BitIn::at(&[0xa5, 0xff, 0, 0x3c, 0, 0, 0, 0, 0, 0], 0, 0);
    bit_in.ready();
    assert!(rt; bit_in.look(9) == Some(0x14b));
    assert!(rt; bit_in.advance(9));
    assert!(rt; bit_in.place() == 1);
    assert!(rt; bit_in.look(16) == Some(0xfe78));
    assert!(rt; bit_in.take(16) == Ok(0xfe78));
    let mut short = BitIn::at(&[0x81], 0, 0);
    short.ready();
    assert!(rt; short.look(9) == None);
    assert!(rt; !short.advance(9));
    assert!(rt; short.look(8) == Some(0x81));
    assert!(rt; short.take(8) == Ok(0x81));
}

// The bytes, and the place of each unit and of the end.
type Units<'a> = (&'a [u8], [usize; 10]);

const UNITS: &[Units<'static>] = &[
    (
        &[0x12, 0x34, 0x56, 0x78, 0x9a, 0xbc, 0xde, 0xff, 0x00, 0x80],
        [0, 1, 2, 3, 4, 5, 6, 7, 9, 10],
    ),
    (
        &[
            0xff, 0x00, 0x12, 0xff, 0x00, 0xff, 0x00, 0x34, 0x00, 0xff, 0x00, 0x56, 0xff, 0x00,
        ],
        [0, 2, 3, 5, 7, 8, 9, 11, 12, 14],
    ),
    (
        &[
            0xff, 0x00, 0xff, 0x00, 0xff, 0x00, 0xff, 0x00, 0xff, 0x00, 0xff, 0x00, 0xff, 0x00,
            0xff, 0x00, 0x80,
        ],
        [0, 2, 4, 6, 8, 10, 12, 14, 16, 17],
    ),
];

// What is read from bytes that were fetched ahead, and where the reader is after each bit of them.
#[test]
fn places_of_fetched_units(rt: HostRuntime) {
    for (bytes, places) in UNITS {
        let mut bit_in = begun_in(&rt, bytes, 0, 0);
        for i in 0..72usize {
            bit_in.ready();
            let bit = bit_in.bit();
            assert!(rt; bit == Ok(bit_of(bytes, places, i)), "bit {i}");
            assert!(rt; is_after(&bit_in, bytes, places, i), "bit {i}");
        }
        assert!(rt; bit_in.bit() == Err(BitFault::Cut { place: bytes.len() }));
    }
}

fn unit_of(bytes: &[u8], places: &[usize; 10], bit: usize) -> u8
    requires { bit < 72 }
{
    let place = places[bit / 8];
    if place < bytes.len() { bytes[place] } else { 0 }
}

fn bit_of(bytes: &[u8], places: &[usize; 10], bit: usize) -> bool
    requires { bit < 72 }
{
    (unit_of(bytes, places, bit) >> (7 - bit % 8)) & 1 == 1
}

// Whether the reader is after this bit.
fn is_after(bit_in: &BitIn, bytes: &[u8], places: &[usize; 10], bit: usize) -> bool
    requires { bit < 72 }
{
    let left = 7 - (bit % 8) as u8;
    let number = unit_of(bytes, places, bit) & ((1 << left) - 1);
    bit_in.left() == (number, left)
        && bit_in.place() == places[bit / 8]
        && bit_in.next_place() == places[bit / 8 + 1]
}
