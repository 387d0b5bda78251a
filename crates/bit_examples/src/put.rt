// What is written.
ghost use Rattle.std.specs.Prelude.{◌<◌, length};

use bit_list::{BitBuffer, BitOut, Piece, ROOM};
use std::alloc::{AllocError, Global};
use std::process::Abort;
use std::test::Fail;

// The byte begun and how many bits of it are there; two codes and how many bits each has; the bytes that are written,
// and the byte begun then with its bits.
type Codes<'a> = ([u8; 2], [u32; 4], &'a [u8], [u8; 2]);

const CODES: &[Codes<'static>] = &[
    ([0, 0], [0b101, 3, 0x1ffd, 13], &[0xbf, 0xfd], [0, 0]),
    ([0, 0], [0xff, 8, 0x3, 2], &[0xff, 0x00], [0xc0, 2]),
    ([0xa0, 3], [0x1b, 5, 0, 0], &[0xbb], [0, 0]),
    ([0x80, 1], [0, 0, 1, 1], &[], [0xc0, 2]),
    (
        [0xfe, 7],
        [0xffff, 16, 0, 1],
        &[0xff, 0x00, 0xff, 0x00, 0xfe],
        [0, 0],
    ),
    ([0x40, 2], [0x2b, 6, 0x1d8, 9], &[0x6b, 0xec], [0, 1]),
    (
        [0, 0],
        [0x123_4567, 27, 0x1f, 5],
        &[0x24, 0x68, 0xac, 0xff, 0x00],
        [0, 0],
    ),
    (
        [0x24, 7],
        [0x34_5678, 27, 0, 0],
        &[0x24, 0x0d, 0x15, 0x9e],
        [0, 2],
    ),
    (
        [0xfe, 7],
        [0x7ff_ffff, 27, 0, 6],
        &[0xff, 0x00, 0xff, 0x00, 0xff, 0x00, 0xff, 0x00, 0xc0],
        [0, 0],
    ),
];

#[test]
fn codes(rt: HostRuntime) -> Result<(), Fail> {
    for (begun, codes, bytes, after) in CODES {
        assert!(rt;
            is_written(&rt, rt.alloc(), *begun, *codes, bytes, *after)?,
            "{bytes:?}"
        );
    }
    Ok(())
}

fn is_written(
    rt: &impl Abort,
    alloc: Global,
    begun: [u8; 2],
    codes: [u32; 4],
    bytes: &[u8],
    after: [u8; 2],
) -> Result<bool, AllocError> {
    let mut out = Piece::new(alloc)?;
    let mut buffer = BitBuffer::of(begun_at(rt, begun[0], begun[1]));
    put(rt, &mut buffer, codes[0], codes[1], &mut out);
    put(rt, &mut buffer, codes[2], codes[3], &mut out);
    let bit_out = begun_of(rt, buffer, &mut out);
    Ok(out.bytes() == bytes && bit_out.partial() == (after[0], after[1]))
}

fn begun_at(rt: &impl Abort, partial: u8, bits: u8) -> BitOut {
    assert!(rt; bits <= 7);
    assert!(rt; u16::from(partial) % (1 << (8 - bits)) == 0);
    BitOut::at(partial, bits)
}

fn put(rt: &impl Abort, buffer: &mut BitBuffer, code: u32, count: u32, out: &mut Piece)
    requires { length buffer.old < 32 }
    ensures { length buffer.new < 32 }
{
    assert!(rt; count <= 27);
    assert!(rt; code >> count == 0);
    assert!(rt; out.len() < 100);
    buffer.put(code, count, out);
}

fn begun_of(rt: &impl Abort, buffer: BitBuffer, out: &mut Piece) -> BitOut
    requires { length buffer < 32 }
{
    assert!(rt; out.len() < 100);
    buffer.begun(out)
}

// The byte begun and its bits, the bit after them, the bytes, and whether there was a byte begun.
type Pad<'a> = ([u8; 2], bool, &'a [u8], bool);

const PADS: &[Pad<'static>] = &[
    ([0, 0], true, &[], false),
    ([0xf8, 5], true, &[0xff, 0x00], true),
    ([0xf8, 5], false, &[0xf8], true),
    ([0x40, 2], true, &[0x7f], true),
    ([0x00, 7], true, &[0x01], true),
];

#[test]
fn pads(rt: HostRuntime) -> Result<(), Fail> {
    for (begun, bit, bytes, is_begun) in PADS {
        assert!(rt;
            is_padded(&rt, rt.alloc(), *begun, *bit, bytes, *is_begun)?,
            "{bytes:?}"
        );
    }
    Ok(())
}

fn is_padded(
    rt: &impl Abort,
    alloc: Global,
    begun: [u8; 2],
    bit: bool,
    bytes: &[u8],
    is_begun: bool,
) -> Result<bool, AllocError> {
    let mut out = Piece::new(alloc)?;
    let mut bit_out = begun_at(rt, begun[0], begun[1]);
    Ok(
        bit_out.pad(bit, &mut out) == is_begun
            && out.bytes() == bytes
            && bit_out.partial() == (0, 0),
    )
}

#[test]
fn pieces(rt: HostRuntime) -> Result<(), Fail> {
    let mut out = Piece::new(rt.alloc())?;
    assert!(rt; out.len() == 0 && out.free() == ROOM);
    let mut bit_out = BitOut::at(0, 0);
    bit_out.mark(0xd0, &mut out);
    let mut buffer = BitBuffer::of(bit_out);
    put(&rt, &mut buffer, 0x3c, 8, &mut out);
    begun_of(&rt, buffer, &mut out);
    assert!(rt; out.bytes() == [0xff, 0xd0, 0x3c].as_slice());
    assert!(rt; out.free() == ROOM - 3);
    out.back_to(2);
    assert!(rt; out.bytes() == [0xff, 0xd0].as_slice());
    out.clear();
    assert!(rt; out.len() == 0);
    Ok(())
}
