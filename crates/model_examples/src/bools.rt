// Lists of bools with the bytes, and bytes with the bools, that a program of the definition over whole numbers gives
// for them.
ghost use Rattle.std.specs.Prelude.{◌<◌};

use bool_coder::{Decoder, Encoder, plain_stream};
use std::alloc::{AllocError, Global};
use std::process::Abort;
use std::test::Fail;

// Two probs, the bits with the first and those with the second, and the stream.
type Row<'a> = ([u8; 2], &'a [u8], &'a [u8], &'a [u8]);

const ROWS: &[Row<'static>] = &[
    ([128, 128], b"", b"", &[0]),
    ([128, 128], b"0000000000000", b"", &[0, 0, 0]),
    ([128, 128], b"000000000000", b"100", &[0, 8, 0]),
    (
        [128, 128],
        b"0000000000000",
        b"0000000000000",
        &[0, 0, 0, 0, 0],
    ),
    (
        [128, 170],
        b"0000000000000",
        b"0000000000000",
        &[0, 0, 0, 0],
    ),
    (
        [1, 255],
        b"1010101010101010",
        b"0101010101010101",
        &[
            1, 2, 2, 2, 2, 2, 2, 2, 253, 253, 253, 253, 253, 253, 253, 253, 0,
        ],
    ),
    // Eight bytes are written, of which the last seven are 0xff, before the carry.
    (
        [239, 239],
        b"0001010101010101010101010101010101010101",
        b"111111",
        &[0xce, 0, 0, 0, 0, 0, 0, 0, 0, 0, 0xff, 0xff, 0xe8, 0],
    ),
];

#[test]
fn rows(rt: HostRuntime) -> Result<(), Fail> {
    for (probs, bits, more_bits, stream) in ROWS {
        assert!(rt;
            is_stream(&rt, rt.alloc(), *probs, bits, more_bits, stream)?,
            "{stream:?}"
        );
        assert!(rt;
            reads(&rt, stream, *probs, bits, more_bits) == (true, true),
            "{stream:?}"
        );
    }
    Ok(())
}

// Whether this is the stream of these bits.
fn is_stream(
    rt: &impl Abort,
    alloc: Global,
    probs: [u8; 2],
    bits: &[u8],
    more_bits: &[u8],
    stream: &[u8],
) -> Result<bool, AllocError> {
    assert!(rt; probs[0] > 0 && probs[1] > 0);
    let mut encoder = Encoder::new(alloc);
    put_all(&mut encoder, probs[0], bits)?;
    put_all(&mut encoder, probs[1], more_bits)?;
    Ok(encoder.finish()?.as_slice() == stream)
}

// The bits as a text of zeros and ones, each with one prob.
fn put_all(encoder: &mut Encoder, prob: u8, bits: &[u8]) -> Result<(), AllocError>
    requires { 0 < prob }
{
    for bit in bits {
        encoder.put(prob, *bit == b'1')?;
    }
    Ok(())
}

// Whether the bytes give these bits, and whether they are then the stream of them.
fn reads(
    rt: &impl Abort,
    bytes: &[u8],
    probs: [u8; 2],
    bits: &[u8],
    more_bits: &[u8],
) -> (bool, bool) {
    assert!(rt; probs[0] > 0 && probs[1] > 0);
    let Some(mut decoder) = Decoder::start(bytes) else {
        return (false, false);
    };
    let same = takes(&mut decoder, probs[0], bits) && takes(&mut decoder, probs[1], more_bits);
    (same, decoder.exact())
}

// Whether the next bools, each with one prob, are these bits.
fn takes(decoder: &mut Decoder, prob: u8, bits: &[u8]) -> bool
    requires { 0 < prob }
{
    for bit in bits {
        if decoder.take(prob) != (*bit == b'1') {
            return false;
        }
    }
    true
}

// A carry some seventeen times.
#[test]
fn two_thousand_bools(rt: HostRuntime) -> Result<(), Fail> {
    let stream = two_thousand(rt.alloc())?;
    assert!(rt; stream.len() == 189);
    assert!(rt; digest(&stream) == 1038195290);
    Ok(())
}

#[test]
fn two_thousand_are_read(rt: HostRuntime) -> Result<(), Fail> {
    let stream = two_thousand(rt.alloc())?;
    assert!(rt; reads_first(&stream, 2000) == (true, true));
    assert!(rt; reads_first(&stream, 1999) == (true, false));
    Ok(())
}

// The last byte is a zero, of which the first bit is the stream's last: each change below leaves every bool as it was.
#[test]
fn two_thousand_before_another_end(rt: HostRuntime) -> Result<(), Fail> {
    let mut bytes = two_thousand(rt.alloc())?;
    bytes.push(0)?;
    assert!(rt; reads_first(&bytes, 2000) == (true, false));
    bytes.truncate(188);
    assert!(rt; reads_first(&bytes, 2000) == (true, false));
    bytes.push(1)?;
    assert!(rt; reads_first(&bytes, 2000) == (true, false));
    Ok(())
}

fn digest(bytes: &[u8]) -> u32 {
    let mut digest: u32 = 0;
    for byte in bytes {
        digest = digest.wrapping_mul(31).wrapping_add(u32::from(*byte));
    }
    digest
}

fn two_thousand(alloc: Global) -> Result<Vec<u8>, AllocError> {
    let mut encoder = Encoder::new(alloc);
    let mut state: u32 = 1;
    for _ in 0..2000 {
        let (next, prob, bit) = next_bool(state);
        encoder.put(prob, bit)?;
        state = next;
    }
    Ok(encoder.finish()?)
}

// Whether the first bools of the two thousand are read, and whether the bytes are then their stream.
fn reads_first(bytes: &[u8], count: usize) -> (bool, bool) {
    let Some(mut decoder) = Decoder::start(bytes) else {
        return (false, false);
    };
    let mut state: u32 = 1;
    for _ in 0..count {
        let (next, prob, bit) = next_bool(state);
        if decoder.take(prob) != bit {
            return (false, decoder.exact());
        }
        state = next;
    }
    (true, decoder.exact())
}

// The state after this one, and its bool: probs from 1 to 255.
fn next_bool(state: u32) -> (u32, u8, bool)
    ensures { 0 < result.1 }
{
    let state = state.wrapping_mul(1664525).wrapping_add(1013904223);
    let prob = 1 + ((state >> 8) % 255) as u8;
    (state, prob, (state >> 24) as u8 >= prob)
}

// Bytes, and whether a decoder starts at them.
const FIRST_BYTES: &[(&[u8], bool)] = &[
    (&[], false),
    (&[0xff], false),
    (&[0xff, 0], false),
    (&[0xfe], true),
    (&[0, 0xff], true),
];

#[test]
fn first_bytes(rt: HostRuntime) {
    for (bytes, starts) in FIRST_BYTES {
        assert!(rt; Decoder::start(bytes).is_some() == *starts, "{bytes:?}");
    }
}

// Bytes, a prob, and the bits that they give. Zero bits follow the last byte, however many are read.
type Rest<'a> = (&'a [u8], u8, &'a [u8]);

const RESTS: &[Rest<'static>] = &[
    (
        &[0],
        128,
        b"000000000000000000000000000000000000000000000000000000000000000000000000000000000000000000\
            000000000000000000000000000000",
    ),
    (
        &[0x80],
        3,
        b"111111111111111111111111111111111111111111111111110000000000000000000000000000000000000000\
            0000000000",
    ),
    (
        &[1, 2, 3],
        30,
        b"001101111111001111110111101111110111111011101110111101111111111101011111111111111111111111\
            0100111111",
    ),
    (
        &[0xce, 0, 0xff, 0xff, 0xff, 0xff, 0xff],
        20,
        b"111111111111111111101111110111111111111111111111110111111111111111111111011111111111110111\
            111111111110111111111111111111111111111101111111011101111111100000000000000000000000000000",
    ),
    (
        &[0x12, 0x34, 0x56, 0x78, 0x9a],
        60,
        b"010101111011111010110100110111111001111101010111110110111111010100011101101101111111001011\
            1111111111",
    ),
];

#[test]
fn past_the_end(rt: HostRuntime) {
    for (bytes, prob, bits) in RESTS {
        assert!(rt;
            reads(&rt, bytes, [*prob, *prob], bits, b"") == (true, false),
            "{prob}"
        );
    }
}

#[test]
#[tactic(auto, unfolding(bool_coder::specs::BoolStream::after))]
fn zeros_plainly(rt: HostRuntime) -> Result<(), Fail> {
    let zeros = plain_stream(rt.alloc(), &[(128, false); 26])?;
    assert!(rt; zeros.as_slice() == [0; 5].as_slice());
    Ok(())
}

#[test]
#[tactic(auto, unfolding(bool_coder::specs::BoolStream::after))]
fn mixed_bits_plainly(rt: HostRuntime) -> Result<(), Fail> {
    let mixed = [
        (240, true),
        (240, true),
        (128, false),
        (255, true),
        (1, true),
        (128, true),
        (128, true),
    ];
    let stream = plain_stream(rt.alloc(), &mixed)?;
    assert!(rt; stream.as_slice() == [0xfe, 0x7f, 0xc0, 0x80].as_slice());
    Ok(())
}
