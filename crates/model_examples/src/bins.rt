// Bins worked by hand, and streams that a program of the definitions over whole numbers gives.
ghost use Rattle.std.specs.Prelude.{◌≡◌, IfOk, length};

use adapt_bins::{Bin, Bins, Coder, Get, Holds, Put, PutLocal};
use bool_coder::{Decoder, Encoder};
use std::alloc::{AllocError, Global};
use std::test::Fail;

// The counts of a bin, from 1 to 255, and the probability of a zero.
const PROBABILITIES: &[([u8; 2], u8)] = &[
    ([1, 1], 128),
    ([2, 1], 170),
    ([1, 2], 85),
    ([3, 1], 192),
    ([1, 255], 1),
    ([2, 255], 1),
    ([5, 255], 4),
    ([255, 1], 255),
    ([255, 2], 254),
    ([255, 255], 128),
];

#[test]
fn probabilities(rt: HostRuntime) {
    for (counts, prob) in PROBABILITIES {
        assert!(rt; bin_with(*counts).prob() == *prob, "{counts:?}");
    }
}

// The counts of a bin, a bit, and the probability after it. If the count of the bit is 255, both are halved and
// rounded up, and the bit is counted then.
const HALVINGS: &[([u8; 2], bool, u8)] = &[
    ([255, 1], false, 254),
    ([255, 5], false, 250),
    ([255, 128], false, 171),
    ([255, 254], false, 129),
    ([255, 255], false, 128),
    ([255, 255], true, 127),
    ([1, 255], true, 1),
    ([5, 255], true, 5),
    ([128, 255], true, 84),
    // The other bit's count is 255 alone.
    ([255, 1], true, 254),
    ([1, 255], false, 1),
];

#[test]
fn halving(rt: HostRuntime) {
    for (counts, bit, prob) in HALVINGS {
        assert!(rt; prob_after(*counts, *bit) == *prob, "{counts:?}");
    }
}

fn prob_after(counts: [u8; 2], bit: bool) -> u8 {
    let mut bin = bin_with(counts);
    bin.count(bit);
    bin.prob()
}

fn bin_with(counts: [u8; 2]) -> Bin {
    let [zeros, ones] = counts;
    let mut bin = Bin::new();
    for _ in 1..zeros {
        bin.count(false);
    }
    for _ in 1..ones {
        bin.count(true);
    }
    bin
}

#[test]
fn bins_are_apart(rt: HostRuntime) -> Result<(), Fail> {
    let mut bins = Bins::new(rt.alloc(), 2)?;
    bins.count(1, false);
    assert!(rt; bins.prob(0) == 128 && bins.prob(1) == 170);
    bins.fresh();
    assert!(rt; bins.prob(0) == 128 && bins.prob(1) == 128);
    Ok(())
}

// Bits, each with its bin.
const EVENTS: &[(usize, bool)] = &[
    (0, false),
    (0, false),
    (1, true),
    (2, false),
    (0, false),
    (1, true),
    (1, true),
    (2, true),
    (0, true),
    (2, false),
    (1, false),
    (0, false),
    (2, true),
    (2, true),
    (1, true),
    (0, false),
];

const STREAM: &[u8] = &[57, 220, 16];

#[test]
fn there_and_back(rt: HostRuntime) -> Result<(), Fail> {
    assert!(rt; stream_of(rt.alloc(), EVENTS)?.as_slice() == STREAM);
    assert!(rt; reads(rt.alloc(), STREAM, EVENTS)? == (true, true));
    assert!(rt; reads(rt.alloc(), STREAM, &EVENTS[..8])? == (false, false));
    Ok(())
}

// Each fifth bit is a one: both counts are halved several times.
#[test]
fn one_bin_for_long(rt: HostRuntime) -> Result<(), Fail> {
    let events = fifth_bits(rt.alloc())?;
    let stream = stream_of(rt.alloc(), &events)?;
    assert!(rt; stream.len() == 111 && digest(&stream) == 2340883464);
    assert!(rt; reads(rt.alloc(), &stream, &events)? == (true, true));
    Ok(())
}

fn fifth_bits(alloc: Global) -> Result<Vec<(usize, bool)>, AllocError> {
    let mut events = Vec::new(alloc);
    for i in 0..1200 {
        events.push((0, i % 5 == 4))?;
    }
    Ok(events)
}

fn digest(bytes: &[u8]) -> u32 {
    let mut digest: u32 = 0;
    for byte in bytes {
        digest = digest.wrapping_mul(31).wrapping_add(u32::from(*byte));
    }
    digest
}

// The stream of events in three bins.
fn stream_of(alloc: Global, events: &[(usize, bool)]) -> Result<Vec<u8>, AllocError> {
    let mut bins = Bins::new(alloc, 3)?;
    let mut encoder = Encoder::new(alloc);
    let mut put = Put::new(&mut bins, &mut encoder);
    let mut local = put.moved();
    put_all(&mut local, events)?;
    put.back(local);
    drop(put);
    Ok(encoder.finish()?)
}

fn put_all(put: &mut PutLocal, events: &[(usize, bool)]) -> Result<(), AllocError>
    requires { length put.old.bins ≡ 3 }
    ensures { IfOk result (λ _. length put.new.bins ≡ 3) }
{
    'events: for &(bin, bit) in events {
        if bin < 3 {
            put.code(bin, Some(bit))?;
        }
    }
    Ok(())
}

// Whether a stream starts, and gives these bits, and is exactly theirs; and the same again after a restart.
fn reads(
    alloc: Global,
    stream: &[u8],
    events: &[(usize, bool)],
) -> Result<(bool, bool), AllocError> {
    let bins = Bins::new(alloc, 3)?;
    let (Some(first), Some(second)) = (Decoder::start(stream), Decoder::start(stream)) else {
        return Ok((false, false));
    };
    let mut get = Get::new(bins, first);
    let once = gets_all(&mut get, events) && get.exact();
    get.restart(second);
    let again = gets_all(&mut get, events) && get.exact();
    Ok((once, again))
}

// Whether the next bits are those of the events.
fn gets_all(get: &mut Get, events: &[(usize, bool)]) -> bool
    requires { length get.old.bins ≡ 3 }
    ensures { length get.new.bins ≡ 3 }
{
    let mut same = true;
    'events: for &(bin, wanted) in events {
        if bin < 3 {
            match get.code(bin, None) {
                Ok(bit) => same = same && bit == wanted,
                Err(never) => match never {},
            }
        }
    }
    same
}
