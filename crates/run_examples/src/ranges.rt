// Ranges of a file: which segments are begun for them; and the two ways to a container with places.
ghost use Rattle.std.specs.Prelude.{◌<◌};

use crate::rows::TWO_INTERVALS;
use crate::samples::Visits;
use crate::trial::{NONE, assert_holds, run_past};
use box_format::read_box;
use lepton_decode::Workers;
use lepton_encode::{encode, encode_placed};
use outside_core::{MemSink, OpenGate};
use range_read::{Ranged, index, prepare_range, run_range};
use sample_jpeg::sample;
use segment_worker::EmitStop;
use std::alloc::{AllocError, Global};
use std::process::Abort;
use std::sync::Wait;
use std::test::Fail;
use std::thread::Threads;

// Words for a range of the file of two intervals, a bit for each segment that the one thread begins, and the bytes.
const RANGES: &[(&[&str], u64, &[u8])] = &[
    (
        &["range", "--from=76", "--to=78", "--workers=0"],
        0b01,
        &[0xff, 0xd0],
    ),
    (
        &["range", "--from=77", "--to=79", "--workers=0"],
        0b11,
        &[0xd0, 0x3f],
    ),
    (
        &["range", "--from=78", "--to=81", "--workers=0"],
        0b10,
        &[0x3f, 0xff, 0xd9],
    ),
    (
        &["range", "--from=0", "--to=2", "--workers=0"],
        0,
        &[0xff, 0xd8],
    ),
    (&["range", "--from=78", "--to=78", "--workers=0"], 0, &[]),
    (
        &["range", "--from=79", "--to=81", "--workers=0"],
        0,
        &[0xff, 0xd9],
    ),
];

#[test]
fn a_range_begins_its_segments_alone(rt: HostRuntime) {
    let file = TWO_INTERVALS.file(&rt, rt.alloc());
    let made = placed(&rt, rt.alloc(), file.as_slice(), 2);
    for (words, visits, bytes) in RANGES {
        assert!(rt;
            begins(&rt, rt.alloc(), words, made.as_slice(), *visits, bytes),
            "{words:?}"
        );
    }
}

fn begins<R: Threads + Wait + Sync + Abort>(
    rt: &R,
    alloc: Global,
    words: &[&str],
    container: &[u8],
    segments: u64,
    bytes: &[u8],
) -> bool {
    let visits = Visits::none();
    let tried = run_past(rt, alloc, words, container, NONE, &visits);
    tried.status == 0 && tried.written.as_slice() == bytes && visits.segments() == segments
}

// Ranges of this file, how many of its two segments are begun for them, and their bytes.
const READ: &[(u64, u64, u8, &[u8])] = &[
    (76, 78, 1, &[0xff, 0xd0]),
    (77, 79, 2, &[0xd0, 0x3f]),
    (0, 2, 0, &[0xff, 0xd8]),
    (78, 78, 0, &[]),
];

// They are read by as many workers as are asked for, with rings of two bytes.
#[test]
fn workers_read_ranges(rt: HostRuntime) -> Result<(), Fail> {
    let file = TWO_INTERVALS.file(&rt, rt.alloc());
    let made = placed(&rt, rt.alloc(), file.as_slice(), 2);
    for (from, to, begun, bytes) in READ {
        for workers in [0, 1, 3] {
            let range = (*from, *to);
            assert!(rt;
                is_read(
                    &rt,
                    rt.alloc(),
                    made.as_slice(),
                    range,
                    workers,
                    *begun,
                    bytes
                )?,
                "from {from} to {to}, {workers} workers"
            );
        }
    }
    Ok(())
}

fn is_read<R: Threads + Wait + Sync>(
    rt: &R,
    alloc: Global,
    container: &[u8],
    range: (u64, u64),
    workers: u8,
    begun: u8,
    bytes: &[u8],
) -> Result<bool, AllocError> {
    let mut sink = MemSink::new(alloc, 100, 100, &[])?;
    match prepare_range(
        alloc,
        container,
        range.0,
        range.1,
        Workers::Given(workers),
        2,
    ) {
        Ok(mut ready) => {
            let segments = segments_of(run_range(&mut ready, rt, &mut sink, &OpenGate));
            Ok(segments == Some(begun) && sink.bytes() == bytes)
        }
        Err(_) => Ok(false),
    }
}

fn segments_of(read: Result<Ranged, EmitStop>) -> Option<u8> {
    match read {
        Ok(ranged) => Some(ranged.begun),
        Err(_) => None,
    }
}

// The container with places that a file is encoded to is the one that its container is indexed to.
#[test]
fn one_container_has_the_places(rt: HostRuntime) {
    let file = sample(rt.alloc(), 7, 4, 3).expect(&rt, "memory");
    for segments in [1u8, 2, 3] {
        let holds = is_one(&rt, rt.alloc(), file.as_slice(), segments);
        assert_holds(&rt, holds, "segments", u64::from(segments));
    }
}

fn is_one<R: Threads + Wait + Sync + Abort>(
    rt: &R,
    alloc: Global,
    file: &[u8],
    segments: u8,
) -> bool {
    assert!(rt; file.len() < 1 << 32);
    assert!(rt; 0 < segments && segments <= 64);
    let made = placed(rt, alloc, file, segments);
    let Ok(plain) = encode(rt, alloc, file, segments) else {
        return false;
    };
    let Ok(indexed) = index(rt, alloc, plain.as_slice()) else {
        return false;
    };
    let Ok(view) = read_box(alloc, made.as_slice()) else {
        return false;
    };
    indexed.as_slice() == made.as_slice()
        && made.len() == plain.len() + 8 * (usize::from(segments) + 1)
        && view.file_length() == Some(file.len() as u64)
}

fn placed<R: Threads + Sync + Abort>(rt: &R, alloc: Global, file: &[u8], segments: u8) -> Vec<u8> {
    assert!(rt; file.len() < 1 << 32);
    assert!(rt; 0 < segments && segments <= 64);
    encode_placed(rt, alloc, file, segments)
        .ok()
        .expect(rt, "the file is encoded")
}
