// A file of two scans, encoded, read, and decoded segment by segment (docs/FORMAT.md, The container).
ghost use Rattle.std.specs.Prelude.{◌≡◌, ◌<◌, ℕ, List, length, true};
ghost use Rattle.handover.specs.declared.outcome.Outcome.{Outcome};
ghost use Rattle.segment_code.specs.FileDecoding.{FileOwes};

use crate::trial::{assert_holds, comes_back};
use bit_list::Piece;
use box_format::{FileView, read_container};
use jpeg_marker::HeaderRefusal;
use lepton_encode::{EncodeError, encode};
use outside_core::OpenGate;
use scan_spec::ScanRefusal;
use segment_code::{FileDecoder, Step};
use std::alloc::{AllocError, Global};
use std::process::Abort;
use std::thread::Threads;

// More steps than any segment here takes.
const STEPS: u8 = 4;

// Two components of 8 by 8 samples, each in a scan of its own, with one code word in each table: a block of zeros is
// `00`.
const FRAME: &[u8] = b"\xff\xd8\xff\xc0\0\x0e\x08\0\x08\0\x08\x02\x01\x11\0\x02\x11\0";

const DC: &[u8] = b"\xff\xc4\0\x14\0\x01\0\0\0\0\0\0\0\0\0\0\0\0\0\0\0\0";

const AC: &[u8] = b"\xff\xc4\0\x14\x10\x01\0\0\0\0\0\0\0\0\0\0\0\0\0\0\0\0";

const FIRST: &[u8] = b"\xff\xda\0\x08\x01\x01\0\0\x3f\0";

const SECOND: &[u8] = b"\xff\xda\0\x08\x01\x02\0\0\x3f\0";

const ZEROS: &[u8] = b"\x3f";

const END: &[u8] = b"\xff\xd9";

const FILE: &[&[u8]] = &[FRAME, DC, AC, FIRST, ZEROS, SECOND, ZEROS, END];

// What the bytes after the first scan of that file are refused for; its header ends at 72.
const REFUSED: &[(&[&[u8]], EncodeError)] = &[
    (&[], EncodeError::Header(HeaderRefusal::HeaderCut)),
    (&[b"\xff"], EncodeError::Header(HeaderRefusal::HeaderCut)),
    (
        &[END],
        EncodeError::Header(HeaderRefusal::MarkerBad { place: 74 }),
    ),
    (
        &[b"\xff\xc0\0\x0e\x08\0\x08\0\x08\x02\x01\x11\0\x02\x11\0"],
        EncodeError::Header(HeaderRefusal::FrameTwice),
    ),
    (&[FIRST], EncodeError::Header(HeaderRefusal::MultiScan)),
    (
        &[b"\xff\xda\0\x0a\x02\x01\0\x02\0\0\x3f\0"],
        EncodeError::Header(HeaderRefusal::MultiScan),
    ),
    (
        &[b"\xff\xda\0\x08\x01\x01\x44\0\x3f\x01"],
        EncodeError::Header(HeaderRefusal::MultiScan),
    ),
    (
        &[b"\xff\xda\0\x06\0\0\x3f\0"],
        EncodeError::Header(HeaderRefusal::ScanParams),
    ),
    (
        &[b"\xff\xda\0\x08\x01\x04\0\0\x3f\0"],
        EncodeError::Header(HeaderRefusal::ScanParams),
    ),
    (
        &[b"\xff\xda\0\x0a\x02\x02\0\x02\0\0\x3f\0"],
        EncodeError::Header(HeaderRefusal::ScanParams),
    ),
    (
        &[b"\xff\xda\0\x0c\x03\x01\0\x02\0\x03\0\0\x3f\0"],
        EncodeError::Header(HeaderRefusal::ScanParams),
    ),
    (
        &[b"\xff\xda\0\x08\x01\x02\0\0\x3f\x01"],
        EncodeError::Header(HeaderRefusal::ScanParams),
    ),
    (
        &[b"\xff\xda\0\x08\x01\x02\x11\0\x3f\0"],
        EncodeError::Header(HeaderRefusal::NoTable),
    ),
    (
        &[SECOND],
        EncodeError::Scan(ScanRefusal::ScanCut { place: 83 }),
    ),
    (
        &[SECOND, END],
        EncodeError::Scan(ScanRefusal::MarkerInScan { place: 83 }),
    ),
    (
        &[SECOND, b"\x3e", END],
        EncodeError::Scan(ScanRefusal::MixedPad { place: 83 }),
    ),
];

// 17 by 9 samples of three components, the first one sampled two by two.
const SAMPLED: &[u8] = b"\xff\xd8\xff\xc0\0\x11\x08\0\x09\0\x11\x03\x01\x22\0\x02\x11\0\x03\x11\0";

const THIRD: &[u8] = b"\xff\xda\0\x08\x01\x03\0\0\x3f\0";

const SECOND_AND_THIRD: &[u8] = b"\xff\xda\0\x0a\x02\x02\0\x03\0\0\x3f\0";

const FIRST_AND_THIRD: &[u8] = b"\xff\xda\0\x0a\x02\x01\0\x03\0\0\x3f\0";

const INTERVAL: &[u8] = b"\xff\xdd\0\x04\0\x01";

const FOUR: &[u8] = b"\x0f";

const SIX: &[u8] = b"\0\x0f";

// Files of several scans, and how many bytes their containers have in at most eight segments: an interval before the
// second scan; a second scan that pads with 0; three scans, of two segments and of one; two of three components.
const LENGTHS: &[(&[&[u8]], usize)] = &[
    (
        &[FRAME, DC, AC, FIRST, ZEROS, INTERVAL, SECOND, ZEROS, END],
        170,
    ),
    (&[FRAME, DC, AC, FIRST, ZEROS, SECOND, b"\0", END], 164),
    (
        &[SAMPLED, DC, AC, FIRST, SIX, SECOND, FOUR, THIRD, FOUR, END],
        243,
    ),
    (
        &[SAMPLED, DC, AC, FIRST, SIX, SECOND_AND_THIRD, b"\0", END],
        200,
    ),
    (
        &[
            SAMPLED,
            DC,
            AC,
            FIRST_AND_THIRD,
            b"\0\0\x0f",
            INTERVAL,
            SECOND,
            b"\x3f\xff\xd0\x3f",
            END,
        ],
        182,
    ),
];

// What a segment starts from, and the length of its stream.
const RECORD: &[u8] = b"\0\0\0\0\0\0\0\0\0\0\0\0\0\0\0\0\0\0\0\0\0\x03";

const STREAM: &[u8] = b"\0\0\0";

const CONTAINER: &[&[u8]] = &[
    b"LPSG\x04\x02\0\0\0\x02",
    b"\x01\x01\0\0\0\x48\0\0\0\0",
    RECORD,
    b"\x01\x01\0\0\0\x0a\0\0\0\0",
    RECORD,
    FRAME,
    DC,
    AC,
    FIRST,
    SECOND,
    END,
    STREAM,
    STREAM,
];

#[test]
fn two_scans_are_encoded(rt: HostRuntime) {
    let container = joined(rt.alloc(), CONTAINER).expect(&rt, "memory");
    for segments in [1u8, 2, 8, 64] {
        let holds = is_made(&rt, rt.alloc(), FILE, segments, container.as_slice());
        assert_holds(&rt, holds, "segments", u64::from(segments));
    }
}

// Whether a file is encoded to this container.
fn is_made<R: Threads + Sync + Abort>(
    rt: &R,
    alloc: Global,
    file: &[&[u8]],
    segments: u8,
    container: &[u8],
) -> bool {
    let file = joined(alloc, file).expect(rt, "memory");
    assert!(rt; file.len() < 1 << 32);
    assert!(rt; 0 < segments && segments <= 64);
    match encode(rt, alloc, file.as_slice(), segments) {
        Ok(made) => made.as_slice() == container,
        Err(_) => false,
    }
}

#[test]
fn later_scans_are_refused_by_their_places_in_the_file(rt: HostRuntime) {
    let front = joined(rt.alloc(), &[FRAME, DC, AC, FIRST, ZEROS]).expect(&rt, "memory");
    for (rest, cause) in REFUSED {
        let rest = joined(rt.alloc(), rest).expect(&rt, "memory");
        let file = &[front.as_slice(), rest.as_slice()];
        assert!(rt; is_refused(&rt, rt.alloc(), file, *cause), "{cause:?}");
    }
}

#[test]
fn containers_of_several_scans_have_their_lengths(rt: HostRuntime) {
    for (file, length) in LENGTHS {
        let made = length_of(&rt, rt.alloc(), file);
        assert!(rt; made == *length, "{length}");
    }
}

// How many bytes a file's container has in at most eight segments; 0 if it is refused.
fn length_of<R: Threads + Sync + Abort>(rt: &R, alloc: Global, file: &[&[u8]]) -> usize {
    let file = joined(alloc, file).expect(rt, "memory");
    assert!(rt; file.len() < 1 << 32);
    match encode(rt, alloc, file.as_slice(), 8) {
        Ok(made) => made.len(),
        Err(_) => 0,
    }
}

// Whether a file is refused for this cause.
fn is_refused<R: Threads + Sync + Abort>(
    rt: &R,
    alloc: Global,
    file: &[&[u8]],
    cause: EncodeError,
) -> bool {
    let file = joined(alloc, file).expect(rt, "memory");
    assert!(rt; file.len() < 1 << 32);
    match encode(rt, alloc, file.as_slice(), 8) {
        Ok(_) => false,
        Err(error) => error == cause,
    }
}

#[test]
fn two_scans_are_decoded(rt: HostRuntime) {
    let container = joined(rt.alloc(), CONTAINER).expect(&rt, "memory");
    let file = joined(rt.alloc(), FILE).expect(&rt, "memory");
    let found = restored(rt.alloc(), container.as_slice()).expect(&rt, "memory");
    assert!(rt; found.as_slice() == file.as_slice());
}

// The file of a container; no bytes of none.
fn restored(alloc: Global, bytes: &[u8]) -> Result<Vec<u8>, AllocError> {
    match read_container(alloc, bytes) {
        Ok(view) => file_of(alloc, &view),
        Err(_) => Ok(Vec::new(alloc)),
    }
}

// The file of a container's scans, segment by segment.
fn file_of(alloc: Global, view: &FileView) -> Result<Vec<u8>, AllocError>
    requires { 0 < length view.now }
{
    let mut file = Vec::new(alloc);
    let mut decoder = FileDecoder::prepare(alloc, view.plans())?;
    file.extend_from_slice(view.scan(0).header())?;
    for segment in 0..view.segments() {
        decoder.begin(view, segment);
        put_segment(alloc, &mut decoder, &mut file)?;
    }
    file.extend_from_slice(view.trailer())?;
    Ok(file)
}

#[test]
fn scans_are_decoded_by_workers(rt: HostRuntime) {
    for (file, _) in LENGTHS {
        let file = joined(rt.alloc(), file).expect(&rt, "memory");
        assert!(&rt; file.len() < 1 << 32);
        let container = encode(&rt, rt.alloc(), file.as_slice(), 8)
            .ok()
            .expect(&rt, "it is encoded");
        for workers in 0..4 {
            for ring in [1u32, 2, 70] {
                let back = comes_back(
                    &rt,
                    rt.alloc(),
                    container.as_slice(),
                    file.as_slice(),
                    workers,
                    ring,
                    &OpenGate,
                );
                assert!(rt; back, "{workers} workers, rings of {ring}");
            }
        }
    }
}

// Appends what a decoder gives of the segment that it began.
fn put_segment(
    alloc: Global,
    decoder: &mut FileDecoder,
    file: &mut Vec<u8>,
) -> Result<(), AllocError>
    requires running { decoder.old.running ≡ true }
    requires owes { (bytes : List ℕ) × (outcome : Outcome) × FileOwes decoder.old bytes outcome }
    ensures plans { decoder.new.plans ≡ decoder.old.plans }
    ensures begun { decoder.new.begun ≡ decoder.old.begun }
{
    let mut piece = Piece::new(alloc)?;
    for _taken in 0..STEPS {
        let step = decoder.step(&mut piece);
        file.extend_from_slice(piece.bytes())?;
        match step {
            Step::More => {}
            Step::Done { .. } => return Ok(()),
            Step::Fault(_) => return Ok(()),
        }
    }
    Ok(())
}

// All parts, one after another.
fn joined(alloc: Global, parts: &[&[u8]]) -> Result<Vec<u8>, AllocError> {
    let mut all = Vec::new(alloc);
    for part in parts {
        all.extend_from_slice(part)?;
    }
    Ok(all)
}
