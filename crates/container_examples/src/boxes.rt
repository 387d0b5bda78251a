// Worked containers. Bytes that are none are in `tests/rows`.
ghost use Rattle.std.specs.Prelude.{◌≡◌, false, map, option_map, IfOk, IfSome};
ghost use Rattle.box_format.specs.Single.{IsBox, box_bytes};
ghost use Rattle.box_format.specs.Versions.{layout_of};

use crate::pads::are_told;
use crate::parts::{HEADER, HIGHER, ONE_MARKER, START, TWO_BITS, TWO_INTERVALS, ZEROS};
use box_format::{
    BoxRefusal, BoxView, Chunk, Migrate, Parts, ReadError, Version, migrate, read_box,
    write_container,
};
use handover::Handover;
use jpeg_marker::HeaderRefusal;
use std::alloc::{AllocError, Global};
use std::process::Abort;
use std::slice;

// The fields of a container in version 1, if it can say it, and in version 2, and what follows them; the byte of pad
// bits with the list's only one, how many segments it has, how many bytes its header has, and its last stream.
type Taken<'a> = (
    &'a [u8],
    &'a [u8],
    &'a [&'a [u8]],
    (u8, u8),
    u8,
    usize,
    &'a [u8],
);

// A header of 69 bytes and a trailer of two, in one segment and in two.
const FRONT: &[u8] = b"LPSG\x01\x01\x01\0\0\0\x45\0\0\0\x02";

const FRONT_OF_TWO: &[u8] = b"LPSG\x01\x01\x02\0\0\0\x45\0\0\0\x02";

const SECOND: &[u8] = b"LPSG\x02\x01\x01\0\0\0\x45\0\0\0\x02\0\0\0\0";

const SECOND_OF_TWO: &[u8] = b"LPSG\x02\x01\x02\0\0\0\x45\0\0\0\x02\0\0\0\0";

const TAIL: &[u8] = b"\xff\xd9\0\0\0";

const TAKEN: &[Taken] = &[
    (FRONT, SECOND, &[START, HEADER, TAIL], (1, 0), 1, 69, ZEROS),
    (
        FRONT_OF_TWO,
        SECOND_OF_TWO,
        &[START, TWO_BITS, HIGHER, TAIL, b"\0\0\x07"],
        (1, 0),
        2,
        69,
        b"\0\0\x07",
    ),
    // The pad bit 0, no trailer and an empty stream.
    (
        b"LPSG\x01\0\x02\0\0\0\x45\0\0\0\0",
        b"LPSG\x02\0\x02\0\0\0\x45\0\0\0\0\0\0\0\0",
        &[
            START,
            b"\x40\x02\x7f\xff\0\0\0\0\0\0\0\0\0\0\0\0\0\0\0\0\0\0",
            HIGHER,
            ZEROS,
        ],
        (0, 0),
        2,
        69,
        b"",
    ),
    // A list of two pad bits.
    (
        b"",
        b"LPSG\x02\x02\x02\0\0\0\x4b\0\0\0\x02\0\0\0\x01",
        &[START, ONE_MARKER, b"\x80", TWO_INTERVALS, TAIL, ZEROS],
        (2, 0x80),
        2,
        75,
        ZEROS,
    ),
];

#[test]
fn containers_are_read(rt: HostRuntime) {
    for (first, second, rest, pads, segments, header, stream) in TAKEN {
        let said = (*pads, *segments, *header, *stream);
        let bytes = joined(&rt, rt.alloc(), second, rest);
        assert!(rt;
            is_read(rt.alloc(), &bytes, Version::Second, said),
            "{bytes:?}"
        );
        if !first.is_empty() {
            let bytes = joined(&rt, rt.alloc(), first, rest);
            assert!(rt;
                is_read(rt.alloc(), &bytes, Version::First, said),
                "{bytes:?}"
            );
        }
    }
}

fn is_read(
    alloc: Global,
    bytes: &[u8],
    version: Version,
    said: ((u8, u8), u8, usize, &[u8]),
) -> bool {
    let (pads, segments, header, stream) = said;
    let Ok(view) = read_box(alloc, bytes) else {
        return false;
    };
    if segments == 0 || view.segments() != segments {
        return false;
    }
    view.version() == version
        && view.place(segments).is_none()
        && are_told(&view.pad(), pads)
        && view.header().len() == header
        && view.plan().header_length() == header
        && view.stream(segments - 1) == stream
}

#[test]
fn containers_are_written(rt: HostRuntime) {
    for (first, second, rest, _, _, _, _) in TAKEN {
        let bytes = joined(&rt, rt.alloc(), second, rest);
        assert!(rt; is_written(&rt, rt.alloc(), &bytes), "{bytes:?}");
        if !first.is_empty() {
            let bytes = joined(&rt, rt.alloc(), first, rest);
            assert!(rt; is_written(&rt, rt.alloc(), &bytes), "{bytes:?}");
        }
    }
}

// Whether the container of what is read from the bytes has these bytes.
fn is_written(rt: &impl Abort, alloc: Global, bytes: &[u8]) -> bool {
    match read_box(alloc, bytes) {
        Ok(view) => {
            let _ = view.plan();
            again(alloc, &view).expect(rt, "memory").as_slice() == bytes
        }
        Err(_) => false,
    }
}

// The container of the last three bytes of a file of 75, whose one byte with its stuffed zero comes of four rows.
const CHUNK: &[u8] = b"LPSG\x03\x01\x01\0\0\0\x47\0\0\0\x02\0\0\0\0\
    \0\0\0\0\0\0\0\x48\0\0\0\0\0\0\0\x03\0\0\0\0\0\0\0\x01\0\0\0\x03\0\0\0\x04\
    \xfc\x06\0\0\0\0\0\0\0\0\0\0\0\0\0\0\0\0\0\0\0\x03\
    \xff\xd8\xff\xc0\0\x0b\x08\0\x20\0\x08\x01\x01\x11\0\
    \xff\xc4\0\x15\0\x02\0\0\0\0\0\0\0\0\0\0\0\0\0\0\0\x01\0\
    \xff\xc4\0\x15\x10\x02\0\0\0\0\0\0\0\0\0\0\0\0\0\0\0\x01\0\
    \xff\xda\0\x08\x01\x01\0\0\x3f\0\xff\xd9\0\0\0";

#[test]
fn a_chunk_is_read_and_written(rt: HostRuntime) {
    let chunk = Chunk {
        place: 72,
        length: 3,
        skip: 1,
        from: 3,
        to: 4,
    };
    assert!(rt; has_chunk(rt.alloc(), CHUNK, chunk));
    assert!(rt; is_written(&rt, rt.alloc(), CHUNK));
    let refusal = BoxRefusal::BoxVersion;
    assert!(rt; is_refused(rt.alloc(), CHUNK, refusal));
}

// Whether the bytes are a container of this chunk.
fn has_chunk(alloc: Global, bytes: &[u8], chunk: Chunk) -> bool {
    match read_box(alloc, bytes) {
        Ok(view) => view.version() == Version::Third && view.chunk() == Some(chunk),
        Err(_) => false,
    }
}

// A container of two segments with places. The first segment has no byte: both places are 69, and the scan ends at 70.
const PLACED: &[u8] = b"LPSG\x05\x01\x02\0\0\0\x45\0\0\0\x02\0\0\0\0\0\0\0\0\0\0\0\x46\
    \0\0\0\0\0\0\0\0\0\0\0\0\0\0\0\0\0\0\0\0\0\x03\0\0\0\0\0\0\0\x45\
    \0\x02\0\0\0\0\0\0\0\0\0\0\0\0\0\0\0\0\0\0\0\x03\0\0\0\0\0\0\0\x45\
    \xff\xd8\xff\xc0\0\x0b\x08\0\x10\0\x08\x01\x01\x11\0\
    \xff\xc4\0\x14\0\x01\0\0\0\0\0\0\0\0\0\0\0\0\0\0\0\0\
    \xff\xc4\0\x14\x10\x01\0\0\0\0\0\0\0\0\0\0\0\0\0\0\0\0\
    \xff\xda\0\x08\x01\x01\0\0\x3f\0\xff\xd9\0\0\0\0\0\0";

#[test]
fn places_are_read_and_written(rt: HostRuntime) {
    assert!(rt; PLACED.len() == 164 && has_places(rt.alloc(), PLACED, 69, 69, 70));
    assert!(rt; has_length(rt.alloc(), PLACED, 72));
    assert!(rt; is_written(&rt, rt.alloc(), PLACED));
    let refusal = BoxRefusal::BoxVersion;
    assert!(rt; is_refused(rt.alloc(), PLACED, refusal));
}

// Whether the bytes are a container of two segments with these places, whose scan ends at this place.
fn has_places(alloc: Global, bytes: &[u8], first: u64, second: u64, end: u64) -> bool {
    let Ok(view) = read_box(alloc, bytes) else {
        return false;
    };
    view.segments() == 2
        && view.version() == Version::Fifth
        && view.place(0) == Some(first)
        && view.place(1) == Some(second)
        && view.place(2) == Some(end)
}

fn has_length(alloc: Global, bytes: &[u8], wanted: u64) -> bool {
    match read_box(alloc, bytes) {
        Ok(view) => file_length(&view) == Some(wanted),
        Err(_) => false,
    }
}

// The length of the file of a container with places, without decoding it: the scan's end and the trailer's length.
fn file_length(view: &BoxView) -> Option<u64> {
    let trailer = view.trailer().len() as u64;
    view.place(view.segments())?.checked_add(trailer)
}

// The offset of a byte of this container, a value for it, and the refusal of the container that has it.
const CHANGED: &[(usize, u8, Option<BoxRefusal>)] = &[
    // As it is.
    (56, 0x45, None),
    // The first place isn't the header's length.
    (56, 0x44, Some(BoxRefusal::BoxPlaces)),
    (56, 0x46, Some(BoxRefusal::BoxPlaces)),
    // The second place is below the first one, or above the scan's end; or the scan's end is below it.
    (86, 0x44, Some(BoxRefusal::BoxPlaces)),
    (86, 0x47, Some(BoxRefusal::BoxPlaces)),
    (26, 0x44, Some(BoxRefusal::BoxPlaces)),
    // How many bytes a segment has isn't looked at here.
    (86, 0x46, None),
    (26, 0x50, None),
];

#[test]
fn places_rise_from_the_header(rt: HostRuntime) {
    for (at, byte, refusal) in CHANGED {
        assert!(rt;
            refusal_with(&rt, rt.alloc(), *at, *byte) == *refusal,
            "{byte} at {at}"
        );
    }
}

// The refusal of the container with places, if it is refused, with this byte at this offset.
fn refusal_with(rt: &impl Abort, alloc: Global, at: usize, byte: u8) -> Option<BoxRefusal> {
    let mut bytes = Vec::from_slice(alloc, PLACED).expect(rt, "memory");
    if at < bytes.len() {
        bytes[at] = byte;
    }
    match read_box(alloc, &bytes) {
        Ok(_) => None,
        Err(ReadError::Box(refusal)) => Some(refusal),
        Err(ReadError::NoMemory(_)) => None,
    }
}

#[test]
fn containers_are_migrated(rt: HostRuntime) {
    for (first, second, rest, _, _, _, _) in TAKEN {
        let wanted = joined(&rt, rt.alloc(), second, rest);
        assert!(rt; is_migrated(rt.alloc(), &wanted, &wanted), "{wanted:?}");
        if !first.is_empty() {
            let bytes = joined(&rt, rt.alloc(), first, rest);
            assert!(rt; is_migrated(rt.alloc(), &bytes, &wanted), "{bytes:?}");
        }
    }
}

fn is_migrated(alloc: Global, bytes: &[u8], wanted: &[u8]) -> bool {
    match migrate(alloc, bytes) {
        Ok(made) => made.as_slice() == wanted,
        Err(_) => false,
    }
}

// Bytes that are no container, and their refusal.
const REFUSED: &[(&[u8], BoxRefusal)] = &[
    (b"", BoxRefusal::BoxMagic),
    (b"LPSG\x03", BoxRefusal::BoxVersion),
    (FRONT, BoxRefusal::BoxCut),
    (SECOND, BoxRefusal::BoxCut),
    (
        b"LPSG\x02\x01\0\0\0\0\0\0\0\0\0\0\0\0\0",
        BoxRefusal::BoxHeader(HeaderRefusal::NotJpeg),
    ),
];

#[test]
fn other_bytes_are_not_migrated(rt: HostRuntime) {
    for (bytes, refusal) in REFUSED {
        assert!(rt; is_refused(rt.alloc(), bytes, *refusal), "{bytes:?}");
    }
}

fn is_refused(alloc: Global, bytes: &[u8], wanted: BoxRefusal) -> bool {
    match migrate(alloc, bytes) {
        Err(refusal) => refusal == Migrate::Box(wanted),
        Ok(_) => false,
    }
}

fn joined(rt: &impl Abort, alloc: Global, front: &[u8], rest: &[&[u8]]) -> Vec<u8> {
    let mut bytes = Vec::from_slice(alloc, front).expect(rt, "memory");
    for part in rest {
        bytes.extend_from_slice(part).expect(rt, "memory");
    }
    bytes
}

// The container of what was read.
fn again(alloc: Global, view: &BoxView) -> Result<Vec<u8>, AllocError>
    requires parts { IsBox view.now.plan view.now.parts }
    requires one { (layout_of view.now.parts.version).several ≡ false }
    ensures { IfOk result (λ bytes. bytes.items ≡ box_bytes view.now.parts) }
{
    let places = places_of(alloc, view)?;
    let handovers = handovers_of(alloc, view)?;
    let streams = streams_of(alloc, view)?;
    let version = view.version();
    let scan = Parts {
        version,
        chunk: view.chunk(),
        places: kept_in(view, places.as_slice()),
        pad: view.pad(),
        header: view.header(),
        trailer: view.trailer(),
        handovers: handovers.as_slice(),
        streams: streams.as_slice(),
    };
    Ok(write_container(alloc, version, slice::from_ref(&scan))?)
}

// The places that are kept; zeros if none are.
fn places_of(alloc: Global, view: &BoxView) -> Result<Vec<u64>, AllocError>
    ensures { IfOk result (λ all. IfSome view.now.parts.places (λ places. all.items ≡ places)) }
{
    let _ = view.plan();
    let mut all = Vec::new(alloc);
    let places = view.segments() + 1;
    for i in 0..places {
        all.push(view.place(i).unwrap_or(0))?;
    }
    Ok(all)
}

// These places if any are kept, else none.
fn kept_in<'a>(view: &BoxView, places: &'a [u64]) -> Option<&'a [u64]>
    requires { IfSome view.now.parts.places (λ kept. places.now ≡ kept) }
    ensures { option_map (λ kept. kept.now) result ≡ view.now.parts.places }
{
    match view.place(0) {
        Some(_) => Some(places),
        None => None,
    }
}

fn handovers_of(alloc: Global, view: &BoxView) -> Result<Vec<Handover>, AllocError>
    ensures { IfOk result (λ all. all.items ≡ view.now.parts.handovers) }
{
    let mut all = Vec::new(alloc);
    let segments = view.segments();
    for i in 0..segments {
        all.push(view.handover(i))?;
    }
    Ok(all)
}

fn streams_of(alloc: Global, view: &BoxView) -> Result<Vec<Vec<u8>>, AllocError>
    ensures { IfOk result (λ all. map (λ v. v.items) all.items ≡ view.now.parts.streams) }
{
    let _ = view.plan();
    let mut all = Vec::new(alloc);
    let segments = view.segments();
    for i in 0..segments {
        all.push(Vec::from_slice(alloc, view.stream(i))?)?;
    }
    Ok(all)
}
