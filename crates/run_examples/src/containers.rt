// Containers by their parts.
use crate::files::{append, bytes_of};
use std::alloc::Global;
use std::process::Abort;

/// A segment: what it starts from, and its stream. It starts from the byte that isn't full, the number of its bits,
/// four predictors, and the number of restart markers before it.
#[derive(Clone, Copy)]
pub(crate) struct Segment<'a> {
    pub(crate) start: [u8; 14],
    pub(crate) stream: &'a [u8],
}

/// What a scan starts from.
pub(crate) const SCAN_START: [u8; 14] = [0; 14];

/// A first segment of a block of zeros.
pub(crate) const LEVEL_SEGMENT: Segment<'static> = Segment {
    start: SCAN_START,
    stream: &[0, 0, 0],
};

/// The pad bits of a scan: their byte, and their list, if there is one.
#[derive(Clone, Copy)]
pub(crate) struct Padding<'a> {
    pub(crate) byte: u8,
    pub(crate) list: &'a [u8],
}

/// Ones.
pub(crate) const PADDED_WITH_ONES: Padding<'static> = Padding { byte: 1, list: &[] };

/// The container in version 2.
pub(crate) fn container_of(
    rt: &impl Abort,
    alloc: Global,
    pads: Padding,
    segments: &[Segment],
    header: &[u8],
    trailer: &[u8],
) -> Vec<u8> {
    let mut made = front_of(rt, alloc, 2, pads.byte, segments, header, trailer);
    append(rt, &mut made, &four_bytes(pads.list.len()));
    append_entries(rt, &mut made, segments);
    append(rt, &mut made, pads.list);
    append_rest(rt, &mut made, segments, header, trailer);
    made
}

/// The container in version 1, with this byte for the pad bit.
pub(crate) fn first_container_of(
    rt: &impl Abort,
    alloc: Global,
    pad: u8,
    segments: &[Segment],
    header: &[u8],
    trailer: &[u8],
) -> Vec<u8> {
    let mut made = front_of(rt, alloc, 1, pad, segments, header, trailer);
    append_entries(rt, &mut made, segments);
    append_rest(rt, &mut made, segments, header, trailer);
    made
}

// What both versions begin with: the magic, the version, the byte of pad bits, and the counts.
fn front_of(
    rt: &impl Abort,
    alloc: Global,
    version: u8,
    pad: u8,
    segments: &[Segment],
    header: &[u8],
    trailer: &[u8],
) -> Vec<u8> {
    let mut made = bytes_of(rt, alloc, b"LPSG");
    append(
        rt,
        &mut made,
        &[version, pad, four_bytes(segments.len())[3]],
    );
    append(rt, &mut made, &four_bytes(header.len()));
    append(rt, &mut made, &four_bytes(trailer.len()));
    made
}

fn append_entries(rt: &impl Abort, made: &mut Vec<u8>, segments: &[Segment]) {
    for segment in segments {
        append_entry(rt, made, segment);
    }
}

// What both versions end with: the header, the trailer and the streams.
fn append_rest(
    rt: &impl Abort,
    made: &mut Vec<u8>,
    segments: &[Segment],
    header: &[u8],
    trailer: &[u8],
) {
    append(rt, made, header);
    append(rt, made, trailer);
    for segment in segments {
        append(rt, made, segment.stream);
    }
}

fn append_entry(rt: &impl Abort, made: &mut Vec<u8>, segment: &Segment) {
    append(rt, made, &segment.start);
    append(rt, made, &[0; 4]);
    append(rt, made, &four_bytes(segment.stream.len()));
}

// A length: each one here fits.
fn four_bytes(length: usize) -> [u8; 4] {
    if length < 1 << 32 {
        (length as u32).to_be_bytes()
    } else {
        [0; 4]
    }
}
