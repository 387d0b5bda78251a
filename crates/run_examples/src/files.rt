// The small files of the rows, by their parts.
use std::alloc::Global;
use std::process::Abort;

/// From the start of the image up to the height.
pub(crate) const START: [u8; 7] = [0xff, 0xd8, 0xff, 0xc0, 0, 11, 8];

/// After the width: code words for the DC category 0 and the end of a block, each `0`.
pub(crate) const LEVEL: [u8; 58] = [
    1, 1, 0x11, 0, //
    0xff, 0xc4, 0, 20, 0x00, 1, 0, 0, 0, 0, 0, 0, 0, 0, 0, 0, 0, 0, 0, 0, 0, 0, //
    0xff, 0xc4, 0, 20, 0x10, 1, 0, 0, 0, 0, 0, 0, 0, 0, 0, 0, 0, 0, 0, 0, 0, 0, //
    0xff, 0xda, 0, 8, 1, 1, 0x00, 0, 63, 0,
];

/// After the width: code words for the DC categories 0 and 1, `0` and `1`, and the end of a block.
pub(crate) const STEPS: [u8; 59] = [
    1, 1, 0x11, 0, //
    0xff, 0xc4, 0, 21, 0x00, 2, 0, 0, 0, 0, 0, 0, 0, 0, 0, 0, 0, 0, 0, 0, 0, 0, 1, //
    0xff, 0xc4, 0, 20, 0x10, 1, 0, 0, 0, 0, 0, 0, 0, 0, 0, 0, 0, 0, 0, 0, 0, 0, //
    0xff, 0xda, 0, 8, 1, 1, 0x00, 0, 63, 0,
];

/// After the width: as `LEVEL`, and a restart interval of one MCU.
pub(crate) const RESTARTS: [u8; 64] = [
    1, 1, 0x11, 0, //
    0xff, 0xc4, 0, 20, 0x00, 1, 0, 0, 0, 0, 0, 0, 0, 0, 0, 0, 0, 0, 0, 0, 0, 0, //
    0xff, 0xc4, 0, 20, 0x10, 1, 0, 0, 0, 0, 0, 0, 0, 0, 0, 0, 0, 0, 0, 0, 0, 0, //
    0xff, 0xdd, 0, 4, 0, 1, //
    0xff, 0xda, 0, 8, 1, 1, 0x00, 0, 63, 0,
];

/// End of the image.
pub(crate) const END: [u8; 2] = [0xff, 0xd9];

/// The parts, one after another.
pub(crate) fn joined(rt: &impl Abort, alloc: Global, parts: &[&[u8]]) -> Vec<u8> {
    let mut all = Vec::new(alloc);
    for part in parts {
        append(rt, &mut all, part);
    }
    all
}

pub(crate) fn append(rt: &impl Abort, all: &mut Vec<u8>, part: &[u8]) {
    all.extend_from_slice(part).expect(rt, "memory");
}

/// A copy of the bytes.
pub(crate) fn bytes_of(rt: &impl Abort, alloc: Global, bytes: &[u8]) -> Vec<u8> {
    Vec::from_slice(alloc, bytes).expect(rt, "memory")
}
