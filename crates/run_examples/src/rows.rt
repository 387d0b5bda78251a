// Files with their containers of one segment.
use crate::containers::{
    PADDED_WITH_ONES, Padding, SCAN_START, Segment, container_of, first_container_of,
};
use crate::files::{END, LEVEL, RESTARTS, START, STEPS, append, bytes_of};
use std::alloc::Global;
use std::process::Abort;

/// A file by its height and width, what comes after them, its scan, its pad bits and its trailer; and its stream, all
/// of it in one segment.
#[derive(Clone, Copy)]
pub(crate) struct Row<'a> {
    pub(crate) size: [u8; 4],
    pub(crate) tail: &'a [u8],
    pub(crate) scan: &'a [u8],
    pub(crate) pads: Padding<'a>,
    pub(crate) trailer: &'a [u8],
    pub(crate) stream: &'a [u8],
}

/// The least file.
pub(crate) const LEAST: Row<'static> = Row {
    size: [0, 8, 0, 8],
    tail: &LEVEL,
    scan: &[0x3f],
    pads: PADDED_WITH_ONES,
    trailer: &END,
    stream: &[0, 0, 0],
};

/// Up and down again, over a corner of a block: four blocks with the DC 1, 0, 0 and -1.
pub(crate) const UP_AND_DOWN: Row<'static> = Row {
    size: [0, 9, 0, 9],
    tail: &STEPS,
    scan: &[0xd0, 0x9f],
    pads: PADDED_WITH_ONES,
    trailer: &END,
    stream: &[0, 8, 2, 82, 105, 80],
};

/// Two blocks, one below the other, each with a restart interval of its own.
pub(crate) const TWO_INTERVALS: Row<'static> = Row {
    size: [0, 16, 0, 8],
    tail: &RESTARTS,
    scan: &[0x3f, 0xff, 0xd0, 0x3f],
    pads: PADDED_WITH_ONES,
    trailer: &END,
    stream: &[0, 0, 0, 0],
};

/// The same, padded with ones and with zeros.
pub(crate) const TWO_PADS: Row<'static> = Row {
    size: [0, 16, 0, 8],
    tail: &RESTARTS,
    scan: &[0x3f, 0xff, 0xd0, 0],
    pads: Padding {
        byte: 2,
        list: &[0x80],
    },
    trailer: &END,
    stream: &[0, 0, 0, 0],
};

/// Two blocks with a DC of 1, one below the other, in one byte.
pub(crate) const TWO_STEPS: Row<'static> = Row {
    size: [0, 16, 0, 8],
    tail: &STEPS,
    scan: &[0xc7],
    pads: PADDED_WITH_ONES,
    trailer: &END,
    stream: &[0, 8, 0, 0],
};

impl Row<'_> {
    pub(crate) fn header(&self, rt: &impl Abort, alloc: Global) -> Vec<u8> {
        let mut header = bytes_of(rt, alloc, &START);
        append(rt, &mut header, &self.size);
        append(rt, &mut header, self.tail);
        header
    }

    pub(crate) fn file(&self, rt: &impl Abort, alloc: Global) -> Vec<u8> {
        let mut file = self.header(rt, alloc);
        append(rt, &mut file, self.scan);
        append(rt, &mut file, self.trailer);
        file
    }

    pub(crate) fn container(&self, rt: &impl Abort, alloc: Global) -> Vec<u8> {
        let header = self.header(rt, alloc);
        container_of(
            rt,
            alloc,
            self.pads,
            &[self.segment()],
            header.as_slice(),
            self.trailer,
        )
    }

    /// In version 1, of a file with one pad bit.
    pub(crate) fn first_container(&self, rt: &impl Abort, alloc: Global) -> Vec<u8> {
        let header = self.header(rt, alloc);
        first_container_of(
            rt,
            alloc,
            self.pads.byte,
            &[self.segment()],
            header.as_slice(),
            self.trailer,
        )
    }

    fn segment(&self) -> Segment<'_> {
        Segment {
            start: SCAN_START,
            stream: self.stream,
        }
    }
}
