// Files in several segments, and their containers.
use crate::containers::{LEVEL_SEGMENT, SCAN_START, Segment, container_of};
use crate::rows::{Row, TWO_INTERVALS, TWO_PADS, TWO_STEPS};
use std::alloc::Global;
use std::process::Abort;

/// A file and its segments.
#[derive(Clone, Copy)]
pub(crate) struct Split<'a> {
    pub(crate) row: Row<'a>,
    pub(crate) segments: &'a [Segment<'a>],
}

/// A segment of a block of zeros that starts after a restart marker.
pub(crate) const AFTER_A_MARKER: Segment<'static> = Segment {
    start: [0, 0, 0, 0, 0, 0, 0, 0, 0, 0, 0, 0, 0, 1],
    stream: &[0, 0, 0],
};

/// A restart marker at the end of a segment.
pub(crate) const INTERVALS_SPLIT: Split<'static> = Split {
    row: TWO_INTERVALS,
    segments: &[LEVEL_SEGMENT, AFTER_A_MARKER],
};

/// The same, padded with ones and with zeros.
pub(crate) const PADS_SPLIT: Split<'static> = Split {
    row: TWO_PADS,
    segments: &[LEVEL_SEGMENT, AFTER_A_MARKER],
};

/// A DC that the next segment starts from.
pub(crate) const STEPS_SPLIT: Split<'static> = Split {
    row: TWO_STEPS,
    segments: &[
        Segment {
            start: SCAN_START,
            stream: &[0, 8, 0],
        },
        Segment {
            start: [0xc0, 3, 0, 1, 0, 0, 0, 0, 0, 0, 0, 0, 0, 0],
            stream: &[0, 8, 0],
        },
    ],
};

impl Split<'_> {
    pub(crate) fn container(&self, rt: &impl Abort, alloc: Global) -> Vec<u8> {
        let header = self.row.header(rt, alloc);
        container_of(
            rt,
            alloc,
            self.row.pads,
            self.segments,
            header.as_slice(),
            self.row.trailer,
        )
    }
}
