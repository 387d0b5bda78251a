// Stretches of a container's segments, each written by a crew of its own (docs/FORMAT.md).

use box_format::{FileView, read_container};
use byte_window::Window;
use outside_core::{MemSink, OpenGate};
use segment_crew::Crew;
use std::alloc::{AllocError, Global};
use std::process::Abort;
use std::sync::Wait;
use std::test::Fail;
use std::thread::Threads;

// A container of three segments, of one block each: the fields, three records, a header of one component, 8 by 24
// samples, with a restart after each MCU, a trailer of 2 bytes, and three streams.
const THREE: &[u8] = b"LPSG\x01\x01\x03\0\0\0\x4b\0\0\0\x02\
    \0\0\0\0\0\0\0\0\0\0\0\0\0\0\0\0\0\0\0\0\0\x03\
    \0\0\0\0\0\0\0\0\0\0\0\0\0\x01\0\0\0\0\0\0\0\x03\
    \0\0\0\0\0\0\0\0\0\0\0\0\0\x02\0\0\0\0\0\0\0\x03\
    \xff\xd8\xff\xc0\0\x0b\x08\0\x18\0\x08\x01\x01\x11\0\
    \xff\xc4\0\x14\0\x01\0\0\0\0\0\0\0\0\0\0\0\0\0\0\0\0\
    \xff\xc4\0\x14\x10\x01\0\0\0\0\0\0\0\0\0\0\0\0\0\0\0\0\
    \xff\xdd\0\x04\0\x01\xff\xda\0\x08\x01\x01\0\0\x3f\0\
    \xff\xd9\0\0\0\0\0\0\0\0\0";

// The first segment of a stretch, how many it has, how many bytes of theirs are skipped, and what is written then. The
// segments' bytes are 3F FF D0, 3F FF D1 and 3F.
const STRETCHES: &[(u8, u8, u64, &[u8])] = &[
    (0, 3, 0, b"\x3f\xff\xd0\x3f\xff\xd1\x3f"),
    (0, 1, 0, b"\x3f\xff\xd0"),
    (1, 1, 0, b"\x3f\xff\xd1"),
    (1, 2, 0, b"\x3f\xff\xd1\x3f"),
    (1, 2, 2, b"\xd1\x3f"),
    (2, 1, 0, b"\x3f"),
    (2, 1, 1, b""),
    (3, 0, 0, b""),
];

// Whether a stretch of a container's segments is written like this by a crew with this number of workers.
fn is_written<R: Threads + Wait + Abort + Sync>(
    rt: &R,
    alloc: Global,
    view: &FileView,
    stretch: (u8, u8),
    skip: u64,
    workers: u8,
    wanted: &[u8],
) -> Result<bool, AllocError> {
    let (first, count) = stretch;
    let segments = view.segments();
    assert!(rt; first <= segments);
    assert!(rt; count <= segments - first);
    let mut sink = MemSink::new(alloc, 100, 100, &[])?;
    let window = Window { skip, most: None };
    match Crew::prepare(alloc, view, first, count, workers, 2) {
        Ok(mut crew) => {
            let emitted = crew.emit(rt, view, window, &mut sink, &OpenGate);
            Ok(emitted.is_ok() && sink.bytes() == wanted)
        }
        Err(_) => Ok(false),
    }
}

#[test]
fn stretches_are_written(rt: HostRuntime) -> Result<(), Fail> {
    let alloc = rt.alloc();
    match read_container(alloc, THREE) {
        Ok(view) => {
            for (first, count, skip, wanted) in STRETCHES {
                for workers in 0..3 {
                    assert!(rt;
                        is_written(&rt, alloc, &view, (*first, *count), *skip, workers, wanted)?,
                        "{count} from {first} on, {workers} workers"
                    );
                }
            }
        }
        Err(_) => assert!(rt; false),
    }
    Ok(())
}
