// Containers with a byte changed.
use crate::rows::{LEAST, Row, UP_AND_DOWN};
use crate::segments::{INTERVALS_SPLIT, PADS_SPLIT, STEPS_SPLIT, Split};
use crate::trial::{NONE, Trial, assert_holds, run_over};
use std::alloc::Global;
use std::process::Abort;
use std::sync::Wait;
use std::thread::Threads;

// The number of containers of a file if one byte is changed: the trailer's 2 bytes and the number of the
// quantization table are free, 15 other pairs of sampling factors say the same of one component, 7 other heights and
// widths make as many blocks, and there is another pad bit.
const FREE: u32 = 2 * 255 + 255 + 15 + 7 + 7 + 1;

#[test]
fn changed_bytes(rt: HostRuntime) {
    assert!(rt; files_of_row(&rt, rt.alloc(), &LEAST) == FREE);
    assert!(rt; files_of_row(&rt, rt.alloc(), &UP_AND_DOWN) == FREE);
}

fn files_of_row<R: Threads + Wait + Sync + Abort>(rt: &R, alloc: Global, row: &Row) -> u32 {
    let mut container = row.container(rt, alloc);
    files_of_changed(rt, alloc, "1", container.as_mut_slice())
}

// In version 1.
#[test]
fn changed_bytes_of_the_first_version(rt: HostRuntime) {
    let mut container = LEAST.first_container(&rt, rt.alloc());
    let found = files_of_changed(&rt, rt.alloc(), "1", container.as_mut_slice());
    assert!(rt; found == FREE);
}

// If the second block has the first one's DC, it may have one above or below as well.
#[test]
fn changed_bytes_of_two_segments(rt: HostRuntime) {
    assert!(rt; files_of_split(&rt, rt.alloc(), &INTERVALS_SPLIT) == FREE);
    assert!(rt; files_of_split(&rt, rt.alloc(), &STEPS_SPLIT) == FREE + 2);
}

// If two intervals pad with different bits, there is the list with the two changed round in place of another pad bit.
#[test]
fn changed_bytes_of_two_pads(rt: HostRuntime) {
    assert!(rt; files_of_split(&rt, rt.alloc(), &PADS_SPLIT) == FREE);
}

fn files_of_split<R: Threads + Wait + Sync + Abort>(rt: &R, alloc: Global, split: &Split) -> u32 {
    let mut container = split.container(rt, alloc);
    files_of_changed(rt, alloc, "2", container.as_mut_slice())
}

// Each byte as each other value. Counts the containers of a file; all others are refused.
fn files_of_changed<R: Threads + Wait + Sync + Abort>(
    rt: &R,
    alloc: Global,
    asked: &str,
    container: &mut [u8],
) -> u32 {
    let mut found = 0u32;
    for place in 0..container.len() {
        let here = files_of_changed_at(rt, alloc, asked, container, place);
        found = found.saturating_add(here);
    }
    found
}

// The byte at this place as each other value. At the end it is what it was.
fn files_of_changed_at<R: Threads + Wait + Sync + Abort>(
    rt: &R,
    alloc: Global,
    asked: &str,
    container: &mut [u8],
    place: usize,
) -> u32 {
    let mut found = 0u32;
    for _ in 0..255 {
        raise(rt, container, place);
        if is_of_a_file(rt, alloc, asked, container, place) {
            found = found.saturating_add(1);
        }
    }
    raise(rt, container, place);
    found
}

// One more, and 0 after 255.
fn raise(rt: &impl Abort, container: &mut [u8], place: usize) {
    assert!(rt; place < container.len());
    container[place] = container[place].wrapping_add(1);
}

// Whether a container is of a file: then in version 2 it is exactly the one of the file that it gives, in this number
// of segments. If not, it is refused. No threads are started, as there are many containers.
fn is_of_a_file<R: Threads + Wait + Sync + Abort>(
    rt: &R,
    alloc: Global,
    asked: &str,
    container: &[u8],
    place: usize,
) -> bool {
    let tried = run_over(rt, alloc, &["decode", "--workers", "0"], container, NONE);
    if tried.status == 0 {
        let newest = in_the_second_version(rt, alloc, container);
        let is_its_own = gives(
            rt,
            alloc,
            asked,
            tried.written.as_slice(),
            newest.as_slice(),
        );
        assert_holds(rt, is_its_own, "its container at", place as u64);
    } else {
        let is_refused = is_refused_somehow(&tried);
        assert_holds(rt, is_refused, "refused at", place as u64);
    }
    tried.status == 0
}

// What `migrate` makes of a container: of version 2 itself.
fn in_the_second_version<R: Threads + Wait + Sync + Abort>(
    rt: &R,
    alloc: Global,
    container: &[u8],
) -> Vec<u8> {
    let tried = run_over(rt, alloc, &["migrate"], container, NONE);
    assert!(rt; container.len() > 4);
    assert!(rt; tried.status == 0);
    assert!(rt; container[4] == 1 || tried.written.as_slice() == container);
    tried.written
}

fn gives<R: Threads + Wait + Sync + Abort>(
    rt: &R,
    alloc: Global,
    asked: &str,
    file: &[u8],
    container: &[u8],
) -> bool {
    run_over(rt, alloc, &["encode", "--segments", asked], file, NONE).is_done(container)
}

// Refused as a container with nothing written, or for a fault of a segment after the header at least.
fn is_refused_somehow(tried: &Trial) -> bool {
    let number = if tried.written.is_empty() {
        b"lepton: refused 3"
    } else {
        b"lepton: refused 4"
    };
    tried.status == 1
        && tried.left.is_empty()
        && tried.noted.as_slice().starts_with(number.as_slice())
}
