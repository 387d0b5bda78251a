// Sources and sinks that fail in mid-stream, and inputs at the limit.
use crate::containers::{LEVEL_SEGMENT, PADDED_WITH_ONES, container_of};
use crate::rows::{LEAST, Row, TWO_INTERVALS};
use crate::segments::INTERVALS_SPLIT;
use crate::trial::{Faults, NONE, Room, SEVEN_A_CALL, Trial, assert_holds, run_from, run_over};
use outside_core::{MemSource, NeverSource, OpenGate, ReadAll, read_all};
use std::alloc::Global;
use std::process::Abort;
use std::sync::Wait;
use std::thread::Threads;

const READ_FAILED: &[u8] = b"lepton: read failed\n";

const WRITE_FAILED: &[u8] = b"lepton: write failed\n";

// A byte a read: 81 reads give all the bytes of the file with a restart on the seam, and the next reports the end. No
// other is asked for.
#[test]
fn a_read_that_fails(rt: HostRuntime) {
    let alloc = rt.alloc();
    let file = TWO_INTERVALS.file(&rt, alloc);
    assert!(rt; file.len() == 81);
    for n in 1..83u64 {
        assert_fails_by_bytes(&rt, alloc, file.as_slice(), n);
    }
    assert!(rt; is_encoded_by_bytes(&rt, alloc, file.as_slice(), 83));
}

fn assert_fails_by_bytes<R: Threads + Wait + Sync + Abort>(
    rt: &R,
    alloc: Global,
    file: &[u8],
    n: u64,
) {
    let tried = encoded_by_bytes(rt, alloc, file, n);
    assert_holds(rt, is_a_read_fault(&tried), "read", n);
}

fn is_encoded_by_bytes<R: Threads + Wait + Sync + Abort>(
    rt: &R,
    alloc: Global,
    file: &[u8],
    n: u64,
) -> bool {
    let container = INTERVALS_SPLIT.container(rt, alloc);
    assert!(rt; container.len() == 146);
    encoded_by_bytes(rt, alloc, file, n).is_done(container.as_slice())
}

// A file is encoded from a source of a byte a call, whose call of this number fails.
fn encoded_by_bytes<R: Threads + Wait + Sync + Abort>(
    rt: &R,
    alloc: Global,
    file: &[u8],
    n: u64,
) -> Trial {
    let fails = [n];
    let mut source = MemSource::new(file, 1, &fails);
    run_from(
        rt,
        alloc,
        &["encode"],
        &mut source,
        SEVEN_A_CALL,
        NONE,
        &OpenGate,
    )
}

fn is_a_read_fault(tried: &Trial) -> bool {
    tried.status == 3 && tried.written.is_empty() && tried.noted.as_slice() == READ_FAILED
}

// Eight reads give all the bytes and the ninth reports the end.
#[test]
fn a_read_that_fails_on_the_way_back(rt: HostRuntime) {
    let container = LEAST.container(&rt, rt.alloc());
    for n in 1..10u64 {
        for word in ["decode", "migrate"] {
            let is_fault = fails_at_a_read(&rt, rt.alloc(), word, container.as_slice(), n);
            assert_holds(&rt, is_fault, word, n);
        }
    }
}

fn fails_at_a_read<R: Threads + Wait + Sync + Abort>(
    rt: &R,
    alloc: Global,
    word: &str,
    container: &[u8],
    n: u64,
) -> bool {
    let fails = [n];
    let faults = Faults {
        reads: &fails,
        ..NONE
    };
    is_a_read_fault(&run_over(rt, alloc, &[word], container, faults))
}

// Sixteen pieces of 7 bytes and one of 3.
#[test]
fn a_write_that_fails(rt: HostRuntime) {
    let file = LEAST.file(&rt, rt.alloc());
    let whole = LEAST.container(&rt, rt.alloc());
    assert_cut_containers(&rt, rt.alloc(), "encode", file.as_slice(), whole.as_slice());
}

// The same of a container of version 1 in version 2.
#[test]
fn a_write_of_a_migrated_container_that_fails(rt: HostRuntime) {
    let first = LEAST.first_container(&rt, rt.alloc());
    let whole = LEAST.container(&rt, rt.alloc());
    assert_cut_containers(
        &rt,
        rt.alloc(),
        "migrate",
        first.as_slice(),
        whole.as_slice(),
    );
}

fn assert_cut_containers<R: Threads + Wait + Sync + Abort>(
    rt: &R,
    alloc: Global,
    word: &str,
    input: &[u8],
    whole: &[u8],
) {
    assert!(rt; whole.len() == 115);
    for n in 1..18u64 {
        let tried = run_cut(rt, alloc, word, input, n);
        assert_holds(rt, is_cut(&tried, whole, 4, 7 * (n - 1)), word, n);
    }
}

// The sink's call of this number fails.
fn run_cut<R: Threads + Wait + Sync + Abort>(
    rt: &R,
    alloc: Global,
    word: &str,
    input: &[u8],
    n: u64,
) -> Trial {
    let fails = [n];
    let faults = Faults {
        writes: &fails,
        ..NONE
    };
    run_over(rt, alloc, &[word], input, faults)
}

// Whether the first bytes of the whole were written, `length` of them, and a fault of the sink has its note.
fn is_cut(tried: &Trial, whole: &[u8], status: u8, length: u64) -> bool {
    tried.status == status
        && tried.written.len() as u64 == length
        && whole.starts_with(tried.written.as_slice())
        && (status != 4 || tried.noted.as_slice() == WRITE_FAILED)
}

// The number of the call that fails, the status, and the number of bytes that are written. A decode writes while it
// goes on: nine pieces of 7 bytes and one of 6 for the header, then a byte of the scan, and then the trailer. Before a
// call that fails there are the bytes of the calls before it, and one that isn't reached changes nothing.
const CUT: &[[u8; 3]] = &[
    [1, 4, 0],
    [2, 4, 7],
    [3, 4, 14],
    [4, 4, 21],
    [5, 4, 28],
    [6, 4, 35],
    [7, 4, 42],
    [8, 4, 49],
    [9, 4, 56],
    [10, 4, 63],
    [11, 4, 69],
    [12, 4, 70],
    [13, 0, 72],
];

#[test]
fn a_write_that_fails_on_the_way_back(rt: HostRuntime) {
    let container = LEAST.container(&rt, rt.alloc());
    for row in CUT {
        assert_cut(&rt, rt.alloc(), container.as_slice(), row);
    }
}

fn assert_cut<R: Threads + Wait + Sync + Abort>(
    rt: &R,
    alloc: Global,
    container: &[u8],
    row: &[u8; 3],
) {
    let [n, status, length] = *row;
    let file = LEAST.file(rt, alloc);
    let tried = run_cut(rt, alloc, "decode", container, n as u64);
    let is_cut = is_cut(&tried, file.as_slice(), status, length as u64);
    assert_holds(rt, is_cut, "write", n as u64);
}

// The same if the stream has a fault: the header alone is written.
const CUT_BEFORE_A_FAULT: &[[u8; 3]] = &[
    [1, 4, 0],
    [2, 4, 7],
    [3, 4, 14],
    [4, 4, 21],
    [5, 4, 28],
    [6, 4, 35],
    [7, 4, 42],
    [8, 4, 49],
    [9, 4, 56],
    [10, 4, 63],
    [11, 1, 69],
    [12, 1, 69],
    [13, 1, 69],
];

#[test]
fn a_write_that_fails_before_a_fault_of_the_stream(rt: HostRuntime) {
    let faulty = Row {
        stream: &[0, 8, 0],
        ..LEAST
    };
    let container = faulty.container(&rt, rt.alloc());
    for row in CUT_BEFORE_A_FAULT {
        assert_cut(&rt, rt.alloc(), container.as_slice(), row);
    }
}

#[test]
fn a_source_is_read_up_to_the_limit(rt: HostRuntime) {
    assert!(rt; is_read_whole(&rt, rt.alloc(), &[1, 2, 3, 4], 4));
    let five = read_all(rt.alloc(), &mut NeverSource::new(&[1, 2, 3, 4, 5]), 4);
    assert!(rt; matches!(five, Err(ReadAll::TooLong)));
}

fn is_read_whole(rt: &impl Abort, alloc: Global, bytes: &[u8], limit: u64) -> bool {
    let whole = read_all(alloc, &mut NeverSource::new(bytes), limit)
        .ok()
        .expect(rt, "refused");
    whole.as_slice() == bytes
}

// The limit of a file, in bytes.
const LIMIT: usize = 67_108_864;

// The least file with a longer trailer: this number of bytes in all.
fn longer(rt: &impl Abort, alloc: Global, length: usize) -> Vec<u8> {
    let mut file = LEAST.file(rt, alloc);
    file.resize(length, 0).expect(rt, "memory");
    file
}

#[test]
fn the_longest_file_is_encoded(rt: HostRuntime) {
    let file = longer(&rt, rt.alloc(), LIMIT);
    let tried = run_long(&rt, rt.alloc(), "encode", file.as_slice());
    assert!(rt; tried.status == 0 && tried.noted.is_empty());
    assert!(rt; tried.written.len() == LIMIT + 43);
}

#[test]
fn a_byte_past_the_limit_is_refused(rt: HostRuntime) {
    let file = longer(&rt, rt.alloc(), LIMIT + 1);
    assert!(rt; is_too_long(&run_long(&rt, rt.alloc(), "encode", file.as_slice())));
}

const TOO_LONG: &[u8] = b"lepton: refused 50 TooLong\n";

fn is_too_long(tried: &Trial) -> bool {
    tried.status == 1 && tried.written.is_empty() && tried.noted.as_slice() == TOO_LONG
}

// The container of the longest file is longer than a file may be, and gives it back.
#[test]
fn the_longest_file_comes_back(rt: HostRuntime) {
    let file = longer(&rt, rt.alloc(), LIMIT);
    let container = longest_container(&rt, rt.alloc(), file.as_slice());
    let tried = run_long(&rt, rt.alloc(), "decode", container.as_slice());
    assert!(rt; tried.is_done(file.as_slice()));
}

fn longest_container(rt: &impl Abort, alloc: Global, file: &[u8]) -> Vec<u8> {
    assert!(rt; file.len() == LIMIT);
    let (header, rest) = file.split_at(69);
    let (_, trailer) = rest.split_at(1);
    container_of(
        rt,
        alloc,
        PADDED_WITH_ONES,
        &[LEVEL_SEGMENT],
        header,
        trailer,
    )
}

// Room for all.
const LONG: Room = Room {
    bytes: 1 << 27,
    piece: 1 << 20,
};

// A source that never fails.
fn run_long<R: Threads + Wait + Sync + Abort>(
    rt: &R,
    alloc: Global,
    word: &str,
    input: &[u8],
) -> Trial {
    let mut source = NeverSource::new(input);
    run_from(rt, alloc, &[word], &mut source, LONG, NONE, &OpenGate)
}
