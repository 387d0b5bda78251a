// Inputs of records, each with the bytes and the status that are expected.
ghost use Rattle.std.specs.Prelude.{◌≡◌, []};

use blob_store::{FakeKeeper, Keeper, VecKeeper};
use outside_core::{MemSink, MemSource};
use std::alloc::Global;
use std::process::Abort;
use std::sync::Wait;
use std::thread::Threads;
use store_run::run_store;

// Puts the file of no byte, finds it, removes it twice, and looks for it.
const NOTHING: [u8; 137] = [
    0x50, 0, 0, 0, 0, //
    0x47, 0xe3, 0xb0, 0xc4, 0x42, 0x98, 0xfc, 0x1c, 0x14, 0x9a, 0xfb, 0xf4, 0xc8, 0x99, 0x6f, 0xb9,
    0x24, 0x27, 0xae, 0x41, 0xe4, 0x64, 0x9b, 0x93, 0x4c, 0xa4, 0x95, 0x99, 0x1b, 0x78, 0x52, 0xb8,
    0x55, 0x44, 0xe3, 0xb0, 0xc4, 0x42, 0x98, 0xfc, 0x1c, 0x14, 0x9a, 0xfb, 0xf4, 0xc8, 0x99, 0x6f,
    0xb9, 0x24, 0x27, 0xae, 0x41, 0xe4, 0x64, 0x9b, 0x93, 0x4c, 0xa4, 0x95, 0x99, 0x1b, 0x78, 0x52,
    0xb8, 0x55, 0x44, 0xe3, 0xb0, 0xc4, 0x42, 0x98, 0xfc, 0x1c, 0x14, 0x9a, 0xfb, 0xf4, 0xc8, 0x99,
    0x6f, 0xb9, 0x24, 0x27, 0xae, 0x41, 0xe4, 0x64, 0x9b, 0x93, 0x4c, 0xa4, 0x95, 0x99, 0x1b, 0x78,
    0x52, 0xb8, 0x55, 0x47, 0xe3, 0xb0, 0xc4, 0x42, 0x98, 0xfc, 0x1c, 0x14, 0x9a, 0xfb, 0xf4, 0xc8,
    0x99, 0x6f, 0xb9, 0x24, 0x27, 0xae, 0x41, 0xe4, 0x64, 0x9b, 0x93, 0x4c, 0xa4, 0x95, 0x99, 0x1b,
    0x78, 0x52, 0xb8, 0x55,
];

// 01 and the SHA-256 of no byte, 04 and no byte, 06, 07, 05.
const ANSWERED: [u8; 41] = [
    1, 0xe3, 0xb0, 0xc4, 0x42, 0x98, 0xfc, 0x1c, 0x14, 0x9a, 0xfb, 0xf4, 0xc8, 0x99, 0x6f, 0xb9,
    0x24, 0x27, 0xae, 0x41, 0xe4, 0x64, 0x9b, 0x93, 0x4c, 0xa4, 0x95, 0x99, 0x1b, 0x78, 0x52, 0xb8,
    0x55, 4, 0, 0, 0, 0, 6, 7, 5,
];

// The records give these bytes, this status, and this line. The source fails at the reads with these numbers.
fn answers<R: Threads + Wait + Sync + Abort, P: Keeper>(
    rt: &R,
    alloc: Global,
    keeper: P,
    input: &[u8],
    fails: &[u64],
    expected: (&[u8], u8, &[u8]),
) -> bool
    requires { P.blobs keeper ≡ [] }
{
    let mut source = MemSource::new(input, 7, fails);
    let mut sink = MemSink::new(alloc, 1 << 16, 5, &[]).expect(rt, "memory");
    let mut note = MemSink::new(alloc, 1 << 16, 5, &[]).expect(rt, "memory");
    let (ending, _) = run_store(rt, alloc, keeper, &mut source, &mut sink, &mut note);
    let (replies, wanted, line) = expected;
    sink.bytes() == replies && ending.status() == wanted && note.bytes() == line
}

#[test]
fn the_file_of_no_byte(rt: HostRuntime) {
    let heap = rt.alloc();
    let all: (&[u8], u8, &[u8]) = (&ANSWERED, 0, &[]);
    assert!(rt; answers(&rt, heap, VecKeeper::new(heap), &NOTHING, &[], all));
    let put: (&[u8], u8, &[u8]) = (&ANSWERED[..33], 0, &[]);
    assert!(rt; answers(&rt, heap, VecKeeper::new(heap), &NOTHING[..5], &[], put));
}

#[test]
fn bad_records(rt: HostRuntime) {
    let heap = rt.alloc();
    let bad: (&[u8], u8, &[u8]) = (&[], 1, b"store: bad record\n");
    assert!(rt; answers(&rt, heap, VecKeeper::new(heap), &[0x51], &[], bad));
    assert!(rt; answers(&rt, heap, VecKeeper::new(heap), &NOTHING[..4], &[], bad));
    assert!(rt; answers(&rt, heap, VecKeeper::new(heap), &NOTHING[5..37], &[], bad));
    // A length of 67,108,865.
    assert!(rt;
        answers(
            &rt,
            heap,
            VecKeeper::new(heap),
            &[0x50, 4, 0, 0, 1],
            &[],
            bad
        )
    );
    // The first record is answered.
    let second: (&[u8], u8, &[u8]) = (&ANSWERED[..33], 1, b"store: bad record\n");
    assert!(rt; answers(&rt, heap, VecKeeper::new(heap), &NOTHING[..9], &[], second));
}

#[test]
fn faults(rt: HostRuntime) {
    let heap = rt.alloc();
    let failed: (&[u8], u8, &[u8]) = (&[], 3, b"lepton: read failed\n");
    assert!(rt; answers(&rt, heap, VecKeeper::new(heap), &NOTHING, &[2], failed));
    let mut fails = Vec::new(heap);
    fails.push(1).expect(&rt, "memory");
    let keeper: (&[u8], u8, &[u8]) = (&[], 6, b"store: keeper failed\n");
    assert!(rt;
        answers(
            &rt,
            heap,
            FakeKeeper::new(heap, fails),
            &NOTHING,
            &[],
            keeper
        )
    );
}
