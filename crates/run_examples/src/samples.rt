// Samples: their bytes by length and digest, back again, and what `sample` says of them. The values come from another
// implementation.
use crate::trial::{Faults, NONE, Trial, assert_holds, comes_back, run_over, run_past};
use lepton_encode::encode;
use outside_core::{Gate, OpenGate};
use sample_jpeg::sample;
use sha2::{Digest, Sha256};
use std::alloc::Global;
use std::process::Abort;
use std::sync::Wait;
use std::sync::atomic::{AtomicU64, Ordering};
use std::thread::Threads;

// A seed, columns and rows; how many bytes the file has and how many its container in at most eight segments; the
// arguments that ask for the sample, what is said of it, and a bit for each segment; the SHA-256 of file and container.
struct Known<'a> {
    seed: u32,
    columns: u16,
    rows: u16,
    file: u64,
    made: u64,
    words: &'a [&'a str],
    summary: &'a [u8],
    visits: u64,
    digest: &'a [u8],
    made_digest: &'a [u8],
}

const KNOWN: &[Known<'static>] = &[
    Known {
        seed: 2,
        columns: 4,
        rows: 3,
        file: 534,
        made: 660,
        words: &["sample", "--seed", "2", "--columns", "4", "--rows", "3"],
        summary: b"file 534\nbox 660\nsegments 3\nworkers 4\nrestored 534\n",
        visits: 0b111,
        digest: &[
            0x66, 0xcc, 0x8f, 0xf5, 0x2b, 0x52, 0xa8, 0x3a, 0x84, 0x13, 0x3c, 0x6a, 0x0b, 0x89,
            0xf5, 0x63, 0x08, 0x6a, 0x12, 0xa3, 0xc2, 0x85, 0xa1, 0xb1, 0xaa, 0x39, 0xcf, 0x52,
            0x36, 0x7e, 0x30, 0xd5,
        ],
        made_digest: &[
            0x06, 0xe2, 0x78, 0x15, 0x8f, 0x61, 0x58, 0xea, 0x9c, 0xeb, 0x73, 0x85, 0x7d, 0x80,
            0x83, 0x98, 0x11, 0x3b, 0x5a, 0xf5, 0x98, 0x59, 0x97, 0x88, 0x51, 0x20, 0xd7, 0xf1,
            0x10, 0x4e, 0xd5, 0xda,
        ],
    },
    Known {
        seed: 7,
        columns: 4,
        rows: 3,
        file: 601,
        made: 706,
        words: &["sample", "--seed", "7", "--columns", "4", "--rows", "3"],
        summary: b"file 601\nbox 706\nsegments 3\nworkers 4\nrestored 601\n",
        visits: 0b111,
        digest: &[
            0x12, 0x6b, 0x93, 0xce, 0x82, 0x6a, 0x37, 0x0f, 0xaa, 0x3a, 0x0d, 0xed, 0x96, 0x01,
            0xda, 0x35, 0xd6, 0x23, 0x52, 0x53, 0x59, 0xf6, 0x42, 0x26, 0xfb, 0x9d, 0xce, 0x88,
            0x3f, 0xf7, 0xb3, 0xa0,
        ],
        made_digest: &[
            0xb5, 0x84, 0x08, 0x0b, 0xd1, 0xff, 0x15, 0xf2, 0xf1, 0xb9, 0x46, 0x8a, 0x93, 0xea,
            0x7f, 0x66, 0x82, 0x3f, 0xcb, 0x63, 0xc4, 0x5d, 0xdb, 0x99, 0x97, 0xf3, 0x22, 0x46,
            0xe8, 0x49, 0xf3, 0x66,
        ],
    },
    Known {
        seed: 4_294_967_295,
        columns: 1,
        rows: 256,
        file: 7354,
        made: 6276,
        words: &[
            "sample",
            "--seed",
            "4294967295",
            "--columns",
            "1",
            "--rows",
            "256",
        ],
        summary: b"file 7354\nbox 6276\nsegments 8\nworkers 4\nrestored 7354\n",
        visits: 0b1111_1111,
        digest: &[
            0x76, 0x01, 0x7b, 0x6f, 0x53, 0xfa, 0xba, 0x6c, 0xe8, 0x3a, 0x34, 0x63, 0x35, 0x9d,
            0x29, 0x98, 0x55, 0x4f, 0x4d, 0x78, 0x17, 0x4b, 0xd3, 0x5a, 0xea, 0xbf, 0x30, 0xf3,
            0x5f, 0x54, 0x16, 0x78,
        ],
        made_digest: &[
            0xb0, 0x78, 0x83, 0x45, 0xb1, 0x6f, 0x6e, 0x8a, 0xde, 0x63, 0xc2, 0xee, 0x9c, 0x9e,
            0xaf, 0x59, 0x2e, 0x88, 0x9c, 0x79, 0xaf, 0x10, 0x4b, 0x73, 0xba, 0x06, 0x5c, 0x16,
            0xb3, 0xe1, 0x7a, 0xef,
        ],
    },
    Known {
        seed: 5,
        columns: 256,
        rows: 1,
        file: 6752,
        made: 5276,
        words: &["sample", "--seed", "5", "--columns", "256", "--rows", "1"],
        summary: b"file 6752\nbox 5276\nsegments 1\nworkers 4\nrestored 6752\n",
        visits: 0b1,
        digest: &[
            0x8d, 0xdf, 0xf6, 0x52, 0x33, 0xc7, 0x22, 0x01, 0x57, 0xbc, 0x5e, 0xc9, 0x14, 0x76,
            0x4b, 0x5b, 0x36, 0xd3, 0x47, 0xec, 0x2b, 0x8b, 0x1d, 0xf4, 0xc9, 0xae, 0x74, 0xd8,
            0x98, 0x7c, 0x9a, 0xa5,
        ],
        made_digest: &[
            0xa0, 0xe9, 0x71, 0x04, 0xe8, 0x70, 0xe9, 0xfd, 0x02, 0x1b, 0xce, 0x66, 0xdc, 0x13,
            0xf6, 0xfb, 0xcd, 0xd4, 0x7f, 0x12, 0x22, 0xdb, 0x1e, 0xe5, 0xe5, 0xda, 0x9b, 0x86,
            0x9a, 0x40, 0xc4, 0x9b,
        ],
    },
    Known {
        seed: 2,
        columns: 256,
        rows: 256,
        file: 1_655_492,
        made: 1_160_947,
        words: &["sample", "--seed", "2", "--columns", "256", "--rows", "256"],
        summary: b"file 1655492\nbox 1160947\nsegments 8\nworkers 4\nrestored 1655492\n",
        visits: 0b1111_1111,
        digest: &[
            0x27, 0x44, 0x10, 0x4d, 0x64, 0x3e, 0x55, 0xf1, 0xb0, 0x9a, 0xdb, 0x7d, 0x1b, 0x7e,
            0xbd, 0xb1, 0x5a, 0x97, 0x8e, 0x07, 0xab, 0xc0, 0xd4, 0x2d, 0x12, 0x3c, 0x98, 0xc3,
            0x27, 0x51, 0x36, 0x38,
        ],
        made_digest: &[
            0xbf, 0x6d, 0xad, 0xd5, 0xda, 0xa7, 0x22, 0xb1, 0x98, 0x2a, 0x79, 0xc5, 0x0e, 0xf9,
            0x84, 0x6c, 0x2d, 0x76, 0x19, 0xc8, 0x37, 0x61, 0xfe, 0x3c, 0xd4, 0x21, 0x8d, 0xbf,
            0x8d, 0x4c, 0xa4, 0x75,
        ],
    },
];

// Each is encoded, and decoded into a sink that compares, by no workers and some, with a small ring and a large one.
#[test]
fn samples_come_back(rt: HostRuntime) {
    for known in KNOWN {
        assert_known(&rt, rt.alloc(), known);
    }
}

fn assert_known<R: Threads + Wait + Sync + Abort>(rt: &R, alloc: Global, known: &Known) {
    let file = sample_of(rt, alloc, known.seed, known.columns, known.rows);
    let made = container_of(rt, alloc, file.as_slice());
    assert!(rt; is_known(file.as_slice(), known.file, known.digest));
    assert!(rt; is_known(made.as_slice(), known.made, known.made_digest));
    assert!(rt; comes_back_by_all(rt, alloc, made.as_slice(), file.as_slice()));
}

fn sample_of(rt: &impl Abort, alloc: Global, seed: u32, columns: u16, rows: u16) -> Vec<u8> {
    assert!(rt; 1 <= columns && columns <= 256);
    assert!(rt; 1 <= rows && rows <= 256);
    sample(alloc, seed, columns, rows).expect(rt, "memory")
}

fn container_of<R: Threads + Sync + Abort>(rt: &R, alloc: Global, file: &[u8]) -> Vec<u8> {
    assert!(rt; file.len() < 1 << 32);
    encode(rt, alloc, file, 8)
        .ok()
        .expect(rt, "a sample is refused")
}

fn is_known(bytes: &[u8], length: u64, digest: &[u8]) -> bool {
    bytes.len() as u64 == length && Sha256::digest(bytes).as_slice() == digest
}

fn comes_back_by_all<R: Threads + Wait + Sync + Abort>(
    rt: &R,
    alloc: Global,
    container: &[u8],
    file: &[u8],
) -> bool {
    comes_back(rt, alloc, container, file, 0, 1, &OpenGate)
        && comes_back(rt, alloc, container, file, 1, 4_096, &OpenGate)
        && comes_back(rt, alloc, container, file, 4, 1 << 20, &OpenGate)
}

/// Notes each segment that a worker put or the emitter asked for.
#[derive(Drop)]
pub(crate) struct Visits {
    // Bit i for segment i.
    segments: AtomicU64,
}

impl Visits {
    pub(crate) fn none() -> Visits {
        Visits {
            segments: AtomicU64::new(0),
        }
    }

    pub(crate) fn segments(&self) -> u64 {
        self.segments.load(Ordering::SeqCst)
    }

    fn note(&self, segment: u8) {
        if segment < 64 {
            self.segments.fetch_or(1 << segment, Ordering::SeqCst);
        }
    }
}

impl Gate for Visits {
    fn before_put(&self, segment: u8) {
        self.note(segment);
    }

    fn after_put(&self, _segment: u8) {}

    fn before_own(&self, segment: u8) {
        self.note(segment);
    }
}

// `sample` reads nothing, writes five lines, and decodes each segment past the given gate.
#[test]
fn summaries(rt: HostRuntime) {
    for known in KNOWN {
        assert!(rt; is_summed_up(&rt, rt.alloc(), known));
    }
}

fn is_summed_up<R: Threads + Wait + Sync + Abort>(rt: &R, alloc: Global, known: &Known) -> bool {
    let visits = Visits::none();
    let tried = run_past(rt, alloc, known.words, &[0xff], NONE, &visits);
    is_said(&tried, 0, known.summary, b"") && visits.segments() == known.visits
}

// Whether nothing was read, and this was written and noted.
fn is_said(tried: &Trial, status: u8, written: &[u8], noted: &[u8]) -> bool {
    tried.status == status
        && tried.written.as_slice() == written
        && tried.noted.as_slice() == noted
        && tried.left.as_slice() == [0xff].as_slice()
}

const LEAST: &[&str] = &["sample", "--seed", "0", "--columns", "1", "--rows", "1"];

const LEAST_SUMMARY: &[u8] = b"file 277\nbox 323\nsegments 1\nworkers 4\nrestored 277\n";

// The sink accepts seven bytes a call, so there are eight calls: each fails in turn, after the bytes of those before
// it.
#[test]
fn a_write_of_a_summary_that_fails(rt: HostRuntime) {
    assert!(rt; LEAST_SUMMARY.len() == 51);
    for n in 1..9u64 {
        let is_cut = is_cut(&rt, rt.alloc(), n);
        assert_holds(&rt, is_cut, "write", n);
    }
}

fn is_cut<R: Threads + Wait + Sync + Abort>(rt: &R, alloc: Global, n: u64) -> bool {
    assert!(rt; 1 <= n && n <= 8);
    let fails = [n];
    let faults = Faults {
        writes: &fails,
        ..NONE
    };
    let tried = run_over(rt, alloc, LEAST, &[0xff], faults);
    let (written, _) = LEAST_SUMMARY.split_at(7 * (n as usize - 1));
    is_said(&tried, 4, written, b"lepton: write failed\n")
}
