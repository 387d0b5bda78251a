// A decode in which two workers must decode at the same time.
use crate::containers::{LEVEL_SEGMENT, PADDED_WITH_ONES, Segment, container_of};
use crate::files::{END, LEVEL, RESTARTS, START, joined};
use crate::segments::AFTER_A_MARKER;
use crate::trial::{NONE, comes_back, run_over, run_past};
use allocation::from_elem;
use outside_core::Gate;
use std::alloc::Global;
use std::hint;
use std::process::Abort;
use std::sync::Wait;
use std::sync::atomic::{AtomicBool, Ordering};
use std::thread::Threads;

// Three blocks of zeros, one below another, each with a restart interval of its own: 84 bytes.
const SIZE: [u8; 4] = [0, 24, 0, 8];

// 1,536 by 1,024 pixels.
const LARGE: [u8; 4] = [6, 0, 4, 0];

const SCAN: [u8; 7] = [0x3f, 0xff, 0xd0, 0x3f, 0xff, 0xd1, 0x3f];

const SEGMENTS: [Segment<'static>; 3] = [
    LEVEL_SEGMENT,
    AFTER_A_MARKER,
    Segment {
        start: [0, 0, 0, 0, 0, 0, 0, 0, 0, 0, 0, 0, 0, 2],
        stream: &[0, 0, 0],
    },
];

// How often a hold looks where it is let go, and where it isn't.
const MANY_LOOKS: u64 = 100_000_000;

const FEW_LOOKS: u64 = 1_000;

// Holds the emitter at each segment of its own, and the worker of segment 1 at its first put, until a put of segment 2
// was answered; and the worker of segment 2 at its first put, until segment 1 comes to its own. Only two workers that
// decode at the same time pass.
#[derive(Drop)]
struct Meeting {
    // How often a hold looks at most.
    looks: u64,
    // Whether a put of each segment was asked for.
    asked_first: AtomicBool,
    asked_second: AtomicBool,
    asked_third: AtomicBool,
    // Whether a put of segment 2 was answered.
    put_third: AtomicBool,
    // Whether a hold looked that often.
    ran_out: AtomicBool,
}

impl Meeting {
    fn new(looks: u64) -> Meeting {
        Meeting {
            looks,
            asked_first: AtomicBool::new(false),
            asked_second: AtomicBool::new(false),
            asked_third: AtomicBool::new(false),
            put_third: AtomicBool::new(false),
            ran_out: AtomicBool::new(false),
        }
    }

    // Holds until the flag is up. Once a hold has run out all pass.
    fn hold(&self, flag: &AtomicBool) {
        for _ in 0..self.looks {
            if flag.load(Ordering::SeqCst) || self.ran_out.load(Ordering::SeqCst) {
                return;
            }
            hint::spin_loop();
        }
        self.ran_out.store(true, Ordering::SeqCst);
    }

    fn ran_out(&self) -> bool {
        self.ran_out.load(Ordering::SeqCst)
    }

    // Whether a put of any segment was asked for.
    fn any_came(&self) -> bool {
        self.asked_first.load(Ordering::SeqCst)
            || self.asked_second.load(Ordering::SeqCst)
            || self.asked_third.load(Ordering::SeqCst)
    }

    // Whether a put of each segment was asked for, and one of segment 2 answered.
    fn all_came(&self) -> bool {
        self.asked_first.load(Ordering::SeqCst)
            && self.asked_second.load(Ordering::SeqCst)
            && self.asked_third.load(Ordering::SeqCst)
            && self.put_third.load(Ordering::SeqCst)
    }
}

impl Gate for Meeting {
    fn before_put(&self, segment: u8) {
        match segment {
            0 => self.asked_first.store(true, Ordering::SeqCst),
            1 => {
                if !self.asked_second.swap(true, Ordering::SeqCst) {
                    self.hold(&self.put_third);
                }
            }
            _ => {
                if !self.asked_third.swap(true, Ordering::SeqCst) {
                    self.hold(&self.asked_second);
                }
            }
        }
    }

    fn after_put(&self, segment: u8) {
        if segment == 2 {
            self.put_third.store(true, Ordering::SeqCst);
        }
    }

    fn before_own(&self, _segment: u8) {
        self.hold(&self.put_third);
    }
}

fn file(rt: &impl Abort, alloc: Global) -> Vec<u8> {
    joined(rt, alloc, &[&START, &SIZE, &RESTARTS, &SCAN, &END])
}

fn container(rt: &impl Abort, alloc: Global) -> Vec<u8> {
    let header = joined(rt, alloc, &[&START, &SIZE, &RESTARTS]);
    container_of(
        rt,
        alloc,
        PADDED_WITH_ONES,
        &SEGMENTS,
        header.as_slice(),
        &END,
    )
}

// Three workers with rings of two bytes give the file.
#[test]
fn workers_decode_at_the_same_time(rt: HostRuntime) {
    let meeting = Meeting::new(MANY_LOOKS);
    assert!(rt; workers_give(&rt, rt.alloc(), &meeting));
    assert!(rt; meeting.all_came());
    assert!(rt; !meeting.ran_out());
}

fn workers_give<R: Threads + Wait + Sync + Abort>(
    rt: &R,
    alloc: Global,
    meeting: &Meeting,
) -> bool {
    let file = file(rt, alloc);
    let container = container(rt, alloc);
    assert!(rt; file.len() == 84);
    comes_back(
        rt,
        alloc,
        container.as_slice(),
        file.as_slice(),
        3,
        2,
        meeting,
    )
}

// And through the top call, which starts a worker for each 8,192 blocks: 24,576 in three segments.
#[test]
fn workers_of_a_command_decode_at_the_same_time(rt: HostRuntime) {
    let meeting = Meeting::new(MANY_LOOKS);
    assert!(rt; command_gives(&rt, rt.alloc(), "3", &meeting));
    assert!(rt; meeting.all_came());
    assert!(rt; !meeting.ran_out());
}

fn command_gives<R: Threads + Wait + Sync + Abort>(
    rt: &R,
    alloc: Global,
    workers: &str,
    meeting: &Meeting,
) -> bool {
    let file = large_file(rt, alloc);
    let encoded = run_over(
        rt,
        alloc,
        &["encode", "--segments", "3"],
        file.as_slice(),
        NONE,
    );
    let words = ["decode", "--workers", workers];
    run_past(rt, alloc, &words, encoded.written.as_slice(), NONE, meeting).is_done(file.as_slice())
}

// 128 by 192 blocks of zeros.
fn large_file(rt: &impl Abort, alloc: Global) -> Vec<u8> {
    let scan = from_elem(alloc, 0, 128 * 192 / 4).ok().expect(rt, "memory");
    joined(rt, alloc, &[&START, &LARGE, &LEVEL, scan.as_slice(), &END])
}

// A small container has no worker through the top call.
#[test]
fn command_starts_no_thread_for_three_blocks(rt: HostRuntime) {
    let meeting = Meeting::new(FEW_LOOKS);
    assert!(rt; small_one_comes_back(&rt, rt.alloc(), &meeting));
    assert!(rt; !meeting.any_came());
}

fn small_one_comes_back<R: Threads + Wait + Sync + Abort>(
    rt: &R,
    alloc: Global,
    meeting: &Meeting,
) -> bool {
    let file = file(rt, alloc);
    let container = container(rt, alloc);
    let words = ["decode", "--workers", "16"];
    run_past(rt, alloc, &words, container.as_slice(), NONE, meeting).is_done(file.as_slice())
}

// A sample of three segments is decoded by workers, two of them at the same time.
#[test]
fn workers_decode_a_sample(rt: HostRuntime) {
    let meeting = Meeting::new(MANY_LOOKS);
    assert!(rt; shows_a_sample(&rt, rt.alloc(), &meeting));
    assert!(rt; meeting.all_came());
    assert!(rt; !meeting.ran_out());
}

fn shows_a_sample<R: Threads + Wait + Sync + Abort>(
    rt: &R,
    alloc: Global,
    meeting: &Meeting,
) -> bool {
    let words = ["sample", "--seed", "2", "--columns", "4", "--rows", "3"];
    run_past(rt, alloc, &words, &[], NONE, meeting).status == 0
}

// Without a second worker a hold runs out, and all pass.
#[test]
fn one_thread_runs_out(rt: HostRuntime) {
    assert!(rt; runs_out(&rt, rt.alloc(), "0"));
    assert!(rt; runs_out(&rt, rt.alloc(), "1"));
}

fn runs_out<R: Threads + Wait + Sync + Abort>(rt: &R, alloc: Global, workers: &str) -> bool {
    let meeting = Meeting::new(FEW_LOOKS);
    command_gives(rt, alloc, workers, &meeting) && meeting.ran_out()
}
