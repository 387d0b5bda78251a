//! What `bench/scan` and `bench/chunks` measure, of a JPEG file on standard input.
//!
//! `file_bench read TIMES` reads its scan TIMES times, and `file_bench both TIMES` also writes each MCU again: what it
//! writes must be the scan. Both print the bytes of the scan and its MCUs.
//!
//! `file_bench chunks SIZE SEGMENTS` reads its scan once, and cuts each of its chunks of SIZE bytes into a container of
//! its own, in at most SEGMENTS segments. It prints how many chunks there are and how many bytes their containers have.
//!
//! It exits with 1 if the file is refused or isn't written again, or there are no such chunks, and with 2 if the arguments
//! are others.
#![tactic(auto)]

mod chunks;
mod pass;
mod words;

use chunks::cut_all;
use huff_table::PlanCodes;
use jpeg_marker::read_header;
use pass::{Passed, both, read};
use std::alloc::Global;
use std::env;
use std::io::Read;
use std::process::ExitCode;
use words::{Measure, measure_of};

// Passes over the scan of a file, as many as are wanted. Answers what the last one came to, if there was one.
fn passes(alloc: Global, bytes: &[u8], writes: bool, times: u32) -> Option<Passed> {
    let plan = read_header(bytes).ok()?;
    let codes = PlanCodes::build(alloc, &plan).ok()?;
    let first = read(alloc, &plan, &codes, bytes)?;
    let mut last = None;
    for _ in 0..times {
        last = if writes {
            both(alloc, &plan, &codes, bytes, first.pad)
        } else {
            read(alloc, &plan, &codes, bytes)
        };
    }
    last
}

fn main(rt: HostRuntime) -> ExitCode {
    let alloc = rt.alloc();
    let words = match env::args(&rt) {
        Ok(args) => args.collect(alloc).unwrap_or(Vec::new(alloc)),
        Err(_) => Vec::new(alloc),
    };
    let Some(measure) = measure_of(words.as_slice()) else {
        return ExitCode::from(2);
    };
    let mut bytes = Vec::new(alloc);
    if rt.stdin().read_to_end(&mut bytes).is_err() {
        return ExitCode::from(1);
    }
    let bytes = bytes.as_slice();
    let printed = match measure {
        Measure::Scan { writes, times } => match passes(alloc, bytes, writes, times) {
            Some(passed) => println!(rt;
                "scan {} bytes {} MCUs",
                passed.bytes, passed.mcus
            ).is_ok(),
            None => false,
        },
        Measure::Chunks { size, segments } => match cut_all(&rt, alloc, bytes, size, segments) {
            Some((chunks, made)) => println!(rt; "chunks {} containers {}", chunks, made).is_ok(),
            None => false,
        },
    };
    if printed {
        ExitCode::from(0)
    } else {
        ExitCode::from(1)
    }
}
