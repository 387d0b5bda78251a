//! `lepton`: a lossless recoder for baseline JPEG files. The program opens its three standard streams and calls
//! `lepton_run::run`, which does everything else.
#![tactic(auto)]

use lepton_run::{no_memory_for_words, run};
use outside_core::OpenGate;
use standard_streams::{ReaderSource, WriterSink, given_arguments};
use std::process::ExitCode;

fn main(rt: HostRuntime) -> ExitCode {
    let alloc = rt.alloc();
    let mut note = WriterSink::new(rt.stderr());
    let words = match given_arguments(&rt, alloc) {
        Ok(words) => words,
        Err(short) => return ExitCode::from(no_memory_for_words(&mut note, short).status()),
    };
    let mut source = ReaderSource::new(rt.stdin());
    let mut sink = WriterSink::new(rt.stdout());
    let ending = run(
        &rt,
        alloc,
        words.as_slice(),
        &mut source,
        &mut sink,
        &mut note,
        &OpenGate,
    );
    ExitCode::from(ending.status())
}
