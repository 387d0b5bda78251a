//! `lepton_store`: a store of photos in memory that answers the records of stdin (docs/STORE.md, Records). The program
//! opens its three standard streams and calls `store_run::run_store`, which does everything else. It reads no
//! arguments.
#![tactic(auto)]

use blob_store::VecKeeper;
use standard_streams::{ReaderSource, WriterSink};
use std::process::ExitCode;
use store_run::run_store;

fn main(rt: HostRuntime) -> ExitCode {
    let alloc = rt.alloc();
    let mut source = ReaderSource::new(rt.stdin());
    let mut sink = WriterSink::new(rt.stdout());
    let mut note = WriterSink::new(rt.stderr());
    let (ending, _) = run_store(
        &rt,
        alloc,
        VecKeeper::new(alloc),
        &mut source,
        &mut sink,
        &mut note,
    );
    ExitCode::from(ending.status())
}
