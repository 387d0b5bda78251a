// What holds of every input, and of every run without a fault.
ghost use Rattle.store_run.specs.RecordLaws.{OneReading, RunsAsRead};

use blob_store::Keeper;
use outside_core::{Sink, Source};

/// An input is whole records, and what the reading ends with after them, in one way.
pub fn an_input_has_one_reading()
    ensures { OneReading }
{}

/// If the source's bytes are known, and no count of source, sink and keeper rose, a run of `run_store` ends as its
/// input says, with the replies to all whole records, or out of memory.
pub fn a_run_ends_as_its_input_says<S: Source, K: Sink, P: Keeper>()
    ensures { RunsAsRead S.left K.held S.faults S.full K.faults K.full P.fault_count }
{}
