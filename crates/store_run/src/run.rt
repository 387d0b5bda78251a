// The records of a source, each answered before the next one is read.
ghost use Rattle.std.specs.Prelude.{◌≡◌, ◌≤◌, [], IfSome, IfNone};
ghost use Rattle.outside_core.specs.Takes.{MovesOn, TakesAll, TakesNext};
ghost use Rattle.blob_store.specs.Journals.{AreBy};
ghost use Rattle.blob_store.specs.States.{HasRisen};
ghost use Rattle.photo_store.specs.FileEntries.{AreSame};
ghost use Rattle.photo_store.specs.FileStores.{Files, no_files};
ghost use Rattle.store_run.specs.Answering.{IsLater, IsSameCaller};
ghost use Rattle.store_run.specs.Kept.{HasKept, HaveFiles};
ghost use Rattle.store_run.specs.Reading.{call_of};
ghost use Rattle.store_run.specs.Records.{FitsRecord, files_by, most_records};
ghost use Rattle.store_run.specs.RunEnds.{RunEnds, KeeperRose, Notes, line_of, status_of};
ghost use Rattle.store_run.specs.TakesReplies.{TakesReplies};
ghost use Rattle.store_run.specs.Turns.{CallTurns, Turns, ending_by, reply_in};

use crate::answers::{answer_call, write_answer};
use crate::calls::{Asked, RecordStop, next_call};
use crate::ending::Ending;
use crate::reading::next_byte;
use blob_store::{Keeper, Stop};
use outside_core::{Failed, Sink, Source, write_all};
use photo_store::{Caller, Store};
use std::alloc::Global;
use std::sync::Wait;
use std::thread::Threads;

/// How many records are answered at most.
pub const MOST_RECORDS: u32 = 1_000_000;

/// Answers the records of a source by a store over a keeper that holds no blob, each before it reads the next one. It
/// returns how the run ended, and the keeper, unless memory was out at the start. `note` is stderr: it gets nothing, or
/// one line.
///
/// | status | if | line |
/// |---|---|---|
/// | 0 | the source ended where a record begins | none |
/// | 1 | a record has another first byte, or a length above 67,108,864, or is cut | `store: bad record` |
/// | 3 | the source failed | `lepton: read failed` |
/// | 4 | the sink failed | `lepton: write failed` |
/// | 5 | out of memory | `lepton: no memory` |
/// | 6 | the keeper failed | `store: keeper failed` |
/// | 7 | 1,000,000 records were answered, and a further byte was read | `store: full` |
///
/// A failure of `note` changes no status.
pub fn run_store<R: Threads + Wait + Sync, S: Source, K: Sink, N: Sink, P: Keeper>(
    rt: &R,
    alloc: Global,
    keeper: P,
    source: &mut S,
    sink: &mut K,
    note: &mut N,
) -> (Ending, Option<P>)
    requires empty { P.blobs keeper ≡ [] }
    requires readable { S.readable source.old }

    // The sink need take nothing but replies to the records that the source may give.
    requires takes { TakesReplies K.takes (S.left source.old) sink.old }
    requires notes { TakesAll N.takes note.old }

    // How it ends: what was read, and which replies were written.
    ensures ends { RunEnds S.left K.held S.faults S.full K.faults K.full source.old source.new
        sink.old sink.new (KeeperRose P.fault_count keeper result.1) result.0 }

    // However it ends, the keeper that is given back has the blob of each file that the answered records leave in the
    // store.
    ensures kept_files { IfSome result.1 (λ last. HasKept S.left K.held source.old source.new
        sink.old sink.new (HaveFiles (P.blobs last)) result.0) }

    // The ending's line, or a prefix of it if `note` failed.
    ensures notes { Notes N.held N.faults N.full note.old note.new (line_of result.0) }

    // The keeper is given back, unless memory was out before anything was read.
    ensures kept { IfNone result.1 ((status_of result.0 ≡ 5)
        × (source.new ≡ source.old) × (sink.new ≡ sink.old)) }
    ensures keeper_lasting { IfSome result.1 (λ last. P.fault_count keeper ≤ P.fault_count last) }
    ensures source_lasting { S.faults source.old ≤ S.faults source.new }
    ensures sink_lasting { K.faults sink.old ≤ K.faults sink.new }
    ensures note_lasting { N.faults note.old ≤ N.faults note.new }
{
    let (store, mut callers) = match Store::start(alloc, keeper, 1, MOST_RECORDS) {
        Ok(made) => made,
        Err(short) => {
            let ending = Ending::NoMemory(short);
            tell(note, ending);
            return (ending, None);
        }
    };
    let Some(mut caller) = callers.pop() else {
        unreachable!()
    };
    let ending = serve(rt, alloc, &store, &mut caller, source, sink);
    tell(note, ending);
    (ending, Some(store.close(caller)))
}

// Writes the line of an ending.
fn tell<N: Sink>(note: &mut N, ending: Ending)
    requires { TakesAll N.takes note.old }
    ensures notes { Notes N.held N.faults N.full note.old note.new (line_of ending) }
    ensures lasting { N.faults note.old ≤ N.faults note.new }
{
    // A note that fails changes no status: the status says what the line says.
    let _ = write_all(note, ending.line());
}

// Answers record after record.
fn serve<R: Threads + Wait + Sync, S: Source, K: Sink, P: Keeper>(
    rt: &R,
    alloc: Global,
    store: &Store<P>,
    caller: &mut Caller<P>,
    source: &mut S,
    sink: &mut K,
) -> Ending
    requires own { caller.old.table ≡ store.now }
    requires first { caller.old.number ≡ 0 }
    requires fresh { caller.old.view.mine ≡ [] }
    requires limit { caller.old.view.limit ≡ most_records }
    requires readable { S.readable source.old }
    requires takes { TakesReplies K.takes (S.left source.old) sink.old }
    ensures ends { AreBy 0 caller.new.view.seen
        → RunEnds S.left K.held S.faults S.full K.faults K.full
        source.old source.new sink.old sink.new
        (HasRisen caller.old.view.faults caller.new.view.faults) result }
    ensures kept { AreBy 0 caller.new.view.seen
        → HasKept S.left K.held source.old source.new sink.old sink.new
        (λ records. AreSame caller.new.view.blobs caller.new.view.mine (files_by no_files records))
        result }
    ensures same { IsSameCaller caller.old caller.new }
    ensures source_lasting { S.faults source.old ≤ S.faults source.new }
    ensures sink_lasting { K.faults sink.old ≤ K.faults sink.new }
{
    for _ in 0..MOST_RECORDS {
        if let Some(ending) = answer_next(rt, alloc, store, caller, source, sink) {
            return ending;
        }
    }
    match next_byte(source) {
        Ok(None) => Ending::Answered,
        Ok(Some(_)) => Ending::Full,
        Err(Failed) => Ending::ReadFailed,
    }
}

// Answers the next record. It returns how the run ends, if it ends there.
fn answer_next<R: Threads + Wait + Sync, S: Source, K: Sink, P: Keeper>(
    rt: &R,
    alloc: Global,
    store: &Store<P>,
    caller: &mut Caller<P>,
    source: &mut S,
    sink: &mut K,
) -> Option<Ending>
    requires own { caller.old.table ≡ store.now }
    requires readable { S.readable source.old }
    requires takes { TakesReplies K.takes (S.left source.old) sink.old }
    ensures turns { Turns S.left K.held S.faults S.full K.faults K.full
        source.old source.new sink.old sink.new caller.old caller.new result }
    ensures later { IsLater caller.old caller.new }
    ensures readable { IfNone result (S.readable source.new) }
    ensures takes { IfNone result (TakesReplies K.takes (S.left source.new) sink.new) }
    ensures source_lasting { S.faults source.old ≤ S.faults source.new }
    ensures sink_lasting { K.faults sink.old ≤ K.faults sink.new }
{
    match next_call(alloc, source) {
        Ok(Some(asked)) => answer_asked(rt, alloc, store, caller, &asked, sink),
        Ok(None) => Some(Ending::Answered),
        Err(stop) => Some(ending_by(stop)),
    }
}

// The ending if no record can be read.
fn ending_by(stop: RecordStop) -> Ending
    ensures { result ≡ ending_by stop }
{
    match stop {
        RecordStop::Bad => Ending::BadRecord,
        RecordStop::ReadFault => Ending::ReadFailed,
        RecordStop::NoMemory(short) => Ending::NoMemory(short),
    }
}

// Makes a call and writes its reply.
fn answer_asked<R: Threads + Wait + Sync, K: Sink, P: Keeper>(
    rt: &R,
    alloc: Global,
    store: &Store<P>,
    caller: &mut Caller<P>,
    asked: &Asked,
    sink: &mut K,
) -> Option<Ending>
    requires own { caller.old.table ≡ store.now }
    requires whole { FitsRecord (call_of asked.now) }
    requires takes { (files : Files)
        → TakesNext K.takes sink.old (reply_in files (call_of asked.now)) }
    ensures turns { CallTurns K.held K.faults K.full
        sink.old sink.new caller.old caller.new (call_of asked.now) result }
    ensures later { IsLater caller.old caller.new }
    ensures onward { IfNone result ((files : Files)
        × MovesOn K.takes sink.old sink.new (reply_in files (call_of asked.now))) }
    ensures lasting { K.faults sink.old ≤ K.faults sink.new }
{
    match answer_call(rt, alloc, store, caller, asked) {
        Ok(answer) => match write_answer(sink, &answer) {
            Ok(()) => None,
            Err(_) => Some(Ending::WriteFailed),
        },
        Err(Stop::Full) => Some(Ending::Full),
        Err(Stop::Clash) => unreachable!(),
        Err(Stop::KeeperFault) => Some(Ending::KeeperFailed),
        Err(Stop::NoMemory(short)) => Some(Ending::NoMemory(short)),
    }
}
