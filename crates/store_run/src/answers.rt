// What is answered to a call, and written of it.
ghost use Rattle.std.specs.Prelude.{◌≡◌, ◌<◌, ◌≤◌, ◌++◌, length, IfErr, OnOk};
ghost use Rattle.container_spec.specs.Limits.{most_of_a_file};
ghost use Rattle.photo_store.specs.FileStores.{PutFile, FindFile, RemoveFile};
ghost use Rattle.outside_core.specs.Takes.{TakesNext};
ghost use Rattle.outside_core.specs.Written.{HasWritten, HasFailed};
ghost use Rattle.store_run.specs.Answering.{HasAnswered, IsShort, answer_bytes, put_answer, remove_answer};
ghost use Rattle.store_run.specs.Reading.{call_of};
ghost use Rattle.store_run.specs.Records.{FitsRecord};

use crate::calls::Asked;
use blob_store::{Keeper, Key, Stop};
use outside_core::{Sink, WriteFault, write_all};
use photo_store::{Caller, Find, Put, Remove, Store, key_of, show};
use std::alloc::Global;
use std::sync::Wait;
use std::thread::Threads;

// The first byte of a reply.
const STORED: u8 = 1;

const HELD: u8 = 2;

const CLASH: u8 = 3;

const FOUND: u8 = 4;

const NOT_FOUND: u8 = 5;

const REMOVED: u8 = 6;

const NOT_REMOVED: u8 = 7;

/// An answer.
#[derive(Drop)]
pub(crate) enum Answer {
    /// A mark and a key.
    Keyed(u8, Key),
    /// A file that was found.
    File(Vec<u8>),
    /// A mark alone.
    Mark(u8),
}

/// Makes the call that a record asks for. A clash is an answer; the other stops are none.
pub(crate) fn answer_call<R: Threads + Wait + Sync, P: Keeper>(
    rt: &R,
    alloc: Global,
    store: &Store<P>,
    caller: &mut Caller<P>,
    asked: &Asked,
) -> Result<Answer, Stop>
    requires own { caller.old.table ≡ store.now }
    requires whole { FitsRecord (call_of asked.now) }
    ensures { HasAnswered caller.old caller.new (call_of asked.now) result }
{
    match asked {
        Asked::Put(file) => answer_put(rt, alloc, store, caller, file.as_slice()),
        Asked::Find(key) => answer_find(rt, alloc, store, caller, *key),
        Asked::Remove(key) => answer_remove(rt, store, caller, *key),
    }
}

fn answer_put<R: Threads + Wait + Sync, P: Keeper>(
    rt: &R,
    alloc: Global,
    store: &Store<P>,
    caller: &mut Caller<P>,
    file: &[u8],
) -> Result<Answer, Stop>
    requires own { caller.old.table ≡ store.now }
    requires short { length file.now ≤ most_of_a_file }
    ensures { HasAnswered caller.old caller.new (PutFile file.now) result }
{
    let put = store.put(rt, alloc, caller, file);
    put_answer(put, file)
}

fn put_answer(put: Result<Put, Stop>, file: &[u8]) -> Result<Answer, Stop>
    ensures { result ≡ put_answer file.now put }
{
    match put {
        Ok(Put::Stored(key, _)) => Ok(Answer::Keyed(STORED, key)),
        Ok(Put::Held(key, _)) => Ok(Answer::Keyed(HELD, key)),
        Err(Stop::Clash) => Ok(Answer::Keyed(CLASH, key_of(file))),
        Err(Stop::Full) => Err(Stop::Full),
        Err(Stop::KeeperFault) => Err(Stop::KeeperFault),
        Err(Stop::NoMemory(short)) => Err(Stop::NoMemory(short)),
    }
}

fn answer_find<R: Wait, P: Keeper>(
    rt: &R,
    alloc: Global,
    store: &Store<P>,
    caller: &mut Caller<P>,
    key: Key,
) -> Result<Answer, Stop>
    requires own { caller.old.table ≡ store.now }
    ensures { HasAnswered caller.old caller.new (FindFile key) result }
{
    match store.find(rt, caller, key) {
        Ok(Find::Found(ticket, _)) => match show(alloc, ticket) {
            Ok(file) => Ok(Answer::File(file)),
            Err((_, short)) => Err(Stop::NoMemory(short)),
        },
        Ok(Find::Missing(_)) => Ok(Answer::Mark(NOT_FOUND)),
        Err(stop) => Err(stop),
    }
}

fn answer_remove<R: Wait, P: Keeper>(
    rt: &R,
    store: &Store<P>,
    caller: &mut Caller<P>,
    key: Key,
) -> Result<Answer, Stop>
    requires own { caller.old.table ≡ store.now }
    ensures { HasAnswered caller.old caller.new (RemoveFile key) result }
{
    let removal = store.remove(rt, caller, key);
    remove_answer(removal)
}

fn remove_answer(removal: Result<Remove, Stop>) -> Result<Answer, Stop>
    ensures { result ≡ remove_answer removal }
{
    match removal {
        Ok(Remove::Removed(_)) => Ok(Answer::Mark(REMOVED)),
        Ok(Remove::Missing(_)) => Ok(Answer::Mark(NOT_REMOVED)),
        Err(stop) => Err(stop),
    }
}

/// Writes the bytes of an answer.
pub(crate) fn write_answer<K: Sink>(sink: &mut K, answer: &Answer) -> Result<(), WriteFault>
    requires short { IsShort answer.now }
    requires takes { TakesNext K.takes sink.old (answer_bytes answer.now) }
    ensures written { OnOk result
        (HasWritten K.held K.takes K.faults sink.old sink.new (answer_bytes answer.now)) }
    ensures failed { IfErr result (λ fault. HasFailed K.held K.faults K.full
        sink.old sink.new (answer_bytes answer.now) fault.written) }
    ensures lasting { K.faults sink.old ≤ K.faults sink.new }
{
    match answer {
        Answer::Keyed(mark, key) => write_both(sink, &[*mark], key),
        Answer::File(file) => {
            let [a, b, c, d] = (file.len() as u32).to_be_bytes();
            write_both(sink, &[FOUND, a, b, c, d], file.as_slice())
        }
        Answer::Mark(mark) => write_both(sink, &[*mark], &[]),
    }
}

// Bytes, and then others.
fn write_both<K: Sink>(sink: &mut K, first: &[u8], second: &[u8]) -> Result<(), WriteFault>
    requires takes { TakesNext K.takes sink.old (first.now ++ second.now) }
    ensures written { OnOk result
        (HasWritten K.held K.takes K.faults sink.old sink.new (first.now ++ second.now)) }
    ensures failed { IfErr result (λ fault. HasFailed K.held K.faults K.full
        sink.old sink.new (first.now ++ second.now) fault.written) }
    ensures lasting { K.faults sink.old ≤ K.faults sink.new }
{
    write_all(sink, first)?;
    match write_all(sink, second) {
        Ok(()) => Ok(()),
        Err(fault) => Err(WriteFault {
            written: first.len() as u64 + fault.written,
        }),
    }
}
