// A thousand calls by eight callers, each in a thread of its own.
ghost use Rattle.std.specs.Prelude.{◌≡◌, ◌≤◌, length, IfOk};
ghost use Rattle.std.specs.List.{All};
ghost use Rattle.container_spec.specs.Limits.{most_of_a_file};

use allocation::{NoMemory, push};
use blob_store::VecKeeper;
use photo_store::{Caller, Find, Put, Remove, Store, Ticket, key_of, show};
use std::alloc::Global;
use std::process::Abort;
use std::sync::Wait;
use std::thread;
use std::thread::Threads;

// The file that all callers put.
const COMMON: [u8; 3] = [0xff, 0xd8, 0];

// A caller, the numbers that its calls answered, whether each call was answered as it must be, and whether it stored
// the common file.
#[derive(Drop)]
struct Worker {
    caller: Caller<VecKeeper>,
    numbers: Vec<u64>,
    right: bool,
    stored: bool,
}

// Keeps the number of a call, or that the call wasn't answered as it must be.
fn keep(worker: &mut Worker, number: Option<u64>)
    ensures { worker.new.caller ≡ worker.old.caller }
{
    match number {
        Some(number) => {
            if worker.numbers.push(number).is_err() {
                worker.right = false;
            }
        }
        None => {
            worker.right = false;
        }
    }
}

// Puts the common file, which the key may have.
fn put_common<R: Threads + Wait + Sync>(
    rt: &R,
    alloc: Global,
    store: &Store<VecKeeper>,
    worker: &mut Worker,
)
    requires { worker.old.caller.table ≡ store.now }
    ensures { worker.new.caller.table ≡ store.now }
{
    match store.put(rt, alloc, &mut worker.caller, &COMMON) {
        Ok(Put::Stored(_, number)) => {
            worker.stored = true;
            keep(worker, Some(number));
        }
        Ok(Put::Held(_, number)) => keep(worker, Some(number)),
        Err(_) => keep(worker, None),
    }
}

// Puts the caller's own file, which the key hasn't.
fn put_own<R: Threads + Wait + Sync>(
    rt: &R,
    alloc: Global,
    store: &Store<VecKeeper>,
    worker: &mut Worker,
    file: &[u8],
)
    requires own { worker.old.caller.table ≡ store.now }
    requires short { length file.now ≤ most_of_a_file }
    ensures { worker.new.caller.table ≡ store.now }
{
    let number = match store.put(rt, alloc, &mut worker.caller, file) {
        Ok(Put::Stored(_, number)) => Some(number),
        _ => None,
    };
    keep(worker, number);
}

// Whether a ticket shows this file.
fn shows(alloc: Global, ticket: Ticket, file: &[u8]) -> bool {
    match show(alloc, ticket) {
        Ok(found) => found.as_slice() == file,
        Err(_) => false,
    }
}

// Finds it.
fn find_own<R: Wait>(
    rt: &R,
    alloc: Global,
    store: &Store<VecKeeper>,
    worker: &mut Worker,
    file: &[u8],
)
    requires { worker.old.caller.table ≡ store.now }
    ensures { worker.new.caller.table ≡ store.now }
{
    let number = match store.find(rt, &mut worker.caller, key_of(file)) {
        Ok(Find::Found(ticket, number)) => {
            if shows(alloc, ticket, file) {
                Some(number)
            } else {
                None
            }
        }
        Ok(Find::Missing(_)) => None,
        Err(_) => None,
    };
    keep(worker, number);
}

// Removes it, or finds that it is removed.
fn remove_own<R: Wait>(
    rt: &R,
    store: &Store<VecKeeper>,
    worker: &mut Worker,
    file: &[u8],
    there: bool,
)
    requires { worker.old.caller.table ≡ store.now }
    ensures { worker.new.caller.table ≡ store.now }
{
    let number = match store.remove(rt, &mut worker.caller, key_of(file)) {
        Ok(Remove::Removed(number)) if there => Some(number),
        Ok(Remove::Missing(number)) if !there => Some(number),
        _ => None,
    };
    keep(worker, number);
}

// Stored, found, removed and missing.
fn four_calls<R: Threads + Wait + Sync>(
    rt: &R,
    alloc: Global,
    store: &Store<VecKeeper>,
    worker: &mut Worker,
    file: &[u8],
)
    requires own { worker.old.caller.table ≡ store.now }
    requires short { length file.now ≤ most_of_a_file }
    ensures { worker.new.caller.table ≡ store.now }
{
    put_own(rt, alloc, store, worker, file);
    find_own(rt, alloc, store, worker, file);
    remove_own(rt, store, worker, file, true);
    remove_own(rt, store, worker, file, false);
}

// 125 calls: one for the common file, and 31 times four for the caller's own, which is its number.
fn work<R: Threads + Wait + Sync>(
    rt: &R,
    alloc: Global,
    store: &Store<VecKeeper>,
    number: usize,
    worker: &mut Worker,
)
    requires { worker.old.caller.table ≡ store.now }
    ensures { worker.new.caller.table ≡ store.now }
{
    put_common(rt, alloc, store, worker);
    let file = number.to_be_bytes();
    for _ in 0..31 {
        four_calls(rt, alloc, store, worker, &file);
    }
}

// The worker of a caller.
fn worker_of(alloc: Global, caller: Caller<VecKeeper>) -> Worker
    ensures { result.caller ≡ caller }
{
    Worker {
        caller,
        numbers: Vec::new(alloc),
        right: true,
        stored: false,
    }
}

// The workers of callers.
fn workers_of(
    alloc: Global,
    store: &Store<VecKeeper>,
    callers: Vec<Caller<VecKeeper>>,
) -> Result<Vec<Worker>, NoMemory>
    requires { All (λ caller. caller.table ≡ store.now) callers.items }
    ensures { IfOk result (λ workers. All (λ worker. worker.caller.table ≡ store.now) workers.items) }
{
    let mut workers = Vec::new(alloc);
    for caller in callers {
        let worker = worker_of(alloc, caller);
        push(&mut workers, worker)?;
    }
    Ok(workers)
}

// A store and its eight callers.
fn eight_callers(alloc: Global) -> Result<(Store<VecKeeper>, Vec<Caller<VecKeeper>>), NoMemory>
    ensures { IfOk result (λ made. All (λ caller. caller.table ≡ made.0) made.1.items) }
{
    Store::<VecKeeper>::start(alloc, VecKeeper::new(alloc), 8, 1000)
}

// Marks these numbers, each of which must be from 1 to 1,000 and not marked yet.
fn mark_all(marks: &mut [bool; 1000], numbers: &[u64]) -> bool {
    let mut right = true;
    for number in numbers {
        let place = (*number).wrapping_sub(1);
        if place < 1000 && !marks[place as usize] {
            marks[place as usize] = true;
        } else {
            right = false;
        }
    }
    right
}

// Whether all calls were answered as they must be, their numbers are those from 1 to 1,000, each once, and one worker
// stored the common file.
fn are_right(workers: &[Worker]) -> bool {
    let mut marks = [false; 1000];
    let mut right = true;
    let mut stored = 0u32;
    for worker in workers {
        if !worker.right || worker.numbers.len() != 125 {
            right = false;
        }
        if !mark_all(&mut marks, worker.numbers.as_slice()) {
            right = false;
        }
        if worker.stored {
            stored = stored.saturating_add(1);
        }
    }
    right && stored == 1 && workers.len() == 8
}

// A thousand calls by eight workers.
fn calls_are_right<R: Threads + Wait + Sync + Abort>(rt: &R, alloc: Global) -> bool {
    let (store, callers) = eight_callers(alloc).expect(rt, "memory");
    let mut workers = workers_of(alloc, &store, callers).expect(rt, "memory");
    let each = |number: usize, worker: &mut Worker|
        requires { worker.now.caller.table ≡ store }
    { work(rt, alloc, &store, number, worker) };
    thread::for_each_mut(rt, workers.as_mut_slice(), 8, &each);
    are_right(workers.as_slice())
}

#[test]
fn a_thousand_calls_by_eight(rt: HostRuntime) {
    assert!(rt; calls_are_right(&rt, rt.alloc()));
}
