//! `store_bench PUTS FINDS THREADS < FILE`, for `bench/store`: each of THREADS callers of a store in memory, in a
//! thread of its own, puts PUTS files, and finds the first of them FINDS times. Each file is that of stdin with bytes
//! of its own after it. Prints how many calls stored or found one. Ends with 2 if the arguments aren't three such
//! numbers.
#![tactic(auto)]

ghost use Rattle.std.specs.Prelude.{◌≡◌, ◌+◌, ◌<◌, ◌≤◌, All, IfOk, length};
ghost use Rattle.container_spec.specs.Limits.{most_of_a_file};

use allocation::{NoMemory, extend_from_slice, push};
use blob_store::{Key, VecKeeper};
use outside_core::read_all;
use photo_store::{Caller, Find, Put, Store, key_of};
use standard_streams::ReaderSource;
use std::alloc::Global;
use std::process::ExitCode;
use std::sync::Wait;
use std::thread::Threads;
use std::{env, thread};

// The longest file, less what is put after it.
const MOST_BYTES: usize = 67_108_852;

// The most calls that a journal has room for here.
const MOST_CALLS: u64 = 10_000_000;

// What each thread does.
#[derive(Clone, Copy)]
struct Work<'a> {
    file: &'a [u8],
    puts: u32,
    finds: u32,
}

// A thread's caller, and how many of its calls stored or found a file.
#[derive(Drop)]
struct Task {
    caller: Caller<VecKeeper>,
    done: u64,
}

// A file that no other call puts.
fn own_file(alloc: Global, file: &[u8], thread: usize, number: u32) -> Result<Vec<u8>, NoMemory>
    requires { length file.now + 12 ≤ most_of_a_file }
    ensures { IfOk result (λ own. length own.items ≤ most_of_a_file) }
{
    let mut own = Vec::new(alloc);
    extend_from_slice(&mut own, file)?;
    extend_from_slice(&mut own, &(thread as u64).to_be_bytes())?;
    extend_from_slice(&mut own, &number.to_be_bytes())?;
    Ok(own)
}

// Whether a put stores a file.
fn stores<R: Threads + Wait + Sync>(
    rt: &R,
    alloc: Global,
    store: &Store<VecKeeper>,
    caller: &mut Caller<VecKeeper>,
    file: &[u8],
) -> bool
    requires own { caller.old.table ≡ store.now }
    requires short { length file.now ≤ most_of_a_file }
    ensures { caller.new.table ≡ store.now }
{
    match store.put(rt, alloc, caller, file) {
        Ok(Put::Stored(_, _)) => true,
        _ => false,
    }
}

// Whether a key has a file.
fn finds<R: Wait>(
    rt: &R,
    store: &Store<VecKeeper>,
    caller: &mut Caller<VecKeeper>,
    key: Key,
) -> bool
    requires { caller.old.table ≡ store.now }
    ensures { caller.new.table ≡ store.now }
{
    match store.find(rt, caller, key) {
        Ok(Find::Found(_, _)) => true,
        _ => false,
    }
}

fn put_all<R: Threads + Wait + Sync>(
    rt: &R,
    alloc: Global,
    store: &Store<VecKeeper>,
    task: &mut Task,
    thread: usize,
    work: Work,
)
    requires own { task.old.caller.table ≡ store.now }
    requires short { length work.file.now + 12 ≤ most_of_a_file }
    ensures { task.new.caller.table ≡ store.now }
{
    for number in 0..work.puts {
        if let Ok(own) = own_file(alloc, work.file, thread, number) {
            let stored = stores(rt, alloc, store, &mut task.caller, &own);
            task.done = task.done.saturating_add(u64::from(stored));
        }
    }
}

fn find_all<R: Wait>(rt: &R, store: &Store<VecKeeper>, task: &mut Task, key: Key, times: u32)
    requires { task.old.caller.table ≡ store.now }
    ensures { task.new.caller.table ≡ store.now }
{
    for _ in 0..times {
        let found = finds(rt, store, &mut task.caller, key);
        task.done = task.done.saturating_add(u64::from(found));
    }
}

// The calls of one thread.
fn perform<R: Threads + Wait + Sync>(
    rt: &R,
    alloc: Global,
    store: &Store<VecKeeper>,
    task: &mut Task,
    thread: usize,
    work: Work,
)
    requires own { task.old.caller.table ≡ store.now }
    requires short { length work.file.now + 12 ≤ most_of_a_file }
{
    put_all(rt, alloc, store, task, thread, work);
    if let Ok(first) = own_file(alloc, work.file, thread, 0) {
        find_all(rt, store, task, key_of(&first), work.finds);
    }
}

// A task for each caller.
fn tasks_of(
    alloc: Global,
    store: &Store<VecKeeper>,
    callers: Vec<Caller<VecKeeper>>,
) -> Result<Vec<Task>, NoMemory>
    requires { All (λ caller. caller.table ≡ store.now) callers.items }
    ensures { IfOk result (λ tasks. All (λ task. task.caller.table ≡ store.now) tasks.items) }
{
    let mut tasks = Vec::new(alloc);
    for caller in callers {
        push(&mut tasks, Task { caller, done: 0 })?;
    }
    Ok(tasks)
}

// How many calls stored or found a file.
fn calls_done<R: Threads + Wait + Sync>(
    rt: &R,
    alloc: Global,
    work: Work,
    threads: u32,
) -> Result<u64, NoMemory>
    requires some { 0 < threads }
    requires short { length work.file.now + 12 ≤ most_of_a_file }
{
    let calls = u64::from(threads).saturating_mul(u64::from(work.puts) + u64::from(work.finds));
    let limit = calls.min(MOST_CALLS) as u32;
    let (store, callers) = Store::start(alloc, VecKeeper::new(alloc), threads, limit)?;
    let mut tasks = tasks_of(alloc, &store, callers)?;
    thread::for_each_mut(
        rt,
        tasks.as_mut_slice(),
        threads as usize,
        &|thread: usize, task: &mut Task|
            requires { (task.now.caller.table ≡ store) × (length work.file.now + 12 ≤ most_of_a_file) }
        { perform(rt, alloc, &store, task, thread, work) },
    );
    let mut done: u64 = 0;
    for task in &tasks {
        done = done.saturating_add(task.done);
    }
    Ok(done)
}

// The numbers that the arguments are.
fn numbers(arguments: &[String]) -> Option<(u32, u32, u32)> {
    let [_, puts, finds, threads] = arguments else {
        return None;
    };
    Some((
        puts.parse().ok()?,
        finds.parse().ok()?,
        threads.parse().ok()?,
    ))
}

fn main(rt: HostRuntime) -> ExitCode {
    let alloc = rt.alloc();
    // Arguments that can't be read are none, and so refused.
    let arguments = match env::args(&rt) {
        Ok(args) => args.collect(alloc).unwrap_or(Vec::new(alloc)),
        Err(_) => Vec::new(alloc),
    };
    let Some((puts, finds, threads)) = numbers(arguments.as_slice()) else {
        return ExitCode::from(2);
    };
    if threads == 0 {
        return ExitCode::from(2);
    }
    let mut source = ReaderSource::new(rt.stdin());
    let Ok(file) = read_all(alloc, &mut source, MOST_BYTES as u64) else {
        return ExitCode::from(1);
    };
    let work = Work {
        file: &file,
        puts,
        finds,
    };
    match calls_done(&rt, alloc, work, threads) {
        Ok(calls) => match println!(rt; "{calls}") {
            Ok(()) => ExitCode::from(0),
            Err(_) => ExitCode::from(1),
        },
        Err(_) => ExitCode::from(1),
    }
}
