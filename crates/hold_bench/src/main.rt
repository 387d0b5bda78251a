//! `hold_bench HOLDS THREADS`, for `bench/holds`: threads that hold a lock HOLDS times in all, where THREADS divides
//! it, and add 1 each time. Prints what a last hold finds. Ends with 2 where the words aren't two such numbers.
#![tactic(auto)]

ghost use Rattle.std.specs.Prelude.{◌<◌, All, IfOk};
ghost use Rattle.seat_lock.specs.Passes.{IsFirst, IsFor, IsReady};

use seat_lock::{Lock, Pass, Rule};
use std::alloc::{AllocError, Global};
use std::process::ExitCode;
use std::sync::Wait;
use std::thread::Threads;
use std::{env, thread};

// A rule by which each number fits.
struct AnyNumber;

impl Rule for AnyNumber {
    type View = u64;

    type Value = u64;

    type Entry = u64;

    ghost fits = { λ _ _. Unit {0} };

    ghost may_split = { λ _. Unit {0} };

    ghost left = { λ v. v };

    ghost right = { λ v. v };

    ghost after = { λ v _ _ _ _. v };

    ghost tells = { λ _ _ _ _ _ _. Unit {0} };

    ghost splits = { λ _ _ _ _ _ _ _. tt };
}

// Holds the lock once, adds an amount, and answers what was found.
fn add<R: Wait>(rt: &R, lock: &Lock<AnyNumber>, pass: &mut Pass<AnyNumber>, amount: u64) -> u64
    requires own { IsFor lock.now pass.old }
    requires ready { IsReady pass.old }
    ensures own { IsFor lock.now pass.new }
    ensures ready { IsReady pass.new }
{
    let mut held = lock.hold(rt, pass);
    let found = *held.value();
    *held.value() = found.wrapping_add(amount);
    held.release(lock, 0, 0, 0);
    found
}

// Adds 1, and again.
fn add_ones<R: Wait>(rt: &R, lock: &Lock<AnyNumber>, pass: &mut Pass<AnyNumber>, times: u64)
    requires own { IsFor lock.now pass.old }
    requires ready { IsReady pass.old }
    ensures own { IsFor lock.now pass.new }
    ensures ready { IsReady pass.new }
{
    for _ in 0..times {
        add(rt, lock, pass, 1);
    }
}

// Passes that are split off from the first one.
fn split_off(
    alloc: Global,
    lock: &Lock<AnyNumber>,
    first: &mut Pass<AnyNumber>,
    count: u32,
) -> Result<Vec<Pass<AnyNumber>>, AllocError>
    requires own { IsFor lock.now first.old }
    requires ready { IsReady first.old }
    requires first { IsFirst first.old }
    ensures own { IsFor lock.now first.new }
    ensures ready { IsReady first.new }
    ensures all { IfOk result (λ passes.
        All (λ pass. IsFor lock.now pass × IsReady pass) passes.items) }
{
    let mut passes = Vec::new(alloc);
    for _ in 0..count {
        let pass = lock.split(first);
        passes.push(pass)?;
    }
    Ok(passes)
}

// What a last hold finds after each thread had its part of the holds.
fn sum_of_threads<R: Threads + Wait + Sync>(
    rt: &R,
    alloc: Global,
    holds: u64,
    threads: u32,
) -> Result<u64, AllocError>
    requires some { 0 < threads }
{
    let times = holds / u64::from(threads);
    let (lock, mut first) = Lock::<AnyNumber>::new(alloc, 0, 0, threads)?;
    let mut passes = split_off(alloc, &lock, &mut first, threads)?;
    thread::for_each_mut(
        rt,
        passes.as_mut_slice(),
        threads as usize,
        &|_, pass| add_ones(rt, &lock, pass, times),
    );
    Ok(add(rt, &lock, &mut first, 0))
}

// The numbers that the words are.
fn numbers(words: &[String]) -> Option<(u64, u32)> {
    let [_, holds, threads] = words else {
        return None;
    };
    Some((holds.parse().ok()?, threads.parse().ok()?))
}

fn main(rt: HostRuntime) -> ExitCode {
    let alloc = rt.alloc();
    // Words that can't be read are no words, and so refused.
    let words = match env::args(&rt) {
        Ok(args) => args.collect(alloc).unwrap_or(Vec::new(alloc)),
        Err(_) => Vec::new(alloc),
    };
    let Some((holds, threads)) = numbers(words.as_slice()) else {
        return ExitCode::from(2);
    };
    if threads == 0 {
        return ExitCode::from(2);
    }
    match sum_of_threads(&rt, alloc, holds, threads) {
        Ok(sum) => match println!(rt; "{sum}") {
            Ok(()) => ExitCode::from(0),
            Err(_) => ExitCode::from(1),
        },
        Err(AllocError) => ExitCode::from(1),
    }
}
