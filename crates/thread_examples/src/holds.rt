// A number under a lock, which is the sum of what its passes have added.
ghost use Rattle.std.specs.Prelude.{◌≡◌, ◌+◌, ◌<◌, All, IfOk, IfSome};
ghost use Rattle.seat_lock.specs.Passes.{IsFor, IsReady, IsFirst, IsSamePass, holds_of, last_of, splits_of};
ghost use Rattle.thread_examples.specs.Sums.{sum_splits};

use seat_lock::{Lock, Pass, Rule};
use std::alloc::{AllocError, Global};
use std::process::Abort;
use std::sync::Wait;
use std::thread;
use std::thread::Threads;

struct Sums;

impl Rule for Sums {
    ghost use Rattle.std.specs.Prelude.{sum};

    // What the pass has added.
    type View = u64;

    type Value = u64;

    // The value found.
    type Entry = u64;

    ghost fits = { λ x views. x ≡ sum views };

    ghost may_split = { λ _. Unit {0} };

    ghost left = { λ v. v };

    ghost right = { λ _. 0 };

    ghost after = { λ v _ amount _ _. v + amount };

    ghost tells = { λ _ _ amount entry x y. (entry ≡ x) × (y ≡ x + amount) };

    ghost splits = { sum_splits };
}

// Adds an amount, or nothing if the sum is too large, and returns what it found.
fn add<R: Wait>(rt: &R, lock: &Lock<Sums>, pass: &mut Pass<Sums>, amount: u64) -> u64
    requires own { IsFor lock.now pass.old }
    requires ready { IsReady pass.old }
    ensures pass { IsSamePass pass.old pass.new }
    ensures ready { IsReady pass.new }
    ensures splits { splits_of pass.new ≡ splits_of pass.old }
    ensures holds { holds_of pass.new ≡ holds_of pass.old + 1 }
    ensures told { IfSome (last_of pass.new) (λ last. last.2 ≡ result) }
{
    let mut held = lock.hold(rt, pass);
    let found = *held.value();
    if found <= u64::MAX - amount {
        *held.value() = found + amount;
        held.release(lock, 1, amount, found);
    } else {
        held.release(lock, 1, 0, found);
    }
    found
}

// Adds 1, and again.
fn add_ones<R: Wait>(rt: &R, lock: &Lock<Sums>, pass: &mut Pass<Sums>, times: u32)
    requires own { IsFor lock.now pass.old }
    requires ready { IsReady pass.old }
    ensures own { IsFor lock.now pass.new }
    ensures ready { IsReady pass.new }
{
    for _ in 0..times {
        add(rt, lock, pass, 1);
    }
}

// Passes that are split off from the first one.
fn split_off(
    alloc: Global,
    lock: &Lock<Sums>,
    first: &mut Pass<Sums>,
    count: usize,
) -> Result<Vec<Pass<Sums>>, AllocError>
    requires own { IsFor lock.now first.old }
    requires ready { IsReady first.old }
    requires first { IsFirst first.old }
    ensures own { IsFor lock.now first.new }
    ensures ready { IsReady first.new }
    ensures all { IfOk result (λ passes.
        All (λ pass. IsFor lock.now pass × IsReady pass) passes.items) }
{
    let mut passes = Vec::new(alloc);
    for _ in 0..count {
        let pass = lock.split(first);
        passes.push(pass)?;
    }
    Ok(passes)
}

// What a last hold finds after each of the given number of threads has added 1 the given number of times.
fn sum_of_threads<R: Threads + Wait + Sync + Abort>(
    rt: &R,
    alloc: Global,
    threads: u32,
    times: u32,
) -> u64
    requires some { 0 < threads }
{
    let (lock, mut first) = Lock::<Sums>::new(alloc, 0, 0, threads).expect(rt, "memory");
    let mut passes = split_off(alloc, &lock, &mut first, threads as usize).expect(rt, "memory");
    thread::for_each_mut(
        rt,
        passes.as_mut_slice(),
        threads as usize,
        &|_, pass| add_ones(rt, &lock, pass, times),
    );
    add(rt, &lock, &mut first, 0)
}

#[test]
fn threads_add_ones(rt: HostRuntime) {
    assert!(rt; sum_of_threads(&rt, rt.alloc(), 2, 1000) == 2_000);
    assert!(rt; sum_of_threads(&rt, rt.alloc(), 8, 12_500) == 100_000);
}

#[test]
fn closes_with_what_was_added(rt: HostRuntime) {
    let (lock, mut first) = Lock::<Sums>::new(rt.alloc(), 5, 5, 1).expect(&rt, "memory");
    assert!(rt; add(&rt, &lock, &mut first, 30) == 5);
    assert!(rt; add(&rt, &lock, &mut first, 7) == 35);
    assert!(rt; lock.close(first) == 42);
}

// Adds 1 if the number found leaves this rest by 2, and returns whether it does.
fn add_in_turn<R: Wait>(rt: &R, lock: &Lock<Sums>, pass: &mut Pass<Sums>, rest: u64) -> bool
    requires own { IsFor lock.now pass.old }
    requires ready { IsReady pass.old }
    ensures pass { IsSamePass pass.old pass.new }
    ensures ready { IsReady pass.new }
{
    let mut held = lock.hold(rt, pass);
    let found = *held.value();
    let due = found % 2 == rest && found < u64::MAX;
    if due {
        *held.value() = found + 1;
        held.release(lock, 1, 1, found);
    } else {
        held.release(lock, 1, 0, found);
    }
    due
}

// Waits until it is its turn, adds 1 and rings.
fn add_when_due<R: Wait>(rt: &R, lock: &Lock<Sums>, pass: &mut Pass<Sums>, rest: u64)
    requires own { IsFor lock.now pass.old }
    requires ready { IsReady pass.old }
    ensures own { IsFor lock.now pass.new }
    ensures ready { IsReady pass.new }
{
    for _ in rt.forever() {
        if add_in_turn(rt, lock, pass, rest) {
            lock.ring_bell(pass);
            return;
        }
        lock.wait(rt, pass);
    }
    unreachable!()
}

// Adds 1 in turn, the given number of times.
fn take_turns<R: Wait>(rt: &R, lock: &Lock<Sums>, mut pass: Pass<Sums>, rest: u64, times: u32)
    requires own { IsFor lock.now pass }
    requires ready { IsReady pass }
{
    for _ in 0..times {
        add_when_due(rt, lock, &mut pass, rest);
    }
}

// What is found after two threads have added 1 in turn, each the given number of times.
fn sum_of_turns<R: Threads + Wait + Sync + Abort>(rt: &R, alloc: Global, times: u32) -> u64 {
    let (lock, mut first) = Lock::<Sums>::new(alloc, 0, 0, 3).expect(rt, "memory");
    let even = lock.split(&mut first);
    let odd = lock.split(&mut first);
    thread::join(
        rt,
        || -> ()
            requires { IsFor lock even × IsReady even }
        { take_turns(rt, &lock, even, 0, times) },
        || -> ()
            requires { IsFor lock odd × IsReady odd }
        { take_turns(rt, &lock, odd, 1, times) },
    );
    add(rt, &lock, &mut first, 0)
}

#[test]
fn threads_take_turns_by_the_bell(rt: HostRuntime) {
    assert!(rt; sum_of_turns(&rt, rt.alloc(), 20_000) == 40_000);
}
