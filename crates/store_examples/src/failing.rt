// A keeper that fails at one of its calls: the store's call that needs it gets no reply, and all others are answered as
// if that one wasn't made.
ghost use Rattle.std.specs.Prelude.{◌≡◌, ◌<◌};

use crate::calls::one_caller;
use blob_store::{FakeKeeper, Keeper, Stop, VecKeeper};
use photo_store::{Caller, Find, Put, Remove, Store, key_of};
use std::alloc::Global;
use std::process::Abort;
use std::sync::Wait;
use std::thread::Threads;

// The mark of what a call answers, and the number in it.
type Answered = (u8, u64);

const FAULT: Answered = (8, 0);

const OTHER: Answered = (9, 0);

fn mark_of_stop(stop: Stop) -> Answered {
    match stop {
        Stop::KeeperFault => FAULT,
        _ => OTHER,
    }
}

// Puts the file of one byte.
fn put<R: Threads + Wait + Sync, P: Keeper>(
    rt: &R,
    alloc: Global,
    store: &Store<P>,
    caller: &mut Caller<P>,
    byte: u8,
) -> Answered
    requires { caller.old.table ≡ store.now }
    ensures { caller.new.table ≡ store.now }
{
    match store.put(rt, alloc, caller, &[byte]) {
        Ok(Put::Stored(_, number)) => (1, number),
        Ok(Put::Held(_, number)) => (2, number),
        Err(stop) => mark_of_stop(stop),
    }
}

fn find<R: Wait, P: Keeper>(rt: &R, store: &Store<P>, caller: &mut Caller<P>, byte: u8) -> Answered
    requires { caller.old.table ≡ store.now }
    ensures { caller.new.table ≡ store.now }
{
    match store.find(rt, caller, key_of(&[byte])) {
        Ok(Find::Found(_, number)) => (4, number),
        Ok(Find::Missing(number)) => (5, number),
        Err(stop) => mark_of_stop(stop),
    }
}

fn remove<R: Wait, P: Keeper>(
    rt: &R,
    store: &Store<P>,
    caller: &mut Caller<P>,
    byte: u8,
) -> Answered
    requires { caller.old.table ≡ store.now }
    ensures { caller.new.table ≡ store.now }
{
    match store.remove(rt, caller, key_of(&[byte])) {
        Ok(Remove::Removed(number)) => (6, number),
        Ok(Remove::Missing(number)) => (7, number),
        Err(stop) => mark_of_stop(stop),
    }
}

// The call with a number: of four calls in turn for each file, put, put again, find and remove, all but the last need
// the keeper.
fn call<R: Threads + Wait + Sync, P: Keeper>(
    rt: &R,
    alloc: Global,
    store: &Store<P>,
    caller: &mut Caller<P>,
    number: u8,
) -> Answered
    requires { caller.old.table ≡ store.now }
    ensures { caller.new.table ≡ store.now }
{
    let byte = number / 4;
    match number % 4 {
        2 => find(rt, store, caller, byte),
        3 => remove(rt, store, caller, byte),
        _ => put(rt, alloc, store, caller, byte),
    }
}

// What the call answers if the keeper fails there; else what it answers of a store whose keeper doesn't fail, in which
// the call that fails is left out.
fn expected<R: Threads + Wait + Sync>(
    rt: &R,
    alloc: Global,
    store: &Store<VecKeeper>,
    caller: &mut Caller<VecKeeper>,
    number: u8,
    fails: bool,
) -> Answered
    requires { caller.old.table ≡ store.now }
    ensures { caller.new.table ≡ store.now }
{
    if fails {
        return FAULT;
    }
    call(rt, alloc, store, caller, number)
}

// The keeper fails at its call with this number, from 1 on.
fn fails_once<R: Threads + Wait + Sync + Abort>(rt: &R, alloc: Global, fault: u64) -> bool
    requires first { 0 < fault }
    requires few { fault < 100 }
{
    let mut fails = Vec::new(alloc);
    fails.push(fault).expect(rt, "memory");
    let keeper = FakeKeeper::new(alloc, fails);
    let (store, mut caller) = one_caller(alloc, keeper, 28).expect(rt, "memory");
    let keeper = VecKeeper::new(alloc);
    let (other, mut second) = one_caller(alloc, keeper, 28).expect(rt, "memory");
    let at = (fault - 1) / 3 * 4 + (fault - 1) % 3;
    let mut right = true;
    for number in 0..28u8 {
        let fails = u64::from(number) == at;
        let answer = call(rt, alloc, &store, &mut caller, number);
        if answer != expected(rt, alloc, &other, &mut second, number, fails) {
            right = false;
        }
    }
    right
}

#[test]
fn a_keeper_that_fails_at_each_call(rt: HostRuntime) {
    for fault in 1..22 {
        assert!(rt; fails_once(&rt, rt.alloc(), fault));
    }
}
