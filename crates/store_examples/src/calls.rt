// Calls on stores of photos.
ghost use Rattle.std.specs.Prelude.{◌≡◌, [], IfOk};

use allocation::NoMemory;
use blob_store::{FakeKeeper, Keeper, Key, Stop, VecKeeper};
use photo_store::{Caller, Find, Put, Store, show};
use std::alloc::Global;
use std::process::Abort;
use std::sync::Wait;
use std::thread;
use std::thread::Threads;

// A header with one component of 8 by 8 pixels and two tables, one padded byte of scan, and an end.
const SMALL: [u8; 72] = [
    0xff, 0xd8, 0xff, 0xc0, 0x00, 0x0b, 0x08, 0x00, 0x08, 0x00, 0x08, 0x01, 0x01, 0x11, 0x00, 0xff,
    0xc4, 0x00, 0x14, 0x00, 0x01, 0x00, 0x00, 0x00, 0x00, 0x00, 0x00, 0x00, 0x00, 0x00, 0x00, 0x00,
    0x00, 0x00, 0x00, 0x00, 0x00, 0xff, 0xc4, 0x00, 0x14, 0x10, 0x01, 0x00, 0x00, 0x00, 0x00, 0x00,
    0x00, 0x00, 0x00, 0x00, 0x00, 0x00, 0x00, 0x00, 0x00, 0x00, 0x00, 0xff, 0xda, 0x00, 0x08, 0x01,
    0x01, 0x00, 0x00, 0x3f, 0x00, 0x3f, 0xff, 0xd9,
];

// A store and its one caller.
pub(crate) fn one_caller<P: Keeper>(
    alloc: Global,
    keeper: P,
    limit: u32,
) -> Result<(Store<P>, Caller<P>), NoMemory>
    requires { P.blobs keeper ≡ [] }
    ensures own { IfOk result (λ made. made.1.table ≡ made.0) }
    ensures first { IfOk result (λ made. made.1.number ≡ 0) }
    ensures alone { IfOk result (λ made. made.1.splits ≡ 0) }
{
    let (store, mut callers) = Store::<P>::start(alloc, keeper, 1, limit)?;
    let caller = callers.pop().unwrap();
    Ok((store, caller))
}

// A store and its two callers.
fn two_callers(
    alloc: Global,
) -> Result<(Store<VecKeeper>, Caller<VecKeeper>, Caller<VecKeeper>), NoMemory>
    ensures { IfOk result (λ made. (made.1.table ≡ made.0) × (made.2.table ≡ made.0)) }
{
    let (store, mut callers) = Store::<VecKeeper>::start(alloc, VecKeeper::new(alloc), 2, 8)?;
    let second = callers.pop().unwrap();
    let first = callers.pop().unwrap();
    Ok((store, first, second))
}

// Whether the key has the small file in a blob of 116 bytes, by a find after which the journal has this length.
fn finds_small<R: Wait + Abort>(
    rt: &R,
    alloc: Global,
    store: &Store<VecKeeper>,
    caller: &mut Caller<VecKeeper>,
    key: Key,
    length: u64,
) -> bool
    requires { caller.old.table ≡ store.now }
    ensures own { caller.new.table ≡ store.now }
    ensures number { caller.new.number ≡ caller.old.number }
    ensures splits { caller.new.splits ≡ caller.old.splits }
{
    match store.find(rt, caller, key) {
        Ok(Find::Found(ticket, entries)) => {
            let of_container = ticket.blob().first() == Some(&1) && ticket.blob().len() == 116;
            match show(alloc, ticket) {
                Ok(file) => {
                    of_container && file.as_slice() == SMALL.as_slice() && entries == length
                }
                Err(_) => false,
            }
        }
        _ => false,
    }
}

// Put, put again and found.
#[test]
fn a_photo(rt: HostRuntime) {
    let heap = rt.alloc();
    let (store, mut caller) = one_caller(heap, VecKeeper::new(heap), 8).expect(&rt, "memory");
    let Ok(Put::Stored(key, 1)) = store.put(&rt, heap, &mut caller, &SMALL) else {
        panic!(rt; "not stored")
    };
    assert!(rt; store.put(&rt, heap, &mut caller, &SMALL) == Ok(Put::Held(key, 2)));
    assert!(rt; finds_small(&rt, heap, &store, &mut caller, key, 3));
}

#[test]
fn full_at_its_limit(rt: HostRuntime) {
    let heap = rt.alloc();
    let (store, mut caller) = one_caller(heap, VecKeeper::new(heap), 1).expect(&rt, "memory");
    assert!(rt;
        matches!(
            store.put(&rt, heap, &mut caller, &SMALL),
            Ok(Put::Stored(_, 1))
        )
    );
    assert!(rt; store.put(&rt, heap, &mut caller, &SMALL) == Err(Stop::Full));
}

// The first append fails.
#[test]
fn a_keeper_that_fails(rt: HostRuntime) {
    let heap = rt.alloc();
    let mut fails = Vec::new(heap);
    fails.push(1).expect(&rt, "memory");
    let keeper = FakeKeeper::new(heap, fails);
    let (store, mut caller) = one_caller(heap, keeper, 8).expect(&rt, "memory");
    assert!(rt; store.put(&rt, heap, &mut caller, &SMALL) == Err(Stop::KeeperFault));
    assert!(rt;
        matches!(
            store.put(&rt, heap, &mut caller, &SMALL),
            Ok(Put::Stored(_, 1))
        )
    );
}

// Whether a put of the small file stored it, and the journal's length after it.
fn put_small<R: Threads + Wait + Sync>(
    rt: &R,
    alloc: Global,
    store: &Store<VecKeeper>,
    mut caller: Caller<VecKeeper>,
) -> (bool, u64)
    requires { caller.table ≡ store.now }
{
    match store.put(rt, alloc, &mut caller, &SMALL) {
        Ok(Put::Stored(_, entries)) => (true, entries),
        Ok(Put::Held(_, entries)) => (false, entries),
        Err(_) => (false, 0),
    }
}

// The same by two callers in two threads.
fn put_by_two<R: Threads + Wait + Sync>(
    rt: &R,
    alloc: Global,
) -> Result<((bool, u64), (bool, u64)), NoMemory> {
    let (store, first, second) = two_callers(alloc)?;
    Ok(thread::join(
        rt,
        || -> (bool, u64)
            requires { first.table ≡ store }
        { put_small(rt, alloc, &store, first) },
        || -> (bool, u64)
            requires { second.table ≡ store }
        { put_small(rt, alloc, &store, second) },
    ))
}

#[test]
fn two_callers_put_one_photo(rt: HostRuntime) {
    let stored = (true, 1);
    let held = (false, 2);
    for _ in 0..20 {
        let (a, b) = put_by_two(&rt, rt.alloc()).expect(&rt, "memory");
        assert!(rt; (a == stored && b == held) || (a == held && b == stored));
    }
}
