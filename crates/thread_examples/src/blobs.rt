// Stores of small blobs, each call with the answer that is expected. Any blob suits any key.
ghost use Rattle.std.specs.Prelude.{◌≡◌, [], IfOk};

use allocation::{NoMemory, from_slice};
use blob_store::{BlobCaller, BlobStore, FakeKeeper, Form, Keeper, Key, Reply, Stop, VecKeeper};
use std::alloc::Global;
use std::process::Abort;
use std::sync::Wait;
use std::thread;
use std::thread::Threads;

struct AnyBlob;

impl Form for AnyBlob {
    ghost suits = { λ _ _. Unit {0} };
}

type Store<P> = BlobStore<P, AnyBlob>;

type Caller<P> = BlobCaller<P, AnyBlob>;

// The answer to a put or a removal, and the journal's length after it.
type Answer = (Result<Reply, Stop>, u64);

const KEY: Key = [7; 32];

// A store and its one caller.
fn one_caller<P: Keeper>(
    alloc: Global,
    keeper: P,
    limit: u32,
) -> Result<(Store<P>, Caller<P>), NoMemory>
    requires { P.blobs keeper ≡ [] }
    ensures { IfOk result (λ made. made.1.table ≡ made.0) }
{
    let (store, mut callers) = Store::<P>::start(alloc, keeper, 1, limit)?;
    let caller = callers.pop().unwrap();
    Ok((store, caller))
}

// A store and its two callers.
fn two_callers(
    alloc: Global,
    limit: u32,
) -> Result<(Store<VecKeeper>, Caller<VecKeeper>, Caller<VecKeeper>), NoMemory>
    ensures { IfOk result (λ made. (made.1.table ≡ made.0) × (made.2.table ≡ made.0)) }
{
    let (store, mut callers) = Store::<VecKeeper>::start(alloc, VecKeeper::new(alloc), 2, limit)?;
    let second = callers.pop().unwrap();
    let first = callers.pop().unwrap();
    Ok((store, first, second))
}

// A put of these bytes has this answer.
fn puts<P: Keeper, R: Wait + Abort>(
    rt: &R,
    alloc: Global,
    store: &Store<P>,
    caller: &mut Caller<P>,
    bytes: &[u8],
    answer: Answer,
)
    requires { caller.old.table ≡ store.now }
    ensures { caller.new.table ≡ store.now }
{
    let blob = from_slice(alloc, bytes).expect(rt, "memory");
    assert!(rt; store.put(rt, caller, KEY, blob) == answer);
}

// A find gives the blob with this number and these bytes, and the journal then has this length.
fn finds<P: Keeper, R: Wait + Abort>(
    rt: &R,
    store: &Store<P>,
    caller: &mut Caller<P>,
    number: u32,
    bytes: &[u8],
    length: u64,
)
    requires { caller.old.table ≡ store.now }
    ensures { caller.new.table ≡ store.now }
{
    let (sought, entries) = store.find(rt, caller, KEY);
    match sought {
        Ok(Some((given, blob))) => assert!(rt; given == number && blob.as_slice() == bytes),
        _ => panic!(rt; "no blob"),
    }
    assert!(rt; entries == length);
}

// A find gives no blob, since the key has none, or for this cause.
fn finds_none<P: Keeper, R: Wait + Abort>(
    rt: &R,
    store: &Store<P>,
    caller: &mut Caller<P>,
    cause: Option<Stop>,
    length: u64,
)
    requires { caller.old.table ≡ store.now }
    ensures { caller.new.table ≡ store.now }
{
    let (sought, entries) = store.find(rt, caller, KEY);
    match sought {
        Ok(Some(_)) => panic!(rt; "a blob"),
        Ok(None) => assert!(rt; cause.is_none()),
        Err(stop) => assert!(rt; cause == Some(stop)),
    }
    assert!(rt; entries == length);
}

// A removal has this answer.
fn removes<P: Keeper, R: Wait + Abort>(
    rt: &R,
    store: &Store<P>,
    caller: &mut Caller<P>,
    answer: Answer,
)
    requires { caller.old.table ≡ store.now }
    ensures { caller.new.table ≡ store.now }
{
    assert!(rt; store.remove(rt, caller, KEY) == answer);
}

#[test]
fn calls_of_one_caller(rt: HostRuntime) {
    let heap = rt.alloc();
    let (store, mut caller) = one_caller(heap, VecKeeper::new(heap), 8).expect(&rt, "memory");
    puts(
        &rt,
        heap,
        &store,
        &mut caller,
        &[7, 1],
        (Ok(Reply::Stored(0)), 1),
    );
    puts(
        &rt,
        heap,
        &store,
        &mut caller,
        &[7, 1],
        (Ok(Reply::Held(0)), 2),
    );
    puts(
        &rt,
        heap,
        &store,
        &mut caller,
        &[7, 2],
        (Err(Stop::Clash), 2),
    );
    finds(&rt, &store, &mut caller, 0, &[7, 1], 3);
    removes(&rt, &store, &mut caller, (Ok(Reply::Removed), 4));
    removes(&rt, &store, &mut caller, (Ok(Reply::Missing), 5));
    finds_none(&rt, &store, &mut caller, None, 6);
    // A key that was removed may get another blob, which has the next number.
    puts(
        &rt,
        heap,
        &store,
        &mut caller,
        &[7, 2],
        (Ok(Reply::Stored(1)), 7),
    );
}

#[test]
fn full_at_its_limit(rt: HostRuntime) {
    let heap = rt.alloc();
    let (store, mut caller) = one_caller(heap, VecKeeper::new(heap), 1).expect(&rt, "memory");
    puts(
        &rt,
        heap,
        &store,
        &mut caller,
        &[1],
        (Ok(Reply::Stored(0)), 1),
    );
    puts(&rt, heap, &store, &mut caller, &[2], (Err(Stop::Full), 1));
    finds_none(&rt, &store, &mut caller, Some(Stop::Full), 1);
    removes(&rt, &store, &mut caller, (Err(Stop::Full), 1));
}

// The numbers of the calls that fail: the first append and the first read.
fn first_and_third(alloc: Global) -> Result<Vec<u64>, NoMemory> {
    from_slice(alloc, &[1, 3])
}

#[test]
fn a_keeper_that_fails(rt: HostRuntime) {
    let heap = rt.alloc();
    let fails = first_and_third(heap).expect(&rt, "memory");
    let keeper = FakeKeeper::new(heap, fails);
    let (store, mut caller) = one_caller(heap, keeper, 8).expect(&rt, "memory");
    puts(
        &rt,
        heap,
        &store,
        &mut caller,
        &[1],
        (Err(Stop::KeeperFault), 0),
    );
    puts(
        &rt,
        heap,
        &store,
        &mut caller,
        &[1],
        (Ok(Reply::Stored(0)), 1),
    );
    finds_none(&rt, &store, &mut caller, Some(Stop::KeeperFault), 1);
    finds(&rt, &store, &mut caller, 0, &[1], 2);
}

// The answer to a caller that puts a blob.
fn put_as<R: Wait>(
    rt: &R,
    store: &Store<VecKeeper>,
    mut caller: Caller<VecKeeper>,
    blob: Vec<u8>,
) -> Answer
    requires { caller.table ≡ store.now }
{
    store.put(rt, &mut caller, KEY, blob)
}

// The answers to two callers in two threads that put one blob under one key.
fn put_by_two<R: Threads + Wait + Sync>(
    rt: &R,
    alloc: Global,
) -> Result<(Answer, Answer), NoMemory> {
    let (store, first, second) = two_callers(alloc, 8)?;
    let one = from_slice(alloc, &[7])?;
    let two = from_slice(alloc, &[7])?;
    Ok(thread::join(
        rt,
        || -> Answer
            requires { first.table ≡ store }
        { put_as(rt, &store, first, one) },
        || -> Answer
            requires { second.table ≡ store }
        { put_as(rt, &store, second, two) },
    ))
}

#[test]
fn two_callers_put_one_blob(rt: HostRuntime) {
    let stored: Answer = (Ok(Reply::Stored(0)), 1);
    let held: Answer = (Ok(Reply::Held(0)), 2);
    for _ in 0..50 {
        let (a, b) = put_by_two(&rt, rt.alloc()).expect(&rt, "memory");
        assert!(rt; (a == stored && b == held) || (a == held && b == stored));
    }
}
