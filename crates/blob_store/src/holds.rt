// The calls of a caller, on its pass. Each is one hold of the lock.
ghost use Rattle.std.specs.Prelude.{◌≡◌};
ghost use Rattle.seat_lock.specs.Passes.{IsFor};
ghost use Rattle.blob_store.specs.States.{Puts, Finds, Removes, find_reply};
ghost use Rattle.blob_store.specs.Callers.{CallGives, FoundBlob};
ghost use Rattle.blob_store.specs.CallerPasses.{IsCallerPass, caller_value};

use crate::keeper::Keeper;
use crate::note::{Ask, Note};
use crate::record::{Key, Reply, Sought, Stop};
use crate::rule::{Form, StoreRule};
use seat_lock::{Lock, Pass};
use std::sync::Wait;

// The kind of each release. The amount is 0, since the note says all.
const CALL: u64 = 0;

pub(crate) fn put<P: Keeper, F: Form, R: Wait>(
    rt: &R,
    lock: &Lock<StoreRule<P, F>>,
    pass: &mut Pass<StoreRule<P, F>>,
    number: u32,
    key: Key,
    blob: Vec<u8>,
) -> (Result<Reply, Stop>, u64)
    requires own { IsFor lock.now pass.old }
    requires caller { IsCallerPass number pass.old }
    requires suits { F.suits key blob.items }
    ensures caller { IsCallerPass number pass.new }
    ensures call { CallGives F.suits (caller_value pass.old) (caller_value pass.new)
        (Puts key blob.items) result.0 result.1 }
{
    let mut held = lock.hold(rt, pass);
    let shelf = held.value();
    let found = shelf.counts();
    let answer = shelf.put(number, key, &blob);
    let left = shelf.counts();
    let note = Note {
        caller: number,
        ask: Ask::Put(key, blob),
        answer,
        found,
        left,
    };
    held.release(lock, CALL, 0, note);
    (answer, left.entries)
}

pub(crate) fn find<P: Keeper, F: Form, R: Wait>(
    rt: &R,
    lock: &Lock<StoreRule<P, F>>,
    pass: &mut Pass<StoreRule<P, F>>,
    number: u32,
    key: Key,
) -> (Sought, u64)
    requires own { IsFor lock.now pass.old }
    requires caller { IsCallerPass number pass.old }
    ensures caller { IsCallerPass number pass.new }
    ensures call { CallGives F.suits (caller_value pass.old) (caller_value pass.new)
        (Finds key) (find_reply result.0) result.1 }
    ensures blob { FoundBlob F.suits (caller_value pass.new).view.blobs key result.0 }
{
    let mut held = lock.hold(rt, pass);
    let shelf = held.value();
    let found = shelf.counts();
    let sought = shelf.find(number, key);
    let answer = reply_of(&sought);
    let left = shelf.counts();
    let note = Note {
        caller: number,
        ask: Ask::Find(key),
        answer,
        found,
        left,
    };
    held.release(lock, CALL, 0, note);
    (sought, left.entries)
}

// The answer to a find, without the blob.
fn reply_of(sought: &Sought) -> Result<Reply, Stop>
    ensures { result ≡ find_reply sought.now }
{
    match sought {
        Ok(Some((number, _))) => Ok(Reply::Found(*number)),
        Ok(None) => Ok(Reply::Missing),
        Err(stop) => Err(*stop),
    }
}

pub(crate) fn remove<P: Keeper, F: Form, R: Wait>(
    rt: &R,
    lock: &Lock<StoreRule<P, F>>,
    pass: &mut Pass<StoreRule<P, F>>,
    number: u32,
    key: Key,
) -> (Result<Reply, Stop>, u64)
    requires own { IsFor lock.now pass.old }
    requires caller { IsCallerPass number pass.old }
    ensures caller { IsCallerPass number pass.new }
    ensures call { CallGives F.suits (caller_value pass.old) (caller_value pass.new)
        (Removes key) result.0 result.1 }
{
    let mut held = lock.hold(rt, pass);
    let shelf = held.value();
    let found = shelf.counts();
    let answer = shelf.remove(number, key);
    let left = shelf.counts();
    let note = Note {
        caller: number,
        ask: Ask::Remove(key),
        answer,
        found,
        left,
    };
    held.release(lock, CALL, 0, note);
    (answer, left.entries)
}
