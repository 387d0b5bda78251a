// A store, its callers, and their calls.
ghost use Rattle.std.specs.Prelude.{◌≡◌, ◌<◌, ◌≤◌, [], IfOk};
ghost use Rattle.blob_store.specs.Journals.{AreBy};
ghost use Rattle.blob_store.specs.States.{Puts, Finds, Removes, find_reply};
ghost use Rattle.blob_store.specs.Callers.{CallGives, FoundBlob, new_callers};

use crate::holds;
use crate::keeper::Keeper;
use crate::record::{Key, Reply, Sought, Stop};
use crate::rule::{Form, StoreRule};
use crate::shelf::Shelf;
use crate::view::View;
use allocation::{NoMemory, insert, push};
use seat_lock::{Lock, Pass};
use std::alloc::Global;
use std::collections::LinkedList;
use std::marker::Model;
use std::sync::Wait;

/// A store. Clauses see which one it is.
#[derive(Drop)]
pub struct BlobStore<P: Keeper, F: Form> {
    lock: Lock<StoreRule<P, F>>,
}

impl<P: Keeper, F: Form> Model for BlobStore<P, F> {
    ghost use Rattle.atomic_table.specs.Seated.{TableId};
    ghost use Rattle.seat_lock.specs.Passes.{lock_id};

    ghost Value = { TableId };

    ghost view = { λ s. lock_id s.lock };

    ghost invariant = { λ s. Unit {0} };
}

/// A caller of a store. Clauses see a `CallerValue`.
#[derive(Drop)]
pub struct BlobCaller<P: Keeper, F: Form> {
    pass: Pass<StoreRule<P, F>>,
    number: u32,
}

impl<P: Keeper, F: Form> Model for BlobCaller<P, F> {
    ghost use Rattle.blob_store.specs.Callers.{CallerValue};
    ghost use Rattle.blob_store.specs.CallerPasses.{caller_value, IsCallerPass};

    ghost Value = { CallerValue };

    ghost view = { λ c. caller_value c.pass };

    ghost invariant = { λ c. IsCallerPass c.number c.pass };
}

impl<P: Keeper, F: Form> BlobStore<P, F> {
    /// Makes a store over a keeper that holds no blob, and its callers, in the order of their numbers. It allocates the
    /// journal, of `limit` entries.
    pub fn start(
        alloc: Global,
        keeper: P,
        callers: u32,
        limit: u32,
    ) -> Result<(BlobStore<P, F>, Vec<BlobCaller<P, F>>), NoMemory>
        requires empty { P.blobs keeper ≡ [] }
        requires some { 0 < callers }
        ensures callers { IfOk result (λ made. made.1.items
            ≡ new_callers made.0 (P.fault_count keeper) limit callers) }
    {
        let view = View {
            seen: LinkedList::new(alloc),
            mine: LinkedList::new(alloc),
            blobs: LinkedList::new(alloc),
            faults: keeper.faults(),
            limit,
        };
        let shelf = Shelf::new(alloc, keeper, limit)?;
        let (lock, mut first) = Lock::new(alloc, shelf, view, callers)?;
        let mut all = Vec::new(alloc);
        for before in 0..callers - 1 {
            let pass = lock.split(&mut first);
            let caller = BlobCaller {
                pass,
                number: before + 1,
            };
            push(&mut all, caller)?;
        }
        let caller = BlobCaller {
            pass: first,
            number: 0,
        };
        insert(&mut all, 0, caller)?;
        Ok((BlobStore { lock }, all))
    }

    /// Stores a blob under a key that has none, or finds that the key has this very blob. The number is the journal's
    /// length after the call.
    pub fn put<R: Wait>(
        &self,
        rt: &R,
        caller: &mut BlobCaller<P, F>,
        key: Key,
        blob: Vec<u8>,
    ) -> (Result<Reply, Stop>, u64)
        requires own { caller.old.table ≡ self.now }
        requires suits { F.suits key blob.items }
        ensures call { CallGives F.suits caller.old caller.new
            (Puts key blob.items) result.0 result.1 }
    {
        holds::put(rt, &self.lock, &mut caller.pass, caller.number, key, blob)
    }

    /// Returns the blob of a key, if it has one, with its number, and the journal's length after the call.
    pub fn find<R: Wait>(&self, rt: &R, caller: &mut BlobCaller<P, F>, key: Key) -> (Sought, u64)
        requires own { caller.old.table ≡ self.now }
        ensures call { CallGives F.suits caller.old caller.new
            (Finds key) (find_reply result.0) result.1 }
        ensures blob { FoundBlob F.suits caller.new.view.blobs key result.0 }
    {
        holds::find(rt, &self.lock, &mut caller.pass, caller.number, key)
    }

    /// Removes a key. Its blob stays with the keeper. The number is the journal's length after the call.
    pub fn remove<R: Wait>(
        &self,
        rt: &R,
        caller: &mut BlobCaller<P, F>,
        key: Key,
    ) -> (Result<Reply, Stop>, u64)
        requires own { caller.old.table ≡ self.now }
        ensures call { CallGives F.suits caller.old caller.new
            (Removes key) result.0 result.1 }
    {
        holds::remove(rt, &self.lock, &mut caller.pass, caller.number, key)
    }

    /// Gives the keeper back, by the first caller, if there is no other. So the journal has no entry of another.
    pub fn close(self, caller: BlobCaller<P, F>) -> P
        requires own { caller.table ≡ self }
        requires first { caller.number ≡ 0 }
        requires alone { caller.splits ≡ 0 }
        ensures blobs { P.blobs result ≡ caller.view.blobs }
        ensures faults { caller.view.faults ≤ P.fault_count result }
        ensures sole { AreBy 0 caller.view.seen }
    {
        self.lock.close(caller.pass).into_keeper()
    }
}
