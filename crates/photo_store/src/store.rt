// A store of photos, its callers, and their calls.
ghost use Rattle.std.specs.Prelude.{◌≡◌, ◌<◌, ◌≤◌, [], length, IfOk, IsErrOf};
ghost use Rattle.container_spec.specs.Limits.{most_of_a_file};
ghost use Rattle.blob_store.specs.Journals.{AreBy};
ghost use Rattle.blob_store.specs.Callers.{new_callers};
ghost use Rattle.blob_store.specs.declared.record.Stop.TheVariants.{Clash};
ghost use Rattle.photo_store.specs.Photos.{PutGives, FindGives, RemoveGives, HasTwin};

use crate::answers::{Find, Put, Remove};
use crate::make::{key_of, make_blob};
use crate::ticket::Ticket;
use allocation::NoMemory;
use blob_store::{BlobCaller, BlobStore, Form, Keeper, Key, Reply, Stop};
use std::alloc::Global;
use std::marker::Model;
use std::sync::Wait;
use std::thread::Threads;

/// The blobs of files suit the files' digests.
pub struct PhotoForm;

impl Form for PhotoForm {
    ghost use Rattle.photo_store.specs.Photos.{SuitsKey};

    ghost suits = { SuitsKey };
}

/// A caller of a store of photos. Clauses see a `CallerValue` of `blob_store`.
pub type Caller<P> = BlobCaller<P, PhotoForm>;

/// A store of photos over a keeper of blobs. Clauses see which store it is.
#[derive(Drop)]
pub struct Store<P: Keeper> {
    blobs: BlobStore<P, PhotoForm>,
}

impl<P: Keeper> Model for Store<P> {
    ghost use Rattle.atomic_table.specs.Seated.{TableId};

    ghost Value = { TableId };

    ghost view = { λ s. s.blobs };

    ghost invariant = { λ s. Unit {0} };
}

impl<P: Keeper> Store<P> {
    /// Makes a store over a keeper that holds no blob, and its callers, in the order of their numbers. It allocates the
    /// journal, of `limit` entries.
    pub fn start(
        alloc: Global,
        keeper: P,
        callers: u32,
        limit: u32,
    ) -> Result<(Store<P>, Vec<Caller<P>>), NoMemory>
        requires empty { P.blobs keeper ≡ [] }
        requires some { 0 < callers }
        ensures callers { IfOk result (λ made. made.1.items
            ≡ new_callers made.0 (P.fault_count keeper) limit callers) }
    {
        let (blobs, callers) = BlobStore::start(alloc, keeper, callers, limit)?;
        Ok((Store { blobs }, callers))
    }

    /// Gives the keeper back, by the first caller, if there is no other. So the journal has no entry of another.
    pub fn close(self, caller: Caller<P>) -> P
        requires own { caller.table ≡ self }
        requires first { caller.number ≡ 0 }
        requires alone { caller.splits ≡ 0 }
        ensures blobs { P.blobs result ≡ caller.view.blobs }
        ensures faults { caller.view.faults ≤ P.fault_count result }
        ensures sole { AreBy 0 caller.view.seen }
    {
        self.blobs.close(caller)
    }

    /// Keeps a file of at most 67,108,864 bytes under its digest. It encodes the file before it holds the store's lock.
    ///
    /// It clashes only if another file has the same digest.
    pub fn put<R: Threads + Wait + Sync>(
        &self,
        rt: &R,
        alloc: Global,
        caller: &mut Caller<P>,
        file: &[u8],
    ) -> Result<Put, Stop>
        requires own { caller.old.table ≡ self.now }
        requires short { length file.now ≤ most_of_a_file }
        ensures put { PutGives caller.old caller.new file.now result }
        ensures clash { IsErrOf result Clash → HasTwin file.now }
    {
        let blob = match make_blob(rt, alloc, file) {
            Ok(blob) => blob,
            Err(short) => return Err(Stop::NoMemory(short)),
        };
        let key = key_of(file);
        let (answer, front) = self.blobs.put(rt, caller, key, blob);
        match answer {
            Ok(Reply::Stored(_)) => Ok(Put::Stored(key, front)),
            Ok(Reply::Held(_)) => Ok(Put::Held(key, front)),
            Ok(Reply::Found(_)) => unreachable!(),
            Ok(Reply::Missing) => unreachable!(),
            Ok(Reply::Removed) => unreachable!(),
            Err(stop) => Err(stop),
        }
    }

    /// Returns a ticket for the file of a key, if it has one.
    pub fn find<R: Wait>(&self, rt: &R, caller: &mut Caller<P>, key: Key) -> Result<Find, Stop>
        requires own { caller.old.table ≡ self.now }
        ensures find { FindGives caller.old caller.new key result }
    {
        let (sought, front) = self.blobs.find(rt, caller, key);
        match sought {
            Ok(Some((_, blob))) => Ok(Find::Found(Ticket { blob }, front)),
            Ok(None) => Ok(Find::Missing(front)),
            Err(stop) => Err(stop),
        }
    }

    /// Removes a key. The blob of its file stays with the keeper.
    pub fn remove<R: Wait>(&self, rt: &R, caller: &mut Caller<P>, key: Key) -> Result<Remove, Stop>
        requires own { caller.old.table ≡ self.now }
        ensures removal { RemoveGives caller.old caller.new key result }
    {
        let (answer, front) = self.blobs.remove(rt, caller, key);
        match answer {
            Ok(Reply::Removed) => Ok(Remove::Removed(front)),
            Ok(Reply::Missing) => Ok(Remove::Missing(front)),
            Ok(_) => unreachable!(),
            Err(stop) => Err(stop),
        }
    }
}
