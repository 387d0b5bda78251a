// The value under a store's lock: a store of one thread, with its journal.
ghost use Rattle.std.specs.Prelude.{◌≡◌, ◌<◌, ℕ, Option, [], ◌∷◌, ◌++◌, length, None, Some, IsSome, IfOk, true, false};
ghost use Rattle.blob_store.specs.Journals.{kept, left_by};
ghost use Rattle.blob_store.specs.States.{Puts, Removes, empty_store};
ghost use Rattle.blob_store.specs.CallSteps.{Calls, Enters, FindGives, stop_from};

use crate::keeper::{Keep, Keeper};
use crate::note::Counts;
use crate::record::{Call, Key, Record, Reply, Sought, Stop};
use allocation::{NoMemory, map_insert, with_capacity};
use std::alloc::Global;
use std::collections::BTreeMap;
use std::marker::Model;

/// A store of one thread, with its journal. Clauses see a `StoreState`.
#[derive(Drop)]
pub struct Shelf<P: Keeper> {
    keeper: P,
    // The number of each key's blob.
    map: BTreeMap<Key, u32>,
    journal: Vec<Record>,
    // How many blobs there are.
    count: u32,
    // How many entries the journal may have, and has room for.
    limit: u32,
}

impl<P: Keeper> Model for Shelf<P> {
    ghost use Rattle.std.specs.Prelude.{◌≡◌, ℕ, ◌<◌, ◌≤◌, List, length, Some, vec_len, vec_capacity};
    ghost use Rattle.std.specs.BTreeMap.{get};
    ghost use Rattle.std.specs.Ordering.{nat_cmp};
    ghost use Rattle.std.specs.Cmp.Lexicographic.{slice_cmp};
    ghost use Rattle.blob_store.specs.Journals.{kept};
    ghost use Rattle.blob_store.specs.States.{StoreState};

    ghost Value = { StoreState };

    ghost view = { λ s. record {
      journal = s.journal.items;
      blobs = P.blobs s.keeper;
      faults = P.fault_count s.keeper;
      limit = s.limit;
    } };

    ghost invariant = { λ s.
        ((key : List ℕ) → get (slice_cmp nat_cmp) s.map key ≡ kept s.journal.items key)
        × ((key : List ℕ) (number : ℕ) → kept s.journal.items key ≡ Some number
        → number < length (P.blobs s.keeper))
        × (s.count ≡ length (P.blobs s.keeper))
        × (s.count ≤ vec_len s.journal)
        × (vec_len s.journal ≤ s.limit)
        × (s.limit ≤ vec_capacity s.journal) };
}

impl<P: Keeper> Shelf<P> {
    /// Makes a store over a keeper that holds no blob. It allocates the journal.
    pub fn new(alloc: Global, keeper: P, limit: u32) -> Result<Shelf<P>, NoMemory>
        requires empty { P.blobs keeper ≡ [] }
        ensures { IfOk result (λ shelf. shelf ≡ empty_store (P.fault_count keeper) limit) }
    {
        let journal = with_capacity(alloc, limit as usize)?;
        Ok(Shelf {
            keeper,
            map: BTreeMap::new(alloc),
            journal,
            count: 0,
            limit,
        })
    }

    /// Returns how many entries the journal has, and how often the keeper has failed.
    pub fn counts(&self) -> Counts
        ensures entries { result.entries ≡ length self.now.journal }
        ensures faults { result.faults ≡ self.now.faults }
    {
        Counts {
            entries: self.journal.len() as u64,
            faults: self.keeper.faults(),
        }
    }

    /// Gives the keeper back.
    pub fn into_keeper(self) -> P
        ensures blobs { P.blobs result ≡ self.blobs }
        ensures faults { P.fault_count result ≡ self.faults }
    {
        self.keeper
    }

    // Whether the journal has as many entries as it may.
    fn is_full(&self) -> bool
        ensures full { result ≡ true → length self.now.journal ≡ self.now.limit }
        ensures room { result ≡ false → length self.now.journal < self.now.limit }
    {
        self.journal.len() >= self.limit as usize
    }

    /// Stores a blob under a key that has none, or finds that the key has this very blob.
    pub fn put(&mut self, caller: u32, key: Key, blob: &[u8]) -> Result<Reply, Stop>
        ensures { Calls self.old self.new caller (Puts key blob.now) result }
    {
        if self.is_full() {
            return Err(Stop::Full);
        }
        match self.number_of(key) {
            Some(number) => self.put_again(caller, key, number, blob),
            None => self.put_new(caller, key, blob),
        }
    }

    // The number of a key's blob.
    fn number_of(&self, key: Key) -> Option<u32>
        ensures { result ≡ kept self.now.journal key }
    {
        self.map.get(&key).copied()
    }

    // A put under a key that has no blob. The key is inserted before the blob is appended, so that no blob is appended
    // without its entry; it is removed again if the keeper doesn't append the blob.
    fn put_new(&mut self, caller: u32, key: Key, blob: &[u8]) -> Result<Reply, Stop>
        requires room { length self.old.journal < self.old.limit }
        requires nothing { kept self.old.journal key ≡ None }
        ensures { Calls self.old self.new caller (Puts key blob.now) result }
    {
        let number = self.count;
        if let Err(short) = map_insert(&mut self.map, key, number) {
            return Err(Stop::NoMemory(short));
        }
        if let Err(keep) = self.keeper.append(blob) {
            self.map.remove(&key);
            return Err(stop_by(keep));
        }
        self.count += 1;
        let reply = Reply::Stored(number);
        self.journal.push_reserved(Record {
            caller,
            call: Call::Put,
            key,
            reply,
        });
        Ok(reply)
    }

    // A put under a key that has a blob, with this number.
    fn put_again(&mut self, caller: u32, key: Key, number: u32, blob: &[u8]) -> Result<Reply, Stop>
        requires room { length self.old.journal < self.old.limit }
        requires has { kept self.old.journal key ≡ Some number }
        ensures { Calls self.old self.new caller (Puts key blob.now) result }
    {
        let held = match self.keeper.read(number) {
            Ok(held) => held,
            Err(keep) => return Err(stop_by(keep)),
        };
        if held.as_slice() != blob {
            return Err(Stop::Clash);
        }
        let reply = Reply::Held(number);
        self.add(Record {
            caller,
            call: Call::Put,
            key,
            reply,
        });
        Ok(reply)
    }

    /// Returns the blob of a key, if it has one, with its number.
    pub fn find(&mut self, caller: u32, key: Key) -> Sought
        ensures { FindGives self.old self.new caller key result }
    {
        if self.is_full() {
            return Err(Stop::Full);
        }
        match self.number_of(key) {
            Some(number) => self.find_kept(caller, key, number),
            None => {
                self.add(Record {
                    caller,
                    call: Call::Find,
                    key,
                    reply: Reply::Missing,
                });
                Ok(None)
            }
        }
    }

    // A find of a key that has a blob, with this number.
    fn find_kept(&mut self, caller: u32, key: Key, number: u32) -> Sought
        requires room { length self.old.journal < self.old.limit }
        requires has { kept self.old.journal key ≡ Some number }
        ensures { FindGives self.old self.new caller key result }
    {
        let blob = match self.keeper.read(number) {
            Ok(blob) => blob,
            Err(keep) => return Err(stop_by(keep)),
        };
        self.add(Record {
            caller,
            call: Call::Find,
            key,
            reply: Reply::Found(number),
        });
        Ok(Some((number, blob)))
    }

    /// Removes a key. Its blob stays with the keeper.
    pub fn remove(&mut self, caller: u32, key: Key) -> Result<Reply, Stop>
        ensures { Calls self.old self.new caller (Removes key) result }
    {
        if self.is_full() {
            return Err(Stop::Full);
        }
        if self.number_of(key).is_some() {
            return Ok(self.remove_kept(caller, key));
        }
        self.add(Record {
            caller,
            call: Call::Remove,
            key,
            reply: Reply::Missing,
        });
        Ok(Reply::Missing)
    }

    // Removes a key that has a blob.
    fn remove_kept(&mut self, caller: u32, key: Key) -> Reply
        requires room { length self.old.journal < self.old.limit }
        requires has { IsSome (kept self.old.journal key) }
        ensures { Enters self.old self.new caller (Removes key) result }
    {
        self.map.remove(&key);
        let reply = Reply::Removed;
        self.journal.push_reserved(Record {
            caller,
            call: Call::Remove,
            key,
            reply,
        });
        reply
    }

    // Adds an entry after which each key has what it had.
    fn add(&mut self, entry: Record)
        requires room { length self.old.journal < self.old.limit }
        requires leaves { (now : Option ℕ) → left_by now entry.reply ≡ now }
        ensures { self.new ≡ record self.old { journal = self.old.journal ++ entry ∷ [] } }
    {
        self.journal.push_reserved(entry);
    }
}

// Why a call stops if the keeper didn't append or read a blob.
fn stop_by(keep: Keep) -> Stop
    ensures { result ≡ stop_from keep }
{
    match keep {
        Keep::Failed => Stop::KeeperFault,
        Keep::NoMemory(short) => Stop::NoMemory(short),
    }
}
