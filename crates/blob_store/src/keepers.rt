// Keepers in memory.
ghost use Rattle.std.specs.Prelude.{◌≡◌, ◌+◌, [], true, false};
ghost use Rattle.blob_store.specs.Keepers.{new_fake};

use crate::keeper::{Keep, Keeper};
use allocation::{from_slice, push};
use std::alloc::Global;
use std::marker::Model;

/// Keeps blobs in memory, and never fails. Clauses see the blobs.
#[derive(Drop)]
pub struct VecKeeper {
    blobs: Vec<Vec<u8>>,
    alloc: Global,
}

impl Model for VecKeeper {
    ghost use Rattle.std.specs.Prelude.{ℕ, List, map};

    ghost Value = { List (List ℕ) };

    ghost view = { λ k. map (λ b. b.items) k.blobs.items };

    ghost invariant = { λ k. Unit {0} };
}

impl VecKeeper {
    /// Makes a keeper that holds no blob.
    pub fn new(alloc: Global) -> VecKeeper
        ensures { result ≡ [] }
    {
        VecKeeper {
            blobs: Vec::new(alloc),
            alloc,
        }
    }
}

impl Keeper for VecKeeper {
    ghost blobs = { λ k. k };

    ghost fault_count = { λ k. 0 };

    fn append(&mut self, blob: &[u8]) -> Result<(), Keep> {
        let copy = match from_slice(self.alloc, blob) {
            Ok(copy) => copy,
            Err(short) => return Err(Keep::NoMemory(short)),
        };
        match push(&mut self.blobs, copy) {
            Ok(()) => Ok(()),
            Err(short) => Err(Keep::NoMemory(short)),
        }
    }

    fn read(&mut self, number: u32) -> Result<Vec<u8>, Keep> {
        match from_slice(self.alloc, self.blobs[number as usize].as_slice()) {
            Ok(copy) => Ok(copy),
            Err(short) => Err(Keep::NoMemory(short)),
        }
    }

    fn faults(&self) -> u64 {
        0
    }
}

/// Keeps blobs in memory, and fails at the calls of `append` and `read` with given numbers, counted from 1: for tests.
/// Clauses see a `FakeState`; that a call fails because of its number is not proved.
#[derive(Drop)]
pub struct FakeKeeper {
    kept: VecKeeper,
    fails: Vec<u64>,
    calls: u64,
    faults: u64,
}

impl Model for FakeKeeper {
    ghost use Rattle.std.specs.Prelude.{◌≤◌};
    ghost use Rattle.blob_store.specs.Keepers.{FakeState};

    ghost Value = { FakeState };

    ghost view = { λ k. record {
      blobs = k.kept;
      fails = k.fails.items;
      calls = k.calls;
      faults = k.faults;
    } };

    ghost invariant = { λ k. k.faults ≤ k.calls };
}

impl FakeKeeper {
    /// Makes a keeper that holds no blob, and fails at the calls with these numbers.
    pub fn new(alloc: Global, fails: Vec<u64>) -> FakeKeeper
        ensures { result ≡ new_fake fails.items }
    {
        FakeKeeper {
            kept: VecKeeper::new(alloc),
            fails,
            calls: 0,
            faults: 0,
        }
    }

    // Counts a call, and returns whether it fails. After 2^64 - 1 calls none is counted, and none fails.
    fn fails_now(&mut self) -> bool
        ensures fails { result ≡ true → self.new ≡ record self.old {
          calls = self.old.calls + 1;
          faults = self.old.faults + 1;
        } }
        ensures works { result ≡ false → self.new ≡ record self.old { calls = self.new.calls } }
    {
        if self.calls == u64::MAX {
            return false;
        }
        self.calls += 1;
        let fails = self.fails.contains(&self.calls);
        if fails {
            self.faults += 1;
        }
        fails
    }
}

impl Keeper for FakeKeeper {
    ghost blobs = { λ k. k.blobs };

    ghost fault_count = { λ k. k.faults };

    fn append(&mut self, blob: &[u8]) -> Result<(), Keep> {
        if self.fails_now() {
            return Err(Keep::Failed);
        }
        self.kept.append(blob)
    }

    fn read(&mut self, number: u32) -> Result<Vec<u8>, Keep> {
        if self.fails_now() {
            return Err(Keep::Failed);
        }
        self.kept.read(number)
    }

    fn faults(&self) -> u64 {
        self.faults
    }
}
