// What keeps blobs.
ghost use Rattle.std.specs.Prelude.{◌≡◌, ℕ, ◌<◌, ◌≤◌, List, [], ◌∷◌, ◌++◌, length, Some, slice_get, IfOk, OnOk, OnErr, IsErrOf};
ghost use Rattle.blob_store.specs.States.{HasRisen};
ghost use Rattle.blob_store.specs.declared.keeper.Keep.TheVariants.{Failed};

use allocation::NoMemory;

/// Why a keeper didn't append or read a blob.
#[derive(Clone, Copy, Debug, PartialEq, Eq)]
pub enum Keep {
    /// It failed, which it counted if its count wasn't at 2^64 - 1.
    Failed,
    /// Out of memory.
    NoMemory(NoMemory),
}

/// Keeps blobs, which are numbered from 0 in the order in which they were appended, and loses none.
pub trait Keeper: Drop + Send {
    /// The blobs.
    ghost blobs: { Self → List (List ℕ) };

    /// How often it has failed. No call lowers it. If it is 2^64 - 1 it can't rise, and the keeper may fail even so.
    ghost fault_count: { Self → ℕ };

    /// Adds a blob after the others.
    fn append(&mut self, blob: &[u8]) -> Result<(), Keep>
        ensures appended { OnOk result (blobs self.new ≡ blobs self.old ++ blob.now ∷ []) }
        ensures stays { OnErr result (blobs self.new ≡ blobs self.old) }
        ensures failed { IsErrOf result Failed
            → HasRisen (fault_count self.old) (fault_count self.new) }
        ensures lasting { fault_count self.old ≤ fault_count self.new };

    /// Returns the blob with a number.
    fn read(&mut self, number: u32) -> Result<Vec<u8>, Keep>
        requires within { number < length (blobs self.old) }
        ensures given { IfOk result (λ blob. slice_get (blobs self.old) number ≡ Some blob.items) }
        ensures stays { blobs self.new ≡ blobs self.old }
        ensures failed { IsErrOf result Failed
            → HasRisen (fault_count self.old) (fault_count self.new) }
        ensures lasting { fault_count self.old ≤ fault_count self.new };

    /// Returns how often it has failed.
    fn faults(&self) -> u64
        ensures { result ≡ fault_count self.now };
}
