// The blob of a file, and its key.
ghost use Rattle.std.specs.Prelude.{◌≡◌, ◌≤◌, ◌∷◌, length, IfOk};
ghost use Rattle.sha2.specs.Sha256.{sha256};
ghost use Rattle.container_spec.specs.Limits.{most_of_a_file};
ghost use Rattle.photo_blob.specs.Blobs.{IsBlobOf};

use allocation::{NoMemory, extend_from_slice, push};
use blob_store::Key;
use lepton_encode::{EncodeError, encode};
use photo_blob::{CONTAINER, PLAIN};
use sha2::{Digest, Sha256};
use std::alloc::Global;
use std::thread::Threads;

// How many segments `encode` is asked for at most. So each scan has one.
const SEGMENTS: u8 = 1;

/// Makes the blob of a file. The one error is out of memory.
pub(crate) fn make_blob<R: Threads + Sync>(
    rt: &R,
    alloc: Global,
    file: &[u8],
) -> Result<Vec<u8>, NoMemory>
    requires { length file.now ≤ most_of_a_file }
    ensures { IfOk result (λ blob. IsBlobOf blob.items file.now) }
{
    match encode(rt, alloc, file, SEGMENTS) {
        Ok(made) => marked(alloc, CONTAINER, &made),
        Err(EncodeError::NoMemory(short)) => Err(short),
        Err(EncodeError::Header(_)) => marked(alloc, PLAIN, file),
        Err(EncodeError::Scan(_)) => marked(alloc, PLAIN, file),
    }
}

// A mark, and these bytes after it.
fn marked(alloc: Global, mark: u8, bytes: &[u8]) -> Result<Vec<u8>, NoMemory>
    ensures { IfOk result (λ blob. blob.items ≡ mark ∷ bytes.now) }
{
    let mut blob = Vec::new(alloc);
    push(&mut blob, mark)?;
    extend_from_slice(&mut blob, bytes)?;
    Ok(blob)
}

/// Returns the key of a file: the SHA-256 of its bytes.
pub fn key_of(file: &[u8]) -> Key
    ensures { result ≡ sha256 file.now }
{
    Sha256::digest(file)
}
