// A blob's file.
ghost use Rattle.std.specs.Prelude.{◌≡◌, List, ℕ, IfOk};
ghost use Rattle.container_spec.specs.Meanings.{Restored};
ghost use Rattle.container_spec.specs.Portions.{StandsFor};
ghost use Rattle.photo_blob.specs.Blobs.{IsBlobOf};

use crate::grown::Grown;
use allocation::{NoMemory, from_slice};
use box_format::ReadError;
use lepton_decode::{prepare_alone, run_alone};
use outside_core::OpenGate;
use std::alloc::Global;

/// The first byte of a blob if the file follows it.
pub const PLAIN: u8 = 0;

/// The first byte of a blob if the file's container follows it.
pub const CONTAINER: u8 = 1;

/// Returns the file of a blob. It waits for nothing; its one error is out of memory.
pub fn show_blob(alloc: Global, blob: &[u8]) -> Result<Vec<u8>, NoMemory>
    requires blob { (file : List ℕ) × IsBlobOf blob.now file }
    ensures shown { (file : List ℕ) → IsBlobOf blob.now file
        → IfOk result (λ shown. shown.items ≡ file) }
{
    let (mark, rest) = match blob {
        [mark, rest @ ..] => (*mark, rest),
        [] => unreachable!(),
    };
    if mark == PLAIN {
        return from_slice(alloc, rest);
    }
    show_container(alloc, rest)
}

// The file that a container stands for.
fn show_container(alloc: Global, bytes: &[u8]) -> Result<Vec<u8>, NoMemory>
    requires stands { (file : List ℕ)
        × StandsFor bytes.now (record { bytes = file; verdict = Restored }) }
    ensures shown { (file : List ℕ) → StandsFor bytes.now (record { bytes = file; verdict = Restored })
        → IfOk result (λ shown. shown.items ≡ file) }
{
    let mut ready = match prepare_alone(alloc, bytes) {
        Ok(ready) => ready,
        Err(ReadError::NoMemory(short)) => return Err(short),
        Err(ReadError::Box(_)) => unreachable!(),
    };
    let mut grown = Grown::new(alloc);
    match run_alone(&mut ready, &mut grown, &OpenGate) {
        Ok(_) => Ok(grown.held),
        // Bytes that stand for a file have no fault, so a write failed.
        Err(_) => match grown.short {
            Some(short) => Err(short),
            None => unreachable!(),
        },
    }
}
