// A file that was found, and isn't shown yet.
ghost use Rattle.std.specs.Prelude.{◌≡◌, ℕ, List, IfOk, IfErr};
ghost use Rattle.photo_blob.specs.Blobs.{IsBlobOf};

use allocation::NoMemory;
use photo_blob::show_blob;
use std::alloc::Global;
use std::marker::Model;

/// A ticket for a file: its blob, as a find read it. Clauses see the blob.
#[derive(Drop)]
pub struct Ticket {
    pub(crate) blob: Vec<u8>,
}

impl Model for Ticket {
    ghost use Rattle.std.specs.Prelude.{ℕ, List};
    ghost use Rattle.photo_blob.specs.Blobs.{IsBlobOf};

    ghost Value = { List ℕ };

    ghost view = { λ t. t.blob.items };

    ghost invariant = { λ t. (file : List ℕ) × IsBlobOf t.blob.items file };
}

impl Ticket {
    /// The blob: a mark, and the file or its container.
    pub fn blob(&self) -> &[u8]
        ensures { result.now ≡ self.now }
    {
        self.blob.as_slice()
    }
}

/// Returns the ticket's file, or the ticket if memory is out. It holds no lock, and waits for nothing.
pub fn show(alloc: Global, ticket: Ticket) -> Result<Vec<u8>, (Ticket, NoMemory)>
    ensures shown { (file : List ℕ) → IsBlobOf ticket file
        → IfOk result (λ shown. shown.items ≡ file) }
    ensures back { IfErr result (λ back. back.0 ≡ ticket) }
{
    match show_blob(alloc, &ticket.blob) {
        Ok(file) => Ok(file),
        Err(short) => Err((ticket, short)),
    }
}
