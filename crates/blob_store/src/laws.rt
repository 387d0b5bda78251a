// What holds of every journal.
ghost use Rattle.blob_store.specs.StoreLaws.{KeptIsStoredLast, OneJournal};

use crate::rule::Form;

/// If a key has a blob after the entries of a journal, one of them stored that blob under it, and no later one stored
/// another under it or removed it.
pub fn what_a_key_has_was_stored_last()
    ensures { KeptIsStoredLast }
{}

/// The callers of a store share one journal and one list of blobs: what one caller knows of each is a prefix of what
/// another one knows, and each caller knows all entries of its own.
pub fn callers_share_one_journal<F: Form>()
    ensures { OneJournal F.suits }
{}
