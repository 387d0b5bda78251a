// What holds of every store of photos.
ghost use Rattle.photo_store.specs.FileLaws.{JournalIsARun};

/// The journal of a store, read with the keeper's blobs, is a run of a map from keys to files.
pub fn a_journal_is_a_run_of_files()
    ensures { JournalIsARun }
{}
