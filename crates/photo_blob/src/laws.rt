// What holds of all blobs.
ghost use Rattle.photo_blob.specs.BlobLaws.{OneBlob, OneFile};

/// A file has one blob, and a blob is that of one file.
pub fn a_file_has_one_blob()
    ensures blob { OneBlob }
    ensures file { OneFile }
{}
