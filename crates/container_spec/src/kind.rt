// What a portion is of.
use box_format::Chunk;

/// What a portion is of: the file of a container, a chunk or a range. It says what is looked at after the last segment.
#[derive(Clone, Copy, Debug, PartialEq, Eq)]
pub enum Kind {
    /// The file: whether the pad bits of each scan are spelled as a file's.
    File,
    /// A chunk: whether none of its bytes is missing.
    Chunk(Chunk),
    /// A range: nothing.
    Range,
}
