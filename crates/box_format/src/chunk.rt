// Which part of a file a container has.
ghost use Rattle.std.specs.Prelude.{◌≡◌};
ghost use Rattle.box_format.specs.Parts.{box_rows};

use jpeg_marker::Plan;

/// A chunk of a file: which of its bytes, and the rows of MCUs that they come of.
#[derive(Clone, Copy, Debug, PartialEq, Eq)]
pub struct Chunk {
    /// The place in the file of the chunk's first byte.
    pub place: u64,
    /// How many bytes the chunk has.
    pub length: u64,
    /// How many bytes of its first row come before it.
    pub skip: u64,
    /// Its first row.
    pub from: u32,
    /// The row after its last one.
    pub to: u32,
}

/// The first row of a container, and the row after its last: those of the chunk if it has one, else of the grid.
pub fn rows_of(plan: &Plan, chunk: Option<Chunk>) -> (u32, u32)
    ensures from { result.0 ≡ (box_rows plan.now chunk).from }
    ensures to { result.1 ≡ (box_rows plan.now chunk).to }
{
    match chunk {
        Some(chunk) => (chunk.from, chunk.to),
        None => (0, plan.down()),
    }
}
