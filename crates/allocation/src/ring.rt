// Rings of `circular_buffer`.
ghost use Rattle.std.specs.Prelude.{◌≡◌, ◌*◌, ◌<◌, ◌≤◌, [], IfOk};
ghost use Rattle.std.specs.Mem.{type_size};
ghost use Rattle.circular_buffer.specs.Buffer.{buffer};
ghost use Rattle.allocation.specs.Bounds.{most_at_once};

use crate::no_memory::NoMemory;
use circular_buffer::HeapCircularBuffer;
use std::alloc::Global;

/// An empty ring that holds at most `capacity` items, and at most 256 GiB.
pub fn ring_with_capacity<T>(
    alloc: Global,
    capacity: usize,
) -> Result<HeapCircularBuffer<T>, NoMemory>
    requires sized { 0 < type_size T.row }
    requires few { capacity * type_size T.row ≤ most_at_once }
    ensures { IfOk result (λ ring. ring ≡ buffer [] capacity) }
{
    match HeapCircularBuffer::with_capacity(alloc, capacity) {
        Ok(ring) => Ok(ring),
        Err(_) => Err(NoMemory::new()),
    }
}
