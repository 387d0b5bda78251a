// The bytes of a segment that wait.
ghost use Rattle.std.specs.Prelude.{◌≡◌, ◌+◌, ◌-◌, ◌≤◌, [], ◌++◌, IfOk, length, min, take, drop};
ghost use Rattle.board_core.specs.RingBytes.{ring_bytes};

use allocation::{NoMemory, ring_with_capacity};
use circular_buffer::HeapCircularBuffer;
use std::alloc::Global;
use std::marker::Model;

// Bytes in the order in which they were put, in memory allocated by `new`. Clauses see the bytes and the capacity.
#[derive(Drop)]
pub(crate) struct Ring {
    bytes: HeapCircularBuffer<u8>,
}

impl Model for Ring {
    ghost use Rattle.board_core.specs.RingBytes.{RingBytes, ring_bytes};
    ghost use Rattle.std.specs.Prelude.{◌≤◌, length};

    ghost Value = { RingBytes };

    ghost view = { λ r. ring_bytes r.bytes.items r.bytes.capacity };

    ghost invariant = { λ r. length r.bytes.items ≤ r.bytes.capacity };
}

impl Ring {
    // An empty ring.
    pub(crate) fn new(alloc: Global, capacity: u32) -> Result<Ring, NoMemory>
        ensures { IfOk result (λ r. r ≡ ring_bytes [] capacity) }
    {
        let bytes = ring_with_capacity(alloc, capacity as usize)?;
        Ok(Ring { bytes })
    }

    // How many bytes wait.
    pub(crate) fn len(&self) -> usize
        ensures length { result ≡ length self.now.items }
        ensures room { result ≤ self.now.capacity }
    {
        self.bytes.len()
    }

    // How many bytes may wait.
    pub(crate) fn capacity(&self) -> usize
        ensures { result ≡ self.now.capacity }
    {
        self.bytes.capacity()
    }

    // Puts bytes at the end.
    pub(crate) fn append(&mut self, more: &[u8])
        requires { length self.old.items + length more.now ≤ self.old.capacity }
        ensures { self.new ≡ ring_bytes (self.old.items ++ more.now) self.old.capacity }
    {
        self.bytes.fill_from_slice(more);
    }

    // Drops the first bytes.
    pub(crate) fn remove_front(&mut self, count: usize)
        requires { count ≤ length self.old.items }
        ensures { self.new ≡ ring_bytes (drop count self.old.items) self.old.capacity }
    {
        self.bytes.truncate_front(self.bytes.len() - count);
    }

    // Copies the first bytes, as many as `buf` has room for.
    pub(crate) fn copy_front(&self, buf: &mut [u8]) -> usize
        ensures count { result ≡ min (length buf.old) (length self.now.items) }
        ensures copied { buf.new ≡ take result self.now.items ++ drop result buf.old }
    {
        let (first, second) = self.bytes.as_slices();
        let split = copy_at(buf, 0, first);
        let more = copy_at(buf, split, second);
        split + more
    }
}

// Copies bytes to an index of `buf`, as many as there is room for.
fn copy_at(buf: &mut [u8], at: usize, bytes: &[u8]) -> usize
    requires { at ≤ length buf.old }
    ensures count { result ≡ min (length buf.old - at) (length bytes.now) }
    ensures copied { buf.new
        ≡ take at buf.old ++ (take result bytes.now ++ drop (at + result) buf.old) }
{
    let count = (buf.len() - at).min(bytes.len());
    buf[at..at + count].copy_from_slice(&bytes[..count]);
    count
}
