// Bytes on their way out, in memory that is allocated once.
ghost use Rattle.std.specs.Prelude.{◌≡◌, ◌+◌, ◌-◌, ◌<◌, ◌≤◌, [], ◌∷◌, ◌++◌, length, take, IfOk};
ghost use Rattle.std.specs.Int.{bytes_high_first};
ghost use Rattle.bit_list.specs.Pieces.{piece_room};

use allocation::{NoMemory, from_elem};
use std::alloc::Global;
use std::marker::Model;

/// How many bytes a piece has room for: `piece_room` in clauses. These are 32 KiB, and more than an MCU may have.
pub const ROOM: usize = 36_864;

// How many bytes the memory has after that room, so that eight bytes can be stored at the end of any piece.
const SPARE: usize = 8;

/// Up to `ROOM` bytes, in memory that is allocated once.
///
/// Clauses see the list of the bytes.
#[derive(Drop)]
pub struct Piece {
    room: Vec<u8>,
    // How many bytes of the room are used.
    used: usize,
}

impl Model for Piece {
    ghost use Rattle.std.specs.Prelude.{◌≡◌, ℕ, ◌+◌, ◌≤◌, List, length, take};
    ghost use Rattle.bit_list.specs.Pieces.{piece_room};

    ghost Value = { List ℕ };

    ghost view = { λ p. take p.used p.room.items };

    ghost invariant = { λ p. (length p.room.items ≡ piece_room + 8) × (p.used ≤ piece_room) };
}

impl Piece {
    /// No bytes yet. The one error is out of memory.
    pub fn new(alloc: Global) -> Result<Piece, NoMemory>
        ensures { IfOk result (λ p. p ≡ []) }
    {
        Ok(Piece {
            room: from_elem(alloc, 0, ROOM + SPARE)?,
            used: 0,
        })
    }

    /// How many bytes there are.
    #[inline]
    pub fn len(&self) -> usize
        ensures count { result ≡ length self.now }
        ensures within { length self.now ≤ piece_room }
    {
        self.used
    }

    /// How many more bytes there is room for.
    #[inline]
    pub fn free(&self) -> usize
        ensures count { result ≡ piece_room - length self.now }
        ensures within { length self.now ≤ piece_room }
    {
        ROOM - self.used
    }

    /// The bytes.
    #[inline]
    pub fn bytes(&self) -> &[u8]
        ensures bytes { result.now ≡ self.now }
        ensures within { length self.now ≤ piece_room }
    {
        &self.room[..self.used]
    }

    /// Drops all bytes.
    pub fn clear(&mut self)
        ensures { self.new ≡ [] }
    {
        self.used = 0;
    }

    /// Drops all bytes but the first ones.
    pub fn back_to(&mut self, len: usize)
        requires { len ≤ length self.old }
        ensures { self.new ≡ take len self.old }
    {
        self.used = len;
    }

    /// Appends a byte.
    #[inline(always)]
    pub fn push(&mut self, byte: u8)
        requires { length self.old < piece_room }
        ensures { self.new ≡ self.old ++ byte ∷ [] }
    {
        self.room[self.used] = byte;
        self.used += 1;
    }

    /// Appends bytes.
    pub fn extend_from_slice(&mut self, bytes: &[u8])
        requires { length self.old + length bytes.now ≤ piece_room }
        ensures { self.new ≡ self.old ++ bytes.now }
    {
        for byte in bytes {
            self.push(*byte);
        }
    }

    /// Appends the first `count` bytes of a number of eight, the highest first, by one store of all eight.
    #[inline(always)]
    pub(crate) fn push_first(&mut self, eight: u64, count: usize)
        requires few { count ≤ 8 }
        requires room { length self.old + count ≤ piece_room }
        ensures { self.new ≡ self.old ++ take count (bytes_high_first 8 eight) }
    {
        let end = self.used + SPARE;
        self.room[self.used..end].copy_from_slice(&eight.to_be_bytes());
        self.used += count;
    }
}
