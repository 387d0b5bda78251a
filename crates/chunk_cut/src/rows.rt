// The rows of a file that a chunk's bytes come of.
ghost use Rattle.std.specs.Prelude.{◌≡◌, ◌≤◌, ◌-◌, IfOk, length};
ghost use Rattle.chunk_cut.specs.Found.{chunk_found, handovers_found};

use allocation::{NoMemory, push, with_capacity};
use box_format::Chunk;
use byte_window::{Places, parts_within, window_within};
use handover::Handover;
use jpeg_marker::Plan;
use segment_code::{Starts, row_of};
use std::alloc::Global;

// Where a file's rows begin.
#[derive(Drop)]
struct RowPlaces<'a> {
    starts: &'a Starts,
}

impl<'a> Places for RowPlaces<'a> {
    ghost use Rattle.std.specs.Prelude.{length};
    ghost use Rattle.chunk_cut.specs.Found.{place_of};

    ghost count = { λ rows. length rows.starts.now.rows };

    ghost place = { λ rows. place_of rows.starts.now };

    fn count(&self) -> u32 {
        self.starts.segments()
    }

    fn place(&self, part: u32) -> u64 {
        let place = if part < self.starts.segments() {
            self.starts.place(part)
        } else {
            self.starts.trailer()
        };
        place as u64
    }
}

/// The chunk of a file's bytes from place `from` to before place `to`, by the starts of all rows.
pub(crate) fn chunk_between(starts: &Starts, from: usize, to: usize) -> Chunk
    requires { from ≤ to }
    ensures { result ≡ chunk_found starts.now from to }
{
    let places = RowPlaces { starts };
    let (from, to) = (from as u64, to as u64);
    let rows = parts_within(&places, from, to);
    Chunk {
        place: from,
        length: to - from,
        skip: window_within(&places, rows, from, to).skip,
        from: rows.0,
        to: rows.1,
    }
}

/// What each of `count` segments of a chunk starts from.
pub(crate) fn handovers_of(
    alloc: Global,
    plan: &Plan,
    starts: &Starts,
    chunk: Chunk,
    count: u32,
) -> Result<Vec<Handover>, NoMemory>
    requires order { chunk.from ≤ chunk.to }
    requires grid { chunk.to ≤ plan.now.down }
    requires rows { count ≤ chunk.to - chunk.from }
    requires starts { length starts.now.rows ≡ plan.now.down }
    ensures { IfOk result (λ handovers. handovers.items
        ≡ handovers_found plan.now starts.now chunk count) }
{
    let mut handovers = with_capacity(alloc, count as usize)?;
    for segment in 0..count {
        let row = row_of(plan, Some(chunk), count, segment);
        push(&mut handovers, starts.handover(row))?;
    }
    Ok(handovers)
}
