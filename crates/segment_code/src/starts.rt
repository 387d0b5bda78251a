// Where a file's segments start.
ghost use Rattle.std.specs.Prelude.{◌≡◌, ◌^◌, ◌+◌, ◌<◌, length, get_or, OnOk};
ghost use Rattle.handover.specs.Handovers.{start};
ghost use Rattle.scan_spec.specs.Pads.{pads_given, spelling_of};
ghost use Rattle.segment_code.specs.StartsInside.{no_starts, starts_more};

use crate::pads::PadsFound;
use allocation::{NoMemory, push};
use handover::{Handover, PadSum};
use scan_spec::Pads;
use std::alloc::Global;
use std::marker::Model;

/// Where a file's segments start: of each its row of MCUs, the place of its first byte that the MCUs before don't
/// complete, and its handover; and the file's pad bits and the place of its trailer.
///
/// Clauses see `StartsFields`.
#[derive(Drop)]
pub struct Starts {
    rows: Vec<u32>,
    places: Vec<usize>,
    handovers: Vec<Handover>,
    // The pad list, if the intervals come to both bits.
    list: Vec<u8>,
    // What the intervals come to.
    sum: PadSum,
    trailer: usize,
}

impl Model for Starts {
    ghost use Rattle.segment_code.specs.FileStarts.{StartsFields};
    ghost use Rattle.segment_code.specs.StartsInside.{starts_in, IsStarts};

    ghost Value = { StartsFields };

    ghost view = { starts_in };

    ghost invariant = { IsStarts };
}

impl Starts {
    /// Of no segment yet.
    pub(crate) fn none(alloc: Global) -> Starts
        ensures { result ≡ no_starts }
    {
        Starts {
            rows: Vec::new(alloc),
            places: Vec::new(alloc),
            handovers: Vec::new(alloc),
            list: Vec::new(alloc),
            sum: PadSum::none(),
            trailer: 0,
        }
    }

    /// Adds where the next segment starts. The one error is out of memory.
    pub(crate) fn push(
        &mut self,
        row: u32,
        place: usize,
        handover: Handover,
    ) -> Result<(), NoMemory>
        requires { length self.old.rows + 1 < 2 ^ 32 }
        ensures { OnOk result (self.new ≡ starts_more self.old row place handover) }
    {
        push(&mut self.handovers, handover)?;
        push(&mut self.places, place)?;
        push(&mut self.rows, row)?;
        Ok(())
    }

    /// Sets the pad bits, and the place of the trailer. The one error is out of memory.
    pub(crate) fn end(&mut self, pads: PadsFound, trailer: usize) -> Result<(), NoMemory>
        ensures { OnOk result (self.new
            ≡ record self.old { pads = spelling_of pads.bits pads.sum; trailer = trailer }) }
    {
        self.sum = pads.sum();
        self.list = pads.list()?;
        self.trailer = trailer;
        Ok(())
    }

    /// How many segments there are.
    pub fn segments(&self) -> u32
        ensures { result ≡ length self.now.rows }
    {
        self.rows.len() as u32
    }

    /// The row of MCUs that a segment starts with.
    pub fn row(&self, segment: u32) -> u32
        requires { segment < length self.now.rows }
        ensures { result ≡ get_or self.now.rows segment 0 }
    {
        self.rows[segment as usize]
    }

    /// The place of the first byte of a segment that the MCUs before it don't complete.
    pub fn place(&self, segment: u32) -> usize
        requires { segment < length self.now.rows }
        ensures { result ≡ get_or self.now.places segment 0 }
    {
        self.places[segment as usize]
    }

    /// What a segment starts from.
    pub fn handover(&self, segment: u32) -> Handover
        requires { segment < length self.now.rows }
        ensures { result ≡ get_or self.now.handovers segment start }
    {
        self.handovers[segment as usize]
    }

    /// What each segment starts from, in their order.
    pub fn handovers(&self) -> &[Handover]
        ensures { result.now ≡ self.now.handovers }
    {
        &self.handovers
    }

    /// The bits that fill up the last byte of each interval of the scan: a list if two intervals pad with different
    /// bits, else the one bit; 1 if no bit is padded.
    pub fn pad(&self) -> Pads<'_>
        ensures { pads_given result ≡ self.now.pads }
    {
        Pads::told(&self.list, &self.sum)
    }

    /// The place after the scan, where the file's trailer starts.
    pub fn trailer(&self) -> usize
        ensures { result ≡ self.now.trailer }
    {
        self.trailer
    }
}
