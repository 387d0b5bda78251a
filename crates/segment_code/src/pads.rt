// The pad bits that a pass over a scan finds.
ghost use Rattle.std.specs.Prelude.{◌≡◌, ◌++◌, [], ◌∷◌, unwrap_or, true, IfOk, OnOk};
ghost use Rattle.handover.specs.PadSums.{pads_with};
ghost use Rattle.segment_code.specs.FoundPads.{none_found};
ghost use Rattle.scan_spec.specs.Pads.{pad_list};
ghost use Rattle.scan_spec.specs.ScanPads.{pad_sum};

use allocation::{NoMemory, push, with_capacity};
use handover::PadSum;
use jpeg_marker::Plan;
use std::alloc::Global;
use std::marker::Model;

/// The pad bits of the restart intervals of a scan so far, one bit of memory each, and what they come to.
///
/// Clauses see `FoundPads`.
#[derive(Drop)]
pub(crate) struct PadsFound {
    // The whole bytes of the list, the first interval's bit the highest.
    bytes: Vec<u8>,
    // The bits after them as a number.
    begun: u8,
    // How many these are.
    count: u8,
    sum: PadSum,
}

impl Model for PadsFound {
    ghost use Rattle.segment_code.specs.FoundPads.{FoundPads};
    ghost use Rattle.segment_code.specs.PadsInside.{pads_in, IsPads};

    ghost Value = { FoundPads };

    ghost view = { pads_in };

    ghost invariant = { IsPads };
}

impl PadsFound {
    /// Of no interval yet.
    pub(crate) fn none(alloc: Global) -> PadsFound
        ensures { result ≡ none_found }
    {
        PadsFound {
            bytes: Vec::new(alloc),
            begun: 0,
            count: 0,
            sum: PadSum::none(),
        }
    }

    /// Of no interval yet, with room for the bits of the intervals that `mcus` MCUs of a scan end. The one error is out
    /// of memory.
    pub(crate) fn with_room(alloc: Global, plan: &Plan, mcus: u32) -> Result<PadsFound, NoMemory>
        ensures { IfOk result (λ pads. pads ≡ none_found) }
    {
        let interval = u32::from(plan.interval());
        let intervals = if interval == 0 { 0 } else { mcus / interval };
        Ok(PadsFound {
            bytes: with_capacity(alloc, intervals as usize / 8 + 1)?,
            begun: 0,
            count: 0,
            sum: PadSum::none(),
        })
    }

    /// Adds the pad bit of the next interval, which is 1 if that pads none. The one error is out of memory.
    pub(crate) fn push(&mut self, pad: Option<bool>) -> Result<(), NoMemory>
        ensures bits { OnOk result (self.new.bits ≡ self.old.bits ++ unwrap_or pad true ∷ []) }
        ensures sum { OnOk result (self.new.sum ≡ pads_with self.old.sum (pad_sum pad)) }
    {
        let begun = self.begun * 2 + u8::from(pad.unwrap_or(true));
        if self.count == 7 {
            push(&mut self.bytes, begun)?;
            self.begun = 0;
            self.count = 0;
        } else {
            self.begun = begun;
            self.count += 1;
        }
        self.sum = self.sum.with(&sum_of(pad));
        Ok(())
    }

    /// What they come to.
    pub(crate) fn sum(&self) -> PadSum
        ensures { result ≡ self.now.sum }
    {
        self.sum
    }

    /// The pad list. The one error is out of memory.
    pub(crate) fn list(mut self) -> Result<Vec<u8>, NoMemory>
        ensures { IfOk result (λ list. list.items ≡ pad_list self.bits) }
    {
        if self.count > 0 {
            push(&mut self.bytes, self.begun << (8 - self.count))?;
        }
        Ok(self.bytes)
    }
}

// What an interval comes to that pads this bit, or none.
fn sum_of(pad: Option<bool>) -> PadSum
    ensures { result ≡ pad_sum pad }
{
    PadSum {
        zero: pad == Some(false),
        one: pad == Some(true),
        vain: false,
    }
}
