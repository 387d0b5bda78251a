// A scan, MCU by MCU.
ghost use Rattle.std.specs.Prelude.{◌≡◌, ◌+◌, ◌*◌, ◌<◌, ◌≤◌, ◌↔◌, ◌==◌, true, false, List, ℤ, length, map, IfErr, OnErr, OnOk, Some, Ok};
ghost use Rattle.scan_spec.specs.ScanCalls.{McuIsRead, reader_at, resume_place, stopped_at};
ghost use Rattle.scan_spec.specs.Slots.{shape_of};
ghost use Rattle.scan_spec.specs.Spots.{is_closed};
ghost use Rattle.scan_spec.specs.ShapeInside.{most_slots};
ghost use Rattle.huff_table.specs.ComponentTables.{codes_of};
ghost use Rattle.scan_spec.specs.ScanReading.{after_mcu, after_pads, and_then, mcu_at, mcus_at, pads_at};
ghost use Rattle.scan_spec.specs.BlockBits.{in_zigzag};
ghost use Rattle.scan_spec.specs.Scans.{no_dcs};
ghost use Rattle.cut_spec.specs.HandedOver.{reader_from, spot_in};
ghost use Rattle.cut_spec.specs.RowHandovers.{handover_of, markers_before};
ghost use Rattle.scan_decode.specs.ReadResults.{after_blocks, mcu_read, standing_read};
ghost use Rattle.scan_decode.specs.Excerpts.{IsExcerpt, Meets};

use crate::blocks::blocks;
use crate::byte_begun::{after_bits, byte_begun};
use crate::excerpt::{Excerpt, are_near, needed_from, sums};
use crate::pads::{pads, restart};
use crate::read_word::ReadWord;
use crate::skip::skip_blocks;
use crate::skip_word::SkipWord;
use bit_list::BitIn;
use coef_block::Block;
use handover::Handover;
use huff_table::PlanCodes;
use jpeg_marker::Plan;
use scan_spec::{ScanRefusal, ScanShape};
use std::alloc::Global;
use std::marker::Model;

/// A scan that is read MCU by MCU (ITU-T T.81, F.2.2). It keeps the first refusal. It asks for memory with the first
/// MCU that it reads and with the first that it skips, and needs none.
///
/// Clauses see the scan's shape, its bytes, where the reader is, and its refusal.
#[derive(Drop)]
pub struct Reader<'a> {
    shape: ScanShape,
    input: BitIn<'a>,
    bytes: &'a [u8],
    // The last DC of each component in this interval.
    before: [i16; 4],
    // How many MCUs were read.
    count: u32,
    // The pad bit of the interval that the last of them ended.
    pad: Option<bool>,
    stop: Option<ScanRefusal>,
    // What twelve bits skip of each component, made for the first MCU that is skipped.
    skips: Vec<Vec<SkipWord>>,
    // What ten bits read of each component, made for the first MCU that is read.
    reads: Vec<Vec<ReadWord>>,
}

impl<'a> Model for Reader<'a> {
    ghost use Rattle.scan_spec.specs.ScanCalls.{ScanReader};
    ghost use Rattle.scan_decode.specs.ReaderInside.{reader_of, IsReader};

    ghost Value = { ScanReader };

    ghost view = { reader_of };

    ghost invariant = { IsReader };
}

impl<'a> Reader<'a> {
    /// Before the first MCU of the scan at a place of these bytes.
    pub fn start(
        alloc: Global,
        plan: &Plan,
        codes: PlanCodes,
        bytes: &'a [u8],
        place: usize,
    ) -> Self
        requires { codes ≡ codes_of plan.now.components }
        ensures { result ≡ reader_at (shape_of plan.now) bytes.now place }
    {
        Reader {
            shape: ScanShape::of(plan, codes),
            input: BitIn::at(bytes, place, 0),
            bytes,
            before: [0; 4],
            count: 0,
            pad: None,
            stop: None,
            skips: Vec::new(alloc),
            reads: Vec::new(alloc),
        }
    }

    /// Before the first MCU of a row of MCUs. `place` is that of the first byte that the MCUs before don't complete,
    /// and `handover` is what they hand over (own).
    pub fn at(
        alloc: Global,
        plan: &Plan,
        codes: PlanCodes,
        bytes: &'a [u8],
        place: usize,
        handover: Handover,
        row: u32,
    ) -> Self
        requires codes { codes ≡ codes_of plan.now.components }
        requires row { row < plan.now.down }
        requires restarts { handover.restarts
            ≡ markers_before (shape_of plan.now) (plan.now.across * row) }
        ensures { result
            ≡ reader_from (shape_of plan.now) bytes.now handover (plan.now.across * row) place }
    {
        Reader {
            shape: ScanShape::of(plan, codes),
            input: after_bits(bytes, place, handover.bits()),
            bytes,
            before: handover.preds(),
            count: mcus_before(plan, row),
            pad: None,
            stop: None,
            skips: Vec::new(alloc),
            reads: Vec::new(alloc),
        }
    }

    /// Reads the next MCU into `out`, a block for each of its blocks (A.2.3), in natural order. Refused with the first
    /// item that is missing or wrong, by its place; that refusal is answered from then on, and the MCU isn't counted.
    /// On a refusal `out` holds nothing of worth.
    pub fn next_mcu(&mut self, out: &mut [Block]) -> Result<(), ScanRefusal>
        requires more { self.old.at.count < self.old.shape.mcus }
        requires room { length out.old ≡ length self.old.shape.slots }
        ensures { McuIsRead self.old.stop self.old result self.new out.new }
    {
        if let Some(refusal) = self.stop {
            return Err(refusal);
        }
        let read = self.mcu(out);
        self.keep(read)
    }

    /// Reads the next MCU and keeps none of its coefficients. It is refused exactly if `next_mcu` is, with the same
    /// refusal, and continues where that does.
    pub fn skip_mcu(&mut self) -> Result<(), ScanRefusal>
        requires more { self.old.at.count < self.old.shape.mcus }
        ensures { (blocks : List (List ℤ))
            × McuIsRead self.old.stop self.old result self.new blocks }
    {
        if let Some(refusal) = self.stop {
            return Err(refusal);
        }
        let read = self.mcu_skipped();
        self.keep(read)
    }

    /// Goes past the MCUs of an excerpt if it meets it, and answers whether it did. If not, nothing changes.
    pub fn skip_excerpt(&mut self, excerpt: &Excerpt<'a>) -> bool
        requires { IsExcerpt self.old.shape self.old.bytes excerpt.now }
        ensures past { Meets self.old excerpt.now → result ≡ true }
        ensures meets { result ≡ true → Meets self.old excerpt.now }
        ensures read { result ≡ true → ((mcus : List (List (List ℤ)))
            × (mcus_at excerpt.now.mcus self.old.shape self.old.bytes self.old.at
            ≡ Ok (mcus, self.new.at))) }
        ensures same { self.new ≡ record self.old { at = self.new.at } }
        ensures stays { result ≡ false → self.new ≡ self.old }
    {
        if !self.meets(excerpt) {
            return false;
        }
        self.before = sums(&self.before, &excerpt.change);
        self.input = excerpt.to.copied();
        self.count += excerpt.mcus;
        true
    }

    // Whether it is at the start of an excerpt, with MCUs left after it.
    fn meets(&self, excerpt: &Excerpt<'a>) -> bool
        ensures { result ≡ true ↔ Meets self.now excerpt.now }
    {
        self.input.is_at(&excerpt.from)
            && are_near(&self.before)
            && excerpt.mcus < self.shape.mcus() - self.count
            && self.pad.is_none()
            && self.stop.is_none()
    }

    /// Blocks of an MCU, at most ten.
    pub fn mcu_blocks(&self) -> usize
        ensures value { result ≡ length self.now.shape.slots }
        ensures few { result ≤ most_slots }
    {
        self.shape.blocks()
    }

    /// Whether each MCU was read.
    pub fn at_end(&self) -> bool
        ensures value { result ≡ (self.now.at.count == self.now.shape.mcus) }
        ensures within { self.now.at.count ≤ self.now.shape.mcus }
    {
        self.count == self.shape.mcus()
    }

    /// The place from which bytes are needed to continue: that of the unit whose bits were read in part, or else of
    /// the next one.
    pub fn place(&self) -> usize
        ensures { result ≡ resume_place self.now.at.cursor }
    {
        needed_from(&self.input)
    }

    /// Whether a restart interval or the scan ends after the MCUs that were read. Before the first one this is true if
    /// there are restarts.
    pub fn ends_interval(&self) -> bool
        ensures { result ≡ is_closed self.now.shape self.now.at.count }
    {
        self.shape.is_closed(self.count)
    }

    /// The pad bit of the interval that the last MCU ended; none where it ended no interval, or one that pads no bit.
    pub fn pad(&self) -> Option<bool>
        ensures { result ≡ self.now.at.pad }
    {
        self.pad
    }

    /// The place after the last byte that was read: after the last MCU, the place after the scan.
    pub fn end(&self) -> usize
        ensures { result ≡ self.now.at.cursor.next }
    {
        self.input.next_place()
    }

    /// What the MCUs that were read hand over (own).
    pub fn handover(&self) -> Handover
        ensures { result ≡ handover_of self.now.shape (spot_in self.now.bytes self.now.at) }
    {
        let (partial, bits) = byte_begun(self.bytes, &self.input);
        Handover::new(partial, bits, self.before, self.markers())
    }

    // How many restart markers were read: none follows the last MCU.
    fn markers(&self) -> u32
        ensures { result ≡ markers_before self.now.shape self.now.at.count }
    {
        let last = self.shape.mcus().saturating_sub(1);
        self.shape.interval_number(self.count.min(last))
    }

    // Reads an MCU, the pad bits and the marker after it.
    #[inline]
    fn mcu(&mut self, out: &mut [Block]) -> Result<(), ScanRefusal>
        requires more { self.old.at.count < self.old.shape.mcus }
        requires room { length out.old ≡ length self.old.shape.slots }
        ensures same { self.new ≡ record self.old { at = self.new.at } }
        ensures is { mcu_read result (map in_zigzag out.new) self.new.at
            ≡ mcu_at self.old.shape self.old.bytes self.old.at }
        ensures stays { OnErr result (self.new.at ≡ stopped_at self.old.at self.new.at) }
    {
        let (codes, slots) = self.shape.slots();
        blocks(
            &mut self.reads,
            codes,
            slots,
            &mut self.before,
            &mut self.input,
            out,
        )?;
        self.end_mcu()
    }

    // Keeps a refusal.
    #[inline]
    fn keep(&mut self, read: Result<(), ScanRefusal>) -> Result<(), ScanRefusal>
        ensures same { result ≡ read }
        ensures ok { OnOk read (self.new ≡ self.old) }
        ensures err { IfErr read (λ refusal. self.new ≡ record self.old { stop = Some refusal }) }
    {
        match read {
            Ok(()) => Ok(()),
            Err(refusal) => {
                self.stop = Some(refusal);
                Err(refusal)
            }
        }
    }

    // Reads an MCU, the pad bits and the marker after it, and keeps no coefficients.
    #[inline]
    fn mcu_skipped(&mut self) -> Result<(), ScanRefusal>
        requires { self.old.at.count < self.old.shape.mcus }
        ensures same { self.new ≡ record self.old { at = self.new.at } }
        ensures is { (read : List (List ℤ)) × (mcu_read result (map in_zigzag read) self.new.at
            ≡ mcu_at self.old.shape self.old.bytes self.old.at) }
        ensures stays { OnErr result (self.new.at ≡ stopped_at self.old.at self.new.at) }
    {
        let (codes, slots) = self.shape.slots();
        skip_blocks(
            &mut self.skips,
            codes,
            slots,
            &mut self.before,
            &mut self.input,
        )?;
        self.end_mcu()
    }

    // Counts an MCU whose blocks were read, and reads what follows if it ends an interval.
    #[inline(always)]
    fn end_mcu(&mut self) -> Result<(), ScanRefusal>
        requires { self.old.at.count < self.old.shape.mcus }
        ensures same { self.new ≡ record self.old { at = self.new.at } }
        ensures is { standing_read result self.new.at
            ≡ after_mcu self.old.shape self.old.bytes self.old.at (after_blocks self.old.at) }
        ensures stays { OnErr result (self.new.at ≡ stopped_at self.old.at self.new.at) }
    {
        if self.shape.is_closed(self.count + 1) {
            return self.close();
        }
        self.pad = None;
        self.count += 1;
        Ok(())
    }

    // The pad bits of an interval, and the marker after it, if another one follows.
    fn close(&mut self) -> Result<(), ScanRefusal>
        requires { self.old.at.count < self.old.shape.mcus }
        ensures same { self.new ≡ record self.old { at = self.new.at } }
        ensures is { standing_read result self.new.at
            ≡ and_then (pads_at self.old.at.cursor)
            (after_pads self.old.shape self.old.bytes self.old.at.count) }
        ensures stays { OnErr result (self.new.at ≡ stopped_at self.old.at self.new.at) }
    {
        let last = self.input.place();
        let (number, count) = self.input.rest_of_byte();
        let pad = match pads(number, count) {
            Some(pad) => pad,
            None => return Err(ScanRefusal::MixedPad { place: last }),
        };
        if self.count + 1 == self.shape.mcus() {
            self.begin(pad);
            return Ok(());
        }
        let number = self.shape.interval_number(self.count);
        let place = restart(self.bytes, number, self.input.next_place())?;
        self.input = BitIn::at(self.bytes, place, 0);
        self.begin(pad);
        Ok(())
    }

    // Counts an MCU, and begins an interval.
    fn begin(&mut self, pad: Option<bool>)
        requires { self.old.at.count < self.old.shape.mcus }
        ensures { self.new ≡ record self.old {
          at = record self.old.at {
            before = no_dcs;
            count = self.old.at.count + 1;
            pad = pad;
          };
        } }
    {
        self.before = [0; 4];
        self.pad = pad;
        self.count += 1;
    }
}

// How many MCUs there are before a row of MCUs.
fn mcus_before(plan: &Plan, row: u32) -> u32
    requires { row < plan.now.down }
    ensures value { result ≡ plan.now.across * row }
    ensures within { result ≤ plan.now.across * plan.now.down }
{
    // What bounds the product.
    let _most = plan.mcus();
    plan.across() * row
}
