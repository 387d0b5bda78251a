// A scan, MCU by MCU.
ghost use Rattle.std.specs.Prelude.{◌≡◌, ◌+◌, ◌*◌, ◌<◌, ◌≤◌, ◌==◌, ◌++◌, [], true, length};
ghost use Rattle.bit_list.specs.Bits.{bytes_after, padding, stuffed};
ghost use Rattle.bit_list.specs.Pieces.{piece_room};
ghost use Rattle.huff_table.specs.ComponentTables.{codes_of};
ghost use Rattle.handover.specs.PadSums.{pads_with};
ghost use Rattle.scan_spec.specs.Pads.{pads_given, bit_for, interval_sum, is_long_for};
ghost use Rattle.scan_spec.specs.ScanCalls.{McuIsPut, writer_of};
ghost use Rattle.scan_spec.specs.Scans.{no_dcs};
ghost use Rattle.scan_spec.specs.ShapeInside.{most_slots};
ghost use Rattle.scan_spec.specs.Slots.{shape_of};
ghost use Rattle.scan_spec.specs.Spots.{interval_number, marker_after};
ghost use Rattle.scan_spec.specs.TextBounds.{mcu_room};
ghost use Rattle.cut_spec.specs.HandedOver.{writer_from};
ghost use Rattle.cut_spec.specs.RowHandovers.{handover_of, markers_before};
ghost use Rattle.scan_write.specs.WriterInside.{McuIsTried};

use crate::blocks::blocks;
use crate::pads::restart;
use bit_list::{BitBuffer, BitOut, Piece};
use coef_block::Block;
use handover::{Handover, PadSum};
use huff_table::PlanCodes;
use jpeg_marker::Plan;
use scan_spec::{Pads, ScanShape, WriteStop};
use std::marker::Model;

/// How many free bytes of a piece are enough for any MCU.
pub fn mcu_room() -> usize
    ensures { result ≡ mcu_room }
{
    4_168
}

/// A scan that is written MCU by MCU (ITU-T T.81, F.1.2). It keeps the first stop, and allocates nothing.
///
/// Clauses see the scan's shape, its pad bits, the spot after the last MCU, what was padded, and the stop.
#[derive(Drop)]
pub struct Writer<'a> {
    shape: ScanShape,
    pads: Pads<'a>,
    output: BitOut,
    // The last DC of each component in this interval.
    before: [i16; 4],
    // How many MCUs were written.
    count: u32,
    padded: PadSum,
    stop: Option<WriteStop>,
}

impl<'a> Model for Writer<'a> {
    ghost use Rattle.scan_spec.specs.ScanCalls.{ScanWriter};
    ghost use Rattle.scan_write.specs.WriterInside.{writer_in, IsWriter};

    ghost Value = { ScanWriter };

    ghost view = { writer_in };

    ghost invariant = { IsWriter };
}

impl<'a> Writer<'a> {
    /// Before the first MCU of a plan's scan. `pads` are the bits that fill up the last byte of each interval.
    pub fn start(plan: &Plan, codes: PlanCodes, pads: Pads<'a>) -> Self
        requires codes { codes ≡ codes_of plan.now.components }
        requires pads { is_long_for (shape_of plan.now) (pads_given pads) ≡ true }
        ensures { result ≡ writer_of (shape_of plan.now) (pads_given pads.entry) }
    {
        Writer {
            shape: ScanShape::of(plan, codes),
            pads,
            output: BitOut::at(0, 0),
            before: [0; 4],
            count: 0,
            padded: PadSum::none(),
            stop: None,
        }
    }

    /// Begins the same scan anew at the first MCU of a row of MCUs, given what the MCUs before it hand over: the row is
    /// one of the grid, from 0. `pads` are the bits that fill up the last byte of each interval of the scan. The code
    /// words stay, so that nothing is allocated.
    pub fn move_to(&mut self, plan: &Plan, handover: Handover, row: u32, pads: Pads<'a>)
        requires shape { self.old.shape ≡ shape_of plan.now }
        requires row { row < plan.now.down }
        requires restarts { handover.restarts
            ≡ markers_before (shape_of plan.now) (plan.now.across * row) }
        requires pads { is_long_for (shape_of plan.now) (pads_given pads) ≡ true }
        ensures { self.new
            ≡ writer_from (shape_of plan.now) (pads_given pads.entry) handover (plan.now.across * row) }
    {
        self.pads = pads;
        self.output = BitOut::at(handover.partial(), handover.bits());
        self.before = handover.preds();
        self.count = plan.across() * row;
        self.padded = PadSum::none();
        self.stop = None;
    }

    /// What the MCUs so far hand over.
    pub fn handover(&self) -> Handover
        ensures { result ≡ handover_of self.now.shape self.now.spot }
    {
        let (partial, bits) = self.output.partial();
        let last = self.shape.mcus().saturating_sub(1);
        let restarts = self.shape.interval_number(self.count.min(last));
        Handover::new(partial, bits, self.before, restarts)
    }

    /// Appends the bytes of the next MCU, given its blocks in their order (A.2.3): those that its bits complete, and
    /// if an interval or the scan ends, the padded byte, and the marker, if another interval follows. An MCU that
    /// has no bits is stopped by the first cause in writing order: then none of its bytes are there, and that stop is
    /// answered from then on.
    pub fn mcu(&mut self, blocks: &[Block], out: &mut Piece) -> Result<(), WriteStop>
        requires more { self.old.spot.count < self.old.shape.mcus }
        requires long { length blocks.now ≡ length self.old.shape.slots }
        requires room { length out.old + mcu_room ≤ piece_room }
        ensures { McuIsPut self.old.stop self.old blocks.now out.old result self.new out.new }
    {
        if let Some(stop) = self.stop {
            return Err(stop);
        }
        let len = out.len();
        match self.try_mcu(blocks, out) {
            Ok(()) => Ok(()),
            Err(stop) => {
                out.back_to(len);
                self.stop = Some(stop);
                Err(stop)
            }
        }
    }

    /// What the intervals that ended were padded with.
    pub fn padded(&self) -> PadSum
        ensures { result ≡ self.now.padded }
    {
        self.padded
    }

    /// Blocks of an MCU, at most ten.
    pub fn mcu_blocks(&self) -> usize
        ensures value { result ≡ length self.now.shape.slots }
        ensures few { result ≤ most_slots }
    {
        self.shape.blocks()
    }

    /// Whether each MCU was written.
    pub fn at_end(&self) -> bool
        ensures value { result ≡ (self.now.spot.count == self.now.shape.mcus) }
        ensures within { self.now.spot.count ≤ self.now.shape.mcus }
    {
        self.count == self.shape.mcus()
    }

    // Appends an MCU, or after a stop some bytes that don't count.
    fn try_mcu(&mut self, mcu: &[Block], out: &mut Piece) -> Result<(), WriteStop>
        requires more { self.old.spot.count < self.old.shape.mcus }
        requires long { length mcu.now ≡ length self.old.shape.slots }
        requires room { length out.old + mcu_room ≤ piece_room }
        ensures { McuIsTried self.old mcu.now out.old result self.new out.new }
    {
        let (codes, slots) = self.shape.slots();
        let mut before = self.before;
        let mut buffer = BitBuffer::of(self.output);
        let done = blocks(codes, slots, &mut before, mcu, &mut buffer, out);
        let output = buffer.begun(out);
        done?;
        self.before = before;
        self.output = output;
        if self.shape.is_closed(self.count + 1) {
            self.close(out);
            return Ok(());
        }
        self.count += 1;
        Ok(())
    }

    // Pads the last byte of an interval, and puts the marker after it, if another interval follows.
    fn close(&mut self, out: &mut Piece)
        requires more { self.old.spot.count < self.old.shape.mcus }
        requires room { length out.old + 4 ≤ piece_room }
        ensures bytes { out.new ≡ (out.old
            ++ stuffed (bytes_after self.old.spot.begun (padding self.old.spot.begun
            (bit_for self.old.pads (interval_number self.old.shape self.old.spot.count)))))
            ++ marker_after self.old.shape self.old.spot.count }
        ensures is { self.new ≡ record self.old {
          spot = record {
            begun = [];
            before = no_dcs;
            count = self.old.spot.count + 1;
          };
          padded =
              pads_with self.old.padded (interval_sum self.old.pads
              (interval_number self.old.shape self.old.spot.count)
              (length self.old.spot.begun == 0));
        } }
    {
        let number = self.shape.interval_number(self.count);
        let begun = self.output.pad(self.pads.bit(number), out);
        self.padded = self.padded.with(&self.pads.sum(number, !begun));
        if self.count + 1 != self.shape.mcus() {
            restart(number, &mut self.output, out);
        }
        self.before = [0; 4];
        self.count += 1;
    }
}
