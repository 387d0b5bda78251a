// Segments decoded one after another, each in steps.
ghost use Rattle.std.specs.Prelude.{◌≡◌, ◌+◌, ◌-◌, ◌*◌, ◌<◌, ◌≤◌, ◌^◌, ℕ, List, [], length, slice_get, bytes_eq, true, false, IfOk, OnOk};
ghost use Rattle.bit_list.specs.Pieces.{piece_room};
ghost use Rattle.scan_spec.specs.TextBounds.{mcu_room};
ghost use Rattle.handover.specs.declared.outcome.Outcome.{Outcome};
ghost use Rattle.box_format.specs.Versions.{most_segments};
ghost use Rattle.container_spec.specs.Meanings.{kept_in, segment_in};
ghost use Rattle.container_spec.specs.ScanStream.{grid_of, starts};
ghost use Rattle.container_spec.specs.SegmentLaws.{Suits};
ghost use Rattle.container_spec.specs.Segments.{Progress, SegmentFields, ending, first_progress, segment_output, with_place};
ghost use Rattle.scan_spec.specs.Pads.{is_long_for, pads_given};
ghost use Rattle.scan_spec.specs.Slots.{shape_of};
ghost use Rattle.adapt_bins.specs.GotEvents.{HasGot};
ghost use Rattle.cut_spec.specs.RowHandovers.{handover_of, markers_before};
ghost use Rattle.segment_code.specs.BegunSegments.{segment_with};
ghost use Rattle.handover.specs.HandoverBytes.{handover_bytes};
ghost use Rattle.segment_code.specs.DecodedPieces.{IsEnd, IsFilled, IsWithin, McuIsMade, ended_by, goes_on, misplaced_in, seam_in};
ghost use Rattle.segment_code.specs.DecoderInside.{IsBounded};
ghost use Rattle.segment_code.specs.Decoding.{Owes, Pays, StandsAt, Steps};
ghost use Rattle.segment_code.specs.declared.step.Step.TheVariants.{Fault};

use crate::causes::{read_cause, write_cause};
use crate::cuts::{mcus_in, row_of};
use crate::grid::grid_of;
use crate::step::Step;
use adapt_bins::{Bins, Get};
use allocation::NoMemory;
use bit_list::Piece;
use block_code::{SegmentRows, get_mcu};
use bool_coder::Decoder;
use box_format::BoxView;
use coef_block::Block;
use coef_context::BINS;
use handover::{Handover, StreamCause, StreamFault};
use huff_table::PlanCodes;
use jpeg_marker::Plan;
use scan_spec::{MOST_SLOTS, Pads};
use scan_write::{Writer, mcu_room};
use std::alloc::Global;
use std::marker::Model;

/// Decodes segments one after another, each in steps. It takes memory when it is made, and none after that: bins, two
/// MCU rows of blocks.
///
/// Clauses see `DecoderSeen`; a caller needs of it what the decoder owes, `Owes`.
#[derive(Drop)]
pub struct SegmentDecoder<'a> {
    plan: Plan,
    begun: u32,
    running: bool,
    number: u8,
    left: u32,
    next: Option<Handover>,
    // How many places are kept for its bytes, if any are.
    kept: Option<u64>,
    // How many of its bytes were given.
    given: u64,
    started: bool,
    coder: Get<'a>,
    segment: SegmentRows,
    writer: Writer<'a>,
}

impl<'a> Model for SegmentDecoder<'a> {
    ghost use Rattle.segment_code.specs.Decoding.{DecoderSeen};
    ghost use Rattle.segment_code.specs.DecoderInside.{decoder_of, IsDecoder};

    ghost Value = { DecoderSeen };

    ghost view = { decoder_of };

    ghost invariant = { IsDecoder };
}

impl<'a> SegmentDecoder<'a> {
    /// How many segments were begun.
    pub fn begun(&self) -> u32
        ensures { result ≡ self.now.begun }
    {
        self.begun
    }

    /// Takes all the memory that segments of the plan need; the one error is out of memory.
    pub fn prepare(alloc: Global, plan: &Plan) -> Result<SegmentDecoder<'a>, NoMemory>
        ensures plan { IfOk result (λ d. d.plan ≡ plan.now) }
        ensures begun { IfOk result (λ d. d.begun ≡ 0) }
    {
        let codes = PlanCodes::build(alloc, plan)?;
        let writer = Writer::start(plan, codes, Pads::All(false));
        let coder = Get::new(Bins::new(alloc, BINS)?, no_stream());
        let segment = SegmentRows::new(alloc, grid_of(plan))?;
        Ok(SegmentDecoder {
            plan: *plan,
            begun: 0,
            running: false,
            number: 0,
            left: 0,
            next: None,
            kept: None,
            given: 0,
            started: false,
            coder,
            segment,
            writer,
        })
    }

    /// Begins a segment of a container, whatever became of the one before; the first has number 0. It takes no memory.
    pub fn begin(&mut self, view: &BoxView<'a>, segment: u8)
        requires plan { view.now.plan ≡ self.old.plan }
        requires segment { segment < length view.now.parts.handovers }
        requires count { self.old.begun < 2 ^ 32 - 1 }
        ensures stands { let s = segment_in self.old.plan view.now.parts segment in
            StandsAt self.new s s.count (first_progress s) }
        ensures given { self.new.given ≡ 0 }
        ensures owes { let output = segment_output (segment_in self.old.plan view.now.parts segment) in
            Owes self.new output.0 output.1 }
        ensures running { self.new.running ≡ true }
        ensures few { self.new.left < 2 ^ 32 }
        ensures begun { self.new.begun ≡ self.old.begun + 1 }
        ensures plan { self.new.plan ≡ self.old.plan }
    {
        let plan = view.plan();
        let segments = view.segments();
        let stream = view.stream(segment);
        let handover = view.handover(segment);
        let chunk = view.chunk();
        let row = row_of(plan, chunk, segments as u32, segment as u32);
        let count = mcus_in(plan, chunk, segments as u32, segment as u32);
        let next = start_after(view, segment);
        let kept = kept_in(view, segment);
        let met = (next, kept);
        self.begin_at(segment, stream, handover, row, count, met, view.pad());
    }

    // Begins a segment, given its parts. At its end it meets the next segment's handover, and has as many bytes as
    // places are kept for it, if there are such.
    fn begin_at(
        &mut self,
        number: u8,
        stream: &'a [u8],
        handover: Handover,
        row: u32,
        count: u32,
        met: (Option<Handover>, Option<u64>),
        pads: Pads<'a>,
    )
        requires suits { Suits (shape_of self.old.plan) (grid_of self.old.plan) }
        requires row { row < self.old.plan.down }
        requires restarts { handover.restarts
            ≡ markers_before (shape_of self.old.plan) (self.old.plan.across * row) }
        requires some { 0 < count }
        requires within { self.old.plan.across * row + count
            ≤ self.old.plan.across * self.old.plan.down }
        requires begun { self.old.begun < 2 ^ 32 - 1 }
        requires pads { is_long_for (shape_of self.old.plan) (pads_given pads) ≡ true }
        ensures stands { let s = segment_with self.old.plan number stream.now handover row count met.0 met.1
            (pads_given pads.entry) in StandsAt self.new s count (first_progress s) }
        ensures given { self.new.given ≡ 0 }
        ensures few { self.new.left < 2 ^ 32 }
        ensures begun { self.new.begun ≡ self.old.begun + 1 }
        ensures plan { self.new.plan ≡ self.old.plan }
    {
        self.writer.move_to(&self.plan, handover, row, pads);
        self.segment.restart();
        self.started = open(&mut self.coder, stream);
        self.number = number;
        self.left = count;
        (self.next, self.kept) = met;
        self.given = 0;
        self.running = true;
        self.begun += 1;
    }

    /// Replaces `out` by the segment's next whole MCUs: as many as surely fit, and at least one if any is left. After
    /// `Done` and after `Fault` the segment is over; a fault comes after the bytes of the MCUs before it.
    pub fn step(&mut self, out: &mut Piece) -> Step
        requires running { self.old.running ≡ true }
        ensures step { Steps result out.new self.old self.new }
        ensures pays { (bytes : List ℕ) (outcome : Outcome) → Owes self.old bytes outcome
            → Pays result bytes outcome out.new self.old self.new }
        ensures begun { self.new.begun ≡ self.old.begun }
        ensures plan { self.new.plan ≡ self.old.plan }
    {
        out.clear();
        self.next_piece(out)
    }

    // The next piece, into an empty one.
    fn next_piece(&mut self, out: &mut Piece) -> Step
        requires empty { out.old ≡ [] }
        ensures step { Steps result out.new self.old self.new }
        ensures begun { self.new.begun ≡ self.old.begun }
        ensures plan { self.new.plan ≡ self.old.plan }
    {
        if !self.started {
            return self.fault(StreamCause::StreamBad);
        }
        if let Err(cause) = self.fill(out) {
            return self.fault(cause);
        }
        self.count(out.len());
        if self.is_over() {
            self.end()
        } else {
            Step::More
        }
    }

    // Counts bytes that are given.
    fn count(&mut self, bytes: usize)
        requires { IsBounded (self.old.given + bytes) self.old.left }
        ensures { self.new ≡ record self.old { given = self.old.given + bytes } }
    {
        self.given += bytes as u64;
    }

    // Whether the last MCU was made.
    fn is_over(&self) -> bool
        ensures over { result ≡ true → self.now.left ≡ 0 }
        ensures some { result ≡ false → 0 < self.now.left }
    {
        self.left == 0
    }

    // Appends whole MCUs while one is left and any one has room.
    fn fill(&mut self, out: &mut Piece) -> Result<(), StreamCause>
        requires empty { out.old ≡ [] }
        ensures filled { (s : SegmentFields) (left : ℕ) (at : Progress)
            → IsWithin self.old s left at → IsFilled result s left at out.new self.new }
        ensures all { OnOk result (goes_on self.new.left out.new ≡ false) }
        ensures most { OnOk result (self.new.left ≤ self.old.left) }
        ensures fewer { OnOk result (0 < length out.new → self.new.left < self.old.left) }
        ensures given { self.new.given ≡ self.old.given }
        ensures number { self.new.number ≡ self.old.number }
        ensures begun { self.new.begun ≡ self.old.begun }
        ensures plan { self.new.plan ≡ self.old.plan }
    {
        while self.goes_on(out) {
            self.next_mcu(out)?;
        }
        Ok(())
    }

    // Whether one more MCU is to be made.
    fn goes_on(&self, out: &Piece) -> bool
        ensures value { result ≡ goes_on self.now.left out.now }
        ensures left { result ≡ true → 0 < self.now.left }
        ensures room { result ≡ true → length out.now + mcu_room ≤ piece_room }
    {
        self.left > 0 && out.free() >= mcu_room()
    }

    // Appends the next MCU's bytes.
    fn next_mcu(&mut self, out: &mut Piece) -> Result<(), StreamCause>
        requires left { 0 < self.old.left }
        requires room { length out.old + mcu_room ≤ piece_room }
        ensures made { (s : SegmentFields) (at : Progress) → IsWithin self.old s self.old.left at
            → McuIsMade s self.old.left at out.old result self.new out.new }
        ensures left { OnOk result (self.new.left + 1 ≡ self.old.left) }
        ensures given { self.new.given ≡ self.old.given }
        ensures number { self.new.number ≡ self.old.number }
        ensures begun { self.new.begun ≡ self.old.begun }
        ensures plan { self.new.plan ≡ self.old.plan }
    {
        let mut mcu = [Block::zero(); MOST_SLOTS];
        let count = self.writer.mcu_blocks();
        let blocks = &mut mcu[..count];
        if let Err(fault) = get_mcu(&mut self.coder, &mut self.segment, blocks) {
            return Err(read_cause(fault));
        }
        if let Err(stop) = self.writer.mcu(blocks, out) {
            return Err(write_cause(stop));
        }
        self.left -= 1;
        Ok(())
    }

    // After the last MCU.
    fn end(&mut self) -> Step
        ensures step { (s : SegmentFields) (at : Progress) → IsWithin self.old s 0 at
            → IsEnd result (with_place s self.old.given (ending s at)) }
        ensures running { self.new.running ≡ false }
        ensures begun { self.new.begun ≡ self.old.begun }
        ensures plan { self.new.plan ≡ self.old.plan }
    {
        match self.last_cause() {
            Some(cause) => self.fault(cause),
            None => {
                self.running = false;
                Step::Done {
                    pads: self.writer.padded(),
                }
            }
        }
    }

    // Why a segment ends badly whose MCUs all were made.
    fn last_cause(&self) -> Option<StreamCause>
        ensures { (s : SegmentFields) (at : Progress) → IsWithin self.now s 0 at
            → with_place s self.now.given (ending s at) ≡ ended_by s at result }
    {
        let seam = self.seam();
        if seam.is_some() {
            return seam;
        }
        if self.coder.exact() {
            self.misplaced()
        } else {
            Some(StreamCause::StreamBad)
        }
    }

    // Whether the next segment starts from something else.
    fn seam(&self) -> Option<StreamCause>
        ensures { result ≡ seam_in (handover_of self.now.writer.shape self.now.writer.spot)
            self.now.next }
    {
        let found = self.writer.handover();
        match self.next {
            Some(kept) if !meet(&found, &kept) => Some(StreamCause::Seam { found, kept }),
            _ => None,
        }
    }

    // Whether places are kept for another number of bytes than were given.
    fn misplaced(&self) -> Option<StreamCause>
        ensures { result ≡ misplaced_in self.now.given self.now.kept }
    {
        let found = self.given;
        match self.kept {
            Some(kept) if found != kept => Some(StreamCause::PlaceBad { found, kept }),
            _ => None,
        }
    }

    // The segment is over, for this cause.
    fn fault(&mut self, cause: StreamCause) -> Step
        ensures step { result ≡ Fault (record { segment = self.old.number; cause = cause }) }
        ensures running { self.new.running ≡ false }
        ensures begun { self.new.begun ≡ self.old.begun }
        ensures plan { self.new.plan ≡ self.old.plan }
    {
        self.running = false;
        Step::Fault(StreamFault {
            segment: self.number,
            cause,
        })
    }
}

// A decoder of no segment's stream.
fn no_stream<'a>() -> Decoder<'a> {
    match Decoder::start(&[0]) {
        Some(decoder) => decoder,
        None => unreachable!(),
    }
}

// Begins with a stream and fresh bins, and whether it has a start.
fn open<'a>(coder: &mut Get<'a>, stream: &'a [u8]) -> bool
    ensures bins { length coder.new.bins ≡ length coder.old.bins }
    ensures started { result ≡ starts stream.now }
    ensures got { result ≡ true → HasGot coder.new stream.now [] }
{
    match Decoder::start(stream) {
        Some(decoder) => {
            coder.restart(decoder);
            true
        }
        None => false,
    }
}

// What the segment after one starts from, if there is one.
fn start_after(view: &BoxView, segment: u8) -> Option<Handover>
    requires { segment < length view.now.parts.handovers }
    ensures { result ≡ slice_get view.now.parts.handovers (segment + 1) }
{
    let segments = view.segments();
    if segment + 1 < segments {
        Some(view.handover(segment + 1))
    } else {
        None
    }
}

// How many places are kept for a segment's bytes, if any are.
fn kept_in(view: &BoxView, segment: u8) -> Option<u64>
    requires segment { segment < length view.now.parts.handovers }
    requires few { length view.now.parts.handovers ≤ most_segments }
    ensures { result ≡ kept_in view.now.parts.places segment }
{
    match (view.place(segment), view.place(segment + 1)) {
        (Some(first), Some(next)) => Some(next.saturating_sub(first)),
        _ => None,
    }
}

// Whether both have the same bytes.
fn meet(found: &Handover, kept: &Handover) -> bool
    ensures { result ≡ bytes_eq (handover_bytes found.now) (handover_bytes kept.now) }
{
    found.to_bytes() == kept.to_bytes()
}
