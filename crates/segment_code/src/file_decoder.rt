// Segments of a file's scans decoded one after another, each in steps.
ghost use Rattle.std.specs.Prelude.{◌≡◌, ◌+◌, ◌-◌, ◌<◌, ◌≤◌, ◌^◌, ℕ, List, [], ◌++◌, length, nat_lt, slice_get, Some, true, All, IfOk};
ghost use Rattle.handover.specs.declared.outcome.Outcome.{Outcome};
ghost use Rattle.box_format.specs.Parts.{BoxSeen};
ghost use Rattle.container_spec.specs.Meanings.{segment_in};
ghost use Rattle.container_spec.specs.Segments.{segment_output};
ghost use Rattle.box_format.specs.Containers.{all_plans, segment_count};
ghost use Rattle.container_spec.specs.ScansMeanings.{lead_at, lead_of, led_output, output_at, scan_of};
ghost use Rattle.segment_code.specs.declared.step.Step.TheVariants.{More};
ghost use Rattle.segment_code.specs.FileDecoding.{FileOwes, FilePays, ScanOwes, ScanPays, is_running, mcus_left, plans_of, step_numbered, steps_left};

use crate::decoder::SegmentDecoder;
use crate::step::Step;
use allocation::{NoMemory, push};
use bit_list::{Piece, ROOM};
use box_format::{BoxView, FileView};
use handover::StreamFault;
use jpeg_marker::Plan;
use std::alloc::Global;
use std::marker::Model;

/// Decodes segments of a file's scans one after another, each in steps. It takes memory when it is made, and none after
/// that: for each scan bins, an MCU row of blocks.
///
/// Clauses see `FileDecoderSeen`; a caller needs of it what the decoder owes, `FileOwes`, and `steps_left`.
#[derive(Drop)]
pub struct FileDecoder<'a> {
    // One for each scan.
    decoders: Vec<SegmentDecoder<'a>>,
    begun: u32,
    scan: u8,
    // The segment's number in the container.
    number: u8,
    // What is left of the header before the segment's bytes.
    lead: &'a [u8],
}

impl<'a> Model for FileDecoder<'a> {
    ghost use Rattle.segment_code.specs.FileDecoding.{FileDecoderSeen};
    ghost use Rattle.segment_code.specs.FileDecoderInside.{file_decoder_of, IsFileDecoder};

    ghost Value = { FileDecoderSeen };

    ghost view = { file_decoder_of };

    ghost invariant = { IsFileDecoder };
}

impl<'a> FileDecoder<'a> {
    /// Takes all the memory that segments of scans with these plans need; the one error is out of memory.
    pub fn prepare(alloc: Global, plans: &[Plan]) -> Result<FileDecoder<'a>, NoMemory>
        ensures plans { IfOk result (λ d. d.plans ≡ plans.now) }
        ensures begun { IfOk result (λ d. d.begun ≡ 0) }
    {
        let decoders = decoders_of(alloc, plans)?;
        Ok(FileDecoder {
            decoders,
            begun: 0,
            scan: 0,
            number: 0,
            lead: &[],
        })
    }

    /// How many segments were begun.
    pub fn begun(&self) -> u32
        ensures { result ≡ self.now.begun }
    {
        self.begun
    }

    /// Begins a segment of a container, whatever became of the one before; the container's first segment has number 0.
    /// It takes no memory.
    ///
    /// A later scan's header comes before the bytes of its first segment.
    pub fn begin(&mut self, view: &FileView<'a>, segment: u8)
        requires plans { self.old.plans ≡ all_plans view.now }
        requires segment { segment < segment_count view.now }
        requires count { self.old.begun < 2 ^ 32 - 1 }
        ensures owes { let output = output_at view.now segment in
            FileOwes self.new output.0 output.1 }
        ensures lead { self.new.lead ≡ lead_at view.now segment }
        ensures running { self.new.running ≡ true }
        ensures few { steps_left self.new < 2 ^ 33 }
        ensures begun { self.new.begun ≡ self.old.begun + 1 }
        ensures plans { self.new.plans ≡ self.old.plans }
    {
        let (scan, before) = segment_at(view, segment);
        self.begin_scan(&view.scan(scan), scan, before, segment - before);
    }

    // Begins a segment of a scan. `scan` is the scan's number, the scans before it have `before` segments, and its own
    // first segment has number 0.
    fn begin_scan(&mut self, view: &BoxView<'a>, scan: u8, before: u8, segment: u8)
        requires plan { slice_get self.old.plans scan ≡ Some view.now.plan }
        requires segment { segment < length view.now.parts.handovers }
        requires number { before + segment < 256 }
        requires count { self.old.begun < 2 ^ 32 - 1 }
        ensures owes { let output = led_output (nat_lt 0 scan) before view.now segment in
            FileOwes self.new output.0 output.1 }
        ensures lead { self.new.lead ≡ lead_of (nat_lt 0 scan) view.now.parts.header segment }
        ensures running { self.new.running ≡ true }
        ensures few { steps_left self.new < 2 ^ 33 }
        ensures begun { self.new.begun ≡ self.old.begun + 1 }
        ensures plans { self.new.plans ≡ self.old.plans }
    {
        begin_in(&mut self.decoders, view, scan, segment);
        self.begun += 1;
        self.scan = scan;
        self.number = before + segment;
        self.lead = lead_before(view, scan, segment);
    }

    /// Replaces `out` by the segment's next bytes: first those of the header that comes before it, as many as have
    /// room, and then whole MCUs, as `SegmentDecoder::step` gives them. After `Done` and after `Fault` the segment is
    /// over; a fault comes after the bytes of the MCUs before it, and has the segment's number in the container.
    pub fn step(&mut self, out: &mut Piece) -> Step
        requires running { self.old.running ≡ true }
        ensures pays { (bytes : List ℕ) (outcome : Outcome) → FileOwes self.old bytes outcome
            → FilePays result bytes outcome out.new self.old self.new }
        // If some of the header is left, the step gives of it, and does nothing else.
        ensures lead { 0 < length self.old.lead → (result ≡ More) × (0 < length out.new)
            × (out.new ++ self.new.lead ≡ self.old.lead)
            × (self.new ≡ record self.old { lead = self.new.lead }) }
        ensures begun { self.new.begun ≡ self.old.begun }
        ensures plans { self.new.plans ≡ self.old.plans }
    {
        if self.lead.is_empty() {
            self.step_scan(out)
        } else {
            self.give_lead(out);
            Step::More
        }
    }

    // Replaces `out` by the header's next bytes.
    fn give_lead(&mut self, out: &mut Piece)
        requires some { 0 < length self.old.lead }
        ensures gives { out.new ++ self.new.lead ≡ self.old.lead }
        ensures less { length self.new.lead < length self.old.lead }
        ensures same { self.new ≡ record self.old { lead = self.new.lead } }
    {
        out.clear();
        let count = self.lead.len().min(ROOM);
        let (first, rest) = self.lead.split_at(count);
        out.extend_from_slice(first);
        self.lead = rest;
    }

    // Replaces `out` by the next MCUs of the scan's decoder.
    fn step_scan(&mut self, out: &mut Piece) -> Step
        requires running { self.old.running ≡ true }
        requires none { self.old.lead ≡ [] }
        ensures pays { (bytes : List ℕ) (outcome : Outcome) → FileOwes self.old bytes outcome
            → FilePays result bytes outcome out.new self.old self.new }
        ensures begun { self.new.begun ≡ self.old.begun }
        ensures plans { self.new.plans ≡ self.old.plans }
    {
        let step = step_in(&mut self.decoders, self.scan, out);
        with_number(step, self.number)
    }
}

/// The scan that has a segment of a container, the first scan having number 0, and how many segments are before the
/// scan.
pub fn segment_at(view: &FileView, segment: u8) -> (u8, u8)
    requires { segment < segment_count view.now }
    ensures scan { result.0 ≡ scan_of 0 view.now segment }
    ensures few { result.0 < 4 }
    ensures within { result.1 ≤ segment }
    ensures segment { (s : BoxSeen) × (slice_get view.now result.0 ≡ Some s)
        × (segment - result.1 < length s.parts.handovers)
        × (output_at view.now segment
        ≡ led_output (nat_lt 0 result.0) result.1 s (segment - result.1))
        × (lead_at view.now segment
        ≡ lead_of (nat_lt 0 result.0) s.parts.header (segment - result.1)) }
{
    let mut before = 0;
    for scan in 0..view.scans() {
        let count = view.scan(scan).segments();
        if segment - before < count {
            return (scan, before);
        }
        before += count;
    }
    unreachable!()
}

// A decoder for each of these plans.
fn decoders_of<'a>(alloc: Global, plans: &[Plan]) -> Result<Vec<SegmentDecoder<'a>>, NoMemory>
    ensures plans { IfOk result (λ ds. plans_of ds.items ≡ plans.now) }
    ensures begun { IfOk result (λ ds. All (λ d. d.begun ≤ 0) ds.items) }
{
    let mut decoders = Vec::new(alloc);
    for plan in plans {
        push(&mut decoders, SegmentDecoder::prepare(alloc, plan)?)?;
    }
    Ok(decoders)
}

// Begins a segment in the scan's decoder.
fn begin_in<'a>(decoders: &mut Vec<SegmentDecoder<'a>>, view: &BoxView<'a>, scan: u8, segment: u8)
    requires plan { slice_get (plans_of decoders.old.items) scan ≡ Some view.now.plan }
    requires segment { segment < length view.now.parts.handovers }
    requires count { All (λ d. d.begun < 2 ^ 32 - 1) decoders.old.items }
    ensures owes { let output = segment_output (segment_in view.now.plan view.now.parts segment) in
        ScanOwes decoders.new.items scan output.0 output.1 }
    ensures running { is_running (slice_get decoders.new.items scan) ≡ true }
    ensures few { mcus_left (slice_get decoders.new.items scan) < 2 ^ 32 }
    ensures begun { (most : ℕ) → All (λ d. d.begun ≤ most) decoders.old.items
        → All (λ d. d.begun ≤ most + 1) decoders.new.items }
    ensures plans { plans_of decoders.new.items ≡ plans_of decoders.old.items }
{
    let decoder = &mut decoders[usize::from(scan)];
    decoder.begin(view, segment);
}

// A step of the scan's decoder.
fn step_in(decoders: &mut Vec<SegmentDecoder>, scan: u8, out: &mut Piece) -> Step
    requires running { is_running (slice_get decoders.old.items scan) ≡ true }
    ensures pays { (bytes : List ℕ) (outcome : Outcome) → ScanOwes decoders.old.items scan bytes outcome
        → ScanPays result bytes outcome out.new decoders.old.items decoders.new.items scan }
    ensures begun { (most : ℕ) → All (λ d. d.begun ≤ most) decoders.old.items
        → All (λ d. d.begun ≤ most) decoders.new.items }
    ensures plans { plans_of decoders.new.items ≡ plans_of decoders.old.items }
{
    let decoder = &mut decoders[usize::from(scan)];
    decoder.step(out)
}

// A step, with this number for a fault's segment.
fn with_number(step: Step, number: u8) -> Step
    ensures { result ≡ step_numbered number step }
{
    match step {
        Step::More => Step::More,
        Step::Done { pads } => Step::Done { pads },
        Step::Fault(fault) => Step::Fault(StreamFault {
            segment: number,
            cause: fault.cause,
        }),
    }
}

// What comes before the bytes of a scan's segment.
fn lead_before<'a>(view: &BoxView<'a>, scan: u8, segment: u8) -> &'a [u8]
    ensures bytes { result.now ≡ lead_of (nat_lt 0 scan) view.now.parts.header segment }
    ensures fits { length result.now < 2 ^ 32 }
{
    if scan > 0 && segment == 0 {
        view.header()
    } else {
        &[]
    }
}
