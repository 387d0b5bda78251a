// A pass over a file's scan, from segment to segment.
ghost use Rattle.std.specs.Prelude.{◌≡◌, ◌<◌, ◌≤◌, ℕ, Bool, List, IfOk, OnOk, IsErrOf, length, None, ◌^◌};
ghost use Rattle.std.specs.List.{All};
ghost use Rattle.jpeg_marker.specs.AcceptedPlans.{CanScan};
ghost use Rattle.huff_table.specs.ComponentTables.{codes_of};
ghost use Rattle.scan_spec.specs.Items.{Refuses};
ghost use Rattle.scan_spec.specs.Scans.{Mcu};
ghost use Rattle.scan_spec.specs.Slots.{shape_of};
ghost use Rattle.scan_spec.specs.declared.refusal.ScanRefusal.{ScanRefusal};
ghost use Rattle.scan_decode.specs.Excerpts.{IsExcerpt};
ghost use Rattle.segment_code.specs.ReadyParts.{IsEncoderFor, IsReady};
ghost use Rattle.segment_code.specs.ScanPasses.{HasPassed, IsNextStream, IsNoPart, IsPart, IsPartStream, IsPass, next_part, passed, segments_left};
ghost use Rattle.segment_code.specs.Starting.{AreStarts, IsFileAt};

use crate::cuts::{mcus_in, row_of, segment_count};
use crate::encoder::SegmentEncoder;
use crate::error::ScanError;
use crate::find::read_mcus;
use crate::pads::PadsFound;
use crate::part::SegmentPart;
use crate::ready::{READY_ROOM, ReadyPart};
use crate::starts::Starts;
use allocation::NoMemory;
use huff_table::PlanCodes;
use jpeg_marker::Plan;
use scan_decode::{Excerpt, Reader};
use std::alloc::Global;
use std::marker::Model;

// No more memory than that is named.
const MOST_ROOM: usize = 1 << 38;

/// A pass over a file's scan, which finds where its segments start and how its intervals are padded. There are at most
/// the number of segments that is asked for, and at most as many as rows of MCUs.
///
/// Clauses see `PassFields`. `IsPass` holds between two segments.
#[derive(Drop)]
pub struct ScanPass<'a> {
    plan: &'a Plan,
    codes: &'a PlanCodes,
    bytes: &'a [u8],
    most: u32,
    reader: Reader<'a>,
    starts: Starts,
    pads: PadsFound,
    // What others read of the scan, in the order of their places.
    excerpts: Vec<Excerpt<'a>>,
}

impl<'a> Model for ScanPass<'a> {
    ghost use Rattle.segment_code.specs.ScanPasses.{PassFields};
    ghost use Rattle.segment_code.specs.PassInside.{pass_in, HasExcerpts};

    ghost Value = { PassFields };

    ghost view = { pass_in };

    ghost invariant = { HasExcerpts };
}

impl<'a> ScanPass<'a> {
    /// Before the first segment of the scan of a plan, which follows the bytes that the plan has as its header. The one
    /// error is out of memory.
    pub fn start(
        alloc: Global,
        plan: &'a Plan,
        codes: &'a PlanCodes,
        bytes: &'a [u8],
        most: u32,
    ) -> Result<ScanPass<'a>, NoMemory>
        requires plan { CanScan bytes.now plan.now }
        requires codes { codes.now ≡ codes_of plan.now.components }
        requires some { 0 < most }
        ensures is { IfOk result (λ pass. IsPass pass) }
        ensures plan { IfOk result (λ pass. pass.plan ≡ plan.now) }
        ensures bytes { IfOk result (λ pass. pass.bytes ≡ bytes.now) }
        ensures most { IfOk result (λ pass. pass.most ≡ most) }
        ensures none { IfOk result (λ pass. passed pass ≡ 0) }
        ensures some { IfOk result (λ pass. 0 < segments_left pass) }
    {
        let copy = codes.copied(alloc)?;
        Ok(ScanPass {
            plan,
            codes,
            bytes,
            most,
            reader: Reader::start(alloc, plan, copy, bytes, plan.header_length()),
            starts: Starts::none(alloc),
            pads: PadsFound::none(alloc),
            excerpts: Vec::new(alloc),
        })
    }

    /// Gives the pass excerpts of its scan. It goes past those that it meets, if they come in the order of their
    /// places, and finds the same as without them.
    pub fn use_excerpts(&mut self, excerpts: Vec<Excerpt<'a>>)
        requires { All (IsExcerpt (shape_of self.old.plan) self.old.bytes) excerpts.items }
        ensures { self.new ≡ self.old }
    {
        self.excerpts = excerpts;
    }

    /// The plan whose scan it goes over.
    pub fn plan(&self) -> &'a Plan
        ensures { result.now ≡ self.now.plan }
    {
        self.plan
    }

    /// How many segments are left.
    pub fn left(&self) -> u32
        requires { IsPass self.now }
        ensures { result ≡ segments_left self.now }
    {
        segment_count(self.plan, self.most) - self.starts.segments()
    }

    /// How many bytes may still be asked for, about, until the streams of the segments that are left are in a
    /// container: for the reader and the lists of each segment, for an encoder for each `each` segments, and for that
    /// container.
    pub fn room(&self, each: u32) -> usize
        requires pass { IsPass self.now }
        requires each { 0 < each }
        ensures { result ≤ 2 ^ 38 }
    {
        let left = self.left();
        let encoders = left.div_ceil(each) as usize;
        encoders
            .saturating_mul(SegmentEncoder::room(self.plan))
            .saturating_add(left as usize * READY_ROOM)
            .saturating_add((self.bytes.len() / 4).saturating_mul(9))
            .min(MOST_ROOM)
    }

    /// The segment that comes next. If it is encoded, its stream is that of the pass's `encode`.
    pub fn next(&self) -> SegmentPart<'a>
        requires pass { IsPass self.now }
        requires some { 0 < segments_left self.now }
        ensures part { IsPart result }
        ensures is { result ≡ next_part self.now }
        ensures stream { (stream : List ℕ) → IsPartStream result stream
            → IsNextStream self.now stream }
        ensures refused { IsNoPart result → (mcus : List Mcu) (pads : List Bool) (trailer : ℕ)
            → IsFileAt self.now.bytes self.now.plan mcus pads trailer → ⊥ }
    {
        self.part()
    }

    // The segment that comes next.
    fn part(&self) -> SegmentPart<'a>
        requires pass { IsPass self.now }
        requires some { 0 < segments_left self.now }
        ensures { result ≡ next_part self.now }
    {
        let count = segment_count(self.plan, self.most);
        let segment = self.starts.segments();
        SegmentPart {
            plan: self.plan,
            codes: self.codes,
            bytes: self.bytes,
            row: row_of(self.plan, None, count, segment),
            place: self.reader.place(),
            handover: self.reader.handover(),
            mcus: mcus_in(self.plan, None, count, segment),
        }
    }

    /// Reads the next segment, and keeps where it starts. On a refusal or out of memory the pass is of no worth.
    pub fn skip(&mut self) -> Result<(), ScanError>
        requires pass { IsPass self.old }
        requires some { 0 < segments_left self.old }
        ensures passed { OnOk result (HasPassed self.old self.new) }
        ensures refused { (refusal : ScanRefusal) → IsErrOf result (ScanError.Scan refusal)
            → Refuses (shape_of self.old.plan) self.old.bytes self.old.plan.header_length refusal }
    {
        let next = self.part();
        self.starts.push(next.row, next.place, next.handover)?;
        read_mcus(&mut self.reader, &mut self.pads, &self.excerpts, next.mcus)
    }

    /// Reads the next segment, keeps where it starts, and makes it ready to be coded. On a refusal or out of memory the
    /// pass is of no worth.
    pub fn pass_over(&mut self, alloc: Global) -> Result<ReadyPart<'a>, ScanError>
        requires pass { IsPass self.old }
        requires some { 0 < segments_left self.old }
        ensures passed { OnOk result (HasPassed self.old self.new) }
        ensures ready { IfOk result IsReady }
        ensures part { IfOk result (λ ready. ready.part ≡ next_part self.old) }
        ensures stream { (stream : List ℕ) → IfOk result (λ ready. IsPartStream ready.part stream
            → IsNextStream self.old stream) }
        ensures none { IfOk result (λ ready. IsNoPart ready.part
            → (mcus : List Mcu) (pads : List Bool) (trailer : ℕ)
            → IsFileAt self.old.bytes self.old.plan mcus pads trailer → ⊥) }
        ensures refused { (refusal : ScanRefusal) → IsErrOf result (ScanError.Scan refusal)
            → Refuses (shape_of self.old.plan) self.old.bytes self.old.plan.header_length refusal }
    {
        let next = self.next();
        let from = self.reader.place();
        self.skip()?;
        let length = self.reader.place().saturating_sub(from);
        Ok(ReadyPart::prepare(alloc, next, length)?)
    }

    /// Reads and codes the next segment, and keeps where it starts. On a refusal or out of memory neither the pass nor
    /// the encoder is of any worth.
    pub fn encode(
        &mut self,
        alloc: Global,
        encoder: &mut SegmentEncoder,
    ) -> Result<Vec<u8>, ScanError>
        requires pass { IsPass self.old }
        requires some { 0 < segments_left self.old }
        requires encoder { IsEncoderFor self.old.plan encoder.old }
        ensures passed { OnOk result (HasPassed self.old self.new) }
        ensures stream { IfOk result (λ stream. IsNextStream self.old stream.items) }
        ensures refused { (refusal : ScanRefusal) → IsErrOf result (ScanError.Scan refusal)
            → Refuses (shape_of self.old.plan) self.old.bytes self.old.plan.header_length refusal }
        ensures encoder { OnOk result (encoder.new ≡ encoder.old) }
    {
        let next = self.part();
        self.starts.push(next.row, next.place, next.handover)?;
        encoder.code(
            self.plan,
            &mut self.reader,
            &mut self.pads,
            next.mcus,
            Vec::new(alloc),
        )
    }

    /// Where the segments of the file start, after the last one. The one error is out of memory.
    pub fn end(self) -> Result<Starts, NoMemory>
        requires pass { IsPass self }
        requires none { segments_left self ≡ 0 }
        ensures { IfOk result (λ starts. AreStarts self.entry.plan self.entry.bytes self.entry.most starts) }
    {
        let ScanPass {
            plan: _,
            codes: _,
            bytes: _,
            most: _,
            reader,
            mut starts,
            pads,
            excerpts: _,
        } = self;
        starts.end(pads, reader.end())?;
        Ok(starts)
    }
}
