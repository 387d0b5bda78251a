// A segment of a file that is coded apart from the pass that found where it starts.
ghost use Rattle.std.specs.Prelude.{◌<◌, IfOk, IsErrOf};
ghost use Rattle.scan_spec.specs.declared.refusal.ScanRefusal.{ScanRefusal};
ghost use Rattle.segment_code.specs.ScanPasses.{IsNoPart, IsPart, IsPartStream};

use crate::encoder::SegmentEncoder;
use crate::error::ScanError;
use crate::pads::PadsFound;
use handover::Handover;
use huff_table::PlanCodes;
use jpeg_marker::Plan;
use scan_decode::Reader;
use std::alloc::Global;
use std::marker::Model;

/// A segment of a file's scan: its first row of MCUs, the place of its first byte that the MCUs before don't complete,
/// what it starts from, and how many MCUs it has.
///
/// Clauses see `PartFields`.
#[derive(Drop)]
pub struct SegmentPart<'a> {
    pub(crate) plan: &'a Plan,
    pub(crate) codes: &'a PlanCodes,
    pub(crate) bytes: &'a [u8],
    pub(crate) row: u32,
    pub(crate) place: usize,
    pub(crate) handover: Handover,
    pub(crate) mcus: u32,
}

impl<'a> Model for SegmentPart<'a> {
    ghost use Rattle.segment_code.specs.ScanPasses.{PartFields};
    ghost use Rattle.segment_code.specs.PassInside.{part_in};

    ghost Value = { PartFields };

    ghost view = { part_in };

    ghost invariant = { λ p. Unit {0} };
}

impl<'a> SegmentPart<'a> {
    /// The segment's stream. Each MCU is read, coded and forgotten: beside the stream, memory is for an MCU row of
    /// blocks, the bins, and a bit for each restart interval. If the bytes are no file's, it may be refused, or give
    /// bytes that mean nothing.
    pub fn encode(&self, alloc: Global) -> Result<Vec<u8>, ScanError>
        requires { IsPart self.now }
        ensures stream { IfOk result (λ stream. IsPartStream self.now stream.items) }
        ensures refused { (refusal : ScanRefusal) → IsErrOf result (ScanError.Scan refusal)
            → IsNoPart self.now }
    {
        let codes = self.codes.copied(alloc)?;
        let mut reader = Reader::at(
            alloc,
            self.plan,
            codes,
            self.bytes,
            self.place,
            self.handover,
            self.row,
        );
        let mut pads = PadsFound::none(alloc);
        let mut encoder = SegmentEncoder::prepare(alloc, self.plan)?;
        encoder.code(
            self.plan,
            &mut reader,
            &mut pads,
            self.mcus,
            Vec::new(alloc),
        )
    }
}
