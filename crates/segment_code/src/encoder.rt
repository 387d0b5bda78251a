// Segments coded one after another.
ghost use Rattle.std.specs.Prelude.{◌≡◌, ◌≤◌, ◌+◌, List, [], None, Err, IfOk, OnOk, IsErrOf, ◌<◌, ◌^◌};
ghost use Rattle.std.specs.List.{AllByRecursion};
ghost use Rattle.coef_block.specs.Block.{IsBlock};
ghost use Rattle.scan_spec.specs.ScanLaws.{zigzag_of};
ghost use Rattle.scan_spec.specs.Scans.{Mcu};
ghost use Rattle.scan_spec.specs.Slots.{shape_of};
ghost use Rattle.scan_spec.specs.declared.refusal.ScanRefusal.{ScanRefusal};
ghost use Rattle.container_spec.specs.ScanStream.{stream_of};
ghost use Rattle.segment_code.specs.CodedMcus.{AreReadOn, next_of};
ghost use Rattle.segment_code.specs.FoundPads.{pads_through};
ghost use Rattle.segment_code.specs.ReadyParts.{IsEncoderFor};

use crate::error::ScanError;
use crate::grid::grid_of;
use crate::pads::PadsFound;
use crate::segment_stream::code_over;
use adapt_bins::Bins;
use allocation::NoMemory;
use block_code::SegmentRows;
use coef_context::BINS;
use jpeg_marker::Plan;
use scan_decode::Reader;
use std::alloc::Global;
use std::marker::Model;

/// Codes segments one after another. It takes memory when it is made, and none after that: bins, an MCU row of
/// blocks.
///
/// Clauses see `EncoderSeen`; a caller needs of it for which plan it can code, `IsEncoderFor`.
#[derive(Drop)]
pub struct SegmentEncoder {
    segment: SegmentRows,
    bins: Bins,
}

impl Model for SegmentEncoder {
    ghost use Rattle.segment_code.specs.ReadyParts.{EncoderSeen};
    ghost use Rattle.segment_code.specs.ReadyInside.{encoder_in};

    ghost Value = { EncoderSeen };

    ghost view = { encoder_in };

    ghost invariant = { λ e. Unit {0} };
}

impl SegmentEncoder {
    /// Takes all the memory that segments of the plan need, but for their streams; the one error is out of memory.
    pub fn prepare(alloc: Global, plan: &Plan) -> Result<SegmentEncoder, NoMemory>
        ensures { IfOk result (λ encoder. IsEncoderFor plan.now encoder) }
    {
        Ok(SegmentEncoder {
            segment: SegmentRows::new(alloc, grid_of(plan))?,
            bins: Bins::new(alloc, BINS)?,
        })
    }

    // How many bytes an encoder for a plan takes, about: four for each bin, one of them for the table of shares, and
    // 136 for each block of an MCU row.
    pub(crate) fn room(plan: &Plan) -> usize
        ensures { result < 2 ^ 41 }
    {
        let row = plan.blocks() / plan.down().max(1);
        4 * BINS + 136 * row as usize
    }

    /// The stream of the reader's next `mcus` MCUs, as one segment of its plan's scan, in an empty list. The pad bit of
    /// each interval that ends is kept. After an error the encoder is of no worth.
    pub(crate) fn code(
        &mut self,
        plan: &Plan,
        reader: &mut Reader,
        pads: &mut PadsFound,
        mcus: u32,
        list: Vec<u8>,
    ) -> Result<Vec<u8>, ScanError>
        requires encoder { IsEncoderFor plan.now self.old }
        requires start { reader.old.stop ≡ None }
        requires shape { reader.old.shape ≡ shape_of plan.now }
        requires count { reader.old.at.count + mcus ≤ reader.old.shape.mcus }
        requires empty { list.items ≡ [] }
        ensures coded { IfOk result (λ stream. (all : List Mcu)
            × AllByRecursion (AllByRecursion IsBlock) all
            × AreReadOn mcus reader.old reader.new (zigzag_of all)
            × (stream.items ≡ stream_of plan.now all)) }
        ensures pads { OnOk result (pads.new ≡ pads_through mcus reader.old pads.old) }
        ensures refused { (refusal : ScanRefusal) → IsErrOf result (ScanError.Scan refusal)
            → next_of mcus reader.old ≡ Err refusal }
        ensures encoder { OnOk result (self.new ≡ self.old) }
    {
        self.segment.restart();
        self.bins.fresh();
        code_over(
            &mut self.segment,
            &mut self.bins,
            plan,
            reader,
            pads,
            mcus,
            list,
        )
    }
}
