// What codes segments: beside other threads, or on the calling thread alone.
ghost use Rattle.jpeg_marker.specs.AcceptedPlans.{CanScan};
ghost use Rattle.std.specs.Prelude.{◌≡◌, ◌+◌, ◌-◌, ◌<◌, ◌≤◌, ℕ, Bool, List, map, IfOk, IsErrOf};
ghost use Rattle.std.specs.List.{range_with_len};
ghost use Rattle.scan_spec.specs.Items.{Refuses};
ghost use Rattle.scan_spec.specs.Scans.{Mcu};
ghost use Rattle.scan_spec.specs.Slots.{shape_of};
ghost use Rattle.scan_spec.specs.declared.refusal.ScanRefusal.{ScanRefusal};
ghost use Rattle.cut_spec.specs.Cuts.{first_mcu};
ghost use Rattle.cut_spec.specs.RowHandovers.{mcus_between};
ghost use Rattle.box_format.specs.Parts.{box_cut, box_rows};
ghost use Rattle.container_spec.specs.Files.{plan_cut, segment_mcus};
ghost use Rattle.container_spec.specs.ScanStream.{stream_of};
ghost use Rattle.segment_code.specs.FileStarts.{starts_of};
ghost use Rattle.segment_code.specs.Starting.{AreStarts, IsFileAt};

use allocation::NoMemory;
use box_format::Chunk;
use jpeg_marker::Plan;
use segment_code::{ScanError, Starts};
use segment_encode::{encode_all, encode_all_alone, encode_scan, encode_scan_alone};
use std::alloc::Global;
use std::thread::Threads;

/// What codes the segments of a scan.
pub trait ScanCoder {
    // It can do so.
    ghost ready: { Self → Type 0 };

    /// Where the segments of the scan of a plan start, which follows the bytes that the plan has as its header, and the
    /// stream of each, in order: at most `segments`, and at most as many as rows of MCUs.
    fn code_scan(
        &self,
        alloc: Global,
        plan: &Plan,
        bytes: &[u8],
        segments: u8,
    ) -> Result<(Starts, Vec<Vec<u8>>), ScanError>
        requires ready { ready self.now }
        requires plan { CanScan bytes.now plan.now }
        requires some { 0 < segments }
        ensures starts { IfOk result (λ made. AreStarts plan.now bytes.now segments made.0) }
        ensures streams { (mcus : List Mcu) (pads : List Bool) (trailer : ℕ)
            → IsFileAt bytes.now plan.now mcus pads trailer
            → IfOk result (λ made. map (λ v. v.items) made.1.items
            ≡ map (λ i. stream_of plan.now (segment_mcus plan.now mcus segments i))
            (range_with_len 0 (plan_cut plan.now segments).segments)) }
        ensures refused { (refusal : ScanRefusal) → IsErrOf result (ScanError.Scan refusal)
            → Refuses (shape_of plan.now) bytes.now plan.now.header_length refusal };

    /// The stream of each of `count` segments of a file, or of a chunk's rows of it, in order, by the starts of all the
    /// file's rows. The one error is out of memory.
    fn code_rows(
        &self,
        alloc: Global,
        plan: &Plan,
        bytes: &[u8],
        starts: &Starts,
        chunk: Option<Chunk>,
        count: u32,
    ) -> Result<Vec<Vec<u8>>, NoMemory>
        requires ready { ready self.now }
        requires starts { AreStarts plan.now bytes.now plan.now.down starts.now }
        requires order { (box_rows plan.now chunk).from ≤ (box_rows plan.now chunk).to }
        requires grid { (box_rows plan.now chunk).to ≤ plan.now.down }
        requires rows { count ≤ (box_rows plan.now chunk).to - (box_rows plan.now chunk).from }
        ensures { (mcus : List Mcu) (pads : List Bool)
            → IsFileAt bytes.now plan.now mcus pads starts.now.trailer
            → starts.now ≡ starts_of plan.now mcus pads starts.now.trailer plan.now.down
            → IfOk result (λ streams. map (λ v. v.items) streams.items
            ≡ map (λ i. stream_of plan.now
            (mcus_between mcus (first_mcu (box_cut plan.now chunk count) i)
            (first_mcu (box_cut plan.now chunk count) (i + 1)))) (range_with_len 0 count)) };
}

/// Codes segments in threads, if these can be had.
#[derive(Drop)]
pub struct InThreads<'a, R> {
    pub rt: &'a R,
}

impl<'a, R: Threads + Sync> ScanCoder for InThreads<'a, R> {
    ghost use denote.Param.Send.{IsSync};

    // A method of the trait doesn't know the bound.
    ghost ready = { λ coder. IsSync R.row };

    fn code_scan(
        &self,
        alloc: Global,
        plan: &Plan,
        bytes: &[u8],
        segments: u8,
    ) -> Result<(Starts, Vec<Vec<u8>>), ScanError> {
        encode_scan(self.rt, alloc, plan, bytes, segments)
    }

    fn code_rows(
        &self,
        alloc: Global,
        plan: &Plan,
        bytes: &[u8],
        starts: &Starts,
        chunk: Option<Chunk>,
        count: u32,
    ) -> Result<Vec<Vec<u8>>, NoMemory> {
        encode_all(self.rt, alloc, plan, bytes, starts, chunk, count)
    }
}

/// Codes segments one after another on the calling thread.
#[derive(Clone, Copy)]
pub struct Alone;

impl ScanCoder for Alone {
    ghost ready = { λ coder. Unit {0} };

    fn code_scan(
        &self,
        alloc: Global,
        plan: &Plan,
        bytes: &[u8],
        segments: u8,
    ) -> Result<(Starts, Vec<Vec<u8>>), ScanError> {
        encode_scan_alone(alloc, plan, bytes, segments)
    }

    fn code_rows(
        &self,
        alloc: Global,
        plan: &Plan,
        bytes: &[u8],
        starts: &Starts,
        chunk: Option<Chunk>,
        count: u32,
    ) -> Result<Vec<Vec<u8>>, NoMemory> {
        encode_all_alone(alloc, plan, bytes, starts, chunk, count)
    }
}
