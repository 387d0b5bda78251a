// What is written of a portion around its segments, and what is looked at after them.
ghost use Rattle.std.specs.Prelude.{◌≡◌, ◌*◌, ◌≤◌, ℕ, length, IfErr, IfOk, OnErr, OnOk, true};
ghost use Rattle.outside_core.specs.Takes.{TakesNext};
ghost use Rattle.outside_core.specs.Written.{HasFailed, HasWritten};
ghost use Rattle.box_format.specs.Versions.{most_segments};
ghost use Rattle.container_spec.specs.Portions.{begun, played, portion_meaning};
ghost use Rattle.container_spec.specs.ScansJoined.{all_spelled};
ghost use Rattle.output_board.specs.declared.view.EmitterView.{EmitterView};
ghost use Rattle.segment_worker.specs.Contents.{segment_room};
ghost use Rattle.segment_worker.specs.Emitting.{Emits, IsThrough, seen_through};
ghost use Rattle.lepton_decode.specs.Ends.{Ends, HasEmitted};
ghost use Rattle.lepton_decode.specs.Played.{IsEmitted, IsWindowed, are_spelled, falls_short};

use crate::error::DecodeError;
use crate::portion::Portion;
use box_format::FileView;
use byte_window::Window;
use container_spec::Kind;
use handover::{ScanPads, sum_in};
use outside_core::{Sink, WriteFault, write_all};
use segment_worker::{EmitStop, Emitted};

// Writes bytes, or answers how many of them were written before the sink failed.
pub(crate) fn put<K: Sink>(sink: &mut K, bytes: &[u8]) -> Result<(), u64>
    requires { TakesNext K.takes sink.old bytes.now }
    ensures whole { OnOk result (HasWritten K.held K.takes K.faults sink.old sink.new bytes.now) }
    ensures failed { IfErr result (λ written.
        HasFailed K.held K.faults K.full sink.old sink.new bytes.now written) }
    ensures lasting { K.faults sink.old ≤ K.faults sink.new }
{
    match write_all(sink, bytes) {
        Ok(()) => Ok(()),
        Err(WriteFault { written }) => Err(written),
    }
}

/// After the part of the header and the segments, which ended like this: how the portion ends.
pub(crate) fn end<K: Sink>(
    view: &FileView,
    kind: Kind,
    portion: &Portion,
    emitted: Result<Emitted, EmitStop>,
    sink: &mut K,
) -> Result<u64, DecodeError>
    requires windowed { IsWindowed kind view.now portion.now }
    requires came { IfOk emitted (λ emitted.
        emitted.came ≡ length (played view.now portion.now).bytes) }
    requires few { length (played view.now portion.now).bytes ≤ segment_room * most_segments }
    requires so_far { (first mid : K)
        × TakesNext K.takes first (portion_meaning kind view.now portion.now).bytes
        × HasWritten K.held K.takes K.faults first mid portion.now.before
        × Emits K.held K.takes K.faults K.full mid sink.old
        (seen_through portion.now.within (played view.now portion.now)) emitted }
    ensures ends { (first mid : K)
        → HasWritten K.held K.takes K.faults first mid portion.now.before
        → Emits K.held K.takes K.faults K.full mid sink.old
        (seen_through portion.now.within (played view.now portion.now)) emitted
        → Ends K.held K.takes K.faults K.full first sink.new
        (portion_meaning kind view.now portion.now) result }
    ensures emitted { (count : ℕ) (view : EmitterView) → OnOk emitted (IsThrough count view)
        → OnErr emitted (view.stopped ≡ true) → HasEmitted count view result }
    ensures whole { (n m : ℕ) → OnOk emitted (n ≡ m) → OnOk result (n ≡ m) }
    ensures lasting { K.faults sink.old ≤ K.faults sink.new }
{
    match emitted {
        Ok(emitted) => finish(view, kind, portion, emitted, sink),
        Err(EmitStop::WriteFault { written }) => Err(DecodeError::WriteFault {
            written: portion.before.len() as u64 + written,
        }),
        Err(EmitStop::Fault(fault)) => Err(DecodeError::Fault(fault)),
    }
}

/// After the part of the header and all segments: writes the part of the trailer if no byte of a chunk is missing, and
/// then looks whether a file's pad bits are spelled as a file's.
pub(crate) fn finish<K: Sink>(
    view: &FileView,
    kind: Kind,
    portion: &Portion,
    emitted: Emitted,
    sink: &mut K,
) -> Result<u64, DecodeError>
    requires windowed { IsWindowed kind view.now portion.now }
    requires emitted { IsEmitted view.now portion.now emitted }
    requires so_far { (first : K)
        × TakesNext K.takes first (portion_meaning kind view.now portion.now).bytes
        × HasWritten K.held K.takes K.faults first sink.old
        (begun portion.now (played view.now portion.now)) }
    ensures ends { (first : K)
        → HasWritten K.held K.takes K.faults first sink.old
        (begun portion.now (played view.now portion.now))
        → Ends K.held K.takes K.faults K.full first sink.new
        (portion_meaning kind view.now portion.now) result }
    ensures emitted { (count : ℕ) (view : EmitterView) → IsThrough count view
        → HasEmitted count view result }
    ensures lasting { K.faults sink.old ≤ K.faults sink.new }
{
    if is_short(kind, portion.within, emitted.came) {
        return Err(DecodeError::ChunkShort);
    }
    let begun = portion.before.len() as u64 + emitted.bytes;
    let after = portion.after;
    match put(sink, after) {
        Ok(()) => {}
        Err(written) => {
            return Err(DecodeError::WriteFault {
                written: begun + written,
            });
        }
    }
    if !are_pads_spelled(view, kind, &emitted.pads) {
        return Err(DecodeError::PadSpelling);
    }
    Ok(begun + after.len() as u64)
}

// Whether fewer bytes came than a chunk's window is for.
fn is_short(kind: Kind, window: Window, came: u64) -> bool
    ensures { result ≡ falls_short kind window came }
{
    match kind {
        Kind::File | Kind::Range => false,
        Kind::Chunk(_) => match window.most {
            None => false,
            Some(most) => came < window.skip || came - window.skip < most,
        },
    }
}

// Whether the pad bits of each scan are spelled as a file's, if this is a file.
fn are_pads_spelled(view: &FileView, kind: Kind, pads: &ScanPads) -> bool
    ensures { result ≡ are_spelled kind view.now pads.now }
{
    match kind {
        Kind::File => are_all_spelled(view, pads),
        Kind::Chunk(_) | Kind::Range => true,
    }
}

// Whether those of each scan are.
fn are_all_spelled(view: &FileView, pads: &ScanPads) -> bool
    ensures { result ≡ all_spelled 0 view.now pads.now }
{
    let scans = view.scans();
    for scan in 0..scans {
        let part = view.scan(scan);
        if !part.pad().is_spelled(&sum_in(pads, scan)) {
            return false;
        }
    }
    true
}
