// A stretch of a container's segments decoded on one thread, with no board.
ghost use Rattle.std.specs.Prelude.{◌≡◌, ◌+◌, ◌*◌, ◌≤◌, ◌<◌, ◌^◌, ℕ, List, length, IfOk, IfErr, OnOk, true};
ghost use Rattle.outside_core.specs.Takes.{TakesNext};
ghost use Rattle.byte_window.specs.Windows.{window as passed};
ghost use Rattle.handover.specs.declared.outcome.Outcome.{Outcome};
ghost use Rattle.box_format.specs.Versions.{most_segments};
ghost use Rattle.box_format.specs.Containers.{all_plans, segment_count};
ghost use Rattle.segment_code.specs.FileDecoding.{FileOwes, steps_left};
ghost use Rattle.segment_worker.specs.Contents.{segment_room, stretch};
ghost use Rattle.segment_worker.specs.Emitting.{Emits, joined_in, seen_through};
ghost use Rattle.segment_worker.specs.LoneSegments.{OwesSome, SegmentEnds, pieces_room};

use crate::emitted::{EmitStop, Emitted};
use crate::emitter_part::write_part;
use crate::lengths::segments_are_short;
use bit_list::Piece;
use box_format::FileView;
use byte_window::Window;
use handover::{Outcome, add_sum, no_sums};
use outside_core::{Gate, Sink};
use segment_code::{FileDecoder, Step, segment_at};

/// Writes what the window lets through of `count` segments in order, from the container's number `first` on, each
/// decoded on the calling thread when its turn comes: what `emit` writes, with no other thread to wait for. It returns
/// after the last segment, or after the first with a fault, or if the sink fails.
///
/// At each moment, also while the call is under way, what was written is a prefix of what goes through of the joined
/// segments, since the sink need take nothing else.
///
/// The gate is called before each segment.
pub fn emit_alone<'a, K: Sink, G: Gate>(
    decoder: &mut FileDecoder<'a>,
    piece: &mut Piece,
    view: &FileView<'a>,
    window: Window,
    sink: &mut K,
    gate: &G,
    first: u8,
    count: u8,
) -> Result<Emitted, EmitStop>
    requires within { first + count ≤ segment_count view.now }
    requires plans { decoder.old.plans ≡ all_plans view.now }
    requires fresh { decoder.old.begun ≡ 0 }
    requires takes { TakesNext K.takes sink.old
        (seen_through window (joined_in (stretch view.now first count))).bytes }
    ensures ends { Emits K.held K.takes K.faults K.full sink.old sink.new
        (seen_through window (joined_in (stretch view.now first count))) result }
    ensures came { IfOk result (λ emitted.
        emitted.came ≡ length (joined_in (stretch view.now first count)).bytes) }
    ensures few { length (joined_in (stretch view.now first count)).bytes
        ≤ segment_room * most_segments }
    ensures begun { OnOk result (decoder.new.begun ≡ decoder.old.begun + count) }
    // Also if a segment has a fault or the sink fails.
    ensures most { decoder.new.begun ≤ decoder.old.begun + count }
    ensures plans { decoder.new.plans ≡ decoder.old.plans }
    ensures lasting { K.faults sink.old ≤ K.faults sink.new }
{
    segments_are_short(view);
    let mut came = 0;
    let mut pads = no_sums();
    for segment in 0..count {
        let number = first + segment;
        gate.before_own(number);
        decoder.begin(view, number);
        let rest = window.after(came);
        match emit_segment(decoder, piece, rest, sink) {
            Ok((passed, Outcome::Good { pads: more })) => {
                came += passed;
                let (scan, _) = segment_at(view, number);
                add_sum(&mut pads, scan, &more);
            }
            Ok((_, Outcome::Bad(fault))) => return Err(EmitStop::Fault(fault)),
            Err(more) => {
                return Err(EmitStop::WriteFault {
                    written: window.through(came) + more,
                });
            }
        }
    }
    Ok(Emitted {
        bytes: window.through(came),
        came,
        pads,
    })
}

// Writes what the window lets through of what the decoder owes of a segment, piece by piece. Returns how many bytes the
// segment has and how it ends, or how many were written before the sink failed.
fn emit_segment<K: Sink>(
    decoder: &mut FileDecoder,
    piece: &mut Piece,
    window: Window,
    sink: &mut K,
) -> Result<(u64, Outcome), u64>
    requires running { decoder.old.running ≡ true }
    requires owes { (owed : OwesSome decoder.old)
        × TakesNext K.takes sink.old (passed window owed.bytes) }
    requires few { steps_left decoder.old < 2 ^ 33 }
    ensures ends { (bytes : List ℕ) (outcome : Outcome) → FileOwes decoder.old bytes outcome
        → SegmentEnds K.held K.takes K.faults K.full window sink.old sink.new bytes outcome result }
    ensures few { IfOk result (λ ended. ended.0 ≤ pieces_room) }
    ensures short { IfErr result (λ written. written ≤ pieces_room) }
    ensures begun { decoder.new.begun ≡ decoder.old.begun }
    ensures plans { decoder.new.plans ≡ decoder.old.plans }
    ensures lasting { K.faults sink.old ≤ K.faults sink.new }
{
    let mut came = 0;
    loop {
        let step = decoder.step(piece);
        if let Err(more) = write_part(sink, window, came, piece.bytes()) {
            return Err(window.through(came) + more);
        }
        came += piece.len() as u64;
        match step {
            Step::More => {}
            Step::Done { pads } => return Ok((came, Outcome::Good { pads })),
            Step::Fault(fault) => return Ok((came, Outcome::Bad(fault))),
        }
    }
}
