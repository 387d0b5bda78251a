// A range of a container's file, read into a sink.
ghost use Rattle.std.specs.Prelude.{◌≡◌, ◌≤◌, All, IfSome, false, is_some, length, true};
ghost use Rattle.outside_core.specs.Takes.{TakesNext};
ghost use Rattle.segment_crew.specs.Crews.{HasBegunItsClaims};
ghost use Rattle.lepton_decode.specs.Ends.{team_in};
ghost use Rattle.range_read.specs.RangeEnds.{CanEndRange, IsRanged, RangeEnds, range_in, stretch_in};

use crate::portion::range_portion;
use crate::ready::ReadyRange;
use container_spec::Kind;
use lepton_decode::{DecodeError, play, play_bare};
use outside_core::{Gate, Sink};
use segment_worker::EmitStop;
use std::sync::Wait;
use std::thread::Threads;

/// A range that was read whole.
#[derive(Clone, Copy, Debug, PartialEq, Eq)]
pub struct Ranged {
    /// How many bytes it has.
    pub written: u64,
    /// How many segments were begun for it: those from the first to the last with a place in it.
    pub begun: u8,
}

/// Writes the range of the file: what of the header, of the segments with a place in it, and of the trailer lies
/// there. If one of these segments has a fault, it writes the bytes before the fault and no trailer, also if the fault
/// is after the range's end. No other segment is looked at. It asks no allocator for memory. If a thread can't be had,
/// it does without.
///
/// At each moment, also while the call is under way, what was written is a prefix of the range, since the sink need
/// take nothing else.
///
/// The gate is called before each segment that the emitter asks for, and before and after each put of a worker, with
/// the segment's number in the container.
pub fn run_range<R: Threads + Wait + Sync, K: Sink + Send, G: Gate + Sync>(
    ready: &mut ReadyRange,
    rt: &R,
    sink: &mut K,
    gate: &G,
) -> Result<Ranged, EmitStop>
    requires fresh { ready.old.used ≡ false }
    requires takes { TakesNext K.takes sink.old (range_in ready.old).bytes }
    ensures ends { RangeEnds K.held K.takes K.faults K.full sink.old sink.new (range_in ready.old)
        result }
    // The emitter and each worker began as many segments as it claimed, of those with a place in the range alone.
    ensures begun { IfSome ready.new.crew (λ crew.
        HasBegunItsClaims crew.emitter × All HasBegunItsClaims crew.team) }
    ensures segments { IfSome ready.new.crew (λ crew. crew.segments ≡ stretch_in ready.old) }
    ensures crew { is_some ready.new.crew ≡ is_some ready.old.crew }
    ensures team { length (team_in ready.new.crew) ≡ length (team_in ready.old.crew) }
    ensures used { ready.new.used ≡ true }
    ensures lasting { K.faults sink.old ≤ K.faults sink.new }
{
    ready.used = true;
    let portion = range_portion(&ready.scan, ready.from, ready.to);
    let view = ready.scan.file();
    match &mut ready.crew {
        Some(crew) => {
            let ended = play(rt, view, Kind::Range, &portion, crew, sink, gate);
            as_range(ended, portion.count)
        }
        None => as_range(play_bare(view, Kind::Range, &portion, sink), portion.count),
    }
}

/// A portion that is a range, with `begun` segments, ended like this.
pub(crate) fn as_range(ended: Result<u64, DecodeError>, begun: u8) -> Result<Ranged, EmitStop>
    requires { CanEndRange ended }
    ensures { IsRanged begun ended result }
{
    match ended {
        Ok(written) => Ok(Ranged { written, begun }),
        Err(DecodeError::WriteFault { written }) => Err(EmitStop::WriteFault { written }),
        Err(DecodeError::Fault(fault)) => Err(EmitStop::Fault(fault)),
        Err(DecodeError::PadSpelling) => unreachable!(),
        Err(DecodeError::ChunkShort) => unreachable!(),
    }
}
