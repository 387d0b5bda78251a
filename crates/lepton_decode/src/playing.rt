// A portion of a container, written while its segments are decoded.
ghost use Rattle.std.specs.Prelude.{◌≡◌, ◌+◌, ◌≤◌, All, IfOk, OnOk, false, length};
ghost use Rattle.outside_core.specs.Takes.{TakesNext};
ghost use Rattle.box_format.specs.Containers.{all_plans, segment_count};
ghost use Rattle.container_spec.specs.Portions.{portion_meaning};
ghost use Rattle.segment_crew.specs.Crews.{HasBegunItsClaims};
ghost use Rattle.lepton_decode.specs.Ends.{Ends, HasEmitted, HaveLeft};
ghost use Rattle.lepton_decode.specs.Played.{IsWindowed, stretch_of};

use crate::around::{end, finish, put};
use crate::error::DecodeError;
use crate::portion::Portion;
use allocation::NoMemory;
use bit_list::Piece;
use box_format::FileView;
use container_spec::Kind;
use handover::no_sums;
use outside_core::{Gate, Sink};
use segment_code::FileDecoder;
use segment_crew::Crew;
use segment_worker::{Emitted, emit_alone};
use std::alloc::Global;
use std::sync::Wait;
use std::thread::Threads;

/// Writes a portion whose segments a crew decodes, or if one of them has a fault, the bytes before it. It returns how
/// many bytes it wrote. It asks no allocator for memory. At each moment what was written is a prefix of what the
/// portion stands for, since the sink need take nothing else.
///
/// The gate is called before each segment that the emitter asks for, and before and after each put of a worker.
pub fn play<'a, R: Threads + Wait + Sync, K: Sink + Send, G: Gate + Sync>(
    rt: &R,
    view: &FileView<'a>,
    kind: Kind,
    portion: &Portion,
    crew: &mut Crew<'a>,
    sink: &mut K,
    gate: &G,
) -> Result<u64, DecodeError>
    requires windowed { IsWindowed kind view.now portion.now }
    requires fresh { crew.old.used ≡ false }
    requires segments { crew.old.segments ≡ stretch_of view.now portion.now }
    requires takes { TakesNext K.takes sink.old (portion_meaning kind view.now portion.now).bytes }
    ensures ends { Ends K.held K.takes K.faults K.full sink.old sink.new
        (portion_meaning kind view.now portion.now) result }
    ensures emitted { HasEmitted portion.now.count crew.new.emitter.view result }
    ensures left { HaveLeft crew.new.team result }
    ensures emitter { HasBegunItsClaims crew.new.emitter }
    ensures team { All HasBegunItsClaims crew.new.team }
    ensures count { length crew.new.team ≡ length crew.old.team }
    ensures segments { crew.new.segments ≡ crew.old.segments }
    ensures lasting { K.faults sink.old ≤ K.faults sink.new }
{
    // Called for its clauses: before the crew is used, too, each began as many segments as it claimed.
    let _used = crew.used();
    match put(sink, portion.before) {
        Ok(()) => {}
        Err(written) => return Err(DecodeError::WriteFault { written }),
    }
    let emitted = crew.emit(rt, view, portion.within, sink, gate);
    end(view, kind, portion, emitted, sink)
}

/// What decodes segments on the calling thread: a decoder, and a piece of bytes that it fills.
#[derive(Drop)]
pub struct Lone<'a> {
    pub decoder: FileDecoder<'a>,
    pub piece: Piece,
}

impl<'a> Lone<'a> {
    /// All the memory that decoding a container's segments on one thread needs.
    pub fn prepare(alloc: Global, view: &FileView<'a>) -> Result<Lone<'a>, NoMemory>
        ensures plans { IfOk result (λ lone. lone.decoder.plans ≡ all_plans view.now) }
        ensures fresh { IfOk result (λ lone. lone.decoder.begun ≡ 0) }
    {
        let decoder = FileDecoder::prepare(alloc, view.plans())?;
        let piece = Piece::new(alloc)?;
        Ok(Lone { decoder, piece })
    }
}

/// Writes what `play` writes, and answers what it answers, on the calling thread. Nothing in it waits.
///
/// The gate is called before each segment.
pub fn play_alone<'a, K: Sink, G: Gate>(
    view: &FileView<'a>,
    kind: Kind,
    portion: &Portion,
    lone: &mut Lone<'a>,
    sink: &mut K,
    gate: &G,
) -> Result<u64, DecodeError>
    requires windowed { IsWindowed kind view.now portion.now }
    requires within { portion.now.first + portion.now.count ≤ segment_count view.now }
    requires plans { lone.old.decoder.plans ≡ all_plans view.now }
    requires fresh { lone.old.decoder.begun ≡ 0 }
    requires takes { TakesNext K.takes sink.old (portion_meaning kind view.now portion.now).bytes }
    ensures ends { Ends K.held K.takes K.faults K.full sink.old sink.new
        (portion_meaning kind view.now portion.now) result }
    ensures begun { OnOk result (lone.new.decoder.begun ≡ portion.now.count) }
    ensures most { lone.new.decoder.begun ≤ portion.now.count }
    ensures plans { lone.new.decoder.plans ≡ lone.old.decoder.plans }
    ensures lasting { K.faults sink.old ≤ K.faults sink.new }
{
    match put(sink, portion.before) {
        Ok(()) => {}
        Err(written) => return Err(DecodeError::WriteFault { written }),
    }
    let emitted = emit_alone(
        &mut lone.decoder,
        &mut lone.piece,
        view,
        portion.within,
        sink,
        gate,
        portion.first,
        portion.count,
    );
    end(view, kind, portion, emitted, sink)
}

/// Writes a portion that has no segment.
pub fn play_bare<K: Sink>(
    view: &FileView,
    kind: Kind,
    portion: &Portion,
    sink: &mut K,
) -> Result<u64, DecodeError>
    requires windowed { IsWindowed kind view.now portion.now }
    requires none { portion.now.count ≡ 0 }
    requires takes { TakesNext K.takes sink.old (portion_meaning kind view.now portion.now).bytes }
    ensures ends { Ends K.held K.takes K.faults K.full sink.old sink.new
        (portion_meaning kind view.now portion.now) result }
    ensures lasting { K.faults sink.old ≤ K.faults sink.new }
{
    match put(sink, portion.before) {
        Ok(()) => {}
        Err(written) => return Err(DecodeError::WriteFault { written }),
    }
    let emitted = Emitted {
        bytes: 0,
        came: 0,
        pads: no_sums(),
    };
    finish(view, kind, portion, emitted, sink)
}
