// A container that is ready to be decoded.
ghost use Rattle.std.specs.Prelude.{List, ◌≡◌, ◌+◌, ◌*◌, ◌/◌, ◌^◌, ◌<◌, ◌≤◌, All, IfOk, IfSome, IsErrOf, false, is_some, length, max, min, nat_lt, true};
ghost use Rattle.outside_core.specs.Takes.{TakesNext};
ghost use Rattle.box_format.specs.Parts.{BoxSeen};
ghost use Rattle.box_format.specs.declared.refusal.BoxRefusal.{BoxRefusal};
ghost use Rattle.box_format.specs.Containers.{IsContainer, segment_count};
ghost use Rattle.box_format.specs.Checks.{IsRefused};
ghost use Rattle.segment_worker.specs.Contents.{stretch};
ghost use Rattle.segment_crew.specs.Crews.{HasBegunItsClaims};
ghost use Rattle.segment_crew.specs.Worth.{workers_of};
ghost use Rattle.lepton_decode.specs.Ends.{Ends, HasEmitted, HaveLeft, meaning_in, team_in};

use crate::error::DecodeError;
use crate::playing::{play, play_bare};
use crate::portion::meant;
use allocation::NoMemory;
use box_format::{BoxRefusal, FileView, ReadError, read_container, segments_named};
use outside_core::{Gate, Sink};
use segment_crew::{Crew, Workers, workers_of};
use std::alloc::Global;
use std::marker::Model;
use std::sync::Wait;
use std::thread::Threads;

/// A container that is ready to be decoded, once: its scans, and if it has a segment, its board with the seats, and all
/// the memory that decoding needs.
///
/// Clauses see its scans, what is seen of its crew, if it has one, and whether it was decoded.
#[derive(Drop)]
pub struct Ready<'a> {
    pub(crate) view: FileView<'a>,
    pub(crate) crew: Option<Crew<'a>>,
    pub(crate) used: bool,
}

impl<'a> Model for Ready<'a> {
    ghost use Rattle.lepton_decode.specs.Ends.{ReadySeen};
    ghost use Rattle.lepton_decode.specs.ReadyInside.{ready_of, IsReady};

    ghost Value = { ReadySeen };

    ghost view = { ready_of };

    ghost invariant = { IsReady };
}

impl<'a> Ready<'a> {
    /// Whether it was decoded.
    pub fn used(&self) -> bool
        ensures { result ≡ self.now.used }
    {
        self.used
    }
}

/// Reads a container's scans, and allocates all the memory that its decoding by these workers needs: for the emitter
/// and each worker a piece of bytes, and for each scan the bins and an MCU row of blocks; and for each segment a ring
/// of `ring` bytes. No more workers are made than the container has segments. With 0 workers the emitter decodes all.
/// If the container has no segment, there is no board.
#[inline(never)]
pub fn prepare(
    alloc: Global,
    bytes: &[u8],
    workers: Workers,
    ring: u32,
) -> Result<Ready<'_>, ReadError>
    requires { 1 ≤ ring }
    ensures ready { IfOk result (λ ready. IsContainer ready.scans bytes.now) }
    ensures fresh { IfOk result (λ ready. ready.used ≡ false) }
    ensures crew { IfOk result (λ ready.
        is_some ready.crew ≡ nat_lt 0 (segment_count ready.scans)) }
    ensures team { IfOk result (λ ready. let all = segment_count ready.scans in
        length (team_in ready.crew) ≡ min (workers_of ready.scans all workers) all) }
    ensures rings { IfOk result (λ ready.
        IfSome ready.crew (λ crew. crew.emitter.view.capacity ≡ ring)) }
    ensures refused { (refusal : BoxRefusal) → IsErrOf result (ReadError.Box refusal)
        → IsRefused bytes.now refusal }
{
    let view = match read_container(alloc, bytes) {
        Ok(view) => view,
        Err(error) => return Err(error),
    };
    let crew = crew_for(alloc, &view, 0, view.segments(), workers, ring)?;
    Ok(Ready {
        view,
        crew,
        used: false,
    })
}

/// The crew of `count` of a container's segments, from number `first` on, if there is one: no more workers than
/// segments.
#[inline(never)]
pub fn crew_for<'a>(
    alloc: Global,
    view: &FileView<'a>,
    first: u8,
    count: u8,
    workers: Workers,
    ring: u32,
) -> Result<Option<Crew<'a>>, NoMemory>
    requires ring { 1 ≤ ring }
    requires within { first + count ≤ segment_count view.now }
    ensures some { IfOk result (λ crew. is_some crew ≡ nat_lt 0 count) }
    ensures segments { IfOk result (λ crew.
        IfSome crew (λ made. made.segments ≡ stretch view.now first count)) }
    ensures fresh { IfOk result (λ crew. IfSome crew (λ made. made.used ≡ false)) }
    ensures team { IfOk result
        (λ crew. length (team_in crew) ≡ min (workers_of view.now count workers) count) }
    ensures rings { IfOk result (λ crew.
        IfSome crew (λ made. made.emitter.view.capacity ≡ ring)) }
{
    if count == 0 {
        return Ok(None);
    }
    let workers = workers_of(view, count, workers);
    let crew = Crew::prepare(alloc, view, first, count, workers, ring)?;
    Ok(Some(crew))
}

/// Writes the file or the chunk that a container stands for, or if a segment's stream has a fault, the bytes before it,
/// or what there is of a chunk whose segments have too few bytes. It returns how many bytes these are, whatever the
/// number of workers and the order of their calls. It asks no allocator for memory. If a thread can't be had, it does
/// without.
///
/// At each moment, also while the call is under way, what was written is a prefix of the bytes that the container
/// stands for, since the sink need take nothing else.
///
/// The gate is called before each segment that the emitter asks for, and before and after each put of a worker.
pub fn run<R: Threads + Wait + Sync, K: Sink + Send, G: Gate + Sync>(
    ready: &mut Ready,
    rt: &R,
    sink: &mut K,
    gate: &G,
) -> Result<u64, DecodeError>
    requires fresh { ready.old.used ≡ false }
    requires takes { TakesNext K.takes sink.old (meaning_in ready.old).bytes }
    ensures ends { Ends K.held K.takes K.faults K.full sink.old sink.new (meaning_in ready.old) result }
    // If there is a board, what the emitter's seat knows then of it, and that each worker has left it.
    ensures emitted { IfSome ready.new.crew (λ crew.
        HasEmitted (segment_count ready.old.scans) crew.emitter.view result) }
    ensures left { IfSome ready.new.crew (λ crew. HaveLeft crew.team result) }
    // And that the emitter and each worker began as many segments as it claimed.
    ensures begun { IfSome ready.new.crew (λ crew.
        HasBegunItsClaims crew.emitter × All HasBegunItsClaims crew.team) }
    ensures crew { is_some ready.new.crew ≡ is_some ready.old.crew }
    ensures team { length (team_in ready.new.crew) ≡ length (team_in ready.old.crew) }
    ensures used { ready.new.used ≡ true }
    ensures lasting { K.faults sink.old ≤ K.faults sink.new }
{
    ready.used = true;
    let (kind, portion) = meant(&ready.view);
    match &mut ready.crew {
        Some(crew) => play(rt, &ready.view, kind, &portion, crew, sink, gate),
        None => play_bare(&ready.view, kind, &portion, sink),
    }
}

/// The least ring that `ample_ring` gives: 64 KiB.
const LEAST_RING: usize = 1 << 16;

/// The most: 64 MiB.
const MOST_RING: usize = 1 << 26;

/// A ring, in bytes, in which a segment of a photograph fits whole, so that no worker waits for the emitter: twice what
/// the container has for each of its segments, 64 KiB to 64 MiB. All rings together have at most twice the container's
/// length, and 64 KiB for each segment.
#[inline(never)]
pub fn ample_ring(bytes: &[u8]) -> u32
    ensures some { 1 ≤ result }
    ensures least { 2 ^ 16 ≤ result }
    ensures most { result ≤ 2 ^ 26 }
    ensures all { (scans : List BoxSeen) → IsContainer scans bytes.now
        → result * segment_count scans ≤ 2 * length bytes.now + 2 ^ 16 * segment_count scans }
    ensures share { (scans : List BoxSeen) → IsContainer scans bytes.now
        → min (length bytes.now / max (segment_count scans) 1 * 2) (2 ^ 26) ≤ result }
{
    ring_for(bytes.len(), segments_named(bytes).max(1))
}

// The same, by how many bytes the container has and how many segments.
fn ring_for(length: usize, segments: usize) -> u32
    requires { 0 < segments }
    ensures least { 2 ^ 16 ≤ result }
    ensures most { result ≤ 2 ^ 26 }
    ensures all { result * segments ≤ 2 * length + 2 ^ 16 * segments }
    ensures share { min (length / segments * 2) (2 ^ 26) ≤ result }
{
    (length / segments)
        .saturating_mul(2)
        .clamp(LEAST_RING, MOST_RING) as u32
}
