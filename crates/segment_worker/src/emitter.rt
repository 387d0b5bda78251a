// The emitter.
ghost use Rattle.std.specs.Prelude.{◌≡◌, ◌+◌, ◌*◌, ◌≤◌, length, IfOk, OnOk, OnErr, true};
ghost use Rattle.outside_core.specs.Takes.{TakesNext};
ghost use Rattle.box_format.specs.Versions.{most_segments};
ghost use Rattle.box_format.specs.Containers.{segment_count};
ghost use Rattle.segment_worker.specs.Contents.{segment_room, stretch};
ghost use Rattle.segment_worker.specs.Emitting.{Emits, IsNewEmitter, IsThrough, IsUsedEmitter, joined_in, seen_through};

use crate::content::Told;
use crate::emitted::{EmitStop, Emitted};
use crate::emitter_own::emit_unclaimed;
use crate::emitter_part::write_part;
use crate::lengths::segments_are_short;
use crate::shared::Shared;
use bit_list::Piece;
use box_format::FileView;
use byte_window::Window;
use handover::{Outcome, add_sum, no_sums};
use output_board::{Board, EmitterSeat, Take};
use outside_core::{Gate, Sink};
use segment_code::{FileDecoder, segment_at};
use std::sync::Wait;
use std::thread::yield_now;

/// The most bytes of one take from a ring.
const MOST_TAKEN: usize = 8_192;

/// Writes what the window lets through of `count` segments in order, from the container's number `first` on, the bytes
/// of each from its ring, or decoded here if nobody has claimed it when its turn comes. It returns after the last one,
/// also if nothing goes through any more; or it stops the board, after the first with a fault, or if the sink fails.
///
/// Before it decodes a segment that nobody has claimed, it lets other threads run and looks again, `patience` times in
/// all.
///
/// At each moment, also while the call is under way, what was written is a prefix of what goes through of the joined
/// segments, since the sink need take nothing else.
///
/// The gate is called before each segment that the emitter asks for.
pub fn emit<'a, R: Wait, K: Sink, G: Gate>(
    rt: &R,
    decoder: &mut FileDecoder<'a>,
    piece: &mut Piece,
    seat: &mut EmitterSeat<Told<'a>>,
    board: &Board<Told<'a>>,
    view: &FileView<'a>,
    window: Window,
    sink: &mut K,
    gate: &G,
    first: u8,
    count: u8,
    patience: u32,
) -> Result<Emitted, EmitStop>
    requires within { first + count ≤ segment_count view.now }
    requires new { IsNewEmitter board.now (stretch view.now first count) seat.old decoder.old }
    requires takes { TakesNext K.takes sink.old
        (seen_through window (joined_in (stretch view.now first count))).bytes }
    ensures ends { Emits K.held K.takes K.faults K.full sink.old sink.new
        (seen_through window (joined_in (stretch view.now first count))) result }
    ensures came { IfOk result (λ emitted.
        emitted.came ≡ length (joined_in (stretch view.now first count)).bytes) }
    ensures through { OnOk result (IsThrough count seat.new.view) }
    ensures stopped { OnErr result (seat.new.view.stopped ≡ true) }
    ensures used { IsUsedEmitter board.now (stretch view.now first count) seat.new decoder.new }
    ensures few { length (joined_in (stretch view.now first count)).bytes
        ≤ segment_room * most_segments }
    ensures lasting { K.faults sink.old ≤ K.faults sink.new }
{
    segments_are_short(view);
    let shared = Shared {
        board,
        view,
        first,
        count,
        gate,
    };
    let mut buffer = [0; MOST_TAKEN];
    let mut came = 0;
    let mut pads = no_sums();
    let mut current = 0;
    let mut patience = patience;
    for _ in rt.forever() {
        match board.take(rt, seat, &mut buffer) {
            Take::Bytes(taken) => {
                if let Err(more) = write_part(sink, window, came, &buffer[..taken]) {
                    board.stop(rt, seat);
                    return Err(EmitStop::WriteFault {
                        written: window.through(came) + more,
                    });
                }
                came += taken as u64;
            }
            Take::Ended(Outcome::Good { pads: more }) => {
                let (scan, _) = segment_at(view, first + current);
                add_sum(&mut pads, scan, &more);
                current += 1;
            }
            Take::Ended(Outcome::Bad(fault)) => {
                board.stop(rt, seat);
                return Err(EmitStop::Fault(fault));
            }
            Take::Unclaimed => {
                if patience > 0 {
                    patience -= 1;
                    yield_now();
                    continue;
                }
                let rest = window.after(came);
                match emit_unclaimed(rt, decoder, piece, seat, &shared, rest, sink, current) {
                    Ok(passed) => came += passed,
                    Err(more) => {
                        board.stop(rt, seat);
                        return Err(EmitStop::WriteFault {
                            written: window.through(came) + more,
                        });
                    }
                }
            }
            Take::NotYet => board.pause_emitter(rt, seat),
            Take::Over => {
                return Ok(Emitted {
                    bytes: window.through(came),
                    came,
                    pads,
                });
            }
        }
    }
    unreachable!()
}
