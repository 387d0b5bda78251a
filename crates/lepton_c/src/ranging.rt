// A range of a container's file.
ghost use Rattle.std.specs.Prelude.{◌≡◌, ◌⊎◌, ◌-◌, ◌≤◌, ℕ, List, false, length, take};
ghost use Rattle.byte_window.specs.Slices.{slice};
ghost use Rattle.jpeg_marker.specs.Plans.{PlanFields};
ghost use Rattle.box_format.specs.Parts.{BoxParts};
ghost use Rattle.box_format.specs.Single.{IsBoxOf};
ghost use Rattle.box_format.specs.Versions.{IsRead, ranged};
ghost use Rattle.container_spec.specs.RangeMeanings.{is_bad_range, range_meaning};
ghost use Rattle.lepton_c.specs.Gives.{EncodeGives, IndexGives, Puts, RangeGives};
ghost use Rattle.lepton_c.specs.Numbers.{numbers_of};
ghost use Rattle.lepton_c.specs.Writes.{Reads};
ghost use Rattle.lepton_c.specs.declared.answer.Answer.{Answer};

use crate::answer::Answer;
use crate::memory::{MOST_OF_A_CONTAINER, copy, fill};
use crate::numbers::{LeptonEnding, numbers};
use outside_core::{MemSink, OpenGate};
use range_read::{RangeError, Ranged, prepare_range_alone, run_range_alone};
use segment_worker::EmitStop;
use std::alloc::Global;

/// The bytes of a file from place `from` to before place `to`, of its container of version 5.
#[unsafe(no_mangle)]
pub extern "C" fn lepton_range(
    alloc: Global,
    from: u64,
    to: u64,
    bytes: &[u8],
    out: &mut [u8],
    ending: &mut LeptonEnding,
) -> u8
    ensures answer { (answer : Answer) × RangeGives from to bytes.now out.old out.new answer
        × (ending.new ≡ numbers_of answer) }
    ensures status { result ≡ ending.new.status }
    // A range is read alone: of what `lepton_index` with status 0 put for what `lepton_encode` with status 0 put for a
    // file, in any number of segments, it gives exactly that slice of the file, if there is room for it.
    ensures back { (segments : ℕ) (file container old new before after : List ℕ) (made kept : Answer)
        → EncodeGives segments file old new made → (numbers_of made).status ≡ 0
        → container ≡ take (numbers_of made).length new
        → IndexGives container before after kept → (numbers_of kept).status ≡ 0
        → bytes.now ≡ take (numbers_of kept).length after
        → from ≤ to → to ≤ length file → to - from ≤ length out.old
        → ((result ≡ 0) × (ending.new.length ≡ to - from)
        × Puts out.old out.new (slice from to file))
        ⊎ (result ≡ 5) }
{
    let answer = range(alloc, from, to, bytes, out);
    *ending = numbers(answer);
    ending.status
}

fn range(alloc: Global, from: u64, to: u64, bytes: &[u8], out: &mut [u8]) -> Answer
    ensures { RangeGives from to bytes.now out.old out.new result }
{
    if bytes.len() > MOST_OF_A_CONTAINER {
        return Answer::TooLong;
    }
    let mut ready = match prepare_range_alone(alloc, bytes, from, to) {
        Ok(ready) => ready,
        Err(RangeError::Box(refusal)) => return Answer::Box(refusal),
        Err(RangeError::RangeBad) => return Answer::RangeBad,
        Err(RangeError::NoMemory(_)) => return Answer::NoMemory,
    };
    let mut sink = match MemSink::new(alloc, out.len(), usize::MAX, &[]) {
        Ok(sink) => sink,
        Err(_) => return Answer::NoMemory,
    };
    let ended = run_range_alone(&mut ready, &mut sink, &OpenGate);
    finish(ended, sink.bytes(), out)
}

// What a range comes to of which these bytes were written, which are copied.
fn finish(ended: Result<Ranged, EmitStop>, held: &[u8], out: &mut [u8]) -> Answer
    ensures { (from to : ℕ) (bytes : List ℕ) (plan : PlanFields) (b : BoxParts) → IsBoxOf plan b bytes
        → IsRead ranged b.version → is_bad_range b from to ≡ false
        → Reads held.now (range_meaning plan b from to) ended
        → RangeGives from to bytes out.old out.new result }
{
    let length = held.len() as u64;
    match ended {
        Ok(_) => copy(held, out, Answer::Done { length }),
        Err(EmitStop::Fault(fault)) => copy(held, out, Answer::Fault { fault, length }),
        Err(EmitStop::WriteFault { .. }) => fill(held, out),
    }
}
