// A container decoded, and the length of what it stands for.
ghost use Rattle.std.specs.Prelude.{◌≡◌, ◌⊎◌, ◌≤◌, ℕ, List, length, take};
ghost use Rattle.box_format.specs.Parts.{BoxSeen};
ghost use Rattle.box_format.specs.Containers.{IsContainer};
ghost use Rattle.container_spec.specs.Portions.{scans_meaning};
ghost use Rattle.lepton_c.specs.Gives.{DecodeGives, EncodeGives, LengthGives, Puts};
ghost use Rattle.lepton_c.specs.Numbers.{numbers_of};
ghost use Rattle.lepton_c.specs.Writes.{Decodes};
ghost use Rattle.lepton_c.specs.declared.answer.Answer.{Answer};

use crate::answer::Answer;
use crate::memory::{MOST_OF_A_CONTAINER, copy, fill};
use crate::nowhere::Nowhere;
use crate::numbers::{LeptonEnding, numbers};
use box_format::ReadError;
use lepton_decode::{DecodeError, prepare_alone, run_alone};
use outside_core::{MemSink, OpenGate};
use std::alloc::Global;

/// The file or the chunk of a container.
#[unsafe(no_mangle)]
pub extern "C" fn lepton_decode(
    alloc: Global,
    bytes: &[u8],
    out: &mut [u8],
    ending: &mut LeptonEnding,
) -> u8
    ensures answer { (answer : Answer) × DecodeGives bytes.now out.old out.new answer
        × (ending.new ≡ numbers_of answer) }
    ensures status { result ≡ ending.new.status }
    // What was encoded is decoded: of what a call of `lepton_encode` with status 0 put for a file, in any number of
    // segments, it gives exactly the file, if there is room for it.
    ensures back { (segments : ℕ) (file old new : List ℕ) (made : Answer)
        → EncodeGives segments file old new made → (numbers_of made).status ≡ 0
        → bytes.now ≡ take (numbers_of made).length new → length file ≤ length out.old
        → ((result ≡ 0) × (ending.new.length ≡ length file) × Puts out.old out.new file)
        ⊎ (result ≡ 5) }
{
    let answer = decode(alloc, bytes, out);
    *ending = numbers(answer);
    ending.status
}

fn decode(alloc: Global, bytes: &[u8], out: &mut [u8]) -> Answer
    ensures { DecodeGives bytes.now out.old out.new result }
{
    if bytes.len() > MOST_OF_A_CONTAINER {
        return Answer::TooLong;
    }
    let mut ready = match prepare_alone(alloc, bytes) {
        Ok(ready) => ready,
        Err(ReadError::Box(refusal)) => return Answer::Box(refusal),
        Err(ReadError::NoMemory(_)) => return Answer::NoMemory,
    };
    let mut sink = match MemSink::new(alloc, out.len(), usize::MAX, &[]) {
        Ok(sink) => sink,
        Err(_) => return Answer::NoMemory,
    };
    let ended = run_alone(&mut ready, &mut sink, &OpenGate);
    finish(ended, sink.bytes(), out)
}

// What a decode comes to that wrote these bytes, which are copied.
fn finish(ended: Result<u64, DecodeError>, held: &[u8], out: &mut [u8]) -> Answer
    ensures { (bytes : List ℕ) (scans : List BoxSeen) → IsContainer scans bytes
        → Decodes held.now (scans_meaning scans) ended
        → DecodeGives bytes out.old out.new result }
{
    let length = held.len() as u64;
    match ended {
        Ok(_) => copy(held, out, Answer::Done { length }),
        Err(DecodeError::Fault(fault)) => copy(held, out, Answer::Fault { fault, length }),
        Err(DecodeError::PadSpelling) => copy(held, out, Answer::PadSpelling { length }),
        Err(DecodeError::ChunkShort) => copy(held, out, Answer::ChunkShort { length }),
        Err(DecodeError::WriteFault { .. }) => fill(held, out),
    }
}

/// How many bytes `lepton_decode` of the same container writes in full, or the refusal with which it ends. The bytes
/// are decoded and dropped.
#[unsafe(no_mangle)]
pub extern "C" fn lepton_length(alloc: Global, bytes: &[u8], ending: &mut LeptonEnding) -> u8
    ensures answer { (answer : Answer) × LengthGives bytes.now answer
        × (ending.new ≡ numbers_of answer) }
    ensures status { result ≡ ending.new.status }
{
    let answer = count(alloc, bytes);
    *ending = numbers(answer);
    ending.status
}

fn count(alloc: Global, bytes: &[u8]) -> Answer
    ensures { LengthGives bytes.now result }
{
    if bytes.len() > MOST_OF_A_CONTAINER {
        return Answer::TooLong;
    }
    let mut ready = match prepare_alone(alloc, bytes) {
        Ok(ready) => ready,
        Err(ReadError::Box(refusal)) => return Answer::Box(refusal),
        Err(ReadError::NoMemory(_)) => return Answer::NoMemory,
    };
    let mut sink = Nowhere;
    match run_alone(&mut ready, &mut sink, &OpenGate) {
        Ok(wanted) => Answer::Counted { wanted },
        Err(DecodeError::Fault(fault)) => Answer::Fault { fault, length: 0 },
        Err(DecodeError::PadSpelling) => Answer::PadSpelling { length: 0 },
        Err(DecodeError::ChunkShort) => Answer::ChunkShort { length: 0 },
        // The sink never fails.
        Err(DecodeError::WriteFault { written: _ }) => unreachable!(),
    }
}
