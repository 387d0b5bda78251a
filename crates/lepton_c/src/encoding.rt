// A file encoded, and a chunk of one.
ghost use Rattle.std.specs.Prelude.{◌≡◌};
ghost use Rattle.lepton_c.specs.Gives.{ChunkGives, EncodeGives};
ghost use Rattle.lepton_c.specs.Numbers.{numbers_of};
ghost use Rattle.lepton_c.specs.declared.answer.Answer.{Answer};

use crate::answer::Answer;
use crate::memory::{MOST_OF_A_FILE, put_made};
use crate::numbers::{LeptonEnding, numbers};
use chunk_cut::{CutError, cut_chunk_alone};
use lepton_encode::{EncodeError, encode_alone};
use std::alloc::Global;

/// The container of a file of one scan or of several, in at most `segments` segments, but at least one for each scan.
#[unsafe(no_mangle)]
pub extern "C" fn lepton_encode(
    alloc: Global,
    segments: u8,
    bytes: &[u8],
    out: &mut [u8],
    ending: &mut LeptonEnding,
) -> u8
    ensures answer { (answer : Answer) × EncodeGives segments bytes.now out.old out.new answer
        × (ending.new ≡ numbers_of answer) }
    ensures status { result ≡ ending.new.status }
{
    let answer = encode(alloc, segments, bytes, out);
    *ending = numbers(answer);
    ending.status
}

fn encode(alloc: Global, segments: u8, bytes: &[u8], out: &mut [u8]) -> Answer
    ensures { EncodeGives segments bytes.now out.old out.new result }
{
    if segments < 1 || segments > 64 {
        return Answer::BadCall;
    }
    if bytes.len() > MOST_OF_A_FILE {
        return Answer::TooLong;
    }
    match encode_alone(alloc, bytes, segments) {
        Ok(made) => put_made(made.as_slice(), out),
        Err(EncodeError::Header(refusal)) => Answer::Header(refusal),
        Err(EncodeError::Scan(refusal)) => Answer::Scan(refusal),
        Err(EncodeError::NoMemory(_)) => Answer::NoMemory,
    }
}

/// The container of chunk `index` of a file of one scan, of its chunks of `size` bytes, in at most `segments` segments.
#[unsafe(no_mangle)]
pub extern "C" fn lepton_chunk(
    alloc: Global,
    index: u64,
    size: u64,
    segments: u8,
    bytes: &[u8],
    out: &mut [u8],
    ending: &mut LeptonEnding,
) -> u8
    ensures answer { (answer : Answer)
        × ChunkGives index size segments bytes.now out.old out.new answer
        × (ending.new ≡ numbers_of answer) }
    ensures status { result ≡ ending.new.status }
{
    let answer = chunk(alloc, index, size, segments, bytes, out);
    *ending = numbers(answer);
    ending.status
}

fn chunk(alloc: Global, index: u64, size: u64, segments: u8, bytes: &[u8], out: &mut [u8]) -> Answer
    ensures { ChunkGives index size segments bytes.now out.old out.new result }
{
    if segments < 1 || segments > 64 || size < 1 {
        return Answer::BadCall;
    }
    if bytes.len() > MOST_OF_A_FILE {
        return Answer::TooLong;
    }
    match cut_chunk_alone(alloc, bytes, segments, size, index) {
        Ok(made) => put_made(made.as_slice(), out),
        Err(CutError::Header(refusal)) => Answer::Header(refusal),
        Err(CutError::Scan(refusal)) => Answer::Scan(refusal),
        Err(CutError::ManyScans) => Answer::ManyScans,
        Err(CutError::NoChunk) => Answer::NoChunk,
        Err(CutError::NoMemory(_)) => Answer::NoMemory,
    }
}
