// A file made from a number, encoded, decoded, and what is said of it.
ghost use Rattle.std.specs.Prelude.{◌≡◌, ◌+◌, ◌≤◌, ◌++◌, [], ◌∷◌, IfOk, length};
ghost use Rattle.box_format.specs.declared.version.Version.TheVariants.{Second};
ghost use Rattle.container_spec.specs.ScansFiles.{IsContainerOf};
ghost use Rattle.command_words.specs.Meaning.{IsInRange};
ghost use Rattle.command_words.specs.declared.command.Command.TheVariants.{Sample};
ghost use Rattle.lepton_run.specs.Answers.{TakesAnswers};
ghost use Rattle.lepton_run.specs.CommandEnds.{CarriedOut};
ghost use Rattle.lepton_run.specs.Lines.{line_room};
ghost use Rattle.lepton_run.specs.Samples.{IsSampleFile};
ghost use Rattle.lepton_run.specs.Summaries.{IsSummary, entry, sample_segments, summary_of};

use crate::ending::Ending;
use crate::line::Line;
use crate::writing::write_made;
use allocation::NoMemory;
use box_format::ReadError;
use lepton_decode::{Workers, ample_ring, prepare};
use lepton_encode::EncodeError;
use outside_core::{Compare, Gate, Sink};
use sample_jpeg::sample;
use std::alloc::Global;
use std::sync::Wait;
use std::thread::Threads;

/// The most segments that a sample is encoded in.
const SEGMENTS: u8 = 8;

/// The workers that decode it.
const WORKERS: u8 = 4;

/// Makes the file of a seed, encodes it, decodes the container, and writes how many bytes each step gave.
#[inline(never)]
pub(crate) fn show_sample<R: Threads + Wait + Sync, K: Sink + Send, G: Gate + Sync>(
    rt: &R,
    alloc: Global,
    seed: u32,
    columns: u16,
    rows: u16,
    sink: &mut K,
    gate: &G,
) -> Ending
    requires in_range { IsInRange (Sample seed columns rows) }
    requires takes { TakesAnswers K.takes (Sample seed columns rows) [] sink.old }
    ensures ending { CarriedOut K.held K.faults K.full (Sample seed columns rows) [] sink.old
        sink.new result }
    ensures lasting { K.faults sink.old ≤ K.faults sink.new }
{
    let summary = match recoded(rt, alloc, seed, columns, rows, gate) {
        Ok(summary) => summary,
        Err(short) => return Ending::NoMemory(short),
    };
    write_made(summary.bytes(), sink)
}

// The summary of a sample that was encoded and decoded; the one error is want of memory.
#[inline(never)]
fn recoded<R: Threads + Wait + Sync, G: Gate + Sync>(
    rt: &R,
    alloc: Global,
    seed: u32,
    columns: u16,
    rows: u16,
    gate: &G,
) -> Result<Line, NoMemory>
    requires { IsInRange (Sample seed columns rows) }
    ensures { IfOk result (IsSummary seed columns rows) }
{
    let file = sample(alloc, seed, columns, rows)?;
    let made = encoded(rt, alloc, file.as_slice())?;
    let restored = restored(rt, alloc, made.as_slice(), file.as_slice(), gate)?;
    let segments = u16::from(SEGMENTS).min(rows);
    Ok(summary(file.len(), made.len(), segments, restored))
}

// The container of a sample, which has one scan and which every header and scan check lets pass.
#[inline(never)]
fn encoded<R: Threads + Sync>(rt: &R, alloc: Global, file: &[u8]) -> Result<Vec<u8>, NoMemory>
    requires { IsSampleFile file.now }
    ensures { IfOk result (λ made. IsContainerOf Second (sample_segments ∷ []) made.items file.now) }
{
    match lepton_encode::encode(rt, alloc, file, SEGMENTS) {
        Ok(made) => Ok(made),
        Err(EncodeError::NoMemory(short)) => Err(short),
        Err(EncodeError::Header(_)) => unreachable!(),
        Err(EncodeError::Scan(_)) => unreachable!(),
    }
}

// How many bytes the decoder says that it restored: as many as the file has. The sink keeps none of them; what it
// counts tells no clause anything, and isn't looked at.
#[inline(never)]
fn restored<R: Threads + Wait + Sync, G: Gate + Sync>(
    rt: &R,
    alloc: Global,
    made: &[u8],
    file: &[u8],
    gate: &G,
) -> Result<u64, NoMemory>
    requires container { IsContainerOf Second (sample_segments ∷ []) made.now file.now }
    ensures { IfOk result (λ restored. restored ≡ length file.now) }
{
    let mut ready = match prepare(alloc, made, Workers::Given(WORKERS), ample_ring(made)) {
        Ok(ready) => ready,
        Err(ReadError::NoMemory(short)) => return Err(short),
        Err(ReadError::Box(_)) => unreachable!(),
    };
    let mut sink = Compare::new(file);
    match lepton_decode::run(&mut ready, rt, &mut sink, gate) {
        Ok(restored) => Ok(restored),
        Err(_) => unreachable!(),
    }
}

// The lines of a summary.
#[inline(never)]
fn summary(file: usize, made: usize, segments: u16, restored: u64) -> Line
    ensures { result ≡ summary_of file made segments restored }
{
    let mut lines = Line::new();
    push_entry(&mut lines, b"file ", file);
    push_entry(&mut lines, b"box ", made);
    push_entry(&mut lines, b"segments ", usize::from(segments));
    push_entry(&mut lines, b"workers ", usize::from(WORKERS));
    push_entry(&mut lines, b"restored ", restored as usize);
    lines
}

// A line of a summary.
fn push_entry(lines: &mut Line, word: &[u8], number: usize)
    requires { length lines.old + length word.now + 21 ≤ line_room }
    ensures text { lines.new ≡ lines.old ++ entry word.now number }
    ensures short { length lines.new ≤ length lines.old + length word.now + 21 }
{
    lines.push(word);
    lines.push_number(number);
    lines.push(b"\n");
}
