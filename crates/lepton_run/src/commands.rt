// The commands, on the bytes that they took.
ghost use Rattle.std.specs.Prelude.{◌≡◌, ◌≤◌, Result, length};
ghost use Rattle.command_words.specs.Meaning.{IsInRange};
ghost use Rattle.command_words.specs.declared.command.Command.TheVariants.{Encode, Decode, Migrate, Chunk, Index, Range};
ghost use Rattle.lepton_decode.specs.declared.error.DecodeError.{DecodeError};
ghost use Rattle.range_read.specs.declared.reading.Ranged.{Ranged};
ghost use Rattle.segment_worker.specs.declared.emitted.EmitStop.{EmitStop};
ghost use Rattle.lepton_run.specs.Answers.{TakesAnswers, limit_of};
ghost use Rattle.lepton_run.specs.DecodeEndings.{IsNoMemory, decode_ending, range_ending};
ghost use Rattle.lepton_run.specs.CommandEnds.{CarriedOut};

use crate::ending::Ending;
use crate::refusal::Refusal;
use crate::sample_command::show_sample;
use crate::writing::write_made;
use box_format::ReadError;
use chunk_cut::{CutError, cut_chunk};
use command_words::Command;
use lepton_decode::{DecodeError, Workers, ample_ring, prepare, prepare_alone, run, run_alone};
use lepton_encode::EncodeError;
use outside_core::{Gate, Sink};
use range_read::{
    IndexError, RangeError, Ranged, prepare_range, prepare_range_alone, run_range, run_range_alone,
};
use segment_worker::EmitStop;
use std::alloc::Global;
use std::sync::Wait;
use std::thread::Threads;

/// Writes what the command makes of the bytes that it took.
#[inline(never)]
pub(crate) fn carry_out<R: Threads + Wait + Sync, K: Sink + Send, G: Gate + Sync>(
    rt: &R,
    alloc: Global,
    command: Command,
    bytes: &[u8],
    sink: &mut K,
    gate: &G,
) -> Ending
    requires short { length bytes.now ≤ limit_of command }
    requires in_range { IsInRange command }
    requires takes { TakesAnswers K.takes command bytes.now sink.old }
    ensures ending { CarriedOut K.held K.faults K.full command bytes.now sink.old sink.new result }
    ensures lasting { K.faults sink.old ≤ K.faults sink.new }
{
    match command {
        Command::Encode { segments } => encode(rt, alloc, segments, bytes, sink),
        Command::Decode { workers: 0 } => decode_alone(alloc, bytes, sink, gate),
        Command::Decode { workers } => decode(rt, alloc, workers, bytes, sink, gate),
        Command::Migrate => migrate(alloc, bytes, sink),
        Command::Chunk {
            index,
            size,
            segments,
        } => chunk(rt, alloc, index, size, segments, bytes, sink),
        Command::Index => index(rt, alloc, bytes, sink),
        Command::Range {
            from,
            to,
            workers: 0,
        } => range_alone(alloc, from, to, bytes, sink, gate),
        Command::Range { from, to, workers } => {
            range(rt, alloc, from, to, workers, bytes, sink, gate)
        }
        Command::Sample {
            seed,
            columns,
            rows,
        } => show_sample(rt, alloc, seed, columns, rows, sink, gate),
    }
}

// The container of a file, written once it is whole. It has no `Wait`, so it returns.
#[inline(never)]
fn encode<R: Threads + Sync, K: Sink>(
    rt: &R,
    alloc: Global,
    segments: u8,
    bytes: &[u8],
    sink: &mut K,
) -> Ending
    requires short { length bytes.now ≤ limit_of (Encode segments) }
    requires in_range { IsInRange (Encode segments) }
    requires takes { TakesAnswers K.takes (Encode segments) bytes.now sink.old }
    ensures ending { CarriedOut K.held K.faults K.full (Encode segments) bytes.now sink.old sink.new
        result }
    ensures lasting { K.faults sink.old ≤ K.faults sink.new }
{
    let made = match lepton_encode::encode(rt, alloc, bytes, segments) {
        Ok(made) => made,
        Err(EncodeError::Header(refusal)) => return Ending::Refused(Refusal::Header(refusal)),
        Err(EncodeError::Scan(refusal)) => return Ending::Refused(Refusal::Scan(refusal)),
        Err(EncodeError::NoMemory(short)) => return Ending::NoMemory(short),
    };
    write_made(made.as_slice(), sink)
}

// The file or the chunk of a container, decoded by `workers` threads beside this one. All memory is allocated before
// the first byte is written.
#[inline(never)]
fn decode<R: Threads + Wait + Sync, K: Sink + Send, G: Gate + Sync>(
    rt: &R,
    alloc: Global,
    workers: u8,
    bytes: &[u8],
    sink: &mut K,
    gate: &G,
) -> Ending
    requires short { length bytes.now ≤ limit_of (Decode workers) }
    requires takes { TakesAnswers K.takes (Decode workers) bytes.now sink.old }
    ensures ending { CarriedOut K.held K.faults K.full (Decode workers) bytes.now sink.old sink.new
        result }
    ensures lasting { K.faults sink.old ≤ K.faults sink.new }
{
    let mut ready = match prepare(alloc, bytes, Workers::Worth(workers), ample_ring(bytes)) {
        Ok(ready) => ready,
        Err(ReadError::Box(refusal)) => return Ending::Refused(Refusal::Box(refusal)),
        Err(ReadError::NoMemory(short)) => return Ending::NoMemory(short),
    };
    let ended = run(&mut ready, rt, sink, gate);
    ending_by(ended)
}

// The file or the chunk of a container, decoded on this thread. It has no `Wait`, so it returns.
#[inline(never)]
fn decode_alone<K: Sink, G: Gate>(alloc: Global, bytes: &[u8], sink: &mut K, gate: &G) -> Ending
    requires short { length bytes.now ≤ limit_of (Decode 0) }
    requires takes { TakesAnswers K.takes (Decode 0) bytes.now sink.old }
    ensures ending { CarriedOut K.held K.faults K.full (Decode 0) bytes.now sink.old sink.new
        result }
    ensures lasting { K.faults sink.old ≤ K.faults sink.new }
{
    let mut ready = match prepare_alone(alloc, bytes) {
        Ok(ready) => ready,
        Err(ReadError::Box(refusal)) => return Ending::Refused(Refusal::Box(refusal)),
        Err(ReadError::NoMemory(short)) => return Ending::NoMemory(short),
    };
    let ended = run_alone(&mut ready, sink, gate);
    ending_by(ended)
}

// The same container in version 2, if it is of version 1 or 2, written once it is whole. It has no `Wait`, so it
// returns.
#[inline(never)]
fn migrate<K: Sink>(alloc: Global, bytes: &[u8], sink: &mut K) -> Ending
    requires short { length bytes.now ≤ limit_of Migrate }
    requires takes { TakesAnswers K.takes Migrate bytes.now sink.old }
    ensures ending { CarriedOut K.held K.faults K.full Migrate bytes.now sink.old sink.new result }
    ensures lasting { K.faults sink.old ≤ K.faults sink.new }
{
    let made = match box_format::migrate(alloc, bytes) {
        Ok(made) => made,
        Err(box_format::Migrate::Box(refusal)) => return Ending::Refused(Refusal::Box(refusal)),
        Err(box_format::Migrate::NoMemory(short)) => return Ending::NoMemory(short),
    };
    write_made(made.as_slice(), sink)
}

// The container of a chunk of a file, written once it is whole. It has no `Wait`, so it returns.
#[inline(never)]
fn chunk<R: Threads + Sync, K: Sink>(
    rt: &R,
    alloc: Global,
    index: u32,
    size: u32,
    segments: u8,
    bytes: &[u8],
    sink: &mut K,
) -> Ending
    requires short { length bytes.now ≤ limit_of (Chunk index size segments) }
    requires in_range { IsInRange (Chunk index size segments) }
    requires takes { TakesAnswers K.takes (Chunk index size segments) bytes.now sink.old }
    ensures ending { CarriedOut K.held K.faults K.full (Chunk index size segments) bytes.now sink.old
        sink.new result }
    ensures lasting { K.faults sink.old ≤ K.faults sink.new }
{
    let made = match cut_chunk(
        rt,
        alloc,
        bytes,
        segments,
        u64::from(size),
        u64::from(index),
    ) {
        Ok(made) => made,
        Err(CutError::Header(refusal)) => return Ending::Refused(Refusal::Header(refusal)),
        Err(CutError::Scan(refusal)) => return Ending::Refused(Refusal::Scan(refusal)),
        Err(CutError::ManyScans) => return Ending::Refused(Refusal::ManyScans),
        Err(CutError::NoChunk) => return Ending::Refused(Refusal::NoChunk),
        Err(CutError::NoMemory(short)) => return Ending::NoMemory(short),
    };
    write_made(made.as_slice(), sink)
}

// The same container in version 5, if it is of version 1, 2 or 5 and stands for a file, written once it is whole. It
// has no `Wait`, so it returns.
#[inline(never)]
fn index<R: Threads + Sync, K: Sink>(rt: &R, alloc: Global, bytes: &[u8], sink: &mut K) -> Ending
    requires short { length bytes.now ≤ limit_of Index }
    requires takes { TakesAnswers K.takes Index bytes.now sink.old }
    ensures ending { CarriedOut K.held K.faults K.full Index bytes.now sink.old sink.new result }
    ensures lasting { K.faults sink.old ≤ K.faults sink.new }
{
    let made = match range_read::index(rt, alloc, bytes) {
        Ok(made) => made,
        Err(IndexError::Box(refusal)) => return Ending::Refused(Refusal::Box(refusal)),
        Err(IndexError::Fault(fault)) => return Ending::Refused(Refusal::Fault(fault)),
        Err(IndexError::PadSpelling) => return Ending::Refused(Refusal::PadSpelling),
        Err(IndexError::NoMemory(short)) => return Ending::NoMemory(short),
    };
    write_made(made.as_slice(), sink)
}

// The bytes of a container's file from one place to before another, decoded by `workers` threads beside this one.
#[inline(never)]
fn range<R: Threads + Wait + Sync, K: Sink + Send, G: Gate + Sync>(
    rt: &R,
    alloc: Global,
    from: u64,
    to: u64,
    workers: u8,
    bytes: &[u8],
    sink: &mut K,
    gate: &G,
) -> Ending
    requires short { length bytes.now ≤ limit_of (Range from to workers) }
    requires takes { TakesAnswers K.takes (Range from to workers) bytes.now sink.old }
    ensures ending { CarriedOut K.held K.faults K.full (Range from to workers) bytes.now sink.old
        sink.new result }
    ensures lasting { K.faults sink.old ≤ K.faults sink.new }
{
    let mut ready = match prepare_range(
        alloc,
        bytes,
        from,
        to,
        Workers::Worth(workers),
        ample_ring(bytes),
    ) {
        Ok(ready) => ready,
        Err(RangeError::Box(refusal)) => return Ending::Refused(Refusal::Box(refusal)),
        Err(RangeError::RangeBad) => return Ending::Refused(Refusal::RangeBad),
        Err(RangeError::NoMemory(short)) => return Ending::NoMemory(short),
    };
    let ended = run_range(&mut ready, rt, sink, gate);
    range_ended_by(ended)
}

// The bytes of a container's file from one place to before another, decoded on this thread. It has no `Wait`, so it
// returns.
#[inline(never)]
fn range_alone<K: Sink, G: Gate>(
    alloc: Global,
    from: u64,
    to: u64,
    bytes: &[u8],
    sink: &mut K,
    gate: &G,
) -> Ending
    requires short { length bytes.now ≤ limit_of (Range from to 0) }
    requires takes { TakesAnswers K.takes (Range from to 0) bytes.now sink.old }
    ensures ending { CarriedOut K.held K.faults K.full (Range from to 0) bytes.now sink.old sink.new
        result }
    ensures lasting { K.faults sink.old ≤ K.faults sink.new }
{
    let mut ready = match prepare_range_alone(alloc, bytes, from, to) {
        Ok(ready) => ready,
        Err(RangeError::Box(refusal)) => return Ending::Refused(Refusal::Box(refusal)),
        Err(RangeError::RangeBad) => return Ending::Refused(Refusal::RangeBad),
        Err(RangeError::NoMemory(short)) => return Ending::NoMemory(short),
    };
    let ended = run_range_alone(&mut ready, sink, gate);
    range_ended_by(ended)
}

// How the command ends by what a decode answers.
fn ending_by(ended: Result<u64, DecodeError>) -> Ending
    ensures ending { result ≡ decode_ending ended }
    ensures memory { ¬ IsNoMemory result }
{
    match ended {
        Ok(_) => Ending::Done,
        Err(DecodeError::Fault(fault)) => Ending::Refused(Refusal::Fault(fault)),
        Err(DecodeError::PadSpelling) => Ending::Refused(Refusal::PadSpelling),
        Err(DecodeError::ChunkShort) => Ending::Refused(Refusal::ChunkShort),
        Err(DecodeError::WriteFault { .. }) => Ending::WriteFailed,
    }
}

// How the command ends by what a range answers.
fn range_ended_by(ended: Result<Ranged, EmitStop>) -> Ending
    ensures ending { result ≡ range_ending ended }
    ensures memory { ¬ IsNoMemory result }
{
    match ended {
        Ok(_) => Ending::Done,
        Err(EmitStop::Fault(fault)) => Ending::Refused(Refusal::Fault(fault)),
        Err(EmitStop::WriteFault { .. }) => Ending::WriteFailed,
    }
}
